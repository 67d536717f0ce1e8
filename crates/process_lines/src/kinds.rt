//! The kind whose word it is, by what its letters are about.

ghost use Rattle.std.specs.Prelude.{◌≡◌};
ghost use Rattle.process_rules.specs.ReadLetter.{kind_among, kinds, reply_kinds, request_kinds, transfer_kinds};

use directory_rules::LetterKind;

/// The kind of that word, if it is one.
pub(crate) fn kind_of_word(word: &[u8]) -> Option<LetterKind>
    ensures { result ≡ kind_among kinds word.now }
{
    if let Some(kind) = request_kind(word) {
        return Some(kind);
    }
    if let Some(kind) = reply_kind(word) {
        return Some(kind);
    }
    transfer_kind(word)
}

/// Of requests and offers.
fn request_kind(word: &[u8]) -> Option<LetterKind>
    ensures { result ≡ kind_among request_kinds word.now }
{
    match word {
        b"register" => Some(LetterKind::Register),
        b"deregister" => Some(LetterKind::Deregister),
        b"find" => Some(LetterKind::Find),
        b"offer" => Some(LetterKind::Offer),
        _ => None,
    }
}

/// Of replies.
fn reply_kind(word: &[u8]) -> Option<LetterKind>
    ensures { result ≡ kind_among reply_kinds word.now }
{
    match word {
        b"registered" => Some(LetterKind::Registered),
        b"taken" => Some(LetterKind::Taken),
        b"removed" => Some(LetterKind::Removed),
        b"absent" => Some(LetterKind::Absent),
        b"found" => Some(LetterKind::Found),
        b"nothing" => Some(LetterKind::Nothing),
        b"retry" => Some(LetterKind::Retry),
        _ => None,
    }
}

/// Of transfers and recoveries.
fn transfer_kind(word: &[u8]) -> Option<LetterKind>
    ensures { result ≡ kind_among transfer_kinds word.now }
{
    match word {
        b"ask" => Some(LetterKind::Ask),
        b"page" => Some(LetterKind::Page),
        b"missing" => Some(LetterKind::Missing),
        b"done" => Some(LetterKind::Done),
        b"query" => Some(LetterKind::Query),
        b"report" => Some(LetterKind::Report),
        b"survey" => Some(LetterKind::Survey),
        b"empty" => Some(LetterKind::Empty),
        b"behind" => Some(LetterKind::Behind),
        b"ahead" => Some(LetterKind::Ahead),
        _ => None,
    }
}
