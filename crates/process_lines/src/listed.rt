//! The silos of a view, each in one word.

ghost use Rattle.std.specs.Prelude.{◌≡◌, ◌≢◌, ◌<◌, [], ◌∷◌, ◌++◌, IfSome, IsErrOf, MatchOption, length};
ghost use Rattle.texts.specs.Words.{pieces_at, words_in};
ghost use Rattle.directory_rules.specs.ListedModel.{all_listed_of, listed_of};
ghost use Rattle.script_rules.specs.Script as script;
ghost use Rattle.process_rules.specs.ReadLine as rule;
ghost use Rattle.process_lines.specs.ReadAs.{Reads, ReadsUnlessMemory, told};
ghost use Rattle.process_lines.specs.AskedModel.{asked_of};
ghost use Rattle.process_lines.specs.Memory.{WordsNeedMemory};
ghost use Rattle.process_lines.specs.Colons.{Cuts, CutsRest, checked, no_value, places_of, with_place};

use crate::words::place_word;
use crate::{Asked, LineError, LineFault, number_word, silo_word};
use directory_rules::Listed;
use membership_view::Status;
use script_lines::split_word;
use std::alloc::Global;
use texts::first_position;

/// What stands between the colons of a word that lists a silo, but for the silo's own one.
#[derive(Clone, Copy)]
pub(crate) struct Pieces<'a> {
    pub silo: &'a [u8],
    pub status: Status,
    pub places: Option<&'a [u8]>,
}

/// A version, and any number of silos. That memory ran out is told only where each word lists one.
pub(crate) fn a_view(alloc: Global, words: &[u8]) -> Result<Asked<'_>, LineError>
    ensures reads { Reads asked_of result (rule.a_view (words_in words.now)) }
    ensures memory { IsErrOf result LineError.OutOfMemory → WordsNeedMemory (rule.a_view (words_in words.now)) }
{
    let Some((version, behind)) = split_word(words) else {
        return Err(LineError::Fault(LineFault::WordCount));
    };
    let version = number_word(version)?;
    check_listed(behind)?;
    let rows = listed_in(alloc, behind)?;
    Ok(Asked::Begin { version, rows })
}

// The first fault of the words, if one has any.
fn check_listed(words: &[u8]) -> Result<(), LineFault>
    ensures { told no_value result ≡ checked (rule.listed_in (words_in words.now)) }
{
    let mut rest = words;
    'words: while let Some((word, behind)) = split_word(rest) {
        check_word(word)?;
        rest = behind;
    }
    Ok(())
}

// The fault of a word, if it has one.
fn check_word(word: &[u8]) -> Result<(), LineFault>
    ensures { told no_value result ≡ checked (rule.listed_word word.now) }
{
    let pieces = pieces_of(word)?;
    let _silo = silo_word(pieces.silo)?;
    match pieces.places {
        Some(places) => check_places(places),
        None => Ok(()),
    }
}

// The fault of the places, if they have one.
fn check_places(text: &[u8]) -> Result<(), LineFault>
    ensures { told no_value result ≡ checked (script.places_in (pieces_at rule.comma text.now)) }
{
    let mut rest = text;
    'pieces: while let Some((place, behind)) = split_at(rest, b',') {
        let _place = place_word(place)?;
        rest = behind;
    }
    let _place = place_word(rest)?;
    Ok(())
}

// The silos that the words list. Memory may run out at the first word.
fn listed_in(alloc: Global, words: &[u8]) -> Result<Vec<Listed>, LineError>
    ensures reads { ReadsUnlessMemory (λ rows. all_listed_of rows.items) result (rule.listed_in (words_in words.now)) }
    ensures memory { IsErrOf result LineError.OutOfMemory → words_in words.now ≢ [] }
{
    let mut rows = Vec::new(alloc);
    let mut rest = words;
    'words: while let Some((word, behind)) = split_word(rest) {
        let one = listed_word(alloc, word)?;
        if rows.push(one).is_err() {
            return Err(LineError::OutOfMemory);
        }
        rest = behind;
    }
    Ok(rows)
}

// The silo that a word lists.
fn listed_word(alloc: Global, word: &[u8]) -> Result<Listed, LineError>
    ensures { ReadsUnlessMemory listed_of result (rule.listed_word word.now) }
{
    let pieces = pieces_of(word)?;
    let silo = silo_word(pieces.silo)?;
    let places = places_if_any(alloc, pieces.places)?;
    let status = pieces.status;
    Ok(Listed {
        silo,
        status,
        places,
    })
}

// The places, where there are any.
fn places_if_any(alloc: Global, text: Option<&[u8]>) -> Result<Vec<u32>, LineError>
    ensures { ReadsUnlessMemory (λ places. places.items) result (script.places_in (places_of text.entry)) }
{
    match text {
        Some(text) => places_between(alloc, text),
        None => Ok(Vec::new(alloc)),
    }
}

// The places that stand between commas.
fn places_between(alloc: Global, text: &[u8]) -> Result<Vec<u32>, LineError>
    ensures { ReadsUnlessMemory (λ places. places.items) result (script.places_in (pieces_at rule.comma text.now)) }
{
    let mut places = Vec::new(alloc);
    let mut rest = text;
    'pieces: while let Some((place, behind)) = split_at(rest, b',') {
        push_place(&mut places, place)?;
        rest = behind;
    }
    push_place(&mut places, rest)?;
    Ok(places)
}

// With the place that the word names.
fn push_place(places: &mut Vec<u32>, word: &[u8]) -> Result<(), LineError>
    ensures { ReadsUnlessMemory (λ _. places.new.items) result (with_place places.old.items word.now) }
{
    let place = place_word(word)?;
    if places.push(place).is_err() {
        return Err(LineError::OutOfMemory);
    }
    Ok(())
}

// The word's pieces: a silo, with a colon of its own, a status, and perhaps places.
fn pieces_of(word: &[u8]) -> Result<Pieces<'_>, LineFault>
    ensures { Cuts result word.now }
{
    let Some((host, behind)) = split_at(word, b':') else {
        return Err(LineFault::Listed);
    };
    let Some((port, rest)) = split_at(behind, b':') else {
        return Err(LineFault::Listed);
    };
    let (status, places) = status_and_places(rest)?;
    let Some(status) = status_named(status) else {
        return Err(LineFault::Listed);
    };
    let end = host.len() + 1 + port.len();
    let silo = &word[..end];
    Ok(Pieces {
        silo,
        status,
        places,
    })
}

// A status, and perhaps places behind it.
fn status_and_places(text: &[u8]) -> Result<(&[u8], Option<&[u8]>), LineFault>
    ensures { CutsRest result text.now }
{
    let Some((status, places)) = split_at(text, b':') else {
        return Ok((text, None));
    };
    match split_at(places, b':') {
        None => Ok((status, Some(places))),
        Some(_) => Err(LineFault::Listed),
    }
}

// What stands before the first such byte, and behind it, where there is one.
fn split_at(bytes: &[u8], mark: u8) -> Option<(&[u8], &[u8])>
    ensures pieces { MatchOption result (pieces_at mark bytes.now ≡ bytes.now ∷ []) (λ parts. pieces_at mark bytes.now ≡ parts.0.now ∷ pieces_at mark parts.1.now) }
    ensures whole { IfSome result (λ parts. bytes.now ≡ parts.0.now ++ mark ∷ parts.1.now) }
    ensures shorter { IfSome result (λ parts. length parts.1.now < length bytes.now) }
{
    let end = first_position(bytes, mark);
    if end == bytes.len() {
        return None;
    }
    Some((&bytes[..end], &bytes[end + 1..]))
}

// The status that the word names.
fn status_named(word: &[u8]) -> Option<Status>
    ensures { result ≡ rule.status_named word.now }
{
    match word {
        b"active" => Some(Status::Active),
        b"leaving" => Some(Status::Leaving),
        b"dead" => Some(Status::Dead),
        _ => None,
    }
}
