//! Replies.

ghost use Rattle.std.specs.Map.{lookup};
ghost use Rattle.std.specs.Prelude.{◌≡◌, bytes_eq, option_map};
ghost use Rattle.texts.specs.Words.{words_in};
ghost use Rattle.process_rules.specs.ReadLetter as rule;
ghost use Rattle.process_lines.specs.ReadAs.{head_of, told};
ghost use Rattle.process_lines.specs.Reasons.{numbered, reason_of};

use crate::LineFault;
use crate::head::Head;
use crate::requests::a_number_and_an_entry;
use crate::words::number_word;
use directory_letters::{Body, Letter};
use directory_rules::{Reply, Why};
use script_lines::{only_word, split_word};

/// The reply that names an entry.
pub(crate) fn a_registered(head: Result<Head, LineFault>, words: &[u8]) -> Result<Letter, LineFault>
    ensures { told (λ letter. letter) result ≡ rule.a_number_and_an_entry (rule.reply_of Reply.Registered) (told head_of head) (words_in words.now) }
{
    let (head, number, entry) = a_number_and_an_entry(head, words)?;
    let reply = Reply::Registered(entry);
    Ok(head.letter(Body::Reply { number, reply }))
}

pub(crate) fn a_taken(head: Result<Head, LineFault>, words: &[u8]) -> Result<Letter, LineFault>
    ensures { told (λ letter. letter) result ≡ rule.a_number_and_an_entry (rule.reply_of Reply.Taken) (told head_of head) (words_in words.now) }
{
    let (head, number, entry) = a_number_and_an_entry(head, words)?;
    let reply = Reply::Taken(entry);
    Ok(head.letter(Body::Reply { number, reply }))
}

pub(crate) fn a_found(head: Result<Head, LineFault>, words: &[u8]) -> Result<Letter, LineFault>
    ensures { told (λ letter. letter) result ≡ rule.a_number_and_an_entry (rule.reply_of Reply.Found) (told head_of head) (words_in words.now) }
{
    let (head, number, entry) = a_number_and_an_entry(head, words)?;
    let reply = Reply::Found(entry);
    Ok(head.letter(Body::Reply { number, reply }))
}

/// A reply that says all by its kind.
pub(crate) fn a_number(
    head: Result<Head, LineFault>,
    reply: Reply,
    words: &[u8],
) -> Result<Letter, LineFault>
    ensures { told (λ letter. letter) result ≡ rule.a_number reply (told head_of head) (words_in words.now) }
{
    let Some(number) = only_word(words) else {
        return Err(LineFault::WordCount);
    };
    let head = head?;
    let number = number_word(number)?;
    Ok(head.letter(Body::Reply { number, reply }))
}

/// The reason of a retry, as its number tells it.
#[derive(Clone, Copy)]
pub(crate) enum ReasonName {
    View,
    Unsettled,
    OldNumber,
    NotOwner,
}

/// A number, a reason, and what stands behind that.
pub(crate) fn a_retry(head: Result<Head, LineFault>, words: &[u8]) -> Result<Letter, LineFault>
    ensures { told (λ letter. letter) result ≡ rule.a_retry (told head_of head) (words_in words.now) }
{
    let Some((number, behind)) = split_word(words) else {
        return Err(LineFault::WordCount);
    };
    let Some((reason, behind)) = split_word(behind) else {
        return Err(LineFault::WordCount);
    };
    let Some(name) = reason_name(reason) else {
        return Err(LineFault::Kind);
    };
    retry_for(head, number, why_behind(name, behind))
}

/// A retry, once it is known that there are as many words as its reason has.
fn retry_for(
    head: Result<Head, LineFault>,
    number: &[u8],
    why: Option<Result<Why, LineFault>>,
) -> Result<Letter, LineFault>
    ensures { told (λ letter. letter) result ≡ rule.retry_for (told head_of head) number.now (option_map (told (λ why. why)) why) }
{
    let Some(why) = why else {
        return Err(LineFault::WordCount);
    };
    let head = head?;
    let number = number_word(number)?;
    let reply = Reply::Retry(why?);
    Ok(head.letter(Body::Reply { number, reply }))
}

/// The reason of that number, if it is one.
fn reason_name(word: &[u8]) -> Option<ReasonName>
    ensures { option_map reason_of result ≡ lookup (bytes_eq word.now) rule.reasons }
{
    match word {
        b"601" => Some(ReasonName::View),
        b"602" => Some(ReasonName::Unsettled),
        b"603" => Some(ReasonName::OldNumber),
        b"604" => Some(ReasonName::NotOwner),
        _ => None,
    }
}

/// What stands behind a reason; none where there are too few words or too many.
fn why_behind(name: ReasonName, words: &[u8]) -> Option<Result<Why, LineFault>>
    ensures { option_map (told (λ why. why)) result ≡ reason_of name (words_in words.now) }
{
    match name {
        ReasonName::View => seen_behind(words),
        ReasonName::Unsettled => alone(Why::Unsettled, words),
        ReasonName::OldNumber => last_behind(words),
        ReasonName::NotOwner => alone(Why::NotOwner, words),
    }
}

fn seen_behind(words: &[u8]) -> Option<Result<Why, LineFault>>
    ensures { option_map (told (λ why. why)) result ≡ rule.with_number Why.View (words_in words.now) }
{
    let seen = only_word(words)?;
    Some(view_word(seen))
}

fn view_word(word: &[u8]) -> Result<Why, LineFault>
    ensures { told (λ why. why) result ≡ numbered Why.View word.now }
{
    let seen = number_word(word)?;
    Ok(Why::View { seen })
}

fn last_behind(words: &[u8]) -> Option<Result<Why, LineFault>>
    ensures { option_map (told (λ why. why)) result ≡ rule.with_number Why.OldNumber (words_in words.now) }
{
    let last = only_word(words)?;
    Some(old_number_word(last))
}

fn old_number_word(word: &[u8]) -> Result<Why, LineFault>
    ensures { told (λ why. why) result ≡ numbered Why.OldNumber word.now }
{
    let last = number_word(word)?;
    Ok(Why::OldNumber { last })
}

fn alone(why: Why, words: &[u8]) -> Option<Result<Why, LineFault>>
    ensures { option_map (told (λ why. why)) result ≡ rule.alone why (words_in words.now) }
{
    match split_word(words) {
        None => Some(Ok(why)),
        Some(_) => None,
    }
}
