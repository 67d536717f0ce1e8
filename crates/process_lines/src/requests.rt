//! Requests, and offers.

ghost use Rattle.std.specs.Prelude.{◌≡◌, [], ◌∷◌, None};
ghost use Rattle.texts.specs.Words.{words_in};
ghost use Rattle.process_rules.specs.ReadLetter as rule;
ghost use Rattle.process_lines.specs.Made.{OfAnEntry};
ghost use Rattle.process_lines.specs.ReadAs.{head_of, told};

use crate::LineFault;
use crate::head::Head;
use crate::words::{activation_word, entry_of_words, grain_word, number_word, only_four_words};
use directory_letters::{Body, Letter};
use directory_rules::Act;
use grain_table::HashedRequest;
use hash_ring::Hashing;
use script_lines::{only_three_words, only_two_words};
use silo_address::Entry;

/// The letter of a request: the letter's sender's, of its version, with its grain's hash.
fn request_of(hashing: Hashing, head: &Head, number: u64, act: Act) -> Letter
    ensures { result ≡ rule.request_of hashing (head_of head.now) number act }
{
    let request = HashedRequest::of(hashing, head.from, head.version, number, act);
    head.letter(Body::Request(request))
}

/// A number, a grain, its activation, and perhaps the one that it replaces.
#[tactic(auto, using(crate::proofs::Forms::registers))]
pub(crate) fn a_register(
    hashing: Hashing,
    head: Result<Head, LineFault>,
    words: &[u8],
) -> Result<Letter, LineFault>
    ensures { told (λ letter. letter) result ≡ rule.a_register hashing (told head_of head) (words_in words.now) }
{
    if let Some((number, grain, activation, previous)) = only_four_words(words) {
        return a_replacing_register(hashing, head, number, grain, activation, previous);
    }
    a_first_register(hashing, head, words)
}

/// A Register that names no activation that it replaces.
fn a_first_register(
    hashing: Hashing,
    head: Result<Head, LineFault>,
    words: &[u8],
) -> Result<Letter, LineFault>
    ensures { told (λ letter. letter) result ≡ rule.a_number_and_an_entry (λ head number entry. rule.request_of hashing head number (Act.Register entry None)) (told head_of head) (words_in words.now) }
{
    let (head, number, entry) = a_number_and_an_entry(head, words)?;
    let previous = None;
    Ok(request_of(hashing, &head, number, Act::Register { entry, previous }))
}

/// A Register that names the activation that it replaces.
fn a_replacing_register(
    hashing: Hashing,
    head: Result<Head, LineFault>,
    number: &[u8],
    grain: &[u8],
    activation: &[u8],
    previous: &[u8],
) -> Result<Letter, LineFault>
    ensures { told (λ letter. letter) result ≡ rule.a_register hashing (told head_of head) (number.now ∷ grain.now ∷ activation.now ∷ previous.now ∷ []) }
{
    let head = head?;
    let number = number_word(number)?;
    let entry = entry_of_words(grain, activation)?;
    let previous = Some(activation_word(previous)?);
    Ok(request_of(hashing, &head, number, Act::Register { entry, previous }))
}

/// A number, a grain and its activation.
pub(crate) fn a_number_and_an_entry(
    head: Result<Head, LineFault>,
    words: &[u8],
) -> Result<(Head, u64, Entry), LineFault>
    ensures { (of : OfAnEntry)
        → told (λ parts. of (head_of parts.0) parts.1 parts.2) result ≡ rule.a_number_and_an_entry of (told head_of head) (words_in words.now) }
{
    let Some((number, grain, activation)) = only_three_words(words) else {
        return Err(LineFault::WordCount);
    };
    let head = head?;
    let number = number_word(number)?;
    let entry = entry_of_words(grain, activation)?;
    Ok((head, number, entry))
}

/// A Deregister.
pub(crate) fn a_deregister(
    hashing: Hashing,
    head: Result<Head, LineFault>,
    words: &[u8],
) -> Result<Letter, LineFault>
    ensures { told (λ letter. letter) result ≡ rule.a_number_and_an_entry (λ head number entry. rule.request_of hashing head number (Act.Deregister entry)) (told head_of head) (words_in words.now) }
{
    let (head, number, entry) = a_number_and_an_entry(head, words)?;
    Ok(request_of(hashing, &head, number, Act::Deregister { entry }))
}

/// A number and a grain.
pub(crate) fn a_find(
    hashing: Hashing,
    head: Result<Head, LineFault>,
    words: &[u8],
) -> Result<Letter, LineFault>
    ensures { told (λ letter. letter) result ≡ rule.a_find hashing (told head_of head) (words_in words.now) }
{
    let Some((number, grain)) = only_two_words(words) else {
        return Err(LineFault::WordCount);
    };
    let head = head?;
    let number = number_word(number)?;
    let grain = grain_word(grain)?;
    Ok(request_of(hashing, &head, number, Act::Find { grain }))
}

/// A grain and its activation.
pub(crate) fn an_offer(head: Result<Head, LineFault>, words: &[u8]) -> Result<Letter, LineFault>
    ensures { told (λ letter. letter) result ≡ rule.an_offer (told head_of head) (words_in words.now) }
{
    let Some((grain, activation)) = only_two_words(words) else {
        return Err(LineFault::WordCount);
    };
    let head = head?;
    let entry = entry_of_words(grain, activation)?;
    Ok(head.letter(Body::Offer(entry)))
}
