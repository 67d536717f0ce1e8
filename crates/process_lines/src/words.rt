//! The words of a letter's line.

ghost use Rattle.std.specs.Prelude.{◌≡◌, Ok};
ghost use Rattle.hex.specs.Hex.{encode_lower};
ghost use Rattle.texts.specs.Words.{words_in};
ghost use Rattle.script_rules.specs.Script as script;
ghost use Rattle.process_rules.specs.ReadLetter as rule;
ghost use Rattle.process_rules.specs.ReadLine.{own_policy_word};
ghost use Rattle.process_lines.specs.Fronts.{four_copied, four_in, four_of, only_four_words};
ghost use Rattle.process_lines.specs.ReadAs.{told};

use crate::LineFault;
use directory_rules::Policy;
use hex::{FromHex, encode_to_slice};
use ring_range::RingRange;
use script_lines::{only_three_words, split_word};
use silo_address::{ActivationError, ActivationId, Entry, GrainId, SiloAddress};
use texts::number_up_to;

/// The highest place.
const HIGHEST_PLACE: u64 = 4_294_967_295;

/// Four words, and what stands behind them.
#[derive(Clone, Copy)]
pub(crate) struct FourWords<'a> {
    pub first: &'a [u8],
    pub second: &'a [u8],
    pub third: &'a [u8],
    pub fourth: &'a [u8],
    pub behind: &'a [u8],
}

/// The first four words of a line, where it has so many.
pub(crate) fn four_words(line: &[u8]) -> Option<FourWords<'_>>
    ensures { four_of result ≡ four_in (words_in line.now) }
{
    let (first, behind) = split_word(line)?;
    let (second, behind) = split_word(behind)?;
    let (third, behind) = split_word(behind)?;
    let (fourth, behind) = split_word(behind)?;
    Some(FourWords {
        first,
        second,
        third,
        fourth,
        behind,
    })
}

/// The words of a line that has four.
pub(crate) fn only_four_words(line: &[u8]) -> Option<(&[u8], &[u8], &[u8], &[u8])>
    ensures { four_copied result ≡ only_four_words (words_in line.now) }
{
    let (first, rest) = split_word(line)?;
    let (second, third, fourth) = only_three_words(rest)?;
    Some((first, second, third, fourth))
}

/// Reads a silo, or tells its fault, 101 to 103 (`docs/RULES.md#identities-and-their-texts`).
pub fn silo_word(word: &[u8]) -> Result<SiloAddress, LineFault>
    ensures { told (λ silo. silo) result ≡ script.silo_word word.now }
{
    match SiloAddress::parse(word) {
        Ok(silo) => Ok(silo),
        Err(fault) => Err(LineFault::Silo(fault)),
    }
}

/// Reads a grain, or tells its fault, 111 to 113 (`docs/RULES.md#identities-and-their-texts`).
pub fn grain_word(word: &[u8]) -> Result<GrainId, LineFault>
    ensures { told (λ grain. grain) result ≡ script.grain_word word.now }
{
    match GrainId::parse(word) {
        Ok(grain) => Ok(grain),
        Err(fault) => Err(LineFault::Grain(fault)),
    }
}

/// Reads a version, or the number of a request or a page: a number up to 2^64 - 1, else 923
/// (`docs/RULES.md#lines-of-a-silos-process`).
pub fn number_word(word: &[u8]) -> Result<u64, LineFault>
    ensures { told (λ number. number) result ≡ script.number_word word.now }
{
    match number_up_to(word, u64::MAX) {
        Ok(number) => Ok(number),
        Err(_) => Err(LineFault::NotANumber),
    }
}

/// Reads a place: a number up to 2^32 - 1, else 923.
pub(crate) fn place_word(word: &[u8]) -> Result<u32, LineFault>
    ensures { told (λ place. place) result ≡ script.hash_word word.now }
{
    match number_up_to(word, HIGHEST_PLACE) {
        Ok(place) => Ok(place as u32),
        Err(_) => Err(LineFault::NotANumber),
    }
}

/// Reads the name of a policy that a silo can follow by itself.
pub(crate) fn own_policy_word(word: &[u8]) -> Result<Policy, LineFault>
    ensures { told (λ policy. policy) result ≡ own_policy_word word.now }
{
    if word == b"prefer_local".as_slice() {
        return Ok(Policy::PreferLocal);
    }
    if word == b"hash_based".as_slice() {
        return Ok(Policy::HashBased);
    }
    Err(LineFault::Policy)
}

/// Reads an activation.
pub(crate) fn activation_word(word: &[u8]) -> Result<ActivationId, LineFault>
    ensures { told (λ activation. activation) result ≡ rule.activation_word word.now }
{
    match ActivationId::parse(word) {
        Ok(activation) => Ok(activation),
        Err(ActivationError::Shape) => Err(LineFault::Activation),
        Err(ActivationError::Silo(fault)) => Err(LineFault::Silo(fault)),
        Err(ActivationError::Count(_)) => Err(LineFault::NotANumber),
    }
}

/// Reads a range.
pub(crate) fn range_word(word: &[u8]) -> Result<RingRange, LineFault>
    ensures { told (λ range. range) result ≡ rule.range_word word.now }
{
    match RingRange::parse(word) {
        Ok(range) => Ok(range),
        Err(_) => Err(LineFault::Range),
    }
}

/// Reads a digest.
pub(crate) fn digest_word(word: &[u8]) -> Result<[u8; 32], LineFault>
    ensures { told (λ digest. digest) result ≡ rule.digest_word word.now }
{
    match <[u8; 32]>::from_hex(word) {
        Ok(digest) => spelled(digest, word),
        Err(_) => Err(LineFault::Digest),
    }
}

/// The digest, where the word is its text.
fn spelled(digest: [u8; 32], word: &[u8]) -> Result<[u8; 32], LineFault>
    ensures { told (λ digest. digest) result ≡ rule.digest_or_fault word.now (Ok digest) }
{
    if digest_text(&digest).as_slice() == word {
        Ok(digest)
    } else {
        Err(LineFault::Digest)
    }
}

/// Reads whether a report is its silo's last.
pub(crate) fn last_word(word: &[u8]) -> Result<bool, LineFault>
    ensures { told (λ last. last) result ≡ rule.last_word word.now }
{
    if word == b"last".as_slice() {
        return Ok(true);
    }
    if word == b"more".as_slice() {
        return Ok(false);
    }
    Err(LineFault::End)
}

/// A digest's text.
pub(crate) fn digest_text(digest: &[u8; 32]) -> [u8; 64]
    ensures { result ≡ encode_lower digest.now }
{
    let mut text = [0; 64];
    let Ok(()) = encode_to_slice(digest, &mut text) else {
        unreachable!()
    };
    text
}

/// Reads a grain and its activation.
pub(crate) fn entry_of_words(grain: &[u8], activation: &[u8]) -> Result<Entry, LineFault>
    ensures { told (λ entry. entry) result ≡ rule.entry_of_words grain.now activation.now }
{
    let grain = grain_word(grain)?;
    let activation = activation_word(activation)?;
    Ok(Entry { grain, activation })
}
