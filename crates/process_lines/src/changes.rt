//! Changes of membership that a silo is told.

ghost use Rattle.std.specs.Option.{option_copied};
ghost use Rattle.std.specs.Prelude.{◌≡◌, ℕ, IsErrOf, Some, None, drop, if◌then◌else◌, length};
ghost use Rattle.silo_address.specs.Silo.{Silo};
ghost use Rattle.texts.specs.Words.{words_in};
ghost use Rattle.script_rules.specs.Script.{places_in};
ghost use Rattle.script_lines.specs.ReadAs.{HasPlaces};
ghost use Rattle.process_rules.specs.ReadLine as rule;
ghost use Rattle.process_lines.specs.ReadAs.{Reads, told};
ghost use Rattle.process_lines.specs.AskedModel.{asked_of};
ghost use Rattle.process_lines.specs.Memory.{WordsNeedMemory};

use crate::{Asked, LineError, LineFault, number_word, silo_word};
use script_lines::{ReadError, only_two_words, places_in, split_word};
use silo_address::SiloAddress;
use std::alloc::Global;

/// A version, a silo, perhaps a token, and any number of places.
pub(crate) fn joined(alloc: Global, words: &[u8]) -> Result<Asked<'_>, LineError>
    ensures reads { Reads asked_of result (rule.a_join (words_in words.now)) }
    ensures memory { IsErrOf result LineError.OutOfMemory → WordsNeedMemory (rule.a_join (words_in words.now)) }
{
    let Some((version, behind)) = split_word(words) else {
        return Err(LineError::Fault(LineFault::WordCount));
    };
    let Some((silo, behind)) = split_word(behind) else {
        return Err(LineError::Fault(LineFault::WordCount));
    };
    let version = number_word(version)?;
    let silo = silo_word(silo)?;
    let (token, places) = split_token(behind);
    let places = places_of(alloc, places)?;
    Ok(Asked::Joined {
        version,
        silo,
        token,
        places,
    })
}

/// The token that the first of the words tells, if it tells one, and the words behind it.
fn split_token(words: &[u8]) -> (Option<&[u8]>, &[u8])
    ensures token { option_copied result.0 ≡ rule.token_in (words_in words.now) }
    ensures behind { words_in result.1.now ≡ rule.behind_token (words_in words.now) }
{
    let Some((first, behind)) = split_word(words) else {
        return (None, words);
    };
    match token_of(first) {
        Some(token) => (Some(token), behind),
        None => (None, words),
    }
}

/// The token that the word tells, if it tells one.
fn token_of(word: &[u8]) -> Option<&[u8]>
    ensures { option_copied result ≡ (if rule.is_token_word word.now then Some (drop (length rule.before_token) word.now) else None) }
{
    word.strip_prefix(b"token=".as_slice())
}

/// The places of a join.
fn places_of(alloc: Global, words: &[u8]) -> Result<Vec<u32>, LineError>
    ensures reads { Reads (λ places. places.items) result (places_in (words_in words.now)) }
    ensures memory { IsErrOf result LineError.OutOfMemory → HasPlaces (places_in (words_in words.now)) }
{
    match places_in(alloc, words) {
        Ok(places) => Ok(places),
        Err(ReadError::Fault(fault)) => Err(LineError::Fault(LineFault::of_script(fault))),
        Err(ReadError::OutOfMemory) => Err(LineError::OutOfMemory),
    }
}

pub(crate) fn leaving(words: &[u8]) -> Result<Asked<'_>, LineFault>
    ensures { told asked_of result ≡ rule.a_version_and_a_silo rule.Leaving (words_in words.now) }
{
    let (version, silo) = a_version_and_a_silo(words)?;
    Ok(Asked::Leaving { version, silo })
}

pub(crate) fn dead(words: &[u8]) -> Result<Asked<'_>, LineFault>
    ensures { told asked_of result ≡ rule.a_version_and_a_silo rule.Dead (words_in words.now) }
{
    let (version, silo) = a_version_and_a_silo(words)?;
    Ok(Asked::Dead { version, silo })
}

/// A version and a silo.
fn a_version_and_a_silo(words: &[u8]) -> Result<(u64, SiloAddress), LineFault>
    ensures { (of : ℕ → Silo → rule.Asked) → told (λ parts. of parts.0 parts.1) result ≡ rule.a_version_and_a_silo of (words_in words.now) }
{
    let Some((version, silo)) = only_two_words(words) else {
        return Err(LineFault::WordCount);
    };
    let version = number_word(version)?;
    let silo = silo_word(silo)?;
    Ok((version, silo))
}
