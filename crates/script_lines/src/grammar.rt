//! What stands behind the name of a command.

ghost use Rattle.std.specs.Prelude.{◌≡◌, ℕ, IsErrOf, List};
ghost use Rattle.silo_address.specs.Silo.{Silo};
ghost use Rattle.silo_address.specs.Grain.{Grain};
ghost use Rattle.directory_rules.specs.declared.policy.Policy.{Policy};
ghost use Rattle.directory_rules.specs.Event as rule;
ghost use Rattle.texts.specs.Words.{words_in};
ghost use Rattle.script_rules.specs.Script as script;
ghost use Rattle.script_lines.specs.ReadAs.{ListsPlaces, Reads, told};

use crate::places::places_in;
use crate::words::{only_three_words, only_two_words, only_word, split_word};
use crate::{ReadError, ScriptFault};
use directory_rules::Policy;
use silo_address::{GrainId, SiloAddress};
use std::alloc::Global;
use texts::number_up_to;

/// The highest place or hash.
const HIGHEST_HASH: u64 = 4_294_967_295;

/// Reads a silo.
pub(crate) fn silo_word(word: &[u8]) -> Result<SiloAddress, ScriptFault>
    ensures { told (λ silo. silo) result ≡ script.silo_word word.now }
{
    match SiloAddress::parse(word) {
        Ok(silo) => Ok(silo),
        Err(fault) => Err(ScriptFault::Silo(fault)),
    }
}

/// Reads a grain.
pub(crate) fn grain_word(word: &[u8]) -> Result<GrainId, ScriptFault>
    ensures { told (λ grain. grain) result ≡ script.grain_word word.now }
{
    match GrainId::parse(word) {
        Ok(grain) => Ok(grain),
        Err(fault) => Err(ScriptFault::Grain(fault)),
    }
}

/// Reads a version or the number of a letter.
pub(crate) fn number_word(word: &[u8]) -> Result<u64, ScriptFault>
    ensures { told (λ number. number) result ≡ script.number_word word.now }
{
    match number_up_to(word, u64::MAX) {
        Ok(number) => Ok(number),
        Err(_) => Err(ScriptFault::NotANumber),
    }
}

/// Reads a place or a hash.
pub(crate) fn hash_word(word: &[u8]) -> Result<u32, ScriptFault>
    ensures { told (λ hash. hash) result ≡ script.hash_word word.now }
{
    match number_up_to(word, HIGHEST_HASH) {
        Ok(hash) => Ok(hash as u32),
        Err(_) => Err(ScriptFault::NotANumber),
    }
}

/// Reads the name of a policy.
pub(crate) fn policy_word(word: &[u8]) -> Result<Policy, ScriptFault>
    ensures { told (λ policy. policy) result ≡ script.policy_word word.now }
{
    if word == b"prefer_local".as_slice() {
        return Ok(Policy::PreferLocal);
    }
    if word == b"hash_based".as_slice() {
        return Ok(Policy::HashBased);
    }
    if word == b"least_held".as_slice() {
        return Ok(Policy::LeastHeld);
    }
    Err(ScriptFault::UnknownPolicy)
}

/// No word.
pub(crate) fn no_word(words: &[u8]) -> Result<(), ScriptFault>
    ensures { (command : script.Command) → told (λ _. command) result ≡ script.no_word command (words_in words.now) }
{
    match split_word(words) {
        None => Ok(()),
        Some(_) => Err(ScriptFault::WordCount),
    }
}

/// A hash.
pub(crate) fn a_hash(words: &[u8]) -> Result<u32, ScriptFault>
    ensures { (of : ℕ → script.Command) → told of result ≡ script.a_hash of (words_in words.now) }
{
    match only_word(words) {
        Some(hash) => hash_word(hash),
        None => Err(ScriptFault::WordCount),
    }
}

/// The number of a letter.
pub(crate) fn a_letter(words: &[u8]) -> Result<u64, ScriptFault>
    ensures { (of : ℕ → rule.Event) → told (λ number. script.Happen (of number)) result ≡ script.a_letter of (words_in words.now) }
{
    match only_word(words) {
        Some(number) => number_word(number),
        None => Err(ScriptFault::WordCount),
    }
}

/// A silo.
pub(crate) fn a_silo(words: &[u8]) -> Result<SiloAddress, ScriptFault>
    ensures { (of : Silo → rule.Event) → told (λ silo. script.Happen (of silo)) result ≡ script.a_silo of (words_in words.now) }
{
    match only_word(words) {
        Some(silo) => silo_word(silo),
        None => Err(ScriptFault::WordCount),
    }
}

/// A silo and a version.
pub(crate) fn a_silo_and_version(words: &[u8]) -> Result<(SiloAddress, u64), ScriptFault>
    ensures { (of : Silo → ℕ → rule.Event) → told (λ parts. script.Happen (of parts.0 parts.1)) result ≡ script.a_silo_and_version of (words_in words.now) }
{
    let Some((silo, version)) = only_two_words(words) else {
        return Err(ScriptFault::WordCount);
    };
    let silo = silo_word(silo)?;
    let version = number_word(version)?;
    Ok((silo, version))
}

/// A silo, a policy and a grain.
pub(crate) fn a_silo_a_policy_and_a_grain(
    words: &[u8],
) -> Result<(SiloAddress, Policy, GrainId), ScriptFault>
    ensures { (of : Silo → Policy → Grain → script.Command) → told (λ parts. of parts.0 parts.1 parts.2) result ≡ script.a_silo_a_policy_and_a_grain of (words_in words.now) }
{
    let Some((silo, policy, grain)) = only_three_words(words) else {
        return Err(ScriptFault::WordCount);
    };
    let silo = silo_word(silo)?;
    let policy = policy_word(policy)?;
    let grain = grain_word(grain)?;
    Ok((silo, policy, grain))
}

/// A silo, and any number of places.
pub(crate) fn a_silo_and_places(
    alloc: Global,
    words: &[u8],
) -> Result<(SiloAddress, Vec<u32>), ReadError>
    ensures reads { (of : Silo → List ℕ → rule.Event) → Reads (λ parts. script.Happen (of parts.0 parts.1.items)) result (script.a_silo_and_places of (words_in words.now)) }
    ensures memory { IsErrOf result ReadError.OutOfMemory → ListsPlaces (script.a_silo_and_places rule.Join (words_in words.now)) }
{
    let Some((silo, places)) = split_word(words) else {
        return Err(ReadError::Fault(ScriptFault::WordCount));
    };
    let silo = silo_word(silo)?;
    let places = places_in(alloc, places)?;
    Ok((silo, places))
}
