//! The places that a join lists.

ghost use Rattle.std.specs.Prelude.{◌≡◌, IsErrOf};
ghost use Rattle.texts.specs.Words.{words_in};
ghost use Rattle.script_rules.specs.Script as script;
ghost use Rattle.script_lines.specs.ReadAs.{Reads, Fails, HasPlaces};

use crate::grammar::hash_word;
use crate::words::split_word;
use crate::{ReadError, ScriptFault};
use std::alloc::Global;

/// The places that the words name, or 923 where one doesn't. That memory ran out is told only where there is a place and each
/// word names one. (`docs/RULES.md#scripts`)
pub fn places_in(alloc: Global, words: &[u8]) -> Result<Vec<u32>, ReadError>
    ensures reads { Reads (λ places. places.items) result (script.places_in (words_in words.now)) }
    ensures memory { IsErrOf result ReadError.OutOfMemory → HasPlaces (script.places_in (words_in words.now)) }
{
    let mut places = Vec::new(alloc);
    let mut rest = words;
    while let Some((word, behind)) = split_word(rest) {
        let place = hash_word(word)?;
        if places.push(place).is_err() {
            return Err(without_memory(behind));
        }
        rest = behind;
    }
    Ok(places)
}

/// The first fault of the places, else that memory ran out.
fn without_memory(words: &[u8]) -> ReadError
    ensures { Fails result (script.places_in (words_in words.now)) }
{
    let mut rest = words;
    while let Some((word, behind)) = split_word(rest) {
        if let Err(fault) = hash_word(word) {
            return ReadError::Fault(fault);
        }
        rest = behind;
    }
    ReadError::OutOfMemory
}
