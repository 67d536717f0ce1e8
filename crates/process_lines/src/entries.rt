//! The entries of a page or a report.

ghost use Rattle.std.specs.Prelude.{◌≡◌, IsErrOf};
ghost use Rattle.texts.specs.Words.{words_in};
ghost use Rattle.process_rules.specs.ReadLetter as rule;
ghost use Rattle.process_lines.specs.ReadAs.{Fails, Reads};
ghost use Rattle.process_lines.specs.Short.{AreSome};

use crate::words::entry_of_words;
use crate::{LineError, LineFault};
use script_lines::split_word;
use silo_address::Entry;
use std::alloc::Global;

/// Whether each word has one beside it.
#[tactic(auto, using(crate::proofs::EachEntry::pair_by_pair))]
pub(crate) fn are_pairs(words: &[u8]) -> bool
    ensures { result ≡ rule.are_pairs (words_in words.now) }
{
    let mut rest = words;
    'words: while let Some((_, behind)) = split_word(rest) {
        let Some((_, after)) = split_word(behind) else {
            return false;
        };
        rest = after;
    }
    true
}

/// The entries that the words tell. Memory may run out only where they tell one.
#[tactic(auto, using(crate::proofs::EachEntry::entry_by_entry))]
pub(crate) fn entries_in(alloc: Global, words: &[u8]) -> Result<Vec<Entry>, LineError>
    ensures reads { Reads (λ entries. entries.items) result (rule.entries_in (words_in words.now)) }
    ensures memory { IsErrOf result LineError.OutOfMemory → AreSome (rule.entries_in (words_in words.now)) }
{
    let mut entries = Vec::new(alloc);
    let mut rest = words;
    'words: while let Some((grain, behind)) = split_word(rest) {
        let Some((activation, after)) = split_word(behind) else {
            return Err(LineError::Fault(LineFault::WordCount));
        };
        let entry = entry_of_words(grain, activation)?;
        if entries.push(entry).is_err() {
            return Err(without_memory(after));
        }
        rest = after;
    }
    Ok(entries)
}

/// The first fault of the entries, else that memory ran out.
#[tactic(auto, using(crate::proofs::EachEntry::entry_by_entry))]
fn without_memory(words: &[u8]) -> LineError
    ensures { Fails result (rule.entries_in (words_in words.now)) }
{
    let mut rest = words;
    'words: while let Some((grain, behind)) = split_word(rest) {
        let Some((activation, after)) = split_word(behind) else {
            return LineError::Fault(LineFault::WordCount);
        };
        if let Err(fault) = entry_of_words(grain, activation) {
            return LineError::Fault(fault);
        }
        rest = after;
    }
    LineError::OutOfMemory
}
