//! The commands of a silo's process: the one table of the code but for the steps that its application asks of it, as `commands` of
//! `ReadLine.antt` is that of the rule.

ghost use Rattle.std.specs.Map.{lookup};
ghost use Rattle.std.specs.Prelude.{◌≡◌, ◌++◌, IsErrOf, Some, bytes_eq, option_map};
ghost use Rattle.texts.specs.Words.{words_in};
ghost use Rattle.process_rules.specs.ReadLine as rule;
ghost use Rattle.process_lines.specs.ReadAs.{Reads, told};
ghost use Rattle.process_lines.specs.AskedModel.{asked_of};
ghost use Rattle.process_lines.specs.Known.{other_commands};
ghost use Rattle.process_lines.specs.Memory.{LineNeedsMemory, WordsNeedMemory};

use crate::changes::{dead, joined, leaving};
use crate::listed::a_view;
use crate::questions::{dump, figures, owner, ping, place, show};
use crate::steps::{see, step_under};
use crate::{Asked, LineError, LineFault, read_letter};
use hash_ring::Hashing;
use std::alloc::Global;

/// What is asked for under that name, with the words behind it.
pub(crate) fn asked_under<'a>(
    alloc: Global,
    hashing: Hashing,
    name: &[u8],
    words: &'a [u8],
) -> Result<Asked<'a>, LineError>
    ensures reads { Reads (λ asked. Some (asked_of asked)) result (rule.asked_if_known (lookup (bytes_eq name.now) (rule.commands hashing)) (words_in words.now)) }
    ensures memory { IsErrOf result LineError.OutOfMemory → LineNeedsMemory (rule.asked_if_known (lookup (bytes_eq name.now) (rule.commands hashing)) (words_in words.now)) }
{
    if name == b"joined".as_slice() {
        return joined(alloc, words);
    }
    if name == b"view".as_slice() {
        return a_view(alloc, words);
    }
    if name == b"letter".as_slice() {
        return letter(alloc, hashing, words);
    }
    let asked = asked_without_memory(name, words)?;
    Ok(asked)
}

/// What is asked for under a name that isn't that of a join, a view or a letter.
fn asked_without_memory<'a>(name: &[u8], words: &'a [u8]) -> Result<Asked<'a>, LineFault>
    ensures { told (λ asked. Some (asked_of asked)) result ≡ rule.asked_if_known (lookup (bytes_eq name.now) (other_commands ++ rule.step_commands)) (words_in words.now) }
{
    match other_asked(name, words) {
        Some(read) => read,
        None => step_under(name, words),
    }
}

/// What is asked for under a name that isn't that of a step either, which the silo's application asks of it.
fn other_asked<'a>(name: &[u8], words: &'a [u8]) -> Option<Result<Asked<'a>, LineFault>>
    ensures { option_map (told asked_of) result ≡ option_map (λ grammar. grammar (words_in words.now)) (lookup (bytes_eq name.now) other_commands) }
{
    match name {
        b"leaving" => Some(leaving(words)),
        b"dead" => Some(dead(words)),
        b"see" => Some(see(words)),
        b"ping" => Some(ping(words)),
        b"owner" => Some(owner(words)),
        b"place" => Some(place(words)),
        b"status" => Some(figures(words)),
        b"show" => Some(show(words)),
        b"dump" => Some(dump(words)),
        _ => None,
    }
}

/// The words of a letter.
fn letter(alloc: Global, hashing: Hashing, words: &[u8]) -> Result<Asked<'_>, LineError>
    ensures reads { Reads asked_of result (rule.a_letter hashing (words_in words.now)) }
    ensures memory { IsErrOf result LineError.OutOfMemory → WordsNeedMemory (rule.a_letter hashing (words_in words.now)) }
{
    let letter = read_letter(alloc, hashing, words)?;
    Ok(Asked::Receive(letter))
}
