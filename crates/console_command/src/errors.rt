//! What is told on standard error.

ghost use Rattle.std.specs.Prelude.{◌≡◌, ◌≤◌, ◌<◌, ◌+◌, ◌++◌, IfOk, length, string_bytes, take};
ghost use Rattle.threaded_play.specs.Endings.{IsSent};
ghost use Rattle.console_command.specs.Errors.{IsTold, TellsFault, failed_call, fault_text};

use crate::{Checked, Exit};
use itoa::Buffer;
use line_loop::{Ended, ScriptLineFault, Sink, send};
use process_answers::Dead;
use std::alloc::{AllocError, Global};
use threaded_play::ThreadsEnded;

/// What is said of a fault for which there are no words.
const UNEXPLAINED: &str = "a fault, whose number stands on the output";

/// Room for the text of a fault with those words.
const MOST_TOLD: usize = 128;

/// Tells what ended a play too early; nothing where all was played.
pub(crate) fn tell_end<E: Sink>(alloc: Global, ended: Ended<ScriptLineFault>, errors: &mut E)
    ensures { IsTold E.writes E.contents (Exit.Played ended) errors.old errors.new }
{
    match ended {
        Ended::AtEnd => {}
        Ended::Stopped(fault) => tell_fault(alloc, fault, errors),
        Ended::TooLong => tell(errors, b"error: the script has more than 268435456 bytes\n"),
        Ended::OutOfMemory => tell(errors, b"error: out of memory\n"),
        Ended::Broken => tell_failed_call(errors),
    }
}

/// Tells what ended a play on threads too early; nothing where all was played.
pub(crate) fn tell_threads<E: Sink>(alloc: Global, ended: ThreadsEnded, errors: &mut E)
    ensures { IsTold E.writes E.contents (Exit.Threaded ended) errors.old errors.new }
{
    match ended {
        ThreadsEnded::Played(ended) => tell_end(alloc, ended, errors),
        ThreadsEnded::ReceiptDiffers => {
            tell(errors, b"error: the receipts aren't those of the journal\n")
        }
        ThreadsEnded::Lacking => tell(
            errors,
            b"error: memory, a thread or a ring to publish is lacking, or a worker gave up\n",
        ),
    }
}

/// Tells what ended a check too early; nothing where the dump was judged.
pub(crate) fn tell_check<E: Sink>(checked: Checked, errors: &mut E)
    ensures { IsTold E.writes E.contents (Exit.Checked checked) errors.old errors.new }
{
    match checked {
        Checked::Right | Checked::Faulty => {}
        Checked::TooLong => tell(errors, b"error: the dump has more than 268435456 bytes\n"),
        Checked::OutOfMemory => tell(errors, b"error: out of memory\n"),
        Checked::Broken => tell_failed_call(errors),
    }
}

/// Tells what ended a silo's process too early; nothing where its input ended, or the silo is dead.
pub(crate) fn tell_silo<E: Sink>(ended: Ended<Dead>, errors: &mut E)
    ensures { IsTold E.writes E.contents (Exit.Silo ended) errors.old errors.new }
{
    match ended {
        Ended::AtEnd | Ended::Stopped(_) => {}
        Ended::TooLong => tell(
            errors,
            b"error: the input has more than 9223372036854775807 bytes\n",
        ),
        Ended::OutOfMemory => tell(errors, b"error: out of memory\n"),
        Ended::Broken => tell_failed_call(errors),
    }
}

// Tells the fault of a line: in words, and where there is no memory for them, by the line alone.
fn tell_fault<E: Sink>(alloc: Global, fault: ScriptLineFault, errors: &mut E)
    ensures { IsTold E.writes E.contents (Exit.Played (Ended.Stopped fault)) errors.old errors.new }
{
    match fault_text(alloc, fault) {
        Ok(text) => tell(errors, text.as_bytes()),
        Err(_) => tell_line(fault, errors),
    }
}

// The line of a fault, and what is wrong with it.
fn fault_text(alloc: Global, fault: ScriptLineFault) -> Result<String, AllocError>
    ensures { IfOk result (λ text. TellsFault fault (string_bytes text)) }
{
    let words = fault.fault.to_string(alloc)?;
    line_and_words(alloc, fault.line, words_or(words.as_str(), UNEXPLAINED))
}

fn line_and_words(alloc: Global, line: u64, words: &str) -> Result<String, AllocError>
    ensures { IfOk result (λ text. string_bytes text ≡ fault_text line words.now) }
{
    format!(in alloc; "error: line {line}: {words}\n")
}

// Tells a fault by its line, without an allocator.
fn tell_line<E: Sink>(fault: ScriptLineFault, errors: &mut E)
    ensures { IsTold E.writes E.contents (Exit.Played (Ended.Stopped fault)) errors.old errors.new }
{
    let mut digits = Buffer::new();
    let mut text = [0; MOST_TOLD];
    let start = put(&mut text, 0, b"error: line ");
    let line_end = put(&mut text, start, digits.format(fault.line).as_bytes());
    let words = put(&mut text, line_end, b": ");
    let words_end = put(&mut text, words, UNEXPLAINED.as_bytes());
    let end = put(&mut text, words_end, b"\n");
    tell(errors, &text[..end]);
}

// Puts bytes into a text, from a position on; answers the position behind them.
fn put(text: &mut [u8], start: usize, bytes: &[u8]) -> usize
    requires { start + length bytes.now ≤ length text.old }
    ensures end { result ≡ start + length bytes.now }
    ensures put { take result text.new ≡ take start text.old ++ bytes.now }
{
    let end = start + bytes.len();
    text[start..end].copy_from_slice(bytes);
    end
}

/// A text, or other words where it has none.
pub(crate) fn words_or<'a>(text: &'a str, other: &'a str) -> &'a str
    requires { 0 < length other.now }
    ensures some { 0 < length result.now }
    ensures text { 0 < length text.now → result.now ≡ text.now }
{
    if text.is_empty() { other } else { text }
}

/// Tells that memory ran out.
pub(crate) fn tell_no_memory<E: Sink>(errors: &mut E) -> Exit
    ensures exit { result ≡ Exit.OutOfMemory }
    ensures told { IsTold E.writes E.contents Exit.OutOfMemory errors.old errors.new }
{
    tell(errors, b"error: out of memory\n");
    Exit::OutOfMemory
}

/// Tells that a read or a write failed.
pub(crate) fn tell_failed_call<E: Sink>(errors: &mut E)
    ensures { IsSent E.writes E.contents failed_call errors.old errors.new }
{
    tell(errors, b"error: a read or a write failed\n");
}

/// Writes a text.
pub(crate) fn tell<E: Sink>(errors: &mut E, text: &[u8])
    ensures { IsSent E.writes E.contents text.now errors.old errors.new }
{
    let _whole = send(errors, text);
}
