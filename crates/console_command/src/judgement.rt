//! A dump judged from a source to a sink.
ghost use Rattle.std.specs.Prelude.{IfSome};
ghost use Rattle.dump_rules.specs.Judged.{judged_text};
ghost use Rattle.console_command.specs.Checks.{Checks, MakesCalls, Tells, WritesSaid};

use crate::Checked;
use crate::source::{Unread, read_all};
use crate::verdict::verdict_on;
use line_loop::{Sink, Source, send};
use std::alloc::Global;

/// Reads a dump to its end, judges it, and writes what is said of it: one line. A dump may have 268435456 bytes; the read that goes
/// on behind them ends the check, whether there is memory or not. No read or write is tried again, and a write that takes nothing
/// is a failure (`docs/RULES.md#the-dump-and-the-verdict`).
pub fn judge<R: Source, W: Sink>(alloc: Global, reader: &mut R, writer: &mut W) -> Checked
    ensures checks { IfSome (R.remaining reader.old) (λ bytes. Checks bytes (R.remaining reader.new) (W.contents writer.old) (W.contents writer.new) result) }
    ensures calls { MakesCalls R.reads W.writes (reader.old, writer.old) (reader.new, writer.new) result }
{
    match read_all(alloc, reader) {
        Ok(bytes) => tell(alloc, &bytes, writer),
        Err(Unread::TooLong) => Checked::TooLong,
        Err(Unread::OutOfMemory) => Checked::OutOfMemory,
        Err(Unread::Broken) => Checked::Broken,
    }
}

// Judges the bytes, and writes what is said of them.
fn tell<W: Sink>(alloc: Global, bytes: &[u8], writer: &mut W) -> Checked
    ensures tells { Tells bytes.now (W.contents writer.old) (W.contents writer.new) result }
    ensures calls { WritesSaid W.writes (judged_text bytes.now).text writer.old writer.new result }
{
    let Ok((text, checked)) = verdict_on(alloc, bytes) else {
        return Checked::OutOfMemory;
    };
    if send(writer, text.as_bytes()) {
        checked
    } else {
        Checked::Broken
    }
}
