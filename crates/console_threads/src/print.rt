//! What a script comes to is printed, once its cluster is closed.

ghost use Rattle.std.specs.Prelude.{◌≡◌, IfOk};
ghost use Rattle.console_threads.specs.Endings.{EndsBy, IsWritten, LacksOnlyAfter, Tells, WritesOnce};

use crate::lines::Lines;
use cluster_board::{Board, Charter};
use console_command::{show, tell_verdict};
use line_loop::{Ended, ScriptLineFault, Sink, send};
use std::alloc::{AllocError, Global};
use threaded_play::ThreadsEnded;

/// Prints what there is to print: the line of the fault, or without one what the cluster came to.
pub(crate) fn print<L: Charter, W: Sink>(
    alloc: Global,
    lines: &Lines,
    board: &Board<L>,
    writer: &mut W,
) -> ThreadsEnded
    ensures ends { EndsBy L.settings board.now.journal board.now.world lines.now.text.items lines.now.ended (W.contents writer.old) (W.contents writer.new) result }
    ensures once { WritesOnce W.writes writer.old writer.new lines.now.ended result }
    ensures lacking { LacksOnlyAfter lines.now.ended result }
{
    match lines.ended {
        Ended::AtEnd => print_world(alloc, &lines.text, board, writer),
        Ended::Stopped(_) => write(lines.ended, &lines.text, writer),
        Ended::TooLong => ThreadsEnded::Played(Ended::TooLong),
        Ended::OutOfMemory => ThreadsEnded::Lacking,
        Ended::Broken => ThreadsEnded::Played(Ended::Broken),
    }
}

// Prints what the cluster came to, behind lines that printed nothing.
fn print_world<L: Charter, W: Sink>(
    alloc: Global,
    printed: &[u8],
    board: &Board<L>,
    writer: &mut W,
) -> ThreadsEnded
    ensures ends { EndsBy L.settings board.now.journal board.now.world printed.now Ended.AtEnd (W.contents writer.old) (W.contents writer.new) result }
    ensures once { WritesOnce W.writes writer.old writer.new Ended.AtEnd result }
{
    match world_text(alloc, board) {
        Ok(text) => write(Ended::AtEnd, &text, writer),
        Err(_) => ThreadsEnded::Lacking,
    }
}

// Writes the text with which a script ends so; it is broken where a write fails.
fn write<W: Sink>(ended: Ended<ScriptLineFault>, text: &[u8], writer: &mut W) -> ThreadsEnded
    ensures { IsWritten W.writes W.contents text.now ended writer.old writer.new result }
{
    if send(writer, text) {
        ThreadsEnded::Played(ended)
    } else {
        ThreadsEnded::Played(Ended::Broken)
    }
}

// How many events there were, the verdict, and the whole directory.
fn world_text<L: Charter>(alloc: Global, board: &Board<L>) -> Result<Vec<u8>, AllocError>
    ensures { IfOk result (λ text. Tells L.settings board.now.journal board.now.world text.items) }
{
    let count = board.journal().len();
    let mut text = Vec::new(alloc);
    text.extend_from_slice(format!(in alloc; "journal {count}\n")?.as_bytes())?;
    tell_verdict(alloc, board.world(), &mut text)?;
    show(alloc, board.world(), &mut text)?;
    Ok(text)
}
