//! The lines of a stream, from a source to a sink.

ghost use Rattle.std.specs.Prelude.{IfSome};
ghost use Rattle.line_loop.specs.Endings.{Ends, EndsInTurn, MakesCalls};
ghost use Rattle.line_loop.specs.Lines.{PlaysLines, PrintsLine};

use crate::session::Session;
use crate::{Ended, LinePlayer, Sink, Source};
use std::alloc::Global;

/// Has the lines of a stream played, from the first one on.
///
/// All that is printed by a line is written before the source is asked for more, and it is asked only where no line that is there is
/// still to be played, and no more was read than may be. A line is played as soon as it is known to be too long, and what comes of it
/// then is passed over: it isn't kept, nor does more wait to be written at once than 32767 bytes and what one line prints. No read or
/// write is tried again, and a write that takes nothing is a failure. Where memory runs out, all is written that is printed by the lines
/// before the one for which it lacked.
pub fn play<P: LinePlayer, R: Source, W: Sink>(
    alloc: Global,
    player: &mut P,
    reader: &mut R,
    writer: &mut W,
) -> Ended<P::Stop>
    ensures ends { IfSome (R.remaining reader.old) (λ input.
        Ends P.plays P.MOST_READ player.old player.new input (R.remaining reader.new) (W.contents writer.old) (W.contents writer.new) result) }
    ensures in_turn { EndsInTurn R.reads W.writes P.MOST_KEPT P.MOST_READ (PlaysLines P.plays player.old) (PrintsLine P.plays)
        (reader.old, writer.old) (reader.new, writer.new) result }
    ensures calls { MakesCalls R.reads W.writes (reader.old, writer.old) (reader.new, writer.new) result }
{
    let Ok(mut session) = Session::new(alloc, P::MOST_KEPT, P::MOST_READ) else {
        return Ended::OutOfMemory;
    };
    'turns: loop {
        if let Some(ended) = session.turn(player, reader, writer) {
            return ended;
        }
    }
}
