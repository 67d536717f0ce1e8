//! One turn of a run.

ghost use Rattle.std.specs.Prelude.{◌+◌, ◌<◌, ◌≤◌, IfNone, length, vec_len};
ghost use Rattle.line_loop.specs.Turns.{Turns};

use crate::session::Session;
use crate::step::Step;
use crate::{Ended, LinePlayer, Sink, Source};

/// How many bytes wait to be written at most before a write, while lines are there to be played.
const WRITTEN_AT: usize = 32_768;

impl Session {
    ghost use Rattle.line_loop.specs.Progress.{progress, work};

    /// One step, and the read or the write that is due then; answers how the run ends, if it does.
    ///
    /// What is held is bounded, whatever comes: a line that may still be well and a chunk, and less than 32768 bytes that wait to be
    /// written.
    pub(crate) fn turn<P: LinePlayer, R: Source, W: Sink>(
        &mut self,
        player: &mut P,
        reader: &mut R,
        writer: &mut W,
    ) -> Option<Ended<P::Stop>>
        requires short { length (progress self.old).waiting < 32768 }
        requires bounded { vec_len self.old.bytes ≤ 65536 + P.MOST_KEPT }
        ensures goes { Turns P.plays P.MOST_KEPT P.MOST_READ R.reads W.writes player.old (progress self.old) (reader.old, writer.old)
            player.new (progress self.new) (reader.new, writer.new) result }
        ensures less { IfNone result (work (progress self.new) < work (progress self.old)) }
        ensures short { IfNone result (length (progress self.new).waiting < 32768) }
        ensures bounded { vec_len self.new.bytes ≤ 65536 + P.MOST_KEPT }
    {
        match self.step(player) {
            Step::Played if self.out.len() < WRITTEN_AT => None,
            Step::Played => self.drain(writer),
            Step::Wants => match self.drain(writer) {
                None => self.fill(reader),
                Some(broken) => Some(broken),
            },
            Step::Ends(ended) => match self.drain(writer) {
                None => Some(ended),
                Some(broken) => Some(broken),
            },
        }
    }
}
