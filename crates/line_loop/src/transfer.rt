//! The source and the sink of a session.

ghost use Rattle.std.specs.Prelude.{◌≡◌, ◌≤◌, ◌+◌, OnOk, drop, false, is_none, length, max, take, vec_len};
ghost use Rattle.line_loop.specs.Calls.{WritesText};
ghost use Rattle.line_loop.specs.Pieces.{IsOnePiece};
ghost use Rattle.line_loop.specs.Transfers.{Drains, Fills, TakesIn};

use crate::session::{CHUNK, Session};
use crate::{Ended, Sink, Source, send};
use std::alloc::AllocError;

impl Session {
    ghost use Rattle.line_loop.specs.Progress.{progress};

    /// Writes all that waits to be written; answers how the run ends where a write fails.
    pub(crate) fn drain<S, W: Sink>(&mut self, writer: &mut W) -> Option<Ended<S>>
        ensures drains { Drains (progress self.old) (progress self.new) result }
        ensures calls { WritesText W.writes (progress self.old).waiting writer.old writer.new (is_none result) }
        ensures room { vec_len self.new.bytes ≡ vec_len self.old.bytes }
    {
        if !send(writer, &self.out) {
            return Some(Ended::Broken);
        }
        self.out.clear();
        None
    }

    /// Reads a chunk behind the line that is begun; answers how the run ends where that fails.
    pub(crate) fn fill<S, R: Source>(&mut self, reader: &mut R) -> Option<Ended<S>>
        requires goes_on { self.old.ended ≡ false }
        requires begun { IsOnePiece (progress self.old).held }
        ensures fills { Fills R.reads reader.old (progress self.old) reader.new (progress self.new) result }
        ensures bound { vec_len self.new.bytes ≤ max (vec_len self.old.bytes) (65536 + length (progress self.old).held) }
    {
        let Ok(()) = self.make_room() else {
            return Some(Ended::OutOfMemory);
        };
        let end = self.end;
        match reader.read_chunk(&mut self.bytes[end..end + CHUNK]) {
            Ok(count) => self.take_in(count),
            Err(_) => Some(Ended::Broken),
        }
    }

    // Moves the line that is begun to the front, and has room for a chunk behind it.
    fn make_room(&mut self) -> Result<(), AllocError>
        requires begun { IsOnePiece (progress self.old).held }
        ensures same { progress self.new ≡ progress self.old }
        ensures room { OnOk result (self.new.end + 65536 ≤ vec_len self.new.bytes) }
        ensures bound { vec_len self.new.bytes ≤ max (vec_len self.old.bytes) (65536 + length (progress self.old).held) }
    {
        self.bytes.copy_within(self.start..self.end, 0);
        self.end -= self.start;
        self.searched = self.end;
        self.start = 0;
        if self.bytes.len() < self.end + CHUNK {
            self.bytes.resize(self.end + CHUNK, 0)?;
        }
        Ok(())
    }

    // Takes over so many bytes that were read.
    fn take_in<S>(&mut self, count: usize) -> Option<Ended<S>>
        requires within { self.old.end + count ≤ vec_len self.old.bytes }
        requires goes_on { self.old.ended ≡ false }
        ensures takes { TakesIn (progress self.old) (take count (drop self.old.end self.old.bytes.items)) (progress self.new) result }
        ensures room { vec_len self.new.bytes ≡ vec_len self.old.bytes }
    {
        if count == 0 {
            self.ended = true;
            return None;
        }
        let read = count as u64;
        if read > self.left {
            return Some(Ended::TooLong);
        }
        self.left -= read;
        self.end += count;
        None
    }
}
