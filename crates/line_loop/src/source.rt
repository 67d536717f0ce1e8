//! What lines are read from.

ghost use Rattle.std.specs.Prelude.{◌<◌, ℕ, List, Option, length};
ghost use Rattle.std.specs.Io.{ReadsAtMost};
ghost use Rattle.line_loop.specs.Calls.{ReadsKnown, given};

use std::io::{self, Read};

/// What lines are read from; each reader is one.
pub trait Source {
    // The bytes that reads will give from here on, where they are known.
    ghost remaining: { Self → Option (List ℕ) };

    // One read: the source before it, the bytes that it gave, none where it failed, and the source behind it. Nothing more is
    // known of this, so that code over all sources can claim no read that it didn't make.
    ghost reads: { Self → Option (List ℕ) → Self → Type 0 };

    /// Reads bytes to the front of a chunk, which has room for some, and answers how many: 0 only at the end.
    fn read_chunk(&mut self, chunk: &mut [u8]) -> io::Result<usize>
        requires room { 0 < length chunk.old }
        ensures bound { ReadsAtMost result chunk.new }
        ensures once { reads self.old (given result chunk.new) self.new };

    // Where bytes are known, a read gives those that come next.
    ghost known: { (old : Self) (got : Option (List ℕ)) (new : Self) → reads old got new → ReadsKnown (remaining old) got (remaining new) };
}

impl<R: Read> Source for R {
    ghost remaining = { λ reader. R.remaining reader };

    ghost reads = { λ old got new. ReadsKnown (R.remaining old) got (R.remaining new) };

    ghost known = { λ old got new once. once };

    fn read_chunk(&mut self, chunk: &mut [u8]) -> io::Result<usize> {
        self.read(chunk)
    }
}
