//! What is printed goes to a sink.

ghost use Rattle.std.specs.Prelude.{ℕ, List, Option};
ghost use Rattle.std.specs.Io.{WritesAtMost};
ghost use Rattle.line_loop.specs.Calls.{WritesKnown, taken};

use std::io::{self, Write};

/// What is printed goes to; each writer is one.
pub trait Sink {
    // The bytes that the sink has, where they are known.
    ghost contents: { Self → Option (List ℕ) };

    // One write: the sink before it, the bytes that it was given, how many it took, none where it failed, and the sink behind
    // it. Nothing more is known of this, so that code over all sinks can claim no write that it didn't make.
    ghost writes: { Self → List ℕ → Option ℕ → Self → Type 0 };

    /// Takes bytes from the front of these, and answers how many.
    fn write_front(&mut self, bytes: &[u8]) -> io::Result<usize>
        ensures bound { WritesAtMost result bytes.now }
        ensures once { writes self.old bytes.now (taken result) self.new };

    // Where its bytes are known, a write puts those behind them that it took.
    ghost known: { (old : Self) (bytes : List ℕ) (took : Option ℕ) (new : Self) → writes old bytes took new → WritesKnown (contents old) bytes took (contents new) };
}

impl<W: Write> Sink for W {
    ghost contents = { λ writer. W.contents writer };

    ghost writes = { λ old bytes took new. WritesKnown (W.contents old) bytes took (W.contents new) };

    ghost known = { λ old bytes took new once. once };

    fn write_front(&mut self, bytes: &[u8]) -> io::Result<usize> {
        self.write(bytes)
    }
}
