//! What plays a line.

ghost use Rattle.std.specs.Prelude.{◌≡◌, ◌<◌, ◌++◌, ℕ, Bool, true, List, Option, IfOk, OnErr, length};
ghost use Rattle.line_loop.specs.Lines.{Prints};

use std::alloc::{AllocError, Global};

/// What plays the lines of a stream, one after the other.
pub trait LinePlayer {
    /// How a line may stop the run.
    type Stop: Copy;

    // What playing a line may do: by the player before it, the line's number from 1, the line, and whether a line feed ended it, what is
    // printed, how the run stops by it, if it does, and the player after it.
    ghost plays: { Self → (number : ℕ) → (line : List ℕ) → (ended : Bool) → (text : List ℕ) → (stop : Option Self.Stop) → Self → Type 0 };

    ghost MOST_KEPT: { ℕ };

    ghost MOST_READ: { ℕ };

    /// How many bytes may begin a line that isn't known to be too long yet: of a longer one no more are kept.
    const MOST_KEPT: usize;

    /// How many bytes there may be in all.
    const MOST_READ: u64;

    /// Plays a line, given without its line feed, by its number from 1; the last one no line feed ended. Does what the line asks for,
    /// writes what that prints behind what is written already, and answers how the run stops by it. Fails only when memory runs out;
    /// then nothing is written, and the player may have changed.
    fn play_line(
        &mut self,
        alloc: Global,
        number: u64,
        line: &[u8],
        ended: bool,
        out: &mut Vec<u8>,
    ) -> Result<Option<Self::Stop>, AllocError>
        ensures played { IfOk result (λ stop. Prints (plays self.old number line.now ended) out.old.items out.new.items stop self.new) }
        ensures unwritten { OnErr result (out.new.items ≡ out.old.items) };

    // What comes behind the first bytes of a line that is too long makes no difference, nor whether a line feed ends it.
    ghost too_long: { (old new : Self) (number : ℕ) (line more text : List ℕ) (ended : Bool) (stop : Option Self.Stop) → MOST_KEPT < length line → plays old number line true text stop new → plays old number (line ++ more) ended text stop new };

    // Its number can be counted.
    ghost countable: { MOST_READ < 18446744073709551615 };
}
