//! How a line ends: its last space becomes the line feed. What failed is taken back.

ghost use Rattle.std.specs.Prelude.{◌≡◌, ◌<◌, ℕ, List, [], ◌∷◌, ◌++◌, length, OnOk, OnErr};
ghost use Rattle.texts.specs.Words.{line_feed, sentence};
ghost use Rattle.script_lines.specs.Printed.{printed};
ghost use Rattle.script_lines.specs.Spaced.{spaced, BeginsWith};

use std::alloc::AllocError;
use texts::taken_back_at_error;

/// Ends the line whose words were written behind the first `start` bytes, or takes back what was written of it.
#[tactic(auto, using(crate::proofs::Fronts::front_taken))]
pub fn end_line(
    out: &mut Vec<u8>,
    start: usize,
    written: Result<(), AllocError>,
) -> Result<(), AllocError>
    ensures ended { OnOk result ((front : List ℕ) (words : List (List ℕ)) → 0 < length words
        → out.old.items ≡ front ++ spaced words → out.new.items ≡ front ++ printed (sentence words)) }
    ensures taken_back { OnErr result ((front : List ℕ) → start ≡ length front → BeginsWith front out.old.items → out.new.items ≡ front) }
    ensures passed_on { result ≡ written }
{
    taken_back_at_error(out, start, written)?;
    end_by_line_feed(out);
    Ok(())
}

/// Makes the last byte a line feed.
fn end_by_line_feed(out: &mut Vec<u8>)
    ensures { (front : List ℕ) (byte : ℕ) → out.old.items ≡ front ++ byte ∷ [] → out.new.items ≡ front ++ line_feed ∷ [] }
{
    if let Some(last) = out.last_mut() {
        *last = b'\n';
    }
}
