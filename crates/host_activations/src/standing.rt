//! In which order reports tell what is firm in a range (`docs/RULES.md#recovery`).
ghost use Rattle.std.specs.Prelude.{◌≡◌, ◌≤◌, ◌∷◌, []};
ghost use Rattle.hash_ring.specs.Hash.{hash_grain};
ghost use Rattle.directory_rules.specs.Standing.{stands_behind, steps_to};
ghost use Rattle.host_activations.specs.Listing.{is_behind};
ghost use Rattle.ring_range.specs.Range.{distance};

use hash_ring::Hashing;
use ring_range::RingRange;
use silo_address::GrainId;

/// How many hashes of the range come before this one; all of them, where the range doesn't have it.
pub(crate) fn steps_to(range: &RingRange, hash: u32) -> u64
    ensures value { result ≡ steps_to (range.now ∷ []) hash }
    ensures within { result ≤ range.now.size }
{
    if range.contains(hash) {
        u64::from(distance(range.start(), hash))
    } else {
        range.size()
    }
}

// How many steps forward from the start the hash comes.
fn distance(start: u32, hash: u32) -> u32
    ensures { result ≡ distance start hash }
{
    hash.wrapping_sub(start)
}

/// Whether the grain stands behind that one in the range: its hash does, or it has the same and the grain is above. Each grain stands
/// behind none.
pub fn stands_behind(
    hashing: Hashing,
    range: &RingRange,
    after: Option<GrainId>,
    grain: GrainId,
) -> bool
    ensures { result ≡ stands_behind (hash_grain hashing) (range.now ∷ []) after grain }
{
    let Some(after) = after else {
        return true;
    };
    let steps = steps_to(range, hashing.hash_grain(&grain));
    let steps_after = steps_to(range, hashing.hash_grain(&after));
    (steps_after, after) < (steps, grain)
}

/// Whether a grain stands behind that one, where so many hashes of the range come before each of them. Each stands behind none.
pub(crate) fn is_behind(
    after: Option<GrainId>,
    steps_after: u64,
    steps: u64,
    grain: GrainId,
) -> bool
    ensures { result ≡ is_behind after steps_after steps grain }
{
    match after {
        Some(after) => (steps_after, after) < (steps, grain),
        None => true,
    }
}
