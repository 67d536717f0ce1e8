//! Activations in order of hash.
ghost use Rattle.std.specs.Prelude.{◌≡◌};
ghost use Rattle.host_activations.specs.Stretch.{end_at, first_at};

use ring_range::CIRCLE;
use std::collections::BTreeMap;
use std::ops::Bound;

/// The hash of an activation's grain, and the activation's count. They are in order of hash, then count.
#[derive(Clone, Copy, PartialEq, Eq, PartialOrd, Ord)]
pub(crate) struct HashedCount {
    pub(crate) hash: u32,
    pub(crate) count: u64,
}

/// Activations in order of hash: under each hashed count the index at which the activation stands in a map.
pub(crate) type ByHash = BTreeMap<HashedCount, usize>;

/// What no hashed count with that hash or a higher one is below.
pub(crate) fn first_at(hash: u32) -> HashedCount
    ensures { result ≡ first_at hash }
{
    HashedCount { hash, count: 0 }
}

/// What is above all hashed counts with lower hashes: nothing where that is all of them.
pub(crate) fn end_at(hash: u64) -> Bound<HashedCount>
    ensures { result ≡ end_at hash }
{
    if hash < CIRCLE {
        Bound::Excluded(first_at(hash as u32))
    } else {
        Bound::Unbounded
    }
}
