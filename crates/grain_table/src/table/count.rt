//! How many entries of a table lie in a range.
ghost use Rattle.std.specs.Prelude.{◌≡◌, filter, length};
ghost use Rattle.directory_rules.specs.Table.{entries_of};
ghost use Rattle.hash_ring.specs.Hash.{hash_grain};
ghost use Rattle.ring_range.specs.Range.{holds};

use super::Table;
use crate::hashed_map::HashedMap;
use hash_ring::Hashing;
use ring_range::RingRange;

impl Table {
    /// How many grains that have entries are hashed into the range. Costs a logarithm where all are and they are hashed here in this
    /// way; else each entry is looked at.
    pub fn count_within(&self, hashing: Hashing, range: &RingRange) -> usize
        ensures { result ≡ length (filter (λ e. holds range.now (hash_grain hashing e.grain)) (entries_of self.now.entries)) }
    {
        if self.lies_in(hashing, range) {
            return self.len();
        }
        count_hashed_into(hashing, range, &self.map)
    }
}

// How many grains of a map are hashed into the range.
fn count_hashed_into(hashing: Hashing, range: &RingRange, map: &HashedMap) -> usize
    ensures { result ≡ length (filter (λ e. holds range.now (hash_grain hashing e.0.grain)) map.now) }
{
    let mut count = map.len();
    'entries: for (key, _) in map.iter() {
        if !range.contains(hashing.hash_grain(&key.grain)) {
            count -= 1;
        }
    }
    count
}
