//! Whether the entries of a table lie in a range.
ghost use Rattle.std.specs.Prelude.{◌≡◌, ◌≤◌, not};
ghost use Rattle.std.specs.List.{list_all};
ghost use Rattle.directory_rules.specs.Table.{entries_of, lie_in};
ghost use Rattle.hash_ring.specs.Hash.{hash_grain};
ghost use Rattle.ring_range.specs.Range.{circle, holds};
ghost use Rattle.grain_table.specs.Stretch.{is_between};

use super::Table;
use crate::hashed_map::HashedMap;
use hash_ring::Hashing;
use ring_range::{CIRCLE, RingRange};

impl Table {
    /// Whether all grains that have entries are hashed into the range. Costs a logarithm and a look at some dozen entries where they
    /// are hashed here in this way: then nothing may stand under the hashes outside. Otherwise each is hashed.
    pub fn lies_in(&self, hashing: Hashing, range: &RingRange) -> bool
        ensures { result ≡ lie_in hashing range.now (entries_of self.now.entries) }
    {
        if self.hashing.same(&hashing) {
            return self.lies_under_hashes(range);
        }
        are_hashed_into(hashing, range, &self.map)
    }

    // The same, under the hashes that the table has.
    pub(super) fn lies_under_hashes(&self, range: &RingRange) -> bool
        ensures { result ≡ lie_in self.now.hashing range.now (entries_of self.now.entries) }
    {
        range.in_range();
        let start = u64::from(range.start());
        let end = start + range.size();
        if end > CIRCLE {
            return self.has_none_between(end - CIRCLE, start);
        }
        if !self.has_none_between(0, start) {
            return false;
        }
        self.has_none_between(end, CIRCLE)
    }

    // Whether no grain that has an entry is hashed to the first hash or after it, and before the end.
    fn has_none_between(&self, first: u64, end: u64) -> bool
        requires { end ≤ circle }
        ensures { result ≡ list_all (λ e. not (is_between first end (hash_grain self.now.hashing e.grain))) (entries_of self.now.entries) }
    {
        if first >= end {
            return true;
        }
        self.map.has_none_between(first as u32, end)
    }
}

// Whether each grain of a map is hashed into the range.
fn are_hashed_into(hashing: Hashing, range: &RingRange, map: &HashedMap) -> bool
    ensures { result ≡ list_all (λ e. holds range.now (hash_grain hashing e.0.grain)) map.now }
{
    'entries: for (key, _) in map.iter() {
        if !range.contains(hashing.hash_grain(&key.grain)) {
            return false;
        }
    }
    true
}
