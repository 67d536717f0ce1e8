//! Entries of a table that lie in a range stay, and the others go.
ghost use Rattle.std.specs.Prelude.{◌≡◌, filter, nat_lt};
ghost use Rattle.hash_ring.specs.Hash.{hash_grain};
ghost use Rattle.ring_range.specs.Range.{holds};

use super::Table;
use hash_ring::Hashing;
use ring_range::RingRange;

impl Table {
    /// Takes out the entries whose grains are hashed outside the range, and copies none. Those behind the range go at once, which
    /// costs a logarithm and to free them; where some are before it, each entry is looked at. Needs no memory.
    pub fn keep_within(&mut self, hashing: Hashing, range: &RingRange)
        ensures { self.new ≡ record self.old { entries = filter (λ e. holds range.now (hash_grain hashing e.0)) self.old.entries } }
    {
        let own = self.hashing;
        if self.lies_in(hashing, range) {
            return;
        }
        if own.same(&hashing) {
            self.keep_under_hashes(range);
            return;
        }
        self.keep_hashed_into(hashing, range);
    }

    // The same, under the hashes that the table has: first what stands behind the range, then what else is outside, if anything.
    fn keep_under_hashes(&mut self, range: &RingRange)
        ensures { self.new ≡ record self.old { entries = filter (λ e. holds range.now (hash_grain self.old.hashing e.0)) self.old.entries } }
    {
        let _hashing = self.hashing;
        range.in_range();
        self.keep_before(u64::from(range.start()) + range.size());
        if self.lies_under_hashes(range) {
            return;
        }
        self.keep_those_under(range);
    }

    // Takes out the entries whose grains are hashed to the end or behind it.
    fn keep_before(&mut self, end: u64)
        ensures { self.new ≡ record self.old { entries = filter (λ e. nat_lt (hash_grain self.old.hashing e.0) end) self.old.entries } }
    {
        self.map.keep_before(end);
    }

    // Takes out what stands under hashes outside the range, wherever it stands.
    fn keep_those_under(&mut self, range: &RingRange)
        ensures { self.new ≡ record self.old { entries = filter (λ e. holds range.now (hash_grain self.old.hashing e.0)) self.old.entries } }
    {
        self.map.keep_in(range);
    }

    // The same, under any hashes: each grain is hashed anew.
    fn keep_hashed_into(&mut self, hashing: Hashing, range: &RingRange)
        ensures { self.new ≡ record self.old { entries = filter (λ e. holds range.now (hash_grain hashing e.0)) self.old.entries } }
    {
        self.map.keep_hashed_into(hashing, range);
    }
}
