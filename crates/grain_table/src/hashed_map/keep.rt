//! Some entries of a map stay, and the others go.
ghost use Rattle.std.specs.Prelude.{◌≡◌, ◌≤◌, ◌+◌, filter, length, map, nat_lt, not};
ghost use Rattle.directory_rules.specs.Members.{is_dead_in};
ghost use Rattle.hash_ring.specs.Hash.{hash_grain};
ghost use Rattle.ring_range.specs.Range.{holds};
ghost use Rattle.grain_table.specs.Buckets.{AreCut, joined};

use super::HashedMap;
use super::bucket::Bucket;
use super::search::cuts_before;
use hash_ring::Hashing;
use membership_view::View;
use ring_range::RingRange;

impl HashedMap {
    /// Keeps what stands under hashes before the end. Costs a logarithm, and to free what goes.
    pub(crate) fn keep_before(&mut self, end: u64)
        ensures { self.new ≡ filter (λ e. nat_lt e.0.hash end) self.old }
    {
        let most = self.len;
        self.len -= drop_behind(&mut self.cuts, &mut self.buckets, end, most);
    }

    /// Keeps what stands under hashes of the range.
    pub(crate) fn keep_in(&mut self, range: &RingRange)
        ensures { self.new ≡ filter (λ e. holds range.now e.0.hash) self.old }
    {
        let most = self.len;
        keep_each_in(&mut self.buckets, range);
        self.len = count(&self.buckets, most);
    }

    /// Keeps the grains that are hashed into the range.
    pub(crate) fn keep_hashed_into(&mut self, hashing: Hashing, range: &RingRange)
        ensures { self.new ≡ filter (λ e. holds range.now (hash_grain hashing e.0.grain)) self.old }
    {
        let most = self.len;
        keep_each_hashed_into(&mut self.buckets, hashing, range);
        self.len = count(&self.buckets, most);
    }

    /// Keeps the activations on silos that aren't Dead in the view.
    pub(crate) fn remove_dead(&mut self, view: &View)
        ensures { self.new ≡ filter (λ e. not (is_dead_in view.now e.1.silo)) self.old }
    {
        let most = self.len;
        remove_each_dead(&mut self.buckets, view);
        self.len = count(&self.buckets, most);
    }
}

// Takes out what stands under the end or higher hashes, of at most so many entries, and answers by how many there are fewer.
fn drop_behind(cuts: &mut Vec<u32>, buckets: &mut Vec<Bucket>, end: u64, most: usize) -> usize
    requires cut { AreCut cuts.old.items buckets.old.items }
    requires most { length (joined buckets.old.items) ≤ most }
    ensures entries { joined buckets.new.items ≡ filter (λ e. nat_lt e.0.hash end) (joined buckets.old.items) }
    ensures cut { AreCut cuts.new.items buckets.new.items }
    ensures fewer { length (joined buckets.new.items) + result ≡ length (joined buckets.old.items) }
{
    let index = cuts_before(cuts, end);
    if buckets.len() <= index {
        return 0;
    }
    let behind = count(&buckets[index + 1..], most);
    cuts.truncate(index);
    buckets.truncate(index + 1);
    behind + buckets[index].keep_before(end)
}

fn keep_each_in(buckets: &mut Vec<Bucket>, range: &RingRange)
    ensures { buckets.new.items ≡ map (λ bucket. filter (λ e. holds range.now e.0.hash) bucket) buckets.old.items }
{
    'buckets: for bucket in buckets.iter_mut() {
        bucket.keep_in(range);
    }
}

fn keep_each_hashed_into(buckets: &mut Vec<Bucket>, hashing: Hashing, range: &RingRange)
    ensures { buckets.new.items ≡ map (λ bucket. filter (λ e. holds range.now (hash_grain hashing e.0.grain)) bucket) buckets.old.items }
{
    'buckets: for bucket in buckets.iter_mut() {
        bucket.keep_hashed_into(hashing, range);
    }
}

fn remove_each_dead(buckets: &mut Vec<Bucket>, view: &View)
    ensures { buckets.new.items ≡ map (λ bucket. filter (λ e. not (is_dead_in view.now e.1.silo)) bucket) buckets.old.items }
{
    'buckets: for bucket in buckets.iter_mut() {
        bucket.remove_dead(view);
    }
}

// How many entries the buckets have, of which there are at most so many.
fn count(buckets: &[Bucket], most: usize) -> usize
    requires { length (joined buckets.now) ≤ most }
    ensures { result ≡ length (joined buckets.now) }
{
    let mut count = 0;
    'buckets: for bucket in buckets {
        count += bucket.len();
    }
    count
}
