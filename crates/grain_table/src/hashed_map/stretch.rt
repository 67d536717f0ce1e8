//! What stands under a stretch of hashes.
ghost use Rattle.std.specs.Iterator.{at_most};
ghost use Rattle.std.specs.List.{list_all};
ghost use Rattle.std.specs.Map.Iter.{TakesFirst};
ghost use Rattle.std.specs.Prelude.{◌≡◌, filter, length, not};
ghost use Rattle.grain_table.specs.Buckets.{AreCut, joined};
ghost use Rattle.grain_table.specs.Stretch.{is_between};

use super::HashedMap;
use super::bucket::Bucket;
use super::entries::Entries;
use super::search::{cuts_before, index_under};
use crate::hashed_grain::HashedGrain;
use silo_address::ActivationId;
use std::marker::Model;

/// Those of some entries that stand under hashes from the first one on and before the end, in the order of the map.
#[derive(Drop)]
pub(crate) struct Between<'a> {
    entries: Entries<'a>,
    first: u32,
    end: u64,
}

impl<'a> Model for Between<'a> {
    ghost use Rattle.std.specs.Prelude.{filter};
    ghost use Rattle.grain_table.specs.Hashed.{Hashed};
    ghost use Rattle.grain_table.specs.Stretch.{is_between};

    ghost Value = { Hashed };

    ghost view = { λ s. filter (λ e. is_between s.first s.end e.0.hash) s.entries };
}

impl<'a> Iterator for Between<'a> {
    type Item = (HashedGrain, ActivationId);

    ghost next_gives = { TakesFirst (λ p. p) };

    ghost remaining = { λ s. at_most (length s) };

    fn next(&mut self) -> Option<(HashedGrain, ActivationId)> {
        'slots: while let Some(slot) = self.entries.take_slot() {
            if is_between(self.first, self.end, slot.hash()) {
                return Some((slot.key(), slot.activation()));
            }
        }
        None
    }
}

impl HashedMap {
    /// What stands under hashes from the first one on and before the end. Looks into no buckets but theirs.
    pub(crate) fn between(&self, first: u32, end: u64) -> Between<'_>
        ensures { result ≡ filter (λ e. is_between first end e.0.hash) self.now }
    {
        Between {
            entries: Entries::of(buckets_between(&self.cuts, &self.buckets, first, end)),
            first,
            end,
        }
    }

    /// Whether nothing stands under those hashes.
    pub(crate) fn has_none_between(&self, first: u32, end: u64) -> bool
        ensures { result ≡ list_all (λ e. not (is_between first end e.0.hash)) self.now }
    {
        let mut entries = self.between(first, end);
        entries.next().is_none()
    }
}

// The buckets that may have entries under those hashes.
fn buckets_between<'a>(cuts: &[u32], buckets: &'a [Bucket], first: u32, end: u64) -> &'a [Bucket]
    requires { AreCut cuts.now buckets.now }
    ensures { filter (λ e. is_between first end e.0.hash) (joined result.now) ≡ filter (λ e. is_between first end e.0.hash) (joined buckets.now) }
{
    let start = index_under(cuts, first);
    let more = cuts_before(cuts, end).saturating_sub(start);
    if buckets.len() <= start {
        return &[];
    }
    let behind = &buckets[start..];
    if behind.len() <= more {
        return behind;
    }
    &behind[..more + 1]
}

// Whether the hash is at the first or after it, and before the end.
fn is_between(first: u32, end: u64, hash: u32) -> bool
    ensures { result ≡ is_between first end hash }
{
    first <= hash && u64::from(hash) < end
}
