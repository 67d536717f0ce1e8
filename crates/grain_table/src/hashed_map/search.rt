//! Searches: in entries in order, and among cuts.
ghost use Rattle.std.specs.Bool.{OnTrue};
ghost use Rattle.std.specs.List.Sorted.{IsNonDecreasing, IsPartitionPoint, IsStrictlySortedBy};
ghost use Rattle.std.specs.Map.{keys_of};
ghost use Rattle.std.specs.Prelude.{◌≡◌, ◌<◌, ◌≤◌, drop, false, length, true};
ghost use Rattle.grain_table.specs.Buckets.{is_before, is_first};
ghost use Rattle.grain_table.specs.Hashed.{hashed_cmp};

use super::slot::Slot;
use crate::hashed_grain::HashedGrain;

/// How many stand before the key.
pub(super) fn index_of(slots: &[Slot], key: &HashedGrain) -> usize
    requires { IsStrictlySortedBy hashed_cmp (keys_of slots.now) }
    ensures bound { result ≤ length slots.now }
    ensures split { IsPartitionPoint (λ e. is_before key.now e ≡ true) (λ e. is_before key.now e ≡ false) slots.now result }
{
    slots.partition_point(|slot| slot.is_before(key))
}

/// Whether the one at the index, if there is one, stands under the key.
pub(super) fn stands_at(slots: &[Slot], index: usize, key: &HashedGrain) -> bool
    ensures first { result ≡ is_first key.now (drop index slots.now) }
    ensures within { OnTrue result (index < length slots.now) }
{
    if slots.len() <= index {
        return false;
    }
    slots[index].is_under(key)
}

/// How many stand under lower hashes.
pub(super) fn first_from(slots: &[Slot], hash: u64) -> usize
    requires { IsStrictlySortedBy hashed_cmp (keys_of slots.now) }
    ensures bound { result ≤ length slots.now }
    ensures split { IsPartitionPoint (λ e. e.0.hash < hash) (λ e. hash ≤ e.0.hash) slots.now result }
{
    slots.partition_point(|slot| u64::from(slot.hash()) < hash)
}

/// The index of the bucket for a hash.
pub(super) fn index_under(cuts: &[u32], hash: u32) -> usize
    requires { IsNonDecreasing cuts.now }
    ensures bound { result ≤ length cuts.now }
    ensures split { IsPartitionPoint (λ cut. cut ≤ hash) (λ cut. hash < cut) cuts.now result }
{
    cuts.partition_point(|cut| *cut <= hash)
}

/// How many cuts are before the end.
pub(super) fn cuts_before(cuts: &[u32], end: u64) -> usize
    requires { IsNonDecreasing cuts.now }
    ensures bound { result ≤ length cuts.now }
    ensures split { IsPartitionPoint (λ cut. cut < end) (λ cut. end ≤ cut) cuts.now result }
{
    cuts.partition_point(|cut| u64::from(*cut) < end)
}
