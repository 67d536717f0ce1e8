//! A bucket: a few entries in order.
ghost use Rattle.std.specs.BTreeMap.{insert_entry, is_at};
ghost use Rattle.std.specs.Map.{lookup, remove_entry};
ghost use Rattle.std.specs.Prelude.{◌≡◌, ◌+◌, ◌≤◌, [], IfOk, IfSome, OnErr, OnOk, filter, length, nat_lt};
ghost use Rattle.grain_table.specs.Buckets.{IsAmid, IsCutAt};
ghost use Rattle.grain_table.specs.Hashed.{hashed_cmp};

mod keep;

use super::search::{first_from, index_of, stands_at};
use super::slot::Slot;
use crate::hashed_grain::HashedGrain;
use silo_address::ActivationId;
use std::alloc::{AllocError, Global};
use std::marker::Model;

/// A bucket is cut in two when it has so many entries, unless half of them share their hash.
const MOST: usize = 48;

/// A bucket's memory grows and shrinks by so many entries.
const STEP: usize = 8;

/// Activations under hashed grains, in order of hash, then the grain's text.
#[derive(Drop)]
pub(super) struct Bucket {
    slots: Vec<Slot>,
}

impl Model for Bucket {
    ghost use Rattle.std.specs.List.Sorted.{IsStrictlySortedBy};
    ghost use Rattle.std.specs.Map.{keys_of};
    ghost use Rattle.grain_table.specs.Hashed.{Hashed, hashed_cmp};

    ghost Value = { Hashed };

    ghost view = { λ b. b.slots.items };

    ghost invariant = { λ b. IsStrictlySortedBy hashed_cmp (keys_of b.slots.items) };
}

impl Bucket {
    /// Nothing yet.
    pub(super) fn new(alloc: Global) -> Bucket
        ensures { result ≡ [] }
    {
        Bucket {
            slots: Vec::new(alloc),
        }
    }

    pub(super) fn len(&self) -> usize
        ensures { result ≡ length self.now }
    {
        self.slots.len()
    }

    /// Whether it has so many entries that it is to be cut.
    pub(super) fn is_full(&self) -> bool {
        self.slots.len() >= MOST
    }

    /// The entries.
    pub(super) fn slots(&self) -> &[Slot]
        ensures { result.now ≡ self.now }
    {
        self.slots.as_slice()
    }

    /// The activation under the key.
    pub(super) fn get(&self, key: &HashedGrain) -> Option<ActivationId>
        ensures { result ≡ lookup (is_at (hashed_cmp key.now)) self.now }
    {
        let index = index_of(&self.slots, key);
        if stands_at(&self.slots, index, key) {
            return Some(self.slots[index].activation());
        }
        None
    }

    /// Puts an activation in under its key, and answers by how many entries there are more. Fails only when memory runs out, and then
    /// changes nothing.
    pub(super) fn insert(
        &mut self,
        alloc: Global,
        key: &HashedGrain,
        activation: ActivationId,
    ) -> Result<usize, AllocError>
        ensures entries { OnOk result (self.new ≡ insert_entry hashed_cmp self.old key.now activation) }
        ensures more { IfOk result (λ more. (length self.new ≡ length self.old + more) × (more ≤ 1)) }
        ensures unchanged { OnErr result (self.new ≡ self.old) }
    {
        let index = index_of(&self.slots, key);
        let slot = Slot::of(alloc, key, activation)?;
        if stands_at(&self.slots, index, key) {
            self.slots[index] = slot;
            return Ok(0);
        }
        make_room(&mut self.slots)?;
        self.slots.insert(index, slot)?;
        Ok(1)
    }

    /// Takes out what stands under the key, and answers by how many entries there are fewer.
    pub(super) fn remove(&mut self, key: &HashedGrain) -> usize
        ensures entries { self.new ≡ remove_entry (is_at (hashed_cmp key.now)) self.old }
        ensures fewer { length self.new + result ≡ length self.old }
    {
        let index = index_of(&self.slots, key);
        if !stands_at(&self.slots, index, key) {
            return 0;
        }
        drop(self.slots.remove(index));
        give_room_back(&mut self.slots);
        1
    }

    /// The hash at which it is best cut, if it can be cut.
    pub(super) fn middle(&self) -> Option<u32>
        ensures { IfSome result (λ middle. IsAmid middle self.now) }
    {
        let first = self.slots.first()?;
        let slot = self.slots.get(self.slots.len() / 2)?;
        if first.hash() == slot.hash() {
            return None;
        }
        Some(slot.hash())
    }

    /// Takes what stands under the hash or higher ones into another bucket. Fails only when memory runs out, and then changes nothing.
    pub(super) fn split_off(&mut self, hash: u32) -> Result<Bucket, AllocError>
        ensures cut { IfOk result (λ upper. IsCutAt hash self.old self.new upper) }
        ensures unchanged { OnErr result (self.new ≡ self.old) }
    {
        let index = first_from(&self.slots, u64::from(hash));
        let slots = self.slots.split_off(index)?;
        self.slots.shrink_to_fit();
        Ok(Bucket { slots })
    }

    /// Keeps what stands under lower hashes, and answers by how many entries there are fewer.
    pub(super) fn keep_before(&mut self, end: u64) -> usize
        ensures entries { self.new ≡ filter (λ e. nat_lt e.0.hash end) self.old }
        ensures fewer { length self.new + result ≡ length self.old }
    {
        let index = first_from(&self.slots, end);
        let fewer = self.slots.len() - index;
        self.slots.truncate(index);
        self.slots.shrink_to_fit();
        fewer
    }

    /// An equal bucket. Fails only when memory runs out.
    pub(super) fn copy(&self) -> Result<Bucket, AllocError>
        ensures { IfOk result (λ bucket. bucket ≡ self.now) }
    {
        let slots = self.slots.clone()?;
        Ok(Bucket { slots })
    }
}

impl Clone for Bucket {
    ghost is_clone = { λ one other. other ≡ one };

    fn clone(&self) -> Result<Bucket, AllocError> {
        self.copy()
    }
}

// Makes room for one more. Fails only when memory runs out.
fn make_room(slots: &mut Vec<Slot>) -> Result<(), AllocError>
    ensures { slots.new.items ≡ slots.old.items }
{
    if slots.len() < slots.capacity() {
        return Ok(());
    }
    slots.reserve_exact(STEP)
}

// Gives room back where there is much.
fn give_room_back(slots: &mut Vec<Slot>)
    ensures { slots.new.items ≡ slots.old.items }
{
    let len = slots.len();
    if slots.capacity().saturating_sub(len) < 2 * STEP {
        return;
    }
    slots.shrink_to(len.saturating_add(STEP));
}
