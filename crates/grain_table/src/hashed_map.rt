//! Activations under hashed grains, in order of hash, then the grain's text. A grain takes as much memory as its text is long.
ghost use Rattle.std.specs.BTreeMap.{insert_entry, is_at};
ghost use Rattle.std.specs.Map.{lookup, remove_entry};
ghost use Rattle.std.specs.Prelude.{◌≡◌, ◌↔◌, ◌≤◌, ◌+◌, [], IfOk, IsTrue, OnOk, OnErr, length};
ghost use Rattle.grain_table.specs.Buckets.{AreCut, joined};
ghost use Rattle.grain_table.specs.Hashed.{hashed_cmp};

mod bucket;
mod cut;
mod entries;
mod keep;
mod search;
mod slot;
mod stretch;

use crate::hashed_grain::HashedGrain;
use bucket::Bucket;
use cut::cut_full;
use search::index_under;
use silo_address::ActivationId;
use std::alloc::{AllocError, Global};
use std::marker::Model;

/// Activations under hashed grains. They are kept in buckets, each of which has a few: the first has those with hashes below the
/// first cut, the next those from there to the second cut, and so on. So a search mostly looks at the cuts and into one bucket, and to
/// grow moves a few dozen entries. A bucket may be empty.
#[derive(Drop)]
pub(crate) struct HashedMap {
    alloc: Global,
    len: usize,
    cuts: Vec<u32>,
    buckets: Vec<Bucket>,
}

impl Model for HashedMap {
    ghost use Rattle.grain_table.specs.Hashed.{Hashed};
    ghost use Rattle.grain_table.specs.Buckets.{AreBuckets, joined};

    ghost Value = { Hashed };

    ghost view = { λ m. joined m.buckets.items };

    ghost invariant = { λ m. AreBuckets m.cuts.items m.buckets.items m.len };
}

impl HashedMap {
    /// Nothing yet.
    pub(crate) fn new(alloc: Global) -> HashedMap
        ensures { result ≡ [] }
    {
        HashedMap {
            alloc,
            len: 0,
            cuts: Vec::new(alloc),
            buckets: Vec::new(alloc),
        }
    }

    /// How many entries there are.
    pub(crate) fn len(&self) -> usize
        ensures { result ≡ length self.now }
    {
        self.len
    }

    /// The activation under the key.
    pub(crate) fn get(&self, key: &HashedGrain) -> Option<ActivationId>
        ensures { result ≡ lookup (is_at (hashed_cmp key.now)) self.now }
    {
        let index = index_under(&self.cuts, key.hash);
        if index < self.buckets.len() {
            return self.buckets[index].get(key);
        }
        None
    }

    /// Puts an activation in under its key. Fails only when memory runs out, and then changes nothing.
    pub(crate) fn insert(
        &mut self,
        key: &HashedGrain,
        activation: ActivationId,
    ) -> Result<(), AllocError>
        ensures entries { OnOk result (self.new ≡ insert_entry hashed_cmp self.old key.now activation) }
        ensures unchanged { OnErr result (self.new ≡ self.old) }
    {
        if self.len == usize::MAX {
            return Err(AllocError);
        }
        cut_full(&mut self.cuts, &mut self.buckets, key.hash)?;
        self.len += put_in(self.alloc, &self.cuts, &mut self.buckets, key, activation)?;
        Ok(())
    }

    /// Takes out what stands under the key, if anything does.
    pub(crate) fn remove(&mut self, key: &HashedGrain)
        ensures { self.new ≡ remove_entry (is_at (hashed_cmp key.now)) self.old }
    {
        let index = index_under(&self.cuts, key.hash);
        if index < self.buckets.len() {
            self.len -= self.buckets[index].remove(key);
        }
    }

    /// Takes everything out.
    pub(crate) fn clear(&mut self)
        ensures { self.new ≡ [] }
    {
        self.len = 0;
        self.cuts = Vec::new(self.alloc);
        self.buckets = Vec::new(self.alloc);
    }

    /// An equal map. Fails only when memory runs out.
    pub(crate) fn copy(&self) -> Result<HashedMap, AllocError>
        ensures { IfOk result (λ map. map ≡ self.now) }
    {
        let cuts = self.cuts.clone()?;
        let buckets = self.buckets.clone()?;
        Ok(HashedMap {
            alloc: self.alloc,
            len: self.len,
            cuts,
            buckets,
        })
    }

    /// Whether both have the same activations under the same keys: one walk over both.
    pub(crate) fn same(&self, other: &HashedMap) -> bool
        ensures { IsTrue result ↔ (self.now ≡ other.now) }
    {
        let mut others = other.iter();
        'entries: for (key, activation) in self.iter() {
            let Some((other_key, other_activation)) = others.next() else {
                return false;
            };
            if !key.same(&other_key) {
                return false;
            }
            if activation != other_activation {
                return false;
            }
        }
        others.next().is_none()
    }
}

// Puts an activation into its bucket, and answers by how many entries there are more. Fails only when memory runs out, and then changes
// nothing.
fn put_in(
    alloc: Global,
    cuts: &[u32],
    buckets: &mut Vec<Bucket>,
    key: &HashedGrain,
    activation: ActivationId,
) -> Result<usize, AllocError>
    requires { AreCut cuts.now buckets.old.items }
    ensures entries { OnOk result (joined buckets.new.items ≡ insert_entry hashed_cmp (joined buckets.old.items) key.now activation) }
    ensures cut { AreCut cuts.now buckets.new.items }
    ensures more { IfOk result (λ more. (length (joined buckets.new.items) ≡ length (joined buckets.old.items) + more) × (more ≤ 1)) }
    ensures unchanged { OnErr result (buckets.new.items ≡ buckets.old.items) }
{
    let index = index_under(cuts, key.hash);
    if index < buckets.len() {
        return buckets[index].insert(alloc, key, activation);
    }
    let mut bucket = Bucket::new(alloc);
    let more = bucket.insert(alloc, key, activation)?;
    buckets.push(bucket)?;
    Ok(more)
}
