ghost use Rattle.std.specs.List.Sorted.{IsStrictlySortedBy};
ghost use Rattle.std.specs.Map.{keys_of};
ghost use Rattle.std.specs.Prelude.{◌≡◌, [], IfOk, OnOk, OnErr, fold, length, is_none};
ghost use Rattle.silo_address.specs.Grain.{grain_cmp};
ghost use Rattle.directory_rules.specs.Recovery.{with_reported};
ghost use Rattle.directory_rules.specs.Table.{entries_of, entry_at, with_entry, without_grain};
ghost use Rattle.grain_table.specs.Hashed.{IsKeyOf};

mod count;
mod keep;
mod list;
mod lying;
mod order;
mod put;
mod same;
mod turn;

use crate::hashed_grain::{HashedGrain, key_of};
use crate::hashed_map::HashedMap;
use hash_ring::Hashing;
use silo_address::{ActivationId, Entry, GrainId, SiloAddress};
use std::alloc::{AllocError, Global};
use std::collections::BTreeSet;
use std::marker::Model;

/// Entries, one a grain. They are kept in buckets by their grains' hashes, so that a search mostly compares these and a range of
/// hashes stands together, and each grain is there once, as short as its name is: an `Entry` is put together where it is handed
/// out. Beside them stand the silos that they may be on, few of them, so that who asks for the entries of a dead silo mostly
/// looks at no entry (`docs/RULES.md#pieces`).
#[derive(Drop)]
pub struct Table {
    hashing: Hashing,
    map: HashedMap,
    silos: BTreeSet<SiloAddress>,
}

impl Model for Table {
    ghost use Rattle.grain_table.specs.Table.{TableValue};

    ghost Value = { TableValue };

    ghost use Rattle.grain_table.specs.Hashed.{AreKept, by_grain};

    ghost view = { λ t. record { hashing = t.hashing; entries = by_grain t.map } };

    ghost invariant = { λ t. AreKept t.hashing t.silos.keys t.map };
}

impl Table {
    /// No entries, whose grains are to be hashed in this way.
    pub fn new(alloc: Global, hashing: Hashing) -> Table
        ensures { result ≡ record { hashing = hashing; entries = [] } }
    {
        Table {
            hashing,
            map: HashedMap::new(alloc),
            silos: BTreeSet::new(alloc),
        }
    }

    /// How many entries there are.
    pub fn len(&self) -> usize
        ensures { result ≡ length self.now.entries }
    {
        self.map.len()
    }

    /// The grain's entry; `None` where it has none here.
    pub fn get(&self, grain: &GrainId) -> Option<Entry>
        ensures { result ≡ entry_at grain.now self.now.entries }
    {
        self.at(&key_of(self.hashing, grain))
    }

    /// Puts the entry in, in place of one of its grain. Fails only when memory runs out, and then changes nothing.
    pub fn insert(&mut self, entry: &Entry) -> Result<(), AllocError>
        ensures put { OnOk result (self.new ≡ record self.old { entries = with_entry self.old.entries entry.now }) }
        ensures unchanged { OnErr result (self.new ≡ self.old) }
    {
        let key = key_of(self.hashing, &entry.grain);
        self.put(key, entry.activation)
    }

    /// Puts the entry in where its grain has none, and answers whether it did. Fails only when memory runs out, and then changes
    /// nothing.
    pub fn insert_new(&mut self, entry: &Entry) -> Result<bool, AllocError>
        ensures put { OnOk result (self.new ≡ record self.old { entries = with_reported self.old.entries entry.now }) }
        ensures is_new { IfOk result (λ is_new. is_new ≡ is_none (entry_at entry.now.grain self.old.entries)) }
        ensures unchanged { OnErr result (self.new ≡ self.old) }
    {
        let key = key_of(self.hashing, &entry.grain);
        if self.at(&key).is_some() {
            return Ok(false);
        }
        self.put(key, entry.activation)?;
        Ok(true)
    }

    /// Takes the grain's entry out, if it has one.
    pub fn remove(&mut self, grain: &GrainId)
        ensures { self.new ≡ record self.old { entries = without_grain grain.now self.old.entries } }
    {
        let key = key_of(self.hashing, grain);
        self.take_out(&key);
    }

    /// Takes every entry out.
    pub fn clear(&mut self)
        ensures { self.new ≡ record self.old { entries = [] } }
    {
        self.map.clear();
        self.silos.clear();
    }

    /// A law: the entries stand in the order of their grains, each grain once.
    pub fn whole(&self)
        ensures { IsStrictlySortedBy grain_cmp (keys_of self.now.entries) }
    {
        let _hashing = self.hashing;
    }

    /// A law: the entries, put into a table without any, make this one again.
    pub fn made_again(&self)
        ensures { fold with_entry [] (entries_of self.now.entries) ≡ self.now.entries }
    {
        let _hashing = self.hashing;
    }

    // The entry under a hashed grain.
    fn at(&self, key: &HashedGrain) -> Option<Entry>
        requires { IsKeyOf self.now.hashing key.now }
        ensures { result ≡ entry_at key.now.grain self.now.entries }
    {
        let activation = self.map.get(key)?;
        Some(Entry {
            grain: key.grain,
            activation,
        })
    }

    // Puts an activation in under its hashed grain.
    fn put(&mut self, key: HashedGrain, activation: ActivationId) -> Result<(), AllocError>
        requires { IsKeyOf self.old.hashing key }
        ensures put { OnOk result (self.new ≡ record self.old { entries = with_entry self.old.entries (record { grain = key.grain; activation = activation }) }) }
        ensures unchanged { OnErr result (self.new ≡ self.old) }
    {
        self.silos.insert(activation.silo)?;
        self.map.insert(&key, activation)?;
        Ok(())
    }

    // Takes out what stands under a hashed grain.
    fn take_out(&mut self, key: &HashedGrain)
        requires { IsKeyOf self.old.hashing key.now }
        ensures { self.new ≡ record self.old { entries = without_grain key.now.grain self.old.entries } }
    {
        self.map.remove(key);
    }

    /// An equal table. Fails only when memory runs out.
    pub fn copy(&self) -> Result<Table, AllocError>
        ensures { IfOk result (λ table. table ≡ self.now) }
    {
        let map = self.map.copy()?;
        let silos = self.silos.clone()?;
        Ok(Table {
            hashing: self.hashing,
            map,
            silos,
        })
    }
}

impl Clone for Table {
    ghost is_clone = { λ one other. other ≡ one };

    fn clone(&self) -> Result<Table, AllocError> {
        self.copy()
    }
}
