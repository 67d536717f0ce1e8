//! Entries of one table put into another.
ghost use Rattle.std.specs.Prelude.{◌≡◌, filter, fold, map, not, IfOk};
ghost use Rattle.std.specs.List.{list_any};
ghost use Rattle.directory_rules.specs.Members.{is_dead_in};
ghost use Rattle.directory_rules.specs.Sight.{is_kept};
ghost use Rattle.directory_rules.specs.Table.{entries_of, with_entry};
ghost use Rattle.hash_ring.specs.Hash.{hash_grain};
ghost use Rattle.ring_range.specs.Range.{holds};
ghost use Rattle.grain_table.specs.Hashed.{AreHashed, IsKeyOf, entry_under};
ghost use Rattle.grain_table.specs.Stretch.{is_between};

use super::Table;
use crate::alive::is_dead_in;
use crate::hashed_grain::{HashedGrain, key_of};
use crate::hashed_map::HashedMap;
use hash_ring::Hashing;
use membership_view::View;
use ring_range::{CIRCLE, RingRange};
use silo_address::SiloAddress;
use std::alloc::{AllocError, Global};
use std::collections::BTreeSet;

impl Table {
    /// This table with all entries of another, each in place of one of its grain. What the other has hashed in the same way is
    /// not hashed again. Fails only when memory runs out.
    pub fn with_all(self, other: &Table) -> Result<Table, AllocError>
        ensures { IfOk result (λ table. table ≡ record self { entries = fold with_entry self.entries (entries_of other.now.entries) }) }
    {
        let _hashing = self.hashing;
        put_all(self, other.hashing, &other.map)
    }

    /// This table with those entries of another whose grains are hashed into the range, each in place of one of its grain.
    /// Looks at no others where both hash in the same way. Fails only when memory runs out.
    pub fn with_all_within(
        self,
        alloc: Global,
        other: &Table,
        range: &RingRange,
    ) -> Result<Table, AllocError>
        ensures { IfOk result (λ table. table ≡ record self { entries = fold with_entry self.entries (filter (λ e. holds range.now (hash_grain self.hashing e.grain)) (entries_of other.now.entries)) }) }
    {
        if self.hashing.same(&other.hashing) {
            return self.with_own_within(other, range);
        }
        let hashed = Table::new(alloc, self.hashing).with_all(other)?;
        self.with_own_within(&hashed, range)
    }

    // The same, of another that hashes in the same way.
    fn with_own_within(self, other: &Table, range: &RingRange) -> Result<Table, AllocError>
        requires { other.now.hashing ≡ self.hashing }
        ensures { IfOk result (λ table. table ≡ record self { entries = fold with_entry self.entries (filter (λ e. holds range.now (hash_grain self.hashing e.grain)) (entries_of other.now.entries)) }) }
    {
        let _hashing = self.hashing;
        put_range(self, &other.map, range)
    }

    /// The entries whose grains are hashed into the range, without those on silos that are Dead in the view. Looks at no others.
    /// Fails only when memory runs out.
    pub fn kept(&self, alloc: Global, view: &View, range: &RingRange) -> Result<Table, AllocError>
        ensures { IfOk result (λ table. table ≡ record self.now { entries = filter (λ e. is_kept self.now.hashing view.now range.now e.1) self.now.entries }) }
    {
        let mut table = Table::new(alloc, self.hashing).with_own_within(self, range)?;
        table.remove_dead(view);
        Ok(table)
    }

    /// Takes out the entries on silos that are Dead in the view. Looks at the entries only where there may be some: a silo that
    /// had an entry here counts until it is Dead.
    pub fn remove_dead(&mut self, view: &View)
        ensures { self.new ≡ record self.old { entries = filter (λ e. not (is_dead_in view.now e.1.activation.silo)) self.old.entries } }
    {
        if !is_any_dead(view, &self.silos) {
            return;
        }
        self.map.remove_dead(view);
        self.silos.retain(|silo| !is_dead_in(view, silo));
    }
}

// Whether one of the silos is Dead in the view.
fn is_any_dead(view: &View, silos: &BTreeSet<SiloAddress>) -> bool
    ensures { result ≡ list_any (is_dead_in view.now) silos.now.keys }
{
    'silos: for silo in silos {
        if is_dead_in(view, silo) {
            return true;
        }
    }
    false
}

// The table with what stands in a map.
fn put_all(mut table: Table, from_hashing: Hashing, from: &HashedMap) -> Result<Table, AllocError>
    requires { AreHashed from_hashing from.now }
    ensures { IfOk result (λ new. new ≡ record table { entries = fold with_entry table.entries (map entry_under from.now) }) }
{
    'entries: for (key, activation) in from.iter() {
        let key = key_under(table.hashing, from_hashing, &key);
        table.put(key, activation)?;
    }
    Ok(table)
}

// The key of the grain under one hashing, which has one under another.
fn key_under(hashing: Hashing, from_hashing: Hashing, key: &HashedGrain) -> HashedGrain
    requires { IsKeyOf from_hashing key.now }
    ensures same_grain { result.grain ≡ key.now.grain }
    ensures is_key { IsKeyOf hashing result }
{
    if hashing.same(&from_hashing) {
        return *key;
    }
    key_of(hashing, &key.grain)
}

// The table with what stands in a map under hashes of the range: at most two stretches of it.
fn put_range(table: Table, from: &HashedMap, range: &RingRange) -> Result<Table, AllocError>
    requires { AreHashed table.hashing from.now }
    ensures { IfOk result (λ new. new ≡ record table { entries = fold with_entry table.entries (map entry_under (filter (λ e. holds range.now e.0.hash) from.now)) }) }
{
    range.in_range();
    let start = range.start();
    let end = u64::from(start) + range.size();
    if end <= CIRCLE {
        return put_stretch(table, from, start, end);
    }
    let table = put_stretch(table, from, 0, end - CIRCLE)?;
    put_stretch(table, from, start, CIRCLE)
}

// The table with what stands in a map under hashes from the first one on and before the end.
fn put_stretch(
    mut table: Table,
    from: &HashedMap,
    first: u32,
    end: u64,
) -> Result<Table, AllocError>
    requires { AreHashed table.hashing from.now }
    ensures { IfOk result (λ new. new ≡ record table { entries = fold with_entry table.entries (map entry_under (filter (λ e. is_between first end e.0.hash) from.now)) }) }
{
    'entries: for (key, activation) in from.between(first, end) {
        table.put(key, activation)?;
    }
    Ok(table)
}
