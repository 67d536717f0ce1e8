ghost use Rattle.std.specs.List.{AllZip, IsDistinct, swap_remove};
ghost use Rattle.std.specs.Map.{keys_of, lookup};
ghost use Rattle.std.specs.Option.{option_eq, option_map};
ghost use Rattle.std.specs.Prelude.{◌≡◌, ◌↔◌, ◌++◌, [], ◌∷◌, None, Some, IfOk, IfSome, IsTrue, MatchOption, OnErr, OnOk, length, set, slice_get};
ghost use Rattle.std.specs.Box.{boxed_str_bytes};
ghost use Rattle.silo_address.specs.Grain.{Grain, grain_eq};
ghost use Rattle.silo_address.specs.ReadGrain.{grain_at_slash};
ghost use Rattle.grain_names.specs.Names.{IsName};

use indexmap::IndexMap;
use silo_address::GrainId;
use std::alloc::{AllocError, Global};
use std::boxed::BoxedStr;
use std::marker::Model;

/// Grains, each once and with a value, in the order in which they were put in; the last one takes the room of one that goes.
/// A grain takes as much memory as its name is long, and not as much as the longest could be; it is read from its name whenever
/// it is asked for.
#[derive(Drop)]
pub struct GrainMap<V> {
    alloc: Global,
    map: IndexMap<BoxedStr, V>,
}

impl<V> Model for GrainMap<V> {
    ghost use Rattle.std.specs.Box.{boxed_str_bytes};
    ghost use Rattle.std.specs.Prelude.{List};
    ghost use Rattle.silo_address.specs.Grain.{Grain};
    ghost use Rattle.grain_names.specs.Names.{AreNamed, named};

    ghost Value = { List (Grain × V) };

    ghost view = { λ m. named boxed_str_bytes m.map.entries };

    ghost invariant = { λ m. AreNamed boxed_str_bytes m.map.entries };
}

impl<V: Copy> GrainMap<V> {
    /// No grain yet.
    pub fn new(alloc: Global) -> GrainMap<V>
        ensures { result ≡ [] }
    {
        GrainMap {
            alloc,
            map: IndexMap::new(alloc),
        }
    }

    /// How many grains there are.
    pub fn len(&self) -> usize
        ensures { result ≡ length self.now }
    {
        self.map.len()
    }

    /// The grain's index and value, if it is there.
    pub fn find(&self, grain: &GrainId) -> Option<(usize, V)>
        ensures value { option_map (λ p. p.1) result ≡ lookup (grain_eq grain.now) self.now }
        ensures entry { IfSome result (λ p. slice_get self.now p.0 ≡ Some (grain.now, p.1)) }
    {
        grain.in_range();
        match self.map.get_full(grain.as_str()) {
            Some((index, _, value)) => Some((index, *value)),
            None => None,
        }
    }

    /// The grain at the index and its value, if the index is below the number of grains.
    pub fn at(&self, index: usize) -> Option<(GrainId, V)>
        ensures { result ≡ slice_get self.now index }
    {
        match self.map.get_index(index) {
            Some((name, value)) => Some((grain_of(name), *value)),
            None => None,
        }
    }

    /// A grain that isn't there is put in, as the last one. Fails only when memory runs out.
    pub fn put(&mut self, grain: &GrainId, value: V) -> Result<(), AllocError>
        requires new { lookup (grain_eq grain.now) self.old ≡ None }
        ensures put { OnOk result (self.new ≡ self.old ++ (grain.now, value) ∷ []) }
        ensures unchanged { OnErr result (self.new ≡ self.old) }
    {
        grain.in_range();
        let name = BoxedStr::from_str(self.alloc, grain.as_str())?;
        self.map.insert(name, value)?;
        Ok(())
    }

    /// The value at the index is this one from now on, if the index is below the number of grains; otherwise nothing changes.
    pub fn set_at(&mut self, index: usize, value: V)
        ensures { MatchOption (slice_get self.old index) (self.new ≡ self.old) (λ e. self.new ≡ set self.old index (e.0, value)) }
    {
        let Some(there) = self.map.get_index_mut(index) else {
            return;
        };
        *there = value;
    }

    /// The grain at the index goes, and the last one takes its room, if the index is below the number of grains; otherwise nothing
    /// changes.
    pub fn swap_remove(&mut self, index: usize)
        ensures { MatchOption (slice_get self.old index) (self.new ≡ self.old) (λ e. self.new ≡ swap_remove self.old index e) }
    {
        self.map.swap_remove_index(index);
    }

    /// The same grains in the same order, with copies of their values. Fails only when memory runs out.
    pub fn copy(&self) -> Result<GrainMap<V>, AllocError>
        ensures { IfOk result (λ map. AllZip (λ e f. (f.0 ≡ e.0) × V.is_clone e.1 f.1) self.now map) }
    {
        let map = self.map.clone()?;
        Ok(GrainMap {
            alloc: self.alloc,
            map,
        })
    }

    /// A law: each grain is there once.
    pub fn apart(&self)
        ensures { IsDistinct grain_eq (keys_of self.now) }
    {
        let _len = self.map.len();
    }
}

impl<V: Copy + PartialEq> GrainMap<V> {
    /// Whether both have the same grains, with equal values, in whatever order.
    pub fn same(&self, other: &GrainMap<V>) -> bool
        ensures { IsTrue result ↔ ((grain : Grain) → IsTrue (option_eq V.eq (lookup (grain_eq grain) self.now) (lookup (grain_eq grain) other.now))) }
    {
        self.map == other.map
    }
}

// The grain of that name.
fn grain_of(name: &BoxedStr) -> GrainId
    requires { IsName (boxed_str_bytes name.now) }
    ensures { result ≡ grain_at_slash (boxed_str_bytes name.now) }
{
    match GrainId::parse(name.as_str().as_bytes()) {
        Ok(grain) => grain,
        Err(_) => unreachable!(),
    }
}
