ghost use Rattle.std.specs.BTreeMap.{is_at};
ghost use Rattle.std.specs.List.{IsDistinct};
ghost use Rattle.std.specs.Map.{keys_of, lookup, remove_entry, set_value};
ghost use Rattle.std.specs.Option.{option_map};
ghost use Rattle.std.specs.Prelude.{⊤, ◌≡◌, ◌+◌, ◌<◌, ◌≤◌, ◌^◌, ◌++◌, [], ◌∷◌, Bool, if◌then◌else◌, None, Some, IfOk, IsSome, MatchOption, OnOk, OnErr, length, count_by, slice_get};
ghost use Rattle.directory_rules.specs.Host.{is_asking, is_closing};
ghost use Rattle.directory_rules.specs.declared.Phase.{Phase as PhaseSeen};
ghost use Rattle.directory_rules.specs.declared.Phase.TheVariants.{Asking};
ghost use Rattle.silo_address.specs.Grain.{Grain, grain_cmp, grain_eq};
ghost use Rattle.host_activations.specs.Begun.{IsNext};
ghost use Rattle.hash_ring.specs.Hash.{hash_grain};
ghost use Rattle.host_activations.specs.ByHash.{AreByHash, hashed_count_cmp, hashes_of, key_of};
ghost use Rattle.host_activations.specs.UnderWay.{in_phase, one_if_some};

mod any_firm;
mod order;
mod page;
mod same;

use crate::by_hash::{ByHash, HashedCount};
use crate::kept::{Kept, held_at, held_of};
use crate::under_way::UnderWay;
use directory_rules::{Held, Phase, Settings};
use grain_names::GrainMap;
use hash_ring::Hashing;
pub use page::{FirmPage, PageAsked, entry_on};
use silo_address::{ActivationId, GrainId};
use std::alloc::{AllocError, Global};
use std::collections::BTreeMap;
use std::marker::Model;

/// The activations of a host, one a grain, each with its count, which rises from activation to activation. One is found by its
/// grain at once, and one that ends leaves its room to the one that stands last, so that the others stay where they are. Beside
/// them stand their indices in order of hash, so that those of a range are found without a look at the others. Whoever asks for
/// all of them gets them in the order in which they began (`docs/RULES.md#phases`).
#[derive(Drop)]
pub struct Activations {
    next_count: u64,
    map: GrainMap<Kept>,
    under_way: UnderWay,
    hashing: Hashing,
    // The hashes of their grains, by index, so that a grain is hashed once, as its activation begins.
    hashes: Vec<u32>,
    by_hash: ByHash,
}

impl Model for Activations {
    ghost use Rattle.host_activations.specs.Activations.{ActivationsValue};

    ghost Value = { ActivationsValue };

    ghost use Rattle.host_activations.specs.ByHash.{AreKept};
    ghost use Rattle.host_activations.specs.InOrder.{in_order};

    ghost view = { λ a. record { next_count = a.next_count; entries = in_order a.map } };

    ghost invariant = { λ a. AreKept a.hashing a.next_count a.map a.under_way a.hashes.items a.by_hash.entries };
}

impl Activations {
    /// No activations; the first one will have the count 1. Those of a range of hashes are found fast where grains are hashed as the
    /// settings have it; no answer depends on it.
    pub fn new(alloc: Global, settings: &Settings) -> Activations
        ensures { result ≡ record { next_count = 1; entries = [] } }
    {
        Activations {
            next_count: 1,
            map: GrainMap::new(alloc),
            under_way: UnderWay {
                asking: 0,
                closing: 0,
            },
            hashing: settings.hashing(),
            hashes: Vec::new(alloc),
            by_hash: BTreeMap::new(alloc),
        }
    }

    /// The count of the next activation, from 1 to 2^60 + 1; the last one is past all counts.
    pub fn next_count(&self) -> u64
        ensures { result ≡ self.now.next_count }
    {
        self.next_count
    }

    /// How many activations there are.
    pub fn len(&self) -> usize
        ensures { result ≡ length self.now.entries }
    {
        self.map.len()
    }

    /// How many of them ask to be entered.
    pub fn asking_count(&self) -> usize
        ensures { result ≡ count_by (λ e. is_asking e.1.phase) self.now.entries }
    {
        self.under_way.asking
    }

    /// How many of them ask to be taken out.
    pub fn closing_count(&self) -> usize
        ensures { result ≡ count_by (λ e. is_closing e.1.phase) self.now.entries }
    {
        self.under_way.closing
    }

    /// The grain's activation.
    pub fn get(&self, grain: &GrainId) -> Option<Held>
        ensures { result ≡ lookup (is_at (grain_cmp grain.now)) self.now.entries }
    {
        let (_, held) = held_of(&self.map, grain)?;
        Some(held)
    }

    /// An activation begins, with the next count, and asks to be entered under the number, in the place of a previous one if one
    /// is named. Fails only when memory runs out.
    pub fn begin(
        &mut self,
        grain: GrainId,
        number: u64,
        previous: Option<ActivationId>,
    ) -> Result<(), AllocError>
        requires new { lookup (is_at (grain_cmp grain)) self.old.entries ≡ None }
        requires count { self.old.next_count ≤ 2 ^ 60 }
        ensures begun { OnOk result (self.new ≡ record {
          next_count = self.old.next_count + 1;
          entries = self.old.entries ++ (grain, record { count = self.old.next_count; phase = Asking number; previous = previous }) ∷ [];
        }) }
        ensures unchanged { OnErr result (self.new ≡ self.old) }
    {
        let key = HashedCount {
            hash: self.hashing.hash_grain(&grain),
            count: self.next_count,
        };
        let asking = Phase::Asking(number);
        self.hashes.reserve(1)?;
        put_in(
            &mut self.map,
            &mut self.by_hash,
            key,
            &grain,
            asking,
            previous,
        )?;
        self.hashes.push_reserved(key.hash);
        self.map.apart();
        let _len = self.map.len();
        self.under_way = self.under_way.with(&asking);
        self.next_count += 1;
        Ok(())
    }

    /// The grain's activation is in this phase, and in the place of this previous one, from now on. Where there is none, nothing
    /// changes.
    pub fn set(&mut self, grain: &GrainId, phase: Phase, previous: Option<ActivationId>)
        ensures { MatchOption (lookup (is_at (grain_cmp grain.now)) self.old.entries) (self.new ≡ self.old)
            (λ held. self.new ≡ record self.old { entries = set_value (is_at (grain_cmp grain.now)) self.old.entries (record held { phase = phase; previous = previous }) }) }
    {
        if let Some(was) = write(&mut self.map, grain, phase, previous) {
            let _len = self.map.len();
            self.under_way = self.under_way.without(&was).with(&phase);
        }
    }

    /// The grain's activation goes. Where there is none, nothing changes.
    pub fn end(&mut self, grain: &GrainId)
        ensures { self.new ≡ record self.old { entries = remove_entry (is_at (grain_cmp grain.now)) self.old.entries } }
    {
        let (hashing, map) = (self.hashing, &mut self.map);
        if let Some(was) = take_out(hashing, map, &mut self.hashes, &mut self.by_hash, grain) {
            self.under_way = self.under_way.without(&was);
        }
    }

    /// The hash of a grain. Takes it as it is known where the grain has an activation, and where the hashing is the one by which
    /// the activations are in order; otherwise hashes the grain.
    pub fn hash_of(&self, hashing: Hashing, grain: &GrainId) -> u32
        ensures { result ≡ hash_grain hashing grain.now }
    {
        if self.hashing.same(&hashing) {
            if let Some((index, _)) = held_of(&self.map, grain) {
                return hash_at(&self.hashes, index);
            }
        }
        hashing.hash_grain(grain)
    }

    /// A law: each grain has one activation, and the next count is one that may be the next.
    pub fn whole(&self)
        ensures grains { IsDistinct grain_eq (keys_of self.now.entries) }
        ensures count { IsNext self.now.next_count }
    {
        let _next_count = self.next_count;
    }

    /// Equal activations. Fails only when memory runs out.
    pub fn copy(&self) -> Result<Activations, AllocError>
        ensures { IfOk result (λ activations. activations ≡ self.now) }
    {
        let map = self.map.copy()?;
        let hashes = self.hashes.clone()?;
        let by_hash = self.by_hash.clone()?;
        Ok(Activations {
            next_count: self.next_count,
            map,
            under_way: self.under_way,
            hashing: self.hashing,
            hashes,
            by_hash,
        })
    }
}

// What is held of the grain, if anything, is in this phase, and in the place of this previous one; its phase before is told.
fn write(
    map: &mut GrainMap<Kept>,
    grain: &GrainId,
    phase: Phase,
    previous: Option<ActivationId>,
) -> Option<Phase>
    ensures was { result ≡ option_map (λ held. held.phase) (lookup (is_at (grain_cmp grain.now)) map.old) }
    ensures written { MatchOption (lookup (is_at (grain_cmp grain.now)) map.old) (map.new ≡ map.old)
        (λ held. map.new ≡ set_value (is_at (grain_cmp grain.now)) map.old (record held { phase = phase; previous = previous })) }
{
    map.apart();
    let Some((index, held)) = held_of(map, grain) else {
        return None;
    };
    map.set_at(
        index,
        Kept::of(&Held {
            count: held.count,
            phase,
            previous,
        }),
    );
    Some(held.phase)
}

// An activation of a grain without one is put in, with the count in its key, as the last one, and its index under the key. Fails
// only when memory runs out, and then changes nothing.
fn put_in(
    map: &mut GrainMap<Kept>,
    by_hash: &mut ByHash,
    key: HashedCount,
    grain: &GrainId,
    phase: Phase,
    previous: Option<ActivationId>,
) -> Result<(), AllocError>
    requires { lookup (is_at (grain_cmp grain.now)) map.old ≡ None }
    ensures map { OnOk result (map.new ≡ map.old ++ (grain.now, record { count = key.count; phase = phase; previous = previous }) ∷ []) }
    ensures by_hash { OnOk result ((q : HashedCount) → lookup (is_at (hashed_count_cmp q)) by_hash.new.entries
        ≡ (if is_at (hashed_count_cmp key) q then Some (length map.old) else lookup (is_at (hashed_count_cmp q)) by_hash.old.entries)) }
    ensures same_map { OnErr result (map.new ≡ map.old) }
    ensures same_by_hash { OnErr result (by_hash.new.entries ≡ by_hash.old.entries) }
{
    let last = map.len();
    let held = Held {
        count: key.count,
        phase,
        previous,
    };
    map.put(grain, Kept::of(&held))?;
    match by_hash.insert(key, last) {
        Ok(_) => Ok(()),
        Err(_) => {
            map.swap_remove(last);
            Err(AllocError)
        }
    }
}

// What is held of the grain, if anything, goes, and so does its hash; the last one takes its room. Its phase is told.
fn take_out(
    hashing: Hashing,
    map: &mut GrainMap<Kept>,
    hashes: &mut Vec<u32>,
    by_hash: &mut ByHash,
    grain: &GrainId,
) -> Option<Phase>
    requires hashes { hashes.old.items ≡ hashes_of hashing map.old }
    requires by_hash { AreByHash hashing map.old by_hash.old.entries }
    ensures gone { (q : Grain) → lookup (is_at (grain_cmp q)) map.new ≡ (if is_at (grain_cmp grain.now) q then None else lookup (is_at (grain_cmp q)) map.old) }
    ensures hashes { hashes.new.items ≡ hashes_of hashing map.new }
    ensures by_hash { AreByHash hashing map.new by_hash.new.entries }
    ensures one { (test : PhaseSeen → Bool) → in_phase test map.new + one_if_some test result ≡ in_phase test map.old }
    ensures apart { IsDistinct grain_eq (keys_of map.new) }
{
    map.apart();
    let Some((index, held)) = held_of(map, grain) else {
        return None;
    };
    let key = HashedCount {
        hash: hash_at(hashes, index),
        count: held.count,
    };
    map.swap_remove(index);
    hashes.swap_remove(index);
    by_hash.remove(&key);
    note_index(hashing, map, hashes, by_hash, index);
    map.apart();
    Some(held.phase)
}

// The activation that stands at the index now, if there is one, is found there by its hash.
fn note_index(
    hashing: Hashing,
    map: &GrainMap<Kept>,
    hashes: &Vec<u32>,
    by_hash: &mut ByHash,
    index: usize,
)
    requires hashes { hashes.now.items ≡ hashes_of hashing map.now }
    requires there { MatchOption (slice_get map.now index) ⊤ (λ e. IsSome (lookup (is_at (hashed_count_cmp (key_of hashing e))) by_hash.old.entries)) }
    ensures { MatchOption (slice_get map.now index) (by_hash.new.entries ≡ by_hash.old.entries) (λ e. (q : HashedCount) → lookup (is_at (hashed_count_cmp q)) by_hash.new.entries
        ≡ (if is_at (hashed_count_cmp (key_of hashing e)) q then Some index else lookup (is_at (hashed_count_cmp q)) by_hash.old.entries)) }
{
    if let Some((_, held)) = held_at(map, index) {
        let key = HashedCount {
            hash: hash_at(hashes, index),
            count: held.count,
        };
        move_to(by_hash, key, index);
    }
}

// What stands under the key, where something does, is this index from now on.
fn move_to(by_hash: &mut ByHash, key: HashedCount, index: usize)
    requires { IsSome (lookup (is_at (hashed_count_cmp key)) by_hash.old.entries) }
    ensures { (q : HashedCount) → lookup (is_at (hashed_count_cmp q)) by_hash.new.entries
        ≡ (if is_at (hashed_count_cmp key) q then Some index else lookup (is_at (hashed_count_cmp q)) by_hash.old.entries) }
{
    let put: Result<_, _> = by_hash.insert(key, index);
    put.unwrap();
}

// The hash at the index.
fn hash_at(hashes: &Vec<u32>, index: usize) -> u32
    requires { index < length hashes.now.items }
    ensures { slice_get hashes.now.items index ≡ Some result }
{
    hashes[index]
}
