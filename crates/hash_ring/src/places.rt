ghost use Rattle.std.specs.List.{list_all};
ghost use Rattle.membership_view.specs.Row.{is_active};
ghost use Rattle.std.specs.Prelude.{◌≡◌, ◌||◌, not, ◌↔◌, ◌<◌, ◌≤◌, [], length, All, IsTrue, IfOk, IfErr, IfSome, OnOk, OnErr, IsErrOf, IsOk, true, false};
ghost use Rattle.std.specs.BTreeMap.{is_at};
ghost use Rattle.std.specs.Map.{remove_entry};
ghost use Rattle.silo_address.specs.Silo.{silo_cmp};
ghost use Rattle.ring_range.specs.Range.{circle};
ghost use Rattle.hash_ring.specs.Numbers.{ring_error_number};
ghost use Rattle.hash_ring.specs.Places.{IsPlaces, after_add, is_added, is_point_count, has_points, most_points, places_for, places_of, with_silo};
ghost use Rattle.hash_ring.specs.PlacesModel.{lent};
ghost use Rattle.hash_ring.specs.Ring.{are_added};

use crate::silo_places::SiloPlaces;
use crate::{Hashing, RingError};
use membership_view::{Status, View};
use silo_address::SiloAddress;
use std::alloc::{AllocError, Global};
use std::collections::BTreeMap;
use std::marker::Model;

/// The most points that a silo may have.
pub const MOST_POINTS: usize = 128;

/// Where every silo's points stand. A silo's places are set when it is added, and stay (`docs/RULES.md#points`).
#[derive(Drop)]
pub struct Places {
    alloc: Global,
    hashing: Hashing,
    points: usize,
    silos: BTreeMap<SiloAddress, SiloPlaces>,
}

impl Model for Places {
    ghost use Rattle.hash_ring.specs.Places.{PlacesValue};

    ghost Value = { PlacesValue };

    ghost use Rattle.hash_ring.specs.Places.{IsPlaces};

    ghost view = { λ p. record { hashing = p.hashing; points = p.points; entries = p.silos.entries } };

    ghost invariant = { λ p. IsPlaces (record { hashing = p.hashing; points = p.points; entries = p.silos.entries }) };
}

impl Places {
    /// No silos yet, for a cluster that hashes this way; under `Sha256` each silo has `points` points. Refused by 402 where `points`
    /// is not from 1 to 128.
    pub fn new(alloc: Global, hashing: Hashing, points: usize) -> Result<Places, RingError>
        ensures made { IfOk result (λ places. places ≡ record { hashing = hashing; points = points; entries = [] }) }
        ensures point_count { IsErrOf result RingError.PointCount ↔ ¬ ((0 < points) × (points ≤ most_points)) }
        ensures only { IfErr result (λ refusal. refusal ≡ RingError.PointCount) }
    {
        if points == 0 || points > MOST_POINTS {
            return Err(RingError::PointCount);
        }
        Ok(Places {
            alloc,
            hashing,
            points,
            silos: BTreeMap::new(alloc),
        })
    }

    /// Adds a silo, under `Stated` with these places; under `Sha256` none are given, and the places are hashed here, once.
    /// Refused by 402 where more than 128 places are given, or any under `Sha256`, then by 403 where none is given under
    /// `Stated`, then by 404 where the silo was added before.
    pub fn add(&mut self, silo: SiloAddress, given: &[u32]) -> Result<(), RingError>
        ensures added { OnOk result (after_add self.old silo given.now ≡ Ok self.new) }

        // Memory runs out only for a silo that nothing else refuses.
        ensures refused { IfErr result (λ refusal. IfSome (ring_error_number refusal) (λ number. after_add self.old silo given.now ≡ Err number)) }
        ensures memory { IsErrOf result RingError.OutOfMemory → IsOk (after_add self.old silo given.now) }
        ensures unchanged { OnErr result (self.new ≡ self.old) }
    {
        if !may_be_given(self.hashing, given.len()) {
            return Err(RingError::PointCount);
        }
        if !has_points(self.hashing, given.len()) {
            return Err(RingError::PointsMissing);
        }
        if self.is_added(&silo) {
            return Err(RingError::AlreadyAdded);
        }
        match self.admit(silo, given) {
            Ok(()) => Ok(()),
            Err(_) => Err(RingError::OutOfMemory),
        }
    }

    // Adds a silo that may be added.
    fn admit(&mut self, silo: SiloAddress, given: &[u32]) -> Result<(), AllocError>
        requires count { IsTrue (is_point_count self.old.hashing (length given.now)) }
        requires some { IsTrue (has_points self.old.hashing (length given.now)) }
        requires absent { is_added self.old silo ≡ false }
        ensures added { OnOk result (self.new ≡ with_silo self.old silo given.now) }
        ensures unchanged { OnErr result (self.new ≡ self.old) }
    {
        let list = places_for(self.alloc, self.hashing, self.points, &silo, given)?;
        self.silos.insert(silo, list)?;
        Ok(())
    }

    /// Removes a silo and its places; nothing changes if it was not added. A join that fails later undoes by it what it added.
    pub fn remove(&mut self, silo: &SiloAddress)
        ensures { self.new ≡ record self.old { entries = remove_entry (is_at (silo_cmp silo.now)) self.old.entries } }
    {
        let _places = self.silos.remove(silo);
    }

    /// How the cluster hashes.
    pub fn hashing(&self) -> Hashing
        ensures { result ≡ self.now.hashing }
    {
        self.hashing
    }

    /// How many points a silo has under `Sha256`, 1 to 128.
    pub fn points(&self) -> usize
        ensures { result ≡ self.now.points }
    {
        self.points
    }

    /// The places of a silo's points, by their index; `None` where it was not added.
    pub fn of(&self, silo: &SiloAddress) -> Option<&[u32]>
        ensures { lent result ≡ places_of self.now silo.now }
    {
        Some(self.silos.get(silo)?.list())
    }

    // The places of each silo, by address.
    pub(crate) fn silos(&self) -> &BTreeMap<SiloAddress, SiloPlaces>
        ensures { result.now.entries ≡ self.now.entries }
    {
        &self.silos
    }

    /// Whether the silo was added.
    pub fn is_added(&self, silo: &SiloAddress) -> bool
        ensures { result ≡ is_added self.now silo.now }
    {
        self.silos.contains_key(silo)
    }

    /// Whether every silo that is Active in the view was added.
    pub fn has_active_of(&self, view: &View) -> bool
        ensures { result ≡ are_added view.now self.now }
    {
        self.are_ready_for(view.rows())
    }

    // Whether every silo of these rows that has to be added was added.
    fn are_ready_for(&self, rows: &[(SiloAddress, Status)]) -> bool
        ensures { result ≡ list_all (λ row. not (is_active row.1) || is_added self.now row.0) rows.now }
    {
        rows.iter().all(|row| self.is_ready_for(row))
    }

    // Whether the silo of a view's row was added, if it has to be.
    fn is_ready_for(&self, row: &(SiloAddress, Status)) -> bool
        ensures { result ≡ (not (is_active row.now.1) || is_added self.now row.now.0) }
    {
        !row.1.is_active() || self.is_added(&row.0)
    }

    /// A law: the invariant of all places.
    pub fn whole(&self)
        ensures { IsPlaces self.now }
    {
        let _points = self.points;
    }

    /// An equal copy.
    pub fn copy(&self) -> Result<Places, AllocError>
        ensures { IfOk result (λ places. places ≡ self.now) }
    {
        let silos = self.silos.clone()?;
        Ok(Places {
            alloc: self.alloc,
            hashing: self.hashing,
            points: self.points,
            silos,
        })
    }

    /// Whether both hash the same way and have the same places.
    pub fn same(&self, other: &Places) -> bool
        ensures { IsTrue result ↔ (self.now ≡ other.now) }
    {
        other.hashing.same(&self.hashing)
            && self.points == other.points
            && same_silos(&self.silos, &other.silos)
    }
}

// Whether a silo may be given that many places.
fn may_be_given(hashing: Hashing, given: usize) -> bool
    ensures { result ≡ is_point_count hashing given }
{
    match hashing {
        Hashing::Sha256 => given == 0,
        Hashing::Stated => given <= MOST_POINTS,
    }
}

// Whether places are given, if they have to be.
fn has_points(hashing: Hashing, given: usize) -> bool
    ensures { result ≡ has_points hashing given }
{
    match hashing {
        Hashing::Sha256 => true,
        Hashing::Stated => given > 0,
    }
}

// The places that a silo gets.
fn places_for(
    alloc: Global,
    hashing: Hashing,
    points: usize,
    silo: &SiloAddress,
    given: &[u32],
) -> Result<SiloPlaces, AllocError>
    ensures exact { IfOk result (λ list. list ≡ places_for hashing points silo.now given.now) }
    ensures hashes { IfOk result (λ list. All (λ place. place < circle) list) }
{
    match hashing {
        Hashing::Sha256 => SiloPlaces::hashed(alloc, points, silo),
        Hashing::Stated => SiloPlaces::given(alloc, given),
    }
}

fn same_silos(
    one: &BTreeMap<SiloAddress, SiloPlaces>,
    other: &BTreeMap<SiloAddress, SiloPlaces>,
) -> bool
    ensures { IsTrue result ↔ (one.now.entries ≡ other.now.entries) }
{
    *one == *other
}
