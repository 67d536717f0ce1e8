ghost use Rattle.std.specs.Prelude.{◌≡◌, ◌↔◌, ◌<◌, [], map, filter, not, length, Contains, IsTrue, IfOk, IfNone, IfSome, Some, false};
ghost use Rattle.directory_rules.specs.Members.{is_dead_status, members_of};
ghost use Rattle.range_recovery.specs.Silos.{AreAwaited, IsByAddress, IsSiloAt, awaiting_of, has_reported, marked, silos_of};

use crate::awaited::Awaited;
use membership_view::{Status, View};
use silo_address::SiloAddress;
use std::alloc::{AllocError, Global};
use std::marker::Model;

/// The silos that are asked for their reports, by address, each once.
#[derive(Clone, Drop)]
pub(crate) struct AwaitedSilos {
    silos: Vec<Awaited>,
    // How many of them haven't reported.
    missing: usize,
}

impl Model for AwaitedSilos {
    ghost use Rattle.range_recovery.specs.Silos.{AwaitedValue, IsCounted, awaiting_of, reported_of};

    ghost Value = { AwaitedValue };

    ghost view = { λ s. record { awaiting = awaiting_of s.silos.items; reported = reported_of s.silos.items } };

    ghost invariant = { λ s. IsCounted s.silos.items s.missing };
}

impl AwaitedSilos {
    /// Each silo of the view that isn't Dead there; none has reported.
    pub(crate) fn of(alloc: Global, view: &View) -> Result<AwaitedSilos, AllocError>
        ensures { IfOk result (λ silos. silos ≡ record { awaiting = members_of view.now; reported = [] }) }
    {
        view.in_order();
        let silos = awaited_of(alloc, view.rows())?;
        let missing = silos.as_slice().len();
        Ok(AwaitedSilos { silos, missing })
    }

    /// Whether the silo has reported; `None` where it was never awaited.
    pub(crate) fn has_reported(&self, silo: &SiloAddress) -> Option<bool>
        ensures { result ≡ has_reported self.now silo.now }
    {
        match index_of(&self.silos, silo) {
            Some(index) => Some(self.silos[index].has_reported),
            None => None,
        }
    }

    /// How many silos are awaited still.
    pub(crate) fn missing(&self) -> usize
        ensures { result ≡ length self.now.awaiting }
    {
        self.missing
    }

    /// The silos that are awaited still, by address.
    pub(crate) fn awaiting(&self, alloc: Global) -> Result<Vec<SiloAddress>, AllocError>
        ensures { IfOk result (λ silos. silos.items ≡ self.now.awaiting) }
    {
        awaiting_in(alloc, &self.silos)
    }

    /// An awaited silo has reported.
    pub(crate) fn mark(&mut self, silo: &SiloAddress)
        requires { has_reported self.old silo.now ≡ Some false }
        ensures { self.new ≡ marked self.old silo.now }
    {
        if let Some(index) = index_of(&self.silos, silo) {
            self.silos[index].has_reported = true;
            self.missing -= 1;
        }
    }

    /// A law: what awaited silos keep.
    pub(crate) fn whole(&self)
        ensures { AreAwaited self.now }
    {
        let _missing = self.missing;
    }

    /// The same silos, with the same marks.
    pub(crate) fn copy(&self) -> Result<AwaitedSilos, AllocError>
        ensures { IfOk result (λ silos. silos ≡ self.now) }
    {
        let silos = self.silos.clone()?;
        Ok(AwaitedSilos {
            silos,
            missing: self.missing,
        })
    }

    /// Whether both have the same silos with the same marks.
    pub(crate) fn same(&self, other: &AwaitedSilos) -> bool
        ensures { IsTrue result ↔ (self.now ≡ other.now) }
    {
        same_silos(&self.silos, &other.silos)
    }
}

// The silos of a view's rows that aren't Dead.
fn awaited_of(alloc: Global, rows: &[(SiloAddress, Status)]) -> Result<Vec<Awaited>, AllocError>
    ensures { IfOk result (λ silos. silos.items ≡ map (λ row. record { silo = row.0; has_reported = false }) (filter (λ row. not (is_dead_status row.1)) rows.now)) }
{
    rows.iter()
        .filter(|row| !is_dead(row.1))
        .map(|row| Awaited {
            silo: row.0,
            has_reported: false,
        })
        .collect(alloc)
}

// Whether a status is Dead.
fn is_dead(status: Status) -> bool
    ensures { result ≡ is_dead_status status }
{
    match status {
        Status::Active | Status::Leaving => false,
        Status::Dead => true,
    }
}

// Those of the silos that haven't reported.
fn awaiting_in(alloc: Global, silos: &[Awaited]) -> Result<Vec<SiloAddress>, AllocError>
    ensures { IfOk result (λ awaiting. awaiting.items ≡ awaiting_of silos.now) }
{
    silos
        .iter()
        .filter(|awaited| !awaited.has_reported)
        .map(|awaited| awaited.silo)
        .collect(alloc)
}

// Where the silo stands.
fn index_of(silos: &[Awaited], silo: &SiloAddress) -> Option<usize>
    requires { IsByAddress silos.now }
    ensures found { IfSome result (λ index. IsSiloAt silos.now silo.now index) }
    ensures absent { IfNone result (¬ (Contains (silos_of silos.now) silo.now)) }
{
    match silos.binary_search_by_key(silo, |awaited| awaited.silo) {
        Ok(index) => Some(index),
        Err(_) => None,
    }
}

fn same_silos(one: &[Awaited], other: &[Awaited]) -> bool
    ensures { IsTrue result ↔ (one.now ≡ other.now) }
{
    *one == *other
}
