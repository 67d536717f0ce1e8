//! What a version changes of the ring, apart from the silo that sees it.
ghost use Rattle.std.specs.Prelude.{◌≡◌, IfOk};
ghost use Rattle.grain_partition.specs.Sight.{AreOfRings};
ghost use Rattle.std.specs.Arc.{arc_value};

use grain_partition::ArcsBySilo;
use hash_ring::Ring;
use range_moves::RingArc;
use std::alloc::{AllocError, Global};
use std::marker::Model;
use std::sync;

/// The ring of a view, and the arcs from the ring that is compared to it. Silos that go from one version to the next may share one:
/// a copy is a count (`docs/RULES.md#arcs-and-moves`).
#[derive(Drop)]
pub struct Transition {
    ring: sync::Arc<Ring>,
    arcs: sync::Arc<ArcsBySilo>,
}

impl Model for Transition {
    ghost use Rattle.node_plans.specs.Transition.{TransitionValue};

    ghost Value = { TransitionValue };

    ghost use Rattle.node_plans.specs.TransitionModel.{IsWhole, transition_of};

    ghost view = { transition_of };

    ghost invariant = { IsWhole };
}

impl Transition {
    /// The ring, and the arcs from another one to it: it asks that they are the arcs between two rings. Fails only when memory runs
    /// out.
    pub fn of(alloc: Global, ring: Ring, arcs: Vec<RingArc>) -> Result<Transition, AllocError>
        requires { AreOfRings arcs.items }
        ensures { IfOk result (λ transition. transition ≡ record { ring = ring; arcs = arcs.items }) }
    {
        let ring = sync::Arc::new(alloc, ring)?;
        let arcs = sync::Arc::new(alloc, ArcsBySilo::of(alloc, arcs)?)?;
        Ok(Transition { ring, arcs })
    }

    /// The ring of the view.
    pub fn ring(&self) -> &Ring
        ensures { result.now ≡ self.now.ring }
    {
        &self.ring
    }

    /// The arcs, by start, and under the silos whose they are.
    pub fn arcs(&self) -> &ArcsBySilo
        ensures { result.now ≡ self.now.arcs }
    {
        &self.arcs
    }

    /// The ring, to be kept.
    pub fn into_ring(self) -> sync::Arc<Ring>
        ensures { arc_value result ≡ self.ring }
    {
        self.ring
    }

    /// A law: the arcs are those between two rings.
    pub fn whole(&self)
        ensures { AreOfRings self.now.arcs }
    {
        let _ring = &self.ring;
    }

    /// The same transition, which shares all that it has. Fails only when memory runs out.
    pub fn copy(&self) -> Result<Transition, AllocError>
        ensures { IfOk result (λ transition. transition ≡ self.now) }
    {
        let ring = sync::Arc::try_clone(&self.ring)?;
        let arcs = sync::Arc::try_clone(&self.arcs)?;
        Ok(Transition { ring, arcs })
    }
}
