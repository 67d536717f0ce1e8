ghost use Rattle.std.specs.Prelude.{◌≡◌, ◌++◌, [], ◌∷◌, IfOk, OnErr, OnOk};

use range_moves::RingArc;
use std::alloc::{AllocError, Global};
use std::marker::Model;

// Some arcs of one silo.
#[derive(Drop)]
pub(crate) struct OwnArcs {
    arcs: Vec<RingArc>,
}

impl Model for OwnArcs {
    ghost use Rattle.std.specs.Prelude.{List};
    ghost use Rattle.range_moves.specs.declared.RingArc.{RingArc};

    ghost Value = { List RingArc };

    ghost view = { λ own. own.arcs.items };
}

impl OwnArcs {
    // The first one.
    pub(crate) fn of(alloc: Global, arc: &RingArc) -> Result<OwnArcs, AllocError>
        ensures { IfOk result (λ own. own ≡ arc.now ∷ []) }
    {
        let RingArc { range, from, to } = *arc;
        let mut arcs = Vec::new(alloc);
        arcs.push(RingArc { range, from, to })?;
        Ok(OwnArcs { arcs })
    }

    // One more.
    pub(crate) fn push(&mut self, arc: &RingArc) -> Result<(), AllocError>
        ensures put { OnOk result (self.new ≡ self.old ++ arc.now ∷ []) }
        ensures unchanged { OnErr result (self.new ≡ self.old) }
    {
        let RingArc { range, from, to } = *arc;
        self.arcs.push(RingArc { range, from, to })?;
        Ok(())
    }

    // All of them.
    pub(crate) fn arcs(&self) -> &[RingArc]
        ensures { result.now ≡ self.now }
    {
        &self.arcs
    }
}
