ghost use Rattle.std.specs.Prelude.{◌≡◌, ◌<◌, ◌∷◌, [], All, IfOk, OnErr};
ghost use Rattle.published_rings.specs.Shown.{IsOfView, edition_after, front_of};

use crate::log::{Front, Keeper};
use crate::origin::Mark;
use hash_ring::Ring;
use left_right::Absorb;
use std::alloc::{AllocError, Global};
use std::marker::Model;
use std::sync::Arc;

/// A ring, with the log before it and up to it. There is one ring for all that have it.
#[derive(Drop)]
pub(crate) struct Edition {
    before: Front,
    front: Front,
    ring: Arc<Ring>,
}

impl Model for Edition {
    ghost use Rattle.std.specs.Prelude.{◌≡◌, ◌<◌, [], ◌∷◌, ◌++◌, All};
    ghost use Rattle.std.specs.Arc.{arc_value};
    ghost use Rattle.published_rings.specs.Shown.{EditionValue, IsOfView};

    ghost Value = { EditionValue };

    ghost view = { λ e. record { log = e.front.log; earlier = e.before.all; ring = arc_value e.ring } };

    // The ring is that of a view, and newer than all before it.
    ghost invariant = { λ e. (e.front.all ≡ e.before.all ++ arc_value e.ring ∷ []) × All (λ ring. ring.version < (arc_value e.ring).version) e.before.all × IsOfView (arc_value e.ring) };
}

impl Edition {
    // The first ring of a new log, with its keeper, and the front before it. Fails only when memory runs out.
    pub(crate) fn first(alloc: Global, ring: Ring) -> Result<(Front, Edition, Keeper), AllocError>
        requires { IsOfView ring }
        ensures edition { IfOk result (λ made. made.1 ≡ record { log = made.0.log; earlier = []; ring = ring }) }
        ensures keeper { IfOk result (λ made. made.2 ≡ front_of made.1) }
        ensures before { IfOk result (λ made. made.0.all ≡ []) }
    {
        let Some((before, keeper)) = Keeper::open(&ring) else {
            return Err(AllocError);
        };
        let ring = Arc::new(alloc, ring)?;
        let edition = Edition {
            before: before.again(),
            front: keeper.front(),
            ring,
        };
        Ok((before, edition, keeper))
    }

    // A newer ring, after this one, which is the last of the log. Where memory runs out, the log is as it was.
    pub(crate) fn next(
        &self,
        alloc: Global,
        ring: Ring,
        keeper: &mut Keeper,
    ) -> Result<Edition, AllocError>
        requires newer { self.now.ring.version < ring.version }
        requires made { IsOfView ring }
        requires keeper { keeper.old ≡ front_of self.now }
        ensures next { IfOk result (λ next. (next ≡ edition_after self.now ring) × (keeper.new ≡ front_of next)) }
        ensures unchanged { OnErr result (keeper.new ≡ keeper.old) }
    {
        let ring = Arc::new(alloc, ring)?;
        keeper.add(&ring);
        Ok(Edition {
            before: self.front.again(),
            front: keeper.front(),
            ring,
        })
    }

    // The same edition. Fails only where the ring has as many owners as there may be.
    pub(crate) fn again(&self) -> Result<Edition, AllocError>
        ensures { IfOk result (λ same. same ≡ self.now) }
    {
        Ok(Edition {
            before: self.before.again(),
            front: self.front.again(),
            ring: Arc::try_clone(&self.ring)?,
        })
    }

    pub(crate) fn front(&self) -> &Front
        ensures { result.now ≡ front_of self.now }
    {
        &self.front
    }

    pub(crate) fn ring(&self) -> &Ring
        ensures ring { result.now ≡ self.now.ring }
        ensures newer { All (λ ring. ring.version < self.now.ring.version) self.now.earlier }
        ensures made { IsOfView self.now.ring }
    {
        &self.ring
    }
}

/// What readers are shown: an edition, under a mark of its publication.
#[derive(Drop)]
pub(crate) struct Shown {
    mark: Mark,
    edition: Edition,
}

impl Model for Shown {
    ghost use Rattle.published_rings.specs.Shown.{ShownValue};

    ghost Value = { ShownValue };

    ghost view = { λ s. record { marks = s.mark; edition = s.edition } };
}

impl Shown {
    // The edition in both copies of what a new publication shows. Fails as `again`.
    pub(crate) fn pair(edition: &Edition) -> Result<(Shown, Shown), AllocError>
        ensures same { IfOk result (λ shown. shown.0 ≡ shown.1) }
        ensures edition { IfOk result (λ shown. shown.0.edition ≡ edition.now) }
    {
        let (one, other) = (edition.again()?, edition.again()?);
        let (mark, its_other) = Mark::pair();
        let first = Shown { mark, edition: one };
        let second = Shown {
            mark: its_other,
            edition: other,
        };
        Ok((first, second))
    }

    pub(crate) fn edition(&self) -> &Edition
        ensures { result.now ≡ self.now.edition }
    {
        &self.edition
    }
}

// To absorb an edition is to show it.
impl Absorb<Edition> for Shown {
    type State = Shown;

    ghost use Rattle.published_rings.specs.Shown.{showing};

    ghost state = { λ shown. shown };

    ghost applied = { showing };

    fn absorb_first(&mut self, operation: &Edition, _other: &Shown) -> Result<(), AllocError> {
        self.edition = operation.again()?;
        Ok(())
    }

    fn absorb_second(&mut self, operation: Edition, _other: &Shown) -> Result<(), Edition> {
        self.edition = operation;
        Ok(())
    }
}
