//! The change that a sight makes.
ghost use Rattle.std.specs.Prelude.{◌≡◌, ◌+◌, ◌≤◌, ◌++◌, [], OnErr, OnOk, length, vec_capacity, true};
ghost use Rattle.directory_rules.specs.Host.{renewed};
ghost use Rattle.directory_rules.specs.Sight.{shelf_after};
ghost use Rattle.node_plans.specs.Plans.{FitsSight, MayRenew, seen_by};
ghost use Rattle.seal_snapshot.specs.Shelf.{AreInOrder};

use crate::{Node, Sight};
use host_activations::Renewal;
use membership_view::View;
use node_plans::{see_in_cache, see_in_holding};
use seal_snapshot::{Shelf, Snapshot, laws};
use std::alloc::AllocError;

impl Node {
    // A view is seen. What needs memory comes first: room on the shelf, and then the pieces.
    pub(crate) fn see(&mut self, sight: Sight) -> Result<(), AllocError>
        requires fits { FitsSight sight self.old }
        ensures made { OnOk result (self.new ≡ seen_by sight self.old) }
        ensures unchanged { OnErr result (self.new ≡ self.old) }
    {
        laws::sealed_comes_behind();
        self.shelf.in_order();
        self.settings.in_range();
        let (silo, hashing) = (self.host.silo(), self.settings.hashing());
        let room = see_in_holding(
            self.alloc,
            &mut self.holding,
            &self.shelf,
            hashing,
            silo,
            &sight,
        );
        match room {
            Ok(room) => {
                self.holding.whole();
                let Sight {
                    next,
                    view,
                    transition,
                    sealed,
                    gatherings,
                    recoveries,
                    renewal,
                } = sight;
                see_on_shelf(&mut self.shelf, next, room, &view, sealed);
                self.host.renew(renewal);
                see_in_cache(&mut self.cache, &view);
                self.view = view;
                self.ring = transition.into_ring();
                self.gatherings = gatherings;
                self.recoveries = recoveries;
                Ok(())
            }
            Err(error) => {
                drop(sight);
                Err(error)
            }
        }
    }

    // Every outstanding request has its new number.
    pub(crate) fn renew(&mut self, renewal: Renewal)
        requires may { MayRenew self.old renewal }
        ensures { self.new ≡ record self.old { host = renewed self.old.host } }
    {
        self.settings.in_range();
        self.host.renew(renewal);
    }
}

// What is sealed comes on the shelf, or nothing is kept there.
fn see_on_shelf(
    shelf: &mut Shelf,
    next: bool,
    room: Vec<Snapshot>,
    view: &View,
    sealed: Vec<Snapshot>,
)
    requires behind { next ≡ true → AreInOrder (shelf.old ++ sealed.items) }
    requires empty { room.items ≡ [] }
    requires large { length shelf.old + length sealed.items ≤ vec_capacity room }
    ensures { shelf.new ≡ shelf_after next view.now shelf.old sealed.items }
{
    if next {
        shelf.sight(room, view, sealed);
    } else {
        shelf.skip();
    }
}
