//! The ring of the view that an event made is published.
ghost use Rattle.std.specs.Prelude.{◌≡◌, ◌<◌, IfErr, IfOk, IfSome, IsOk, None, Ok, OnErr, OnOk};
ghost use Rattle.hash_ring.specs.Ring.{ring_of};
ghost use Rattle.published_rings.specs.Ends.{after_publishing};
ghost use Rattle.silo_threads.specs.Followed.{IsLeftIn, IsToShow, ShowsNewest};

use crate::{Cluster, Lack};
use cluster_board::{Board, Charter};
use hash_ring::Places;
use membership_view::View;
use published_rings::Publisher;
use silo_workers::Gate;
use std::alloc::{AllocError, Global};
use std::sync::Wait;

/// The current view of a board's world, which events have made, and each silo's places. Fails only when memory runs out.
pub(crate) fn newest<L: Charter>(
    alloc: Global,
    board: &Board<L>,
) -> Result<(View, Places), AllocError>
    ensures { IfOk result (IsLeftIn board.now.world) }
{
    let world = board.world();
    let Some(view) = world.views().view(alloc, world.current())? else {
        unreachable!()
    };
    let places = world.places().copy()?;
    Ok((view, places))
}

/// The same, if the view is newer than that version; else nothing.
pub(crate) fn newest_behind<L: Charter>(
    alloc: Global,
    board: &Board<L>,
    published: u64,
) -> Result<Option<(View, Places)>, AllocError>
    ensures { IsToShow board.now.world published result }
{
    if board.world().current() <= published {
        return Ok(None);
    }
    let newest = newest(alloc, board)?;
    Ok(Some(newest))
}

impl<L: Charter, G: Gate + Drop> Cluster<L, G> {
    /// Publishes the ring of the view that an event left, with these places, if it is newer than the last one. Fails where the two
    /// couldn't be copied, or memory runs out.
    pub(crate) fn publish<R: Wait>(
        &mut self,
        rt: &R,
        newest: &Result<Option<(View, Places)>, AllocError>,
    ) -> Result<(), Lack>
        requires { IfOk newest.now (λ newest. IfSome newest (λ newest. self.old.published.last.version < newest.0.version)) }
        ensures workers { self.new.workers ≡ self.old.workers }
        ensures published { OnOk result (ShowsNewest newest.now self.old.published self.new.published) }
        ensures unchanged { OnErr result (self.new ≡ self.old) }
        ensures lack { IfErr result (λ lack. lack ≡ Lack.Publication) }
        ensures nothing { newest.now ≡ Ok None → IsOk result }
    {
        show_newest(rt, self.alloc, &mut self.publisher, newest)
    }
}

// The same, by the publisher.
fn show_newest<R: Wait>(
    rt: &R,
    alloc: Global,
    publisher: &mut Publisher,
    newest: &Result<Option<(View, Places)>, AllocError>,
) -> Result<(), Lack>
    requires { IfOk newest.now (λ newest. IfSome newest (λ newest. publisher.old.last.version < newest.0.version)) }
    ensures published { OnOk result (ShowsNewest newest.now publisher.old publisher.new) }
    ensures unchanged { OnErr result (publisher.new ≡ publisher.old) }
    ensures lack { IfErr result (λ lack. lack ≡ Lack.Publication) }
    ensures nothing { newest.now ≡ Ok None → IsOk result }
{
    match newest {
        Ok(None) => Ok(()),
        Ok(Some((view, places))) => show(rt, alloc, publisher, view, places),
        Err(_) => Err(Lack::Publication),
    }
}

// Publishes the ring of a newer view.
fn show<R: Wait>(
    rt: &R,
    alloc: Global,
    publisher: &mut Publisher,
    view: &View,
    places: &Places,
) -> Result<(), Lack>
    requires { publisher.old.last.version < view.now.version }
    ensures shown { OnOk result (publisher.new ≡ after_publishing publisher.old (ring_of view.now places.now)) }
    ensures unchanged { OnErr result (publisher.new ≡ publisher.old) }
    ensures lack { IfErr result (λ lack. lack ≡ Lack.Publication) }
{
    match publisher.publish_anew(rt, alloc, view, places) {
        Ok(_) => Ok(()),
        Err(_) => Err(Lack::Publication),
    }
}
