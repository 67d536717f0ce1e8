ghost use Rattle.std.specs.Prelude.{◌≡◌};
ghost use Rattle.range_moves.specs.Arcs.{owner_silo};
ghost use Rattle.range_moves.specs.Walk.{highest, nearer_place, owner_at, passed, place_ahead};

use hash_ring::{Point, Ring};
use silo_address::SiloAddress;

/// One of two rings, on a walk round the circle.
#[derive(Clone, Copy)]
pub(crate) struct Side<'a> {
    /// Who owns the hashes that the walk has come to.
    pub(crate) owner: Option<SiloAddress>,
    /// The points further on, in order.
    pub(crate) ahead: &'a [Point],
}

impl<'a> Side<'a> {
    /// The ring before its first point, where the owner of the highest hash still owns.
    pub(crate) fn before_first(ring: &'a Ring) -> Side<'a>
        ensures owner { result.owner ≡ owner_silo ring.now.points highest }
        ensures ahead { result.ahead.now ≡ ring.now.points }
    {
        Side {
            owner: ring.owner(u32::MAX).map(|point| point.silo),
            ahead: ring.points(),
        }
    }

    /// The ring at a place, to which no point was passed over.
    pub(crate) fn at(self, place: u32) -> Side<'a>
        ensures owner { result.owner ≡ owner_at place self.entry.ahead.now self.entry.owner }
        ensures ahead { result.ahead.now ≡ passed place self.entry.ahead.now }
    {
        Side {
            owner: owner_at(place, self.ahead, self.owner),
            ahead: passed(place, self.ahead),
        }
    }

    /// The next place at which the ring has a point.
    fn place_ahead(&self) -> Option<u32>
        ensures { result ≡ place_ahead self.now.ahead.now }
    {
        Some(self.ahead.first()?.place)
    }
}

/// The next place at which either ring has a point.
pub(crate) fn next_place(old: &Side<'_>, new: &Side<'_>) -> Option<u32>
    ensures { result ≡ nearer_place (place_ahead old.now.ahead.now) (place_ahead new.now.ahead.now) }
{
    match (old.place_ahead(), new.place_ahead()) {
        (Some(old), Some(new)) => Some(old.min(new)),
        (old, new) => old.or(new),
    }
}

// Who owns the place, where the point that is first there comes first of those ahead, if there is one.
fn owner_at(place: u32, ahead: &[Point], before: Option<SiloAddress>) -> Option<SiloAddress>
    ensures { result ≡ owner_at place ahead.now before }
{
    match ahead.first() {
        Some(point) if point.place == place => Some(point.silo),
        _ => before,
    }
}

// The points beyond those at the place.
fn passed(place: u32, ahead: &[Point]) -> &[Point]
    ensures { result.now ≡ passed place ahead.now }
{
    let mut ahead = ahead;
    while let Some((point, further)) = ahead.split_first() {
        if point.place != place {
            break;
        }
        ahead = further;
    }
    ahead
}
