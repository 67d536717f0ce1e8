ghost use Rattle.std.specs.Prelude.{◌≡◌, ◌↔◌, ◌⊎◌, ◌+◌, ◌*◌, ◌<◌, ◌≤◌, [], length, None, All, IsTrue, IfOk, IfErr, IfSome, IfNone, IsErrOf, false};
ghost use Rattle.std.specs.List.Sorted.{IsPartitionPoint, IsStrictlySortedBy};
ghost use Rattle.hash_ring.specs.Point.{IsOnCircle, point_cmp};
ghost use Rattle.hash_ring.specs.Owner.{IsOwner, owner_of};
ghost use Rattle.hash_ring.specs.Search.{IsFirstThere, IsLastMet, IsStepByThirds, PlacesRise};
ghost use Rattle.hash_ring.specs.Ring.{IsRing, are_added, ring_of, sorted_ring};

use crate::points::points_of;
use crate::{Places, Point, RingError};
use membership_view::View;
use std::alloc::{AllocError, Global};
use std::marker::Model;

/// The ring of a view: the points of its Active silos, by place, then silo, then index (`docs/RULES.md#the-ring`).
#[derive(Drop)]
pub struct Ring {
    pub(crate) version: u64,
    pub(crate) points: Vec<Point>,
}

impl Model for Ring {
    ghost use Rattle.hash_ring.specs.Ring.{RingValue};

    ghost Value = { RingValue };

    ghost use Rattle.hash_ring.specs.Ring.{IsRing};

    ghost view = { λ r. record { version = r.version; points = r.points.items } };

    ghost invariant = { λ r. IsRing (record { version = r.version; points = r.points.items }) };
}

impl Ring {
    /// The ring of a view. Refused by 403 where a silo that is Active there was not added to the places.
    pub fn anew(alloc: Global, view: &View, places: &Places) -> Result<Ring, RingError>
        ensures made { IfOk result (λ ring. ring ≡ ring_of view.now places.now) }
        ensures missing { IsErrOf result RingError.PointsMissing ↔ (are_added view.now places.now ≡ false) }
        ensures only { IfErr result (λ refusal. (refusal ≡ RingError.PointsMissing) ⊎ (refusal ≡ RingError.OutOfMemory)) }
    {
        if !places.has_active_of(view) {
            return Err(RingError::PointsMissing);
        }
        match sorted_points(alloc, view, places) {
            Ok(points) => Ok(Ring {
                version: view.version(),
                points,
            }),
            Err(_) => Err(RingError::OutOfMemory),
        }
    }

    /// The ring of the view before the first change: version 0, without points.
    pub fn empty(alloc: Global) -> Ring
        ensures { result ≡ record { version = 0; points = [] } }
    {
        Ring {
            version: 0,
            points: Vec::new(alloc),
        }
    }

    /// The version of the view whose ring this is.
    pub fn version(&self) -> u64
        ensures { result ≡ self.now.version }
    {
        self.version
    }

    /// The points, by place, then silo, then index.
    pub fn points(&self) -> &[Point]
        ensures { result.now ≡ self.now.points }
    {
        &self.points
    }

    /// The owner of a hash: going back from it, the first point that is met, and of points at one place the first by silo,
    /// then index. `None` where the ring has no point.
    pub fn owner(&self, hash: u32) -> Option<Point>
        ensures exact { result ≡ owner_of self.now.points hash }
        ensures nearest { IfSome result (λ owner. IsOwner self.now.points hash owner) }
        ensures none { (result ≡ None) ↔ (self.now.points ≡ []) }
    {
        owner_in(&self.points, hash)
    }

    /// A law: the invariant of all rings.
    pub fn whole(&self)
        ensures { IsRing self.now }
    {
        let _version = self.version;
    }

    /// An equal copy.
    pub fn copy(&self) -> Result<Ring, AllocError>
        ensures { IfOk result (λ ring. ring ≡ self.now) }
    {
        let points = self.points.clone()?;
        Ok(Ring {
            version: self.version,
            points,
        })
    }

    /// Whether both have the same version and points.
    pub fn same(&self, other: &Ring) -> bool
        ensures { IsTrue result ↔ (self.now ≡ other.now) }
    {
        other.version == self.version && same_points(&self.points, &other.points)
    }
}

// The owner of a hash, of points in order.
fn owner_in(points: &[Point], hash: u32) -> Option<Point>
    requires in_order { IsStrictlySortedBy point_cmp points.now }
    requires rise { PlacesRise points.now }
    requires on_circle { All IsOnCircle points.now }
    ensures owner { IfSome result (λ owner. IsOwner points.now hash owner) }
    ensures none { IfNone result (points.now ≡ []) }
{
    let last = last_met(points, hash)?;
    let first = first_there(points, last);
    Some(points[first])
}

// The index of the last point at the owner's place, if there is a point.
fn last_met(points: &[Point], hash: u32) -> Option<usize>
    requires rise { PlacesRise points.now }
    requires on_circle { All IsOnCircle points.now }
    ensures found { IfSome result (λ last. IsLastMet points.now hash last) }
    ensures none { IfNone result (points.now ≡ []) }
{
    let past = up_to(points, hash);
    if past > 0 {
        return Some(past - 1);
    }
    points.len().checked_sub(1)
}

// How many points are at or before a place. Hashes are random, so a branch on a comparison would be mispredicted every other
// time; a step by thirds adds up two comparisons, and branches on neither.
pub(crate) fn up_to(points: &[Point], place: u32) -> usize
    requires { PlacesRise points.now }
    ensures bound { result ≤ length points.now }
    ensures split { IsPartitionPoint (λ p. p.place ≤ place) (λ p. place < p.place) points.now result }
{
    let (mut start, mut size) = (0, points.len());
    while size > 1 {
        let third = (size + 1) / 3;
        start += step_by_thirds(points, start, third, place);
        size -= 2 * third;
    }
    if size == 0 {
        return start;
    }
    start + usize::from(points[start].place <= place)
}

// Over none, one or two thirds: those that end with a point at or before the place.
fn step_by_thirds(points: &[Point], start: usize, third: usize, place: u32) -> usize
    requires rise { PlacesRise points.now }
    requires some { 0 < third }
    requires within { start + 2 * third ≤ length points.now }
    ensures step { IsStepByThirds points.now start third place result }
{
    let near = points[start + third - 1].place <= place;
    let far = points[start + 2 * third - 1].place <= place;
    third * (usize::from(near) + usize::from(far))
}

// How many points are before a place.
fn before(points: &[Point], place: u32) -> usize
    requires { PlacesRise points.now }
    ensures bound { result ≤ length points.now }
    ensures split { IsPartitionPoint (λ p. p.place < place) (λ p. place ≤ p.place) points.now result }
{
    points.partition_point(|point| point.place < place)
}

// The index of the first of the points that share this one's place. Mostly there is no other.
fn first_there(points: &[Point], last: usize) -> usize
    requires rise { PlacesRise points.now }
    requires within { last < length points.now }
    ensures within { result ≤ last }
    ensures first { IsFirstThere points.now last result }
{
    if last == 0 {
        return last;
    }
    let place = points[last].place;
    if points[last - 1].place != place {
        return last;
    }
    before(points, place)
}

// The points of a view in order.
fn sorted_points(alloc: Global, view: &View, places: &Places) -> Result<Vec<Point>, AllocError>
    ensures sorted { IfOk result (λ points. points.items ≡ sorted_ring view.now places.now) }
    ensures kept { IfOk result (λ points. IsRing (record { version = 0; points = points.items })) }
{
    view.in_order();
    places.whole();
    let mut points = points_of(alloc, view, places)?;
    points.sort_unstable();
    Ok(points)
}

fn same_points(one: &[Point], other: &[Point]) -> bool
    ensures { IsTrue result ↔ (one.now ≡ other.now) }
{
    *one == *other
}
