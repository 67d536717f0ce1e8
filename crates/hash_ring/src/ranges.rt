ghost use Rattle.std.specs.List.Sorted.{IsStrictlySortedBy};
ghost use Rattle.std.specs.Prelude.{◌≡◌, ◌<◌, ◌≤◌, ◌&&◌, All, IfOk, length, slice_index_or};
ghost use Rattle.silo_address.specs.Silo.{silo_eq};
ghost use Rattle.ring_range.specs.Range.{circle};
ghost use Rattle.hash_ring.specs.Point.{IsOnCircle, point_cmp};
ghost use Rattle.hash_ring.specs.Ranges.{CoverOwned, owned_ranges, owns_its_place, range_of, ranges_of, room};
ghost use Rattle.hash_ring.specs.Search.{PlacesRise};
ghost use Rattle.hash_ring.specs.declared.point.Point.{Point as PointSeen};

use crate::ring::up_to;
use crate::{Point, Ring};
use ring_range::{CIRCLE, RingRange};
use silo_address::SiloAddress;
use std::alloc::{AllocError, Global};

impl Ring {
    /// The ranges that a silo owns, in order of place: one for each of its points that is the first at its place, from there up
    /// to the next place. One place alone gives the full circle.
    pub fn ranges_of(&self, alloc: Global, silo: &SiloAddress) -> Result<Vec<RingRange>, AllocError>
        ensures exact { IfOk result (λ ranges. ranges.items ≡ ranges_of self.now.points silo.now) }
        ensures covers { IfOk result (λ ranges. CoverOwned self.now.points silo.now ranges.items) }
    {
        ranges_in(alloc, &self.points, silo)
    }

    /// Each range of the ring with the silo that owns it, in order of place: one for each point that is the first at its place.
    pub fn owned_ranges(&self, alloc: Global) -> Result<Vec<(RingRange, SiloAddress)>, AllocError>
        ensures { IfOk result (λ ranges. ranges.items ≡ owned_ranges self.now.points) }
    {
        owned_in(alloc, &self.points)
    }
}

// Each range with its owner, of points in order.
fn owned_in(alloc: Global, points: &[Point]) -> Result<Vec<(RingRange, SiloAddress)>, AllocError>
    requires in_order { IsStrictlySortedBy point_cmp points.now }
    requires rise { PlacesRise points.now }
    requires on_circle { All IsOnCircle points.now }
    ensures { IfOk result (λ ranges. ranges.items ≡ owned_ranges points.now) }
{
    let mut ranges = Vec::new(alloc);
    for at in 0..points.len() {
        if is_first_there(points, at) {
            ranges.push((range_from(points, at), points[at].silo))?;
        }
    }
    Ok(ranges)
}

// The ranges of a silo, of points in order.
fn ranges_in(
    alloc: Global,
    points: &[Point],
    silo: &SiloAddress,
) -> Result<Vec<RingRange>, AllocError>
    requires in_order { IsStrictlySortedBy point_cmp points.now }
    requires rise { PlacesRise points.now }
    requires on_circle { All IsOnCircle points.now }
    ensures { IfOk result (λ ranges. ranges.items ≡ ranges_of points.now silo.now) }
{
    let mut ranges = Vec::new(alloc);
    for at in 0..points.len() {
        if gives_range(points, at, silo) {
            ranges.push(range_from(points, at))?;
        }
    }
    Ok(ranges)
}

// Whether the point there is the silo's, and is the first at its place.
fn gives_range(points: &[Point], at: usize, silo: &SiloAddress) -> bool
    requires in_order { IsStrictlySortedBy point_cmp points.now }
    requires rise { PlacesRise points.now }
    requires on_circle { All IsOnCircle points.now }
    requires within { at < length points.now }
    ensures { (d : PointSeen) → result ≡ (silo_eq (slice_index_or points.now at d).silo silo.now && owns_its_place points.now (slice_index_or points.now at d)) }
{
    points[at].silo == *silo && is_first_there(points, at)
}

// Whether the point is the first at its place.
fn is_first_there(points: &[Point], at: usize) -> bool
    requires in_order { IsStrictlySortedBy point_cmp points.now }
    requires rise { PlacesRise points.now }
    requires on_circle { All IsOnCircle points.now }
    requires within { at < length points.now }
    ensures { (d : PointSeen) → result ≡ owns_its_place points.now (slice_index_or points.now at d) }
{
    if at == 0 {
        return true;
    }
    if points[at - 1].place == points[at].place {
        return false;
    }
    true
}

// The hashes from a point's place on to the next place.
fn range_from(points: &[Point], at: usize) -> RingRange
    requires rise { PlacesRise points.now }
    requires on_circle { All IsOnCircle points.now }
    requires within { at < length points.now }
    ensures { (d : PointSeen) → result ≡ range_of points.now (slice_index_or points.now at d) }
{
    let place = points[at].place;
    RingRange::new(place, room_from(points, place, at)).unwrap()
}

// How many hashes there are from a place on to the next one.
fn room_from(points: &[Point], place: u32, at: usize) -> u64
    requires rise { PlacesRise points.now }
    requires on_circle { All IsOnCircle points.now }
    requires within { at < length points.now }
    requires is { (d : PointSeen) → place ≡ (slice_index_or points.now at d).place }
    ensures room { result ≡ room points.now place }
    ensures small { result ≤ circle }
{
    let next = up_to(points, place);
    if next < points.len() {
        u64::from(points[next].place - place)
    } else {
        CIRCLE - u64::from(place - points[0].place)
    }
}
