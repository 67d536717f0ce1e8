ghost use Rattle.std.specs.BTreeSet.{insert_key};
ghost use Rattle.std.specs.List.{filter, flat_map, fold, slice_get};
ghost use Rattle.std.specs.List.Sorted.{IsStrictlySortedBy};
ghost use Rattle.std.specs.Prelude.{◌≡◌, ◌≢◌, ◌↔◌, ◌⊎◌, ◌+◌, ◌≤◌, ◌&&◌, not, [], length, Contains, vec_len, vec_capacity, IsTrue, IfOk, IfErr, OnOk, OnErr, IsErrOf, IsOk, false};
ghost use Rattle.silo_address.specs.Silo.{silo_eq};
ghost use Rattle.membership_view.specs.Row.{is_active};
ghost use Rattle.hash_ring.specs.Point.{point_cmp};
ghost use Rattle.hash_ring.specs.Ring.{IsRingBy, are_added, is_active_in, is_on_ring, new_silos, ring_of, silo_points, sorted_points};
ghost use Rattle.hash_ring.specs.Search.{HasWholeSilos};

use crate::merge::merge;
use crate::points::push_points;
use crate::ring::up_to;
use crate::{Places, Point, Ring, RingError};
use membership_view::{Status, View};
use silo_address::SiloAddress;
use std::alloc::{AllocError, Global};

impl Ring {
    /// Changes the ring into that of the next view: removes the points of silos that are no longer Active, and inserts those of
    /// each new silo. Needs memory only where a silo is new. The ring has to be that of some view, by these places. Refused by
    /// 401 where the view's version isn't one above the ring's, then by 403 where a silo that is Active there was not added to
    /// the places.
    pub fn advance(&mut self, view: &View, places: &Places) -> Result<(), RingError>
        requires { IsRingBy self.old places.now }
        ensures advanced { OnOk result (self.new ≡ ring_of view.now places.now) }
        ensures not_next { IsErrOf result RingError.NotNextView ↔ (view.now.version ≢ self.old.version + 1) }
        ensures missing { IsErrOf result RingError.PointsMissing ↔ ((view.now.version ≡ self.old.version + 1) × (are_added view.now places.now ≡ false)) }
        ensures only { IfErr result (λ refusal. (refusal ≡ RingError.NotNextView) ⊎ (refusal ≡ RingError.PointsMissing) ⊎ (refusal ≡ RingError.OutOfMemory)) }

        // Where no silo is new, no memory is needed.
        ensures succeeds { view.now.version ≡ self.old.version + 1 → new_silos self.old view.now ≡ [] → IsOk result }
        ensures unchanged { OnErr result (self.new ≡ self.old) }
    {
        view.in_order();
        places.whole();
        if !follows(view.version(), self.version) {
            return Err(RingError::NotNextView);
        }
        if !places.has_active_of(view) {
            return Err(RingError::PointsMissing);
        }
        match change(&mut self.points, view, places) {
            Ok(()) => {
                self.version = view.version();
                Ok(())
            }
            Err(_) => Err(RingError::OutOfMemory),
        }
    }
}

// Whether a version is one above another.
fn follows(version: u64, earlier: u64) -> bool
    ensures { IsTrue result ↔ (version ≡ earlier + 1) }
{
    version > earlier && version - earlier == 1
}

// Makes the points of one view those of another. All memory is reserved before the first change.
fn change(points: &mut Vec<Point>, view: &View, places: &Places) -> Result<(), AllocError>
    requires { HasWholeSilos places.now points.old.items }
    ensures changed { OnOk result (points.new.items ≡ fold (insert_key point_cmp) (filter (λ p. is_active_in view.now p.silo) points.old.items) (flat_map (silo_points places.now) (new_silos (record { version = 0; points = points.old.items }) view.now))) }
    ensures succeeds { new_silos (record { version = 0; points = points.old.items }) view.now ≡ [] → IsOk result }
    ensures unchanged { OnErr result (points.new.items ≡ points.old.items) }
{
    let alloc = *points.allocator();
    let new = new_points(alloc, points, view, places)?;
    let mut merged = Vec::with_capacity(alloc, room_for(points, &new))?;
    take_out(points, view, places);
    if !new.is_empty() {
        merge(&mut merged, points, &new);
        *points = merged;
    }
    Ok(())
}

// How much room points take that are merged with new ones: none where there are no new ones.
fn room_for(points: &[Point], new: &[Point]) -> usize
    ensures none { new.now ≡ [] → result ≡ 0 }
    ensures some { new.now ≢ [] → result ≡ length points.now + length new.now }
{
    if new.is_empty() {
        return 0;
    }
    points.len() + new.len()
}

// The points of the silos that are Active in the view and have none yet, in order.
fn new_points(
    alloc: Global,
    points: &[Point],
    view: &View,
    places: &Places,
) -> Result<Vec<Point>, AllocError>
    requires { HasWholeSilos places.now points.now }
    ensures new { IfOk result (λ new. new.items ≡ sorted_points (flat_map (silo_points places.now) (new_silos (record { version = 0; points = points.now }) view.now))) }
    ensures succeeds { new_silos (record { version = 0; points = points.now }) view.now ≡ [] → IsOk result }
{
    view.in_order();
    let mut new = Vec::new(alloc);
    for row in view.rows() {
        if is_new(points, row, places) {
            push_points(&mut new, &row.0, places)?;
        }
    }
    new.sort_unstable();
    Ok(new)
}

// Whether the silo of a view's row is Active and has no point yet.
fn is_new(points: &[Point], row: &(SiloAddress, Status), places: &Places) -> bool
    requires { HasWholeSilos places.now points.now }
    ensures { result ≡ (is_active row.now.1 && not (is_on_ring points.now row.now.0)) }
{
    row.1.is_active() && !has_silo(points, &row.0, places)
}

// Whether the silo has points here. It has all of them or none, so the first one tells.
fn has_silo(points: &[Point], silo: &SiloAddress, places: &Places) -> bool
    requires { HasWholeSilos places.now points.now }
    ensures { result ≡ is_on_ring points.now silo.now }
{
    match first_point(silo, places) {
        Some(first) => has_point(points, &first),
        None => false,
    }
}

// Whether the point is here. Mostly it is, and alone at its place.
fn has_point(points: &[Point], point: &Point) -> bool
    requires { IsStrictlySortedBy point_cmp points.now }
    ensures { IsTrue result ↔ Contains points.now point.now }
{
    let past = up_to(points, point.place);
    if past > 0 && points[past - 1].same(point) {
        return true;
    }
    points.binary_search(point).is_ok()
}

// The first of a silo's points, if it has one.
fn first_point(silo: &SiloAddress, places: &Places) -> Option<Point>
    ensures { result ≡ slice_get (silo_points places.now silo.now) 0 }
{
    let place = *places.of(silo)?.first()?;
    Some(Point {
        place,
        silo: *silo,
        index: 0,
    })
}

// Removes the points of the silos that aren't Active in the view.
fn take_out(points: &mut Vec<Point>, view: &View, places: &Places)
    requires { HasWholeSilos places.now points.old.items }
    ensures kept { points.new.items ≡ filter (λ p. is_active_in view.now p.silo) points.old.items }
    ensures len { vec_len points.new ≤ vec_len points.old }
    ensures room { vec_capacity points.new ≡ vec_capacity points.old }
{
    for (silo, _) in places.silos() {
        if is_gone(points, silo, view, places) {
            take_out_of(points, silo);
        }
    }
}

// Whether the silo has points here, but isn't Active in the view.
fn is_gone(points: &[Point], silo: &SiloAddress, view: &View, places: &Places) -> bool
    requires { HasWholeSilos places.now points.now }
    ensures { result ≡ (not (is_active_in view.now silo.now) && is_on_ring points.now silo.now) }
{
    !is_active_in(view, silo) && has_silo(points, silo, places)
}

// Removes the points of one silo.
fn take_out_of(points: &mut Vec<Point>, silo: &SiloAddress)
    ensures kept { points.new.items ≡ filter (λ p. not (silo_eq p.silo silo.now)) points.old.items }
    ensures len { vec_len points.new ≤ vec_len points.old }
    ensures room { vec_capacity points.new ≡ vec_capacity points.old }
{
    points.retain(|point| is_of_other(point, silo));
}

// Whether the point belongs to another silo.
fn is_of_other(point: &Point, silo: &SiloAddress) -> bool
    ensures { result ≡ not (silo_eq point.now.silo silo.now) }
{
    point.silo != *silo
}

// Whether the silo is Active in the view.
fn is_active_in(view: &View, silo: &SiloAddress) -> bool
    ensures { result ≡ is_active_in view.now silo.now }
{
    match view.status(silo) {
        Some(status) => status.is_active(),
        None => false,
    }
}
