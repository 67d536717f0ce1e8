ghost use Rattle.std.specs.Prelude.{◌≡◌, ◌++◌, IfOk, OnOk};
ghost use Rattle.hash_ring.specs.Ring.{points_of, silo_points};

use crate::{Places, Point};
use membership_view::View;
use silo_address::SiloAddress;
use std::alloc::{AllocError, Global};

/// The points of a view, silo by silo.
pub(crate) fn points_of(
    alloc: Global,
    view: &View,
    places: &Places,
) -> Result<Vec<Point>, AllocError>
    ensures { IfOk result (λ points. points.items ≡ points_of view.now places.now) }
{
    let mut points = Vec::new(alloc);
    for (silo, status) in view.rows() {
        if status.is_active() {
            push_points(&mut points, silo, places)?;
        }
    }
    Ok(points)
}

/// Appends the points of a silo.
pub(crate) fn push_points(
    points: &mut Vec<Point>,
    silo: &SiloAddress,
    places: &Places,
) -> Result<(), AllocError>
    ensures { OnOk result (points.new.items ≡ points.old.items ++ silo_points places.now silo.now) }
{
    if let Some(list) = places.of(silo) {
        for (index, place) in list.iter().enumerate() {
            points.push(Point {
                place: *place,
                silo: *silo,
                index,
            })?;
        }
    }
    Ok(())
}
