ghost use Rattle.std.specs.BTreeSet.{insert_key};
ghost use Rattle.std.specs.List.{fold};
ghost use Rattle.std.specs.List.Sorted.{IsStrictlySortedBy};
ghost use Rattle.std.specs.Prelude.{◌≡◌, ◌+◌, ◌≤◌, ◌<◌, ◌++◌, ◌∷◌, [], List, length, vec_len, vec_capacity};
ghost use Rattle.hash_ring.specs.Merge.{IsPutBetween};
ghost use Rattle.hash_ring.specs.Point.{point_cmp};
ghost use Rattle.hash_ring.specs.declared.point.Point.{Point as PointSeen};

use crate::Point;

/// Appends points in order, with others, in order too, each at its place. There has to be room for all.
pub(crate) fn merge(merged: &mut Vec<Point>, points: &[Point], others: &[Point])
    requires nothing_yet { merged.old.items ≡ [] }
    requires in_order { IsStrictlySortedBy point_cmp points.now }
    requires others { IsStrictlySortedBy point_cmp others.now }
    requires room { length points.now + length others.now ≤ vec_capacity merged.old }
    ensures { merged.new.items ≡ fold (insert_key point_cmp) points.now others.now }
{
    let mut rest = points;
    for point in others {
        rest = push_up_to(merged, rest, point);
    }
    push_all(merged, rest);
}

// Appends the points before this one, and then this one; those after it are left.
fn push_up_to<'a>(merged: &mut Vec<Point>, points: &'a [Point], point: &Point) -> &'a [Point]
    requires in_order { IsStrictlySortedBy point_cmp points.now }
    requires room { vec_len merged.old + length points.now < vec_capacity merged.old }
    ensures put { (before : List PointSeen) × (merged.new.items ≡ merged.old.items ++ (before ++ point.now ∷ [])) × IsPutBetween points.now point.now before result.now }
    ensures len { vec_len merged.new + length result.now ≤ vec_len merged.old + length points.now + 1 }
    ensures room { vec_capacity merged.old ≤ vec_capacity merged.new }
{
    let (before, after) = around(points, point);
    push_all(merged, before);
    merged.push(*point).unwrap();
    after
}

// The points before this one, and those after it.
fn around<'a>(points: &'a [Point], point: &Point) -> (&'a [Point], &'a [Point])
    requires in_order { IsStrictlySortedBy point_cmp points.now }
    ensures between { IsPutBetween points.now point.now result.0.now result.1.now }
    ensures len { length result.0.now + length result.1.now ≤ length points.now }
{
    match points.binary_search(point) {
        Ok(at) => (&points[..at], &points[at + 1..]),
        Err(at) => points.split_at(at),
    }
}

// Appends points. There has to be room for them.
fn push_all(merged: &mut Vec<Point>, points: &[Point])
    requires room { vec_len merged.old + length points.now ≤ vec_capacity merged.old }
    ensures items { merged.new.items ≡ merged.old.items ++ points.now }
    ensures len { vec_len merged.new ≡ vec_len merged.old + length points.now }
    ensures room { vec_capacity merged.old ≤ vec_capacity merged.new }
{
    for point in points {
        merged.push(*point).unwrap();
    }
}
