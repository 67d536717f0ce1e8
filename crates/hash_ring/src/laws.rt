//! Laws of the definitions, for proofs about rings: each function does nothing, and its clauses state a law.

ghost use Rattle.std.specs.Prelude.{◌≡◌, ◌+◌, ◌%◌, ◌<◌, [], ◌∷◌, Some, Err, true, false};
ghost use Rattle.ring_range.specs.Range.{circle, EachHash};
ghost use Rattle.hash_ring.specs.Point.{back};
ghost use Rattle.hash_ring.specs.Places.{after_add};
ghost use Rattle.hash_ring.specs.Owner.{owner_of, owns};
ghost use Rattle.hash_ring.specs.Ring.{are_added, points_of, sorted_ring};
ghost use Rattle.hash_ring.specs.Ranges.{ranges_of};
ghost use Rattle.hash_ring.specs.Laws.{IsPoint, RingsStay, OwnerIsNearest, OneOwner, NobodyOwns, OwnsIsOwned, OneList, SortedAnew, RingsAreRings, a, b, two_places, two_view};

/// How far back a place lies is the difference round the circle: that many steps forward from the place is the hash.
pub fn distances_back()
    ensures below { EachHash (λ hash. EachHash (λ place. back hash place < circle)) }
    ensures there { EachHash (λ hash. EachHash (λ place. (place + back hash place) % circle ≡ hash)) }
{}

/// The points of a view are those of its Active silos, each at its place. They stay when a silo is added to the places that was
/// not added before.
pub fn points_of_views()
    ensures points { IsPoint }
    ensures stay { RingsStay }
{}

/// The ring sorted anew has exactly the points of the view, in order and each once, and no other list has. Its places are hashes.
pub fn rings_sorted_anew()
    ensures sorted { SortedAnew }
    ensures only { OneList }
    ensures rings { RingsAreRings }
{}

/// The owner of a hash is the nearest point going back, and of points at one place the first by silo, then by index. There is one
/// owner, unless there is no point.
pub fn owners_are_nearest()
    ensures owner { OwnerIsNearest }
    ensures only { OneOwner }
    ensures none { NobodyOwns }
    ensures owns { OwnsIsOwned }
{}

/// The definitions compute: a ring of two silos, its owners and ranges.
pub fn definitions_compute()
    ensures ring { sorted_ring two_view two_places ≡ record { place = 0; silo = a; index = 0 } ∷ record { place = 2147483648; silo = a; index = 1 } ∷ record { place = 2147483648; silo = b; index = 0 } ∷ [] }
    ensures owner { owner_of (points_of two_view two_places) 2147483648 ≡ Some (record { place = 2147483648; silo = a; index = 1 }) }
    ensures ranges { ranges_of (sorted_ring two_view two_places) a ≡ record { start = 0; size = 2147483648 } ∷ record { start = 2147483648; size = 2147483648 } ∷ [] }
    ensures nothing { ranges_of (sorted_ring two_view two_places) b ≡ [] }
    ensures added { are_added two_view two_places ≡ true }
    ensures point_count { after_add two_places a [] ≡ Err 403 }
    ensures again { after_add two_places a (1 ∷ []) ≡ Err 404 }
{}
