//! Laws of the definitions, for proofs about moves: each function does nothing, and its clauses state a law.

ghost use Rattle.std.specs.Prelude.{◌≡◌, ℕ, ◌<◌, List, [], ◌∷◌, All, Contains};
ghost use Rattle.ring_range.specs.Range.{circle};
ghost use Rattle.hash_ring.specs.declared.Point.{Point};
ghost use Rattle.hash_ring.specs.Point.{IsOnCircle};
ghost use Rattle.range_moves.specs.Arcs.{all_places, arc_of, arcs_of, AreArcs};
ghost use Rattle.range_moves.specs.Moves.{moves_of, AreMoves};
ghost use Rattle.range_moves.specs.Worked.{ArcsOpposite, MovesOpposite, MovesTied, MovesFirst, ArcsLast, MovesLast};

/// Each hash of the circle is in exactly one arc, where either ring has a place, and the arc tells its owners.
pub fn arcs_are_whole()
    ensures { (old new : List Point) → All IsOnCircle old → All IsOnCircle new → AreArcs old new (arcs_of old new) }
{}

/// Rings that have one place in all have one arc, the full circle.
pub fn one_place_is_one_arc()
    ensures { (old new : List Point) (place : ℕ) → place < circle → Contains (all_places old new) place →
        All (λ other. other ≡ place) (all_places old new) →
        arcs_of old new ≡ arc_of old new (record { start = place; size = circle }) ∷ [] }
{}

/// Each hash that moved is in exactly one move, with its owners before and after, and no other hash is in one.
pub fn moves_are_whole()
    ensures { (old new : List Point) → All IsOnCircle old → All IsOnCircle new → AreMoves old new (moves_of old new) }
{}

/// The definitions compute: worked arcs and moves.
pub fn examples_compute()
    ensures arcs_opposite { ArcsOpposite }
    ensures moves_opposite { MovesOpposite }
    ensures moves_tied { MovesTied }
    ensures moves_first { MovesFirst }
    ensures arcs_last { ArcsLast }
    ensures moves_last { MovesLast }
{}
