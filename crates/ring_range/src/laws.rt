//! Laws of the definitions, for proofs about ranges: each function does nothing, and its clauses state a law.

ghost use Rattle.std.specs.Prelude.{◌≡◌, ℕ, ◌+◌, ◌-◌, ◌%◌, ◌<◌, ◌≤◌, ◌&&◌, ◌↔◌, IsTrue, All, List, [], ◌∷◌, codes, true, false, Ok, Err};
ghost use Rattle.std.specs.List.{list_any};
ghost use Rattle.ring_range.specs.Range.{circle, IsRange, EachHash, EachRange, EachTwo, holds, Holds, within, IsWithin, distance, ahead, part_of};
ghost use Rattle.ring_range.specs.Meet.{meet_of, AreCommon, AreApart, AreFewest, AreNearerFirst, AreAbsentAtStart};
ghost use Rattle.ring_range.specs.Cut.{cut_parts, IsCut};
ghost use Rattle.ring_range.specs.Text.{range_text, read_range};
ghost use Rattle.ring_range.specs.Error.{number_of};
ghost use Rattle.ring_range.specs.declared.range.RangeError.TheVariants.{TooLarge};
ghost use Rattle.ring_range.specs.declared.text.RangeTextError.TheVariants.{Shape, NotANumber, OutOfRange};

/// `distance` is the difference round the circle, and `ahead` the sum.
pub fn steps_are_differences()
    ensures distance { EachHash (λ place. EachHash (λ hash. distance place hash ≡ (hash + circle - place) % circle)) }
    ensures ahead { EachHash (λ place. (steps : ℕ) → steps ≤ circle → ahead place steps ≡ (place + steps) % circle) }
    ensures there { EachHash (λ place. EachHash (λ hash. ahead place (distance place hash) ≡ hash)) }
    ensures back { EachHash (λ place. EachHash (λ steps. distance place (ahead place steps) ≡ steps)) }
{}

/// The test `holds` tells the set of hashes that a range is.
pub fn holds_is_membership()
    ensures { EachRange (λ range. EachHash (λ hash. IsTrue (holds range hash) ↔ Holds range hash)) }
{}

/// The test `within` tells inclusion.
pub fn within_is_inclusion()
    ensures { EachTwo (λ inner outer. IsTrue (within inner outer) ↔ IsWithin inner outer) }
{}

/// `meet_of` is the intersection, in as few parts as there can be, nothing twice, in order.
pub fn meet_of_is_the_meet()
    ensures common { EachTwo (λ this other. AreCommon this other (meet_of this other)) }
    ensures apart { EachTwo (λ this other. AreApart (meet_of this other)) }
    ensures fewest { EachTwo (λ this other. AreFewest this other (meet_of this other)) }
    ensures nearer_first { EachTwo (λ this other. AreNearerFirst this (meet_of this other)) }
    ensures absent { EachTwo (λ this other. AreAbsentAtStart this (meet_of this other)) }
    ensures ranges { EachTwo (λ this other. All IsRange (meet_of this other)) }

    // The same by the tests: a hash is in one of the parts where it is in both ranges.
    ensures held { EachTwo (λ this other. EachHash (λ hash.
        list_any (λ part. holds part hash) (meet_of this other) ≡ (holds this hash && holds other hash))) }
{}

/// `cut_parts` is the range, cut at the places.
pub fn cut_parts_is_a_cut()
    ensures cut { EachRange (λ range. (places : List ℕ) → All (λ place. place < circle) places →
        IsCut range places (cut_parts range places)) }
    ensures ranges { EachRange (λ range. (places : List ℕ) → All IsRange (cut_parts range places)) }
{}

/// One example of each definition, which computes.
pub fn examples_compute()
    ensures distance { distance 4294967290 3 ≡ 9 }
    ensures ahead { ahead 4294967290 9 ≡ 3 }
    ensures holds { holds (record { start = 4294967290; size = 10 }) 3 ≡ true }
    ensures within { within (record { start = 4294967290; size = 10 }) (record { start = 4294967280; size = 19 }) ≡ false }
    ensures part_of { part_of (record { start = 4294967290; size = 10 }) 7 9 ≡ record { start = 1; size = 2 } }
    ensures meet_of { meet_of (record { start = 4; size = 6 }) (record { start = 8; size = 4294967294 })
        ≡ record { start = 4; size = 2 } ∷ record { start = 8; size = 2 } ∷ [] }
    ensures cut_parts { cut_parts (record { start = 4294967290; size = 10 }) (1 ∷ 90 ∷ 4294967293 ∷ 1 ∷ [])
        ≡ record { start = 4294967290; size = 3 } ∷ record { start = 4294967293; size = 4 } ∷ record { start = 1; size = 3 } ∷ [] }
    ensures range_text { range_text (record { start = 20; size = 3 }) ≡ codes "20+3" }
    ensures read_range { read_range (codes "20+3") ≡ Ok (record { start = 20; size = 3 }) }
    ensures shape { read_range (codes "20+") ≡ Err Shape }
    ensures not_a_number { read_range (codes "02+3") ≡ Err NotANumber }
    ensures out_of_range { read_range (codes "2+4294967297") ≡ Err OutOfRange }
    ensures number_of { number_of TooLarge ≡ 301 }
{}
