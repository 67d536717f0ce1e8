use crate::ranges::are_ranges;
use crate::samples::{A, B, C, grain, join_at, no_silos, range, ring_now, silo, view};
use hash_ring::{Hashing, Places, Point, Ring, hash_text, laws};
use membership_view::{View, Views};
use range_moves::{Move, moves};
use ring_range::RingRange;
use silo_address::SiloAddress;
use std::alloc::Global;
use std::process::Abort;

fn point(rt: &impl Abort, place: u32, text: &str, index: usize) -> Point {
    Point {
        place,
        silo: silo(rt, text),
        index,
    }
}

// From outside: `int.from_bytes(hashlib.sha256(text).digest()[:4], "big")` of Python's hashlib.
const TEXTS: [(&str, u32); 6] = [
    ("abc", 3128432319),
    ("", 3820012610),
    ("10.0.0.1:1000@1#0", 2737053158),
    ("10.0.0.1:1000@1#127", 2909769735),
    ("user/ann", 2800080252),
    (
        "aaaaaaaaaaaaaaaaaaaaaaaaaaaaaaaaaaaaaaaaaaaaaaaaaaaaaaaaaaaaaaaa",
        4292891902,
    ),
];

#[test]
fn hashes_of_texts(rt: HostRuntime) {
    for (text, hash) in &TEXTS {
        assert!(rt; hash_text(text.as_bytes()) == *hash, "{text}");
    }
}

// The hashes of texts as above; a key that states a hash has it under `Stated` alone.
const GRAINS: [(Hashing, &str, u32); 5] = [
    (Hashing::Sha256, "user/ann#7", 1116218512),
    (Hashing::Stated, "user/bob#3000000000", 3000000000),
    (Hashing::Stated, "user/ann", 2800080252),
    (Hashing::Stated, "user/ann#07", 129408469),
    (Hashing::Stated, "user/ann#4294967296", 3522887990),
];

#[test]
fn hashes_of_grains(rt: HostRuntime) {
    for (hashing, text, hash) in &GRAINS {
        assert!(rt; hashing.hash_grain(&grain(&rt, text)) == *hash, "{text}");
    }
    assert!(rt; Hashing::Stated.same(&Hashing::Stated.copy()));
}

// The number by which a silo with these places is refused, if it is.
fn refusal(places: &mut Places, silo: SiloAddress, given: &[u32]) -> Option<u16> {
    match places.add(silo, given) {
        Ok(()) => None,
        Err(refusal) => refusal.number(),
    }
}

// The silo is refused with too many places and with none, added with as many as it may have, and then not added again.
fn adds(places: &mut Places, silo: SiloAddress, most: &[u32], more: &[u32]) -> bool {
    refusal(places, silo, more) == Some(402)
        && refusal(places, silo, &[]) == Some(403)
        && refusal(places, silo, most).is_none()
        && refusal(places, silo, &[1]) == Some(404)
}

// What is told of the places.
fn tells(places: &Places, silo: &SiloAddress, given: &[u32]) -> bool {
    places.is_added(silo)
        && places.of(silo) == Some(given)
        && places.points() == 128
        && places.hashing() == Hashing::Stated
}

#[test]
fn silos_added_and_refused(rt: HostRuntime) {
    let mut places = Places::new(rt.alloc(), Hashing::Stated, 128).expect(&rt, "128 points");
    let (silo, most) = (silo(&rt, A), [7; 128]);
    assert!(rt; adds(&mut places, silo, &most, &[7; 129]) && tells(&places, &silo, &most));
    places.whole();
}

// Whether a copy of places without silos is the same until a silo is added, and when it is taken out.
fn is_copied(places: &mut Places, silo: SiloAddress) -> bool {
    let Ok(empty) = places.copy() else {
        return false;
    };
    let is_other = refusal(places, silo, &[7]).is_none() && !empty.same(places);
    places.remove(&silo);
    is_other && empty.same(places)
}

#[test]
fn copies_of_places(rt: HostRuntime) {
    let mut places = Places::new(rt.alloc(), Hashing::Stated, 1).expect(&rt, "one point");
    assert!(rt; is_copied(&mut places, silo(&rt, A)));
}

// The ring of B and A, each with three points.
fn hashed_ring(rt: &impl Abort, alloc: Global) -> Ring {
    let mut views = Views::new(alloc, 2);
    let mut places = Places::new(alloc, Hashing::Sha256, 3).expect(rt, "three points");
    join_at(rt, &mut views, &mut places, silo(rt, B), &[]);
    join_at(rt, &mut views, &mut places, silo(rt, A), &[]);
    ring_now(rt, alloc, &views, &places)
}

// Three points for each of two silos, hashed by Python's hashlib as above and sorted there.
const POINTS: [(u32, &str, usize); 6] = [
    (40231030, B, 0),
    (1434877701, A, 1),
    (2737053158, A, 0),
    (2866218155, B, 2),
    (3641977640, A, 2),
    (3762726298, B, 1),
];

// Whether these are the points.
fn are_points(rt: &impl Abort, points: &[Point], told: &[(u32, &str, usize)]) -> bool {
    for (one, (place, text, index)) in points.iter().zip(told) {
        if !one.same(&point(rt, *place, *text, *index)) {
            return false;
        }
    }
    points.len() == told.len()
}

#[test]
fn hashed_points_in_order(rt: HostRuntime) {
    let ring = hashed_ring(&rt, rt.alloc());
    assert!(rt; are_points(&rt, ring.points(), &POINTS));
    assert!(rt; ring.owner(40231029) == Some(point(&rt, 3762726298, B, 1).copy()));
}

// The ring of B and then A, of those that have places.
fn ring_of_two(rt: &impl Abort, alloc: Global, a: &[u32], b: &[u32]) -> Ring {
    let (mut views, mut places) = no_silos(rt, alloc);
    join_at(rt, &mut views, &mut places, silo(rt, B), b);
    join_at(rt, &mut views, &mut places, silo(rt, A), a);
    ring_now(rt, alloc, &views, &places)
}

const HALF: u32 = 2147483648;

// The places of A and of B, a hash, and the place, silo and index of its owner.
const OWNERS: [(&[u32], &[u32], u32, u32, &str, usize); 6] = [
    (&[0], &[HALF], 2147483647, 0, A, 0),
    (&[0, HALF], &[HALF], 2147483647, 0, A, 0),
    (&[5], &[HALF], 4, HALF, B, 0),
    (&[0, HALF], &[HALF], HALF, HALF, A, 1),
    (&[9, 3, 9], &[9, 9], 9, 9, A, 0),
    (&[3, 9, 9], &[9, 9], 2, 9, A, 1),
];

#[test]
fn owners(rt: HostRuntime) {
    for (a, b, hash, place, text, index) in &OWNERS {
        let owner = ring_of_two(&rt, rt.alloc(), *a, *b).owner(*hash);
        assert!(rt; owner == Some(point(&rt, *place, text, *index)), "{hash}");
    }
}

// The places of A and of B.
type Given<'a> = (&'a [u32], &'a [u32]);

// Them, the points of the ring, and the ranges of A and of B.
const RINGS: [(Given<'static>, &[(u32, &str, usize)], &[&str], &[&str]); 3] = [
    (
        (&[0, HALF], &[HALF]),
        &[(0, A, 0), (HALF, A, 1), (HALF, B, 0)],
        &["0+2147483648", "2147483648+2147483648"],
        &[],
    ),
    (
        (&[1073741824], &[3221225472]),
        &[(1073741824, A, 0), (3221225472, B, 0)],
        &["1073741824+2147483648"],
        &["3221225472+2147483648"],
    ),
    (
        (&[5], &[5]),
        &[(5, A, 0), (5, B, 0)],
        &["5+4294967296"],
        &[],
    ),
];

// Whether these are the ranges of the silo.
fn has_ranges(rt: &impl Abort, alloc: Global, ring: &Ring, text: &str, texts: &[&str]) -> bool {
    let ranges = ring.ranges_of(alloc, &silo(rt, text)).expect(rt, "memory");
    are_ranges(rt, &ranges, texts)
}

#[test]
fn points_and_ranges(rt: HostRuntime) {
    for ((a, b), points, of_a, of_b) in &RINGS {
        let ring = ring_of_two(&rt, rt.alloc(), *a, *b);
        assert!(rt; are_points(&rt, ring.points(), *points));
        assert!(rt; has_ranges(&rt, rt.alloc(), &ring, A, *of_a));
        assert!(rt; has_ranges(&rt, rt.alloc(), &ring, B, *of_b));
    }
}

#[test]
fn nobody_owns_without_points(rt: HostRuntime) {
    assert!(rt; Ring::empty(rt.alloc()).owner(0).is_none());
}

fn is_range(range: &RingRange, start: u32, size: u64) -> bool {
    range.start() == start && range.size() == size
}

// Whether these are the ranges of both silos, of which this is the second one.
fn are_owned(owned: &[(RingRange, SiloAddress)], second: &SiloAddress) -> bool {
    owned.len() == 3 && is_range(&owned[1].0, 20, 3999999980) && owned[1].1 == *second
}

// Of two points at one place the first by silo has the range, and the last range goes round to the first place.
#[test]
fn ranges_with_their_owners(rt: HostRuntime) {
    let ring = ring_of_two(&rt, rt.alloc(), &[4000000000, 10], &[20, 10]);
    let owned = ring.owned_ranges(rt.alloc()).expect(&rt, "memory");
    assert!(rt; are_owned(&owned, &silo(&rt, B)));
    let texts = ["10+10", "4000000000+294967306"];
    assert!(rt; has_ranges(&rt, rt.alloc(), &ring, A, &texts));
}

// The ring of one view, advanced to the next.
fn advanced(rt: &impl Abort, alloc: Global, earlier: &View, now: &View, places: &Places) -> Ring {
    let mut ring = Ring::anew(alloc, earlier, places).expect(rt, "a ring");
    ring.advance(now, places).expect(rt, "the next view");
    ring
}

// B at 5; A joins at 5; then A leaves, a third silo joins, and B dies.
fn five_changes(rt: &impl Abort, alloc: Global) -> (Views, Places) {
    let (mut views, mut places) = no_silos(rt, alloc);
    join_at(rt, &mut views, &mut places, silo(rt, B), &[5]);
    join_at(rt, &mut views, &mut places, silo(rt, A), &[5]);
    views.leave(&silo(rt, A)).expect(rt, "A is Active");
    join_at(rt, &mut views, &mut places, silo(rt, C), &[9, 1, 5]);
    views.declare_dead(&silo(rt, B)).expect(rt, "B is Active");
    (views, places)
}

// The ring of a version, made anew and advanced to from the version before.
fn check_ring(rt: &impl Abort, alloc: Global, views: &Views, places: &Places, version: u64) {
    let now = view(rt, alloc, views, version);
    let anew = Ring::anew(alloc, &now, places).expect(rt, "a ring");
    let earlier = view(rt, alloc, views, version.saturating_sub(1));
    let ring = advanced(rt, alloc, &earlier, &now, places);
    ring.whole();
    assert!(rt; ring.same(&anew) && ring.version() == version, "{version}");
}

#[test]
fn a_ring_advances(rt: HostRuntime) {
    let (views, places) = five_changes(&rt, rt.alloc());
    for version in 1..=5u64 {
        check_ring(&rt, rt.alloc(), &views, &places, version);
    }
}

// A version, the points of its ring, and who had the whole circle before and who has it now.
type Step<'a> = (u64, &'a [(u32, &'a str, usize)], &'a str, &'a str);

// A comes to the place of B, and goes.
const STEPS: [Step<'static>; 2] = [(2, &[(5, A, 0), (5, B, 0)], B, A), (3, &[(5, B, 0)], A, B)];

// The ring that is advanced to the version, and what changes hands by it.
fn check_step(
    rt: &impl Abort,
    alloc: Global,
    (views, places): (&Views, &Places),
    (version, points, from, to): Step<'_>,
) {
    let now = view(rt, alloc, views, version);
    let earlier = view(rt, alloc, views, version.saturating_sub(1));
    let old = Ring::anew(alloc, &earlier, places).expect(rt, "a ring");
    let ring = advanced(rt, alloc, &earlier, &now, places);
    assert!(rt; are_points(rt, ring.points(), points));
    let moved = [Move {
        range: range(rt, "5+4294967296"),
        from: Some(silo(rt, from)),
        to: silo(rt, to),
    }];
    let found = moves(alloc, &old, &ring).expect(rt, "memory");
    assert!(rt; found.as_slice() == moved.as_slice());
}

#[test]
fn moves_of_a_ring_that_advances(rt: HostRuntime) {
    let (views, places) = five_changes(&rt, rt.alloc());
    for step in STEPS {
        check_step(&rt, rt.alloc(), (&views, &places), step);
    }
}

#[test]
fn a_ring_is_copied(rt: HostRuntime) {
    let ring = ring_of_two(&rt, rt.alloc(), &[5], &[6]);
    let copy = ring.copy().expect(&rt, "memory");
    assert!(rt; copy.same(&ring));
}

#[test]
fn the_laws_are_calls(_rt: HostRuntime) {
    laws::distances_back();
    laws::points_of_views();
    laws::rings_sorted_anew();
    laws::owners_are_nearest();
    laws::definitions_compute();
}
