use crate::samples::{A, B, C, join_at, no_silos, range, ring_now, silo};
use hash_ring::Ring;
use range_moves::{Move, RingArc, arcs, laws, moves};
use silo_address::SiloAddress;
use std::alloc::Global;
use std::process::Abort;

// The text where there is no silo.
const NONE: &str = "";

fn owner(rt: &impl Abort, text: &str) -> Option<SiloAddress> {
    if text == NONE {
        return None;
    }
    Some(silo(rt, text))
}

// The ring of silos that joined, each with its places.
fn ring(rt: &impl Abort, alloc: Global, joined: &[(&str, &[u32])]) -> Ring {
    let (mut views, mut places) = no_silos(rt, alloc);
    for (text, given) in joined {
        join_at(rt, &mut views, &mut places, silo(rt, text), given);
    }
    ring_now(rt, alloc, &views, &places)
}

// What is told of a range: its text, and its owners before and after.
type Told<'a> = (&'a str, &'a str, &'a str);

struct Row<'a> {
    old: &'a [(&'a str, &'a [u32])],
    new: &'a [(&'a str, &'a [u32])],
    arcs: &'a [Told<'a>],
    moves: &'a [Told<'a>],
}

fn told_arc(rt: &impl Abort, told: &Told<'_>) -> RingArc {
    RingArc {
        range: range(rt, told.0),
        from: owner(rt, told.1),
        to: owner(rt, told.2),
    }
}

fn told_move(rt: &impl Abort, told: &Told<'_>) -> Move {
    Move {
        range: range(rt, told.0),
        from: owner(rt, told.1),
        to: silo(rt, told.2),
    }
}

// Whether these are the arcs.
fn are_arcs(rt: &impl Abort, found: &[RingArc], wanted: &[Told<'_>]) -> bool {
    for (arc, told) in found.iter().zip(wanted) {
        if !arc.same(&told_arc(rt, told)) {
            return false;
        }
    }
    found.len() == wanted.len()
}

// Whether these are the moves.
fn are_moves(rt: &impl Abort, found: &[Move], wanted: &[Told<'_>]) -> bool {
    for (one, told) in found.iter().zip(wanted) {
        if !one.same(&told_move(rt, told)) {
            return false;
        }
    }
    found.len() == wanted.len()
}

fn check_row(rt: &impl Abort, alloc: Global, row: &Row<'_>) {
    let (old, new) = (ring(rt, alloc, row.old), ring(rt, alloc, row.new));
    let found = arcs(alloc, &old, &new).expect(rt, "memory");
    assert!(rt; are_arcs(rt, &found, row.arcs));
    let moved = moves(alloc, &old, &new).expect(rt, "memory");
    assert!(rt; are_moves(rt, &moved, row.moves));
}

// Two rings, the arcs between them, and which of those change hands.
const TABLE: [Row<'static>; 7] = [
    // A silo joins opposite another one.
    Row {
        old: &[(A, &[1073741824])],
        new: &[(A, &[1073741824]), (B, &[3221225472])],
        arcs: &[
            ("1073741824+2147483648", A, A),
            ("3221225472+2147483648", A, B),
        ],
        moves: &[("3221225472+2147483648", A, B)],
    },
    // Nothing changes.
    Row {
        old: &[(A, &[9, 4]), (B, &[8])],
        new: &[(A, &[9, 4]), (B, &[8])],
        arcs: &[("4+4", A, A), ("8+1", B, B), ("9+4294967291", A, A)],
        moves: &[],
    },
    // A silo has points elsewhere, but owns the same.
    Row {
        old: &[(A, &[1, 2])],
        new: &[(A, &[2, 3, 3])],
        arcs: &[("1+1", A, A), ("2+1", A, A), ("3+4294967294", A, A)],
        moves: &[],
    },
    // Of two at one place the first by address owns.
    Row {
        old: &[(A, &[10, 20]), (B, &[20, 30])],
        new: &[(B, &[20, 30])],
        arcs: &[("10+10", A, B), ("20+10", A, B), ("30+4294967276", B, B)],
        moves: &[("10+10", A, B), ("20+10", A, B)],
    },
    // The first place is another silo's than the hashes before it.
    Row {
        old: &[(A, &[100]), (B, &[4294967290])],
        new: &[(A, &[100]), (B, &[4294967290]), (C, &[5])],
        arcs: &[
            ("5+95", B, C),
            ("100+4294967190", A, A),
            ("4294967290+11", B, B),
        ],
        moves: &[("5+95", B, C)],
    },
    // The lowest place and the highest.
    Row {
        old: &[(A, &[0])],
        new: &[(B, &[4294967295])],
        arcs: &[("0+4294967295", A, B), ("4294967295+1", A, B)],
        moves: &[("0+4294967295", A, B), ("4294967295+1", A, B)],
    },
    // Places of one ring after those of the other.
    Row {
        old: &[(A, &[1]), (B, &[2])],
        new: &[(B, &[3]), (C, &[4])],
        arcs: &[
            ("1+1", A, C),
            ("2+1", B, C),
            ("3+1", B, B),
            ("4+4294967293", B, C),
        ],
        moves: &[("1+1", A, C), ("2+1", B, C), ("4+4294967293", B, C)],
    },
];

#[test]
fn arcs_and_moves_between_rings(rt: HostRuntime) {
    for row in &TABLE {
        check_row(&rt, rt.alloc(), row);
    }
}

#[test]
fn one_arc_and_its_move(rt: HostRuntime) {
    let arc = told_arc(&rt, &("3+4", A, B));
    let wanted = told_move(&rt, &("3+4", A, B));
    assert!(rt; wanted.copy().same(&wanted) && arc.copy().moved() == Some(wanted));
}

#[test]
fn the_laws_are_calls(_rt: HostRuntime) {
    laws::arcs_are_whole();
    laws::one_place_is_one_arc();
    laws::moves_are_whole();
    laws::examples_compute();
}
