//! What a silo keeps for others: its pieces, what a sight does to them and seals, and the requests that it serves from them. Each
//! call that needs memory stands in a form that any one refusal of an allocation leaves true: what is refused has changed
//! nothing, and made again it gives its result. `rt try --test --fail-alloc N` refuses each test its Nth allocation.
ghost use Rattle.std.specs.Prelude.{IfOk};
ghost use Rattle.grain_partition.specs.Sight.{AreOfRings};

use crate::made::short;
use crate::samples::{A, B, C, MANY, declare_dead, entry, grain, join, joined, range, silo, view};
use crate::tables::{is_reply, put};
use directory_rules::{Act, PieceState, Reply, Request};
use grain_partition::{ArcsBySilo, Holding, Piece};
use grain_table::{HashedRequest, Table};
use hash_ring::{Hashing, Places, Ring};
use membership_view::View;
use range_moves::{RingArc, arcs};
use ring_range::RingRange;
use seal_snapshot::Snapshot;
use silo_address::{Entry, SiloAddress};
use std::alloc::{AllocError, Global};
use std::process::Abort;

// A has a point at 10, B one at 100, C one at 200.
fn places(rt: &impl Abort, alloc: Global) -> Places {
    let mut places = Places::new(alloc, Hashing::Stated, 1).expect(rt, "places");
    for (text, place) in &[(A, 10u32), (B, 100), (C, 200)] {
        let (silo, given) = (silo(rt, *text), [*place]);
        if places.add(silo, &given).is_err() {
            places.add(silo, &given).expect(rt, "memory");
        }
    }
    places
}

// Version 1 and 2: A joins, then B. In version 3 B is dead, and in version 4 C has joined.
fn view_of(rt: &impl Abort, alloc: Global, version: u64) -> View {
    let mut views = joined(rt, alloc, &[A, B]);
    declare_dead(rt, &mut views, B);
    join(rt, &mut views, C);
    view(rt, alloc, &views, version)
}

fn ring(rt: &impl Abort, alloc: Global, version: u64) -> Ring {
    let (view, places) = (view_of(rt, alloc, version), places(rt, alloc));
    match Ring::anew(alloc, &view, &places) {
        Ok(ring) => ring,
        Err(_) => Ring::anew(alloc, &view, &places).expect(rt, "memory"),
    }
}

fn between(alloc: Global, old: &Ring, new: &Ring) -> Result<ArcsBySilo, AllocError>
    ensures { IfOk result (λ between. AreOfRings between) }
{
    let between = arcs(alloc, old, new)?;
    ArcsBySilo::of(alloc, between)
}

// The arcs from the ring of the version before to that of this one.
fn arcs_to(rt: &impl Abort, alloc: Global, version: u64) -> ArcsBySilo
    ensures { AreOfRings result }
{
    let (old, new) = (
        ring(rt, alloc, version.saturating_sub(1)),
        ring(rt, alloc, version),
    );
    match between(alloc, &old, &new) {
        Ok(arcs) => arcs,
        Err(_) => between(alloc, &old, &new).expect(rt, "memory"),
    }
}

fn copy_of(rt: &impl Abort, holding: &Holding) -> Holding {
    match holding.copy() {
        Ok(copy) => copy,
        Err(_) => holding.copy().expect(rt, "memory"),
    }
}

// Whether the silo sees the next view, at first or behind a refusal that leaves the holding as it was.
fn sees(
    alloc: Global,
    holding: &mut Holding,
    before: &Holding,
    view: &View,
    silo: &SiloAddress,
    arcs: &ArcsBySilo,
) -> bool
    requires { AreOfRings arcs.now }
{
    let sighted = holding.sight(alloc, true, Hashing::Stated, view, silo, arcs);
    if sighted.is_ok() {
        return true;
    }
    let again = holding.same(before);
    let sighted = holding.sight(alloc, true, Hashing::Stated, view, silo, arcs);
    again && sighted.is_ok()
}

// A, which has seen a version, sees the next one.
fn see(rt: &impl Abort, alloc: Global, holding: &mut Holding, version: u64) {
    let before = copy_of(rt, holding);
    let (arcs, view) = (arcs_to(rt, alloc, version), view_of(rt, alloc, version));
    assert!(rt; sees(alloc, holding, &before, &view, &silo(rt, A), &arcs));
}

fn table(rt: &impl Abort, alloc: Global, grains: &[&str]) -> Table {
    let mut entries = Table::new(alloc, Hashing::Stated);
    for grain in grains {
        put(rt, &mut entries, &entry(rt, (grain, A, 1)));
    }
    entries
}

// The piece of the range is settled, and has these entries.
fn settle(rt: &impl Abort, holding: &mut Holding, text: &str, entries: Table) {
    let range = range(rt, text);
    assert!(rt; holding.has_piece(&range));
    holding.install(range, entries);
}

const ANN: &str = "user/ann#50";

const BOB: &str = "user/bob#70";

// A at version 1, where it has the whole circle, with the grains.
fn alone(rt: &impl Abort, alloc: Global, grains: &[&str]) -> Holding {
    let mut holding = Holding::new(alloc);
    see(rt, alloc, &mut holding, 1);
    settle(rt, &mut holding, "10+4294967296", table(rt, alloc, grains));
    holding
}

// Whether there is just this piece, settled, with so many entries.
fn has_only(holding: &Holding, range: &RingRange, count: usize) -> bool {
    match holding.piece_at(range.start()) {
        Some(piece) => is_settled(piece, range, count) && holding.pieces().count() == 1,
        None => false,
    }
}

fn is_settled(piece: &Piece, range: &RingRange, count: usize) -> bool {
    piece.range() == *range
        && piece.state() == PieceState::Settled
        && piece.entries().len() == count
}

// What A gets where B was is a second piece. At version 4 both are one, which ends where C has its point.
#[test]
fn a_sight_joins(rt: HostRuntime) {
    let alloc = rt.alloc();
    let mut holding = Holding::new(alloc);
    see(&rt, alloc, &mut holding, 2);
    settle(&rt, &mut holding, "10+90", table(&rt, alloc, &[ANN, BOB]));
    see(&rt, alloc, &mut holding, 3);
    let second = table(&rt, alloc, &["user/eve#5", "user/zoe#150"]);
    settle(&rt, &mut holding, "100+4294967206", second);
    see(&rt, alloc, &mut holding, 4);
    assert!(rt; has_only(&holding, &range(&rt, "10+190"), 3) && holding.seen() == 4);
}

// At version 2 B gets what comes from 100 on, and A keeps what is left of its piece.
#[test]
fn a_sight_cuts(rt: HostRuntime) {
    let alloc = rt.alloc();
    let mut holding = alone(&rt, alloc, &[ANN, BOB, "user/zoe#150"]);
    see(&rt, alloc, &mut holding, 2);
    assert!(rt; has_only(&holding, &range(&rt, "10+90"), 2));
}

// Whether a sight will leave just this piece, settled and told without its entries.
fn tells(
    alloc: Global,
    holding: &Holding,
    view: &View,
    silo: &SiloAddress,
    arcs: &ArcsBySilo,
    range: &RingRange,
) -> bool
    requires { AreOfRings arcs.now }
{
    let Ok(told) = holding.pieces_seen(alloc, true, Hashing::Stated, view, silo, arcs) else {
        return false;
    };
    match told.get(&range.start()) {
        Some(piece) => is_settled(piece, range, 0) && told.len() == 1,
        None => false,
    }
}

#[test]
fn pieces_are_told_before_a_sight(rt: HostRuntime) {
    let alloc = rt.alloc();
    let holding = alone(&rt, alloc, &[ANN]);
    let (arcs, view) = (arcs_to(&rt, alloc, 2), view_of(&rt, alloc, 2));
    let (silo, range) = (silo(&rt, A), range(&rt, "10+90"));
    assert!(rt;
        tells(alloc, &holding, &view, &silo, &arcs, &range)
            || tells(alloc, &holding, &view, &silo, &arcs, &range)
    );
}

fn arc(rt: &impl Abort, text: &str, from: &str, to: &str) -> RingArc {
    RingArc {
        range: range(rt, text),
        from: Some(silo(rt, from)),
        to: Some(silo(rt, to)),
    }
}

fn try_listed(alloc: Global, arcs: &[RingArc]) -> Result<ArcsBySilo, AllocError> {
    let arcs: Vec<RingArc> = arcs.iter().copied().collect(alloc)?;
    ArcsBySilo::of(alloc, arcs)
}

// C gets 60+40 from A, and the rest from B.
fn arcs_to_c(rt: &impl Abort, alloc: Global) -> ArcsBySilo {
    let arcs = [
        arc(rt, "10+50", A, A),
        arc(rt, "60+40", A, C),
        arc(rt, "100+4294967206", B, C),
    ];
    match try_listed(alloc, &arcs) {
        Ok(listed) => listed,
        Err(_) => try_listed(alloc, &arcs).expect(rt, "memory"),
    }
}

// Whether the silo seals just the wanted snapshot.
fn seals(
    alloc: Global,
    holding: &Holding,
    view: &View,
    arcs: &ArcsBySilo,
    want: &Snapshot,
) -> bool {
    match holding.seal(alloc, Hashing::Stated, view, &want.from(), arcs) {
        Ok(sealed) => sealed.len() == 1 && sealed[0].same(want),
        Err(_) => false,
    }
}

// What is hashed elsewhere stays, and so does what is on B, which is dead.
#[test]
fn a_sight_seals(rt: HostRuntime) {
    let alloc = rt.alloc();
    let mut entries = table(&rt, alloc, &[ANN, BOB]);
    put(&rt, &mut entries, &entry(&rt, ("user/eve#80", B, 1)));
    let mut holding = alone(&rt, alloc, &[]);
    settle(&rt, &mut holding, "10+4294967296", entries);
    let kept = short(&rt, alloc, &[entry(&rt, (BOB, A, 1))]);
    let (silo, other) = (silo(&rt, A), silo(&rt, C));
    let want = Snapshot::seal(4, range(&rt, "60+40"), silo, other, kept);
    check_sealed(&rt, alloc, &holding, &want);
}

fn check_sealed(rt: &impl Abort, alloc: Global, holding: &Holding, want: &Snapshot) {
    let (view, arcs) = (view_of(rt, alloc, 4), arcs_to_c(rt, alloc));
    assert!(rt;
        seals(alloc, holding, &view, &arcs, want) || seals(alloc, holding, &view, &arcs, want)
    );
}

// Whether B's request is answered so, and served so at first or behind a refusal that leaves the holding as it was.
fn serves(holding: &mut Holding, before: &Holding, request: &HashedRequest, want: &Reply) -> bool {
    holding.answer(request).same(want)
        && (is_reply(holding.serve(request), want)
            || (holding.same(before) && is_reply(holding.serve(request), want)))
}

fn register(rt: &impl Abort, holding: &mut Holding, number: u64, text: &str, hash: u32) {
    let before = copy_of(rt, holding);
    let entry = &entry(rt, (text, B, 1));
    let act = Act::Register {
        entry: *entry,
        previous: None,
    };
    let request = Request {
        sender: silo(rt, B),
        version: 1,
        number,
        hash,
        act,
    };
    let request = HashedRequest::claimed(request);
    assert!(rt; serves(holding, &before, &request, &Reply::Registered(*entry)));
}

// Two requests of one sender, of a piece that has these grains and then so many entries.
fn check_served(rt: &impl Abort, alloc: Global, grains: &[&str], count: usize) {
    let mut holding = alone(rt, alloc, grains);
    register(rt, &mut holding, 1, ANN, 50);
    register(rt, &mut holding, 2, BOB, 70);
    assert!(rt; has_only(&holding, &range(rt, "10+4294967296"), count));
}

// The piece needs memory at the first request, whose sender has no number yet.
#[test]
fn a_first_register_is_served(rt: HostRuntime) {
    check_served(&rt, rt.alloc(), &MANY[..15], 17);
}

// It needs memory at the second one, which finds the number of the first.
#[test]
fn a_second_register_is_served(rt: HostRuntime) {
    check_served(&rt, rt.alloc(), &MANY[..14], 16);
}

// Whether the range is settled, with just this entry in it.
fn has_one(holding: &Holding, range: &RingRange, entry: &Entry) -> bool {
    match holding.piece_with(50) {
        Some(piece) => {
            piece.find(&entry.grain) == Some(*entry)
                && holding.is_settled_throughout(range)
                && holding.settled_entries(Hashing::Stated, range) == Ok(Some(1))
        }
        None => false,
    }
}

#[test]
fn a_piece_waits_for_reports(rt: HostRuntime) {
    let mut holding = alone(&rt, rt.alloc(), &[ANN, BOB]);
    holding.whole();
    assert!(rt; has_one(&holding, &range(&rt, "40+20"), &entry(&rt, (ANN, A, 1))));
    let circle = range(&rt, "10+4294967296");
    assert!(rt; holding.has_piece(&circle));
    holding.wait_for_reports(circle);
    assert!(rt; recovers(&holding, &circle));
}

fn recovers(holding: &Holding, range: &RingRange) -> bool {
    match holding.piece_with(50) {
        Some(piece) => {
            piece.state() == PieceState::Recovering
                && piece.entries().len() == 0
                && !holding.is_settled_throughout(range)
                && holding.unsettled_count() == 1
        }
        None => false,
    }
}
