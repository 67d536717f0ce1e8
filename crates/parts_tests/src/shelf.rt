//! The shelf that keeps snapshots for their new owners, in a form that any one refusal of an allocation leaves true: what is refused
//! has changed nothing, and made again it gives its result. `rt try --test --fail-alloc N` refuses each test its Nth allocation.
use crate::made::{NEXT, OWNER, page, range, snapshot};
use crate::samples::silo;
use membership_view::{View, Views};
use ring_range::RingRange;
use seal_snapshot::{Page, Shelf, ShelfAnswer, Snapshot};
use silo_address::SiloAddress;
use std::alloc::Global;
use std::process::Abort;

const OTHER: &str = "10.0.0.3:1000@1";

// Three silos join, and the last one dies.
fn views(rt: &impl Abort, alloc: Global) -> Views {
    let mut views = Views::new(alloc, 256);
    for text in &[OWNER, NEXT, OTHER] {
        let silo = silo(rt, *text);
        if views.join(silo).is_err() {
            views.join(silo).expect(rt, "memory");
        }
    }
    let dead = silo(rt, OTHER);
    if views.declare_dead(&dead).is_err() {
        views.declare_dead(&dead).expect(rt, "memory");
    }
    views
}

// A view in which OTHER is Dead, of version 4.
fn view(rt: &impl Abort, alloc: Global) -> View {
    let views = views(rt, alloc);
    let view = match views.view(alloc, 4) {
        Ok(view) => view,
        Err(_) => views.view(alloc, 4).expect(rt, "memory"),
    };
    view.expect(rt, "the version")
}

// The snapshot alone, in a list.
fn alone(rt: &impl Abort, alloc: Global, snapshot: Snapshot) -> Vec<Snapshot> {
    let mut list = match Vec::with_capacity(alloc, 1) {
        Ok(list) => list,
        Err(_) => Vec::with_capacity(alloc, 1).expect(rt, "memory"),
    };
    list.push(snapshot).expect(rt, "room");
    list
}

// The shelf sees the view, at which the snapshot is sealed.
fn see(rt: &impl Abort, alloc: Global, shelf: &mut Shelf, view: &View, snapshot: Snapshot) {
    let sealed = alone(rt, alloc, snapshot);
    assert!(rt; shelf.takes(&sealed));
    let room = match shelf.room(alloc, &sealed) {
        Ok(room) => room,
        Err(_) => shelf.room(alloc, &sealed).expect(rt, "memory"),
    };
    shelf.sight(room, view, sealed);
}

// A snapshot of 65 entries for NEXT, and then one of one entry for OTHER.
fn shelf_of_two(rt: &impl Abort, alloc: Global, view: &View) -> Shelf {
    let mut shelf = Shelf::new(alloc);
    see(
        rt,
        alloc,
        &mut shelf,
        view,
        snapshot(rt, alloc, (3, 0, NEXT), 65),
    );
    see(
        rt,
        alloc,
        &mut shelf,
        view,
        snapshot(rt, alloc, (3, 5_000, OTHER), 1),
    );
    shelf
}

// Whether this is the second page that the asker gets of version 3.
fn answers(
    alloc: Global,
    shelf: &Shelf,
    range: &RingRange,
    asker: &SiloAddress,
    want: &Page,
) -> bool {
    match shelf.answer(alloc, 3, 3, range, asker, 1) {
        Ok(ShelfAnswer::Page(page)) => page.same(want),
        Ok(_) => false,
        Err(_) => false,
    }
}

#[test]
fn a_page_is_asked_for(rt: HostRuntime) {
    let alloc = rt.alloc();
    let shelf = shelf_of_two(&rt, alloc, &view(&rt, alloc));
    let want = page(&rt, alloc, &snapshot(&rt, alloc, (3, 0, NEXT), 65), 1);
    let (range, asker) = (range(&rt, 0), silo(&rt, NEXT));
    assert!(rt;
        answers(alloc, &shelf, &range, &asker, &want)
            || answers(alloc, &shelf, &range, &asker, &want)
    );
}

// Whether the digest that a page tells is kept.
fn is_kept(alloc: Global, shelf: &mut Shelf, range: &RingRange, asker: &SiloAddress) -> bool {
    if let Ok(ShelfAnswer::Page(page)) = shelf.answer(alloc, 3, 3, range, asker, 1) {
        shelf.keep_digest(3, range, asker, page.digest());
        return shelf.keeps_digest(3, range, asker);
    }
    false
}

// A digest that is kept changes no answer, and a shelf that has it is the same.
#[test]
fn a_digest_is_kept(rt: HostRuntime) {
    let alloc = rt.alloc();
    let mut shelf = shelf_of_two(&rt, alloc, &view(&rt, alloc));
    let want = page(&rt, alloc, &snapshot(&rt, alloc, (3, 0, NEXT), 65), 1);
    let (range, asker) = (range(&rt, 0), silo(&rt, NEXT));
    let copy = copy_of(&rt, &shelf);
    assert!(rt; !shelf.keeps_digest(3, &range, &asker));
    assert!(rt;
        is_kept(alloc, &mut shelf, &range, &asker) || is_kept(alloc, &mut shelf, &range, &asker)
    );
    assert!(rt;
        answers(alloc, &shelf, &range, &asker, &want)
            || answers(alloc, &shelf, &range, &asker, &want)
    );
    assert!(rt; shelf.same(&copy));
}

// Whether there is a snapshot for the asker, until it has it whole.
fn is_done(shelf: &mut Shelf, range: &RingRange, asker: &SiloAddress) -> bool {
    shelf.has(3, range, asker)
        && shelf.done(3, range, asker)
        && !shelf.done(3, range, asker)
        && shelf.snapshots().len() == 1
}

#[test]
fn done_deletes_one(rt: HostRuntime) {
    let mut shelf = shelf_of_two(&rt, rt.alloc(), &view(&rt, rt.alloc()));
    shelf.in_order();
    assert!(rt; is_done(&mut shelf, &range(&rt, 0), &silo(&rt, NEXT)));
}

fn copy_of(rt: &impl Abort, shelf: &Shelf) -> Shelf {
    match shelf.copy() {
        Ok(copy) => copy,
        Err(_) => shelf.copy().expect(rt, "memory"),
    }
}

// Whether the shelf has the two snapshots of these versions.
fn has_two(shelf: &Shelf, first: u64, second: u64) -> bool {
    let snapshots = shelf.snapshots();
    snapshots.len() == 2 && snapshots[0].version() == first && snapshots[1].version() == second
}

// What is for a silo that is Dead in the view goes, and the new snapshot comes behind the rest.
#[test]
fn sights_and_skips(rt: HostRuntime) {
    let alloc = rt.alloc();
    let view = view(&rt, alloc);
    let mut shelf = shelf_of_two(&rt, alloc, &view);
    let copy = copy_of(&rt, &shelf);
    see(
        &rt,
        alloc,
        &mut shelf,
        &view,
        snapshot(&rt, alloc, (4, 7_000, NEXT), 2),
    );
    assert!(rt; has_two(&copy, 3, 3) && has_two(&shelf, 3, 4) && !shelf.same(&copy));
    shelf.skip();
    assert!(rt; shelf.snapshots().is_empty());
}
