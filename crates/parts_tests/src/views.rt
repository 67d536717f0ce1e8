use crate::samples::{silo, view};
use membership_view::{Joined, MAX_SILOS, Row, Status, View, Views, ViewsError, laws};
use silo_address::SiloAddress;
use std::alloc::Global;
use std::process::Abort;

// Texts of the silos below: an endpoint, its next generations, and two other endpoints.
const A: &str = "10.0.0.1:1000@1";

const A2: &str = "10.0.0.1:1000@2";

const A3: &str = "10.0.0.1:1000@3";

const B: &str = "10.0.0.2:1000@1";

const C: &str = "10.0.0.1:1001@1";

#[derive(Clone, Copy)]
enum Change {
    Join,
    Leave,
    Die,
}

// The version that a change makes, or its refusal.
fn changed(views: &mut Views, change: Change, silo: SiloAddress) -> Result<u64, ViewsError> {
    match change {
        Change::Join => match views.join(silo) {
            Ok(joined) => Ok(joined.version),
            Err(refusal) => Err(refusal),
        },
        Change::Leave => views.leave(&silo),
        Change::Die => views.declare_dead(&silo),
    }
}

// The version that a change makes, or the number by which it is refused.
fn outcome(views: &mut Views, change: Change, silo: SiloAddress) -> Result<u64, u16> {
    match changed(views, change, silo) {
        Ok(version) => Ok(version),
        Err(refusal) => Err(refusal.number().unwrap_or(0)),
    }
}

// Changes of at most four silos, one after another.
const CHANGES: [(Change, &str, Result<u64, u16>); 18] = [
    (Change::Leave, A, Err(202)),
    (Change::Die, A, Err(202)),
    (Change::Join, A2, Ok(1)),
    (Change::Join, A2, Err(201)),
    (Change::Join, A, Err(201)),
    (Change::Join, B, Ok(2)),
    (Change::Leave, A2, Ok(3)),
    (Change::Leave, A2, Err(203)),
    (Change::Die, A2, Ok(4)),
    (Change::Die, A2, Err(204)),
    (Change::Leave, A2, Err(203)),
    (Change::Join, A3, Ok(5)),
    (Change::Join, "10.0.0.2:1000@7", Ok(6)),
    (Change::Die, B, Err(204)),
    // All four have joined: an old generation is told first, and every other join finds no room.
    (Change::Join, B, Err(201)),
    (Change::Join, C, Err(205)),
    (Change::Die, A3, Ok(7)),
    (Change::Join, C, Err(205)),
];

#[test]
fn changes_and_refusals(rt: HostRuntime) {
    let mut views = Views::new(rt.alloc(), 4);
    for (change, text, want) in &CHANGES {
        assert!(rt;
            outcome(&mut views, *change, silo(&rt, text)) == *want,
            "{text}"
        );
    }
    views.whole();
    assert!(rt; has_counts(&views));
}

// By version, what views say that begin with version 7 and go on.
const LATER: [(u64, &str, Option<Status>); 10] = [
    (6, A2, None),
    (7, A2, LEAVING),
    (7, A, DEAD),
    (7, B, ACTIVE),
    (7, C, DEAD),
    (7, A3, None),
    (8, A3, ACTIVE),
    (8, A2, DEAD),
    (8, A, DEAD),
    (9, B, DEAD),
];

// What a view that begins lists, one after the other, and how it is refused.
const LISTED: [(&str, Status, Result<(), u16>); 7] = [
    (A2, Status::Leaving, Ok(())),
    (A2, Status::Leaving, Err(210)),
    (A3, Status::Active, Err(210)),
    (A, Status::Dead, Err(210)),
    (B, Status::Active, Ok(())),
    (C, Status::Dead, Ok(())),
    ("10.0.0.3:1000@1", Status::Dead, Ok(())),
];

// The number by which a silo isn't listed.
fn listed(views: &mut Views, silo: SiloAddress, status: Status) -> Result<(), u16> {
    match views.list(silo, status) {
        Ok(()) => Ok(()),
        Err(refusal) => Err(refusal.number().unwrap_or(0)),
    }
}

// Views that begin with a later version tell what became of its silos from there on.
#[test]
fn views_that_begin_later(rt: HostRuntime) {
    let mut views = Views::beginning(rt.alloc(), 5, 7).expect(&rt, "a version");
    for (text, status, want) in &LISTED {
        assert!(rt;
            listed(&mut views, silo(&rt, text), *status) == *want,
            "{text}"
        );
    }
    assert!(rt; views.first() == 7 && views.current() == 7 && views.is_newest(&silo(&rt, A3)));
    assert!(rt; outcome(&mut views, Change::Join, silo(&rt, A)) == Err(201));
    assert!(rt; outcome(&mut views, Change::Join, silo(&rt, A3)) == Ok(8));
    assert!(rt; outcome(&mut views, Change::Die, silo(&rt, B)) == Ok(9));
    views.whole();
    for (version, text, status) in &LATER {
        let view = view(&rt, rt.alloc(), &views, *version);
        assert!(rt; view.status(&silo(&rt, text)) == *status, "{text}");
    }
    assert!(rt; listed(&mut views, silo(&rt, "10.0.0.4:1000@1"), Status::Dead) == Err(205));
}

// No views begin with version 2^62 or a higher one, and version 0 lists nobody.
#[test]
fn views_that_do_not_begin(rt: HostRuntime) {
    let late = 4_611_686_018_427_387_904;
    assert!(rt; Views::beginning(rt.alloc(), 1, late).is_err());
    assert!(rt; Views::beginning(rt.alloc(), 1, late - 1).is_ok());
    let mut views = Views::new(rt.alloc(), 1);
    assert!(rt; listed(&mut views, silo(&rt, A), Status::Active) == Err(210));
}

// The current version, the limit, and how many silos ever joined.
fn has_counts(views: &Views) -> bool {
    views.current() == 7 && views.limit() == 4 && views.row_count() == 4
}

// Whether the second silo takes the place of the first.
fn replaces(views: &mut Views, first: SiloAddress, second: SiloAddress) -> bool {
    let replaced = Joined {
        version: 2,
        replaced: Some(first),
    };
    views.join(first).is_ok() && views.join(second) == Ok(replaced) && views.is_dead(2, &first)
}

#[test]
fn a_newer_generation_replaces(rt: HostRuntime) {
    let mut views = Views::new(rt.alloc(), MAX_SILOS);
    assert!(rt; replaces(&mut views, silo(&rt, A), silo(&rt, A2)));
}

// Two silos join; the first leaves, and is started again; the second dies.
const FIVE: [(Change, &str); 5] = [
    (Change::Join, A),
    (Change::Join, B),
    (Change::Leave, A),
    (Change::Join, A2),
    (Change::Die, B),
];

fn five_changes(rt: &impl Abort, alloc: Global) -> Views {
    let mut views = Views::new(alloc, 3);
    for (change, text) in &FIVE {
        assert!(rt; changed(&mut views, *change, silo(rt, text)).is_ok());
    }
    views
}

const ACTIVE: Option<Status> = Some(Status::Active);

const LEAVING: Option<Status> = Some(Status::Leaving);

const DEAD: Option<Status> = Some(Status::Dead);

// By version: a silo, and its status.
const STATUSES: [(u64, &str, Option<Status>); 12] = [
    (0, A, None),
    (1, A, ACTIVE),
    (1, B, None),
    (2, B, ACTIVE),
    (3, A, LEAVING),
    (3, A2, None),
    (4, A, DEAD),
    (4, A2, ACTIVE),
    (4, B, ACTIVE),
    (5, A2, ACTIVE),
    (5, B, DEAD),
    (5, C, None),
];

// Whether the silo has the status, by all views and by that of the version.
fn has_status(views: &Views, view: &View, silo: &SiloAddress, status: Option<Status>) -> bool {
    views.status(view.version(), silo) == status && view.status(silo) == status
}

#[test]
fn every_version_stays(rt: HostRuntime) {
    let views = five_changes(&rt, rt.alloc());
    for (version, text, status) in &STATUSES {
        let view = view(&rt, rt.alloc(), &views, *version);
        assert!(rt;
            has_status(&views, &view, &silo(&rt, text), *status),
            "{text}"
        );
    }
}

#[test]
fn versions_of_changes(rt: HostRuntime) {
    let views = five_changes(&rt, rt.alloc());
    let (a, b) = (silo(&rt, A), silo(&rt, B));
    assert!(rt;
        views.joined_at(&a) == Some(1)
            && views.left_at(&a) == Some(3)
            && views.dead_at(&b) == Some(5)
    );
}

const LOWEST: &str = "9.255.255.255:65535@1";

// Four silos, in another order than that of their addresses.
fn four_joins(rt: &impl Abort, alloc: Global) -> Views {
    let mut views = Views::new(alloc, 8);
    for text in &[B, C, A2, LOWEST] {
        assert!(rt; views.join(silo(rt, *text)).is_ok());
    }
    views
}

// Whether the silo has the first row.
fn is_first(views: &Views, silo: &SiloAddress) -> bool {
    match views.rows().next() {
        Some((known, row)) => known == silo && views.row(silo) == Some(*row),
        None => false,
    }
}

#[test]
fn rows_are_in_order(rt: HostRuntime) {
    let views = four_joins(&rt, rt.alloc());
    assert!(rt; is_first(&views, &silo(&rt, LOWEST)));
}

// The last view, in which one silo is Leaving.
fn one_leaves(rt: &impl Abort, alloc: Global) -> View {
    let mut views = four_joins(rt, alloc);
    assert!(rt; views.leave(&silo(rt, C)) == Ok(5));
    view(rt, alloc, &views, 5)
}

#[test]
fn active_silos_are_in_order(rt: HostRuntime) {
    let view = one_leaves(&rt, rt.alloc());
    view.in_order();
    let active = view.active(rt.alloc()).expect(&rt, "memory");
    let want = [silo(&rt, LOWEST), silo(&rt, A2), silo(&rt, B)];
    let third = view.rows().get(2).copied();
    assert!(rt;
        active.as_slice() == want.as_slice() && third == Some((silo(&rt, C), Status::Leaving))
    );
}

// Whether a copy is the same until the silo joins.
fn is_copied(views: &mut Views, silo: SiloAddress) -> bool {
    let Ok(copy) = views.copy() else {
        return false;
    };
    copy.same(views) && views.join(silo).is_ok() && !copy.same(views)
}

fn is_view_copied(view: &View) -> bool {
    match view.copy() {
        Ok(copy) => copy.same(view),
        Err(_) => false,
    }
}

#[test]
fn copies_are_equal(rt: HostRuntime) {
    let mut views = Views::new(rt.alloc(), 3);
    assert!(rt; is_copied(&mut views, silo(&rt, A)));
    assert!(rt; is_view_copied(&view(&rt, rt.alloc(), &views, 1)));
}

#[test]
fn a_row(rt: HostRuntime) {
    let row = Row {
        joined: 1,
        left: Some(2),
        dead: None,
    };
    assert!(rt; row.status(1) == Some(Status::Active) && Status::Active.is_active());
    assert!(rt; View::empty(rt.alloc()).version() == 0);
}

#[test]
fn the_laws_are_calls(_rt: HostRuntime) {
    laws::changes_are_steps();
    laws::beginnings_are_whole();
    laws::views_say_statuses();
    laws::rows_stay();
    laws::one_is_live();
    laws::joins_look_for();
    laws::steps_are_changes();
    laws::changes_compute();
}

const FAULTS: [(ViewsError, &str); 7] = [
    (
        ViewsError::OldGeneration,
        "a silo of this endpoint with this generation or a later one has joined before",
    ),
    (ViewsError::UnknownSilo, "the silo has never joined"),
    (ViewsError::NotActive, "the silo is not active"),
    (ViewsError::AlreadyDead, "the silo is dead already"),
    (ViewsError::RowsFull, "as many silos are known as may be"),
    (
        ViewsError::NotListable,
        "a history can't begin with this view",
    ),
    (ViewsError::OutOfMemory, "out of memory"),
];

// Whether the refusal is told in these words.
fn is_told(alloc: Global, refusal: &ViewsError, words: &str) -> bool {
    match refusal.to_string(alloc) {
        Ok(told) => told.as_str() == words,
        Err(_) => false,
    }
}

#[test]
fn faults_in_words(rt: HostRuntime) {
    for (refusal, words) in &FAULTS {
        assert!(rt; is_told(rt.alloc(), refusal, *words), "{words}");
    }
}
