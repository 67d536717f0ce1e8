//! A silo as the host of activations. Each call that needs memory stands in a form that any one refusal of an allocation leaves
//! true: what is refused has changed nothing, and made again it gives its result. `rt try --test --fail-alloc N` refuses each
//! test its Nth allocation.
use crate::samples::{A, MANY, grain, settings, silo};
use directory_rules::{Act, Phase, Settings};
use hash_ring::Hashing;
use host_activations::{Host, PageAsked, Renewal};
use ring_range::RingRange;
use silo_address::GrainId;
use std::alloc::Global;
use std::process::Abort;

// What numbers and counts go up to.
const LAST: u64 = 1 << 60;

const ANN: &str = "user/ann#1";

const BOB: &str = "user/bob#2";

const CID: &str = "user/cid#3";

// A host on the first silo that holds nothing yet.
fn new_host(rt: &impl Abort, alloc: Global) -> Host {
    Host::new(alloc, silo(rt, A), 1, &settings(rt, Hashing::Stated))
}

fn copy_of(rt: &impl Abort, host: &Host) -> Host {
    match host.copy() {
        Ok(copy) => copy,
        Err(_) => host.copy().expect(rt, "memory"),
    }
}

// Whether there was memory for an activation of the grain to begin.
fn starts(rt: &impl Abort, host: &mut Host, text: &str) -> bool {
    let grain = grain(rt, text);
    assert!(rt;
        host.held(&grain).is_none() && host.next_number() <= LAST && host.next_count() <= LAST
    );
    host.start(grain, None).is_ok()
}

// An activation of the grain begins.
fn start(rt: &impl Abort, host: &mut Host, text: &str) {
    let before = copy_of(rt, host);
    assert!(rt; starts(rt, host, text) || (host.same(&before) && starts(rt, host, text)));
}

// Activations of the grains begin. None is compared with what was before it, so that few allocations are made.
fn start_each(rt: &impl Abort, host: &mut Host, texts: &[&str]) {
    for text in texts {
        assert!(rt; starts(rt, host, text) || starts(rt, host, text));
    }
}

// Whether there was memory for the grain's firm activation to ask to be taken out.
fn closes(rt: &impl Abort, host: &mut Host, text: &str) -> bool {
    let grain = grain(rt, text);
    let held = host.held(&grain).expect(rt, "an activation");
    assert!(rt; held.phase == Phase::Firm && host.next_number() <= LAST);
    host.begin_to_close(&grain).is_ok()
}

// Whether there was memory for the grain's activation, which asks to be entered, to ask to be taken out.
fn gives_up(rt: &impl Abort, host: &mut Host, text: &str) -> bool {
    let grain = grain(rt, text);
    let held = host.held(&grain).expect(rt, "an activation");
    assert!(rt; held.phase != Phase::Firm && host.next_number() <= LAST);
    host.begin_to_close(&grain).is_ok()
}

fn close(rt: &impl Abort, host: &mut Host, text: &str) {
    let before = copy_of(rt, host);
    assert!(rt; closes(rt, host, text) || (host.same(&before) && closes(rt, host, text)));
}

// Whether there was memory to ask where the grain is.
fn asks(rt: &impl Abort, host: &mut Host, text: &str) -> bool {
    assert!(rt; host.next_number() <= LAST);
    host.ask(grain(rt, text)).is_ok()
}

fn ask(rt: &impl Abort, host: &mut Host, text: &str) {
    let before = copy_of(rt, host);
    assert!(rt; asks(rt, host, text) || (host.same(&before) && asks(rt, host, text)));
}

#[test]
fn a_find_begins(rt: HostRuntime) {
    let mut host = new_host(&rt, rt.alloc());
    ask(&rt, &mut host, CID);
    assert!(rt; host.is_finding(1) && host.next_number() == 2);
}

// A firm activation, and nothing outstanding: in a copy no room is left of what was.
fn one_firm(rt: &impl Abort, alloc: Global) -> Host {
    let mut host = new_host(rt, alloc);
    start(rt, &mut host, ANN);
    host.confirm(1);
    copy_of(rt, &host)
}

#[test]
fn an_activation_begins_to_close(rt: HostRuntime) {
    let mut host = one_firm(&rt, rt.alloc());
    close(&rt, &mut host, ANN);
    assert!(rt; host.closing_under(2).is_some() && host.next_number() == 3);
}

// How many activations ask, how many close, and how many finds are outstanding.
fn counts(host: &Host) -> (usize, usize, usize) {
    (host.asking_count(), host.closing_count(), host.find_count())
}

// Whether the activation asks under no number any more, and closes under the second one.
fn is_given_up(host: &Host) -> bool {
    !host.is_outstanding(1)
        && host.asking_under(1).is_none()
        && host.closing_under(2).is_some()
        && counts(host) == (0, 1, 0)
}

#[test]
fn an_activation_is_given_up(rt: HostRuntime) {
    let mut host = new_host(&rt, rt.alloc());
    start(&rt, &mut host, ANN);
    let before = copy_of(&rt, &host);
    let given_up = gives_up(&rt, &mut host, ANN);
    assert!(rt; given_up || (host.same(&before) && gives_up(&rt, &mut host, ANN)));
    assert!(rt; is_given_up(&host) && host.next_number() == 3);
}

// One more activation than a node of a map takes.
#[test]
fn one_of_many_begins(rt: HostRuntime) {
    let mut host = new_host(&rt, rt.alloc());
    start_each(&rt, &mut host, &MANY[..15]);
    start(&rt, &mut host, ANN);
    assert!(rt; host.asking_under(16).is_some() && host.next_number() == 17);
}

// An activation of ANN that asks to be taken out under 2, one of BOB that asks to be entered under 3, and a find of CID under 4.
fn three_requests(rt: &impl Abort, alloc: Global) -> Host {
    let mut host = one_firm(rt, alloc);
    close(rt, &mut host, ANN);
    start(rt, &mut host, BOB);
    ask(rt, &mut host, CID);
    host
}

// Whether the host tells of an activation of the one grain, and then of one of the other.
fn tells(alloc: Global, host: &Host, first: GrainId, second: GrainId) -> bool {
    match host.activations(alloc) {
        Ok(told) => told.len() == 2 && told[0].0 == first && told[1].0 == second,
        Err(_) => false,
    }
}

#[test]
fn activations_are_told(rt: HostRuntime) {
    let (host, alloc) = (three_requests(&rt, rt.alloc()), rt.alloc());
    let (ann, bob) = (grain(&rt, ANN), grain(&rt, BOB));
    assert!(rt; tells(alloc, &host, ann, bob) || tells(alloc, &host, ann, bob));
}

fn requests_of(rt: &impl Abort, alloc: Global, host: &Host) -> Vec<(u64, Act)> {
    match host.requests(alloc) {
        Ok(requests) => requests,
        Err(_) => host.requests(alloc).expect(rt, "memory"),
    }
}

// All that is outstanding gets new numbers; what was told of it before is what is told then.
fn renew(rt: &impl Abort, alloc: Global, host: &mut Host) {
    assert!(rt; host.next_number() <= 1_000 && host.outstanding_count() <= 1_000);
    let renewal = match host.renewal(alloc) {
        Ok(renewal) => renewal,
        Err(_) => host.renewal(alloc).expect(rt, "memory"),
    };
    let told = match host.renewed_requests(alloc, &renewal) {
        Ok(told) => told,
        Err(_) => host.renewed_requests(alloc, &renewal).expect(rt, "memory"),
    };
    host.renew(renewal);
    assert!(rt; are_same(&told, &requests_of(rt, alloc, host)));
}

fn are_same(told: &[(u64, Act)], requests: &[(u64, Act)]) -> bool {
    for ((number, act), (want, wanted)) in told.iter().zip(requests) {
        if *number != *want || !act.same(wanted) {
            return false;
        }
    }
    told.len() == requests.len()
}

// Under which numbers the three are.
fn are_under(host: &Host, closing: u64, asking: u64, finding: u64) -> bool {
    host.closing_under(closing).is_some()
        && host.asking_under(asking).is_some()
        && host.is_finding(finding)
        && host.outstanding_count() == 3
}

#[test]
fn requests_are_renewed(rt: HostRuntime) {
    let mut host = three_requests(&rt, rt.alloc());
    renew(&rt, rt.alloc(), &mut host);
    assert!(rt; are_under(&host, 5, 6, 7) && host.next_number() == 8);
}

// The requests about a grain get new numbers, whose memory may be refused; what was told of them before is what is told then.
fn renew_about(rt: &impl Abort, alloc: Global, host: &mut Host, grain: &GrainId) {
    assert!(rt; host.next_number() <= 1_000 && host.count_about(grain) <= 1_000);
    let told = match host.renewed_requests_about(alloc, grain) {
        Ok(told) => told,
        Err(_) => host
            .renewed_requests_about(alloc, grain)
            .expect(rt, "memory"),
    };
    let before = copy_of(rt, host);
    if host.renew_about(alloc, grain).is_err() {
        assert!(rt;
            host.same(&before) && host.next_number() <= 1_000 && host.count_about(grain) <= 1_000
        );
        assert!(rt; host.renew_about(alloc, grain).is_ok());
    }
    let requests = requests_of(rt, alloc, host);
    assert!(rt; told.len() == 2 && requests.len() == 4 && are_same(&told, &requests[2..]));
}

// Whether those about ANN are under these two numbers, and the others under their own.
fn are_under_beside(host: &Host, closing: u64, finding: u64) -> bool {
    host.closing_under(closing).is_some()
        && host.is_finding(finding)
        && host.asking_under(3).is_some()
        && host.is_finding(4)
        && counts(host) == (1, 1, 2)
}

#[test]
fn requests_about_a_grain_are_renewed(rt: HostRuntime) {
    let (mut host, ann) = (three_requests(&rt, rt.alloc()), grain(&rt, ANN));
    ask(&rt, &mut host, ANN);
    assert!(rt; are_under_beside(&host, 2, 5) && host.count_about(&ann) == 2);
    renew_about(&rt, rt.alloc(), &mut host, &ann);
    assert!(rt; are_under_beside(&host, 6, 7) && host.next_number() == 8);
}

// Its last number is the host's first one: it is taken, and none is left.
#[test]
fn the_last_number_is_taken(rt: HostRuntime) {
    let settings = settings(&rt, Hashing::Stated);
    let mut host = Host::new(rt.alloc(), silo(&rt, A), LAST, &settings);
    assert!(rt; host.has_numbers(&settings, 1) && !host.has_numbers(&settings, 2));
    start(&rt, &mut host, ANN);
    assert!(rt; host.asking_under(LAST).is_some() && !host.has_numbers(&settings, 1));
}

// Grains, by the hashes that they state.
const LOW: &str = "user/low#5";

const MIDDLE: &str = "user/middle#1000";

const HIGH: &str = "user/high#4294967290";

// The start and the size of a range, and the firm grains that are reported of it, as they stand: the first two ranges are the circle.
const REPORTS: [(u32, u64, &[&str]); 5] = [
    (0, 4_294_967_296, &[LOW, MIDDLE, HIGH]),
    (1_000, 4_294_967_296, &[MIDDLE, HIGH, LOW]),
    (5, 995, &[LOW]),
    (4_294_967_290, 12, &[HIGH, LOW]),
    (4_294_967_291, 10, &[]),
];

// Whether just these grains are reported, one by one and in this order.
fn reports(
    rt: &impl Abort,
    alloc: Global,
    host: &Host,
    range: &RingRange,
    grains: &[&str],
) -> bool {
    let mut asked = PageAsked {
        hashing: Hashing::Stated,
        range: *range,
        after: None,
        most: 1,
    };
    for text in grains {
        let Ok(page) = host.firm_page(alloc, &asked) else {
            return false;
        };
        let grain = grain(rt, *text);
        if page.entries.len() != 1 || page.entries[0].grain != grain {
            return false;
        }
        asked.after = Some(grain);
    }
    match host.firm_page(alloc, &asked) {
        Ok(page) => page.entries.is_empty() && page.last,
        Err(_) => false,
    }
}

fn start_firm(rt: &impl Abort, host: &mut Host, text: &str) {
    let number = host.next_number();
    start(rt, host, text);
    host.confirm(number);
}

fn three_firm(rt: &impl Abort, alloc: Global) -> Host {
    let mut host = new_host(rt, alloc);
    start_firm(rt, &mut host, MIDDLE);
    start_firm(rt, &mut host, LOW);
    start_firm(rt, &mut host, HIGH);
    host
}

fn check_report(
    rt: &impl Abort,
    alloc: Global,
    host: &Host,
    (start, size): (u32, u64),
    grains: &[&str],
) {
    let range = RingRange::new(start, size).expect(rt, "a range");
    let told = reports(rt, alloc, host, &range, grains);
    assert!(rt; told || reports(rt, alloc, host, &range, grains));
    assert!(rt; host.has_none_firm(Hashing::Stated, range) == grains.is_empty());
}

#[test]
fn those_of_a_range_are_reported(rt: HostRuntime) {
    let host = three_firm(&rt, rt.alloc());
    for (start, size, grains) in &REPORTS {
        check_report(&rt, rt.alloc(), &host, (*start, *size), *grains);
    }
}

// Whether there is room for all but the numbers past the last one.
fn has_room(host: &Host, settings: &Settings) -> bool {
    host.has_count(settings)
        && host.has_numbers(settings, LAST - 4)
        && !host.has_numbers(settings, LAST - 3)
        && !host.is_full_of_activations(settings)
        && !host.is_full_of_finds(settings)
}

// Whether the activation of that grain and the find of that number go.
fn ends(host: &mut Host, grain: &GrainId, find: u64) -> bool {
    host.end(grain);
    host.end_find(find);
    host.held(grain).is_none() && !host.is_outstanding(find) && host.held_count() == 1
}

#[test]
fn requests_end(rt: HostRuntime) {
    let mut host = three_requests(&rt, rt.alloc());
    assert!(rt; host.silo() == silo(&rt, A) && has_room(&host, &settings(&rt, Hashing::Stated)));
    assert!(rt; ends(&mut host, &grain(&rt, ANN), 4));
}
