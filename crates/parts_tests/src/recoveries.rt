//! A recovery of a range, and the reports that it takes. Each call that needs memory stands in a form that any one refusal of an
//! allocation leaves true: what is refused has changed nothing, and made again it gives its result. `rt try --test
//! --fail-alloc N` refuses each test its Nth allocation.
use crate::samples::{A, B, C, MANY, entry, joined, range, settings, silo, view};
use grain_table::Table;
use hash_ring::Hashing;
use range_recovery::{Recovery, RecoveryError, RecoveryProgress, Report};
use silo_address::{Entry, GrainId, SiloAddress};
use std::alloc::Global;
use std::process::Abort;

const RANGE: &str = "0+1000";

// Of A and B, who are those of version 2.
fn recovery(rt: &impl Abort, alloc: Global) -> Recovery {
    let seen = view(rt, alloc, &joined(rt, alloc, &[B, A]), 2);
    let settings = settings(rt, Hashing::Stated);
    match Recovery::new(alloc, &settings, &seen, range(rt, RANGE)) {
        Ok(recovery) => recovery,
        Err(_) => {
            let made = Recovery::new(alloc, &settings, &seen, range(rt, RANGE));
            made.expect(rt, "memory")
        }
    }
}

// A silo's last report, of the grains, each on its activation of count 1.
fn report(rt: &impl Abort, alloc: Global, text: &str, grains: &[&str]) -> Report {
    let entries = entries_of(rt, alloc, text, grains);
    Report::new(2, range(rt, RANGE), silo(rt, text), None, entries, true)
}

// The silo's report of these grains behind that one, with more to tell.
fn page(
    rt: &impl Abort,
    alloc: Global,
    text: &str,
    after: Option<GrainId>,
    grains: &[&str],
) -> Report {
    let entries = entries_of(rt, alloc, text, grains);
    Report::new(2, range(rt, RANGE), silo(rt, text), after, entries, false)
}

fn entries_of(rt: &impl Abort, alloc: Global, text: &str, grains: &[&str]) -> Vec<Entry> {
    let mut entries: Vec<Entry> = Vec::new(alloc);
    for grain in grains {
        let entry = &entry(rt, (grain, text, 1));
        if entries.push(*entry).is_err() {
            entries.push(*entry).expect(rt, "memory");
        }
    }
    entries
}

fn copy_of(rt: &impl Abort, recovery: &Recovery) -> Recovery {
    match recovery.copy() {
        Ok(copy) => copy,
        Err(_) => recovery.copy().expect(rt, "memory"),
    }
}

// Whether just these silos are awaited, by address.
fn awaits(alloc: Global, recovery: &Recovery, silos: &[SiloAddress]) -> bool {
    match recovery.awaiting(alloc) {
        Ok(awaiting) => awaiting.as_slice() == silos,
        Err(_) => false,
    }
}

#[test]
fn silos_are_awaited(rt: HostRuntime) {
    let recovery = copy_of(&rt, &recovery(&rt, rt.alloc()));
    let silos = [silo(&rt, A), silo(&rt, B)];
    assert!(rt; awaits(rt.alloc(), &recovery, &silos) || awaits(rt.alloc(), &recovery, &silos));
    recovery.whole();
    assert!(rt; recovery.version() == 2 && recovery.range().same(&range(&rt, RANGE)));
}

// Whether this comes of the report, at first or behind a refusal of memory that leaves the recovery as it was.
fn takes(
    recovery: &mut Recovery,
    before: &Recovery,
    report: &Report,
    want: RecoveryProgress,
) -> bool {
    recovery.take(report) == Ok(want)
        || (recovery.same(before) && recovery.take(report) == Ok(want))
}

fn take(rt: &impl Abort, recovery: &mut Recovery, report: &Report, want: RecoveryProgress) {
    let before = copy_of(rt, recovery);
    assert!(rt; takes(recovery, &before, report, want));
}

// Whether these entries were gathered, of so many grains.
fn has_each(gathered: &Table, entries: &[Entry], count: usize) -> bool {
    for entry in entries {
        if gathered.get(&entry.grain) != Some(*entry) {
            return false;
        }
    }
    gathered.len() == count
}

// A report of more grains than a node of a map takes is taken whole, or nothing of it. Of a grain that is reported twice the
// first entry stays.
#[test]
fn reports_are_taken(rt: HostRuntime) {
    let mut recovery = recovery(&rt, rt.alloc());
    let first = report(&rt, rt.alloc(), A, &MANY[1..]);
    take(&rt, &mut recovery, &first, RecoveryProgress::More);
    assert!(rt; recovery.gathered().len() == 16);
    let second = report(&rt, rt.alloc(), B, &MANY[..2]);
    take(&rt, &mut recovery, &second, RecoveryProgress::Complete);
    let entries = [
        entry(&rt, (MANY[0], B, 1)),
        entry(&rt, (MANY[1], A, 1)),
        entry(&rt, (MANY[16], A, 1)),
    ];
    assert!(rt; has_each(&recovery.into_entries(), &entries, 17));
}

// A silo that has nothing in the range is awaited no more, once, and the last one completes the recovery.
#[test]
fn silos_have_nothing(rt: HostRuntime) {
    let mut recovery = recovery(&rt, rt.alloc());
    let (a, b, place) = (silo(&rt, A), silo(&rt, B), range(&rt, RANGE));
    assert!(rt; recovery.take_nothing(2, place, a) == Ok(RecoveryProgress::More));
    assert!(rt; recovery.take_nothing(2, place, a) == Err(RecoveryError::Twice));
    assert!(rt; recovery.take_nothing(3, place, b) == Err(RecoveryError::WrongVersion));
    assert!(rt; recovery.take_nothing(2, place, b) == Ok(RecoveryProgress::Complete));
}

// Whether a report of such a silo is refused by this number.
fn is_refused(recovery: &Recovery, report: &Report, number: u16) -> bool {
    match recovery.progress_with(report) {
        Ok(_) => false,
        Err(refusal) => refusal.number() == Some(number),
    }
}

#[test]
fn a_stranger_reports(rt: HostRuntime) {
    let recovery = recovery(&rt, rt.alloc());
    assert!(rt; is_refused(&recovery, &report(&rt, rt.alloc(), C, &MANY[..1]), 752));
}

// A silo tells part by part: what doesn't go on behind the grain told is refused, and changes nothing.
#[test]
fn reports_go_on(rt: HostRuntime) {
    let mut recovery = recovery(&rt, rt.alloc());
    let first = page(&rt, rt.alloc(), A, None, &MANY[..2]);
    take(&rt, &mut recovery, &first, RecoveryProgress::Continues);
    let told = entry(&rt, (MANY[1], A, 1)).grain;
    assert!(rt; recovery.told_by(&silo(&rt, A)) == Some(told));
    assert!(rt; is_refused(&recovery, &first, 754));
    assert!(rt; is_refused(&recovery, &report(&rt, rt.alloc(), A, &MANY[2..]), 754));
    let second = page(&rt, rt.alloc(), A, Some(told), &MANY[2..4]);
    take(&rt, &mut recovery, &second, RecoveryProgress::Continues);
    assert!(rt; recovery.gathered().len() == 4);
    take(
        &rt,
        &mut recovery,
        &report(&rt, rt.alloc(), B, &[]),
        RecoveryProgress::More,
    );
}

// Whether the report is of A, with so many entries, and is copied.
fn is_copied(report: &Report, silo: &SiloAddress, count: usize) -> bool {
    let Ok(copy) = report.copy() else {
        return false;
    };
    copy.same(report)
        && copy.silo() == *silo
        && copy.version() == 2
        && copy.entries().len() == count
}

#[test]
fn a_report_is_copied(rt: HostRuntime) {
    let (report, silo) = (report(&rt, rt.alloc(), A, &MANY), silo(&rt, A));
    assert!(rt; report.range() == range(&rt, RANGE));
    assert!(rt; is_copied(&report, &silo, 17) || is_copied(&report, &silo, 17));
}
