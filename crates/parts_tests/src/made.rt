//! Entries, snapshots and pages for the tests, made again where memory is refused.
use crate::samples::silo;
use grain_table::{ShortEntry, short_entries};
use ring_range::RingRange;
use seal_snapshot::{Page, Snapshot};
use silo_address::{ActivationId, Entry, GrainId};
use std::alloc::{AllocError, Global};
use std::process::Abort;

pub(crate) const OWNER: &str = "10.0.0.1:1000@1";

pub(crate) const NEXT: &str = "10.0.0.2:1000@1";

pub(crate) const VERSION: u64 = 5;

pub(crate) fn range(rt: &impl Abort, start: u32) -> RingRange {
    RingRange::new(start, 1_000).expect(rt, "a range")
}

// The entry of the grain user/000, user/001 and so on, which has the activation of the next count.
fn entry(rt: &impl Abort, index: u64) -> Entry {
    let digits = [
        b'0' + (index / 100 % 10) as u8,
        b'0' + (index / 10 % 10) as u8,
        b'0' + (index % 10) as u8,
    ];
    let text = [
        b'u', b's', b'e', b'r', b'/', digits[0], digits[1], digits[2],
    ];
    let grain = GrainId::parse(&text).expect(rt, "a grain");
    let silo = silo(rt, OWNER);
    let count = index.saturating_add(1);
    let activation = ActivationId { silo, count };
    Entry { grain, activation }
}

fn entries(rt: &impl Abort, alloc: Global, count: u64) -> Result<Vec<Entry>, AllocError> {
    let mut entries = Vec::new(alloc);
    for index in 0..count {
        entries.push(entry(rt, index))?;
    }
    Ok(entries)
}

// The entries, kept short.
pub(crate) fn short(rt: &impl Abort, alloc: Global, entries: &[Entry]) -> Vec<ShortEntry> {
    match short_entries(alloc, entries) {
        Ok(short) => short,
        Err(_) => short_entries(alloc, entries).expect(rt, "memory"),
    }
}

// A snapshot of so many entries, of that version and of a range that begins there, for the silo.
pub(crate) fn snapshot(
    rt: &impl Abort,
    alloc: Global,
    (version, start, to): (u64, u32, &str),
    count: u64,
) -> Snapshot {
    let entries = match entries(rt, alloc, count) {
        Ok(entries) => entries,
        Err(_) => entries(rt, alloc, count).expect(rt, "memory"),
    };
    Snapshot::seal(
        version,
        range(rt, start),
        silo(rt, OWNER),
        silo(rt, to),
        short(rt, alloc, &entries),
    )
}

pub(crate) fn page(rt: &impl Abort, alloc: Global, snapshot: &Snapshot, number: u64) -> Page {
    let page = match snapshot.page(alloc, number) {
        Ok(page) => page,
        Err(_) => snapshot.page(alloc, number).expect(rt, "memory"),
    };
    page.expect(rt, "a page of that number")
}
