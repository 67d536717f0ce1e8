use crate::fault::Fault;
use crate::parts::stage::{Sight, Stage};
use crate::stopwatch::{Stopwatch, now};
use grain_partition::Holding;
use hash_ring::Hashing;
use seal_snapshot::{Gathering, GatheringProgress, Page, Snapshot};
use std::alloc::{AllocError, Global};

const ROUNDS: u64 = 5;

/// How often each page is handed out that is measured by itself.
const PAGE_ROUNDS: u64 = 20_000;

/// Of 1,024 pages the first one, the middle one and the last one.
const PAGES: [(&str, u64); 3] = [
    ("page_first", 0),
    ("page_middle", 511),
    ("page_last", 1_023),
];

/// What is called in a round.
#[derive(Clone, Copy)]
enum Work<'a> {
    /// What goes to the other silo is sealed.
    Seal(&'a Sight, &'a Holding),
    /// A page is handed out.
    Page(&'a Snapshot, u64),
    /// All pages are handed out one after another, and gathered.
    Gather(&'a Snapshot),
}

/// Seals all that a silo keeps, since another one gets the whole circle but one hash; hands it out page by page, and gathers it.
pub(crate) fn measure(rt: &HostRuntime) -> Result<(), Fault> {
    let stage = Stage::of(rt, 1, 1)?;
    measure_stage(rt, &stage)
}

fn measure_stage(rt: &HostRuntime, stage: &Stage) -> Result<(), Fault> {
    match stage.cluster.world.node(&stage.sight.silo) {
        Some(node) => measure_seal(rt, &stage.sight, node.holding()),
        None => Err(Fault::Missing),
    }
}

fn measure_seal(rt: &HostRuntime, sight: &Sight, holding: &Holding) -> Result<(), Fault> {
    measure_work(rt, "seal", &Work::Seal(sight, holding), ROUNDS)?;
    let mut sealed = sealed(rt.alloc(), sight, holding)?;
    match sealed.pop() {
        Some(snapshot) => measure_pages(rt, &snapshot.digested()),
        None => Err(Fault::Missing),
    }
}

fn measure_pages(rt: &HostRuntime, snapshot: &Snapshot) -> Result<(), Fault> {
    for (name, number) in &PAGES {
        measure_work(rt, name, &Work::Page(snapshot, *number), PAGE_ROUNDS)?;
    }
    measure_work(rt, "page_and_take", &Work::Gather(snapshot), ROUNDS)
}

fn measure_work(rt: &HostRuntime, name: &str, work: &Work<'_>, rounds: u64) -> Result<(), Fault> {
    let mut stopwatch = Stopwatch::new();
    let start = now(rt)?;
    for _ in 0..rounds {
        let (calls, sum) = round(rt.alloc(), work)?;
        stopwatch.count(calls, sum);
    }
    stopwatch.note(rt, start)?;
    stopwatch.report(rt, name)
}

// How many calls there were in a round, and the sum of their answers.
fn round(alloc: Global, work: &Work<'_>) -> Result<(u64, u64), Fault> {
    match work {
        Work::Seal(sight, holding) => seal(alloc, sight, holding),
        Work::Page(snapshot, number) => hand_out(alloc, snapshot, *number),
        Work::Gather(snapshot) => gather(alloc, snapshot),
    }
}

// What is sealed for the other silo: one snapshot.
fn sealed(alloc: Global, sight: &Sight, holding: &Holding) -> Result<Vec<Snapshot>, AllocError> {
    let (view, silo, arcs) = (&sight.view, &sight.silo, &sight.arcs);
    holding.seal(alloc, Hashing::Stated, view, silo, arcs)
}

// The sum is of the first bytes of the snapshot's digest, as a number, and how many entries it has.
fn seal(alloc: Global, sight: &Sight, holding: &Holding) -> Result<(u64, u64), Fault> {
    let sealed = sealed(alloc, sight, holding)?;
    Ok((1, sum_of_sealed(&sealed)))
}

fn sum_of_sealed(sealed: &[Snapshot]) -> u64 {
    let mut sum = 0u64;
    for snapshot in sealed {
        let digest = snapshot.digest();
        let first = u32::from_be_bytes([digest[0], digest[1], digest[2], digest[3]]);
        sum = sum
            .wrapping_add(u64::from(first))
            .wrapping_add(snapshot.entries().len() as u64);
    }
    sum
}

// The sum is of the count of the page's last entry, and how many there are.
fn hand_out(alloc: Global, snapshot: &Snapshot, number: u64) -> Result<(u64, u64), Fault> {
    match snapshot.page(alloc, number)? {
        Some(page) => Ok((1, sum_of(&page))),
        None => Err(Fault::Missing),
    }
}

fn sum_of(page: &Page) -> u64 {
    match page.entries().last() {
        Some(entry) => entry
            .activation
            .count
            .wrapping_add(page.entries().len() as u64),
        None => 0,
    }
}

// The sum is how many entries were gathered, if they are all.
fn gather(alloc: Global, snapshot: &Snapshot) -> Result<(u64, u64), Fault> {
    let mut gathering = Gathering::new(alloc, snapshot.version(), snapshot.range());
    let mut progress = GatheringProgress::More;
    for number in 0..snapshot.pages() {
        progress = take(alloc, &mut gathering, snapshot, number)?;
    }
    match progress {
        GatheringProgress::Complete => Ok((snapshot.pages(), gathering.entries().len() as u64)),
        GatheringProgress::More => Err(Fault::Missing),
    }
}

// The page of that number is handed out and gathered.
fn take(
    alloc: Global,
    gathering: &mut Gathering,
    snapshot: &Snapshot,
    number: u64,
) -> Result<GatheringProgress, Fault> {
    match snapshot.page(alloc, number)? {
        Some(page) => Ok(gathering.take(&page)?),
        None => Err(Fault::Missing),
    }
}
