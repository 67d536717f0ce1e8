//! Measures a cluster as one value, by calls without text. Of a scenario is told how many events were measured, and the sum is of
//! what all events have left.

use crate::cluster::{Cluster, Deed};
use crate::course::{Amount, Scale, Step};
use crate::fault::Fault;
use crate::stopwatch::Stopwatch;

/// How many points a silo has; one that joins later, and gets some 16,000 of 65,000 entries from four others, has more.
const POINTS: u32 = 30;

const JOINING_POINTS: u32 = 50;

/// How many hints a cache keeps where there are caches.
const HINTS: usize = 1_024;

/// How many silos there are.
const ONE: Amount = Amount(1, 1);

const FOUR: Amount = Amount(4, 4);

const MANY: Amount = Amount(256, 8);

/// How many grains are woken, and how many where grains are looked up.
const GRAINS: Amount = Amount(65_000, 650);

const FEW: Amount = Amount(5_000, 50);

/// How many of the few are looked up, and how often in all: no multiple of the number of silos, so that each silo looks up all.
const SOUGHT: Amount = Amount(1_021, 11);

const FINDS: Amount = Amount(300_000, 300);

/// How many entries a small and a large table have, and how many rounds are played with each of them.
const SMALL: Amount = Amount(1_000, 10);

const LARGE: Amount = Amount(64_000, 640);

const ROUNDS: Amount = Amount(20_000, 20);

/// Steps that come before.
const SILOS: &[Step] = &[Step::Join(FOUR, POINTS)];

const AWAKE: &[Step] = &[Step::Join(FOUR, POINTS), Step::Through(Deed::Wake, GRAINS)];

const FEW_AWAKE: &[Step] = &[Step::Join(FOUR, POINTS), Step::Through(Deed::Wake, FEW)];

const SMALL_TABLE: &[Step] = &[Step::Join(ONE, 1), Step::Through(Deed::Wake, SMALL)];

const LARGE_TABLE: &[Step] = &[Step::Join(ONE, 1), Step::Through(Deed::Wake, LARGE)];

/// Steps that are measured.
const WAKES: &[Step] = &[Step::Through(Deed::Wake, GRAINS)];

const LOOKS: &[Step] = &[Step::Across(Deed::Find, FINDS, SOUGHT)];

const CLOSES: &[Step] = &[Step::Through(Deed::Close, GRAINS)];

const FIFTH: &[Step] = &[Step::Join(ONE, JOINING_POINTS)];

const DEATH: &[Step] = &[Step::Kill];

const MEMBERS: &[Step] = &[Step::Join(MANY, POINTS)];

const SMALL_ROUNDS: &[Step] = &[
    Step::Across(Deed::Find, ROUNDS, SMALL),
    Step::Across(Deed::Renew, ROUNDS, SMALL),
];

const LARGE_ROUNDS: &[Step] = &[
    Step::Across(Deed::Find, ROUNDS, LARGE),
    Step::Across(Deed::Renew, ROUNDS, LARGE),
];

/// Each scenario's name, how many hints a cache keeps, what comes before, and what is measured.
const SCENARIOS: [(&str, usize, &[Step], &[Step]); 9] = [
    ("wakes", 0, SILOS, WAKES),
    ("finds", 0, FEW_AWAKE, LOOKS),
    ("cached", HINTS, FEW_AWAKE, LOOKS),
    ("closes", 0, AWAKE, CLOSES),
    ("join", 0, AWAKE, FIFTH),
    ("death", 0, AWAKE, DEATH),
    ("members", 0, &[], MEMBERS),
    ("small", 0, SMALL_TABLE, SMALL_ROUNDS),
    ("large", 0, LARGE_TABLE, LARGE_ROUNDS),
];

/// Plays each scenario on a small scale, and prints their lines without the time.
pub(crate) fn play_all(rt: &HostRuntime) -> Result<(), Fault> {
    for (name, hints, before, measured) in &SCENARIOS {
        let stopwatch = played(rt, *hints, before, measured, Scale::Small)?;
        stopwatch.report_sum(rt, name)?;
    }
    Ok(())
}

/// Plays the scenario of a name on the whole scale, and tells how long it took.
pub(crate) fn measure(rt: &HostRuntime, wanted: &str) -> Result<(), Fault> {
    for (name, hints, before, measured) in &SCENARIOS {
        if *name == wanted {
            let stopwatch = played(rt, *hints, before, measured, Scale::Whole)?;
            return stopwatch.report(rt, name);
        }
    }
    Err(Fault::Usage)
}

// What a scenario took in a cluster of its own.
fn played(
    rt: &HostRuntime,
    hints: usize,
    before: &[Step],
    measured: &[Step],
    scale: Scale,
) -> Result<Stopwatch, Fault> {
    let mut cluster = Cluster::new(rt.alloc(), hints)?;
    cluster.play_all(rt, before, scale)?;
    cluster.stopwatch = Stopwatch::new();
    cluster.play_all(rt, measured, scale)?;
    Ok(cluster.measured())
}
