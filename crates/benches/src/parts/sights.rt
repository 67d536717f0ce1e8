ghost use Rattle.grain_partition.specs.Sight.{AreOfRings};

use crate::cluster::sum_of;
use crate::fault::Fault;
use crate::parts::hosts;
use crate::parts::stage::{Sight, Stage};
use crate::stopwatch::{Stopwatch, now};
use grain_partition::Holding;
use hash_ring::Hashing;

const ROUNDS: u64 = 5;

/// How many points each silo has.
const POINTS: u32 = 30;

/// The first point of the other silo, within a piece of the first one.
const CUT: u32 = 1_073_741_820;

/// A silo with thirty pieces sees that another one joins, all of whose points are in one of them; and its activations.
pub(crate) fn measure(rt: &HostRuntime) -> Result<(), Fault> {
    let stage = Stage::of(rt, POINTS, CUT)?;
    measure_stage(rt, &stage)
}

fn measure_stage(rt: &HostRuntime, stage: &Stage) -> Result<(), Fault>
    requires { AreOfRings stage.now.sight.arcs }
{
    match stage.cluster.world.node(&stage.sight.silo) {
        Some(node) => {
            measure_sight(rt, &stage.sight, node.holding())?;
            hosts::measure(rt, node.host())
        }
        None => Err(Fault::Missing),
    }
}

// Copies the pieces for each round, outside the time.
fn measure_sight(rt: &HostRuntime, sight: &Sight, kept: &Holding) -> Result<(), Fault>
    requires { AreOfRings sight.now.arcs }
{
    let mut stopwatch = Stopwatch::new();
    for _ in 0..ROUNDS {
        let mut seen = kept.copy()?;
        measure_round(rt, sight, &mut seen, &mut stopwatch)?;
    }
    stopwatch.report(rt, "sight")
}

fn measure_round(
    rt: &HostRuntime,
    sight: &Sight,
    holding: &mut Holding,
    stopwatch: &mut Stopwatch,
) -> Result<(), Fault>
    requires { AreOfRings sight.now.arcs }
{
    let (view, silo, arcs) = (&sight.view, &sight.silo, &sight.arcs);
    let start = now(rt)?;
    holding.sight(rt.alloc(), true, Hashing::Stated, view, silo, arcs)?;
    stopwatch.note(rt, start)?;
    stopwatch.count(1, sum_of(holding));
    Ok(())
}
