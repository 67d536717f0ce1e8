ghost use Rattle.std.specs.Prelude.{IfOk};
ghost use Rattle.grain_partition.specs.Sight.{AreOfRings};

use crate::cluster::{Cluster, Deed};
use crate::course::{Amount, Scale, Step};
use crate::fault::Fault;
use crate::parts::COUNT;
use grain_partition::ArcsBySilo;
use membership_view::View;
use range_moves::{RingArc, arcs};
use silo_address::SiloAddress;

/// From one point of the first silo to its next one, where it has thirty.
const STEP: u32 = 143_165_576;

const ALL_AWAKE: Step = Step::Through(Deed::Wake, Amount(COUNT, COUNT));

/// What a silo sees of version 2.
#[derive(Drop)]
pub(crate) struct Sight {
    pub(crate) silo: SiloAddress,
    pub(crate) view: View,
    pub(crate) arcs: ArcsBySilo,
}

/// A silo that keeps all entries at version 1, of activations that are its own, and what it will see of version 2, in which
/// another one has joined.
#[derive(Drop)]
pub(crate) struct Stage {
    pub(crate) cluster: Box<Cluster>,
    pub(crate) sight: Sight,
}

impl Stage {
    /// Each silo has so many points, the other one all of its own next to one another from a place on.
    pub(crate) fn of(rt: &HostRuntime, points: u32, place: u32) -> Result<Stage, Fault>
        ensures { IfOk result (λ stage. AreOfRings stage.sight.arcs) }
    {
        let cluster = joined(rt, points, place)?;
        let sight = sight_of(&cluster)?;
        Ok(Stage { cluster, sight })
    }
}

// A silo on which all grains are awake, and another one that it hasn't seen yet.
fn joined(rt: &HostRuntime, points: u32, place: u32) -> Result<Box<Cluster>, Fault> {
    let mut cluster = Cluster::new(rt.alloc(), 0)?;
    cluster.join_at(points, 0, STEP)?;
    cluster.all_see()?;
    cluster.play(rt, &ALL_AWAKE, Scale::Whole)?;
    cluster.join_at(points, place, 1)?;
    Ok(cluster)
}

fn sight_of(cluster: &Cluster) -> Result<Sight, Fault>
    ensures { IfOk result (λ sight. AreOfRings sight.arcs) }
{
    let silo = cluster.in_turn(0)?;
    let view = cluster.view(2)?;
    let arcs = ArcsBySilo::of(cluster.alloc, arcs_of_sight(cluster)?)?;
    Ok(Sight { silo, view, arcs })
}

// The arcs from the ring of version 1 to that of version 2.
fn arcs_of_sight(cluster: &Cluster) -> Result<Vec<RingArc>, Fault>
    ensures { IfOk result (λ arcs. AreOfRings arcs.items) }
{
    let old = cluster.ring(1)?;
    let new = cluster.ring(2)?;
    Ok(arcs(cluster.alloc, &old, &new)?)
}
