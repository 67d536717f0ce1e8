//! A node, and the activations and points in it.
ghost use Rattle.std.specs.Prelude.{◌≡◌, IfOk, map};
ghost use Rattle.dump_rules.specs.Dump.{dump_held, dump_node, dump_phase};
ghost use Rattle.dumps.specs.DumpModel.{phase_of};

use crate::Node;
use crate::pieces::pieces;
use directory_rules::{Held, Phase};
use dumps::{LentGrain, ListedHeld, ListedNode, ListedPhase, ListedPoint};
use hash_ring::Point;
use host_activations::Host;
use silo_address::{ActivationId, GrainId, SiloAddress};
use std::alloc::{AllocError, Global};

/// The node with all that it holds, as a dump lists it under its silo (`docs/RULES.md#the-dump-and-the-verdict`). Costs what the node
/// holds, times a logarithm. Fails only when memory runs out.
pub fn listed_node(
    alloc: Global,
    silo: &SiloAddress,
    node: &Node,
) -> Result<ListedNode<'static>, AllocError>
    ensures { IfOk result (λ listed. listed ≡ dump_node silo.now node.now) }
{
    let held = held(alloc, silo, node.host())?;
    let pieces = pieces(alloc, node.holding())?;
    let ring = points(alloc, node.ring().points())?;
    Ok(ListedNode {
        held,
        pieces,
        ring,
        seen: node.view().version(),
        silo: *silo,
    })
}

// The activations that the silo holds, in the order in which they began.
fn held(
    alloc: Global,
    silo: &SiloAddress,
    host: &Host,
) -> Result<Vec<ListedHeld<'static>>, AllocError>
    ensures { IfOk result (λ held. held.items ≡ map (λ e. dump_held silo.now e.0 e.1) host.now.held) }
{
    let activations = host.activations(alloc)?;
    let mut listed = Vec::with_capacity(alloc, activations.len())?;
    for (grain, held) in &activations {
        let held = dumped_held(alloc, silo, grain, held)?;
        listed.push(held)?;
    }
    Ok(listed)
}

fn dumped_held(
    alloc: Global,
    silo: &SiloAddress,
    grain: &GrainId,
    held: &Held,
) -> Result<ListedHeld<'static>, AllocError>
    ensures { IfOk result (λ dumped. dumped ≡ dump_held silo.now grain.now held.now) }
{
    let activation = ActivationId {
        silo: *silo,
        count: held.count,
    };
    let grain = LentGrain::owned(alloc, grain)?;
    Ok(ListedHeld {
        activation,
        grain,
        phase: phase(&held.phase),
    })
}

fn phase(phase: &Phase) -> ListedPhase
    ensures { phase_of result ≡ dump_phase phase.now }
{
    match phase {
        Phase::Asking(_) => ListedPhase::Asking,
        Phase::Firm => ListedPhase::Firm,
        Phase::Closing(_) => ListedPhase::Closing,
    }
}

// The points of the silo's ring.
fn points(alloc: Global, points: &[Point]) -> Result<Vec<ListedPoint>, AllocError>
    ensures { IfOk result (λ listed. listed.items ≡ points.now) }
{
    points
        .iter()
        .map(|point| ListedPoint {
            place: u64::from(point.place),
            silo: point.silo,
            index: point.index as u64,
        })
        .collect(alloc)
}
