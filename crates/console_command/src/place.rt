//! On which silo a new activation of a grain would begin.

#![tactic(auto, using(crate::proofs::Lines::line_by_line))]

ghost use Rattle.std.specs.Prelude.{◌≡◌, [], ◌∷◌, IfOk, OnOk, OnErr};
ghost use Rattle.directory_rules.specs.Happens.{absent_number};
ghost use Rattle.directory_rules.specs.Placement.{count_of};
ghost use Rattle.script_rules.specs.Output.{printing};
ghost use Rattle.script_rules.specs.Show.{chosen_place, held_counts, place_line};
ghost use Rattle.script_lines.specs.Spaced.{BeginsWith};
ghost use Rattle.console_command.specs.Commands.{Performs, in_session};
ghost use Rattle.console_command.specs.Reports.{CountsAll, CountsAsked};

use directory_core::World;
use directory_node::Node;
use directory_rules::Policy;
use membership_view::{Status, View};
use script_lines::{laws, write_place, write_refusal};
use silo_address::{GrainId, SiloAddress};
use silo_placement::silo_for;
use std::alloc::{AllocError, Global};
use std::collections::BTreeMap;

/// Writes the line that tells where the silo would place the grain, or its refusal.
pub(crate) fn tell_place(
    alloc: Global,
    world: &World,
    silo: &SiloAddress,
    policy: Policy,
    grain: &GrainId,
    out: &mut Vec<u8>,
) -> Result<(), AllocError>
    ensures performed { OnOk result (Performs (printing (place_line world.now silo.now policy grain.now ∷ []) (in_session world.now)) out.old.items world.now out.new.items) }
    ensures kept { OnErr result (BeginsWith out.old.items out.new.items) }
{
    laws::lines_of_letters_and_places();
    let Some(node) = world.node(silo) else {
        return write_refusal(out, absent_number(world, silo));
    };
    let chosen = chosen_place(alloc, world, policy, node, grain)?;
    write_place(out, grain, chosen)
}

// The number by which a silo without a node is refused.
fn absent_number(world: &World, silo: &SiloAddress) -> u16
    ensures { result ≡ absent_number world.now silo.now }
{
    match world.views().status(world.current(), silo) {
        None => 901,
        Some(Status::Active | Status::Leaving | Status::Dead) => 902,
    }
}

// The silo that the policy chooses, by the view that the asking node has seen.
fn chosen_place(
    alloc: Global,
    world: &World,
    policy: Policy,
    node: &Node,
    grain: &GrainId,
) -> Result<Option<SiloAddress>, AllocError>
    ensures { IfOk result (λ chosen. chosen ≡ chosen_place world.now policy node.now grain.now) }
{
    let counts = counts_asked(alloc, world, policy, node.view())?;
    let hash = world.settings().hashing().hash_grain(grain);
    Ok(silo_for(policy, node.view(), &node.host().silo(), hash, &counts))
}

// How many activations each silo in the view holds now, where the policy looks at that.
fn counts_asked(
    alloc: Global,
    world: &World,
    policy: Policy,
    view: &View,
) -> Result<BTreeMap<SiloAddress, u64>, AllocError>
    ensures { IfOk result (λ counts. CountsAsked policy world.now view.now counts.entries) }
{
    match policy {
        Policy::LeastHeld => counts_in(alloc, world, view),
        Policy::PreferLocal | Policy::HashBased => Ok(BTreeMap::new(alloc)),
    }
}

// How many activations each silo in the view holds now.
fn counts_in(
    alloc: Global,
    world: &World,
    view: &View,
) -> Result<BTreeMap<SiloAddress, u64>, AllocError>
    ensures { IfOk result (λ counts. CountsAll world.now view.now counts.entries) }
{
    let mut counts = BTreeMap::new(alloc);
    for row in view.rows() {
        counts.insert(row.0, held_count(world, &row.0))?;
    }
    Ok(counts)
}

// How many activations the silo holds now: none where it has no node.
fn held_count(world: &World, silo: &SiloAddress) -> u64
    ensures { result ≡ count_of (held_counts world.now) silo.now }
{
    match world.node(silo) {
        Some(node) => node.host().held_count() as u64,
        None => 0,
    }
}
