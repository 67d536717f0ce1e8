//! All silos see what they haven't seen.

#![tactic(auto, using(crate::proofs::Lines::line_by_line))]

ghost use Rattle.std.specs.Prelude.{◌≡◌, IfOk, OnOk, OnErr, flat_map, map};
ghost use Rattle.directory_rules.specs.Event.{See};
ghost use Rattle.script_rules.specs.Output.{events_in_turn, sync_events, unseen_versions};
ghost use Rattle.script_lines.specs.Spaced.{BeginsWith};
ghost use Rattle.console_command.specs.Commands.{Performs, TakeTurns, in_session, sights};

use crate::commands::take_turn;
use directory_core::World;
use directory_node::SharedNode;
use directory_rules::Event;
use silo_address::SiloAddress;
use std::alloc::{AllocError, Global};

/// The versions that a silo hasn't seen: all after the one that it has, and none from before it joined.
#[derive(Clone, Copy)]
pub(crate) struct Unseen {
    silo: SiloAddress,
    /// The version that the silo has seen, or the last before it joined.
    after: u64,
}

/// Each silo that isn't Dead, by address, sees one after the other the versions that it hasn't, up to the current one or to
/// a refusal. Costs a row for each such silo, and the sights.
pub(crate) fn sync(alloc: Global, world: &mut World, out: &mut Vec<u8>) -> Result<(), AllocError>
    ensures performed { OnOk result (Performs (events_in_turn (sync_events world.old) (in_session world.old)) out.old.items world.new out.new.items) }
    ensures kept { OnErr result (BeginsWith out.old.items out.new.items) }
{
    let current = world.current();
    let silos = unseen_by_all(alloc, world)?;
    see_all(world, silos.as_slice(), current, out)
}

// What each silo that isn't Dead hasn't seen, by address.
fn unseen_by_all(alloc: Global, world: &World) -> Result<Vec<Unseen>, AllocError>
    ensures { IfOk result (λ silos. flat_map (sights world.now.views.version) silos.items ≡ sync_events world.now) }
{
    let mut silos = Vec::new(alloc);
    for (silo, node) in world.nodes() {
        silos.push(unseen_by(world, silo, node))?;
    }
    Ok(silos)
}

fn unseen_by(world: &World, silo: &SiloAddress, node: &SharedNode) -> Unseen
    ensures { sights world.now.views.version result ≡ map (See silo.now) (unseen_versions world.now silo.now node.now) }
{
    let joined = world.views().joined_at(silo).unwrap_or(0);
    let seen = node.node().view().version();
    Unseen {
        silo: *silo,
        after: seen.max(joined.saturating_sub(1)),
    }
}

// The silos see, one after the other, up to a refusal.
fn see_all(
    world: &mut World,
    silos: &[Unseen],
    current: u64,
    out: &mut Vec<u8>,
) -> Result<(), AllocError>
    ensures performed { OnOk result (Performs (events_in_turn (flat_map (sights current) silos.now) (in_session world.old)) out.old.items world.new out.new.items) }
    ensures kept { OnErr result (BeginsWith out.old.items out.new.items) }
{
    for unseen in silos {
        if !see_up_to(world, unseen, current, out)? {
            return Ok(());
        }
    }
    Ok(())
}

// A silo sees the versions that it hasn't up to the current one, or to a refusal: whether there was none.
fn see_up_to(
    world: &mut World,
    unseen: &Unseen,
    current: u64,
    out: &mut Vec<u8>,
) -> Result<bool, AllocError>
    ensures taken { IfOk result (TakeTurns (sights current unseen.now) world.old out.old.items world.new out.new.items) }
    ensures kept { OnErr result (BeginsWith out.old.items out.new.items) }
{
    let silo = unseen.silo;
    for seen in unseen.after..current {
        let version = seen + 1;
        if !take_turn(world, &Event::See { silo, version }, out)? {
            return Ok(false);
        }
    }
    Ok(true)
}
