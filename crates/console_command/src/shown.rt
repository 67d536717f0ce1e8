//! What is printed of a world: the whole directory, and the owner of a hash.

#![tactic(auto, using(crate::proofs::Lines::line_by_line))]

ghost use Rattle.std.specs.Prelude.{◌≡◌, ◌++◌, [], ◌∷◌, IfOk, OnOk, OnErr, flat_map, map};
ghost use Rattle.directory_rules.specs.Happens.{node_of};
ghost use Rattle.script_rules.specs.Output.{printing};
ghost use Rattle.texts.specs.Printed.{text_of_lines};
ghost use Rattle.script_rules.specs.Show.{held_line, owner_line, range_line, range_lines, show_lines, silo_lines};
ghost use Rattle.directory_rules.specs.World.{current_ring};
ghost use Rattle.membership_view.specs.Views.{known_now};
ghost use Rattle.script_lines.specs.Shown.{settled_entries};
ghost use Rattle.script_lines.specs.Spaced.{BeginsWith};
ghost use Rattle.console_command.specs.Commands.{Performs, in_session};

use directory_core::World;
use directory_rules::Held;
use host_activations::Host;
use membership_view::Status;
use ring_range::RingRange;
use script_lines::{
    laws, write_held, write_no_owner, write_owner, write_range, write_silo, write_version,
};
use silo_address::{GrainId, SiloAddress};
use std::alloc::{AllocError, Global};

/// Writes the line that tells the owner of a hash in the current view.
pub(crate) fn tell_owner(
    alloc: Global,
    world: &World,
    hash: u32,
    out: &mut Vec<u8>,
) -> Result<(), AllocError>
    ensures performed { OnOk result (Performs (printing (owner_line world.now hash ∷ []) (in_session world.now)) out.old.items world.now out.new.items) }
    ensures kept { OnErr result (BeginsWith out.old.items out.new.items) }
{
    laws::lines_are_of_the_world();
    let owner = world.owner(alloc, hash)?;
    write_owner(out, hash, owner)
}

/// Writes the whole directory: the current version, each silo with what it holds, and the ranges of the current ring.
#[tactic(auto, unfolding(script_rules::specs::Show::show_lines))]
pub fn show(alloc: Global, world: &World, out: &mut Vec<u8>) -> Result<(), AllocError>
    ensures performed { OnOk result (Performs (printing (show_lines world.now) (in_session world.now)) out.old.items world.now out.new.items) }
    ensures kept { OnErr result (BeginsWith out.old.items out.new.items) }
{
    write_version(out, world.current())?;
    show_silos(alloc, world, out)?;
    show_ranges(alloc, world, out)
}

// Each silo that ever joined, by address.
fn show_silos(alloc: Global, world: &World, out: &mut Vec<u8>) -> Result<(), AllocError>
    ensures shown { OnOk result (out.new.items ≡ out.old.items ++ text_of_lines (flat_map (λ e. silo_lines e.0 e.1 (node_of world.now e.0)) (known_now world.now.views))) }
    ensures kept { BeginsWith out.old.items out.new.items }
{
    for (silo, row) in world.views().rows() {
        if let Some(status) = row.status(world.current()) {
            show_silo(alloc, world, silo, status, out)?;
        }
    }
    Ok(())
}

// A silo, and the activations that it holds.
fn show_silo(
    alloc: Global,
    world: &World,
    silo: &SiloAddress,
    status: Status,
    out: &mut Vec<u8>,
) -> Result<(), AllocError>
    ensures shown { OnOk result (out.new.items ≡ out.old.items ++ text_of_lines (silo_lines silo.now status (node_of world.now silo.now))) }
    ensures kept { BeginsWith out.old.items out.new.items }
{
    laws::lines_are_of_the_world();
    let Some(node) = world.node(silo) else {
        return write_silo(out, silo, status, None);
    };
    let standing = (node.view().version(), node.host().held_count());
    write_silo(out, silo, status, Some(standing))?;
    show_held(alloc, node.host(), silo, out)
}

// The activations that a silo holds, in the order in which they began.
fn show_held(
    alloc: Global,
    host: &Host,
    silo: &SiloAddress,
    out: &mut Vec<u8>,
) -> Result<(), AllocError>
    ensures shown { OnOk result (out.new.items ≡ out.old.items ++ text_of_lines (map (λ e. held_line silo.now e.0 e.1) host.now.held)) }
    ensures kept { BeginsWith out.old.items out.new.items }
{
    let activations = host.activations(alloc)?;
    show_each_held(activations.as_slice(), silo, out)
}

fn show_each_held(
    activations: &[(GrainId, Held)],
    silo: &SiloAddress,
    out: &mut Vec<u8>,
) -> Result<(), AllocError>
    ensures shown { OnOk result (out.new.items ≡ out.old.items ++ text_of_lines (map (λ e. held_line silo.now e.0 e.1) activations.now)) }
    ensures kept { BeginsWith out.old.items out.new.items }
{
    for row in activations {
        write_held(out, silo, &row.0, &row.1)?;
    }
    Ok(())
}

// The ranges of the current ring, by place.
fn show_ranges(alloc: Global, world: &World, out: &mut Vec<u8>) -> Result<(), AllocError>
    ensures shown { OnOk result (out.new.items ≡ out.old.items ++ text_of_lines (range_lines world.now (current_ring world.now))) }
    ensures kept { BeginsWith out.old.items out.new.items }
{
    let ring = world.current_ring(alloc)?;
    if ring.points().is_empty() {
        return write_no_owner(out);
    }
    let ranges = ring.owned_ranges(alloc)?;
    show_each_range(world, ranges.as_slice(), out)
}

fn show_each_range(
    world: &World,
    ranges: &[(RingRange, SiloAddress)],
    out: &mut Vec<u8>,
) -> Result<(), AllocError>
    ensures shown { OnOk result (out.new.items ≡ out.old.items ++ text_of_lines (map (λ e. range_line world.now e.0 e.1) ranges.now)) }
    ensures kept { BeginsWith out.old.items out.new.items }
{
    for row in ranges {
        show_range(world, &row.0, &row.1, out)?;
    }
    Ok(())
}

// A range and its owner.
fn show_range(
    world: &World,
    range: &RingRange,
    owner: &SiloAddress,
    out: &mut Vec<u8>,
) -> Result<(), AllocError>
    ensures shown { OnOk result (out.new.items ≡ out.old.items ++ text_of_lines (range_line world.now range.now owner.now ∷ [])) }
    ensures kept { BeginsWith out.old.items out.new.items }
{
    laws::lines_are_of_the_world();
    let entries = settled_entries(world, range, owner)?;
    write_range(out, range, owner, entries)
}

// How many entries a range has at its owner, where it is settled there.
fn settled_entries(
    world: &World,
    range: &RingRange,
    owner: &SiloAddress,
) -> Result<Option<usize>, AllocError>
    ensures { IfOk result (λ entries. entries ≡ settled_entries world.now (node_of world.now owner.now) range.now) }
{
    let Some(node) = world.node(owner) else {
        return Ok(None);
    };
    if node.view().version() != world.current() {
        return Ok(None);
    }
    world.tidy(owner);
    node.holding()
        .settled_entries(world.settings().hashing(), range)
}
