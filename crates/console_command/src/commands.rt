//! Commands carried out: what they make of the world, and the lines that they print.

#![tactic(auto, using(crate::proofs::Lines::line_by_line))]

ghost use Rattle.std.specs.Prelude.{◌≡◌, [], ◌∷◌, IfOk, OnOk, OnErr};
ghost use Rattle.script_rules.specs.Output.{events_in_turn, performed, delivered_all};
ghost use Rattle.directory_rules.specs.EventModel.{event_of};
ghost use Rattle.script_lines.specs.CommandModel.{command_of};
ghost use Rattle.script_lines.specs.Spaced.{BeginsWith};
ghost use Rattle.console_command.specs.Commands.{Performs, TakesTurn, delivery_turn, event_turn, in_session};

use crate::dump::{tell_dump, tell_verdict};
use crate::letters::tell_mail;
use crate::place::tell_place;
use crate::shown::{show, tell_owner};
use crate::sync::sync;
use directory_core::World;
use directory_rules::Event;
use script_lines::{Command, write_outcome, write_refusal};
use std::alloc::{AllocError, Global};
use texts::taken_back_at_error;

/// Does what a command asks for, and writes what it prints behind what is written already. Fails only when memory runs out; then
/// nothing is written, and the world may have changed.
#[tactic(auto, using(script_lines::proofs::Fronts::front_taken))]
pub(crate) fn perform(
    alloc: Global,
    world: &mut World,
    command: &Command,
    out: &mut Vec<u8>,
) -> Result<(), AllocError>
    ensures performed { OnOk result (Performs (performed (in_session world.old) (command_of command.now)) out.old.items world.new out.new.items) }
    ensures unwritten { OnErr result (out.new.items ≡ out.old.items) }
{
    let start = out.len();
    let done = play_command(alloc, world, command, out);
    taken_back_at_error(out, start, done)
}

// One function a command.
#[tactic(auto, unfolding(script_rules::specs::Output::performed))]
fn play_command(
    alloc: Global,
    world: &mut World,
    command: &Command,
    out: &mut Vec<u8>,
) -> Result<(), AllocError>
    ensures performed { OnOk result (Performs (performed (in_session world.old) (command_of command.now)) out.old.items world.new out.new.items) }
    ensures kept { OnErr result (BeginsWith out.old.items out.new.items) }
{
    match command {
        Command::Happen(event) => happen(world, event, out),
        Command::Sync => sync(alloc, world, out),
        Command::Settle => settle(world, out),
        Command::Owner { hash } => tell_owner(alloc, world, *hash, out),
        Command::Place {
            silo,
            policy,
            grain,
        } => tell_place(alloc, world, silo, *policy, grain, out),
        Command::Show => show(alloc, world, out),
        Command::Mail => tell_mail(world, out),
        Command::Dump => tell_dump(alloc, world, out),
        Command::Check => tell_verdict(alloc, world, out),
    }
}

// An event: the line that tells it, or its refusal.
fn happen(world: &mut World, event: &Event, out: &mut Vec<u8>) -> Result<(), AllocError>
    ensures performed { OnOk result (Performs (events_in_turn (event_of event.now ∷ []) (in_session world.old)) out.old.items world.new out.new.items) }
    ensures kept { OnErr result (BeginsWith out.old.items out.new.items) }
{
    take_turn(world, event, out)?;
    Ok(())
}

/// The same of one event among others: whether it was accepted, so that what comes next may happen.
pub(crate) fn take_turn(
    world: &mut World,
    event: &Event,
    out: &mut Vec<u8>,
) -> Result<bool, AllocError>
    ensures taken { IfOk result (TakesTurn (event_turn world.old (event_of event.now)) out.old.items world.new out.new.items) }
    ensures unwritten { OnErr result (out.new.items ≡ out.old.items) }
{
    match &world.apply(event) {
        Ok(outcome) => {
            write_outcome(out, outcome)?;
            Ok(true)
        }
        Err(fault) => {
            let Some(number) = fault.number() else {
                return Err(AllocError);
            };
            write_refusal(out, number)?;
            Ok(false)
        }
    }
}

// Fresh letters are delivered until there is none or one is refused, as many at most as may ever be sent.
fn settle(world: &mut World, out: &mut Vec<u8>) -> Result<(), AllocError>
    ensures performed { OnOk result (Performs (delivered_all (in_session world.old)) out.old.items world.new out.new.items) }
    ensures kept { OnErr result (BeginsWith out.old.items out.new.items) }
{
    let most = world.settings().letters();
    for _delivered in 0..most {
        if !deliver_next(world, out)? {
            return Ok(());
        }
    }
    Ok(())
}

// The least letter that may be delivered is, if there is one: whether another may follow.
fn deliver_next(world: &mut World, out: &mut Vec<u8>) -> Result<bool, AllocError>
    ensures taken { IfOk result (TakesTurn (delivery_turn world.old) out.old.items world.new out.new.items) }
    ensures unwritten { OnErr result (out.new.items ≡ out.old.items) }
{
    let Some(number) = world.least_deliverable() else {
        return Ok(false);
    };
    take_turn(world, &Event::Deliver { number }, out)
}
