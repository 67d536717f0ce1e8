//! How an activation is kept: in less memory than it takes while it is worked on.
ghost use Rattle.std.proofs.Common.{rules};
ghost use Rattle.std.specs.Cmp.Rules.{comparing};
ghost use Rattle.std.specs.Map.{lookup};
ghost use Rattle.std.specs.Option.{option_map};
ghost use Rattle.std.specs.Prelude.{◌≡◌, Some, IfSome, slice_get};
ghost use Rattle.silo_address.specs.Activation.{activation_eq};
ghost use Rattle.silo_address.specs.Grain.{grain_eq};
ghost use Rattle.host_activations.specs.Kept.{number_of, phase_of, stage_of, state_of};

use directory_rules::{Held, Phase};
use grain_names::GrainMap;
use silo_address::{ActivationId, GrainId, SiloAddress};
use std::marker::Model;
use std::mem::size_of;

// The activation in whose place another asks to be entered. Its count is kept as bytes, which need not be aligned as a number is,
// so that it takes 20 bytes and not 24.
#[derive(Clone, Copy)]
struct Previous {
    silo: SiloAddress,
    count: [u8; 8],
}

impl Model for Previous {
    ghost use Rattle.std.specs.Int.{from_le_bytes, to_le_bytes, w64};
    ghost use Rattle.std.specs.Prelude.{◌≡◌};
    ghost use Rattle.silo_address.specs.declared.activation.ActivationId.{ActivationId};

    ghost Value = { ActivationId };

    ghost view = { λ p. record { silo = p.silo; count = from_le_bytes w64 p.count } };

    ghost invariant = { λ p. to_le_bytes w64 (from_le_bytes w64 p.count) ≡ p.count };

    ghost inverse = { λ v. record { silo = v.silo; count = to_le_bytes w64 v.count } };

    ghost inverse_ok = { λ p h i. record { silo = p.silo; count = h i } };
}

impl Previous {
    fn of(activation: &ActivationId) -> Previous
        ensures { result ≡ activation.now }
    {
        Previous {
            silo: activation.silo,
            count: activation.count.to_le_bytes(),
        }
    }

    fn activation(&self) -> ActivationId
        ensures { result ≡ self.now }
    {
        ActivationId {
            silo: self.silo,
            count: u64::from_le_bytes(self.count),
        }
    }
}

impl PartialEq for Previous {
    ghost eq = { activation_eq };

    ghost laws = { Prim.search (comparing, rules) };

    fn eq(&self, other: &Previous) -> bool {
        self.activation() == other.activation()
    }
}

// A phase without its number.
#[derive(Clone, Copy, PartialEq)]
enum Stage {
    Asking,
    Firm,
    Closing,
}

// The stage of an activation that names no previous one, or of one that does.
#[derive(Clone, Copy, PartialEq)]
enum State {
    Alone(Stage),
    After(Stage, Previous),
}

/// An activation as it is kept. A host has one for each grain that is active on it, and keeps it for long; nearly all that time
/// the activation is firm, so that its phase has no number and there is no previous activation, and what it has room for beside
/// its count lies idle. So the room is as small as can be: one number for all phases, 0 in one that has none, and one tag for all
/// that is or isn't there.
#[derive(Clone, Copy, PartialEq)]
pub(crate) struct Kept {
    count: u64,
    number: u64,
    state: State,
}

// `Held` takes 56.
const _: () = prove!(size_of::<Kept>() == 40);

impl Model for Kept {
    ghost use Rattle.directory_rules.specs.declared.Held.{Held};

    ghost Value = { Held };

    ghost use Rattle.host_activations.specs.KeptFields.{IsKept, held_in, kept_again, kept_as};

    ghost view = { held_in };

    ghost invariant = { IsKept };

    ghost inverse = { kept_as };

    ghost inverse_ok = { kept_again };
}

impl Kept {
    /// How the activation is kept.
    pub(crate) fn of(held: &Held) -> Kept
        ensures { result ≡ held.now }
    {
        Kept {
            count: held.count,
            number: number_of(&held.phase),
            state: state_of(stage_of(&held.phase), &held.previous),
        }
    }

    /// The activation that is kept.
    pub(crate) fn held(&self) -> Held
        ensures { result ≡ self.now }
    {
        let (stage, previous) = match self.state {
            State::Alone(stage) => (stage, None),
            State::After(stage, previous) => (stage, Some(previous.activation())),
        };
        Held {
            count: self.count,
            phase: phase_of(stage, self.number),
            previous,
        }
    }
}

/// The grain's index and its activation, if it is there.
pub(crate) fn held_of(map: &GrainMap<Kept>, grain: &GrainId) -> Option<(usize, Held)>
    ensures value { option_map (λ p. p.1) result ≡ lookup (grain_eq grain.now) map.now }
    ensures entry { IfSome result (λ p. slice_get map.now p.0 ≡ Some (grain.now, p.1)) }
{
    match map.find(grain) {
        Some((index, kept)) => Some((index, kept.held())),
        None => None,
    }
}

/// The grain at the index and its activation, if the index is below the number of grains.
pub(crate) fn held_at(map: &GrainMap<Kept>, index: usize) -> Option<(GrainId, Held)>
    ensures { result ≡ slice_get map.now index }
{
    match map.at(index) {
        Some((grain, kept)) => Some((grain, kept.held())),
        None => None,
    }
}

// The phase without its number.
fn stage_of(phase: &Phase) -> Stage
    ensures { result ≡ stage_of phase.now }
{
    match phase {
        Phase::Asking(_) => Stage::Asking,
        Phase::Firm => Stage::Firm,
        Phase::Closing(_) => Stage::Closing,
    }
}

// The phase's number, and 0 where it has none.
fn number_of(phase: &Phase) -> u64
    ensures { result ≡ number_of phase.now }
{
    match phase {
        Phase::Asking(number) | Phase::Closing(number) => *number,
        Phase::Firm => 0,
    }
}

// The phase of that stage and number.
fn phase_of(stage: Stage, number: u64) -> Phase
    ensures { result ≡ phase_of stage number }
{
    match stage {
        Stage::Asking => Phase::Asking(number),
        Stage::Firm => Phase::Firm,
        Stage::Closing => Phase::Closing(number),
    }
}

// The stage beside the previous activation, if there is one.
fn state_of(stage: Stage, previous: &Option<ActivationId>) -> State
    ensures { result ≡ state_of stage previous.now }
{
    match previous {
        None => State::Alone(stage),
        Some(activation) => State::After(stage, Previous::of(activation)),
    }
}
