//! A silo's own steps kept short: such a step and what it did mostly name one grain, and its name is mostly short.
ghost use Rattle.std.specs.Box.{boxed_str_bytes};
ghost use Rattle.std.specs.Prelude.{◌≡◌, IfSome, Ok};
ghost use Rattle.silo_address.specs.ReadGrain.{grain_at_slash, read_grain};
ghost use Rattle.directory_rules.specs.EventModel.{event_of};
ghost use Rattle.cluster_journal.specs.Stepped.{effect_by, entry_by, sent_by, step_by};

use directory_rules::{Effect, Event, Happening, Outcome, OwnStep, Span};
use silo_address::{ActivationId, Entry, GrainId, SiloAddress};
use std::alloc::Global;
use std::boxed::BoxedStr;
use std::marker::Model;

// What an application asked about a grain.
#[derive(Clone, Copy)]
pub(crate) enum Asked {
    Wake,
    Close,
    Cancel,
    Find,
    Forget,
    NudgeGrain,
}

// An activation whose count takes 32 bits.
#[derive(Clone, Copy)]
pub(crate) struct ShortActivation {
    pub(crate) silo: SiloAddress,
    pub(crate) count: u32,
}

// What the step did about the grain.
#[derive(Clone, Copy)]
pub(crate) enum Did {
    Started(ShortActivation),
    Closing(ShortActivation),
    Cancelled(ShortActivation),
    Cached(ShortActivation),
    Finding,
    Forgot,
    NothingCached,
    Nudged,
}

// A step about a grain that did something about it and sent one letter at most, whose number takes 32 bits: 0 where none was sent. The
// grain is there once, and takes as much memory as its name is long.
#[derive(Drop)]
pub(crate) struct Stepped {
    name: BoxedStr,
    silo: SiloAddress,
    did: Did,
    letter: u32,
    asked: Asked,
}

impl Model for Stepped {
    ghost use Rattle.cluster_journal.specs.Entry.{EntryValue};

    ghost Value = { EntryValue };

    ghost use Rattle.cluster_journal.specs.SteppedModel.{IsNamed, entry_in};

    ghost view = { entry_in };

    ghost invariant = { IsNamed };
}

impl Stepped {
    // The entry of this event, which told this, if it can be kept so, and there is memory for the name.
    pub(crate) fn of(alloc: Global, event: &Event, outcome: &Outcome) -> Option<Stepped>
        ensures { IfSome result (λ stepped. stepped ≡ record { event = event_of event.now; outcome = outcome.now }) }
    {
        let Event::Do { silo, step } = event else {
            return None;
        };
        let Happening::Did { silo: its, effect } = &outcome.happening else {
            return None;
        };
        if !silo.same(its) {
            return None;
        }
        let (asked, grain) = asked_in(step)?;
        let did = did_about(grain, effect)?;
        let letter = letter_in(&outcome.sent)?;
        grain.in_range();
        match BoxedStr::from_str(alloc, grain.as_str()) {
            Ok(name) => Some(Stepped {
                name,
                silo: *silo,
                did,
                letter,
                asked,
            }),
            Err(_) => None,
        }
    }

    // The event.
    pub(crate) fn event(&self) -> Event
        ensures { event_of result ≡ self.now.event }
    {
        let grain = grain_of(&self.name);
        Event::Do {
            silo: self.silo,
            step: step_by(self.asked, grain),
        }
    }

    // What it told.
    pub(crate) fn outcome(&self) -> Outcome
        ensures { result ≡ self.now.outcome }
    {
        let grain = grain_of(&self.name);
        Outcome {
            happening: Happening::Did {
                silo: self.silo,
                effect: effect_by(self.did, grain),
            },
            sent: sent_by(self.letter),
        }
    }
}

// What was asked, and about which grain; an offer names more, and two nudges name none.
fn asked_in(step: &OwnStep) -> Option<(Asked, &GrainId)>
    ensures { IfSome result (λ asked. step_by asked.0 asked.1.now ≡ step.now) }
{
    match step {
        OwnStep::Wake(grain) => Some((Asked::Wake, grain)),
        OwnStep::Close(grain) => Some((Asked::Close, grain)),
        OwnStep::Cancel(grain) => Some((Asked::Cancel, grain)),
        OwnStep::Find(grain) => Some((Asked::Find, grain)),
        OwnStep::Forget(grain) => Some((Asked::Forget, grain)),
        OwnStep::NudgeGrain(grain) => Some((Asked::NudgeGrain, grain)),
        OwnStep::Nudge | OwnStep::NudgeRanges | OwnStep::Offer { .. } => None,
    }
}

// The step that asked so about the grain.
fn step_by(asked: Asked, grain: GrainId) -> OwnStep
    ensures { result ≡ step_by asked grain }
{
    match asked {
        Asked::Wake => OwnStep::Wake(grain),
        Asked::Close => OwnStep::Close(grain),
        Asked::Cancel => OwnStep::Cancel(grain),
        Asked::Find => OwnStep::Find(grain),
        Asked::Forget => OwnStep::Forget(grain),
        Asked::NudgeGrain => OwnStep::NudgeGrain(grain),
    }
}

// What was done about this grain, if that is all that was done.
fn did_about(grain: &GrainId, effect: &Effect) -> Option<Did>
    ensures { IfSome result (λ did. effect_by did grain.now ≡ effect.now) }
{
    match effect {
        Effect::Started(entry) => Some(Did::Started(activation_in(grain, entry)?)),
        Effect::Closing(entry) => Some(Did::Closing(activation_in(grain, entry)?)),
        Effect::Cancelled(entry) => Some(Did::Cancelled(activation_in(grain, entry)?)),
        Effect::Cached(entry) => Some(Did::Cached(activation_in(grain, entry)?)),
        Effect::Finding(its) if grain.same(its) => Some(Did::Finding),
        Effect::Forgot(its) if grain.same(its) => Some(Did::Forgot),
        Effect::NothingCached(its) if grain.same(its) => Some(Did::NothingCached),
        Effect::Nudged => Some(Did::Nudged),
        _ => None,
    }
}

// The effect that did so about the grain.
fn effect_by(did: Did, grain: GrainId) -> Effect
    ensures { result ≡ effect_by did grain }
{
    match did {
        Did::Started(activation) => Effect::Started(entry_by(activation, grain)),
        Did::Closing(activation) => Effect::Closing(entry_by(activation, grain)),
        Did::Cancelled(activation) => Effect::Cancelled(entry_by(activation, grain)),
        Did::Cached(activation) => Effect::Cached(entry_by(activation, grain)),
        Did::Finding => Effect::Finding(grain),
        Did::Forgot => Effect::Forgot(grain),
        Did::NothingCached => Effect::NothingCached(grain),
        Did::Nudged => Effect::Nudged,
    }
}

// The activation of an entry of this grain, if its count takes 32 bits.
fn activation_in(grain: &GrainId, entry: &Entry) -> Option<ShortActivation>
    ensures { IfSome result (λ activation. entry_by activation grain.now ≡ entry.now) }
{
    if !grain.same(&entry.grain) {
        return None;
    }
    let count = entry.activation.count;
    if count > u64::from(u32::MAX) {
        return None;
    }
    Some(ShortActivation {
        silo: entry.activation.silo,
        count: count as u32,
    })
}

// The entry of the grain and the activation.
fn entry_by(activation: ShortActivation, grain: GrainId) -> Entry
    ensures { result ≡ entry_by activation grain }
{
    Entry {
        grain,
        activation: ActivationId {
            silo: activation.silo,
            count: u64::from(activation.count),
        },
    }
}

// The number of the one letter that was sent, if it takes 32 bits, and 0 where none was sent.
fn letter_in(sent: &Option<Span>) -> Option<u32>
    ensures { IfSome result (λ letter. sent_by letter ≡ sent.now) }
{
    let Some(span) = sent else {
        return Some(0);
    };
    let first = span.first;
    if first == 0 || first != span.last || first > u64::from(u32::MAX) {
        return None;
    }
    Some(first as u32)
}

// The one letter of that number; none at 0.
fn sent_by(letter: u32) -> Option<Span>
    ensures { result ≡ sent_by letter }
{
    if letter == 0 {
        return None;
    }
    let number = u64::from(letter);
    Some(Span {
        first: number,
        last: number,
    })
}

// The grain of that name.
fn grain_of(name: &BoxedStr) -> GrainId
    requires { read_grain (boxed_str_bytes name.now) ≡ Ok (grain_at_slash (boxed_str_bytes name.now)) }
    ensures { result ≡ grain_at_slash (boxed_str_bytes name.now) }
{
    match GrainId::parse(name.as_str().as_bytes()) {
        Ok(grain) => grain,
        Err(_) => unreachable!(),
    }
}
