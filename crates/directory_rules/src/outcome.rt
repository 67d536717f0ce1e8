ghost use Rattle.std.specs.Prelude.{◌≡◌, ◌↔◌, IsTrue};

use crate::{Effect, LetterKind};
use silo_address::SiloAddress;

/// What happened at an accepted event.
#[derive(Clone, Copy, PartialEq, Eq)]
pub enum Happening {
    /// A silo joined; this made the version, and the older silo of its endpoint became Dead in it, if there was one alive.
    Joined {
        version: u64,
        silo: SiloAddress,
        replaced: Option<SiloAddress>,
    },
    /// A silo began to leave; this made the version.
    Left {
        version: u64,
        silo: SiloAddress,
    },
    /// A silo died; this made the version.
    Died {
        version: u64,
        silo: SiloAddress,
    },
    /// A silo saw the version.
    Saw {
        silo: SiloAddress,
        version: u64,
        effect: Effect,
    },
    /// Another step of the silo's own.
    Did {
        silo: SiloAddress,
        effect: Effect,
    },
    /// The letter of that number and kind came.
    Delivered {
        number: u64,
        kind: LetterKind,
        effect: Effect,
    },
    /// The letter of that number was lost.
    Lost {
        number: u64,
    },
}

/// The first and the last number of the letters that an event sent.
#[derive(Clone, Copy, PartialEq, Eq)]
pub struct Span {
    pub first: u64,
    pub last: u64,
}

/// What an accepted event tells: what happened, and the letters that it sent, if it sent any.
#[derive(Clone, Copy, PartialEq, Eq)]
pub struct Outcome {
    pub happening: Happening,
    pub sent: Option<Span>,
}

impl Outcome {
    /// Whether the two are one outcome.
    pub fn same(&self, other: &Outcome) -> bool
        ensures { IsTrue result ↔ (self.now ≡ other.now) }
    {
        self.happening.same(&other.happening) && same_spans(&self.sent, &other.sent)
    }

    /// The outcome itself: it is copied and not cloned.
    pub fn copy(&self) -> Outcome
        ensures { result ≡ self.now }
    {
        *self
    }
}

impl Happening {
    /// Whether the two are one happening.
    pub fn same(&self, other: &Happening) -> bool
        ensures { IsTrue result ↔ (self.now ≡ other.now) }
    {
        match (self, other) {
            (
                Happening::Joined {
                    version,
                    silo,
                    replaced,
                },
                Happening::Joined {
                    version: its,
                    silo: other,
                    replaced: older,
                },
            ) => version == its && silo.same(other) && same_silos(replaced, older),
            (
                Happening::Left { version, silo },
                Happening::Left {
                    version: its,
                    silo: other,
                },
            ) => version == its && silo.same(other),
            (
                Happening::Died { version, silo },
                Happening::Died {
                    version: its,
                    silo: other,
                },
            ) => version == its && silo.same(other),
            (
                Happening::Saw {
                    silo,
                    version,
                    effect,
                },
                Happening::Saw {
                    silo: other,
                    version: its,
                    effect: done,
                },
            ) => version == its && silo.same(other) && same_effects(effect, done),
            (
                Happening::Did { silo, effect },
                Happening::Did {
                    silo: other,
                    effect: done,
                },
            ) => silo.same(other) && same_effects(effect, done),
            (
                Happening::Delivered {
                    number,
                    kind,
                    effect,
                },
                Happening::Delivered {
                    number: its,
                    kind: other,
                    effect: done,
                },
            ) => number == its && kind.same(other) && same_effects(effect, done),
            (Happening::Lost { number }, Happening::Lost { number: its }) => number == its,
            _ => false,
        }
    }
}

fn same_spans(one: &Option<Span>, other: &Option<Span>) -> bool
    ensures { IsTrue result ↔ (one.now ≡ other.now) }
{
    one == other
}

fn same_silos(one: &Option<SiloAddress>, other: &Option<SiloAddress>) -> bool
    ensures { IsTrue result ↔ (one.now ≡ other.now) }
{
    one == other
}

fn same_effects(one: &Effect, other: &Effect) -> bool
    ensures { IsTrue result ↔ (one.now ≡ other.now) }
{
    match (one, other) {
        (Effect::Started(entry), Effect::Started(its))
        | (Effect::Closing(entry), Effect::Closing(its))
        | (Effect::Cancelled(entry), Effect::Cancelled(its))
        | (Effect::Cached(entry), Effect::Cached(its)) => entry.same(its),
        (
            Effect::Offered { entry, to },
            Effect::Offered {
                entry: its,
                to: whom,
            },
        ) => entry.same(its) && to.same(whom),
        (Effect::Finding(grain), Effect::Finding(its))
        | (Effect::Forgot(grain), Effect::Forgot(its))
        | (Effect::NothingCached(grain), Effect::NothingCached(its)) => grain.same(its),
        (Effect::Retry(why), Effect::Retry(its)) => why.same(its),
        (Effect::Refused(number), Effect::Refused(its)) => number == its,
        (Effect::Next, Effect::Next)
        | (Effect::Skip, Effect::Skip)
        | (Effect::Nudged, Effect::Nudged)
        | (Effect::Registered, Effect::Registered)
        | (Effect::Taken, Effect::Taken)
        | (Effect::Removed, Effect::Removed)
        | (Effect::Absent, Effect::Absent)
        | (Effect::Found, Effect::Found)
        | (Effect::Nothing, Effect::Nothing)
        | (Effect::Firm, Effect::Firm)
        | (Effect::Yielded, Effect::Yielded)
        | (Effect::Ended, Effect::Ended)
        | (Effect::Learnt, Effect::Learnt)
        | (Effect::Noted, Effect::Noted)
        | (Effect::Ignored, Effect::Ignored)
        | (Effect::Page, Effect::Page)
        | (Effect::Missing, Effect::Missing)
        | (Effect::Behind, Effect::Behind)
        | (Effect::Ahead, Effect::Ahead)
        | (Effect::Installed, Effect::Installed)
        | (Effect::Gathering, Effect::Gathering)
        | (Effect::Recovering, Effect::Recovering)
        | (Effect::Deleted, Effect::Deleted)
        | (Effect::Report, Effect::Report)
        | (Effect::More, Effect::More)
        | (Effect::Complete, Effect::Complete) => true,
        _ => false,
    }
}
