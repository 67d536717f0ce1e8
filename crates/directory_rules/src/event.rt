ghost use Rattle.std.specs.Prelude.{◌≡◌, ◌<◌, ◌↔◌, All, IfOk, IsTrue, OnErr};
ghost use Rattle.directory_rules.specs.Event.{IsEvent};
ghost use Rattle.ring_range.specs.Range.{circle};
ghost use Rattle.directory_rules.specs.EventCopies.{NeedsMemory};
ghost use Rattle.directory_rules.specs.EventModel.{event_of};

use crate::OwnStep;
use silo_address::SiloAddress;
use std::alloc::AllocError;

/// What may happen to a cluster (`docs/RULES.md#the-world`).
#[derive(Drop)]
pub enum Event {
    /// A silo joins, with the places of its points where they are stated and not hashed.
    Join { silo: SiloAddress, places: Vec<u32> },
    /// A silo begins to leave.
    Leave { silo: SiloAddress },
    /// A silo dies.
    Kill { silo: SiloAddress },
    /// A silo sees a version.
    See { silo: SiloAddress, version: u64 },
    /// A silo does what its application asks of it.
    Do { silo: SiloAddress, step: OwnStep },
    /// The letter of that number comes to its receiver.
    Deliver { number: u64 },
    /// The letter of that number is lost for good.
    Lose { number: u64 },
}

impl Event {
    /// A law: the silos, the grain and the places of an event are in their ranges.
    pub fn in_range(&self)
        ensures { IsEvent (event_of self.now) }
    {
        match self {
            Event::Join { silo, places } => {
                silo.in_range();
                are_hashes(places);
            }
            Event::Leave { silo } | Event::Kill { silo } | Event::See { silo, .. } =>
                silo.in_range(),
            Event::Do { silo, step } => {
                silo.in_range();
                step.in_range();
            }
            Event::Deliver { .. } | Event::Lose { .. } => {}
        }
    }

    /// An equal event. Fails only when memory runs out, and only at a join, whose places are copied.
    pub fn copy(&self) -> Result<Event, AllocError>
        ensures copied { IfOk result (λ event. event_of event ≡ event_of self.now) }
        ensures memory { OnErr result (NeedsMemory (event_of self.now)) }
    {
        match self {
            Event::Join { silo, places } => {
                let places = places.clone()?;
                Ok(Event::Join {
                    silo: *silo,
                    places,
                })
            }
            Event::Leave { silo } => Ok(Event::Leave { silo: *silo }),
            Event::Kill { silo } => Ok(Event::Kill { silo: *silo }),
            Event::See { silo, version } => Ok(Event::See {
                silo: *silo,
                version: *version,
            }),
            Event::Do { silo, step } => Ok(Event::Do {
                silo: *silo,
                step: *step,
            }),
            Event::Deliver { number } => Ok(Event::Deliver { number: *number }),
            Event::Lose { number } => Ok(Event::Lose { number: *number }),
        }
    }

    /// Whether the two are one event.
    pub fn same(&self, other: &Event) -> bool
        ensures { IsTrue result ↔ (event_of self.now ≡ event_of other.now) }
    {
        match (self, other) {
            (
                Event::Join { silo, places },
                Event::Join {
                    silo: its,
                    places: given,
                },
            ) => silo.same(its) && same_places(places, given),
            (Event::Leave { silo }, Event::Leave { silo: its }) => silo.same(its),
            (Event::Kill { silo }, Event::Kill { silo: its }) => silo.same(its),
            (
                Event::See { silo, version },
                Event::See {
                    silo: its,
                    version: other,
                },
            ) => silo.same(its) && version == other,
            (
                Event::Do { silo, step },
                Event::Do {
                    silo: its,
                    step: other,
                },
            ) => silo.same(its) && step.same(other),
            (Event::Deliver { number }, Event::Deliver { number: its }) => number == its,
            (Event::Lose { number }, Event::Lose { number: its }) => number == its,
            _ => false,
        }
    }
}

fn same_places(one: &[u32], other: &[u32]) -> bool
    ensures { IsTrue result ↔ (one.now ≡ other.now) }
{
    *one == *other
}

// A law: numbers of 32 bits are hashes.
fn are_hashes(places: &[u32])
    ensures { All (λ place. place < circle) places.now }
{
    let _count = places.len();
}
