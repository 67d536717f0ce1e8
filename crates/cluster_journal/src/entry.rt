ghost use Rattle.std.specs.Prelude.{◌≡◌, ◌↔◌, IfOk, IsTrue, OnErr};
ghost use Rattle.directory_rules.specs.EventCopies.{NeedsMemory};
ghost use Rattle.directory_rules.specs.EventModel.{event_of};

use crate::short::Delivery;
use crate::stepped::Stepped;
use directory_rules::{Event, Happening, Outcome};
use std::alloc::{AllocError, Global};
use std::marker::Model;
use std::mem::size_of;

/// An accepted event, and what it told (`docs/RULES.md#the-board`).
#[derive(Drop)]
pub struct JournalEntry {
    form: Form,
}

// Deliveries are kept short, but for those that name a grain, and so are a silo's own steps that name one, where there is memory for
// its name; all else lies apart.
#[derive(Drop)]
enum Form {
    Short(Delivery),
    Step(Stepped),
    Long(Box<Whole>),
}

// An event, and what it told or may tell.
#[derive(Drop)]
struct Whole {
    event: Event,
    outcome: Outcome,
}

// A journal has an entry for each event that was ever accepted.
const _: () = prove!(size_of::<JournalEntry>() == 72);

impl Model for JournalEntry {
    ghost use Rattle.cluster_journal.specs.Entry.{EntryValue};

    ghost Value = { EntryValue };

    ghost use Rattle.cluster_journal.specs.EntryModel.{entry_of};

    ghost view = { λ e. entry_of e.form };
}

impl JournalEntry {
    /// The event, copied. Fails only when memory runs out, and only at a join, whose places are copied.
    pub fn event(&self) -> Result<Event, AllocError>
        ensures copied { IfOk result (λ event. event_of event ≡ self.now.event) }
        ensures memory { OnErr result (NeedsMemory self.now.event) }
    {
        match &self.form {
            Form::Short(delivery) => Ok(Event::Deliver {
                number: delivery.number,
            }),
            Form::Step(stepped) => Ok(stepped.event()),
            Form::Long(whole) => whole.event.copy(),
        }
    }

    /// What it told.
    pub fn outcome(&self) -> Outcome
        ensures { result ≡ self.now.outcome }
    {
        match &self.form {
            Form::Short(delivery) => delivery.outcome(),
            Form::Step(stepped) => stepped.outcome(),
            Form::Long(whole) => whole.outcome,
        }
    }

    /// Whether the two are of one event that told the same.
    pub fn same(&self, other: &JournalEntry) -> bool
        ensures { IsTrue result ↔ (self.now ≡ other.now) }
    {
        self.has_event_of(other) && self.outcome().same(&other.outcome())
    }

    // Whether the two are of one event.
    fn has_event_of(&self, other: &JournalEntry) -> bool
        ensures { IsTrue result ↔ (self.now.event ≡ other.now.event) }
    {
        match &other.form {
            Form::Short(its) => self.is_of(&Event::Deliver { number: its.number }),
            Form::Step(its) => self.is_of(&its.event()),
            Form::Long(its) => self.is_of(&its.event),
        }
    }

    // Whether it is of this event.
    fn is_of(&self, event: &Event) -> bool
        ensures { IsTrue result ↔ (self.now.event ≡ event_of event.now) }
    {
        match &self.form {
            Form::Short(delivery) => delivery.is_of(event),
            Form::Step(stepped) => stepped.event().same(event),
            Form::Long(whole) => whole.event.same(event),
        }
    }
}

/// An entry that waits for what its event tells; whatever that is, there is memory for it.
#[derive(Drop)]
pub struct Draft {
    alloc: Global,
    whole: Box<Whole>,
}

impl Model for Draft {
    ghost use Rattle.directory_rules.specs.Event.{Event};

    ghost Value = { Event };

    ghost use Rattle.directory_rules.specs.EventModel.{event_of};

    ghost view = { λ d. event_of d.whole.value.event };
}

impl Draft {
    /// An entry of the event. Fails only when memory runs out.
    pub fn new(alloc: Global, event: Event) -> Result<Draft, AllocError>
        ensures { IfOk result (λ draft. draft ≡ event_of event) }
    {
        let outcome = Outcome {
            happening: Happening::Lost { number: 0 },
            sent: None,
        };
        let whole = Box::new(alloc, Whole { event, outcome })?;
        Ok(Draft { alloc, whole })
    }

    /// The event told this.
    pub fn told(self, outcome: &Outcome) -> JournalEntry
        ensures { result ≡ record { event = self; outcome = outcome.now } }
    {
        let Draft { alloc, mut whole } = self;
        if let Some(delivery) = Delivery::of(&whole.event, outcome) {
            return JournalEntry {
                form: Form::Short(delivery),
            };
        }
        if let Some(stepped) = Stepped::of(alloc, &whole.event, outcome) {
            return JournalEntry {
                form: Form::Step(stepped),
            };
        }
        whole.outcome = *outcome;
        JournalEntry {
            form: Form::Long(whole),
        }
    }
}

/// What whoever posted an event has of it: the number of its entry in the journal, from 1, and the entry.
#[derive(Drop)]
pub struct Receipt {
    pub number: u64,
    pub entry: JournalEntry,
}
