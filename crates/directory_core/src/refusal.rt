ghost use Rattle.std.specs.Prelude.{◌≡◌};
ghost use Rattle.directory_node.specs.MembershipModel.{change_refusal_number};
ghost use Rattle.directory_node.specs.Numbers.{step_refusal_number};
ghost use Rattle.directory_core.specs.Numbers.{IsNumberedUnlessMemory, event_refusal_number};

use directory_node::{ChangeRefusal, StepRefusal};
use hash_ring::RingError;
use membership_view::ViewsError;
use thiserror::Error;

/// Why an event was refused: the first of these that holds (`docs/RULES.md#refusals-and-their-numbers`).
#[derive(Clone, Copy, Debug, PartialEq, Eq, Error)]
pub enum EventRefusal {
    /// The silo never joined.
    #[error("the silo has never joined")]
    NoSuchSilo,
    /// The silo is Dead.
    #[error("the silo is dead")]
    DeadSilo,
    /// The version has not been made, or is from before the silo joined.
    #[error("there is no such version for the silo")]
    NoSuchVersion,
    /// No letter of that number is in the mail.
    #[error("no letter of this number is in the mail")]
    NoSuchLetter,
    /// As many events were accepted as ever may be.
    #[error("as many events were accepted as ever may be")]
    JournalFull,
    /// The event's letters would be more than may ever be sent.
    #[error("more letters would be sent than ever may be")]
    MailFull,
    /// Membership refuses the change.
    #[error("{0}")]
    Views(ViewsError),
    /// The ring refuses the silo's places.
    #[error("{0}")]
    Ring(RingError),
    /// The silo refuses the step.
    #[error("{0}")]
    Node(StepRefusal),
    /// There was no memory for the event. Whatever ran out of it, this is told.
    #[error("out of memory")]
    OutOfMemory,
}

impl EventRefusal {
    /// The number by which users know the refusal; out of memory has none.
    pub fn number(self) -> Option<u16>
        ensures { result ≡ event_refusal_number self }
    {
        match self {
            EventRefusal::NoSuchSilo => Some(901),
            EventRefusal::DeadSilo => Some(902),
            EventRefusal::NoSuchVersion => Some(904),
            EventRefusal::NoSuchLetter => Some(905),
            EventRefusal::JournalFull => Some(908),
            EventRefusal::MailFull => Some(909),
            EventRefusal::Views(refusal) => refusal.number(),
            EventRefusal::Ring(refusal) => refusal.number(),
            EventRefusal::Node(refusal) => refusal.number(),
            EventRefusal::OutOfMemory => None,
        }
    }

    // A refusal of a change of membership. Out of memory is one refusal, wherever it was met.
    pub(crate) fn of_change(refusal: ChangeRefusal) -> EventRefusal
        ensures number { event_refusal_number result ≡ change_refusal_number refusal }
        ensures numbered { IsNumberedUnlessMemory result }
    {
        match refusal {
            ChangeRefusal::OutOfMemory
            | ChangeRefusal::Views(ViewsError::OutOfMemory)
            | ChangeRefusal::Ring(RingError::OutOfMemory) => EventRefusal::OutOfMemory,
            ChangeRefusal::Views(refusal) => EventRefusal::Views(refusal),
            ChangeRefusal::Ring(refusal) => EventRefusal::Ring(refusal),
        }
    }

    // A refusal of a silo's step.
    pub(crate) fn of_node(refusal: StepRefusal) -> EventRefusal
        ensures number { event_refusal_number result ≡ step_refusal_number refusal }
        ensures numbered { IsNumberedUnlessMemory result }
    {
        match refusal {
            StepRefusal::OutOfMemory => EventRefusal::OutOfMemory,
            refusal => EventRefusal::Node(refusal),
        }
    }
}
