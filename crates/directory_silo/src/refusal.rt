ghost use Rattle.std.specs.Prelude.{◌≡◌};
ghost use Rattle.directory_node.specs.MembershipModel.{change_refusal_number};
ghost use Rattle.directory_node.specs.Numbers.{step_refusal_number};
ghost use Rattle.directory_silo.specs.Numbers.{IsNumberedUnlessMemory, silo_refusal_number};

use directory_node::{ChangeRefusal, StepRefusal};
use hash_ring::RingError;
use membership_view::ViewsError;
use thiserror::Error;

/// Why a silo refuses what it is told or asked: the first of these that holds (`docs/RULES.md#a-silo-by-itself`).
#[derive(Clone, Copy, Debug, PartialEq, Eq, Error)]
pub enum SiloRefusal {
    /// The change isn't that of the next version: others come before it.
    #[error("a change of an earlier version is missing")]
    Gap,
    /// The version was made by another change.
    #[error("this version was made by another change")]
    SaysOtherwise,
    /// It was told a change, or a view, before, and can't begin with this view.
    #[error("the silo has been told something before")]
    ToldBefore,
    /// The version was told by the view with which the silo began, and it isn't known what made it.
    #[error("the version is from before the silo's history begins")]
    BeforeHistory,
    /// The silo was not told of its own join.
    #[error("the silo has not been told that it joined")]
    NotJoined,
    /// The silo is Dead by what it was told.
    #[error("the silo is dead")]
    Dead,
    /// The silo was not told of the version, or joined in a later one.
    #[error("there is no such version for the silo")]
    NoSuchVersion,
    /// Membership refuses the change.
    #[error("{0}")]
    Views(ViewsError),
    /// The ring refuses the places.
    #[error("{0}")]
    Ring(RingError),
    /// The silo's node refuses the step.
    #[error("{0}")]
    Node(StepRefusal),
    /// There was no memory for it. Whatever ran out of it, this is told.
    #[error("out of memory")]
    OutOfMemory,
}

impl SiloRefusal {
    /// The number by which users know the refusal; out of memory has none.
    pub fn number(self) -> Option<u16>
        ensures { result ≡ silo_refusal_number self }
    {
        match self {
            SiloRefusal::Gap => Some(206),
            SiloRefusal::SaysOtherwise => Some(207),
            SiloRefusal::ToldBefore => Some(211),
            SiloRefusal::BeforeHistory => Some(212),
            SiloRefusal::NotJoined => Some(901),
            SiloRefusal::Dead => Some(902),
            SiloRefusal::NoSuchVersion => Some(904),
            SiloRefusal::Views(refusal) => refusal.number(),
            SiloRefusal::Ring(refusal) => refusal.number(),
            SiloRefusal::Node(refusal) => refusal.number(),
            SiloRefusal::OutOfMemory => None,
        }
    }

    // A refusal of a change. Out of memory is one refusal, wherever it was met.
    pub(crate) fn of_change(refusal: ChangeRefusal) -> SiloRefusal
        ensures number { silo_refusal_number result ≡ change_refusal_number refusal }
        ensures numbered { IsNumberedUnlessMemory result }
    {
        match refusal {
            ChangeRefusal::OutOfMemory
            | ChangeRefusal::Views(ViewsError::OutOfMemory)
            | ChangeRefusal::Ring(RingError::OutOfMemory) => SiloRefusal::OutOfMemory,
            ChangeRefusal::Views(refusal) => SiloRefusal::Views(refusal),
            ChangeRefusal::Ring(refusal) => SiloRefusal::Ring(refusal),
        }
    }

    // A refusal of the silo's node.
    pub(crate) fn of_node(refusal: StepRefusal) -> SiloRefusal
        ensures number { silo_refusal_number result ≡ step_refusal_number refusal }
        ensures numbered { IsNumberedUnlessMemory result }
    {
        match refusal {
            StepRefusal::OutOfMemory => SiloRefusal::OutOfMemory,
            refusal => SiloRefusal::Node(refusal),
        }
    }
}
