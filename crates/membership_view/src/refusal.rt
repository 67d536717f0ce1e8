ghost use Rattle.std.specs.Prelude.{◌≡◌};
ghost use Rattle.membership_view.specs.Refusal.{views_error_number};

use thiserror::Error;

/// Why a change of membership, or a view with which all begins, was refused (`docs/RULES.md#membership`).
#[derive(Clone, Copy, Debug, PartialEq, Eq, Error)]
pub enum ViewsError {
    /// A silo of the same endpoint with this generation or a higher one has joined before.
    #[error("a silo of this endpoint with this generation or a later one has joined before")]
    OldGeneration,
    /// The silo has never joined.
    #[error("the silo has never joined")]
    UnknownSilo,
    /// The silo that is to leave is Leaving or Dead.
    #[error("the silo is not active")]
    NotActive,
    /// The silo that is declared dead is Dead.
    #[error("the silo is dead already")]
    AlreadyDead,
    /// As many silos are known as may be.
    #[error("as many silos are known as may be")]
    RowsFull,
    /// A view with which all begins is of too high a version, or lists a silo though it is of version 0, or two silos of an endpoint.
    #[error("a history can't begin with this view")]
    NotListable,
    /// There was no memory for the change.
    #[error("out of memory")]
    OutOfMemory,
}

impl ViewsError {
    /// The number of the refusal; out of memory has none.
    pub fn number(self) -> Option<u16>
        ensures { result ≡ views_error_number self }
    {
        match self {
            ViewsError::OldGeneration => Some(201),
            ViewsError::UnknownSilo => Some(202),
            ViewsError::NotActive => Some(203),
            ViewsError::AlreadyDead => Some(204),
            ViewsError::RowsFull => Some(205),
            ViewsError::NotListable => Some(210),
            ViewsError::OutOfMemory => None,
        }
    }
}
