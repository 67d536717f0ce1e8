ghost use Rattle.std.specs.Prelude.{◌≡◌};
ghost use Rattle.published_rings.specs.Numbers.{route_error_number};

use hash_ring::RingError;
use std::alloc::AllocError;
use thiserror::Error;

/// Why a ring was not published, or a hash not routed (`docs/RULES.md#refusals-and-their-numbers`).
#[derive(Clone, Copy, Debug, PartialEq, Eq, Error)]
pub enum RouteError {
    /// A silo of the view that needs points has none.
    #[error("a silo has no points")]
    PointsMissing,
    /// No reader is left, or fewer could be made than were asked for.
    #[error("there is no reader")]
    NoReader,
    /// The reader was not let in, or was shown an older ring than it was told of.
    #[error("the reader was not let in")]
    NotLetIn,
    /// There was no memory for the call.
    #[error("out of memory")]
    OutOfMemory,
}

impl RouteError {
    /// The number of the refusal, 403, 952 or 954; out of memory has none.
    pub fn number(self) -> Option<u16>
        ensures { result ≡ route_error_number self }
    {
        match self {
            RouteError::PointsMissing => Some(403),
            RouteError::NoReader => Some(952),
            RouteError::NotLetIn => Some(954),
            RouteError::OutOfMemory => None,
        }
    }
}

impl From<AllocError> for RouteError {
    ghost use Rattle.std.specs.Prelude.{◌≡◌};
    ghost use Rattle.published_rings.specs.declared.error.RouteError.TheVariants.{OutOfMemory};

    ghost from_gives = { λ _ error. error ≡ OutOfMemory };

    fn from(_failure: AllocError) -> RouteError {
        RouteError::OutOfMemory
    }
}

// A ring is made anew or of the view that follows, so that there is no third reason.
impl From<RingError> for RouteError {
    ghost use Rattle.std.specs.Prelude.{◌≡◌};
    ghost use Rattle.published_rings.specs.Numbers.{route_error_of};

    ghost from_gives = { λ refusal error. error ≡ route_error_of refusal };

    fn from(refusal: RingError) -> RouteError {
        match refusal {
            RingError::PointsMissing => RouteError::PointsMissing,
            _ => RouteError::OutOfMemory,
        }
    }
}
