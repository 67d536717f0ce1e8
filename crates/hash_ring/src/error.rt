ghost use Rattle.std.specs.Prelude.{◌≡◌};
ghost use Rattle.hash_ring.specs.Numbers.{ring_error_number};

use thiserror::Error;

/// Why a call on places or on a ring was refused (`docs/RULES.md#refusals-and-their-numbers`).
#[derive(Clone, Copy, Debug, PartialEq, Eq, Error)]
pub enum RingError {
    /// The view is not the one after the ring's.
    #[error("the view is not the next one after the ring's")]
    NotNextView,
    /// A silo can't have that many points.
    #[error("a silo has 1 to 128 points, and under sha256 their places are not given")]
    PointCount,
    /// A silo that needs points has none.
    #[error("a silo has no points")]
    PointsMissing,
    /// The silo was added before.
    #[error("the silo has its points already")]
    AlreadyAdded,
    /// There was no memory for the call.
    #[error("out of memory")]
    OutOfMemory,
}

impl RingError {
    /// The number of the refusal, 401 to 404; out of memory has none.
    pub fn number(self) -> Option<u16>
        ensures { result ≡ ring_error_number self }
    {
        match self {
            RingError::NotNextView => Some(401),
            RingError::PointCount => Some(402),
            RingError::PointsMissing => Some(403),
            RingError::AlreadyAdded => Some(404),
            RingError::OutOfMemory => None,
        }
    }
}
