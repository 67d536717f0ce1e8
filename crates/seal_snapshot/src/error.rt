ghost use Rattle.std.specs.Prelude.{◌≡◌};
ghost use Rattle.seal_snapshot.specs.Numbers.{gathering_error_number};

use thiserror::Error;

/// Why a page was refused (`docs/RULES.md#refusals-and-their-numbers`).
#[derive(Clone, Copy, Debug, PartialEq, Eq, Error)]
pub enum GatheringError {
    /// The digest isn't that of all entries gathered.
    #[error("the entries do not have the digest of their snapshot")]
    WrongDigest,
    /// The page isn't the next one of the snapshot whose pages were taken.
    #[error("the page is not the next one of the snapshot")]
    OutOfTurn,
    /// The page is of another version or range.
    #[error("the page is of another version or range")]
    WrongVersion,
    /// There was no memory for the page.
    #[error("out of memory")]
    OutOfMemory,
}

impl GatheringError {
    /// The number of the refusal, 701 to 703; out of memory has none.
    pub fn number(self) -> Option<u16>
        ensures { result ≡ gathering_error_number self }
    {
        match self {
            GatheringError::WrongDigest => Some(701),
            GatheringError::OutOfTurn => Some(702),
            GatheringError::WrongVersion => Some(703),
            GatheringError::OutOfMemory => None,
        }
    }
}
