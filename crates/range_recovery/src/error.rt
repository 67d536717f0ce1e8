ghost use Rattle.std.specs.Prelude.{◌≡◌};
ghost use Rattle.range_recovery.specs.Numbers.{recovery_error_number};

use thiserror::Error;

/// Why a report was refused (`docs/RULES.md#refusals-and-their-numbers`).
#[derive(Clone, Copy, Debug, PartialEq, Eq, Error)]
pub enum RecoveryError {
    /// The report is of another version or range.
    #[error("the report is of another version or range")]
    WrongVersion,
    /// The silo was never awaited.
    #[error("the silo was not asked for a report")]
    Stranger,
    /// The silo has told all before.
    #[error("the silo has reported all already")]
    Twice,
    /// The report doesn't go on behind the grain up to which its silo has told.
    #[error("the report is not the next one of its silo")]
    OutOfTurn,
    /// There was no memory for the report.
    #[error("out of memory")]
    OutOfMemory,
}

impl RecoveryError {
    /// The number of the refusal, 751 to 754; out of memory has none.
    pub fn number(self) -> Option<u16>
        ensures { result ≡ recovery_error_number self }
    {
        match self {
            RecoveryError::WrongVersion => Some(751),
            RecoveryError::Stranger => Some(752),
            RecoveryError::Twice => Some(753),
            RecoveryError::OutOfTurn => Some(754),
            RecoveryError::OutOfMemory => None,
        }
    }
}
