ghost use Rattle.std.specs.Prelude.{◌≡◌};
ghost use Rattle.dumps.specs.ReadNumbers.{read_error_number};

use std::alloc::{AllocError, AllocFailed};
use thiserror::Error;

/// Why no dump was read from bytes.
#[derive(Clone, Copy, Debug, PartialEq, Eq, Error)]
pub enum DumpError {
    /// The bytes are not UTF-8, or not one JSON value nested at most 127 deep.
    #[error("a dump is one JSON value, nested at most 127 deep")]
    NotJson,
    /// The value tells no lists of a dump, or lists that are none.
    #[error("no dump: a member is missing, unknown, of another type, unreadable or against the rules of dumps")]
    NotADump,
    /// Memory ran out.
    #[error("out of memory")]
    OutOfMemory,
}

impl DumpError {
    /// The number by which users know the refusal, 971 or 972; none where memory ran out.
    pub fn number(self) -> Option<u16>
        ensures { result ≡ read_error_number self }
    {
        match self {
            DumpError::NotJson => Some(971),
            DumpError::NotADump => Some(972),
            DumpError::OutOfMemory => None,
        }
    }
}

impl From<AllocError> for DumpError {
    ghost use Rattle.std.specs.Prelude.{◌≡◌};
    ghost use Rattle.dumps.specs.declared.error.DumpError.TheVariants.{OutOfMemory};

    ghost from_gives = { λ _ error. error ≡ OutOfMemory };

    fn from(_failure: AllocError) -> DumpError {
        DumpError::OutOfMemory
    }
}

impl<T: Drop> From<AllocFailed<T>> for DumpError {
    ghost use Rattle.std.specs.Prelude.{◌≡◌};
    ghost use Rattle.dumps.specs.declared.error.DumpError.TheVariants.{OutOfMemory};

    ghost from_gives = { λ _ error. error ≡ OutOfMemory };

    fn from(_failure: AllocFailed<T>) -> DumpError {
        DumpError::OutOfMemory
    }
}
