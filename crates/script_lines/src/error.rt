ghost use Rattle.std.specs.Prelude.{◌≡◌};
ghost use Rattle.script_lines.specs.Numbers.{script_fault_number};
ghost use Rattle.script_lines.specs.declared.error.ReadError.TheVariants.{Fault};

use crate::verbs::COMMANDS;
use silo_address::{GrainError, SiloError};
use thiserror::Error;

/// The fault of a line: the first that it has, in the order of `docs/RULES.md#scripts`.
#[derive(Clone, Copy, Debug, PartialEq, Eq, Error)]
pub enum ScriptFault {
    /// The line has more than 8192 bytes.
    #[error("a line has at most 8192 bytes")]
    LineTooLong,
    /// A byte of the line is outside 32 to 126.
    #[error("a line is written in ASCII without controls, bytes 32 to 126")]
    NotText,
    /// The first word names no command.
    #[error("a command is {COMMANDS}")]
    UnknownCommand,
    /// Too few words or too many stand behind the name.
    #[error("too few words or too many: a command is {COMMANDS}")]
    WordCount,
    /// A word should name a silo.
    #[error("{0}")]
    Silo(SiloError),
    /// A word should name a grain.
    #[error("{0}")]
    Grain(GrainError),
    /// A word should be a number of its range.
    #[error("a version or the number of a letter is a number up to 18446744073709551615, a place or a hash one up to 4294967295, each in decimal digits without a leading zero")]
    NotANumber,
    /// A word should name a policy.
    #[error("a policy is prefer_local, hash_based or least_held")]
    UnknownPolicy,
}

impl ScriptFault {
    /// The number by which users know the fault: 921 to 926, 101 to 103 of a silo, 111 to 113 of a grain.
    pub fn number(self) -> u16
        ensures { result ≡ script_fault_number self }
    {
        match self {
            ScriptFault::LineTooLong => 924,
            ScriptFault::NotText => 925,
            ScriptFault::UnknownCommand => 921,
            ScriptFault::WordCount => 922,
            ScriptFault::Silo(fault) => fault.number(),
            ScriptFault::Grain(fault) => fault.number(),
            ScriptFault::NotANumber => 923,
            ScriptFault::UnknownPolicy => 926,
        }
    }
}

/// Why a line was not read.
#[derive(Clone, Copy, Debug, PartialEq, Eq, Error)]
pub enum ReadError {
    /// The line has a fault.
    #[error("{0}")]
    Fault(ScriptFault),
    /// Memory ran out for the places of a join.
    #[error("out of memory")]
    OutOfMemory,
}

impl From<ScriptFault> for ReadError {
    ghost from_gives = { λ fault error. error ≡ Fault fault };

    fn from(fault: ScriptFault) -> ReadError {
        ReadError::Fault(fault)
    }
}
