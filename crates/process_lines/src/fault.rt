ghost use Rattle.std.specs.Prelude.{◌≡◌};
ghost use Rattle.script_lines.specs.Numbers.{script_fault_number};
ghost use Rattle.process_lines.specs.FaultNumbers.{line_fault_number};
ghost use Rattle.process_lines.specs.declared.fault.LineError.TheVariants.{Fault};

use script_lines::ScriptFault;
use silo_address::{GrainError, SiloError};
use thiserror::Error;

/// What each command is written as.
const COMMANDS: &str =
    "joined VERSION SILO [token=TOKEN] PLACE.., leaving VERSION SILO, dead VERSION SILO, view VERSION SILO:STATUS:PLACES.., see VERSION, wake GRAIN, close GRAIN, cancel GRAIN, offer GRAIN SILO, find GRAIN, forget GRAIN, nudge, nudge GRAIN, nudge ranges, letter FROM TO VERSION KIND and what its kind says, ping WORD, owner GRAIN, place GRAIN POLICY, status, show or dump";

/// The fault of a line: the first that it has, in the order of `docs/RULES.md#lines-of-a-silos-process`.
#[derive(Clone, Copy, Debug, PartialEq, Eq, Error)]
pub enum LineFault {
    /// The line has more than 16,777,216 bytes.
    #[error("a line has at most 16777216 bytes")]
    LineTooLong,
    /// No line feed ended the line, so that it may have been cut.
    #[error("a line ends with a line feed")]
    Unended,
    /// A byte of the line is outside 32 to 126.
    #[error("a line is written in ASCII without controls, bytes 32 to 126")]
    NotText,
    /// The first word names no command.
    #[error("a command is {COMMANDS}")]
    UnknownCommand,
    /// Too few words or too many stand behind the name.
    #[error("too few words or too many: a command is {COMMANDS}")]
    WordCount,
    /// The kind is none, or the reason of a retry.
    #[error("there is no such kind of letter, or a retry has no such reason: these are 601, 602, 603 and 604")]
    Kind,
    /// A word should name a silo.
    #[error("{0}")]
    Silo(SiloError),
    /// A word should name a grain.
    #[error("{0}")]
    Grain(GrainError),
    /// A word should name a policy that a silo can follow by itself: it doesn't know how many activations others hold.
    #[error("a policy is prefer_local or hash_based")]
    Policy,
    /// A word should name an activation, and has no exclamation mark.
    #[error("an activation is written SILO!COUNT")]
    Activation,
    /// A word should name a range.
    #[error("a range is written start+size in decimal without leading zeros, from 4294967295 at most and with 4294967296 hashes at most")]
    Range,
    /// A word should be a digest.
    #[error("a digest is 64 digits from 0 to 9 and a to f")]
    Digest,
    /// A word should say whether a report is its silo's last.
    #[error("a report is the last or there are more: last or more")]
    End,
    /// A word should be a number of its range.
    #[error("a number is at most 18446744073709551615, a place at most 4294967295, in decimal digits without a leading zero")]
    NotANumber,
    /// A word should list a silo of a view.
    #[error("a silo of a view is written SILO:STATUS, or SILO:STATUS:PLACE,PLACE.. with its places, and a status is active, leaving or dead")]
    Listed,
}

impl LineFault {
    /// The fault of a line in the words for one of a script.
    pub(crate) fn of_script(fault: ScriptFault) -> LineFault
        ensures { line_fault_number result ≡ script_fault_number fault }
    {
        match fault {
            ScriptFault::LineTooLong => LineFault::LineTooLong,
            ScriptFault::NotText => LineFault::NotText,
            ScriptFault::UnknownCommand => LineFault::UnknownCommand,
            ScriptFault::WordCount => LineFault::WordCount,
            ScriptFault::Silo(fault) => LineFault::Silo(fault),
            ScriptFault::Grain(fault) => LineFault::Grain(fault),
            ScriptFault::NotANumber => LineFault::NotANumber,
            ScriptFault::UnknownPolicy => LineFault::Policy,
        }
    }

    /// The number by which users know the fault: 921 to 933, 101 to 103 of a silo, 111 to 113 of a grain.
    pub fn number(self) -> u16
        ensures { result ≡ line_fault_number self }
    {
        match self {
            LineFault::LineTooLong => 924,
            LineFault::Unended => 931,
            LineFault::NotText => 925,
            LineFault::UnknownCommand => 921,
            LineFault::WordCount => 922,
            LineFault::Kind => 927,
            LineFault::Silo(fault) => fault.number(),
            LineFault::Grain(fault) => fault.number(),
            LineFault::Policy => 926,
            LineFault::Activation => 929,
            LineFault::Range => 928,
            LineFault::Digest => 930,
            LineFault::End => 932,
            LineFault::NotANumber => 923,
            LineFault::Listed => 933,
        }
    }
}

/// Why a line was not read.
#[derive(Clone, Copy, Debug, PartialEq, Eq, Error)]
pub enum LineError {
    /// The line has a fault.
    #[error("{0}")]
    Fault(LineFault),
    /// Memory ran out for the entries or the ranges of a letter, for the silos of a view, or for the places of a join.
    #[error("out of memory")]
    OutOfMemory,
}

impl From<LineFault> for LineError {
    ghost from_gives = { λ fault error. error ≡ Fault fault };

    fn from(fault: LineFault) -> LineError {
        LineError::Fault(fault)
    }
}
