ghost use Rattle.std.specs.Prelude.{◌≡◌, ◌↔◌, IsTrue};
ghost use Rattle.console_command.specs.LineRefusal.{IsAnswer};
ghost use Rattle.console_command.specs.declared.line_error.CommandLineError.TheVariants.{OutOfMemory};

use clap::error::ErrorKind;
use silo_address::SiloError;
use std::alloc::AllocError;
use thiserror::Error;

/// Why the process of a silo is not one that can be started.
#[derive(Clone, Copy, Debug, PartialEq, Eq, Error)]
pub enum ProcessMistake {
    /// What should name its silo doesn't.
    #[error("ADDR is no silo: {0}")]
    Address(SiloError),
    /// What should be its token isn't.
    #[error("TOKEN is no token: it has 1 to 64 bytes, all of them visible ASCII")]
    Token,
}

/// Why a command line is not carried out.
#[derive(Debug, Drop, Error)]
pub enum CommandLineError {
    /// The words ask for help or for the version, or are not a line of the program; the text is for the user.
    #[error("{0}")]
    Usage(clap::Error),
    /// The words ask for the process of a silo, and say wrongly which.
    #[error("error: {0}\n")]
    NoProcess(ProcessMistake),
    /// Memory ran out.
    #[error("out of memory")]
    OutOfMemory,
}

impl CommandLineError {
    /// Whether the words asked for help (`--help`, `-h`, `help`) or for the version (`--version`, `-V`), which is no mistake.
    pub fn is_request(&self) -> bool
        ensures { IsTrue result ↔ IsAnswer self.now }
    {
        match self {
            CommandLineError::Usage(error) => matches!(
                error.kind(),
                ErrorKind::DisplayHelp | ErrorKind::DisplayVersion
            ),
            CommandLineError::NoProcess(_) | CommandLineError::OutOfMemory => false,
        }
    }
}

impl From<AllocError> for CommandLineError {
    ghost from_gives = { λ _ e. e ≡ OutOfMemory };

    fn from(_error: AllocError) -> CommandLineError {
        CommandLineError::OutOfMemory
    }
}
