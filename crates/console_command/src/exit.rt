ghost use Rattle.std.specs.Prelude.{◌≡◌};
ghost use Rattle.console_command.specs.Exits.{status_of};

use crate::Checked;
use line_loop::{Ended, ScriptLineFault};
use process_answers::Dead;
use threaded_play::ThreadsEnded;

/// How the program ends.
#[derive(Clone, Copy, PartialEq, Eq)]
pub enum Exit {
    /// The script was played, up to its end or to what ended it before.
    Played(Ended<ScriptLineFault>),
    /// The script was played with a thread per silo, up to its end or to what ended it before.
    Threaded(ThreadsEnded),
    /// The dump was judged, or what ended it before.
    Checked(Checked),
    /// The silo's process came to its end, or to what ended it before.
    Silo(Ended<Dead>),
    /// The words asked for help or for the version, which is written.
    Answered,
    /// The words asked for help or for the version, and a write of it failed.
    AnswerBroken,
    /// The words are a mistake.
    Refused,
    /// Memory ran out before anything was read or written.
    OutOfMemory,
}

impl Exit {
    /// The exit status (`docs/RULES.md#the-program`).
    pub fn status(self) -> u8
        ensures { result ≡ status_of self }
    {
        match self {
            Exit::Played(ended) => ended.status(2),
            Exit::Threaded(ended) => ended.status(),
            Exit::Checked(checked) => checked.status(),
            Exit::Silo(ended) => ended.status(0),
            Exit::Answered => 0,
            Exit::OutOfMemory => 3,
            Exit::Refused => 4,
            Exit::AnswerBroken => 5,
        }
    }
}
