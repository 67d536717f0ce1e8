ghost use Rattle.std.specs.Prelude.{◌≡◌};
ghost use Rattle.threaded_play.specs.Endings.{status_of};

use line_loop::{Ended, ScriptLineFault};

/// How playing a script with a thread per silo ends, once all threads are joined (`docs/RULES.md#threads`).
#[derive(Clone, Copy, PartialEq, Eq)]
pub enum ThreadsEnded {
    /// The script was played up to its end or to what ended it before, and no worker gave up.
    Played(Ended<ScriptLineFault>),
    /// The receipts aren't those of the journal, 953. Nothing is printed.
    ReceiptDiffers,
    /// Memory, a thread or a publisher couldn't be had, a ring wasn't published, or a worker gave up. Nothing is printed.
    Lacking,
}

impl ThreadsEnded {
    /// The exit status: that of the play; 1 where receipts differ, and 3 where something lacks.
    pub fn status(self) -> u8
        ensures { result ≡ status_of self }
    {
        match self {
            ThreadsEnded::Played(ended) => ended.status(2),
            ThreadsEnded::ReceiptDiffers => 1,
            ThreadsEnded::Lacking => 3,
        }
    }
}
