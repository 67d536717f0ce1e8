ghost use Rattle.std.specs.Prelude.{◌≡◌};
ghost use Rattle.line_loop.specs.Endings.{status_of};

/// How playing the lines of a stream ends (`docs/RULES.md#lines-one-after-the-other`).
#[derive(Clone, Copy, PartialEq, Eq)]
pub enum Ended<S> {
    /// The input is at its end, and all that its lines print is written.
    AtEnd,
    /// A line stops the run. What it prints is the last that is written.
    Stopped(S),
    /// There are more bytes than may be read. What is written is all that the lines print that were read within them.
    TooLong,
    /// Memory ran out. What is written is all that the lines print before the one for which it lacked.
    OutOfMemory,
    /// A read or a write failed, or a write took nothing. What is written is a beginning of what the lines print.
    Broken,
}

impl<S> Ended<S> {
    /// The exit status: 0 at the end, the given one where a line stops the run, 3 when memory runs out, 5 for too many bytes or a
    /// failing read or write.
    pub fn status(&self, stopped: u8) -> u8
        ensures { result ≡ status_of stopped self.now }
    {
        match self {
            Ended::AtEnd => 0,
            Ended::Stopped(_) => stopped,
            Ended::OutOfMemory => 3,
            Ended::TooLong | Ended::Broken => 5,
        }
    }
}
