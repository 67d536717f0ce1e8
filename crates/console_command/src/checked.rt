ghost use Rattle.std.specs.Prelude.{◌≡◌};
ghost use Rattle.console_command.specs.Checks.{status_of};

/// How a check ends (`docs/RULES.md#the-program`).
#[derive(Clone, Copy, PartialEq, Eq)]
pub enum Checked {
    /// All is right in the dump, and it is said so.
    Right,
    /// The bytes tell no dump, or one with a fault, and its line is written.
    Faulty,
    /// There are more than 268435456 bytes. Nothing is written.
    TooLong,
    /// Memory ran out. Nothing is written.
    OutOfMemory,
    /// A read or a write failed, or a write took nothing. What is written is a beginning of the line.
    Broken,
}

impl Checked {
    /// The exit status: 0, 1 for a fault, 3 when memory runs out, 5 for too many bytes or a failing read or write.
    pub fn status(self) -> u8
        ensures { result ≡ status_of self }
    {
        match self {
            Checked::Right => 0,
            Checked::Faulty => 1,
            Checked::OutOfMemory => 3,
            Checked::TooLong | Checked::Broken => 5,
        }
    }
}
