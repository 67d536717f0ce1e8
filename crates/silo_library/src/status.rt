ghost use Rattle.std.specs.Prelude.{◌≡◌};
ghost use Rattle.silo_library.specs.OpenSiloValue.{status_number};

/// What the functions of the library answer, besides the lines (`docs/DEPLOYMENT.md#from-other-languages`).
#[derive(Clone, Copy)]
pub enum CallStatus {
    /// The silo is open, or has answered the line and goes on.
    GoesOn,
    /// The silo has answered the line, by which it is dead: it answers no more.
    Dead,
    /// The silo answered no more before, and doesn't answer this line either.
    Ended,
    /// Memory ran out: no silo was opened; or this line isn't answered, nor is any other.
    OutOfMemory,
    /// The text tells no silo.
    NotASilo,
    /// No way of hashing has the number.
    NoSuchHashing,
    /// The number of points or that of hints is out of its range.
    OutOfRange,
    /// The text is no token.
    NotAToken,
}

impl CallStatus {
    /// The number by which C knows it.
    pub(crate) fn number(self) -> u32
        ensures { result ≡ status_number self }
    {
        match self {
            CallStatus::GoesOn => 0,
            CallStatus::Dead => 1,
            CallStatus::Ended => 2,
            CallStatus::OutOfMemory => 3,
            CallStatus::NotASilo => 4,
            CallStatus::NoSuchHashing => 5,
            CallStatus::OutOfRange => 6,
            CallStatus::NotAToken => 7,
        }
    }
}
