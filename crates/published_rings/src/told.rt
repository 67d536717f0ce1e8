ghost use Rattle.std.specs.Prelude.{◌≡◌};

use std::marker::Model;

/// A note that the ring of a version was published. A reader that learns it routes by that version or a later one.
#[derive(Clone, Copy)]
pub struct Told {
    version: u64,
}

impl Model for Told {
    ghost use Rattle.std.specs.Prelude.{ℕ};

    ghost Value = { ℕ };

    ghost view = { λ t. t.version };

    ghost inverse = { λ n. record { version = n } };
}

impl Told {
    // The note of a version that was published.
    pub(crate) fn of(version: u64) -> Told
        ensures { result ≡ version }
    {
        Told { version }
    }

    /// The version that was published.
    pub fn version(self) -> u64
        ensures { result ≡ self }
    {
        self.version
    }
}
