ghost use Rattle.std.specs.Prelude.{◌≡◌};
ghost use Rattle.membership_view.specs.Row.{is_active};

/// What a silo is in a view (`docs/RULES.md#membership`).
#[derive(Clone, Copy, PartialEq, Eq)]
pub enum Status {
    /// It serves, and has its points on the ring.
    Active,
    /// It shuts down: it has no points on the ring any more, and still answers.
    Leaving,
    /// It is gone for good.
    Dead,
}

impl Status {
    /// Whether this is `Active`.
    pub fn is_active(self) -> bool
        ensures { result ≡ is_active self }
    {
        match self {
            Status::Active => true,
            Status::Leaving | Status::Dead => false,
        }
    }
}
