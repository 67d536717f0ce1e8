ghost use Rattle.std.specs.Prelude.{◌≡◌, ◌↔◌, IsTrue};

use silo_address::ActivationId;

/// The phase of an activation on its silo (`docs/RULES.md#phases`).
#[derive(Clone, Copy, PartialEq, Eq)]
pub enum Phase {
    /// Its Register is outstanding, under this number.
    Asking(u64),
    /// Its registration was confirmed.
    Firm,
    /// Its Deregister is outstanding, under this number.
    Closing(u64),
}

impl Phase {
    /// Whether the two are one phase.
    pub fn same(&self, other: &Phase) -> bool
        ensures { IsTrue result ↔ (self.now ≡ other.now) }
    {
        self == other
    }

    /// The phase itself: it is copied and not cloned.
    pub fn copy(&self) -> Phase
        ensures { result ≡ self.now }
    {
        *self
    }
}

/// An activation on its own silo, where it is kept under its grain.
#[derive(Clone, Copy, PartialEq, Eq)]
pub struct Held {
    /// The silo's count of activations when this one began, from 1 to 2^60.
    pub count: u64,
    pub phase: Phase,
    /// The activation in whose place this one asks to be entered; none for one that is firm or closing.
    pub previous: Option<ActivationId>,
}

impl Held {
    /// Whether the two are one activation in one phase.
    pub fn same(&self, other: &Held) -> bool
        ensures { IsTrue result ↔ (self.now ≡ other.now) }
    {
        self == other
    }

    /// The activation itself: it is copied and not cloned.
    pub fn copy(&self) -> Held
        ensures { result ≡ self.now }
    {
        *self
    }
}
