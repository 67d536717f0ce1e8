ghost use Rattle.std.specs.Prelude.{◌≡◌, ◌↔◌, IsTrue};

use silo_address::SiloAddress;

/// What a silo has of a piece that it owns (`docs/RULES.md#pieces`).
#[derive(Clone, Copy, PartialEq, Eq)]
pub enum PieceState {
    /// Its entries, from which it answers requests.
    Settled,
    /// Nothing yet: the previous owner, this silo, is to hand over its snapshot.
    Awaiting(SiloAddress),
    /// Nothing yet: every silo that isn't Dead is to report what it has firm there.
    Recovering,
}

impl PieceState {
    /// Whether the two are one state.
    pub fn same(&self, other: &PieceState) -> bool
        ensures { IsTrue result ↔ (self.now ≡ other.now) }
    {
        self == other
    }

    /// The state itself: it is copied and not cloned.
    pub fn copy(&self) -> PieceState
        ensures { result ≡ self.now }
    {
        *self
    }
}
