ghost use Rattle.std.specs.Prelude.{◌≡◌, ◌↔◌, IsTrue};

/// How a silo is chosen for a new activation (`docs/RULES.md#placement`).
#[derive(Clone, Copy, PartialEq, Eq)]
pub enum Policy {
    /// The silo that asks, if it is Active, and otherwise as `HashBased`.
    PreferLocal,
    /// Of the Active silos, by address, the one at the hash modulo their number.
    HashBased,
    /// The Active silo that has the fewest activations, the first such by address.
    LeastHeld,
}

impl Policy {
    /// Whether the two are one policy.
    pub fn same(&self, other: &Policy) -> bool
        ensures { IsTrue result ↔ (self.now ≡ other.now) }
    {
        self == other
    }

    /// The policy itself: it is copied and not cloned.
    pub fn copy(&self) -> Policy
        ensures { result ≡ self.now }
    {
        *self
    }
}
