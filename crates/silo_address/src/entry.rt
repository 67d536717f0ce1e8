ghost use Rattle.std.specs.Prelude.{◌≡◌, ◌↔◌, IsTrue};

use crate::{ActivationId, GrainId};

/// A directory entry: a grain and its activation.
#[derive(Clone, Copy, Debug, PartialEq, Eq, PartialOrd, Ord, Hash)]
pub struct Entry {
    pub grain: GrainId,
    pub activation: ActivationId,
}

impl Entry {
    /// Whether the two are the same entry.
    pub fn same(&self, other: &Entry) -> bool
        ensures { IsTrue result ↔ (self.now ≡ other.now) }
    {
        self == other
    }

    /// The same entry. Ids are copied, never cloned.
    pub fn copy(&self) -> Entry
        ensures { result ≡ self.now }
    {
        *self
    }
}
