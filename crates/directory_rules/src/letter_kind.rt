ghost use Rattle.std.specs.Prelude.{◌≡◌, ◌↔◌, IsTrue};

/// The kinds of letters that silos send one another (`docs/RULES.md#letters`).
#[derive(Clone, Copy, Debug, PartialEq, Eq)]
pub enum LetterKind {
    Register,
    Deregister,
    Find,
    Registered,
    Taken,
    Removed,
    Absent,
    Found,
    Nothing,
    Retry,
    Ask,
    Page,
    Missing,
    Done,
    Query,
    Report,
    Survey,
    Empty,
    Behind,
    Ahead,
    Offer,
}

impl LetterKind {
    /// Whether the two are one kind.
    pub fn same(&self, other: &LetterKind) -> bool
        ensures { IsTrue result ↔ (self.now ≡ other.now) }
    {
        self == other
    }

    /// The kind itself: it is copied and not cloned.
    pub fn copy(&self) -> LetterKind
        ensures { result ≡ self.now }
    {
        *self
    }
}
