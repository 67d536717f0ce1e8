ghost use Rattle.std.specs.Prelude.{◌≡◌, ◌↔◌, IsTrue};
ghost use Rattle.directory_rules.specs.Answer.{why_number};

use silo_address::Entry;

/// Why a request has to be made again (`docs/RULES.md#requests`).
#[derive(Clone, Copy, PartialEq, Eq)]
pub enum Why {
    /// 601: the asked silo has seen another version, this one.
    View { seen: u64 },
    /// 602: the asked silo has the hash, but not yet its entries.
    Unsettled,
    /// 603: the asked silo has served the sender a request of this number at this version, and the request's isn't above it.
    OldNumber { last: u64 },
    /// 604: the asked silo doesn't own the hash.
    NotOwner,
}

impl Why {
    /// The stated number of the reason: 601, 602, 603 or 604.
    pub fn number(self) -> u16
        ensures { result ≡ why_number self }
    {
        match self {
            Why::View { .. } => 601,
            Why::Unsettled => 602,
            Why::OldNumber { .. } => 603,
            Why::NotOwner => 604,
        }
    }

    /// Whether the two are one reason.
    pub fn same(&self, other: &Why) -> bool
        ensures { IsTrue result ↔ (self.now ≡ other.now) }
    {
        self == other
    }

    /// The reason itself: it is copied and not cloned.
    pub fn copy(&self) -> Why
        ensures { result ≡ self.now }
    {
        *self
    }
}

/// What a request is answered (`docs/RULES.md#requests`).
#[derive(Clone, Copy, PartialEq, Eq)]
pub enum Reply {
    /// To a Register: the entry is in.
    Registered(Entry),
    /// To a Register: this other entry has the grain.
    Taken(Entry),
    /// To a Deregister: the entry was there, and is out.
    Removed,
    /// To a Deregister: the entry wasn't there.
    Absent,
    /// To a Find: the grain's entry.
    Found(Entry),
    /// To a Find: the grain has no entry.
    Nothing,
    /// To any request: it wasn't served, and has to be made again.
    Retry(Why),
}

impl Reply {
    /// Whether the two are one reply.
    pub fn same(&self, other: &Reply) -> bool
        ensures { IsTrue result ↔ (self.now ≡ other.now) }
    {
        self == other
    }

    /// The reply itself: it is copied and not cloned.
    pub fn copy(&self) -> Reply
        ensures { result ≡ self.now }
    {
        *self
    }
}
