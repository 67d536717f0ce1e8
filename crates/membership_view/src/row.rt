ghost use Rattle.std.specs.Prelude.{◌≡◌};
ghost use Rattle.membership_view.specs.Beginning.{beginning};
ghost use Rattle.membership_view.specs.Row.{has_come, status_in};

use crate::Status;

/// What is kept of a silo: the versions in which it joined, began to leave and became Dead. Where the first version that is known lists
/// it, what it is there is said to have been made in that version.
#[derive(Clone, Copy, PartialEq, Eq)]
pub struct Row {
    /// The version in which the silo joined, above 0.
    pub joined: u64,
    /// The version in which it became Leaving, if it did.
    pub left: Option<u64>,
    /// The version in which it became Dead, if it did.
    pub dead: Option<u64>,
}

impl Row {
    /// The row of a silo that the first version lists, and what it is there.
    pub(crate) fn beginning(first: u64, status: Status) -> Row
        ensures { result ≡ beginning first status }
    {
        let (left, dead) = match status {
            Status::Active => (None, None),
            Status::Leaving => (Some(first), None),
            Status::Dead => (None, Some(first)),
        };
        Row {
            joined: first,
            left,
            dead,
        }
    }

    /// The silo's status in this version; `None` where it had not joined by then.
    pub fn status(&self, version: u64) -> Option<Status>
        ensures { result ≡ status_in version self.now }
    {
        if has_come(self.dead, version) {
            return Some(Status::Dead);
        }
        if has_come(self.left, version) {
            return Some(Status::Leaving);
        }
        if self.joined <= version {
            return Some(Status::Active);
        }
        None
    }
}

// Whether a change, made in that version if at all, had been made by another version.
fn has_come(change: Option<u64>, version: u64) -> bool
    ensures { result ≡ has_come change version }
{
    match change {
        Some(made) => made <= version,
        None => false,
    }
}
