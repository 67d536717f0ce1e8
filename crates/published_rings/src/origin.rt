//! Which publication something is of. What is shown and the ends that see it are told apart by it, in proofs alone.
ghost use Rattle.std.specs.Prelude.{◌≡◌};
ghost use Rattle.published_rings.specs.Shown.{publication_of};

use crate::shown::Shown;
use std::marker::Model;
use std::snapshot::Snapshot;
use std::sync::OnceLock;

/// What makes a publication: one of two locks, which nobody ever takes. No two locks have one name, and none can be copied, so a
/// publication has two marks and never a third: each of the two copies of what it shows keeps one.
#[derive(Drop)]
pub(crate) struct Mark {
    lock: OnceLock<()>,
    second: bool,
    both: Snapshot<(OnceLock<()>, OnceLock<()>)>,
}

impl Model for Mark {
    ghost use Rattle.std.specs.Prelude.{◌≡◌};
    ghost use Rattle.published_rings.specs.Shown.{Marks, lock_of};

    ghost Value = { Marks };

    ghost view = { λ m. (m.both.value.0.id, m.both.value.1.id) };

    ghost invariant = { λ m. m.lock.id ≡ lock_of m.second (m.both.value.0.id, m.both.value.1.id) };
}

impl Mark {
    // The two marks of a new publication.
    pub(crate) fn pair() -> (Mark, Mark)
        ensures { result.0 ≡ result.1 }
    {
        let locks = (OnceLock::new(), OnceLock::new());
        let both = Snapshot::of(&locks);
        let same = Snapshot::of(&locks);
        let (lock, other) = locks;
        let first = Mark {
            lock,
            second: false,
            both,
        };
        let second = Mark {
            lock: other,
            second: true,
            both: same,
        };
        (first, second)
    }
}

/// The publication that shows something, as clauses see it. It has no bytes.
#[derive(Drop)]
pub(crate) struct Origin {
    shown: Snapshot<Shown>,
}

impl Model for Origin {
    ghost use Rattle.published_rings.specs.Shown.{Publication, publication_of};

    ghost Value = { Publication };

    ghost view = { λ o. publication_of o.shown.value };
}

impl Origin {
    pub(crate) fn of(shown: &Shown) -> Origin
        ensures { result ≡ publication_of shown.now }
    {
        Origin {
            shown: Snapshot::of(shown),
        }
    }
}
