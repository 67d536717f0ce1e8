ghost use Rattle.std.specs.Prelude.{◌≡◌, is_some};
ghost use Rattle.silo_workers.specs.Causes.{cause_of};

use cluster_board::{Charter, CommitRefusal, Dismissal};
use std::marker::Model;
use thiserror::Error;

/// Why a worker gave up (`docs/RULES.md#running-silos`).
#[derive(Clone, Copy, Debug, PartialEq, Eq, Error)]
pub enum Cause {
    /// As many events were accepted as ever may be.
    #[error("a worker gave up: as many events were accepted as ever may be")]
    JournalFull,
    /// A delivery would have sent more letters than may ever be sent.
    #[error("a worker gave up: more letters would be sent than ever may be")]
    MailFull,
    /// There was no memory for a delivery or its receipt.
    #[error("a worker gave up: out of memory")]
    OutOfMemory,
}

impl Cause {
    // Why a worker gives up after that refusal; `None` where it lends again.
    pub(crate) fn of(refusal: CommitRefusal) -> Option<Cause>
        ensures { result ≡ cause_of refusal }
    {
        match refusal {
            CommitRefusal::StaleWork => None,
            CommitRefusal::JournalFull => Some(Cause::JournalFull),
            CommitRefusal::MailFull => Some(Cause::MailFull),
            CommitRefusal::OutOfMemory => Some(Cause::OutOfMemory),
        }
    }
}

/// How a worker ended: its board let it go, which dismissed it where it has no cause, and otherwise knows that it gave up
/// (`docs/RULES.md#running-silos`).
#[derive(Drop)]
pub struct Ending<L: Charter> {
    dismissal: Dismissal<L>,
    cause: Option<Cause>,
}

impl<L: Charter> Model for Ending<L> {
    ghost use Rattle.std.specs.Prelude.{◌≡◌, is_some};
    ghost use Rattle.silo_workers.specs.Endings.{EndingValue};

    ghost Value = { EndingValue };

    ghost view = { λ e. record { silo = e.dismissal.silo; cause = e.cause } };

    ghost invariant = { λ e. is_some e.cause ≡ e.dismissal.gave_up };
}

impl<L: Charter> Ending<L> {
    // Its board let it go, for that cause if it gave up.
    pub(crate) fn new(dismissal: Dismissal<L>, cause: Option<Cause>) -> Ending<L>
        requires { is_some cause ≡ dismissal.gave_up }
        ensures { result ≡ record { silo = dismissal.silo; cause = cause } }
    {
        Ending { dismissal, cause }
    }

    /// Why it gave up, if it did.
    pub fn cause(&self) -> Option<Cause>
        ensures { result ≡ self.now.cause }
    {
        self.cause
    }
}
