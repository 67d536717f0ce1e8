ghost use Rattle.std.specs.Prelude.{◌≡◌};
ghost use Rattle.cluster_board.specs.Commits.{commit_refusal_number};

use thiserror::Error;

/// Why a board didn't take prepared work: the first of these that holds (`docs/RULES.md#the-board`).
#[derive(Clone, Copy, Debug, PartialEq, Eq, Error)]
pub enum CommitRefusal {
    /// The silo has no node equal to the lent one, or the mail no equal letter under that number.
    #[error("the node or the letter isn't as it was lent")]
    StaleWork,
    /// As many events were accepted as ever may be.
    #[error("as many events were accepted as ever may be")]
    JournalFull,
    /// The step's letters would be more than may ever be sent.
    #[error("more letters would be sent than ever may be")]
    MailFull,
    /// There was no memory for the delivery.
    #[error("out of memory")]
    OutOfMemory,
}

impl CommitRefusal {
    /// The number by which users know the refusal: 951, 908 or 909; out of memory has none.
    pub fn number(self) -> Option<u16>
        ensures { result ≡ commit_refusal_number self }
    {
        match self {
            CommitRefusal::StaleWork => Some(951),
            CommitRefusal::JournalFull => Some(908),
            CommitRefusal::MailFull => Some(909),
            CommitRefusal::OutOfMemory => None,
        }
    }
}
