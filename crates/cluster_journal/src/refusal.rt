ghost use Rattle.std.specs.Prelude.{◌≡◌};
ghost use Rattle.cluster_journal.specs.Numbers.{close_refusal_number};

use thiserror::Error;

/// Why receipts weren't taken for those of a journal (`docs/RULES.md#the-board`).
#[derive(Clone, Copy, Debug, PartialEq, Eq, Error)]
pub enum CloseRefusal {
    /// A receipt isn't that of the journal's entry at its number, two have one number, or there aren't as many as entries.
    #[error("the receipts aren't those of the journal")]
    ReceiptDiffers,
}

impl CloseRefusal {
    /// The number by which users know the refusal: 953.
    pub fn number(self) -> u16
        ensures { result ≡ close_refusal_number self }
    {
        match self {
            CloseRefusal::ReceiptDiffers => 953,
        }
    }
}
