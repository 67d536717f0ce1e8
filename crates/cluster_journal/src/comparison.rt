ghost use Rattle.std.specs.Prelude.{OnErr, OnOk};
ghost use Rattle.std.specs.List.Sorted.{IsPermutation};
ghost use Rattle.cluster_journal.specs.Agreement.{Agree};

use crate::{CloseRefusal, JournalEntry, Receipt, agree};

/// Compares receipts with a journal. Refused by 953 where a receipt's event and outcome aren't the journal's at its number, two
/// receipts have one number, or there aren't as many receipts as entries. It needs no memory, and may leave the receipts in another
/// order (`docs/RULES.md#the-board`).
pub fn compare(journal: &[JournalEntry], receipts: &mut [Receipt]) -> Result<(), CloseRefusal>
    ensures agree { OnOk result (Agree journal.now receipts.old) }
    ensures declined { OnErr result (¬ (Agree journal.now receipts.old)) }
    ensures same { IsPermutation receipts.old receipts.new }
{
    if agree(journal, receipts) {
        Ok(())
    } else {
        Err(CloseRefusal::ReceiptDiffers)
    }
}
