ghost use Rattle.std.specs.Prelude.{◌≡◌, ◌↔◌, All, AllPairs, IsTrue};
ghost use Rattle.std.specs.List.Sorted.{IsPermutation};
ghost use Rattle.std.specs.Option.{option_copied};
ghost use Rattle.cluster_journal.specs.Agreement.{Agree, HaveTwoNumbers, Stands};
ghost use Rattle.cluster_journal.specs.Journal.{entry_at};

use crate::{JournalEntry, Receipt};

/// Whether the receipts are just those of the journal: each one's event and outcome are the journal's at its number, no two have
/// one number, and there are as many as entries. It needs no memory: where only their numbers are still to be told apart, the
/// receipts are sorted by these, in place. Costs a logarithm for each receipt at most.
pub fn agree(journal: &[JournalEntry], receipts: &mut [Receipt]) -> bool
    ensures agree { IsTrue result ↔ Agree journal.now receipts.old }
    ensures same { IsPermutation receipts.old receipts.new }
{
    receipts.len() == journal.len() && all_stand(journal, receipts) && are_apart(receipts)
}

// Whether each receipt's entry is the journal's at its number.
fn all_stand(journal: &[JournalEntry], receipts: &[Receipt]) -> bool
    ensures { IsTrue result ↔ All (Stands journal.now) receipts.now }
{
    receipts.iter().all(|receipt| stands(journal, receipt))
}

// Whether no two receipts have one number: sorted by their numbers, each has a higher one than the one before it.
fn are_apart(receipts: &mut [Receipt]) -> bool
    ensures apart { IsTrue result ↔ AllPairs HaveTwoNumbers receipts.old }
    ensures same { IsPermutation receipts.old receipts.new }
{
    receipts.sort_unstable_by_key(|receipt| receipt.number);
    receipts.is_sorted_by(|one, next| one.number < next.number)
}

// Whether the receipt's entry is the journal's at its number.
fn stands(journal: &[JournalEntry], receipt: &Receipt) -> bool
    ensures { IsTrue result ↔ Stands journal.now receipt.now }
{
    match entry_at(journal, receipt.number) {
        Some(entry) => entry.same(&receipt.entry),
        None => false,
    }
}

// The entry of that number, if there is one.
fn entry_at(journal: &[JournalEntry], number: u64) -> Option<&JournalEntry>
    ensures { option_copied result ≡ entry_at journal.now number }
{
    if number == 0 {
        return None;
    }
    journal.get((number - 1) as usize)
}
