ghost use Rattle.std.specs.Prelude.{◌≡◌, ◌∷◌, [], ◌++◌, ◌+◌, ◌<◌, IfErr, IfOk, OnErr, OnOk, length, vec_capacity, vec_len};
ghost use mathlib.Core.List.{IsPrefix};
ghost use Rattle.directory_rules.specs.EventModel.{event_of};
ghost use Rattle.directory_rules.specs.Happens.{happens};
ghost use Rattle.directory_rules.specs.World.{accepted_as};
ghost use Rattle.directory_node.specs.Follows.{Follows};
ghost use Rattle.directory_core.specs.Numbers.{IsNumberedUnlessMemory, event_refusal_number};

use crate::marks::forget_by;
use crate::{Board, Charter, Hand};
use cluster_journal::{Draft, JournalEntry, Receipt};
use directory_core::EventRefusal;
use directory_rules::{Event, Outcome};
use std::alloc::{AllocError, Global};

impl<L: Charter> Board<L> {
    /// An event happens, as `World::apply` says, and its entry is the journal's last one, which the receipt names. Out of memory
    /// for the journal and for copies of the event may come before any other refusal. A refusal changes nothing. The caller has
    /// a part of the share, and has seen the journal as it is from then on, refused or not (`docs/RULES.md#the-board`).
    pub fn post(&mut self, hand: &mut Hand<L>, event: &Event) -> Result<Receipt, EventRefusal>
        requires { 0 < hand.old.share.parts }
        ensures told { Follows (λ receipt. accepted_as self.new.world receipt.entry.outcome) event_refusal_number (λ _. Unit {0}) (happens self.old.world (event_of event.now)) result }
        ensures numbered { IfErr result IsNumberedUnlessMemory }
        ensures event { IfOk result (λ receipt. receipt.entry.event ≡ event_of event.now) }
        ensures journaled { IfOk result (λ receipt. self.new ≡ record self.old { world = self.new.world; journal = self.old.journal ++ receipt.entry ∷ [] }) }
        ensures number { IfOk result (λ receipt. receipt.number ≡ length self.old.journal + 1) }
        ensures counted { OnOk result (hand.new.share.amount ≡ hand.old.share.amount + 1) }
        ensures parts { hand.new.share.parts ≡ hand.old.share.parts }
        ensures unchanged { OnErr result (self.new ≡ self.old) }
        ensures not_counted { OnErr result (hand.new.share.amount ≡ hand.old.share.amount) }
        ensures behind { IsPrefix hand.old.seen self.old.journal }
        ensures seen { hand.new.seen ≡ self.new.journal }
    {
        self.keeper.renew(&mut hand.seen);
        let Ok((kept, told)) = drafts(self.alloc, event) else {
            return Err(EventRefusal::OutOfMemory);
        };
        if self.journal.reserve(1).is_err() {
            return Err(EventRefusal::OutOfMemory);
        }
        forget_by(&mut self.marked, &self.world, event);
        let outcome = self.world.apply(event)?;
        self.book.add(&mut hand.share, 1);
        let receipt = entered(&mut self.journal, kept, told, &outcome);
        self.keeper.add(&receipt.entry);
        hand.seen = self.keeper.front();
        Ok(receipt)
    }
}

/// Two entries of the event, for the journal and for the receipt, that wait for what it tells.
pub(crate) fn drafts(alloc: Global, event: &Event) -> Result<(Draft, Draft), AllocError>
    ensures one { IfOk result (λ drafts. drafts.0 ≡ event_of event.now) }
    ensures other { IfOk result (λ drafts. drafts.1 ≡ event_of event.now) }
{
    let kept = Draft::new(alloc, event.copy()?)?;
    let told = Draft::new(alloc, event.copy()?)?;
    Ok((kept, told))
}

/// The entry of an event that told this is the journal's last one. There is room for it.
pub(crate) fn entered(
    journal: &mut Vec<JournalEntry>,
    kept: Draft,
    told: Draft,
    outcome: &Outcome,
) -> Receipt
    requires room { vec_len journal.old < vec_capacity journal.old }
    requires same { kept ≡ told }
    ensures entry { result.entry ≡ record { event = told; outcome = outcome.now } }
    ensures journal { journal.new.items ≡ journal.old.items ++ result.entry ∷ [] }
    ensures number { result.number ≡ vec_len journal.old + 1 }
{
    journal.push_reserved(kept.told(outcome));
    Receipt {
        number: journal.len() as u64,
        entry: told.told(outcome),
    }
}
