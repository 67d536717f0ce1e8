ghost use Rattle.std.specs.Prelude.{◌≡◌, ◌⊎◌, ◌↔◌, ◌∷◌, [], ◌++◌, ◌+◌, ◌<◌, IfErr, IfOk, IfSome, IsTrue, MatchOption, None, OnErr, OnOk, Ok, Some, length};
ghost use mathlib.Core.List.{IsPrefix};
ghost use Rattle.directory_rules.specs.Event.{Deliver};
ghost use Rattle.directory_rules.specs.Happens.{happens, node_of};
ghost use Rattle.directory_rules.specs.Mail.{letter_of};
ghost use Rattle.directory_rules.specs.World.{accepted_as};
ghost use Rattle.cluster_board.specs.Commits.{Declines, IsTaken};
ghost use Rattle.cluster_board.specs.Planned.{IsPlanOf};
ghost use Rattle.cluster_board.specs.Work.{IsCurrent};

use crate::marks::forget;
use crate::post::{drafts, entered};
use crate::{Board, Charter, CommitRefusal, Hand, Job, Mark, Names, Prepared};
use cluster_journal::Receipt;
use directory_core::World;
use directory_letters::Letter;
use directory_node::{Plan, SharedNode};
use directory_rules::{Event, Outcome};
use silo_address::SiloAddress;

/// Prepared work that a board didn't take: why, and what is left of it.
pub struct Uncommitted<N: Names> {
    pub refusal: CommitRefusal,
    /// The job once more, where memory ran out and its node could be lent again.
    pub job: Option<Job<N>>,
    /// The node of work that is spent, to be dropped when the lock is free again, since nobody else may have it.
    pub node: Option<SharedNode>,
}

impl<L: Charter> Board<L> {
    /// The letter of prepared work comes to its receiver, whose step was prepared: this is `World::apply` of the delivery, and its
    /// entry is the journal's last one, which the receipt names. Refused by 951 where the silo has no node equal to the lent one
    /// or the mail no equal letter under that number, then by 908, then by 909: of that work the lent node comes back alone. Out of
    /// memory comes last, and then the job comes back if its node can be lent again. A refusal changes nothing. The caller has a
    /// part of the share, and has seen the journal as it is from then on, refused or not (`docs/RULES.md#the-board`).
    pub fn commit(
        &mut self,
        hand: &mut Hand<L>,
        prepared: Prepared<L>,
    ) -> Result<Receipt, Uncommitted<L>>
        requires { 0 < hand.old.share.parts }
        ensures current { OnOk result (IsCurrent self.old.world prepared) }
        ensures told { IfOk result (λ receipt. happens self.old.world (Deliver prepared.number) ≡ Ok (accepted_as self.new.world receipt.entry.outcome)) }
        ensures event { IfOk result (λ receipt. receipt.entry.event ≡ Deliver prepared.number) }
        ensures journaled { IfOk result (λ receipt. self.new ≡ record self.old { world = self.new.world; journal = self.old.journal ++ receipt.entry ∷ [] }) }
        ensures number { IfOk result (λ receipt. receipt.number ≡ length self.old.journal + 1) }
        ensures counted { OnOk result (hand.new.share.amount ≡ hand.old.share.amount + 1) }
        ensures parts { hand.new.share.parts ≡ hand.old.share.parts }
        ensures declined { IfErr result (λ uncommitted. Declines self.old.world prepared uncommitted.refusal) }
        ensures back { IfErr result (λ uncommitted. IfSome uncommitted.job (λ job. (job ≡ prepared) × (uncommitted.refusal ≡ CommitRefusal.OutOfMemory))) }
        ensures spent { IfErr result (λ uncommitted. (uncommitted.refusal ≡ CommitRefusal.OutOfMemory) ⊎ (uncommitted.node ≡ Some prepared.node)) }
        ensures unchanged { OnErr result (self.new ≡ self.old) }
        ensures not_counted { OnErr result (hand.new.share.amount ≡ hand.old.share.amount) }
        ensures behind { IsPrefix hand.old.seen self.old.journal }
        ensures seen { hand.new.seen ≡ self.new.journal }
    {
        let Prepared { job, plan } = prepared;
        self.renew(&mut hand.seen);
        if let Some(refusal) = self.refusal_of(&job, &plan) {
            return Err(spent(refusal, job));
        }
        self.carry_out(hand, job, plan)
    }

    // Why prepared work is refused by a number, if it is.
    fn refusal_of(&self, job: &Job<L>, plan: &Plan) -> Option<CommitRefusal>
        requires { IsPlanOf job.now plan.now }
        ensures { MatchOption result (IsTaken self.now.world job.now) (Declines self.now.world job.now) }
    {
        if !self.is_current(job) {
            return Some(CommitRefusal::StaleWork);
        }
        limit_met(&self.world, job, plan)
    }

    // Whether the work is as it was lent.
    fn is_current(&self, job: &Job<L>) -> bool
        ensures { IsTrue result ↔ IsCurrent self.now.world job.now }
    {
        has_letter(&self.world, job) && (self.has_mark(job) || has_node(&self.world, job))
    }

    // Whether the silo's node has the job's mark: that is told at once, and then the node is that of the job.
    fn has_mark(&self, job: &Job<L>) -> bool
        ensures { IsTrue result → node_of self.now.world job.now.letter.to ≡ Some job.now.node }
    {
        match self.mark_at(&job.letter.to()) {
            Some(mark) => is_marked(job, mark),
            None => false,
        }
    }

    // The mark of the silo's node, if it has one.
    fn mark_at(&self, silo: &SiloAddress) -> Option<&Mark<SharedNode, L>>
        ensures { IfSome result (λ mark. node_of self.now.world silo.now ≡ Some mark.now) }
    {
        self.marked.get(silo)
    }

    // Work is carried out that is refused only where memory runs out.
    fn carry_out(
        &mut self,
        hand: &mut Hand<L>,
        job: Job<L>,
        plan: Plan,
    ) -> Result<Receipt, Uncommitted<L>>
        requires part { 0 < hand.old.share.parts }
        requires planned { IsPlanOf job plan }
        requires taken { IsTaken self.old.world job }
        requires seen { hand.old.seen ≡ self.old.journal }
        ensures told { IfOk result (λ receipt. happens self.old.world (Deliver job.number) ≡ Ok (accepted_as self.new.world receipt.entry.outcome)) }
        ensures event { IfOk result (λ receipt. receipt.entry.event ≡ Deliver job.number) }
        ensures journaled { IfOk result (λ receipt. self.new ≡ record self.old { world = self.new.world; journal = self.old.journal ++ receipt.entry ∷ [] }) }
        ensures number { IfOk result (λ receipt. receipt.number ≡ length self.old.journal + 1) }
        ensures counted { OnOk result (hand.new.share.amount ≡ hand.old.share.amount + 1) }
        ensures parts { hand.new.share.parts ≡ hand.old.share.parts }
        ensures declined { IfErr result (λ uncommitted. uncommitted.refusal ≡ CommitRefusal.OutOfMemory) }
        ensures back { IfErr result (λ uncommitted. IfSome uncommitted.job (λ back. back ≡ job)) }
        ensures unchanged { OnErr result (self.new ≡ self.old) }
        ensures not_counted { OnErr result (hand.new.share.amount ≡ hand.old.share.amount) }
        ensures seen { hand.new.seen ≡ self.new.journal }
    {
        let number = job.number;
        let Ok((kept, told)) = drafts(self.alloc, &Event::Deliver { number }) else {
            return Err(out_of_memory(Some(job)));
        };
        if self.journal.reserve(1).is_err() {
            return Err(out_of_memory(Some(job)));
        }
        forget(&mut self.marked, &job.letter.to());
        match deliver(&mut self.world, job, plan) {
            Ok(outcome) => {
                self.book.add(&mut hand.share, 1);
                let receipt = entered(&mut self.journal, kept, told, &outcome);
                self.keeper.add(&receipt.entry);
                hand.seen = self.keeper.front();
                Ok(receipt)
            }
            Err(job) => Err(out_of_memory(job)),
        }
    }
}

// Work is spent: a number refuses it.
fn spent<N: Names>(refusal: CommitRefusal, job: Job<N>) -> Uncommitted<N>
    ensures refusal { result.refusal ≡ refusal }
    ensures no_job { result.job ≡ None }
    ensures node { result.node ≡ Some job.node }
{
    let Job {
        number: _,
        letter: _,
        node,
        mark: _,
    } = job;
    Uncommitted {
        refusal,
        job: None,
        node: Some(node),
    }
}

// Memory ran out, and this is the job once more, if its node could be lent again.
fn out_of_memory<N: Names>(job: Option<Job<N>>) -> Uncommitted<N>
    ensures refusal { result.refusal ≡ CommitRefusal.OutOfMemory }
    ensures back { result.job ≡ job }
{
    Uncommitted {
        refusal: CommitRefusal::OutOfMemory,
        job,
        node: None,
    }
}

// Whether the job has this mark, and so a node of this value.
fn is_marked<N: Names>(job: &Job<N>, mark: &Mark<SharedNode, N>) -> bool
    ensures { IsTrue result → mark.now ≡ job.now.node }
{
    match &job.mark {
        Some(its) => mark.is_that(its),
        None => false,
    }
}

// Whether the mail has the job's letter under its number.
fn has_letter<N: Names>(world: &World, job: &Job<N>) -> bool
    ensures { IsTrue result ↔ (letter_of world.now job.now.number ≡ Some job.now.letter) }
{
    match world.letter(job.number) {
        Some(mailed) => mailed.letter().same(&job.letter),
        None => false,
    }
}

// Whether the silo has the job's node, told by comparing the two.
fn has_node<N: Names>(world: &World, job: &Job<N>) -> bool
    ensures { IsTrue result ↔ (node_of world.now job.now.letter.to ≡ Some job.now.node) }
{
    match world.shared_node(&job.letter.to()) {
        Some(node) => node.same(&job.node),
        None => false,
    }
}

// The limit that refuses work which is current, if one does: that of events goes before that of letters.
fn limit_met<N: Names>(world: &World, job: &Job<N>, plan: &Plan) -> Option<CommitRefusal>
    requires planned { IsPlanOf job.now plan.now }
    requires current { IsCurrent world.now job.now }
    ensures { MatchOption result (IsTaken world.now job.now) (Declines world.now job.now) }
{
    let _number = job.number;
    if world.accepted() >= world.settings().events() {
        return Some(CommitRefusal::JournalFull);
    }
    if !world.has_room_for(&plan.letters) {
        return Some(CommitRefusal::MailFull);
    }
    None
}

// The letter of work that is refused only where memory runs out comes to its receiver. The lent node is let go first, so that the
// receiver's is changed where it is, unless somebody else holds it; where memory runs out, it is lent again.
fn deliver<N: Names>(world: &mut World, job: Job<N>, plan: Plan) -> Result<Outcome, Option<Job<N>>>
    requires planned { IsPlanOf job plan }
    requires taken { IsTaken world.old job }
    ensures told { IfOk result (λ outcome. happens world.old (Deliver job.number) ≡ Ok (accepted_as world.new outcome)) }
    ensures back { IfErr result (λ back. IfSome back (λ again. again ≡ job)) }
    ensures unchanged { OnErr result (world.new ≡ world.old) }
{
    let Job {
        number,
        letter,
        node,
        mark: _,
    } = job;
    drop(node);
    match world.deliver_with(number, plan) {
        Ok(outcome) => Ok(outcome),
        Err(_) => Err(lent_again(world, number, letter)),
    }
}

// The job of a letter, with its receiver's node lent again, if that can be.
fn lent_again<N: Names>(world: &World, number: u64, letter: Letter) -> Option<Job<N>>
    ensures { IfSome result (λ job. (job.number ≡ number) × (job.letter ≡ letter) × (node_of world.now letter.to ≡ Some job.node)) }
{
    let node = world.shared_node(&letter.to())?;
    let Ok(node) = node.copy() else {
        return None;
    };
    Some(Job {
        number,
        letter,
        node,
        mark: None,
    })
}
