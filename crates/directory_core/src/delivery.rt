//! A letter delivered as its receiver planned beside the world.
ghost use Rattle.std.specs.Prelude.{◌≡◌, ◌<◌, IfErr, IfOk, IsOk, OnErr};
ghost use Rattle.directory_rules.specs.Event.{Deliver};
ghost use Rattle.directory_rules.specs.Happens.{deliver, happens};
ghost use Rattle.directory_rules.specs.Headline.{Headline};
ghost use Rattle.directory_rules.specs.World.{accepted_as};
ghost use Rattle.dump_headline.specs.Told.{IsRightlyTold};
ghost use Rattle.directory_node.specs.Follows.{Follows};
ghost use Rattle.directory_core.specs.Applied.{IsPlainlyTold};
ghost use Rattle.directory_core.specs.Delivery.{IsPlanWith, plan_back, undelivered_number};
ghost use Rattle.directory_core.specs.Numbers.{IsNumberedUnlessMemory};
ghost use Rattle.directory_core.specs.Whole.{LeavesWorld};

use crate::{EventRefusal, World};
use directory_node::Plan;
use directory_rules::{Happening, Outcome};

/// A plan that couldn't be carried out: why, and the plan itself, which may be tried again. Where memory runs out it is used up.
#[derive(Drop)]
pub struct Undelivered {
    pub refusal: EventRefusal,
    pub plan: Option<Plan>,
}

impl World {
    /// The letter of a number comes to its receiver, whose plan with it was made beside the world, by `Node::plan_letter`; then this
    /// is `apply` of the delivery (`docs/RULES.md#the-world`). Refused by 908, then by 909, which hand the plan back; out of memory
    /// comes last, and uses the plan up. A refusal changes nothing. Where nobody else holds the receiver's node, it is changed where
    /// it is, and nothing is copied.
    pub fn deliver_with(&mut self, number: u64, plan: Plan) -> Result<Outcome, Undelivered>
        requires its { IsPlanWith self.old number plan }
        ensures told { Follows (accepted_as self.new) undelivered_number IsOk (happens self.old (Deliver number)) result }
        ensures numbered { IfErr result (λ undelivered. IsNumberedUnlessMemory undelivered.refusal) }
        ensures back { IfErr result (λ undelivered. undelivered.plan ≡ plan_back (undelivered_number undelivered) plan) }
        ensures unchanged { OnErr result (self.new ≡ self.old) }
        ensures headline { Headline self.new }
        ensures right { IsRightlyTold self.new }
        ensures plain { IfOk result (λ outcome. IsPlainlyTold self.old outcome self.new) }
    {
        self.whole();
        let told = self.follow_with(number, plan);
        self.headline();
        told
    }

    // The plan is carried out, as the rule says.
    fn follow_with(&mut self, number: u64, plan: Plan) -> Result<Outcome, Undelivered>
        requires its { IsPlanWith self.old number plan }
        requires leaves { LeavesWorld (happens self.old (Deliver number)) }
        ensures told { Follows (accepted_as self.new) undelivered_number IsOk (happens self.old (Deliver number)) result }
        ensures numbered { IfErr result (λ undelivered. IsNumberedUnlessMemory undelivered.refusal) }
        ensures back { IfErr result (λ undelivered. undelivered.plan ≡ plan_back (undelivered_number undelivered) plan) }
        ensures unchanged { OnErr result (self.new ≡ self.old) }
    {
        if self.accepted() >= self.settings().events() {
            return Err(Undelivered {
                refusal: EventRefusal::JournalFull,
                plan: Some(plan),
            });
        }
        self.take_with(number, plan)
    }

    // The plan is carried out while there is room for one more event: 909.
    fn take_with(&mut self, number: u64, plan: Plan) -> Result<Outcome, Undelivered>
        requires room { self.old.accepted < self.old.settings.events }
        requires its { IsPlanWith self.old number plan }
        requires leaves { LeavesWorld (deliver self.old number) }
        ensures told { Follows (accepted_as self.new) undelivered_number IsOk (deliver self.old number) result }
        ensures numbered { IfErr result (λ undelivered. IsNumberedUnlessMemory undelivered.refusal) }
        ensures back { IfErr result (λ undelivered. undelivered.plan ≡ plan_back (undelivered_number undelivered) plan) }
        ensures unchanged { OnErr result (self.new ≡ self.old) }
    {
        if !self.has_room_for(&plan.letters) {
            return Err(Undelivered {
                refusal: EventRefusal::MailFull,
                plan: Some(plan),
            });
        }
        let Some(mailed) = self.letter(number) else {
            unreachable!()
        };
        let letter = mailed.letter();
        let to = letter.to();
        let kind = letter.kind();
        drop(mailed);
        let outcome = Outcome {
            happening: Happening::Delivered {
                number,
                kind,
                effect: plan.effect,
            },
            sent: self.span_of(&plan.letters),
        };
        match self.receive(&to, number, plan.letters, plan.change) {
            Ok(()) => Ok(outcome),
            Err(_) => Err(Undelivered {
                refusal: EventRefusal::OutOfMemory,
                plan: None,
            }),
        }
    }
}
