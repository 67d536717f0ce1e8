//! A step of the silo's node is planned, which changes nothing yet, and then carried out.
ghost use Rattle.std.specs.Prelude.{◌≡◌, IfErr, IfOk, IsOk, IsSome, None, OnErr, OnOk, Result, ℕ};
ghost use Rattle.directory_rules.specs.Input.{step};
ghost use Rattle.directory_rules.specs.Step.{Stepped};
ghost use Rattle.directory_node.specs.Follows.{Follows, RefusesBy};
ghost use Rattle.directory_node.specs.InputModel.{input_of};
ghost use Rattle.directory_node.specs.Plans.{Fits, step_by};
ghost use Rattle.directory_silo.specs.AnswerModel.{stepped_as};
ghost use Rattle.directory_silo.specs.Numbers.{IsNumberedUnlessMemory, silo_refusal_number};
ghost use Rattle.silo_rules.specs.Steps.{barred, does, unless_barred};
ghost use Rattle.silo_rules.specs.NodeInputs.{IsNoSight};
ghost use Rattle.silo_rules.specs.Whole.{IsWhole};

use crate::{Answer, Silo, SiloRefusal};
use directory_node::{Input, Plan};
use membership_view::Status;

impl Silo {
    // The silo's node takes an input that is no sight: 901, 902, then as the step refuses.
    pub(crate) fn does(&mut self, input: &Input<'_>) -> Result<Answer, SiloRefusal>
        requires { IsNoSight (input_of input.now) }
        ensures told { Follows (stepped_as self.new) silo_refusal_number IsOk (does self.old (input_of input.now)) result }
        ensures numbered { IfErr result IsNumberedUnlessMemory }
        ensures membership { self.new.membership ≡ self.old.membership }
        ensures unchanged { OnErr result (self.new ≡ self.old) }
    {
        self.may_step()?;
        self.takes(input)
    }

    // The same where nothing bars the silo.
    fn takes(&mut self, input: &Input<'_>) -> Result<Answer, SiloRefusal>
        requires { IsNoSight (input_of input.now) }
        ensures told { Follows (stepped_as self.new) silo_refusal_number IsOk (step self.old.node (input_of input.now)) result }
        ensures numbered { IfErr result IsNumberedUnlessMemory }
        ensures membership { self.new.membership ≡ self.old.membership }
        ensures unchanged { OnErr result (self.new ≡ self.old) }
    {
        self.whole();
        let plan = match self.node.plan(self.alloc, input) {
            Ok(plan) => plan,
            Err(refusal) => return Err(SiloRefusal::of_node(refusal)),
        };
        self.take(plan)
    }

    // Whether the silo takes steps: 901, 902.
    pub(crate) fn may_step(&self) -> Result<(), SiloRefusal>
        ensures may { OnOk result (barred self.now ≡ None) }
        ensures numbered { IfErr result (λ refusal. IsSome (silo_refusal_number refusal)) }
        ensures refused { IfErr result (λ refusal. (outcome : Result Stepped ℕ) → RefusesBy IsOk (silo_refusal_number refusal) (unless_barred (barred self.now) outcome)) }
    {
        match self.status() {
            None => Err(SiloRefusal::NotJoined),
            Some(Status::Dead) => Err(SiloRefusal::Dead),
            Some(Status::Active | Status::Leaving) => Ok(()),
        }
    }

    // A plan of the node is carried out.
    pub(crate) fn take(&mut self, plan: Plan) -> Result<Answer, SiloRefusal>
        requires fits { Fits plan.change self.old.node }
        requires leaves { IsWhole (record self.old { node = (step_by self.old.node plan).node }) }
        ensures taken { IfOk result (λ answer. stepped_as self.new answer ≡ step_by self.old.node plan) }
        ensures memory { IfErr result (λ refusal. refusal ≡ SiloRefusal.OutOfMemory) }
        ensures membership { self.new.membership ≡ self.old.membership }
        ensures unchanged { OnErr result (self.new ≡ self.old) }
    {
        let Plan {
            letters,
            effect,
            change,
        } = plan;
        match self.node.carry_out(change) {
            Ok(()) => Ok(Answer { letters, effect }),
            Err(_) => Err(SiloRefusal::OutOfMemory),
        }
    }
}
