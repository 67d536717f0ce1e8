ghost use Rattle.directory_rules.specs.Membership.{is_seeable};
ghost use Rattle.std.specs.Prelude.{◌≡◌, ◌≤◌, ◌<◌, IfErr, IfOk, IsOk, OnErr};
ghost use Rattle.membership_view.specs.Views.{view_at};
ghost use Rattle.directory_rules.specs.Input.{step, sight_of};
ghost use Rattle.directory_node.specs.Follows.{Follows};
ghost use Rattle.directory_node.specs.Plans.{Fits, step_by};
ghost use Rattle.directory_silo.specs.AnswerModel.{stepped_as};
ghost use Rattle.directory_silo.specs.Numbers.{IsNumberedUnlessMemory, silo_refusal_number};
ghost use Rattle.silo_rules.specs.Steps.{sees};

use crate::{Answer, Silo, SiloRefusal};
use directory_node::{Input, Plan, StepRefusal};
use membership_view::View;

impl Silo {
    /// The silo sees a version that it was told: its node has that view from now on, and the ring of that view. Versions may be
    /// skipped. Refused by 901, 902, 903, 904, 805 (`docs/RULES.md#the-world`).
    pub fn see(&mut self, version: u64) -> Result<Answer, SiloRefusal>
        ensures told { Follows (stepped_as self.new) silo_refusal_number IsOk (sees self.old version) result }
        ensures numbered { IfErr result IsNumberedUnlessMemory }
        ensures membership { self.new.membership ≡ self.old.membership }
        ensures unchanged { OnErr result (self.new ≡ self.old) }
    {
        self.whole();
        self.may_step()?;
        if version <= self.node.view().version() {
            return Err(SiloRefusal::Node(StepRefusal::NotNewer));
        }
        if !self.is_seeable(version) {
            return Err(SiloRefusal::NoSuchVersion);
        }
        let plan = self.plan_sight(version)?;
        self.take(plan)
    }

    // Whether the silo was told of that version, and is in its view.
    fn is_seeable(&self, version: u64) -> bool
        ensures { result ≡ is_seeable self.now.membership self.now.node.host.silo version }
    {
        let silo = self.address();
        self.membership.is_seeable(&silo, version)
    }

    // The sight of a newer version, as a plan: 805. Where its requests can get no new numbers, that is told before memory is needed.
    fn plan_sight(&self, version: u64) -> Result<Plan, SiloRefusal>
        requires newer { self.now.node.view.version < version }
        requires made { version ≤ self.now.membership.views.version }
        ensures planned { Follows (step_by self.now.node) silo_refusal_number IsOk (step self.now.node (sight_of self.now.membership version)) result }
        ensures numbered { IfErr result IsNumberedUnlessMemory }
        ensures fits { IfOk result (λ plan. Fits plan.change self.now.node) }
    {
        self.whole();
        if !self.node.can_renew() {
            return Err(SiloRefusal::Node(StepRefusal::NumbersSpent));
        }
        let before = self.view(version - 1)?;
        let view = self.view(version)?;
        let input = Input::Sees {
            before: &before,
            view: &view,
            places: self.membership.places(),
        };
        match self.node.plan(self.alloc, &input) {
            Ok(plan) => Ok(plan),
            Err(refusal) => Err(SiloRefusal::of_node(refusal)),
        }
    }

    // The view of a version that was told.
    fn view(&self, version: u64) -> Result<View, SiloRefusal>
        requires made { version ≤ self.now.membership.views.version }
        ensures exact { IfOk result (λ view. view ≡ view_at self.now.membership.views version) }
        ensures memory { IfErr result (λ refusal. refusal ≡ SiloRefusal.OutOfMemory) }
    {
        match self.membership.view(self.alloc, version) {
            Ok(view) => Ok(view),
            Err(_) => Err(SiloRefusal::OutOfMemory),
        }
    }
}
