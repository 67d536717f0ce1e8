ghost use Rattle.std.specs.Prelude.{◌≡◌, IfErr, IfOk, OnErr, length};
ghost use Rattle.directory_rules.specs.Step.{finding, find_grain, forget, started, wake};
ghost use Rattle.hash_ring.specs.Ring.{is_active_in};
ghost use Rattle.node_plans.specs.Follows.{Follows};
ghost use Rattle.node_plans.specs.Numbers.{step_refusal_number};
ghost use Rattle.node_plans.specs.Plans.{Fits, Sends, step_by};

use crate::{Change, Node, Plan, StepRefusal};
use directory_rules::{Act, Effect};
use node_plans::hint_in;
use silo_address::{ActivationId, Entry, GrainId, SiloAddress};
use std::alloc::{AllocError, Global};

impl Node {
    // The silo is woken for a grain: 804, 801, 806, 805. Needs memory for the one letter that it sends, if it sends one.
    pub(crate) fn plan_wake(&self, alloc: Global, grain: &GrainId) -> Result<Plan, StepRefusal>
        ensures planned { Follows (step_by self.now) step_refusal_number (Sends 1) (wake self.now grain.now) result }
        ensures fits { IfOk result (λ plan. Fits plan.change self.now) }
    {
        self.settings.in_range();
        if !self.sees_active(&self.host.silo()) {
            return Err(StepRefusal::NotActiveSilo);
        }
        if self.host.held(grain).is_some() {
            return Err(StepRefusal::AlreadyHere);
        }
        if self.host.is_full_of_activations(&self.settings) {
            return Err(StepRefusal::HostFull);
        }
        if !(self.host.has_numbers(&self.settings, 1) && self.host.has_count(&self.settings)) {
            return Err(StepRefusal::NumbersSpent);
        }
        match self.starting(alloc, grain, None) {
            Ok(plan) => Ok(plan),
            Err(_) => Err(StepRefusal::OutOfMemory),
        }
    }

    // An activation begins, in the place of a previous one if one is named.
    pub(crate) fn starting(
        &self,
        alloc: Global,
        grain: &GrainId,
        previous: Option<ActivationId>,
    ) -> Result<Plan, AllocError>
        ensures planned { IfOk result (λ plan. step_by self.now plan ≡ started self.now grain.now previous) }
        ensures change { IfOk result (λ plan. plan.change ≡ Change.Starts grain.now previous) }
        ensures one { OnErr result (length (started self.now grain.now previous).letters ≡ 1) }
    {
        let entry = self.entry_of(grain, self.host.next_count());
        let register = Act::Register { entry, previous };
        let grain = *grain;
        Ok(Plan {
            letters: self.request_letters(alloc, self.host.next_number(), register)?,
            effect: Effect::Started(entry),
            change: Change::Starts { grain, previous },
        })
    }

    // The silo looks a grain up: in its cache, and where that has no hint it asks the owner: 806, 805. Needs memory for the one
    // letter that it sends, if it sends one.
    pub(crate) fn plan_find(&self, alloc: Global, grain: &GrainId) -> Result<Plan, StepRefusal>
        ensures planned { Follows (step_by self.now) step_refusal_number (Sends 1) (find_grain self.now grain.now) result }
        ensures fits { IfOk result (λ plan. Fits plan.change self.now) }
    {
        self.settings.in_range();
        if let Some(activation) = hint_in(&self.cache, grain) {
            return Ok(Plan::of_hint(alloc, grain, activation));
        }
        if self.host.is_full_of_finds(&self.settings) {
            return Err(StepRefusal::HostFull);
        }
        if !self.host.has_numbers(&self.settings, 1) {
            return Err(StepRefusal::NumbersSpent);
        }
        self.asking(alloc, grain)
    }

    // The owner of the grain's hash is asked.
    fn asking(&self, alloc: Global, grain: &GrainId) -> Result<Plan, StepRefusal>
        ensures planned { IfOk result (λ plan. step_by self.now plan ≡ finding self.now grain.now) }
        ensures change { IfOk result (λ plan. plan.change ≡ Change.Asks grain.now) }
        ensures one { OnErr result (length (finding self.now grain.now).letters ≡ 1) }
        ensures refused { IfErr result (λ refusal. refusal ≡ StepRefusal.OutOfMemory) }
    {
        let find = Act::Find { grain: *grain };
        let Ok(letters) = self.request_letters(alloc, self.host.next_number(), find) else {
            return Err(StepRefusal::OutOfMemory);
        };
        Ok(Plan {
            letters,
            effect: Effect::Finding(*grain),
            change: Change::Asks(*grain),
        })
    }

    // The silo forgets what its cache has of a grain.
    pub(crate) fn plan_forget(&self, alloc: Global, grain: &GrainId) -> Plan
        ensures planned { step_by self.now result ≡ forget self.now grain.now }
        ensures fits { Fits result.change self.now }
    {
        let grain = *grain;
        match hint_in(&self.cache, &grain) {
            Some(activation) => Plan::silent(
                alloc,
                Effect::Forgot(grain),
                Change::Forgets { grain, activation },
            ),
            None => Plan::idle(alloc, Effect::NothingCached(grain)),
        }
    }

    // Whether a silo is Active in the view that this one has seen.
    pub(crate) fn sees_active(&self, silo: &SiloAddress) -> bool
        ensures { result ≡ is_active_in self.now.view silo.now }
    {
        match self.view.status(silo) {
            Some(status) => status.is_active(),
            None => false,
        }
    }

    // The entry of the grain's activation here that has the count.
    pub(crate) fn entry_of(&self, grain: &GrainId, count: u64) -> Entry
        ensures { result ≡ record { grain = grain.now; activation = record { silo = self.now.host.silo; count = count } } }
    {
        let silo = self.host.silo();
        Entry {
            grain: *grain,
            activation: ActivationId { silo, count },
        }
    }
}
