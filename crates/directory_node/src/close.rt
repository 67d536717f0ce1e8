//! Closing an activation, giving one up, and offering one to another silo.
ghost use Rattle.std.specs.Prelude.{◌≡◌, IfOk, OnErr, Some, length};
ghost use Rattle.directory_rules.specs.Host.{held_of};
ghost use Rattle.directory_rules.specs.Receive.{offered_to, takes_offer};
ghost use Rattle.directory_rules.specs.Step.{cancel, close, closing, offer, offered};
ghost use Rattle.node_plans.specs.Follows.{Follows};
ghost use Rattle.node_plans.specs.Numbers.{step_refusal_number};
ghost use Rattle.node_plans.specs.Plans.{Fits, Sends, step_by};

use crate::{Change, Node, Plan, StepRefusal};
use directory_letters::{Body, Letter};
use directory_rules::{Act, Effect, Held};
use node_plans::{is_asking, is_firm, offer_effect};
use silo_address::{Entry, GrainId, SiloAddress};
use std::alloc::{AllocError, Global};

impl Node {
    // The silo closes an activation: 802, 803, 805. Needs memory for the one letter that it sends, if it sends one.
    pub(crate) fn plan_close(&self, alloc: Global, grain: &GrainId) -> Result<Plan, StepRefusal>
        ensures planned { Follows (step_by self.now) step_refusal_number (Sends 1) (close self.now grain.now) result }
        ensures fits { IfOk result (λ plan. Fits plan.change self.now) }
    {
        self.settings.in_range();
        let Some(held) = self.host.held(grain) else {
            return Err(StepRefusal::NotHere);
        };
        if !is_firm(&held.phase) {
            return Err(StepRefusal::NotFirm);
        }
        if !self.host.has_numbers(&self.settings, 1) {
            return Err(StepRefusal::NumbersSpent);
        }
        let told = Effect::Closing(self.entry_of(grain, held.count));
        match self.closing(alloc, grain, &held, told) {
            Ok(plan) => Ok(plan),
            Err(_) => Err(StepRefusal::OutOfMemory),
        }
    }

    // The silo gives up an activation that asks: 802, 808, 805. Needs memory for the one letter that it sends, if it sends one.
    pub(crate) fn plan_cancel(&self, alloc: Global, grain: &GrainId) -> Result<Plan, StepRefusal>
        ensures planned { Follows (step_by self.now) step_refusal_number (Sends 1) (cancel self.now grain.now) result }
        ensures fits { IfOk result (λ plan. Fits plan.change self.now) }
    {
        self.settings.in_range();
        let Some(held) = self.host.held(grain) else {
            return Err(StepRefusal::NotHere);
        };
        if !is_asking(&held.phase) {
            return Err(StepRefusal::NotAsking);
        }
        if !self.host.has_numbers(&self.settings, 1) {
            return Err(StepRefusal::NumbersSpent);
        }
        let told = Effect::Cancelled(self.entry_of(grain, held.count));
        match self.closing(alloc, grain, &held, told) {
            Ok(plan) => Ok(plan),
            Err(_) => Err(StepRefusal::OutOfMemory),
        }
    }

    // The grain's activation asks to be taken out, and this is told.
    fn closing(
        &self,
        alloc: Global,
        grain: &GrainId,
        held: &Held,
        told: Effect,
    ) -> Result<Plan, AllocError>
        requires there { held_of self.now.host grain.now ≡ Some held.now }
        ensures planned { IfOk result (λ plan. step_by self.now plan ≡ record (closing self.now grain.now held.now) { effect = told }) }
        ensures change { IfOk result (λ plan. plan.change ≡ Change.Closes grain.now) }
        ensures one { OnErr result (length (closing self.now grain.now held.now).letters ≡ 1) }
    {
        let entry = self.entry_of(grain, held.count);
        let deregister = Act::Deregister { entry };
        Ok(Plan {
            letters: self.request_letters(alloc, self.host.next_number(), deregister)?,
            effect: told,
            change: Change::Closes(*grain),
        })
    }

    // The silo offers an activation to another silo: 802, 803, 807, 805. Needs memory for the one letter that it sends.
    pub(crate) fn plan_offer(
        &self,
        alloc: Global,
        grain: &GrainId,
        to: &SiloAddress,
    ) -> Result<Plan, StepRefusal>
        ensures planned { Follows (step_by self.now) step_refusal_number (Sends 1) (offer self.now grain.now to.now) result }
        ensures fits { IfOk result (λ plan. Fits plan.change self.now) }
    {
        self.settings.in_range();
        let Some(held) = self.host.held(grain) else {
            return Err(StepRefusal::NotHere);
        };
        if !is_firm(&held.phase) {
            return Err(StepRefusal::NotFirm);
        }
        if !self.sees_active(to) || *to == self.host.silo() {
            return Err(StepRefusal::NotATarget);
        }
        if !self.host.has_numbers(&self.settings, 1) {
            return Err(StepRefusal::NumbersSpent);
        }
        match self.offering(alloc, grain, &held, to) {
            Ok(plan) => Ok(plan),
            Err(_) => Err(StepRefusal::OutOfMemory),
        }
    }

    // The Deregister is outstanding, but isn't sent yet.
    fn offering(
        &self,
        alloc: Global,
        grain: &GrainId,
        held: &Held,
        to: &SiloAddress,
    ) -> Result<Plan, AllocError>
        requires there { held_of self.now.host grain.now ≡ Some held.now }
        ensures planned { IfOk result (λ plan. step_by self.now plan ≡ offered self.now grain.now held.now to.now) }
        ensures change { IfOk result (λ plan. plan.change ≡ Change.Closes grain.now) }
    {
        let entry = self.entry_of(grain, held.count);
        let effect = offer_effect(&entry, to);
        let offer = self.letter_to(*to, Body::Offer(entry));
        Plan::of_one(alloc, offer, effect, Change::Closes(*grain))
    }

    // An offer comes: an activation begins in the place of the one offered.
    pub(crate) fn plan_offered(
        &self,
        alloc: Global,
        letter: &Letter,
        entry: &Entry,
    ) -> Result<Plan, AllocError>
        ensures planned { IfOk result (λ plan. step_by self.now plan ≡ offered_to self.now letter.now entry.now) }
        ensures fits { IfOk result (λ plan. Fits plan.change self.now) }
        ensures one { OnErr result (length (offered_to self.now letter.now entry.now).letters ≡ 1) }
    {
        self.settings.in_range();
        if !self.takes_offer(letter, entry) {
            return Ok(Plan::idle(alloc, Effect::Ignored));
        }
        self.starting(alloc, &entry.grain, Some(entry.activation))
    }

    // Whether the node takes an offer: it has seen the offer's version, is Active there, holds none of the grain, and has a
    // place, a number and a count left.
    fn takes_offer(&self, letter: &Letter, entry: &Entry) -> bool
        ensures { result ≡ takes_offer self.now letter.now entry.now }
    {
        letter.version() <= self.view.version()
            && self.sees_active(&self.host.silo())
            && self.host.held(&entry.grain).is_none()
            && !self.host.is_full_of_activations(&self.settings)
            && self.host.has_numbers(&self.settings, 1)
            && self.host.has_count(&self.settings)
    }
}
