//! Nudges as plans: all that is outstanding is sent again, or a part of it.
ghost use Rattle.std.specs.Prelude.{◌≡◌, ◌++◌, IfOk, IsOk, OnErr, OnOk, Ok, flat_map, length, true};
ghost use Rattle.directory_rules.specs.Host.{has_numbers, outstanding, renewed, renewed_about, requests_about};
ghost use Rattle.directory_rules.specs.Sent.{all_wants, request_letters};
ghost use Rattle.directory_rules.specs.Step.{having_nudged, having_nudged_grain, nudge, nudge_grain, nudge_ranges};
ghost use Rattle.host_activations.specs.Renewal.{renewal_of};
ghost use Rattle.node_plans.specs.Follows.{Follows};
ghost use Rattle.node_plans.specs.Numbers.{step_refusal_number};
ghost use Rattle.node_plans.specs.Plans.{Fits, step_by};

use crate::{Change, Node, Plan, StepRefusal};
use directory_letters::Letter;
use directory_rules::{Act, Effect};
use host_activations::Renewal;
use silo_address::GrainId;
use std::alloc::{AllocError, Global};

// All of it.
impl Node {
    // All that is outstanding is sent again under new numbers: 805.
    pub(crate) fn plan_nudge(&self, alloc: Global) -> Result<Plan, StepRefusal>
        ensures planned { Follows (step_by self.now) step_refusal_number IsOk (nudge self.now) result }
        ensures fits { IfOk result (λ plan. Fits plan.change self.now) }
    {
        if !self.can_renew() {
            return Err(StepRefusal::NumbersSpent);
        }
        match self.plan_again(alloc) {
            Ok(plan) => Ok(plan),
            Err(_) => Err(StepRefusal::OutOfMemory),
        }
    }

    // The outstanding requests under new numbers, and then what the pieces want.
    fn plan_again(&self, alloc: Global) -> Result<Plan, AllocError>
        requires numbers { has_numbers self.now.settings self.now.host (length (outstanding self.now.host)) ≡ true }
        ensures planned { IfOk result (λ plan. step_by self.now plan ≡ having_nudged (record self.now { host = renewed self.now.host })) }
        ensures fits { IfOk result (λ plan. Fits plan.change self.now) }
    {
        let renewal = self.renewal(alloc)?;
        let letters = self.letters_again(alloc, &renewal)?;
        Ok(Plan {
            letters,
            effect: Effect::Nudged,
            change: Change::Renews(renewal),
        })
    }

    // The outstanding requests under their new numbers, and then what the pieces want.
    fn letters_again(&self, alloc: Global, renewal: &Renewal) -> Result<Vec<Letter>, AllocError>
        requires { renewal.now ≡ renewal_of self.now.host }
        ensures { IfOk result (λ letters. letters.items ≡ flat_map (λ e. request_letters self.now e.0 e.1) (outstanding (renewed self.now.host)) ++ all_wants self.now) }
    {
        let requests = self.renewed_requests(alloc, renewal)?;
        self.sender().nudge_letters(alloc, &requests, &self.holding)
    }
}

// Requests about one grain.
impl Node {
    // What is outstanding about the grain is sent again under new numbers: 805.
    pub(crate) fn plan_nudge_grain(
        &self,
        alloc: Global,
        grain: &GrainId,
    ) -> Result<Plan, StepRefusal>
        ensures planned { Follows (step_by self.now) step_refusal_number IsOk (nudge_grain self.now grain.now) result }
        ensures fits { IfOk result (λ plan. Fits plan.change self.now) }
    {
        if !self.can_renew_about(grain) {
            return Err(StepRefusal::NumbersSpent);
        }
        match self.plan_about(alloc, grain) {
            Ok(plan) => Ok(plan),
            Err(_) => Err(StepRefusal::OutOfMemory),
        }
    }

    // Whether every outstanding request about the grain may get a new number.
    fn can_renew_about(&self, grain: &GrainId) -> bool
        ensures { result ≡ has_numbers self.now.settings self.now.host (length (requests_about grain.now self.now.host)) }
    {
        let count = self.host.count_about(grain);
        self.host.has_numbers(&self.settings, count as u64)
    }

    // The outstanding requests about the grain, under new numbers.
    fn plan_about(&self, alloc: Global, grain: &GrainId) -> Result<Plan, AllocError>
        requires numbers { has_numbers self.now.settings self.now.host (length (requests_about grain.now self.now.host)) ≡ true }
        ensures planned { IfOk result (λ plan. step_by self.now plan ≡ having_nudged_grain (record self.now { host = renewed_about grain.now self.now.host }) grain.now) }
        ensures fits { IfOk result (λ plan. Fits plan.change self.now) }
    {
        let letters = self.letters_about(alloc, grain)?;
        Ok(Plan {
            letters,
            effect: Effect::Nudged,
            change: Change::RenewsAbout(*grain),
        })
    }

    // Their letters.
    fn letters_about(&self, alloc: Global, grain: &GrainId) -> Result<Vec<Letter>, AllocError>
        requires { has_numbers self.now.settings self.now.host (length (requests_about grain.now self.now.host)) ≡ true }
        ensures { IfOk result (λ letters. letters.items ≡ flat_map (λ e. request_letters self.now e.0 e.1) (requests_about grain.now (renewed_about grain.now self.now.host))) }
    {
        let requests = self.requests_about(alloc, grain)?;
        self.sender().letters_of(alloc, &requests)
    }

    // They under their new numbers.
    fn requests_about(&self, alloc: Global, grain: &GrainId) -> Result<Vec<(u64, Act)>, AllocError>
        requires { has_numbers self.now.settings self.now.host (length (requests_about grain.now self.now.host)) ≡ true }
        ensures { IfOk result (λ requests. requests.items ≡ requests_about grain.now (renewed_about grain.now self.now.host)) }
    {
        self.settings.in_range();
        self.host.renewed_requests_about(alloc, grain)
    }

    // Each has its new number from now on. Fails only when memory runs out, and then changes nothing.
    pub(crate) fn renew_about(&mut self, grain: &GrainId) -> Result<(), AllocError>
        requires numbers { has_numbers self.old.settings self.old.host (length (requests_about grain.now self.old.host)) ≡ true }
        ensures renewed { OnOk result (self.new ≡ record self.old { host = renewed_about grain.now self.old.host }) }
        ensures unchanged { OnErr result (self.new ≡ self.old) }
    {
        self.settings.in_range();
        self.host.renew_about(self.alloc, grain)
    }
}

// What the pieces want.
impl Node {
    // What the unsettled pieces want is sent again, and no request.
    pub(crate) fn plan_nudge_ranges(&self, alloc: Global) -> Result<Plan, StepRefusal>
        ensures planned { Follows (step_by self.now) step_refusal_number IsOk (Ok (nudge_ranges self.now)) result }
        ensures fits { IfOk result (λ plan. Fits plan.change self.now) }
    {
        match self.wants(alloc) {
            Ok(letters) => Ok(Plan {
                letters,
                effect: Effect::Nudged,
                change: Change::Nothing,
            }),
            Err(_) => Err(StepRefusal::OutOfMemory),
        }
    }

    // What the pieces want, as letters.
    fn wants(&self, alloc: Global) -> Result<Vec<Letter>, AllocError>
        ensures { IfOk result (λ letters. letters.items ≡ all_wants self.now) }
    {
        self.sender().want_letters(alloc, &self.holding)
    }
}
