ghost use Rattle.std.specs.Prelude.{◌≡◌, IfOk, OnErr, length};
ghost use Rattle.directory_rules.specs.Input.{Does, own_step, step};
ghost use Rattle.directory_rules.specs.Receive.{received};
ghost use Rattle.node_plans.specs.Placed.{IsPlaced};
ghost use Rattle.node_plans.specs.InputModel.{input_of};
ghost use Rattle.node_plans.specs.Follows.{Follows};
ghost use Rattle.node_plans.specs.Numbers.{step_refusal_number};
ghost use Rattle.node_plans.specs.Plans.{Fits, answer_count, step_by};
ghost use Rattle.directory_node.specs.Memory.{MayLackMemory};

use crate::{Input, Node, Plan, StepRefusal};
use directory_letters::{Body, Letter};
use directory_rules::{Effect, OwnStep};
use node_plans::member_count;
use std::alloc::{AllocError, Global};

impl Node {
    /// The silo's step with an input, as a plan: what it sends and does, and the change that `carry_out` then makes. Refused
    /// as the rule says of each input (`docs/RULES.md#the-world`). A sight asks that the places are known of all who are Active in
    /// the view, or in the one before, and that the node's ring is its view's by these places: it is, where the node saw its view
    /// by them. Out of memory comes only at an input that isn't refused, and but for a sight and a nudge only where as many letters
    /// would be sent as are known before they are made.
    pub fn plan(&self, alloc: Global, input: &Input<'_>) -> Result<Plan, StepRefusal>
        requires placed { IsPlaced self.now (input_of input.now) }
        ensures planned { Follows (step_by self.now) step_refusal_number (MayLackMemory self.now (input_of input.now)) (step self.now (input_of input.now)) result }
        ensures fits { IfOk result (λ plan. Fits plan.change self.now) }
    {
        match input {
            Input::Sees {
                before,
                view,
                places,
            } => self.plan_sight(alloc, before, view, places),
            Input::Does(step) => self.plan_own_step(alloc, step),
            Input::Receives(letter) => match self.plan_letter(alloc, letter) {
                Ok(plan) => Ok(plan),
                Err(_) => Err(StepRefusal::OutOfMemory),
            },
        }
    }

    // What the silo's application asks of it.
    fn plan_own_step(&self, alloc: Global, step: &OwnStep) -> Result<Plan, StepRefusal>
        ensures planned { Follows (step_by self.now) step_refusal_number (MayLackMemory self.now (Does step.now)) (own_step self.now step.now) result }
        ensures fits { IfOk result (λ plan. Fits plan.change self.now) }
    {
        match step {
            OwnStep::Wake(grain) => self.plan_wake(alloc, grain),
            OwnStep::Close(grain) => self.plan_close(alloc, grain),
            OwnStep::Cancel(grain) => self.plan_cancel(alloc, grain),
            OwnStep::Find(grain) => self.plan_find(alloc, grain),
            OwnStep::Forget(grain) => Ok(self.plan_forget(alloc, grain)),
            OwnStep::Nudge => self.plan_nudge(alloc),
            OwnStep::NudgeGrain(grain) => self.plan_nudge_grain(alloc, grain),
            OwnStep::NudgeRanges => self.plan_nudge_ranges(alloc),
            OwnStep::Offer { grain, to } => self.plan_offer(alloc, grain, to),
        }
    }

    /// The silo's step with a letter that comes, which is never refused, as a plan: what `plan` makes of that input
    /// (`docs/RULES.md#the-world`). Out of memory comes only where as many letters would be sent as `answer_count` says.
    pub fn plan_letter(&self, alloc: Global, letter: &Letter) -> Result<Plan, AllocError>
        ensures planned { IfOk result (λ plan. step_by self.now plan ≡ received self.now letter.now) }
        ensures fits { IfOk result (λ plan. Fits plan.change self.now) }
        ensures answers { OnErr result (length (received self.now letter.now).letters ≡ answer_count self.now letter.now letter.now.body) }
    {
        match letter.body() {
            Body::Request(request) => self.plan_request(alloc, letter, request),
            Body::Reply { number, reply } => {
                Ok(self.plan_reply(alloc, letter.version(), *number, reply))
            }
            Body::Ask { range, page } => self.plan_ask(alloc, letter, *range, *page),
            Body::Page(page) => self.plan_page(alloc, letter, page),
            Body::Missing(range) => self.plan_missing(alloc, letter, *range),
            Body::Done(range) => Ok(self.plan_done(alloc, letter, *range)),
            Body::Query { range, after } => self.plan_query(alloc, letter, *range, *after),
            Body::Report(report) => self.plan_report(alloc, letter, report),
            Body::Survey(ranges) => self.plan_survey(alloc, letter, ranges),
            Body::Empty(ranges) => self.plan_empty(alloc, letter, ranges),
            Body::Behind(_) | Body::Ahead(_) => Ok(Plan::idle(alloc, Effect::Noted)),
            Body::Offer(entry) => self.plan_offered(alloc, letter, entry),
        }
    }

    /// How many letters the node sends by this letter, where it may run out of memory: by a report none, or one where its silo is
    /// asked on; by a survey what it tells; by what is empty none; and where a snapshot is missing all silos are asked.
    pub fn answer_count(&self, letter: &Letter) -> usize
        ensures { result ≡ answer_count self.now letter.now letter.now.body }
    {
        match letter.body() {
            Body::Report(report) => self.report_answers(letter, report),
            Body::Survey(ranges) => self.survey_answers(letter, ranges),
            Body::Empty(_) => 0,
            Body::Missing(_) => member_count(&self.view),
            Body::Request(_)
            | Body::Reply { .. }
            | Body::Ask { .. }
            | Body::Page(_)
            | Body::Done(_)
            | Body::Query { .. }
            | Body::Behind(_)
            | Body::Ahead(_)
            | Body::Offer(_) => 1,
        }
    }
}
