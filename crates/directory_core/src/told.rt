ghost use Rattle.std.specs.Prelude.{◌≡◌, IfErr, IsSome};
ghost use Rattle.directory_core.specs.Numbers.{event_refusal_number};
ghost use Rattle.directory_core.specs.ToldModel.{told_as};

use crate::EventRefusal;
use directory_rules::Outcome;
use std::marker::Model;

/// What an event of a run told: its outcome, or why it was refused.
#[derive(Drop)]
pub struct EventResult {
    result: Result<Outcome, EventRefusal>,
}

impl Model for EventResult {
    ghost use Rattle.std.specs.Prelude.{ℕ, Result};
    ghost use Rattle.directory_rules.specs.declared.outcome.Outcome.{Outcome};

    ghost Value = { Result Outcome ℕ };

    ghost use Rattle.directory_core.specs.ToldModel.{told_as};

    ghost view = { λ t. told_as t.result };

    ghost use Rattle.std.specs.Prelude.{IfErr, IsSome};
    ghost use Rattle.directory_core.specs.Numbers.{event_refusal_number};

    ghost invariant = { λ t. IfErr t.result (λ refusal. IsSome (event_refusal_number refusal)) };
}

impl EventResult {
    // That was told.
    pub(crate) fn new(told: Result<Outcome, EventRefusal>) -> EventResult
        requires { IfErr told (λ refusal. IsSome (event_refusal_number refusal)) }
        ensures { result ≡ told_as told }
    {
        EventResult { result: told }
    }

    /// The outcome, or why the event was refused, by a refusal with a number.
    pub fn result(&self) -> &Result<Outcome, EventRefusal>
        ensures told { told_as result.now ≡ self.now }
        ensures numbered { IfErr result.now (λ refusal. IsSome (event_refusal_number refusal)) }
    {
        &self.result
    }
}
