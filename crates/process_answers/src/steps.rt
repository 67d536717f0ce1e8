//! Steps of the silo's own, and what is said of them.

#![tactic(auto, using(crate::proofs::Outcomes::outcome_by_outcome))]

ghost use Rattle.std.specs.Prelude.{IfOk};
ghost use Rattle.script_lines.specs.Spaced.{BeginsWith};
ghost use Rattle.process_rules.specs.Answer.{done_so, seen_so};
ghost use Rattle.process_answers.specs.Answering.{IsAnswered};

use crate::lines::{write_happened, write_refused};
use directory_rules::{Happening, OwnStep};
use directory_silo::Silo;
use std::alloc::AllocError;

/// The silo does what its application asks of it. Writes what it did and the letters that it sent, or its refusal; whether the process
/// ends, which it doesn't.
pub(crate) fn answer_step(
    silo: &mut Silo,
    step: &OwnStep,
    out: &mut Vec<u8>,
) -> Result<bool, AllocError>
    ensures answered { IfOk result (IsAnswered (done_so step.now silo.old) out.old.items silo.new out.new.items) }
    ensures kept { BeginsWith out.old.items out.new.items }
{
    let address = silo.address();
    match silo.ask(step) {
        Ok(answer) => {
            let happening = Happening::Did {
                silo: address,
                effect: answer.effect,
            };
            write_happened(out, happening, &answer.letters)?;
            Ok(false)
        }
        Err(refusal) => {
            write_refused(out, refusal)?;
            Ok(false)
        }
    }
}

/// The silo sees a version. Writes that and the letters that it sent, or its refusal; whether the process ends, which it doesn't.
pub(crate) fn answer_see(
    silo: &mut Silo,
    version: u64,
    out: &mut Vec<u8>,
) -> Result<bool, AllocError>
    ensures answered { IfOk result (IsAnswered (seen_so version silo.old) out.old.items silo.new out.new.items) }
    ensures kept { BeginsWith out.old.items out.new.items }
{
    let address = silo.address();
    match silo.see(version) {
        Ok(answer) => {
            let happening = Happening::Saw {
                silo: address,
                version,
                effect: answer.effect,
            };
            write_happened(out, happening, &answer.letters)?;
            Ok(false)
        }
        Err(refusal) => {
            write_refused(out, refusal)?;
            Ok(false)
        }
    }
}
