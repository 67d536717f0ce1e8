//! Letters that come, and what is said of them.

#![tactic(auto, using(crate::proofs::Outcomes::outcome_by_outcome))]

ghost use Rattle.std.specs.Prelude.{◌≡◌, ◌++◌, IfOk, OnErr, OnOk, true};
ghost use Rattle.silo_address.specs.Silo.{silo_eq};
ghost use Rattle.texts.specs.Words.{sentence};
ghost use Rattle.script_lines.specs.Printed.{printed};
ghost use Rattle.script_lines.specs.Spaced.{BeginsWith};
ghost use Rattle.process_rules.specs.Answer.{received_so};
ghost use Rattle.process_answers.specs.Answering.{IsAnswered};
ghost use Rattle.process_answers.specs.Telling.{received_telling};

use crate::lines::{write_letters, write_refused};
use crate::telling::{Telling, push_received};
use directory_letters::Letter;
use directory_rules::{Effect, LetterKind};
use directory_silo::Silo;
use script_lines::end_line;
use silo_address::SiloAddress;
use std::alloc::AllocError;

/// A letter comes. One to another silo is left alone: nothing is written, and no memory is needed. Of any other, writes what came
/// of it, by what the host had when it came, and the letters that were sent, or the refusal; whether the process ends, which it
/// doesn't.
pub(crate) fn answer_letter(
    silo: &mut Silo,
    letter: &Letter,
    out: &mut Vec<u8>,
) -> Result<bool, AllocError>
    ensures answered { IfOk result (IsAnswered (received_so letter.now silo.old) out.old.items silo.new out.new.items) }
    ensures kept { BeginsWith out.old.items out.new.items }
    ensures memory { OnErr result (silo_eq letter.now.to silo.old.node.host.silo ≡ true) }
{
    let address = silo.address();
    if letter.to() != address {
        return Ok(false);
    }
    let seen = silo.node().view().version();
    let telling = Telling::of_letter(silo.node().host(), seen, letter.body());
    match silo.receive(letter) {
        Ok(answer) => {
            write_received(out, &address, letter.kind(), &telling, &answer.effect)?;
            write_letters(out, &answer.letters)?;
            Ok(false)
        }
        Err(refusal) => {
            write_refused(out, refusal)?;
            Ok(false)
        }
    }
}

// The line of what came of a letter.
fn write_received(
    out: &mut Vec<u8>,
    silo: &SiloAddress,
    kind: LetterKind,
    telling: &Telling,
    effect: &Effect,
) -> Result<(), AllocError>
    ensures written { OnOk result (out.new.items ≡ out.old.items ++ printed (sentence (received_telling telling.now silo.now kind effect.now))) }
    ensures kept { BeginsWith out.old.items out.new.items }
{
    let start = out.len();
    let written = push_received(out, silo, kind, telling, effect);
    end_line(out, start, written)
}
