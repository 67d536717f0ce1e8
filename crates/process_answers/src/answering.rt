ghost use Rattle.std.specs.Prelude.{◌≡◌, ◌≢◌, ◌++◌, [], IfOk, OnErr, OnOk};
ghost use Rattle.texts.specs.Printed.{text_of_lines};
ghost use Rattle.script_lines.specs.Spaced.{BeginsWith};
ghost use Rattle.process_lines.specs.AskedModel.{asked_of};
ghost use Rattle.process_rules.specs.Answer.{answered, answered_as};
ghost use Rattle.process_answers.specs.Answering.{IsAnswered};

use crate::JoinToken;
use crate::begins::answer_begin;
use crate::changes::{Change, answer_change};
use crate::dump::write_dump;
use crate::figures::write_figures;
use crate::joins::is_anothers_join;
use crate::letters::answer_letter;
use crate::lines::write_pong;
use crate::questions::{write_grain_owner, write_grain_place};
use crate::show::write_show;
use crate::steps::{answer_see, answer_step};
use directory_silo::Silo;
use process_lines::Asked;
use script_lines::write_refusal;
use std::alloc::{AllocError, Global};

/// The number that refuses the join of another process.
const ANOTHERS_JOIN: u16 = 208;

/// Answers what a line of a silo's process asks for: the silo is told, asked or shown, and what came of it is written behind what
/// is written already; whether the process ends, since the silo is Dead. A process that was started with a token refuses any other
/// process's join by 208. Fails only when memory runs out, and only where something is written; then nothing is written, and the
/// silo may have changed (`docs/RULES.md#lines-of-a-silos-process`).
#[tactic(auto, using(script_lines::proofs::Fronts::front_taken))]
pub fn answer(
    alloc: Global,
    token: &Option<JoinToken>,
    silo: &mut Silo,
    asked: Asked<'_>,
    out: &mut Vec<u8>,
) -> Result<bool, AllocError>
    ensures silo { OnOk result (silo.new ≡ (answered_as token.now (asked_of asked.entry) silo.old).silo) }
    ensures lines { OnOk result (out.new.items ≡ out.old.items ++ text_of_lines (answered_as token.now (asked_of asked.entry) silo.old).lines) }
    ensures ends { IfOk result (λ ends. ends ≡ (answered_as token.now (asked_of asked.entry) silo.old).ends) }
    ensures unwritten { OnErr result (out.new.items ≡ out.old.items) }
    ensures memory { OnErr result ((answered_as token.now (asked_of asked.entry) silo.old).lines ≢ []) }
{
    let start = out.len();
    match answer_as(alloc, token, silo, &asked, out) {
        Ok(ends) => Ok(ends),
        Err(error) => {
            out.truncate(start);
            Err(error)
        }
    }
}

// Another process's join is refused, and all else answered.
#[tactic(auto, using(crate::proofs::Written::line_by_line), unfolding(process_rules::specs::Answer::answered_as))]
fn answer_as(
    alloc: Global,
    token: &Option<JoinToken>,
    silo: &mut Silo,
    asked: &Asked<'_>,
    out: &mut Vec<u8>,
) -> Result<bool, AllocError>
    ensures answered { IfOk result (IsAnswered (answered_as token.now (asked_of asked.now) silo.old) out.old.items silo.new out.new.items) }
    ensures kept { BeginsWith out.old.items out.new.items }
    ensures memory { OnErr result ((answered_as token.now (asked_of asked.now) silo.old).lines ≢ []) }
{
    if is_anothers_join(token, asked, &silo.address()) {
        write_refusal(out, ANOTHERS_JOIN)?;
        return Ok(false);
    }
    answer_asked(alloc, silo, asked, out)
}

// One function a kind of line.
#[tactic(auto, unfolding(process_rules::specs::Answer::answered))]
fn answer_asked(
    alloc: Global,
    silo: &mut Silo,
    asked: &Asked<'_>,
    out: &mut Vec<u8>,
) -> Result<bool, AllocError>
    ensures answered { IfOk result (IsAnswered (answered (asked_of asked.now) silo.old) out.old.items silo.new out.new.items) }
    ensures kept { BeginsWith out.old.items out.new.items }
    ensures memory { OnErr result ((answered (asked_of asked.now) silo.old).lines ≢ []) }
{
    match asked {
        Asked::Joined {
            version,
            silo: joined,
            places,
            ..
        } => {
            let change = Change::Join {
                silo: joined,
                places: places.as_slice(),
            };
            answer_change(silo, *version, &change, out)
        }
        Asked::Leaving {
            version,
            silo: leaving,
        } => answer_change(silo, *version, &Change::Leave(leaving), out),
        Asked::Dead {
            version,
            silo: dead,
        } => answer_change(silo, *version, &Change::Die(dead), out),
        Asked::Begin { version, rows } => answer_begin(silo, *version, rows.as_slice(), out),
        Asked::See { version } => answer_see(silo, *version, out),
        Asked::Do(step) => answer_step(silo, step, out),
        Asked::Receive(letter) => answer_letter(silo, letter, out),
        Asked::Ping(word) => {
            write_pong(out, word)?;
            Ok(false)
        }
        Asked::Owner { grain } => {
            write_grain_owner(silo, grain, out)?;
            Ok(false)
        }
        Asked::Place { grain, policy } => {
            write_grain_place(alloc, silo, *policy, grain, out)?;
            Ok(false)
        }
        Asked::Figures => {
            write_figures(silo, out)?;
            Ok(false)
        }
        Asked::Show => {
            write_show(alloc, silo, out)?;
            Ok(false)
        }
        Asked::Dump => {
            write_dump(alloc, silo, out)?;
            Ok(false)
        }
    }
}
