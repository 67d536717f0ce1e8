//! A view with which the silo's history begins, and what is said of it.

#![tactic(auto, using(crate::proofs::Outcomes::outcome_by_outcome))]

ghost use Rattle.std.specs.Prelude.{◌≡◌, ◌++◌, IfOk, OnOk, [], ◌∷◌, codes};
ghost use Rattle.std.specs.Fmt.{decimal};
ghost use Rattle.texts.specs.Words.{sentence};
ghost use Rattle.directory_rules.specs.ListedModel.{all_listed_of};
ghost use Rattle.script_lines.specs.Printed.{printed};
ghost use Rattle.script_lines.specs.Spaced.{spaced, BeginsWith};
ghost use Rattle.process_rules.specs.Answer.{begun_so};
ghost use Rattle.process_answers.specs.Answering.{IsAnswered};

use crate::lines::write_refused;
use directory_rules::Listed;
use directory_silo::Silo;
use script_lines::{end_line, push_named, push_word};
use std::alloc::AllocError;

/// The silo is told the view of a version, in place of all changes up to it. Writes that it begins with that, or its refusal. The process
/// goes on in any case.
pub(crate) fn answer_begin(
    silo: &mut Silo,
    version: u64,
    rows: &[Listed],
    out: &mut Vec<u8>,
) -> Result<bool, AllocError>
    ensures answered { IfOk result (IsAnswered (begun_so version (all_listed_of rows.now) silo.old) out.old.items silo.new out.new.items) }
    ensures kept { BeginsWith out.old.items out.new.items }
{
    match silo.begins(version, rows) {
        Ok(()) => {
            write_begun(out, version)?;
            Ok(false)
        }
        Err(refusal) => {
            write_refused(out, refusal)?;
            Ok(false)
        }
    }
}

// The line of a view that was told.
fn write_begun(out: &mut Vec<u8>, version: u64) -> Result<(), AllocError>
    ensures written { OnOk result (out.new.items ≡ out.old.items ++ printed (sentence (codes "view" ∷ decimal version ∷ codes "begins" ∷ []))) }
    ensures kept { BeginsWith out.old.items out.new.items }
{
    let start = out.len();
    let written = push_begun(out, version);
    end_line(out, start, written)
}

#[tactic(auto, using(script_lines::proofs::WrittenPieces::word_by_word))]
fn push_begun(out: &mut Vec<u8>, version: u64) -> Result<(), AllocError>
    ensures written { OnOk result (out.new.items ≡ out.old.items ++ spaced (codes "view" ∷ decimal version ∷ codes "begins" ∷ [])) }
    ensures kept { BeginsWith out.old.items out.new.items }
{
    push_named(out, b"view", version)?;
    push_word(out, b"begins")?;
    Ok(())
}
