//! What `status` prints of the silo.

#![tactic(auto, using(script_lines::proofs::WrittenPieces::word_by_word))]

ghost use Rattle.std.specs.Prelude.{◌≡◌, ◌++◌, [], ◌∷◌, OnOk, codes};
ghost use Rattle.std.specs.Fmt.{decimal};
ghost use Rattle.texts.specs.Printed.{text_of_lines};
ghost use Rattle.script_lines.specs.Spaced.{spaced, BeginsWith};
ghost use Rattle.process_rules.specs.Show.{figures_line, figures_words};

use directory_silo::Silo;
use script_lines::{end_line, push_named};
use silo_rules::Figures;
use std::alloc::AllocError;

/// Writes the silo's figures, as a line.
#[tactic(auto, using(crate::proofs::Written::line_by_line), unfolding(process_rules::specs::Show::figures_line))]
pub(crate) fn write_figures(silo: &Silo, out: &mut Vec<u8>) -> Result<(), AllocError>
    ensures written { OnOk result (out.new.items ≡ out.old.items ++ text_of_lines (figures_line silo.now ∷ [])) }
    ensures kept { BeginsWith out.old.items out.new.items }
{
    let start = out.len();
    let figures = silo.figures();
    let written = push_figures(out, &figures);
    end_line(out, start, written)
}

fn push_figures(out: &mut Vec<u8>, figures: &Figures) -> Result<(), AllocError>
    ensures written { OnOk result (out.new.items ≡ out.old.items ++ spaced (codes "status" ∷ figures_words figures.now)) }
    ensures kept { BeginsWith out.old.items out.new.items }
{
    push_versions(out, figures)?;
    push_activations(out, figures)?;
    push_waiting(out, figures)?;
    Ok(())
}

// How far the silo is.
fn push_versions(out: &mut Vec<u8>, figures: &Figures) -> Result<(), AllocError>
    ensures written { OnOk result (out.new.items ≡ out.old.items ++ spaced (codes "status" ∷ decimal figures.now.seen ∷ codes "known" ∷ decimal figures.now.known ∷ [])) }
    ensures kept { BeginsWith out.old.items out.new.items }
{
    push_named(out, b"status", figures.seen)?;
    push_named(out, b"known", figures.known)?;
    Ok(())
}

// What it holds.
fn push_activations(out: &mut Vec<u8>, figures: &Figures) -> Result<(), AllocError>
    ensures written { OnOk result (out.new.items ≡ out.old.items ++ spaced (codes "held" ∷ decimal figures.now.held ∷ codes "asking" ∷ decimal figures.now.asking ∷ codes "closing" ∷ decimal figures.now.closing ∷ [])) }
    ensures kept { BeginsWith out.old.items out.new.items }
{
    push_named(out, b"held", figures.held)?;
    push_named(out, b"asking", figures.asking)?;
    push_named(out, b"closing", figures.closing)?;
    Ok(())
}

// What else waits.
fn push_waiting(out: &mut Vec<u8>, figures: &Figures) -> Result<(), AllocError>
    ensures written { OnOk result (out.new.items ≡ out.old.items ++ spaced (codes "finding" ∷ decimal figures.now.finding ∷ codes "unsettled" ∷ decimal figures.now.unsettled ∷ codes "kept" ∷ decimal figures.now.kept ∷ [])) }
    ensures kept { BeginsWith out.old.items out.new.items }
{
    push_named(out, b"finding", figures.finding)?;
    push_named(out, b"unsettled", figures.unsettled)?;
    push_named(out, b"kept", figures.kept)?;
    Ok(())
}
