//! What the silo answers about a grain: its owner, and where an activation of it would begin.

#![tactic(auto, using(crate::proofs::Written::line_by_line))]

ghost use Rattle.std.specs.Prelude.{◌≡◌, ◌++◌, [], ◌∷◌, OnOk, codes};
ghost use Rattle.silo_address.specs.Grain.{grain_text};
ghost use Rattle.texts.specs.Printed.{text_of_lines};
ghost use Rattle.script_rules.specs.Show.{owner_words};
ghost use Rattle.script_lines.specs.Spaced.{spaced, BeginsWith};
ghost use Rattle.process_rules.specs.Show.{grain_owner_line, grain_place_line};

use directory_rules::Policy;
use directory_silo::Silo;
use hash_ring::Point;
use script_lines::{end_line, push_grain, push_number, push_silo, push_word, write_place};
use silo_address::GrainId;
use std::alloc::{AllocError, Global};
use std::collections::BTreeMap;

/// Writes the line that tells the point that owns the grain's hash, by the view that the silo has seen.
#[tactic(auto, using(crate::proofs::Written::line_by_line), unfolding(process_rules::specs::Show::grain_owner_line))]
pub(crate) fn write_grain_owner(
    silo: &Silo,
    grain: &GrainId,
    out: &mut Vec<u8>,
) -> Result<(), AllocError>
    ensures written { OnOk result (out.new.items ≡ out.old.items ++ text_of_lines (grain_owner_line silo.now grain.now ∷ [])) }
    ensures kept { BeginsWith out.old.items out.new.items }
{
    let start = out.len();
    let written = push_grain_owner(out, grain, silo.owner(grain));
    end_line(out, start, written)
}

#[tactic(auto, using(script_lines::proofs::WrittenPieces::word_by_word))]
fn push_grain_owner(
    out: &mut Vec<u8>,
    grain: &GrainId,
    owner: Option<Point>,
) -> Result<(), AllocError>
    ensures written { OnOk result (out.new.items ≡ out.old.items ++ spaced (codes "owner" ∷ grain_text grain.now ∷ owner_words owner)) }
    ensures kept { BeginsWith out.old.items out.new.items }
{
    push_word(out, b"owner")?;
    push_grain(out, grain)?;
    push_owner(out, owner)?;
    Ok(())
}

// The silo that owns the hash, and the index of its point; or that there is none.
#[tactic(auto, using(script_lines::proofs::WrittenPieces::word_by_word))]
fn push_owner(out: &mut Vec<u8>, owner: Option<Point>) -> Result<(), AllocError>
    ensures written { OnOk result (out.new.items ≡ out.old.items ++ spaced (owner_words owner)) }
    ensures kept { BeginsWith out.old.items out.new.items }
{
    let Some(point) = owner else {
        return push_word(out, b"none");
    };
    push_silo(out, &point.silo)?;
    push_number(out, point.index as u64)?;
    Ok(())
}

/// Writes the line that tells on which silo this one would begin an activation of the grain, by the view that it has seen. It knows of
/// no silo how many activations that holds.
#[tactic(auto, using(crate::proofs::Written::line_by_line), unfolding(process_rules::specs::Show::grain_place_line))]
pub(crate) fn write_grain_place(
    alloc: Global,
    silo: &Silo,
    policy: Policy,
    grain: &GrainId,
    out: &mut Vec<u8>,
) -> Result<(), AllocError>
    ensures written { OnOk result (out.new.items ≡ out.old.items ++ text_of_lines (grain_place_line silo.now grain.now policy ∷ [])) }
    ensures kept { BeginsWith out.old.items out.new.items }
{
    let counts = BTreeMap::new(alloc);
    let chosen = silo.place(policy, grain, &counts);
    write_place(out, grain, chosen)
}
