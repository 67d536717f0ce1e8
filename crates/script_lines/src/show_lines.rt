//! The lines of `show`.

#![tactic(auto, using(crate::proofs::WrittenPieces::word_by_word))]

ghost use Rattle.std.specs.Prelude.{◌≡◌, [], ◌∷◌, ◌++◌, OnOk, OnErr, codes};
ghost use Rattle.silo_address.specs.SiloText.{silo_text};
ghost use Rattle.silo_address.specs.Grain.{grain_text};
ghost use Rattle.silo_address.specs.ActivationText.{activation_text};
ghost use Rattle.ring_range.specs.Text.{range_text};
ghost use Rattle.script_rules.specs.Show.{held_line, phase_word, status_word};
ghost use Rattle.script_lines.specs.Printed.{printed};
ghost use Rattle.script_lines.specs.Shown.{line_of_range, line_of_silo, line_of_version, words_of_figures, words_of_state};
ghost use Rattle.script_lines.specs.Spaced.{spaced, BeginsWith};

use crate::line::end_line;
use crate::tables::{phase_word, status_word};
use crate::written_words::{
    push_activation, push_grain, push_named, push_range, push_silo, push_word,
};
use directory_rules::Held;
use membership_view::Status;
use ring_range::RingRange;
use silo_address::{ActivationId, GrainId, SiloAddress};
use std::alloc::AllocError;

/// Writes `show`'s first line: the current version. Fails only when memory runs out.
pub fn write_version(out: &mut Vec<u8>, version: u64) -> Result<(), AllocError>
    ensures written { OnOk result (out.new.items ≡ out.old.items ++ printed (line_of_version version)) }
    ensures unchanged { OnErr result (out.new.items ≡ out.old.items) }
{
    let start = out.len();
    let written = push_named(out, b"version", version);
    end_line(out, start, written)
}

/// Writes a silo's line: its status, and where it isn't Dead the version that it has seen and the number of activations that
/// it holds. Fails only when memory runs out.
pub fn write_silo(
    out: &mut Vec<u8>,
    silo: &SiloAddress,
    status: Status,
    figures: Option<(u64, usize)>,
) -> Result<(), AllocError>
    ensures written { OnOk result (out.new.items ≡ out.old.items ++ printed (line_of_silo silo.now status figures)) }
    ensures unchanged { OnErr result (out.new.items ≡ out.old.items) }
{
    let start = out.len();
    let written = push_silo_words(out, silo, status, figures);
    end_line(out, start, written)
}

fn push_silo_words(
    out: &mut Vec<u8>,
    silo: &SiloAddress,
    status: Status,
    figures: Option<(u64, usize)>,
) -> Result<(), AllocError>
    ensures written { OnOk result (out.new.items ≡ out.old.items ++ spaced (codes "silo" ∷ silo_text silo.now ∷ status_word status ∷ words_of_figures figures)) }
    ensures kept { BeginsWith out.old.items out.new.items }
{
    push_word(out, b"silo")?;
    push_silo(out, silo)?;
    push_word(out, status_word(status))?;
    push_figures(out, figures)?;
    Ok(())
}

fn push_figures(out: &mut Vec<u8>, figures: Option<(u64, usize)>) -> Result<(), AllocError>
    ensures written { OnOk result (out.new.items ≡ out.old.items ++ spaced (words_of_figures figures)) }
    ensures kept { BeginsWith out.old.items out.new.items }
{
    let Some((seen, held)) = figures else {
        return Ok(());
    };
    push_named(out, b"seen", seen)?;
    push_named(out, b"held", held as u64)?;
    Ok(())
}

/// Writes the line of an activation that the silo holds for the grain. Fails only when memory runs out.
pub fn write_held(
    out: &mut Vec<u8>,
    silo: &SiloAddress,
    grain: &GrainId,
    held: &Held,
) -> Result<(), AllocError>
    ensures written { OnOk result (out.new.items ≡ out.old.items ++ printed (held_line silo.now grain.now held.now)) }
    ensures unchanged { OnErr result (out.new.items ≡ out.old.items) }
{
    let start = out.len();
    let written = push_held(out, silo, grain, held);
    end_line(out, start, written)
}

fn push_held(
    out: &mut Vec<u8>,
    silo: &SiloAddress,
    grain: &GrainId,
    held: &Held,
) -> Result<(), AllocError>
    ensures written { OnOk result (out.new.items ≡ out.old.items ++ spaced
        (codes "held" ∷ activation_text (record { silo = silo.now; count = held.now.count }) ∷ grain_text grain.now ∷ phase_word held.now.phase ∷ [])) }
    ensures kept { BeginsWith out.old.items out.new.items }
{
    let activation = ActivationId {
        silo: *silo,
        count: held.count,
    };
    push_word(out, b"held")?;
    push_activation(out, &activation)?;
    push_grain(out, grain)?;
    push_word(out, phase_word(held.phase))?;
    Ok(())
}

/// Writes the line of a range of the current ring and of the silo that owns it: how many entries it has, where it is settled
/// there, and `None` where it isn't. Fails only when memory runs out.
pub fn write_range(
    out: &mut Vec<u8>,
    range: &RingRange,
    owner: &SiloAddress,
    entries: Option<usize>,
) -> Result<(), AllocError>
    ensures written { OnOk result (out.new.items ≡ out.old.items ++ printed (line_of_range range.now owner.now entries)) }
    ensures unchanged { OnErr result (out.new.items ≡ out.old.items) }
{
    let start = out.len();
    let written = push_range_words(out, range, owner, entries);
    end_line(out, start, written)
}

fn push_range_words(
    out: &mut Vec<u8>,
    range: &RingRange,
    owner: &SiloAddress,
    entries: Option<usize>,
) -> Result<(), AllocError>
    ensures written { OnOk result (out.new.items ≡ out.old.items ++ spaced (codes "range" ∷ range_text range.now ∷ silo_text owner.now ∷ words_of_state entries)) }
    ensures kept { BeginsWith out.old.items out.new.items }
{
    push_word(out, b"range")?;
    push_range(out, range)?;
    push_silo(out, owner)?;
    push_state(out, entries)?;
    Ok(())
}

fn push_state(out: &mut Vec<u8>, entries: Option<usize>) -> Result<(), AllocError>
    ensures written { OnOk result (out.new.items ≡ out.old.items ++ spaced (words_of_state entries)) }
    ensures kept { BeginsWith out.old.items out.new.items }
{
    let Some(entries) = entries else {
        return push_word(out, b"unsettled");
    };
    push_word(out, b"settled")?;
    push_named(out, b"entries", entries as u64)?;
    Ok(())
}

/// Writes the line of a ring with no point. Fails only when memory runs out.
pub fn write_no_owner(out: &mut Vec<u8>) -> Result<(), AllocError>
    ensures written { OnOk result (out.new.items ≡ out.old.items ++ printed (codes "no owner")) }
    ensures unchanged { OnErr result (out.new.items ≡ out.old.items) }
{
    out.extend_from_slice(b"no owner\n")
}
