//! The lines of `mail`, `owner` and `place`.

#![tactic(auto, using(crate::proofs::WrittenPieces::word_by_word))]

ghost use Rattle.std.specs.Prelude.{◌≡◌, [], ◌∷◌, ◌++◌, OnOk, OnErr, codes};
ghost use Rattle.std.specs.Fmt.{decimal};
ghost use Rattle.silo_address.specs.Grain.{grain_text};
ghost use Rattle.silo_address.specs.SiloText.{silo_text};
ghost use Rattle.script_rules.specs.Lines.{kind_word};
ghost use Rattle.script_rules.specs.Show.{owner_words, place_words};
ghost use Rattle.script_lines.specs.Printed.{printed};
ghost use Rattle.script_lines.specs.Shown.{line_of_letter, line_of_owner, line_of_place};
ghost use Rattle.script_lines.specs.Spaced.{spaced, BeginsWith};

use crate::line::end_line;
use crate::tables::kind_word;
use crate::written_words::{push_grain, push_named, push_number, push_silo, push_word};
use directory_rules::LetterKind;
use hash_ring::Point;
use silo_address::{GrainId, SiloAddress};
use std::alloc::AllocError;

/// Writes the line of a letter in the mail: its number, its kind, the silo that sent it, the one to which it goes, and its
/// version. Fails only when memory runs out.
pub fn write_letter(
    out: &mut Vec<u8>,
    number: u64,
    kind: LetterKind,
    from: &SiloAddress,
    to: &SiloAddress,
    version: u64,
) -> Result<(), AllocError>
    ensures written { OnOk result (out.new.items ≡ out.old.items ++ printed (line_of_letter number kind from.now to.now version)) }
    ensures unchanged { OnErr result (out.new.items ≡ out.old.items) }
{
    let start = out.len();
    let written = push_letter(out, number, kind, from, to, version);
    end_line(out, start, written)
}

fn push_letter(
    out: &mut Vec<u8>,
    number: u64,
    kind: LetterKind,
    from: &SiloAddress,
    to: &SiloAddress,
    version: u64,
) -> Result<(), AllocError>
    ensures written { OnOk result (out.new.items ≡ out.old.items ++ spaced (decimal number ∷ kind_word kind ∷ silo_text from.now ∷ silo_text to.now ∷ decimal version ∷ [])) }
    ensures kept { BeginsWith out.old.items out.new.items }
{
    push_number(out, number)?;
    push_word(out, kind_word(kind))?;
    push_silo(out, from)?;
    push_silo(out, to)?;
    push_number(out, version)?;
    Ok(())
}

/// Writes the line that tells the owner of a hash: its silo and the index of its point, or that there is none. Fails only when
/// memory runs out.
pub fn write_owner(out: &mut Vec<u8>, hash: u32, owner: Option<Point>) -> Result<(), AllocError>
    ensures written { OnOk result (out.new.items ≡ out.old.items ++ printed (line_of_owner hash owner)) }
    ensures unchanged { OnErr result (out.new.items ≡ out.old.items) }
{
    let start = out.len();
    let written = push_owner_words(out, hash, owner);
    end_line(out, start, written)
}

fn push_owner_words(out: &mut Vec<u8>, hash: u32, owner: Option<Point>) -> Result<(), AllocError>
    ensures written { OnOk result (out.new.items ≡ out.old.items ++ spaced (codes "owner" ∷ decimal hash ∷ owner_words owner)) }
    ensures kept { BeginsWith out.old.items out.new.items }
{
    push_named(out, b"owner", u64::from(hash))?;
    push_point(out, owner)?;
    Ok(())
}

fn push_point(out: &mut Vec<u8>, owner: Option<Point>) -> Result<(), AllocError>
    ensures written { OnOk result (out.new.items ≡ out.old.items ++ spaced (owner_words owner)) }
    ensures kept { BeginsWith out.old.items out.new.items }
{
    let Some(point) = owner else {
        return push_word(out, b"none");
    };
    push_silo(out, &point.silo)?;
    push_number(out, point.index as u64)?;
    Ok(())
}

/// Writes the line that tells on which silo a new activation of the grain would begin, or that no silo was chosen. Fails only
/// when memory runs out.
pub fn write_place(
    out: &mut Vec<u8>,
    grain: &GrainId,
    chosen: Option<SiloAddress>,
) -> Result<(), AllocError>
    ensures written { OnOk result (out.new.items ≡ out.old.items ++ printed (line_of_place grain.now chosen)) }
    ensures unchanged { OnErr result (out.new.items ≡ out.old.items) }
{
    let start = out.len();
    let written = push_place(out, grain, chosen);
    end_line(out, start, written)
}

fn push_place(
    out: &mut Vec<u8>,
    grain: &GrainId,
    chosen: Option<SiloAddress>,
) -> Result<(), AllocError>
    ensures written { OnOk result (out.new.items ≡ out.old.items ++ spaced (codes "place" ∷ grain_text grain.now ∷ place_words chosen)) }
    ensures kept { BeginsWith out.old.items out.new.items }
{
    push_word(out, b"place")?;
    push_grain(out, grain)?;
    push_chosen(out, chosen)?;
    Ok(())
}

/// The silo that was chosen, if there is one.
fn push_chosen(out: &mut Vec<u8>, chosen: Option<SiloAddress>) -> Result<(), AllocError>
    ensures written { OnOk result (out.new.items ≡ out.old.items ++ spaced (place_words chosen)) }
    ensures kept { BeginsWith out.old.items out.new.items }
{
    match chosen {
        Some(silo) => push_silo(out, &silo),
        None => push_word(out, b"none"),
    }
}
