//! Words of a line on its way: each is written with a space behind it.

#![tactic(auto, using(crate::proofs::WrittenPieces::word_by_word))]

ghost use Rattle.std.specs.Prelude.{◌≡◌, [], ◌∷◌, ◌++◌, OnOk};
ghost use Rattle.std.specs.Fmt.{decimal};
ghost use Rattle.silo_address.specs.ActivationText.{activation_text};
ghost use Rattle.silo_address.specs.Grain.{grain_text};
ghost use Rattle.silo_address.specs.SiloText.{silo_text};
ghost use Rattle.ring_range.specs.Text.{range_text};
ghost use Rattle.script_rules.specs.Lines.{entry_words, span_text};
ghost use Rattle.script_lines.specs.Spaced.{spaced, BeginsWith};

use crate::marked::{
    push_marked, push_marked_activation, push_marked_number, push_marked_silo, push_marked_span,
};
use directory_rules::Span;
use ring_range::RingRange;
use silo_address::{ActivationId, Entry, GrainId, SiloAddress};
use std::alloc::AllocError;

/// A word.
#[tactic(auto, unfolding(crate::specs::Spaced::spaced))]
pub fn push_word(out: &mut Vec<u8>, word: &[u8]) -> Result<(), AllocError>
    ensures written { OnOk result (out.new.items ≡ out.old.items ++ spaced (word.now ∷ [])) }
    ensures kept { BeginsWith out.old.items out.new.items }
{
    push_marked(out, word, b' ')
}

/// A number in decimal.
#[tactic(auto, unfolding(crate::specs::Spaced::spaced))]
pub fn push_number(out: &mut Vec<u8>, number: u64) -> Result<(), AllocError>
    ensures written { OnOk result (out.new.items ≡ out.old.items ++ spaced (decimal number ∷ [])) }
    ensures kept { BeginsWith out.old.items out.new.items }
{
    push_marked_number(out, number, b' ')
}

/// A word, and a number behind it.
pub fn push_named(out: &mut Vec<u8>, name: &[u8], number: u64) -> Result<(), AllocError>
    ensures written { OnOk result (out.new.items ≡ out.old.items ++ spaced (name.now ∷ decimal number ∷ [])) }
    ensures kept { BeginsWith out.old.items out.new.items }
{
    push_word(out, name)?;
    push_number(out, number)?;
    Ok(())
}

/// A silo.
#[tactic(auto, unfolding(crate::specs::Spaced::spaced))]
pub fn push_silo(out: &mut Vec<u8>, silo: &SiloAddress) -> Result<(), AllocError>
    ensures written { OnOk result (out.new.items ≡ out.old.items ++ spaced (silo_text silo.now ∷ [])) }
    ensures kept { BeginsWith out.old.items out.new.items }
{
    push_marked_silo(out, silo, b' ')
}

/// An activation.
#[tactic(auto, unfolding(crate::specs::Spaced::spaced))]
pub fn push_activation(out: &mut Vec<u8>, activation: &ActivationId) -> Result<(), AllocError>
    ensures written { OnOk result (out.new.items ≡ out.old.items ++ spaced (activation_text activation.now ∷ [])) }
    ensures kept { BeginsWith out.old.items out.new.items }
{
    push_marked_activation(out, activation, b' ')
}

/// A grain.
pub fn push_grain(out: &mut Vec<u8>, grain: &GrainId) -> Result<(), AllocError>
    ensures written { OnOk result (out.new.items ≡ out.old.items ++ spaced (grain_text grain.now ∷ [])) }
    ensures kept { BeginsWith out.old.items out.new.items }
{
    push_word(out, grain.as_bytes())
}

/// An activation and its grain.
pub fn push_entry(out: &mut Vec<u8>, entry: &Entry) -> Result<(), AllocError>
    ensures written { OnOk result (out.new.items ≡ out.old.items ++ spaced (entry_words entry.now)) }
    ensures kept { BeginsWith out.old.items out.new.items }
{
    push_activation(out, &entry.activation)?;
    push_grain(out, &entry.grain)?;
    Ok(())
}

/// The first and the last number, two dots between them.
#[tactic(auto, unfolding(crate::specs::Spaced::spaced))]
pub(crate) fn push_span(out: &mut Vec<u8>, span: &Span) -> Result<(), AllocError>
    ensures written { OnOk result (out.new.items ≡ out.old.items ++ spaced (span_text span.now ∷ [])) }
    ensures kept { BeginsWith out.old.items out.new.items }
{
    push_marked_span(out, span, b' ')
}

/// A range: its start, a plus, its size.
#[tactic(auto, using(crate::proofs::WrittenPieces::part_by_part))]
pub fn push_range(out: &mut Vec<u8>, range: &RingRange) -> Result<(), AllocError>
    ensures written { OnOk result (out.new.items ≡ out.old.items ++ spaced (range_text range.now ∷ [])) }
    ensures kept { BeginsWith out.old.items out.new.items }
{
    push_marked_number(out, u64::from(range.start()), b'+')?;
    push_marked_number(out, range.size(), b' ')?;
    Ok(())
}
