//! The lines of events, refusals and faults.

#![tactic(auto, using(crate::proofs::WrittenPieces::word_by_word))]

ghost use Rattle.std.specs.Prelude.{◌≡◌, [], ◌∷◌, ◌++◌, OnOk, OnErr, codes};
ghost use Rattle.std.specs.Fmt.{decimal};
ghost use Rattle.silo_address.specs.SiloText.{silo_text};
ghost use Rattle.script_rules.specs.Lines.{effect_words, entry_words, fault_line, happening_words, outcome_line, refusal_line, replaced_words, sent_words, subject_words};
ghost use Rattle.script_lines.specs.Printed.{printed};
ghost use Rattle.script_lines.specs.Spaced.{spaced, BeginsWith};

use crate::line::end_line;
use crate::tables::{effect_word, kind_word};
use crate::written_words::{
    push_entry, push_grain, push_named, push_number, push_silo, push_span, push_word,
};
use directory_rules::{Effect, Happening, Outcome};
use silo_address::{Entry, SiloAddress};
use std::alloc::AllocError;

/// Writes the line of an accepted event (`docs/RULES.md#what-a-script-prints`). Fails only when memory runs out.
#[tactic(auto, using(crate::proofs::SomeWords::happening_has_words), unfolding(script_rules::specs::Lines::outcome_line))]
pub fn write_outcome(out: &mut Vec<u8>, outcome: &Outcome) -> Result<(), AllocError>
    ensures written { OnOk result (out.new.items ≡ out.old.items ++ printed (outcome_line outcome.now)) }
    ensures unchanged { OnErr result (out.new.items ≡ out.old.items) }
{
    let start = out.len();
    let written = push_outcome(out, outcome);
    end_line(out, start, written)
}

/// Writes the line of a refused event or question, by the number of its refusal. Fails only when memory runs out.
pub fn write_refusal(out: &mut Vec<u8>, number: u16) -> Result<(), AllocError>
    ensures written { OnOk result (out.new.items ≡ out.old.items ++ printed (refusal_line number)) }
    ensures unchanged { OnErr result (out.new.items ≡ out.old.items) }
{
    let start = out.len();
    let written = push_named(out, b"refused", u64::from(number));
    end_line(out, start, written)
}

/// Writes the line with which a fault ends a script: the number of the script's line, from 1, and that of the fault. Fails
/// only when memory runs out.
pub fn write_fault(out: &mut Vec<u8>, line: u64, fault: u16) -> Result<(), AllocError>
    ensures written { OnOk result (out.new.items ≡ out.old.items ++ printed (fault_line line fault)) }
    ensures unchanged { OnErr result (out.new.items ≡ out.old.items) }
{
    let start = out.len();
    let written = push_fault(out, line, fault);
    end_line(out, start, written)
}

fn push_fault(out: &mut Vec<u8>, line: u64, fault: u16) -> Result<(), AllocError>
    ensures written { OnOk result (out.new.items ≡ out.old.items ++ spaced (codes "line" ∷ decimal line ∷ codes "fault" ∷ decimal fault ∷ [])) }
    ensures kept { BeginsWith out.old.items out.new.items }
{
    push_named(out, b"line", line)?;
    push_named(out, b"fault", u64::from(fault))?;
    Ok(())
}

/// What happened, and the letters that it sent.
fn push_outcome(out: &mut Vec<u8>, outcome: &Outcome) -> Result<(), AllocError>
    ensures written { OnOk result (out.new.items ≡ out.old.items ++ spaced (happening_words outcome.now.happening ++ sent_words outcome.now.sent)) }
    ensures kept { BeginsWith out.old.items out.new.items }
{
    push_happening(out, &outcome.happening)?;
    let Some(span) = outcome.sent else {
        return Ok(());
    };
    push_word(out, b"sent")?;
    push_span(out, &span)?;
    Ok(())
}

/// What happened, in words (`docs/RULES.md#what-a-script-prints`). Fails only when memory runs out.
pub fn push_happening(out: &mut Vec<u8>, happening: &Happening) -> Result<(), AllocError>
    ensures written { OnOk result (out.new.items ≡ out.old.items ++ spaced (happening_words happening.now)) }
    ensures kept { BeginsWith out.old.items out.new.items }
{
    match happening {
        Happening::Joined {
            version,
            silo,
            replaced,
        } => {
            push_change(out, *version, b"joined", silo)?;
            push_replaced(out, *replaced)
        }
        Happening::Left { version, silo } => push_change(out, *version, b"leaving", silo),
        Happening::Died { version, silo } => push_change(out, *version, b"dead", silo),
        Happening::Saw {
            silo,
            version,
            effect,
        } => {
            push_silo(out, silo)?;
            push_named(out, b"sees", *version)?;
            push_effect(out, effect)
        }
        Happening::Did { silo, effect } => {
            push_effect(out, effect)?;
            push_subject(out, silo, effect)
        }
        Happening::Delivered {
            number,
            kind,
            effect,
        } => {
            push_named(out, b"delivered", *number)?;
            push_word(out, kind_word(*kind))?;
            push_effect(out, effect)
        }
        Happening::Lost { number } => push_named(out, b"lost", *number),
    }
}

/// The version that a change made, the change in a word, and whose it is.
fn push_change(
    out: &mut Vec<u8>,
    version: u64,
    change: &[u8],
    silo: &SiloAddress,
) -> Result<(), AllocError>
    ensures written { OnOk result (out.new.items ≡ out.old.items ++ spaced (codes "view" ∷ decimal version ∷ change.now ∷ silo_text silo.now ∷ [])) }
    ensures kept { BeginsWith out.old.items out.new.items }
{
    push_named(out, b"view", version)?;
    push_word(out, change)?;
    push_silo(out, silo)?;
    Ok(())
}

/// The older silo of the endpoint that became Dead, if there was one.
fn push_replaced(out: &mut Vec<u8>, replaced: Option<SiloAddress>) -> Result<(), AllocError>
    ensures written { OnOk result (out.new.items ≡ out.old.items ++ spaced (replaced_words replaced)) }
    ensures kept { BeginsWith out.old.items out.new.items }
{
    let Some(old) = replaced else {
        return Ok(());
    };
    push_word(out, b"dead")?;
    push_silo(out, &old)?;
    Ok(())
}

/// The words for an effect (`docs/RULES.md#what-a-script-prints`). Fails only when memory runs out.
pub fn push_effect(out: &mut Vec<u8>, effect: &Effect) -> Result<(), AllocError>
    ensures written { OnOk result (out.new.items ≡ out.old.items ++ spaced (effect_words effect.now)) }
    ensures kept { BeginsWith out.old.items out.new.items }
{
    push_word(out, effect_word(effect))?;
    match effect {
        Effect::NothingCached(_) => push_word(out, b"cached"),
        Effect::Retry(why) => push_number(out, u64::from(why.number())),
        Effect::Refused(number) => push_number(out, u64::from(*number)),
        _ => Ok(()),
    }
}

/// What the effect of a silo's own step is about.
fn push_subject(out: &mut Vec<u8>, silo: &SiloAddress, effect: &Effect) -> Result<(), AllocError>
    ensures written { OnOk result (out.new.items ≡ out.old.items ++ spaced (subject_words silo.now effect.now)) }
    ensures kept { BeginsWith out.old.items out.new.items }
{
    match effect {
        Effect::Started(entry)
        | Effect::Closing(entry)
        | Effect::Cancelled(entry)
        | Effect::Cached(entry) => push_entry(out, entry),
        Effect::Offered { entry, to } => push_offered(out, entry, to),
        Effect::Finding(grain) | Effect::Forgot(grain) | Effect::NothingCached(grain) => {
            push_grain(out, grain)
        }
        _ => push_silo(out, silo),
    }
}

/// An activation, its grain, and the silo to which it is offered.
fn push_offered(out: &mut Vec<u8>, entry: &Entry, to: &SiloAddress) -> Result<(), AllocError>
    ensures written { OnOk result (out.new.items ≡ out.old.items ++ spaced (entry_words entry.now ++ codes "to" ∷ silo_text to.now ∷ [])) }
    ensures kept { BeginsWith out.old.items out.new.items }
{
    push_entry(out, entry)?;
    push_word(out, b"to")?;
    push_silo(out, to)?;
    Ok(())
}
