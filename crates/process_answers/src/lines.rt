//! Lines that more than one kind of answer has.

#![tactic(auto, using(crate::proofs::Written::line_by_line))]

ghost use Rattle.std.specs.Prelude.{◌≡◌, [], ◌∷◌, ◌++◌, IsSomeAnd, OnOk, codes, map};
ghost use Rattle.texts.specs.Printed.{text_of_lines};
ghost use Rattle.texts.specs.Words.{sentence};
ghost use Rattle.script_rules.specs.Lines.{happening_words, refusal_line};
ghost use Rattle.script_lines.specs.Printed.{printed};
ghost use Rattle.script_lines.specs.Spaced.{spaced, BeginsWith};
ghost use Rattle.process_rules.specs.LetterText.{letter_line};
ghost use Rattle.directory_silo.specs.Numbers.{silo_refusal_number};

use directory_letters::Letter;
use directory_rules::{Happening, Outcome};
use directory_silo::SiloRefusal;
use process_lines::write_letter;
use script_lines::{end_line, push_word, write_outcome, write_refusal};
use std::alloc::AllocError;

/// The line of what happened, with no numbers of letters.
#[tactic(auto, using(crate::proofs::Written::line_by_line), unfolding(script_rules::specs::Lines::outcome_line))]
pub(crate) fn write_happening(out: &mut Vec<u8>, happening: Happening) -> Result<(), AllocError>
    ensures written { OnOk result (out.new.items ≡ out.old.items ++ printed (sentence (happening_words happening))) }
    ensures kept { BeginsWith out.old.items out.new.items }
{
    write_outcome(
        out,
        &Outcome {
            happening,
            sent: None,
        },
    )
}

/// The line of what happened, and a line for each letter sent, in order.
pub(crate) fn write_happened(
    out: &mut Vec<u8>,
    happening: Happening,
    letters: &[Letter],
) -> Result<(), AllocError>
    ensures written { OnOk result (out.new.items ≡ out.old.items ++ text_of_lines (sentence (happening_words happening) ∷ map letter_line letters.now)) }
    ensures kept { BeginsWith out.old.items out.new.items }
{
    write_happening(out, happening)?;
    write_letters(out, letters)?;
    Ok(())
}

/// A line for each letter, in order.
pub(crate) fn write_letters(out: &mut Vec<u8>, letters: &[Letter]) -> Result<(), AllocError>
    ensures written { OnOk result (out.new.items ≡ out.old.items ++ text_of_lines (map letter_line letters.now)) }
    ensures kept { BeginsWith out.old.items out.new.items }
{
    for letter in letters {
        write_letter(out, letter)?;
    }
    Ok(())
}

/// The line of a refusal. Out of memory has none, and is passed on.
pub(crate) fn write_refused(out: &mut Vec<u8>, refusal: SiloRefusal) -> Result<(), AllocError>
    ensures written { OnOk result (IsSomeAnd (silo_refusal_number refusal) (λ number. out.new.items ≡ out.old.items ++ printed (refusal_line number))) }
    ensures kept { BeginsWith out.old.items out.new.items }
{
    let Some(number) = refusal.number() else {
        return Err(AllocError);
    };
    write_refusal(out, number)
}

/// The line by which a `ping` is answered.
pub(crate) fn write_pong(out: &mut Vec<u8>, word: &[u8]) -> Result<(), AllocError>
    ensures written { OnOk result (out.new.items ≡ out.old.items ++ text_of_lines (sentence (codes "pong" ∷ word.now ∷ []) ∷ [])) }
    ensures kept { BeginsWith out.old.items out.new.items }
{
    let start = out.len();
    let written = push_pong(out, word);
    end_line(out, start, written)
}

#[tactic(auto, using(script_lines::proofs::WrittenPieces::word_by_word))]
fn push_pong(out: &mut Vec<u8>, word: &[u8]) -> Result<(), AllocError>
    ensures written { OnOk result (out.new.items ≡ out.old.items ++ spaced (codes "pong" ∷ word.now ∷ [])) }
    ensures kept { BeginsWith out.old.items out.new.items }
{
    push_word(out, b"pong")?;
    push_word(out, word)?;
    Ok(())
}
