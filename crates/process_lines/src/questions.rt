//! What is asked of a silo's process, and changes nothing.

ghost use Rattle.std.specs.Prelude.{◌≡◌};
ghost use Rattle.silo_address.specs.Grain.{Grain};
ghost use Rattle.texts.specs.Words.{words_in};
ghost use Rattle.script_rules.specs.Script as script;
ghost use Rattle.process_rules.specs.ReadLine as rule;
ghost use Rattle.process_lines.specs.ReadAs.{told};
ghost use Rattle.process_lines.specs.AskedModel.{asked_of};

use crate::words::own_policy_word;
use crate::{Asked, LineFault, grain_word};
use script_lines::{only_two_words, only_word, split_word};
use silo_address::GrainId;

/// Any one word.
pub(crate) fn ping(words: &[u8]) -> Result<Asked<'_>, LineFault>
    ensures { told asked_of result ≡ rule.a_word (words_in words.now) }
{
    match only_word(words) {
        Some(word) => Ok(Asked::Ping(word)),
        None => Err(LineFault::WordCount),
    }
}

pub(crate) fn owner(words: &[u8]) -> Result<Asked<'_>, LineFault>
    ensures { told asked_of result ≡ script.a_grain rule.Owner (words_in words.now) }
{
    let grain = a_grain(words)?;
    Ok(Asked::Owner { grain })
}

/// A grain and a policy.
pub(crate) fn place(words: &[u8]) -> Result<Asked<'_>, LineFault>
    ensures { told asked_of result ≡ rule.a_grain_and_a_policy (words_in words.now) }
{
    let Some((grain, policy)) = only_two_words(words) else {
        return Err(LineFault::WordCount);
    };
    let grain = grain_word(grain)?;
    let policy = own_policy_word(policy)?;
    Ok(Asked::Place { grain, policy })
}

pub(crate) fn figures(words: &[u8]) -> Result<Asked<'_>, LineFault>
    ensures { told asked_of result ≡ script.no_word rule.Figures (words_in words.now) }
{
    no_word(words)?;
    Ok(Asked::Figures)
}

pub(crate) fn show(words: &[u8]) -> Result<Asked<'_>, LineFault>
    ensures { told asked_of result ≡ script.no_word rule.Show (words_in words.now) }
{
    no_word(words)?;
    Ok(Asked::Show)
}

pub(crate) fn dump(words: &[u8]) -> Result<Asked<'_>, LineFault>
    ensures { told asked_of result ≡ script.no_word rule.Dump (words_in words.now) }
{
    no_word(words)?;
    Ok(Asked::Dump)
}

/// A grain.
fn a_grain(words: &[u8]) -> Result<GrainId, LineFault>
    ensures { (of : Grain → rule.Asked) → told of result ≡ script.a_grain of (words_in words.now) }
{
    match only_word(words) {
        Some(grain) => grain_word(grain),
        None => Err(LineFault::WordCount),
    }
}

/// No word.
fn no_word(words: &[u8]) -> Result<(), LineFault>
    ensures { (asked : rule.Asked) → told (λ _. asked) result ≡ script.no_word asked (words_in words.now) }
{
    match split_word(words) {
        None => Ok(()),
        Some(_) => Err(LineFault::WordCount),
    }
}
