//! What stands in front of a letter's kind.

ghost use Rattle.std.specs.Prelude.{◌≡◌};
ghost use Rattle.directory_letters.specs.LetterModel.{body_of};
ghost use Rattle.process_rules.specs.ReadLetter.{head_of_words, letter_of};
ghost use Rattle.process_lines.specs.ReadAs.{head_of, told};

use crate::LineFault;
use crate::words::{number_word, silo_word};
use directory_letters::{Body, Letter};
use silo_address::SiloAddress;

/// From whom a letter is, to whom, and its version.
#[derive(Clone, Copy)]
pub(crate) struct Head {
    pub from: SiloAddress,
    pub to: SiloAddress,
    pub version: u64,
}

impl Head {
    /// The letter of this head that says so.
    pub(crate) fn letter(&self, body: Body) -> Letter
        ensures { result ≡ letter_of (head_of self.now) (body_of body) }
    {
        Letter::new(self.from, self.to, self.version, body)
    }
}

/// What the three words in front of a kind say.
pub(crate) fn read_head(from: &[u8], to: &[u8], version: &[u8]) -> Result<Head, LineFault>
    ensures { told head_of result ≡ head_of_words from.now to.now version.now }
{
    let from = silo_word(from)?;
    let to = silo_word(to)?;
    let version = number_word(version)?;
    Ok(Head { from, to, version })
}
