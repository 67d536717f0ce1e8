ghost use Rattle.std.specs.Prelude.{◌≡◌};
ghost use Rattle.letter_mail.specs.MailedModel.{letter_seen};

use directory_letters::Letter;

/// A letter of the mail: put together from what is kept of it, or lent as it is kept.
#[derive(Drop)]
pub enum MailedLetter<'a> {
    Made(Letter),
    Lent(&'a Letter),
}

impl MailedLetter<'_> {
    /// The letter.
    pub fn letter(&self) -> &Letter
        ensures { result.now ≡ letter_seen self.now }
    {
        match self {
            MailedLetter::Made(letter) => letter,
            MailedLetter::Lent(letter) => letter,
        }
    }
}
