//! The words of a silo's text, as slices of it.

ghost use Rattle.std.specs.Prelude.{◌≡◌, ◌↔◌, ◌≤◌, IsTrue, length, option_map};
ghost use Rattle.std.specs.List.{position_or_len};
ghost use Rattle.silo_address.specs.SiloText.{AreNumerals, is_mark};
ghost use Rattle.silo_address.specs.ReadSilo.{only_word, silo_words, word_before};
ghost use Rattle.silo_address.specs.WordsModel.{cut_view, slice_view, words_view};

use texts::is_numeral;

#[derive(Clone, Copy)]
pub(crate) struct SiloWords<'a> {
    pub(crate) first: &'a [u8],
    pub(crate) second: &'a [u8],
    pub(crate) third: &'a [u8],
    pub(crate) fourth: &'a [u8],
    pub(crate) port: &'a [u8],
    pub(crate) generation: &'a [u8],
}

/// The words of a text `w.w.w.w:w@w`, each of one byte or more, none of them `.`, `:` or `@`.
#[tactic(auto, unfolding(crate::specs::ReadSilo::silo_words))]
pub(crate) fn words(text: &[u8]) -> Option<SiloWords<'_>>
    ensures { option_map words_view result ≡ silo_words text.now }
{
    let (first, rest) = word_before(text, b'.')?;
    let (second, rest) = word_before(rest, b'.')?;
    let (third, rest) = word_before(rest, b'.')?;
    let (fourth, rest) = word_before(rest, b':')?;
    let (port, rest) = word_before(rest, b'@')?;
    let generation = only_word(rest)?;
    Some(SiloWords {
        first,
        second,
        third,
        fourth,
        port,
        generation,
    })
}

/// The word before the first mark, and the bytes after it, if that mark is this one.
fn word_before(bytes: &[u8], mark: u8) -> Option<(&[u8], &[u8])>
    ensures { option_map cut_view result ≡ word_before mark bytes.now }
{
    let end = first_mark(bytes);
    if end == 0 {
        return None;
    }
    if end == bytes.len() {
        return None;
    }
    if bytes[end] != mark {
        return None;
    }
    Some((&bytes[..end], &bytes[end + 1..]))
}

/// The bytes, if they are one word.
fn only_word(bytes: &[u8]) -> Option<&[u8]>
    ensures { option_map slice_view result ≡ only_word bytes.now }
{
    if bytes.is_empty() {
        return None;
    }
    if first_mark(bytes) == bytes.len() {
        Some(bytes)
    } else {
        None
    }
}

/// The position of the first mark, or the length if there is none.
fn first_mark(bytes: &[u8]) -> usize
    ensures first { result ≡ position_or_len is_mark bytes.now }
    ensures within { result ≤ length bytes.now }
{
    for (position, byte) in bytes.iter().enumerate() {
        if is_mark(*byte) {
            return position;
        }
    }
    bytes.len()
}

fn is_mark(byte: u8) -> bool
    ensures { result ≡ is_mark byte }
{
    byte == b'.' || byte == b':' || byte == b'@'
}

impl SiloWords<'_> {
    pub(crate) fn are_numerals(&self) -> bool
        ensures { IsTrue result ↔ AreNumerals (words_view self.now) }
    {
        is_numeral(self.first)
            && is_numeral(self.second)
            && is_numeral(self.third)
            && is_numeral(self.fourth)
            && is_numeral(self.port)
            && is_numeral(self.generation)
    }
}
