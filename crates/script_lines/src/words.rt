//! The words of a line, as slices of it.

ghost use Rattle.std.specs.Option.{option_copied};
ghost use Rattle.std.specs.Prelude.{◌≡◌, ◌≢◌, ◌<◌, ◌≤◌, ℕ, [], ◌∷◌, IfSome, MatchOption, length, slice_index};
ghost use Rattle.texts.specs.Words.{space, words_in};
ghost use Rattle.script_lines.specs.WordCounts.{only_three_words, only_two_words, only_word, three_copied, two_copied};

use texts::first_position;

/// The first word of a line, and what follows it, where there is a word.
pub fn split_word(line: &[u8]) -> Option<(&[u8], &[u8])>
    ensures words { MatchOption result (words_in line.now ≡ []) (λ parts. words_in line.now ≡ parts.0.now ∷ words_in parts.1.now) }
    ensures shorter { IfSome result (λ parts. length parts.1.now < length line.now) }
{
    let start = leading_spaces(line);
    if start == line.len() {
        return None;
    }
    let from_word = &line[start..];
    let end = first_position(from_word, b' ');
    Some((&from_word[..end], &from_word[end..]))
}

/// How many spaces a line begins with.
fn leading_spaces(line: &[u8]) -> usize
    ensures within { result ≤ length line.now }
    ensures before { (k : ℕ) → k < result → slice_index line.now k ≡ space }
    ensures stops { result < length line.now → slice_index line.now result ≢ space }
{
    for (position, byte) in line.iter().enumerate() {
        if *byte != b' ' {
            return position;
        }
    }
    line.len()
}

/// The word of a line that has one.
pub fn only_word(line: &[u8]) -> Option<&[u8]>
    ensures { option_copied result ≡ only_word (words_in line.now) }
{
    let (word, rest) = split_word(line)?;
    match split_word(rest) {
        None => Some(word),
        Some(_) => None,
    }
}

/// The words of a line that has two.
pub fn only_two_words(line: &[u8]) -> Option<(&[u8], &[u8])>
    ensures { two_copied result ≡ only_two_words (words_in line.now) }
{
    let (first, rest) = split_word(line)?;
    let second = only_word(rest)?;
    Some((first, second))
}

/// The words of a line that has three.
pub fn only_three_words(line: &[u8]) -> Option<(&[u8], &[u8], &[u8])>
    ensures { three_copied result ≡ only_three_words (words_in line.now) }
{
    let (first, rest) = split_word(line)?;
    let (second, third) = only_two_words(rest)?;
    Some((first, second, third))
}
