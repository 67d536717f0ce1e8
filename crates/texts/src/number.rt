ghost use Rattle.std.specs.Option.{SomeIff};
ghost use Rattle.std.specs.Char.{digit_value};
ghost use Rattle.std.specs.Prelude.{◌≡◌, ◌↔◌, ◌≤◌, ◌<◌, ◌+◌, ◌*◌, ◌^◌, ℕ, IfOk, IsErrOf, IsTrue};
ghost use Rattle.std.specs.Fmt.{decimal};
ghost use Rattle.texts.specs.Numeral.{IsBegun, IsDigit, IsNumeral, numeral_value, read_number};

use thiserror::Error;

/// Why a word is not a number in the wanted range.
#[derive(Clone, Copy, Debug, PartialEq, Eq, Error)]
pub enum NumberError {
    #[error("a number is written in decimal digits, without a leading zero")]
    NotANumber,
    #[error("the number is out of its range")]
    OutOfRange,
}

/// Reads a number from 0 to `most`: any number of decimal digits, without a leading zero
/// (`docs/RULES.md#identities-and-their-texts`).
#[tactic(auto, using(crate::proofs::NumeralLaws::reading))]
pub fn number_up_to(word: &[u8], most: u64) -> Result<u64, NumberError>
    ensures reads { result ≡ read_number most word.now }

    // The one spelling of a number reads as that number, and nothing else reads as a number.
    ensures found { IfOk result (λ number. (number ≤ most) × (word.now ≡ decimal number)) }
    ensures only { (number : ℕ) → number ≤ most → word.now ≡ decimal number → result ≡ Ok number }

    // The first fault that holds.
    ensures not_a_number { IsErrOf result NumberError.NotANumber ↔ ¬ (IsNumeral word.now) }
    ensures out_of_range { IsErrOf result NumberError.OutOfRange ↔ (IsNumeral word.now × (most < numeral_value word.now)) }
{
    match value_of(word) {
        Some(value) => {
            if value <= most {
                Ok(value)
            } else {
                Err(NumberError::OutOfRange)
            }
        }
        None => {
            if is_numeral(word) {
                Err(NumberError::OutOfRange)
            } else {
                Err(NumberError::NotANumber)
            }
        }
    }
}

/// The value of a numeral below 2^64, in one pass over it.
#[inline(always)]
fn value_of(word: &[u8]) -> Option<u64>
    ensures { SomeIff result (IsNumeral word.now × (numeral_value word.now < 2 ^ 64)) (numeral_value word.now) }
{
    if !is_begun(word) {
        return None;
    }
    let mut value = 0;
    for byte in word {
        if *byte < b'0' || b'9' < *byte {
            return None;
        }
        value = with_digit(value, *byte)?;
    }
    Some(value)
}

/// Whether a word is a numeral: at least one decimal digit, and no leading zero.
pub fn is_numeral(word: &[u8]) -> bool
    ensures { IsTrue result ↔ IsNumeral word.now }
{
    if !is_begun(word) {
        return false;
    }
    word.iter().all(|byte| b'0' <= *byte && *byte <= b'9')
}

/// Whether there is a byte at least, and no zero leads others.
#[inline(always)]
fn is_begun(word: &[u8]) -> bool
    ensures { IsTrue result ↔ IsBegun word.now }
{
    if word.is_empty() {
        return false;
    }
    if word[0] == b'0' && word.len() > 1 {
        return false;
    }
    true
}

/// The value of a numeral, if it is at most `most`. `is_numeral` tells whether a word is a numeral.
pub fn value_up_to(numeral: &[u8], most: u64) -> Option<u64>
    requires { IsNumeral numeral.now }
    ensures { SomeIff result (numeral_value numeral.now ≤ most) (numeral_value numeral.now) }
{
    let mut value = 0;
    for digit in numeral {
        value = with_digit(value, *digit)?;
    }
    if value <= most { Some(value) } else { None }
}

/// The number with one more digit at its end, if that is below 2^64.
fn with_digit(value: u64, digit: u8) -> Option<u64>
    requires { IsDigit digit }
    ensures { SomeIff result (value * 10 + digit_value digit < 2 ^ 64) (value * 10 + digit_value digit) }
{
    value.checked_mul(10)?.checked_add(u64::from(digit - b'0'))
}
