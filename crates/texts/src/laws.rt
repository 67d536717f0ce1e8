//! Laws of numerals: each function has a law as its contract, and does nothing.

ghost use Rattle.std.specs.Prelude.{◌≡◌, ◌<◌, ◌≤◌, ◌^◌, ℕ, List, Ok, Err, codes};
ghost use Rattle.std.specs.Bool.{Decides};
ghost use Rattle.std.specs.Fmt.{decimal};
ghost use Rattle.texts.specs.Numeral.{IsNumeral, is_numeral, numeral_value, read_number};

use crate::NumberError;

/// A number that is written is read back; `is_numeral` decides whether a word is a numeral; and a numeral below 2^64 is the one
/// spelling of its number.
pub fn numerals()
    ensures round_trip { (most number : ℕ) → most < 2 ^ 64 → number ≤ most → read_number most (decimal number) ≡ Ok number }
    ensures test { (word : List ℕ) → Decides (is_numeral word) (IsNumeral word) }
    ensures spelling { (word : List ℕ) → IsNumeral word → numeral_value word < 2 ^ 64 → decimal (numeral_value word) ≡ word }
{}

/// The reading computes.
pub fn readings()
    ensures number { read_number 9 (codes "7") ≡ Ok 7 }
    ensures leading_zero { read_number 9 (codes "07") ≡ Err NumberError.NotANumber }
    ensures too_large { read_number 9 (codes "10") ≡ Err NumberError.OutOfRange }
{}
