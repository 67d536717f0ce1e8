//! A silo's one spelling, read in one pass.

ghost use Rattle.std.specs.Fmt.{decimal};
ghost use Rattle.std.specs.Option.{SomeIff};
ghost use Rattle.std.specs.Prelude.{◌≡◌, ◌<◌, ◌≤◌, ◌-◌, ◌^◌, ◌++◌, ◌∷◌, ◌↔◌, ℕ, List, Some, IfSome, IsTrue, false, true, option_map, slice_index};
ghost use Rattle.silo_address.specs.FrontNumber.{IsDigitAt, IsMarkAt, IsNumberFirst, front_digits, front_end, front_value, is_other, number_view};
ghost use Rattle.silo_address.specs.Silo.{IsSilo, Silo};
ghost use Rattle.silo_address.specs.SiloText.{silo_text};
ghost use Rattle.texts.specs.Numeral.{IsNumeral};

use crate::SiloAddress;

/// The most that a number of an IP address can be.
const MOST_BYTE: u32 = 255;

/// The silo whose text this is, if it is one's.
pub(crate) fn spelled(text: &[u8]) -> Option<SiloAddress>
    ensures found { IfSome result (λ silo. IsSilo silo × (text.now ≡ silo_text silo)) }
    ensures only { (silo : Silo) → IsSilo silo → text.now ≡ silo_text silo → result ≡ Some silo }
{
    let (first, rest) = byte_before(text, b'.')?;
    let (second, rest) = byte_before(rest, b'.')?;
    let (third, rest) = byte_before(rest, b'.')?;
    let (fourth, rest) = byte_before(rest, b':')?;
    let (port, rest) = number_before(rest, b'@', 65_535)?;
    let generation = only_number(rest, u32::MAX)?;
    let ip = [first as u8, second as u8, third as u8, fourth as u8];
    SiloAddress::from_parts(ip, port as u16, generation)
}

/// The number of at most 255 before this mark, and the bytes after the mark. Looks at no more than four bytes, and in no loop.
#[inline(always)]
fn byte_before(bytes: &[u8], mark: u8) -> Option<(u32, &[u8])>
    requires { is_other mark ≡ true }
    ensures found { IfSome result (λ found. (found.0 ≤ 255) × (bytes.now ≡ decimal found.0 ++ mark ∷ found.1.now)) }
    ensures only { (number : ℕ) (rest : List ℕ) → number ≤ 255 → bytes.now ≡ decimal number ++ mark ∷ rest → option_map number_view result ≡ Some (number, rest) }
{
    let first = digit_at(bytes, 0)?;
    if is_at(bytes, 1, mark) {
        return Some((first, &bytes[2..]));
    }
    let second = digit_at(bytes, 1)?;
    if first == 0 {
        return None;
    }
    let tens = first * 10 + second;
    if is_at(bytes, 2, mark) {
        return Some((tens, &bytes[3..]));
    }
    let third = digit_at(bytes, 2)?;
    let value = tens * 10 + third;
    if value > MOST_BYTE {
        return None;
    }
    if is_at(bytes, 3, mark) {
        return Some((value, &bytes[4..]));
    }
    None
}

/// The number of at most `most` before this mark, and the bytes after the mark.
#[inline(always)]
fn number_before(bytes: &[u8], mark: u8, most: u32) -> Option<(u32, &[u8])>
    requires { is_other mark ≡ true }
    ensures found { IfSome result (λ found. (found.0 ≤ most) × (bytes.now ≡ decimal found.0 ++ mark ∷ found.1.now)) }
    ensures only { (number : ℕ) (rest : List ℕ) → number ≤ most → bytes.now ≡ decimal number ++ mark ∷ rest → option_map number_view result ≡ Some (number, rest) }
{
    let (number, end) = first_number(bytes, most)?;
    before_mark(bytes, number, end, mark)
}

/// The number at the front, and the bytes after the mark, if this mark is where the number ends.
#[inline(always)]
fn before_mark(bytes: &[u8], number: u32, end: usize, mark: u8) -> Option<(u32, &[u8])>
    requires numeral { IsNumeral (front_digits bytes.now) }
    requires number { number ≡ front_value bytes.now }
    requires end { end ≡ front_end bytes.now }
    requires mark { is_other mark ≡ true }
    ensures found { IfSome result (λ found. (found.0 ≡ number) × (bytes.now ≡ decimal found.0 ++ mark ∷ found.1.now)) }
    ensures only { (written : ℕ) (rest : List ℕ) → written < 2 ^ 32 → bytes.now ≡ decimal written ++ mark ∷ rest → option_map number_view result ≡ Some (written, rest) }
{
    if end == bytes.len() {
        return None;
    }
    if bytes[end] != mark {
        return None;
    }
    Some((number, &bytes[end + 1..]))
}

/// The number of at most `most` that the bytes are, if they are one.
#[inline(always)]
fn only_number(bytes: &[u8], most: u32) -> Option<u32>
    ensures found { IfSome result (λ number. (number ≤ most) × (bytes.now ≡ decimal number)) }
    ensures only { (number : ℕ) → number ≤ most → bytes.now ≡ decimal number → result ≡ Some number }
{
    let (number, end) = first_number(bytes, most)?;
    if end == bytes.len() {
        Some(number)
    } else {
        None
    }
}

/// The number at the front, and where it ends, if it is at most `most`.
#[inline(always)]
fn first_number(bytes: &[u8], most: u32) -> Option<(u32, usize)>
    ensures { SomeIff result (IsNumberFirst most bytes.now) (front_value bytes.now, front_end bytes.now) }
{
    let (value, end) = first_digits(bytes, most)?;
    if end == 0 {
        return None;
    }
    if bytes[0] == b'0' && end > 1 {
        return None;
    }
    Some((value, end))
}

/// What the digits at the front write, and where they end, if it is at most `most`.
#[inline(always)]
fn first_digits(bytes: &[u8], most: u32) -> Option<(u32, usize)>
    ensures { SomeIff result (front_value bytes.now ≤ most) (front_value bytes.now, front_end bytes.now) }
{
    let mut value: u64 = 0;
    for (position, byte) in bytes.iter().enumerate() {
        match digit(*byte) {
            Some(digit) => value = value * 10 + u64::from(digit),
            None => return Some((value as u32, position)),
        }
        if value > u64::from(most) {
            return None;
        }
    }
    Some((value as u32, bytes.len()))
}

/// Whether this mark stands at the position.
#[inline(always)]
fn is_at(bytes: &[u8], position: usize, mark: u8) -> bool
    ensures { IsTrue result ↔ IsMarkAt bytes.now position mark }
{
    position < bytes.len() && bytes[position] == mark
}

/// What the byte at this position writes, if there is one and it is a digit.
#[inline(always)]
fn digit_at(bytes: &[u8], position: usize) -> Option<u32>
    ensures { SomeIff result (IsDigitAt bytes.now position) (slice_index bytes.now position - 48) }
{
    if position < bytes.len() {
        digit(bytes[position])
    } else {
        None
    }
}

/// What a digit writes.
#[inline(always)]
fn digit(byte: u8) -> Option<u32>
    ensures { SomeIff result (is_other byte ≡ false) (byte - 48) }
{
    if b'0' <= byte && byte <= b'9' {
        Some(u32::from(byte - b'0'))
    } else {
        None
    }
}
