ghost use Rattle.std.specs.Prelude.{◌≡◌, ◌↔◌, ◌&&◌, IfOk, IsErrOf, IsTrue, Some};
ghost use Rattle.std.specs.String.{string_bytes};
ghost use Rattle.ring_range.specs.Range.{Range, IsRange};
ghost use Rattle.texts.specs.Numeral.{IsNumeral, is_numeral};
ghost use Rattle.ring_range.specs.Text.{range_text, read_range, if_range, IsInShape, IsNotOfNumbers, IsOutOfRange};

use crate::range::RingRange;
use std::alloc::{AllocError, Global};
use std::fmt;
use texts::{first_position, is_numeral, value_up_to};
use thiserror::Error;

/// Why a text tells no range: the first fault that holds, in this order.
#[derive(Clone, Copy, Debug, PartialEq, Eq, Error)]
pub enum RangeTextError {
    /// There is no plus, or nothing on one side of the first.
    #[error("a range is written start+size")]
    Shape,
    /// A side isn't decimal digits, or has a zero before others.
    #[error("a range's start and size are decimal numbers without leading zeros")]
    NotANumber,
    /// The start is above 4294967295, or the size above 4294967296.
    #[error("a range starts at 4294967295 at most and has 4294967296 hashes at most")]
    OutOfRange,
}

impl fmt::Display for RingRange {
    ghost output = { λ range. Some (range_text range) };

    fn fmt<W: fmt::Write>(&self, f: &mut fmt::Formatter<W>) -> fmt::Result {
        let (start, size) = (self.start(), self.size());
        write!(f, "{start}+{size}")
    }
}

impl RingRange {
    /// The range's text, `start+size` in decimal. Fails only when memory runs out.
    pub fn text(&self, alloc: Global) -> Result<String, AllocError>
        ensures { IfOk result (λ text. string_bytes text ≡ range_text self.now) }
    {
        self.to_string(alloc)
    }

    /// Reads the text `start+size`, each number in decimal digits without a leading zero.
    pub fn parse(text: &[u8]) -> Result<RingRange, RangeTextError>
        ensures reads { result ≡ read_range text.now }

        // The one spelling of a range reads as that range, and nothing else reads as a range.
        ensures found { IfOk result (λ range. text.now ≡ range_text range) }
        ensures only { (range : Range) → IsRange range → text.now ≡ range_text range → result ≡ Ok range }

        // The first fault that holds: in the shape, then in a number, then in what is too large.
        ensures shape { IsErrOf result RangeTextError.Shape ↔ ¬ (IsInShape text.now) }
        ensures not_a_number { IsErrOf result RangeTextError.NotANumber ↔ IsNotOfNumbers text.now }
        ensures out_of_range { IsErrOf result RangeTextError.OutOfRange ↔ IsOutOfRange text.now }
    {
        read(text)
    }
}

// The reading by its tests: `parse` says what comes of it.
#[tactic(auto, unfolding(crate::specs::Text::read_range))]
fn read(text: &[u8]) -> Result<RingRange, RangeTextError>
    ensures { result ≡ read_range text.now }
{
    let plus = first_position(text, b'+');
    if plus == 0 || plus + 1 >= text.len() {
        return Err(RangeTextError::Shape);
    }
    let (start, size) = (&text[..plus], &text[plus + 1..]);
    if !are_numerals(start, size) {
        return Err(RangeTextError::NotANumber);
    }
    match (value_up_to(start, u64::MAX), value_up_to(size, u64::MAX)) {
        (Some(start), Some(size)) => from_numbers(start, size),
        _ => Err(RangeTextError::OutOfRange),
    }
}

fn are_numerals(start: &[u8], size: &[u8]) -> bool
    ensures numerals { IsTrue result ↔ (IsNumeral start.now × IsNumeral size.now) }
    ensures exact { result ≡ (is_numeral start.now && is_numeral size.now) }
{
    is_numeral(start) && is_numeral(size)
}

// The range of a start and a size.
fn from_numbers(start: u64, size: u64) -> Result<RingRange, RangeTextError>
    ensures { result ≡ if_range (record { start = start; size = size }) }
{
    match u32::try_from(start) {
        Ok(start) => RingRange::new(start, size).map_err(|_| RangeTextError::OutOfRange),
        Err(_) => Err(RangeTextError::OutOfRange),
    }
}
