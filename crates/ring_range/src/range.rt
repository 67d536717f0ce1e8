ghost use Rattle.std.specs.Prelude.{◌≡◌, ◌<◌, ◌≤◌, ◌↔◌, IsTrue, IfOk, IsErrOf};
ghost use Rattle.ring_range.specs.Error.{number_of};
ghost use Rattle.ring_range.specs.Range.{circle, IsRange, holds, Holds, within, IsWithin, distance, part_of};

mod cut;
mod meet;

use std::marker::Model;
use thiserror::Error;

/// How many hashes the circle has.
pub const CIRCLE: u64 = 1 << 32;

/// Why there is no range with a start and a size.
#[derive(Clone, Copy, Debug, PartialEq, Eq, Error)]
pub enum RangeError {
    /// 301: the size is above 4294967296.
    #[error("a range has 4294967296 hashes at most")]
    TooLarge,
}

impl RangeError {
    /// The number by which the refusal is told.
    pub fn number(self) -> u16
        ensures { result ≡ number_of self }
    {
        match self {
            RangeError::TooLarge => 301,
        }
    }
}

/// A range of hashes: `size` hashes of the circle going forward from `start`, and on from 0 after the highest.
///
/// A range of size 0 is empty, and one of size 4294967296 is the full circle. Ranges are equal where their starts and
/// sizes are; so are full circles of two starts two ranges.
#[derive(Clone, Copy, PartialEq, Eq, PartialOrd, Ord)]
pub struct RingRange {
    start: u32,
    size: u64,
}

impl Model for RingRange {
    ghost use Rattle.ring_range.specs.Range.{Range, IsRange};

    ghost Value = { Range };

    ghost view = { λ r. record { start = r.start; size = r.size } };

    ghost invariant = { λ r. IsRange (record { start = r.start; size = r.size }) };

    ghost inverse = { λ v. record { start = v.start; size = v.size } };
}

impl RingRange {
    /// The range of `size` hashes from `start` on. Refuses a size above 4294967296 by 301.
    pub fn new(start: u32, size: u64) -> Result<RingRange, RangeError>
        ensures made { IfOk result (λ range. range ≡ record { start = start; size = size }) }
        ensures too_large { IsErrOf result RangeError.TooLarge ↔ (circle < size) }
    {
        if size > CIRCLE {
            return Err(RangeError::TooLarge);
        }
        Ok(RingRange { start, size })
    }

    /// The first hash; of an empty range, the place at which it is written.
    pub fn start(&self) -> u32
        ensures { result ≡ self.now.start }
    {
        self.start
    }

    /// How many hashes the range has, 0 to 4294967296.
    pub fn size(&self) -> u64
        ensures value { result ≡ self.now.size }
        ensures small { result ≤ circle }
    {
        self.size
    }

    /// A law: every range begins at a hash, and has no hash twice.
    pub fn in_range(&self)
        ensures { IsRange self.now }
    {
        let _start = self.start;
    }

    /// Whether the two have the same start and size.
    pub fn same(&self, other: &RingRange) -> bool
        ensures { IsTrue result ↔ (self.now ≡ other.now) }
    {
        *self == *other
    }

    /// Whether the hash is in the range.
    pub fn contains(&self, hash: u32) -> bool
        ensures exact { result ≡ holds self.now hash }
        ensures member { IsTrue result ↔ Holds self.now hash }
    {
        u64::from(distance(self.start, hash)) < self.size
    }

    /// Whether every hash of this range is in the other.
    ///
    /// An empty range is within every range, and a full circle within full circles alone.
    pub fn is_within(&self, other: &RingRange) -> bool
        ensures exact { result ≡ within self.now other.now }
        ensures inclusion { IsTrue result ↔ IsWithin self.now other.now }
    {
        if self.size == 0 || other.size == CIRCLE {
            return true;
        }
        u64::from(distance(other.start, self.start)) + self.size <= other.size
    }

    // The hashes from `from` steps after the start up to, but not including, `to` steps after it.
    fn part(&self, from: u64, to: u64) -> RingRange
        requires { to ≤ self.now.size }
        ensures { result ≡ part_of self.now from to }
    {
        if from < to {
            RingRange {
                start: self.start.wrapping_add(from as u32),
                size: to - from,
            }
        } else {
            RingRange {
                start: self.start,
                size: 0,
            }
        }
    }
}

// How many steps forward from the place the hash comes.
fn distance(place: u32, hash: u32) -> u32
    ensures { result ≡ distance place hash }
{
    hash.wrapping_sub(place)
}
