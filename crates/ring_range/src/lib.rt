//! Ranges of hashes on the circle of 2^32 hashes.
//!
//! A [`RingRange`] is the set of its hashes: `contains` is membership, `is_within` inclusion, `meet` the
//! intersection in as few parts as there can be, and `cut_at` a partition.
//! The rules are in `docs/RULES.md#the-circle`.
#![tactic(auto)]

pub mod laws;
mod range;
mod text;

pub use range::{CIRCLE, RangeError, RingRange};
pub use text::RangeTextError;
