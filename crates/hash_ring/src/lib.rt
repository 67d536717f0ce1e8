//! The ring of a cluster: where the silos' points are on the circle of hashes, and which silo owns a hash.
#![tactic(auto)]

mod advance;
mod error;
mod hashing;
pub mod laws;
mod merge;
mod places;
mod point;
mod points;
mod ranges;
mod ring;
mod silo_places;

pub use error::RingError;
pub use hashing::{Hashing, hash_text};
pub use places::{MOST_POINTS, Places};
pub use point::Point;
pub use ring::Ring;
