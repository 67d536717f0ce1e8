//! The hints that a silo keeps of where grains are.
#![tactic(auto)]

mod cache;
mod error;
mod hints;

pub use cache::{Cache, MOST_HINTS};
pub use error::CacheError;
