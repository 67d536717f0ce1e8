//! Recovery of a range that nobody hands over: what silos report of their firm activations there, and the union of the reports.
#![tactic(auto)]

mod awaited;
mod error;
mod gather;
mod progress;
mod recovery;
mod report;
mod silos;

pub use error::RecoveryError;
pub use progress::RecoveryProgress;
pub use recovery::Recovery;
pub use report::{Report, same_grain};
