//! Letters between silos, of all kinds. The rules are in `docs/RULES.md#letters`.
#![tactic(auto)]

mod letter;

pub use letter::{Body, Letter};
