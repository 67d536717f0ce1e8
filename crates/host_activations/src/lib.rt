//! A silo as the host of activations: the activations that it holds, the finds that it has outstanding, and the numbers
//! of its requests (`docs/RULES.md#phases`).
#![tactic(auto)]

mod activations;
mod asked;
mod by_hash;
mod host;
mod kept;
mod outstanding;
mod standing;
mod under_way;

pub use activations::{Activations, FirmPage, PageAsked, entry_on};
pub use host::{Host, Renewal};
pub use standing::stands_behind;
