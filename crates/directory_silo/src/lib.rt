//! One silo as a server has it: what it was told of the changes of membership, and its node. No call asks anything of its caller
//! (`docs/RULES.md#a-silo-by-itself`). What its calls take and give is named here too, so that a user needs no other crate.
#![tactic(auto)]

mod answer;
mod changes;
mod commands;
mod known;
mod later;
mod questions;
mod refusal;
mod sight;
mod silo;
mod step;

pub use answer::Answer;
pub use directory_letters::{Body, Letter};
pub use directory_node::Node;
pub use directory_rules::{Effect, LetterKind, Listed, Policy, Settings};
pub use hash_ring::{Hashing, Places, Point};
pub use membership_view::{Status, Views};
pub use refusal::SiloRefusal;
pub use silo::Silo;
pub use silo_address::{ActivationId, GrainId, SiloAddress};
pub use silo_rules::{Figures, News};
