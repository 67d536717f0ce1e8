//! Placement: on which silo a new activation is to begin.
#![tactic(auto)]

mod placement;

pub use placement::silo_for;
