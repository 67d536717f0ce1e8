//! What changes hands from one ring to another: the arcs of the circle between the places of the two, each with its owner
//! before and its owner after, and among them the moves, which go to another silo.
//! The rules are in `docs/RULES.md#arcs-and-moves`.
#![tactic(auto)]

mod arc;
mod compare;
pub mod laws;
mod walk;

pub use arc::{Move, RingArc};
pub use compare::{arcs, moves};
