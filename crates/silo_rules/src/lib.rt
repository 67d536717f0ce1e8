//! One silo by itself, as definitions in `specs/`: what it was told of the changes of membership, its node, and what it makes of each
//! change, command, sight and letter; and the plain data that rule and code share. There is no behaviour here.
#![tactic(auto)]

mod figures;
pub mod laws;
mod news;

pub use figures::Figures;
pub use news::News;
