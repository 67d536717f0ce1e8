//! Plays scripts to clusters with a thread per silo. The rules are in `docs/RULES.md#threads`.
#![tactic(auto)]

mod close;
mod driver;
mod held;
mod lines;
mod play;
mod print;
mod script;

pub use play::{MARK_BLOCKS, play_on_threads};
