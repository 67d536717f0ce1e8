//! Lines of a silo's process: each line read; letters as lines, read and written; and the faults of all such lines. The rules are in
//! `docs/RULES.md#lines-of-a-silos-process`.
#![tactic(auto)]

mod asked;
mod changes;
mod entries;
mod fault;
mod head;
mod kinds;
mod known;
mod listed;
mod questions;
mod ranges;
mod read;
mod reading;
mod replies;
mod requests;
mod steps;
mod transfers;
mod words;
mod write;

pub use asked::Asked;
pub use fault::{LineError, LineFault};
pub use read::read_letter;
pub use reading::{LONGEST_LINE, read_line, unended_fault};
pub use words::{grain_word, number_word, silo_word};
pub use write::write_letter;
