//! Dumps: a world told as plain lists and as the text of these, how the bytes of one are read, and the verdict on it, as
//! definitions in `specs/`. There is no behaviour here.
#![tactic(auto)]

pub mod laws;
pub mod worked_texts;
