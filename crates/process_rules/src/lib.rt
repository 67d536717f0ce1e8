//! The lines that a silo's process reads and those that it writes, as definitions in `specs/`: letters as lines, what each line asks
//! for, each line's answer, and the output as a function of the input's bytes. There is no behaviour here.
#![tactic(auto)]

pub mod laws;
