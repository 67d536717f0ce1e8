//! What holds in every world that a run of the event rule reaches, for the proofs of crates above. There is no code: each
//! function is a law, on the definitions of `directory_rules` and those in `specs/`.
#![tactic(auto)]

pub mod laws;
