//! How one silo of a deployment gets on, whatever its letters go through, once no change of membership is decided any more and each
//! process has seen the last one. There is no code: each function is a law, on the definitions in `specs/`.
#![tactic(auto)]

pub mod laws;
