//! Silos' processes as a whole: lines in, lines out, and any transport between them. Their silos are those of a deployment, so the
//! headline holds of them. There is no code: each function is a law, on the definitions in `specs/`.
#![tactic(auto)]

pub mod laws;
pub mod sayable;
pub mod wrong;
