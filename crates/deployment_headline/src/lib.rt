//! Deployments: silos as processes of their own, with any transport between them. What they do, some list of events of the rule does
//! too, so the headline holds of them. There is no code: each function is a law, on the definitions in `specs/`.
#![tactic(auto)]

pub mod laws;
pub mod wrong;
