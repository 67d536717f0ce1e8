//! The headline, of the event rule: every event is a list of actions of the abstract protocol, so what the protocol keeps
//! holds after any list of events. There is no code: each function is a law, on the definitions of `directory_rules` and
//! those in `specs/`.
#![tactic(auto)]

pub mod laws;
