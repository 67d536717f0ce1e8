//! What a script comes to that is played with a thread per silo; there are no threads here. The rules are in
//! `docs/RULES.md#threads`.
#![tactic(auto)]

mod ended;

pub use ended::ThreadsEnded;
