//! The journal of a cluster: the events that it accepted, in order, each with what it told; and the receipts of those who posted
//! them, which are compared with it at the end (`docs/RULES.md#the-board`). What was seen of a journal is a beginning of it for ever:
//! that is known by a log in proofs alone, of which a keeper knows all, and whoever has a front of it a beginning.
#![tactic(auto)]

mod agreement;
mod comparison;
mod entry;
mod log;
mod log_rule;
mod refusal;
mod short;
mod stepped;

pub use agreement::agree;
pub use comparison::compare;
pub use entry::{Draft, JournalEntry, Receipt};
pub use log::{Front, Keeper, LogName, NewLog};
pub use refusal::CloseRefusal;
