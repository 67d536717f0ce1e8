//! The mail: the letters that were sent and aren't lost, each of them kept short, and the least fresh one to a silo
//! (`docs/RULES.md#letters`).
#![tactic(auto)]

mod keep;
mod kept;
mod mail;
mod mailed;
mod passed;
mod queue;
mod queues;
mod slot_changes;
mod slots;

pub use mail::Mail;
pub use mailed::MailedLetter;
