//! The cluster as one value: what happens in it, event by event, by the event rule (`docs/RULES.md#the-world`). What its calls take
//! and give is named here too, so that a user needs no other crate.
#![tactic(auto)]

mod apply;
mod delivery;
mod dumping;
mod join;
mod leave;
mod nodes;
mod post;
mod refusal;
mod rows;
mod run;
mod sight;
mod steps;
mod told;
mod world;

pub use delivery::Undelivered;
pub use directory_letters::{Body, Letter};
pub use directory_node::{Input, Node, Plan, SharedNode};
pub use directory_rules::{
    Effect, Event, Happening, LetterKind, Outcome, OwnStep, Policy, Settings, Span,
};
pub use dumps::Dump;
pub use hash_ring::{Hashing, Places, Point, Ring};
pub use letter_mail::MailedLetter;
pub use membership_view::{Row, Status, View, Views};
pub use refusal::EventRefusal;
pub use silo_address::{ActivationId, Entry, GrainId, SiloAddress};
pub use told::EventResult;
pub use world::World;
