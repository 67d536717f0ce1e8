//! The event rule of the directory: what every event does, as definitions in `specs/`, and the plain data that rule and
//! code share. There is no behaviour here.
#![tactic(auto)]

mod act;
mod effect;
mod event;
mod held;
pub mod laws;
mod letter_kind;
mod listed;
mod outcome;
mod own_step;
mod piece_state;
mod policy;
mod reply;
mod settings;

pub use act::{Act, Request};
pub use effect::Effect;
pub use event::Event;
pub use held::{Held, Phase};
pub use letter_kind::LetterKind;
pub use listed::Listed;
pub use outcome::{Happening, Outcome, Span};
pub use own_step::OwnStep;
pub use piece_state::PieceState;
pub use policy::Policy;
pub use reply::{Reply, Why};
pub use settings::Settings;
