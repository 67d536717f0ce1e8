//! Membership of a cluster: which silos joined, in which version of the view, and what became of them.
#![tactic(auto)]

mod endpoint;
pub mod laws;
mod refusal;
mod row;
mod status;
mod view;
mod views;

pub use refusal::ViewsError;
pub use row::Row;
pub use status::Status;
pub use view::View;
pub use views::{Joined, MAX_FIRST, MAX_SILOS, Views};
