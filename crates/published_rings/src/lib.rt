//! Rings that one thread publishes and others read without waiting: who owns a hash, by the newest view that was published.
#![tactic(auto)]

mod error;
mod log;
mod log_rule;
mod origin;
mod publisher;
mod reader;
mod route;
mod rule;
mod shown;
mod told;

pub use error::RouteError;
pub use publisher::{MOST_READERS, Publisher};
pub use reader::RouteReader;
pub use route::Route;
pub use told::Told;
