//! Snapshots of what a silo gives up when it sees a version: the shelf on which they are kept for their new owners, the pages
//! in which they are handed over, and what a new owner has gathered of one.
#![tactic(auto)]

mod error;
mod gatherings;
pub mod laws;
mod lines;
mod page;
mod progress;
mod shelf;
mod shelf_answer;
mod short;
mod snapshot;
mod whole;

pub use error::GatheringError;
pub use gatherings::Gathering;
pub use page::Page;
pub use progress::GatheringProgress;
pub use shelf::Shelf;
pub use shelf_answer::ShelfAnswer;
pub use snapshot::Snapshot;
