//! Tables of entries, in order of their grains' hashes. The rules see a table in the order of its grains. Entries that are listed to stay
//! take little memory.
#![tactic(auto)]

mod alive;
mod hashed_grain;
mod hashed_map;
mod hashed_request;
mod short_entry;
mod table;

pub use alive::is_dead_in;
pub use hashed_request::{HashedRequest, grain_of};
pub use short_entry::{ShortEntry, full_entries, short_entries};
pub use table::Table;
