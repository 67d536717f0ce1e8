//! A checker of dumps that shares no code with the directory but identities, ranges, hashes and their texts: dumps read from bytes, written,
//! and judged. The verdict is that rings, pieces and entries are as they must be, or the first fault. The rules are in
//! `docs/RULES.md#the-dump-and-the-verdict`.
#![tactic(auto)]

mod alive;
mod check_fault;
mod cover;
mod current;
mod entered;
mod entries;
mod firm;
mod first_fault;
mod index;
mod least;
mod nodes;
mod owners;
mod ranges;
mod read;
mod rings;
mod strangers;
mod text;
mod two_firm;

pub use check_fault::CheckFault;
pub use dumps::{
    Dump, DumpError, LentGrain, ListedEntry, ListedHeld, ListedNode, ListedPhase, ListedPiece,
    ListedPoint, ListedRow, ListedState, is_dump, write_dump, write_node,
};
pub use first_fault::check;
pub use read::read_dump;
pub use text::verdict_text;
