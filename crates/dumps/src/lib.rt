//! Dumps as lists of values: read straight from a text, or from a tree of JSON values with the members of each object in any order;
//! whether such lists are a dump; and dumps, and single nodes, written as one line of JSON. The rules are in
//! `docs/RULES.md#the-dump-and-the-verdict`.
#![tactic(auto)]

mod conjunction;
mod distinct;
mod dump;
mod dump_text;
mod error;
mod lent_grain;
mod member_name;
mod members;
mod mixed;
pub mod named;
mod node_shape;
mod nodes;
mod numbers;
mod piece_shape;
mod plain_text;
mod read_text;
mod shape;
mod straight;
mod tokens;
mod tree;
mod values;
mod words;

pub use distinct::{are_distinct, are_in_order, set_of};
pub use dump::{
    Dump, ListedEntry, ListedHeld, ListedNode, ListedPhase, ListedPiece, ListedPoint, ListedRow,
    ListedState,
};
pub use dump_text::{write_dump, write_node};
pub use error::DumpError;
pub use lent_grain::LentGrain;
pub use mixed::are_distinct_grains;
pub use shape::is_dump;
pub use straight::read_straight;
pub use tree::read_tree;
