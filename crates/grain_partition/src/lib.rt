//! What one silo keeps for others: its pieces of the directory, each a range of hashes with its state and its entries, and
//! how requests are answered from them. What its calls take and give is named here too, so that a user needs no other crate.
#![tactic(auto)]

mod by_silo;
mod count;
mod entries;
mod holdings;
mod kept_pieces;
mod listed;
mod own_arcs;
mod piece;
mod seals;
mod search;
mod seen;
mod served;
mod settled;
mod sight;
mod unsettled;

pub use by_silo::ArcsBySilo;
pub use directory_rules::{Act, PieceState, Reply, Request, Why};
pub use grain_table::{HashedRequest, Table};
pub use holdings::Holding;
pub use piece::Piece;
pub use range_moves::RingArc;
pub use seal_snapshot::Snapshot;
