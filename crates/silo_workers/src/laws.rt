use crate::{Gate, Site, Tally, Worked};
use cluster_board::{Board, Charter, Job, Names, Prepared};
use cluster_journal::Receipt;
use std::sync::Arc;

fn sends<T: Send>() {}

/// A law: a board may go to another thread.
pub fn boards_cross<L: Charter + Send>() {
    sends::<Board<L>>()
}

/// A law: so may what it lends, and what was prepared of it.
pub fn work_crosses<N: Names + Send>() {
    sends::<Job<N>>();
    sends::<Prepared<N>>()
}

/// A law: so may receipts, what a worker did, and how it ended.
pub fn tallies_cross<L: Charter + Send>() {
    sends::<Receipt>();
    sends::<Tally<L>>();
    sends::<Worked<L>>()
}

/// A law: so may what workers share.
pub fn sites_cross<L: Charter + Send, G: Gate + Drop + Send + Sync>() {
    sends::<Arc<Site<L, G>>>()
}
