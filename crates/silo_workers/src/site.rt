use crate::Gate;
use cluster_board::{Board, Charter};
use std::sync::{Condvar, Mutex};

/// What all workers share: the board under its lock, the bell that rings whenever the board has changed, and the gate.
#[derive(Drop)]
pub struct Site<L: Charter, G: Gate + Drop> {
    pub board: Mutex<Board<L>>,
    pub bell: Condvar,
    pub gate: G,
}

impl<L: Charter, G: Gate + Drop> Site<L, G> {
    /// A board that is shared from now on.
    pub fn new(board: Board<L>, gate: G) -> Site<L, G> {
        Site {
            board: Mutex::new(board),
            bell: Condvar::new(),
            gate,
        }
    }
}
