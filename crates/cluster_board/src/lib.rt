//! The board: what the threads of a cluster's silos share under one lock. A silo's step is prepared outside the lock, from work
//! that the board lends, and committed under it. By a mark of a node whoever commits sees at once that the node is as it was lent,
//! however large it is. The rules are in `docs/RULES.md#the-board`.
#![tactic(auto)]

mod board;
mod commit;
mod hand;
mod lend;
mod mark;
mod mark_maker;
mod marks;
mod post;
mod refusal;
mod slots;
mod work;

pub use board::Board;
pub use commit::Uncommitted;
pub use hand::{Charter, Dismissal, Hand, Tokens};
pub use mark::{Mark, Names};
pub use mark_maker::Marks;
pub use refusal::CommitRefusal;
pub use slots::{AnyValue, Blocks, Slot, Slots};
pub use work::{Job, Prepared};
