//! Workers: each delivers the letters to one silo of a cluster, in a thread of its own. All share the cluster's board under one
//! lock, and prepare the silos' steps outside it (`docs/RULES.md#running-silos`). A board may go to another thread, and so may what a
//! worker takes with it and what it hands back: laws, and the lemmas by which a thread's closure is proved to be `Send`
//! (`proofs/Sites.antt`, `Closures.antt`).
#![tactic(auto)]

mod cause;
mod gate;
mod laws;
mod site;
mod tally;
mod turn;
mod worker;

pub use cause::{Cause, Ending};
pub use gate::{Gate, OpenGate};
pub use site::Site;
pub use tally::{Tally, Worked};
pub use worker::work;
