//! One silo of a cluster: all that it knows, and its steps, each a function of what it knows and of one input; a node that is shared
//! until it changes; and a node as the lists of a dump. The rules are in `docs/RULES.md#the-world`.
#![tactic(auto)]

mod beginnings;
mod change;
mod close;
mod counts;
mod listed;
mod membership;
mod node;
mod nudges;
mod own_steps;
mod pieces;
mod recoveries;
mod replies;
mod requests;
mod sends;
mod shared;
mod sight;
mod sight_change;
mod stated;
mod step;
mod surveys;
mod transfer_changes;
mod transfers;

pub use listed::listed_node;
pub use membership::{ChangeRefusal, Membership};
pub use node::Node;
pub use node_plans::{Change, Input, Plan, Sight, StepRefusal, Transition};
pub use shared::SharedNode;
