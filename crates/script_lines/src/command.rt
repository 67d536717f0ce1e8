use directory_rules::{Event, Policy};
use silo_address::{GrainId, SiloAddress};

/// What a line of a script asks for (`docs/RULES.md#scripts`).
#[derive(Drop)]
pub enum Command {
    /// An event of the cluster.
    Happen(Event),
    /// Each silo that isn't Dead sees the versions that it hasn't.
    Sync,
    /// Fresh letters are delivered until there is none.
    Settle,
    /// The owner of a hash in the current view is printed.
    Owner {
        hash: u32,
    },
    /// Where the silo would place the grain is printed.
    Place {
        silo: SiloAddress,
        policy: Policy,
        grain: GrainId,
    },
    /// The directory is printed.
    Show,
    /// The mail is printed.
    Mail,
    /// The cluster's dump is printed.
    Dump,
    /// The cluster's dump is judged, and the verdict printed.
    Check,
}
