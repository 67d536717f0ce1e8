use directory_letters::Letter;
use directory_rules::{Listed, OwnStep, Policy};
use silo_address::{GrainId, SiloAddress};

/// What a line of a silo's process asks for (`docs/RULES.md#lines-of-a-silos-process`).
#[derive(Drop)]
pub enum Asked<'a> {
    /// The silo is told that this one joined, with the places stated for it, and the version that it made. A token stands in the line: it
    /// says which process is meant.
    Joined {
        version: u64,
        silo: SiloAddress,
        token: Option<&'a [u8]>,
        places: Vec<u32>,
    },
    /// The silo is told that this one began to leave, and the version that it made.
    Leaving {
        version: u64,
        silo: SiloAddress,
    },
    /// The silo is told that this one is Dead, and the version that it made.
    Dead {
        version: u64,
        silo: SiloAddress,
    },
    /// The silo is told the view of a version, in place of all changes up to it.
    Begin {
        version: u64,
        rows: Vec<Listed>,
    },
    /// The silo sees a version.
    See {
        version: u64,
    },
    /// The silo does what its application asks of it.
    Do(OwnStep),
    /// A letter comes, which may be another silo's.
    Receive(Letter),
    /// An answer is asked for, with the word, which stands in the line.
    Ping(&'a [u8]),
    /// The point that owns a grain's hash is printed.
    Owner {
        grain: GrainId,
    },
    /// The silo on which an activation of a grain would begin is printed.
    Place {
        grain: GrainId,
        policy: Policy,
    },
    /// How much the silo has, and how much waits, is printed.
    Figures,
    /// What the silo has is printed.
    Show,
    /// The silo's part of a dump is printed.
    Dump,
}
