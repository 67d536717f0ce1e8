use membership_view::Status;
use silo_address::SiloAddress;

/// A silo as a view lists it (`docs/RULES.md#a-silo-by-itself`).
#[derive(Drop)]
pub struct Listed {
    pub silo: SiloAddress,
    /// What it is in the view.
    pub status: Status,
    /// The places that were stated for it when it joined. None where places are hashed, or where it is Dead.
    pub places: Vec<u32>,
}
