use silo_address::SiloAddress;

/// A silo that is asked for its report.
#[derive(Clone, Copy, PartialEq, Eq)]
pub(crate) struct Awaited {
    pub(crate) silo: SiloAddress,
    /// Whether its report has been taken.
    pub(crate) has_reported: bool,
}
