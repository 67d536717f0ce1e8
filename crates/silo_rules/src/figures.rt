/// A silo's figures: how far it has seen, what it holds, and how much it waits for (`docs/RULES.md#a-silo-by-itself`).
#[derive(Clone, Copy)]
pub struct Figures {
    /// The version that it has seen.
    pub seen: u64,
    /// The version of the last change that it was told.
    pub known: u64,
    /// How many activations it holds.
    pub held: u64,
    /// How many of these ask to be registered.
    pub asking: u64,
    /// How many of these are closing.
    pub closing: u64,
    /// How many finds are outstanding.
    pub finding: u64,
    /// How many of its own ranges aren't settled.
    pub unsettled: u64,
    /// How many snapshots it keeps for other silos.
    pub kept: u64,
}
