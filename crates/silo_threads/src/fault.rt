use thiserror::Error;

/// What an accepted event should have had behind it, and lacks (`docs/RULES.md#running-silos`).
#[derive(Clone, Copy, Debug, PartialEq, Eq, Error)]
pub enum Lack {
    /// No thread could be made for the silo that joined. All silos are to stop.
    #[error("no thread could be made for a silo")]
    Thread,
    /// The ring of the new view wasn't published.
    #[error("a ring could not be published")]
    Publication,
}

/// Why an ended cluster can't be closed (`docs/RULES.md#running-silos`).
#[derive(Clone, Copy, Debug, PartialEq, Eq, Error)]
pub enum EndFault {
    /// There was no memory to put the receipts together.
    #[error("out of memory")]
    OutOfMemory,
    /// The board is still shared, though all threads were joined.
    #[error("the board is still shared")]
    StillShared,
}
