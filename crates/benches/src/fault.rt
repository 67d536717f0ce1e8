use hash_ring::RingError;
use lookup_cache::CacheError;
use seal_snapshot::GatheringError;
use silo_address::{GrainError, SiloError};
use std::alloc::{AllocError, AllocFailed};
use std::io;

/// Why nothing could be measured.
#[derive(Clone, Copy, Debug)]
pub(crate) enum Fault {
    /// There is no measure of this name.
    Usage,
    /// There is no clock, there are no words or there is nowhere to print.
    System,
    /// Out of memory.
    Memory,
    /// A text is no silo.
    Silo,
    /// A text is no grain.
    Grain,
    /// There is no ring, or it can't be advanced.
    Ring,
    /// There is no cache.
    Cache,
    /// A page was refused.
    Page,
    /// A cluster refused an event, by this number, or had no memory for it.
    Event(Option<u16>),
    /// Settings, a silo, a node, a view, a snapshot, a page or a range are missing.
    Missing,
}

impl From<io::Error> for Fault {
    fn from(_: io::Error) -> Fault {
        Fault::System
    }
}

impl From<AllocError> for Fault {
    fn from(_: AllocError) -> Fault {
        Fault::Memory
    }
}

// A list that could not grow.
impl<T: Drop> From<AllocFailed<T>> for Fault {
    fn from(_: AllocFailed<T>) -> Fault {
        Fault::Memory
    }
}

impl From<SiloError> for Fault {
    fn from(_: SiloError) -> Fault {
        Fault::Silo
    }
}

impl From<GrainError> for Fault {
    fn from(_: GrainError) -> Fault {
        Fault::Grain
    }
}

impl From<RingError> for Fault {
    fn from(_: RingError) -> Fault {
        Fault::Ring
    }
}

impl From<CacheError> for Fault {
    fn from(_: CacheError) -> Fault {
        Fault::Cache
    }
}

impl From<GatheringError> for Fault {
    fn from(_: GatheringError) -> Fault {
        Fault::Page
    }
}
