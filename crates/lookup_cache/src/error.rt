ghost use Rattle.std.specs.Prelude.{◌≡◌};
ghost use Rattle.lookup_cache.specs.Numbers.{cache_error_number};

use thiserror::Error;

/// Why a cache was not made (`docs/RULES.md#refusals-and-their-numbers`).
#[derive(Clone, Copy, Debug, PartialEq, Eq, Error)]
pub enum CacheError {
    /// A cache can't have that capacity.
    #[error("a cache keeps 1 to 65536 hints")]
    Capacity,
    /// There was no memory for the cache.
    #[error("out of memory")]
    OutOfMemory,
}

impl CacheError {
    /// The number of the refusal, 851; out of memory has none.
    pub fn number(self) -> Option<u16>
        ensures { result ≡ cache_error_number self }
    {
        match self {
            CacheError::Capacity => Some(851),
            CacheError::OutOfMemory => None,
        }
    }
}
