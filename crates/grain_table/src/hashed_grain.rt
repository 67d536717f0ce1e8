ghost use Rattle.std.specs.Prelude.{◌≡◌, ◌↔◌, IsTrue};
ghost use Rattle.grain_table.specs.Hashed.{IsKeyOf, key_of};

use hash_ring::Hashing;
use silo_address::GrainId;

/// A grain with its hash.
#[derive(Clone, Copy)]
pub(crate) struct HashedGrain {
    pub(crate) hash: u32,
    pub(crate) grain: GrainId,
}

/// The grain with its hash.
pub(crate) fn key_of(hashing: Hashing, grain: &GrainId) -> HashedGrain
    ensures value { result ≡ key_of hashing grain.now }
    ensures key { IsKeyOf hashing result }
{
    grain.in_range();
    HashedGrain {
        hash: hashing.hash_grain(grain),
        grain: *grain,
    }
}

impl HashedGrain {
    /// Whether both are the same grain, with the same hash.
    pub(crate) fn same(&self, other: &HashedGrain) -> bool
        ensures { IsTrue result ↔ (self.now ≡ other.now) }
    {
        if self.hash != other.hash {
            return false;
        }
        self.grain.same(&other.grain)
    }
}
