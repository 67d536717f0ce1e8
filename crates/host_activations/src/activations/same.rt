//! Whether two hosts' activations are the same.
ghost use Rattle.std.specs.Map.{lookup};
ghost use Rattle.std.specs.Prelude.{◌≡◌, ◌↔◌, IsTrue};
ghost use Rattle.silo_address.specs.Grain.{Grain, grain_eq};

use super::Activations;
use crate::kept::Kept;
use grain_names::GrainMap;

impl Activations {
    /// Whether both have the same activations, which began in the same order, and count on alike.
    pub fn same(&self, other: &Activations) -> bool
        ensures { IsTrue result ↔ (self.now ≡ other.now) }
    {
        self.next_count == other.next_count && same_map(&self.map, &other.map)
    }
}

// Whether both have the same under each grain, in whatever order they keep it.
fn same_map(one: &GrainMap<Kept>, other: &GrainMap<Kept>) -> bool
    ensures { IsTrue result ↔ ((grain : Grain) → lookup (grain_eq grain) one.now ≡ lookup (grain_eq grain) other.now) }
{
    one.same(other)
}
