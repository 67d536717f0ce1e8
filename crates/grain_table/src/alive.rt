ghost use Rattle.std.specs.Prelude.{◌≡◌};
ghost use Rattle.directory_rules.specs.Members.{is_dead_in};

use membership_view::{Status, View};
use silo_address::SiloAddress;

/// Whether the silo is Dead in the view.
pub fn is_dead_in(view: &View, silo: &SiloAddress) -> bool
    ensures { result ≡ is_dead_in view.now silo.now }
{
    match view.status(silo) {
        Some(Status::Dead) => true,
        Some(Status::Active | Status::Leaving) | None => false,
    }
}
