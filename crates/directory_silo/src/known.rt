//! Which change made a version, as the views and places tell it (`docs/RULES.md#a-silo-by-itself`).
ghost use Rattle.std.specs.Prelude.{◌≡◌, ◌==◌};
ghost use Rattle.hash_ring.specs.Places.{places_of};
ghost use Rattle.membership_view.specs.Row.{is_made_in};
ghost use Rattle.silo_rules.specs.Known.{are_these, is_before, is_known, is_of_join, were_stated};
ghost use Rattle.directory_rules.specs.Membership.{Join, Leave, Die};

use directory_node::Membership;
use hash_ring::{Hashing, Places};
use membership_view::Views;
use silo_address::SiloAddress;

/// Whether the version was told by the view with which the silo began, so that it isn't known what made it.
pub(crate) fn is_before(membership: &Membership, version: u64) -> bool
    ensures { result ≡ is_before membership.now version }
{
    version > 0 && version <= membership.views().first()
}

/// Whether the silo joined in that version, with these places.
pub(crate) fn is_known_join(
    membership: &Membership,
    version: u64,
    silo: &SiloAddress,
    stated: &[u32],
) -> bool
    ensures { result ≡ is_known membership.now version (Join silo.now stated.now) }
{
    is_made_in(version, membership.views().joined_at(silo))
        && were_stated(membership.places(), silo, stated)
}

/// Whether the silo began to leave in that version.
pub(crate) fn is_known_leave(membership: &Membership, version: u64, silo: &SiloAddress) -> bool
    ensures { result ≡ is_known membership.now version (Leave silo.now) }
{
    is_made_in(version, membership.views().left_at(silo))
}

/// Whether the silo died in that version, and not by the join of another one.
pub(crate) fn is_known_death(membership: &Membership, version: u64, silo: &SiloAddress) -> bool
    ensures { result ≡ is_known membership.now version (Die silo.now) }
{
    is_made_in(version, membership.views().dead_at(silo))
        && !is_of_join(membership.views(), version)
}

// Whether that version is the one in which it was made, if it was.
fn is_made_in(version: u64, made: Option<u64>) -> bool
    ensures { result ≡ is_made_in version made }
{
    match made {
        Some(made) => made == version,
        None => false,
    }
}

// Whether some silo joined in the version.
fn is_of_join(views: &Views, version: u64) -> bool
    ensures { result ≡ is_of_join views.now version }
{
    views.rows().any(|(_, row)| row.joined == version)
}

// Whether these places were stated when the silo joined.
fn were_stated(places: &Places, silo: &SiloAddress, stated: &[u32]) -> bool
    ensures { result ≡ were_stated places.now.hashing places.now silo.now stated.now }
{
    match places.hashing() {
        Hashing::Sha256 => stated.is_empty(),
        Hashing::Stated => are_these(places, silo, stated),
    }
}

// Whether these are the silo's places.
fn are_these(places: &Places, silo: &SiloAddress, stated: &[u32]) -> bool
    ensures { result ≡ are_these (places_of places.now silo.now) stated.now }
{
    match places.of(silo) {
        Some(list) => list == stated,
        None => false,
    }
}
