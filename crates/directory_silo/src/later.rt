//! Whether the silos of a view let a silo join later (`docs/RULES.md#a-silo-by-itself`).
ghost use Rattle.std.specs.List.{list_all};
ghost use Rattle.std.specs.Prelude.{◌≡◌};
ghost use Rattle.directory_silo.specs.Later.{lets_join};

use directory_rules::Listed;
use silo_address::SiloAddress;

/// Whether no silo that a view lists is this one, or a newer one of its endpoint.
pub(crate) fn all_let_join(own: &SiloAddress, rows: &[Listed]) -> bool
    ensures { result ≡ list_all (λ one. lets_join own.now one.silo) rows.now }
{
    rows.iter().all(|one| lets_join(own, one))
}

// Whether a silo that is listed is of another endpoint, or older.
fn lets_join(own: &SiloAddress, one: &Listed) -> bool
    ensures { result ≡ lets_join own.now one.now.silo }
{
    !own.same_endpoint(&one.silo) || one.silo.generation() < own.generation()
}
