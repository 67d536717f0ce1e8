//! The silos that a recovery asks (`docs/RULES.md#recovery`).
ghost use Rattle.std.specs.Map.{keys_of};
ghost use Rattle.std.specs.Prelude.{◌≡◌, IfOk, filter, length, not};
ghost use Rattle.directory_rules.specs.Members.{is_dead_status, members_of};

use membership_view::{Status, View};
use silo_address::SiloAddress;
use std::alloc::{AllocError, Global};

/// How many silos of the view aren't Dead there.
pub fn member_count(view: &View) -> usize
    ensures { result ≡ length (members_of view.now) }
{
    living_count(view.rows())
}

/// The silos of the view that aren't Dead there, by address. Fails only when memory runs out.
pub(crate) fn members(alloc: Global, view: &View) -> Result<Vec<SiloAddress>, AllocError>
    ensures { IfOk result (λ silos. silos.items ≡ members_of view.now) }
{
    living(alloc, view.rows())
}

// The silos of those of the rows that aren't Dead.
fn living(alloc: Global, rows: &[(SiloAddress, Status)]) -> Result<Vec<SiloAddress>, AllocError>
    ensures { IfOk result (λ silos. silos.items ≡ keys_of (filter (λ row. not (is_dead_status row.1)) rows.now)) }
{
    rows.iter()
        .filter(|row| !is_dead(row.1))
        .map(|row| row.0)
        .collect(alloc)
}

// How many of the rows aren't Dead.
fn living_count(rows: &[(SiloAddress, Status)]) -> usize
    ensures { result ≡ length (filter (λ row. not (is_dead_status row.1)) rows.now) }
{
    rows.iter().filter(|row| !is_dead(row.1)).count()
}

// Whether a status is Dead.
fn is_dead(status: Status) -> bool
    ensures { result ≡ is_dead_status status }
{
    match status {
        Status::Dead => true,
        Status::Active | Status::Leaving => false,
    }
}
