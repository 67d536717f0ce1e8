//! How many places may be stated for a silo (`docs/RULES.md#points`).
ghost use Rattle.std.specs.Prelude.{◌≡◌, ◌==◌, IfErr, IsSomeAnd, None, OnErr, OnOk, Some, false, length, true};
ghost use Rattle.hash_ring.specs.Numbers.{ring_error_number};
ghost use Rattle.directory_rules.specs.ListedModel.{listed_of};
ghost use Rattle.directory_node.specs.MembershipModel.{count_refused, count_refused_by};

use directory_rules::{Listed, Settings};
use hash_ring::{Hashing, RingError};
use membership_view::Status;

/// Whether so many places may be stated for a silo that joins, where silos are hashed so: 402, 403.
pub(crate) fn may_state(
    settings: &Settings,
    hashing: Hashing,
    stated: &[u32],
) -> Result<(), RingError>
    ensures fit { OnOk result (count_refused settings.now hashing (length stated.now) ≡ None) }
    ensures refused { IfErr result (λ refusal. IsSomeAnd (ring_error_number refusal) (λ number. count_refused settings.now hashing (length stated.now) ≡ Some number)) }
{
    settings.in_range();
    let is_hashed = hashing == Hashing::Sha256;
    if stated.len() > settings.places() || is_hashed && !stated.is_empty() {
        return Err(RingError::PointCount);
    }
    if !is_hashed && stated.is_empty() {
        return Err(RingError::PointsMissing);
    }
    Ok(())
}

/// Whether so many may be stated for a silo that a view lists, by its status there: for one that is Dead none.
pub(crate) fn may_state_listed(
    settings: &Settings,
    hashing: Hashing,
    one: &Listed,
) -> Result<(), RingError>
    ensures fit { OnOk result (count_refused_by one.now.status settings.now hashing (length (listed_of one.now).places) ≡ None) }
    ensures refused { IfErr result (λ refusal. IsSomeAnd (ring_error_number refusal) (λ number. count_refused_by one.now.status settings.now hashing (length (listed_of one.now).places) ≡ Some number)) }
{
    match one.status {
        Status::Active => may_state(settings, hashing, &one.places),
        Status::Leaving => may_state(settings, hashing, &one.places),
        Status::Dead => may_state_none(&one.places),
    }
}

/// Whether none are stated: 402.
pub(crate) fn may_state_none(stated: &[u32]) -> Result<(), RingError>
    ensures none { OnOk result ((length stated.now == 0) ≡ true) }
    ensures some { OnErr result ((length stated.now == 0) ≡ false) }
    ensures only { IfErr result (λ refusal. refusal ≡ RingError.PointCount) }
{
    if !stated.is_empty() {
        return Err(RingError::PointCount);
    }
    Ok(())
}
