//! Whether a history may begin with a view (`docs/RULES.md#a-silo-by-itself`).
ghost use Rattle.std.specs.List.{list_any};
ghost use Rattle.std.specs.Prelude.{◌≡◌, ◌++◌, ◌∷◌, [], Err, IfErr, IsOk, IsSomeAnd, OnOk};
ghost use Rattle.membership_view.specs.View.{shares_endpoint};
ghost use Rattle.directory_rules.specs.ListedModel.{all_listed_of, listed_of};
ghost use Rattle.directory_rules.specs.Membership.{begun};
ghost use Rattle.directory_node.specs.MembershipModel.{change_refusal_number};

use crate::ChangeRefusal;
use crate::stated::may_state_listed;
use directory_rules::{Listed, Settings};
use membership_view::{MAX_FIRST, ViewsError};
use silo_address::SiloAddress;

/// Whether a history may begin with the view of a version that lists these silos: fails as `Membership::begun` does, but that it needs
/// no memory. Costs the square of how many silos are listed.
pub(crate) fn may_begin(
    settings: &Settings,
    version: u64,
    rows: &[Listed],
) -> Result<(), ChangeRefusal>
    ensures begins { OnOk result (IsOk (begun settings.now version (all_listed_of rows.now))) }
    ensures refused { IfErr result (λ refusal. IsSomeAnd (change_refusal_number refusal) (λ number. begun settings.now version (all_listed_of rows.now) ≡ Err number)) }
{
    if version > MAX_FIRST {
        return Err(ChangeRefusal::Views(ViewsError::NotListable));
    }
    for (index, one) in rows.iter().enumerate() {
        may_list_behind(settings, version, &rows[..index], one)?;
    }
    Ok(())
}

// Whether a silo may be listed behind these, none of which is refused.
fn may_list_behind(
    settings: &Settings,
    version: u64,
    front: &[Listed],
    one: &Listed,
) -> Result<(), ChangeRefusal>
    requires { IsOk (begun settings.now version (all_listed_of front.now)) }
    ensures lists { OnOk result (IsOk (begun settings.now version (all_listed_of front.now ++ listed_of one.now ∷ []))) }
    ensures refused { IfErr result (λ refusal. IsSomeAnd (change_refusal_number refusal) (λ number. begun settings.now version (all_listed_of front.now ++ listed_of one.now ∷ []) ≡ Err number)) }
{
    if version == 0 || is_endpoint_listed(front, &one.silo) {
        return Err(ChangeRefusal::Views(ViewsError::NotListable));
    }
    if settings.silos() <= front.len() {
        return Err(ChangeRefusal::Views(ViewsError::RowsFull));
    }
    match may_state_listed(settings, settings.hashing(), one) {
        Ok(()) => Ok(()),
        Err(refusal) => Err(ChangeRefusal::Ring(refusal)),
    }
}

// Whether a silo of this one's endpoint is among these.
fn is_endpoint_listed(listed: &[Listed], silo: &SiloAddress) -> bool
    ensures { result ≡ list_any (λ one. shares_endpoint silo.now one.silo) listed.now }
{
    listed.iter().any(|one| shares_endpoint(silo, one))
}

// Whether the listed silo is of this one's endpoint.
fn shares_endpoint(silo: &SiloAddress, one: &Listed) -> bool
    ensures { result ≡ shares_endpoint silo.now one.now.silo }
{
    silo.same_endpoint(&one.silo)
}
