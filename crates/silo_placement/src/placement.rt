ghost use Rattle.std.specs.List.{slice_get};
ghost use Rattle.std.specs.Prelude.{◌≡◌, ◌↔◌, [], length, if◌then◌else◌, Some, IsNone, IfSome, IsTrue};
ghost use Rattle.directory_rules.specs.Placement.{by_least, count_of, silo_for};
ghost use Rattle.hash_ring.specs.Ring.{is_active_in};
ghost use Rattle.membership_view.specs.View.{active_silos};
ghost use Rattle.silo_placement.specs.Rows.{active_of, hashed_in, lesser_of};

use directory_rules::Policy;
use membership_view::{Status, View};
use silo_address::SiloAddress;
use std::collections::BTreeMap;

/// The silo that the policy chooses for a new activation (`docs/RULES.md#placement`), by the view and the silo that ask, the grain's
/// hash, and how many activations silos hold; a silo that `counts` doesn't name holds 0. `None` exactly if no silo is Active.
pub fn silo_for(
    policy: Policy,
    view: &View,
    local: &SiloAddress,
    hash: u32,
    counts: &BTreeMap<SiloAddress, u64>,
) -> Option<SiloAddress>
    ensures chosen { result ≡ silo_for policy view.now local.now hash counts.now.entries }
    ensures none { IsNone result ↔ (active_silos view.now ≡ []) }
    ensures active { IfSome result (λ silo. IsTrue (is_active_in view.now silo)) }
{
    view.in_order();
    chosen_by(policy, view, local, hash, counts)
}

// The silo that the policy chooses.
fn chosen_by(
    policy: Policy,
    view: &View,
    local: &SiloAddress,
    hash: u32,
    counts: &BTreeMap<SiloAddress, u64>,
) -> Option<SiloAddress>
    ensures { result ≡ silo_for policy view.now local.now hash counts.now.entries }
{
    match policy {
        Policy::PreferLocal => local_or_by_hash(view, local, hash),
        Policy::HashBased => by_hash(view.rows(), hash),
        Policy::LeastHeld => by_least(view.rows(), counts),
    }
}

// The silo that asks, if it is Active, and otherwise the one by hash.
fn local_or_by_hash(view: &View, local: &SiloAddress, hash: u32) -> Option<SiloAddress>
    ensures { result ≡ (if is_active_in view.now local.now then Some local.now else hashed_in view.now.rows hash) }
{
    if is_active_in(view, local) {
        Some(*local)
    } else {
        by_hash(view.rows(), hash)
    }
}

// Whether the silo is Active in the view.
fn is_active_in(view: &View, silo: &SiloAddress) -> bool
    ensures { result ≡ is_active_in view.now silo.now }
{
    match view.status(silo) {
        Some(status) => status.is_active(),
        None => false,
    }
}

// Of the Active silos, by address, the one at the hash modulo their number.
fn by_hash(rows: &[(SiloAddress, Status)], hash: u32) -> Option<SiloAddress>
    ensures { result ≡ hashed_in rows.now hash }
{
    let count = active_count(rows);
    if count == 0 {
        return None;
    }
    active_at(rows, hash as usize % count)
}

// How many silos are Active.
fn active_count(rows: &[(SiloAddress, Status)]) -> usize
    ensures { result ≡ length (active_of rows.now) }
{
    let mut count = 0;
    for row in rows {
        if row.1.is_active() {
            count += 1;
        }
    }
    count
}

// The Active silo at the index among them, by address.
fn active_at(rows: &[(SiloAddress, Status)], index: usize) -> Option<SiloAddress>
    ensures { result ≡ slice_get (active_of rows.now) index }
{
    let mut before = index;
    for row in rows {
        if row.1.is_active() {
            if before == 0 {
                return Some(row.0);
            }
            before -= 1;
        }
    }
    None
}

// The Active silo with the fewest activations, and of several the first.
fn by_least(
    rows: &[(SiloAddress, Status)],
    counts: &BTreeMap<SiloAddress, u64>,
) -> Option<SiloAddress>
    ensures { result ≡ by_least counts.now.entries (active_of rows.now) }
{
    let mut least = None;
    for row in rows {
        if row.1.is_active() {
            least = Some(lesser_of(counts, least, row.0));
        }
    }
    least
}

// The first silo, unless there is none or the second has fewer activations.
fn lesser_of(
    counts: &BTreeMap<SiloAddress, u64>,
    first: Option<SiloAddress>,
    second: SiloAddress,
) -> SiloAddress
    ensures { Some result ≡ lesser_of counts.now.entries first (Some second) }
{
    match first {
        Some(first) if count_of(counts, &first) <= count_of(counts, &second) => first,
        _ => second,
    }
}

// How many activations the silo has, 0 where that isn't said.
fn count_of(counts: &BTreeMap<SiloAddress, u64>, silo: &SiloAddress) -> u64
    ensures { result ≡ count_of counts.now.entries silo.now }
{
    counts.get(silo).copied().unwrap_or(0)
}
