ghost use Rattle.std.specs.Prelude.{◌≡◌, true};
ghost use Rattle.membership_view.specs.Beginning.{is_known_endpoint};
ghost use Rattle.membership_view.specs.Changes.{is_newest, occupant};
ghost use Rattle.membership_view.specs.Whole.{OlderAreDead};

use crate::Row;
use silo_address::SiloAddress;
use std::collections::BTreeMap;

// In rows by address the silos of one endpoint are neighbours, by generation. So the rows next to where a silo would be inserted
// are all that has to be looked at.

/// Whether every silo of this one's endpoint that has a row has a lower generation.
pub(crate) fn is_newest(rows: &BTreeMap<SiloAddress, Row>, silo: &SiloAddress) -> bool
    ensures { result ≡ is_newest silo.now rows.now.entries }
{
    match rows.range(*silo..).next() {
        Some((next, _)) => !silo.same_endpoint(next),
        None => true,
    }
}

/// The silo of this one's endpoint that is not Dead, if there is one.
pub(crate) fn occupant(rows: &BTreeMap<SiloAddress, Row>, silo: &SiloAddress) -> Option<SiloAddress>
    requires newest { is_newest silo.now rows.now.entries ≡ true }
    requires older_dead { OlderAreDead rows.now.entries }
    ensures { result ≡ occupant silo.now rows.now.entries }
{
    let (last, row) = rows.range(..*silo).next_back()?;
    if silo.same_endpoint(last) && row.dead.is_none() {
        return Some(*last);
    }
    None
}

/// Whether a silo of this one's endpoint has a row.
pub(crate) fn is_known(rows: &BTreeMap<SiloAddress, Row>, silo: &SiloAddress) -> bool
    ensures { result ≡ is_known_endpoint silo.now rows.now.entries }
{
    if !is_newest(rows, silo) {
        return true;
    }
    match rows.range(..*silo).next_back() {
        Some((last, _)) => silo.same_endpoint(last),
        None => false,
    }
}
