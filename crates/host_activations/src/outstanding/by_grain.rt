//! Finds in order of grain.
ghost use Rattle.std.specs.BTreeMap.{insert_entry, is_at};
ghost use Rattle.std.specs.Map.{remove_entry};
ghost use Rattle.std.specs.Prelude.{◌≡◌, MatchOption, OnErr, OnOk};
ghost use Rattle.host_activations.specs.Asked.{find_in};
ghost use Rattle.host_activations.specs.Outstanding.{find_key_cmp, first_of, last_of};

use crate::asked::{OutstandingRequest, find_in};
use silo_address::GrainId;
use std::alloc::AllocError;
use std::collections::BTreeMap;

/// The grain of a find, and the find's number. They are in order of grain, then number.
#[derive(Clone, Copy, PartialEq, Eq, PartialOrd, Ord)]
pub(crate) struct FindKey {
    pub(crate) grain: GrainId,
    pub(crate) number: u64,
}

/// What no find of the grain is below.
pub(super) fn first_of(grain: &GrainId) -> FindKey
    ensures { result ≡ first_of grain.now }
{
    FindKey {
        grain: *grain,
        number: 0,
    }
}

/// What no find of the grain is above.
pub(super) fn last_of(grain: &GrainId) -> FindKey
    ensures { result ≡ last_of grain.now }
{
    FindKey {
        grain: *grain,
        number: u64::MAX,
    }
}

/// The request stands there under its grain and number, if it is a find. Fails only when memory runs out, and then changes nothing.
pub(super) fn put_find(
    finds: &mut BTreeMap<FindKey, ()>,
    number: u64,
    asked: &OutstandingRequest,
) -> Result<(), AllocError>
    ensures put { OnOk result (MatchOption (find_in asked.now) (finds.new.entries ≡ finds.old.entries)
        (λ its. finds.new.entries ≡ insert_entry find_key_cmp finds.old.entries (record { grain = its; number = number }) tt)) }
    ensures unchanged { OnErr result (finds.new.entries ≡ finds.old.entries) }
{
    if let Some(grain) = find_in(*asked) {
        finds.insert(FindKey { grain, number }, ())?;
    }
    Ok(())
}

/// The request stands there no more, if it is a find.
pub(super) fn take_find(finds: &mut BTreeMap<FindKey, ()>, number: u64, asked: &OutstandingRequest)
    ensures { MatchOption (find_in asked.now) (finds.new.entries ≡ finds.old.entries)
        (λ its. finds.new.entries ≡ remove_entry (is_at (find_key_cmp (record { grain = its; number = number }))) finds.old.entries) }
{
    if let Some(grain) = find_in(*asked) {
        finds.remove(&FindKey { grain, number });
    }
}
