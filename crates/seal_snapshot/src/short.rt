//! Lists of entries that are kept short.
ghost use Rattle.std.specs.Prelude.{◌≡◌, ◌↔◌, ◌++◌, IsTrue, OnErr, OnOk};

use grain_table::{ShortEntry, short_entries};
use silo_address::Entry;
use std::alloc::{AllocError, Global};

/// Whether both have the same entries.
pub(crate) fn same_short_entries(one: &[ShortEntry], other: &[ShortEntry]) -> bool
    ensures { IsTrue result ↔ (one.now ≡ other.now) }
{
    *one == *other
}

/// The entries go behind those of the list, kept short. Fails only when memory runs out, and then changes nothing.
pub(crate) fn add_short(
    alloc: Global,
    list: &mut Vec<ShortEntry>,
    entries: &[Entry],
) -> Result<(), AllocError>
    ensures added { OnOk result (list.new.items ≡ list.old.items ++ entries.now) }
    ensures unchanged { OnErr result (list.new.items ≡ list.old.items) }
{
    let mut short = short_entries(alloc, entries)?;
    list.append(&mut short)
}
