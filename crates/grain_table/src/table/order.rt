//! The entries of a table in the order of their grains.
ghost use Rattle.std.specs.Prelude.{◌≡◌, IfOk, map};
ghost use Rattle.directory_rules.specs.Table.{entries_of};
ghost use Rattle.grain_table.specs.Hashed.{entry_under};

use super::Table;
use crate::hashed_map::HashedMap;
use silo_address::Entry;
use std::alloc::{AllocError, Global};

impl Table {
    /// All entries, in the order of their grains, for those to whom they are told: they are sorted. Fails only when memory runs
    /// out.
    pub fn in_order(&self, alloc: Global) -> Result<Vec<Entry>, AllocError>
        ensures { IfOk result (λ entries. entries.items ≡ entries_of self.now.entries) }
    {
        let mut entries = entries_under(alloc, &self.map)?;
        entries.sort_unstable();
        Ok(entries)
    }
}

// The entries, in the order of their hashes.
fn entries_under(alloc: Global, hashed: &HashedMap) -> Result<Vec<Entry>, AllocError>
    ensures { IfOk result (λ entries. entries.items ≡ map entry_under hashed.now) }
{
    let mut entries = Vec::with_capacity(alloc, hashed.len())?;
    'entries: for (key, activation) in hashed.iter() {
        entries.push(Entry {
            grain: key.grain,
            activation,
        })?;
    }
    Ok(entries)
}
