ghost use Rattle.std.specs.Prelude.{◌≡◌, ◌+◌, ◌<◌, ◌≤◌, fold, length, vec_len, vec_capacity, IfOk, OnOk, OnErr};
ghost use Rattle.directory_rules.specs.Recovery.{with_reported};
ghost use Rattle.range_recovery.specs.Gathered.{without_grains};

use grain_table::Table;
use silo_address::{Entry, GrainId};
use std::alloc::{AllocError, Global};

/// Puts in the entries of a report, each whose grain has none yet: the grains that are new. What was put in is taken out again when
/// memory runs out.
pub(crate) fn gather(
    alloc: Global,
    gathered: &mut Table,
    entries: &[Entry],
) -> Result<Vec<GrainId>, AllocError>
    ensures gathered { OnOk result (gathered.new.entries ≡ fold with_reported gathered.old.entries entries.now) }
    ensures new { IfOk result (λ new. without_grains new.items gathered.new.entries ≡ gathered.old.entries) }
    ensures unchanged { OnErr result (gathered.new.entries ≡ gathered.old.entries) }
{
    let mut new = Vec::with_capacity(alloc, entries.len())?;
    match gather_each(gathered, entries, &mut new) {
        Ok(()) => Ok(new),
        Err(fault) => {
            take_out(gathered, new);
            Err(fault)
        }
    }
}

// Puts in each entry whose grain has none yet, and notes the grains that are new.
fn gather_each(
    gathered: &mut Table,
    entries: &[Entry],
    new: &mut Vec<GrainId>,
) -> Result<(), AllocError>
    requires room { vec_len new.old + length entries.now ≤ vec_capacity new.old }
    ensures gathered { OnOk result (gathered.new.entries ≡ fold with_reported gathered.old.entries entries.now) }
    ensures noted { without_grains new.new.items gathered.new.entries ≡ without_grains new.old.items gathered.old.entries }
{
    for entry in entries {
        gather_one(gathered, entry, new)?;
    }
    Ok(())
}

// Puts in the entry where its grain has none yet, and notes the grain then.
fn gather_one(gathered: &mut Table, entry: &Entry, new: &mut Vec<GrainId>) -> Result<(), AllocError>
    requires { vec_len new.old < vec_capacity new.old }
    ensures gathered { OnOk result (gathered.new.entries ≡ with_reported gathered.old.entries entry.now) }
    ensures noted { without_grains new.new.items gathered.new.entries ≡ without_grains new.old.items gathered.old.entries }
    ensures len { vec_len new.new ≤ vec_len new.old + 1 }
    ensures room { vec_capacity new.old ≤ vec_capacity new.new }
{
    let is_new = gathered.insert_new(entry)?;
    if !is_new {
        return Ok(());
    }
    new.push(entry.grain).unwrap();
    Ok(())
}

/// Takes out grains, from the last one to the first.
pub(crate) fn take_out(gathered: &mut Table, mut grains: Vec<GrainId>)
    ensures { gathered.new.entries ≡ without_grains grains.items gathered.old.entries }
{
    while let Some(grain) = grains.pop() {
        gathered.remove(&grain);
    }
}
