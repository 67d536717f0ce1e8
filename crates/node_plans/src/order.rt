//! Entries in the order of their grains, as pages and reports have them (`docs/RULES.md#transfer`).
ghost use Rattle.std.specs.List.{list_all};
ghost use Rattle.std.specs.Prelude.{◌≡◌, ◌∷◌, ◌++◌, [], IfOk, OnOk, fold, true};
ghost use Rattle.silo_address.specs.Silo.{silo_eq};
ghost use Rattle.hash_ring.specs.Hash.{hash_grain};
ghost use Rattle.directory_rules.specs.Standing.{rise_behind};
ghost use Rattle.directory_rules.specs.Table.{is_before_first, lie_in, rise_by_grain, table_of, with_entry};

use directory_rules::Settings;
use grain_table::{ShortEntry, Table};
use hash_ring::Hashing;
use host_activations::stands_behind;
use ring_range::RingRange;
use silo_address::{Entry, GrainId, SiloAddress};
use std::alloc::{AllocError, Global};

/// Whether the entries stand in the order of their grains, each grain once.
pub fn rise_by_grain(entries: &[Entry]) -> bool
    ensures { result ≡ rise_by_grain entries.now }
{
    let mut rest = entries;
    while let Some((entry, behind)) = rest.split_first() {
        if !is_before_first(entry, behind) {
            return false;
        }
        rest = behind;
    }
    true
}

// Whether the entry's grain is below that of the first one.
fn is_before_first(entry: &Entry, entries: &[Entry]) -> bool
    ensures { result ≡ is_before_first entry.now entries.now }
{
    match entries.first() {
        Some(next) => entry.grain < next.grain,
        None => true,
    }
}

/// Whether the entries stand behind that grain in the range, and each behind the one before it; behind none from the range's start on.
pub fn rise_behind(
    hashing: Hashing,
    range: RingRange,
    after: Option<GrainId>,
    entries: &[Entry],
) -> bool
    ensures { result ≡ rise_behind (hash_grain hashing) (range ∷ []) after entries.now }
{
    let mut behind = after;
    let mut rest = entries;
    while let Some((entry, others)) = rest.split_first() {
        if !stands_behind(hashing, &range, behind, entry.grain) {
            return false;
        }
        behind = Some(entry.grain);
        rest = others;
    }
    true
}

/// Whether entries go on in the order of their grains behind those gathered. It asks that these stand in it.
pub fn go_on(gathered: &[ShortEntry], entries: &[Entry]) -> bool
    requires { rise_by_grain gathered.now ≡ true }
    ensures { result ≡ rise_by_grain (gathered.now ++ entries.now) }
{
    if gathered.is_empty() {
        return rise_by_grain(entries);
    }
    let last = gathered[gathered.len() - 1].entry();
    is_before_first(&last, entries) && rise_by_grain(entries)
}

/// The table of entries gathered and of those of the last page. It asks that they stand in the order of their grains. Fails only when
/// memory runs out.
pub fn table_of(
    alloc: Global,
    settings: &Settings,
    gathered: &[ShortEntry],
    entries: &[Entry],
) -> Result<Table, AllocError>
    requires { rise_by_grain (gathered.now ++ entries.now) ≡ true }
    ensures { IfOk result (λ table. table.entries ≡ table_of (gathered.now ++ entries.now)) }
{
    let mut table = Table::new(alloc, settings.hashing());
    put_all_short(&mut table, gathered)?;
    put_all(&mut table, entries)?;
    Ok(table)
}

// The entries are put in, each in place of one of its grain.
fn put_all(table: &mut Table, entries: &[Entry]) -> Result<(), AllocError>
    ensures { OnOk result (table.new ≡ record table.old { entries = fold with_entry table.old.entries entries.now }) }
{
    for entry in entries {
        table.insert(entry)?;
    }
    Ok(())
}

// The same, of entries that are kept short.
fn put_all_short(table: &mut Table, entries: &[ShortEntry]) -> Result<(), AllocError>
    ensures { OnOk result (table.new ≡ record table.old { entries = fold with_entry table.old.entries entries.now }) }
{
    for entry in entries {
        table.insert(&entry.entry())?;
    }
    Ok(())
}

/// Whether the entries are all hashed into the range.
pub fn lie_in(hashing: Hashing, range: RingRange, entries: &[Entry]) -> bool
    ensures { result ≡ lie_in hashing range entries.now }
{
    entries
        .iter()
        .all(|entry| range.contains(hashing.hash_grain(&entry.grain)))
}

/// Whether the entries are all of activations on that silo.
pub fn are_all_of(silo: SiloAddress, entries: &[Entry]) -> bool
    ensures { result ≡ list_all (λ e. silo_eq e.activation.silo silo) entries.now }
{
    entries.iter().all(|entry| entry.activation.silo == silo)
}
