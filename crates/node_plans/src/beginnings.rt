//! What pieces that wait begin with: one that awaits a snapshot gathers anew, and one that recovers awaits all reports.
ghost use Rattle.std.specs.Prelude.{◌≡◌, if◌then◌else◌, IfOk, OnOk};
ghost use Rattle.std.specs.BTreeMap.{insert_entry};
ghost use Rattle.std.specs.Ordering.{nat_cmp};
ghost use Rattle.directory_rules.specs.Gatherings.{new_gathering};
ghost use Rattle.directory_rules.specs.Recovery.{new_recovery};
ghost use Rattle.directory_rules.specs.Step.{new_gatherings, new_recoveries};
ghost use Rattle.directory_rules.specs.Transfer.{is_recovering};
ghost use Rattle.grain_partition.specs.Holdings.{ArePieces};
ghost use Rattle.node_plans.specs.Beginnings.{is_awaiting};

use crate::states::{is_awaiting, is_recovering};
use directory_rules::Settings;
use grain_partition::Piece;
use membership_view::View;
use range_recovery::Recovery;
use seal_snapshot::Gathering;
use std::alloc::{AllocError, Global};
use std::collections::BTreeMap;

/// What pieces wait by at first: the gatherings of those that await a snapshot, and the recoveries of those that recover, each under
/// its piece's start. It asks that they are pieces, each under its start, as those that a sight makes. Fails only when memory runs
/// out (`docs/RULES.md#transfer`).
pub fn new_waits(
    alloc: Global,
    settings: &Settings,
    view: &View,
    pieces: &BTreeMap<u32, Piece>,
) -> Result<(BTreeMap<u32, Gathering>, BTreeMap<u32, Recovery>), AllocError>
    requires { ArePieces pieces.now.entries }
    ensures gatherings { IfOk result (λ waits. waits.0.entries ≡ new_gatherings view.now pieces.now.entries) }
    ensures recoveries { IfOk result (λ waits. waits.1.entries ≡ new_recoveries view.now pieces.now.entries) }
{
    let gatherings = new_gatherings(alloc, view, pieces)?;
    let recoveries = new_recoveries(alloc, settings, view, pieces)?;
    Ok((gatherings, recoveries))
}

// The gatherings of the pieces that await a snapshot.
fn new_gatherings(
    alloc: Global,
    view: &View,
    pieces: &BTreeMap<u32, Piece>,
) -> Result<BTreeMap<u32, Gathering>, AllocError>
    requires { ArePieces pieces.now.entries }
    ensures { IfOk result (λ gatherings. gatherings.entries ≡ new_gatherings view.now pieces.now.entries) }
{
    let mut gatherings = BTreeMap::new(alloc);
    for (start, piece) in pieces {
        put_gathering(alloc, &mut gatherings, view, *start, piece)?;
    }
    Ok(gatherings)
}

// The recoveries of the pieces that recover.
fn new_recoveries(
    alloc: Global,
    settings: &Settings,
    view: &View,
    pieces: &BTreeMap<u32, Piece>,
) -> Result<BTreeMap<u32, Recovery>, AllocError>
    requires { ArePieces pieces.now.entries }
    ensures { IfOk result (λ recoveries. recoveries.entries ≡ new_recoveries view.now pieces.now.entries) }
{
    let mut recoveries = BTreeMap::new(alloc);
    for (start, piece) in pieces {
        put_recovery(alloc, &mut recoveries, settings, view, *start, piece)?;
    }
    Ok(recoveries)
}

// If the piece awaits a snapshot, its gathering stands under the start.
fn put_gathering(
    alloc: Global,
    gatherings: &mut BTreeMap<u32, Gathering>,
    view: &View,
    start: u32,
    piece: &Piece,
) -> Result<(), AllocError>
    ensures { OnOk result (gatherings.new.entries ≡ (if is_awaiting piece.now.state then insert_entry nat_cmp gatherings.old.entries start (new_gathering view.now.version piece.now.range) else gatherings.old.entries)) }
{
    if !is_awaiting(piece.state()) {
        return Ok(());
    }
    let gathering = Gathering::new(alloc, view.version(), piece.range());
    drop(gatherings.insert(start, gathering)?);
    Ok(())
}

// If the piece recovers, its recovery stands under the start.
fn put_recovery(
    alloc: Global,
    recoveries: &mut BTreeMap<u32, Recovery>,
    settings: &Settings,
    view: &View,
    start: u32,
    piece: &Piece,
) -> Result<(), AllocError>
    ensures { OnOk result (recoveries.new.entries ≡ (if is_recovering piece.now.state then insert_entry nat_cmp recoveries.old.entries start (new_recovery view.now piece.now.range) else recoveries.old.entries)) }
{
    if !is_recovering(piece.state()) {
        return Ok(());
    }
    let recovery = Recovery::new(alloc, settings, view, piece.range())?;
    drop(recoveries.insert(start, recovery)?);
    Ok(())
}
