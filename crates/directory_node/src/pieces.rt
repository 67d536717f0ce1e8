//! The pieces that a silo keeps.
ghost use Rattle.std.specs.Prelude.{◌≡◌, IfOk, map};
ghost use Rattle.directory_rules.specs.Table.{entries_of};
ghost use Rattle.dump_rules.specs.Dump.{awaited_from, dump_piece, dump_state};
ghost use Rattle.dumps.specs.DumpModel.{state_of};

use directory_rules::PieceState;
use dumps::{LentGrain, ListedEntry, ListedPiece, ListedState};
use grain_partition::{Holding, Piece};
use grain_table::Table;
use silo_address::{Entry, SiloAddress};
use std::alloc::{AllocError, Global};

/// The pieces, by start, each with its entries in the order of their grains.
pub(crate) fn pieces(
    alloc: Global,
    holding: &Holding,
) -> Result<Vec<ListedPiece<'static>>, AllocError>
    ensures { IfOk result (λ pieces. pieces.items ≡ map (λ e. dump_piece e.1) holding.now.pieces) }
{
    let mut pieces = Vec::new(alloc);
    for (_, piece) in holding.pieces() {
        let piece = dumped(alloc, piece)?;
        pieces.push(piece)?;
    }
    Ok(pieces)
}

fn dumped(alloc: Global, piece: &Piece) -> Result<ListedPiece<'static>, AllocError>
    ensures { IfOk result (λ dumped. dumped ≡ dump_piece piece.now) }
{
    let entries = entries(alloc, piece.entries())?;
    Ok(ListedPiece {
        entries,
        from: awaited(&piece.state()),
        range: piece.range(),
        state: state(&piece.state()),
    })
}

// The entries, in the order of their grains.
fn entries(alloc: Global, table: &Table) -> Result<Vec<ListedEntry<'static>>, AllocError>
    ensures { IfOk result (λ entries. entries.items ≡ entries_of table.now.entries) }
{
    let entries = table.in_order(alloc)?;
    let mut listed = Vec::with_capacity(alloc, entries.len())?;
    for entry in &entries {
        let entry = dumped_entry(alloc, entry)?;
        listed.push(entry)?;
    }
    Ok(listed)
}

fn dumped_entry(alloc: Global, entry: &Entry) -> Result<ListedEntry<'static>, AllocError>
    ensures { IfOk result (λ dumped. dumped ≡ entry.now) }
{
    let grain = LentGrain::owned(alloc, &entry.grain)?;
    Ok(ListedEntry {
        grain,
        activation: entry.activation,
    })
}

// The silo from which the entries are awaited.
fn awaited(state: &PieceState) -> Option<SiloAddress>
    ensures { result ≡ awaited_from state.now }
{
    match state {
        PieceState::Awaiting(from) => Some(*from),
        PieceState::Settled | PieceState::Recovering => None,
    }
}

fn state(state: &PieceState) -> ListedState
    ensures { state_of result ≡ dump_state state.now }
{
    match state {
        PieceState::Settled => ListedState::Settled,
        PieceState::Awaiting(_) => ListedState::Awaiting,
        PieceState::Recovering => ListedState::Recovering,
    }
}
