//! A sight: the pieces of the arcs that the silo owns in a newer view. A piece that has all of an arc, and begins where it does,
//! keeps its table.
ghost use Rattle.std.specs.Prelude.{◌≡◌, IfOk, OnOk, OnErr};
ghost use Rattle.std.specs.BTreeMap.{insert_entry};
ghost use Rattle.std.specs.Ordering.{nat_cmp};
ghost use Rattle.directory_rules.specs.Sight.{is_owner, missing_state, piece_of, pieces_after};
ghost use Rattle.grain_partition.specs.Holdings.{ArePieces, are_tidy};
ghost use Rattle.grain_partition.specs.Sight.{AreApart};
ghost use Rattle.grain_partition.specs.Kept.{piece_made, pieces_made};

use crate::Piece;
use crate::entries::kept_entries;
use crate::kept_pieces::{are_tidy, put_all_back, stays};
use crate::settled::are_settled;
use directory_rules::PieceState;
use grain_table::{Table, is_dead_in};
use hash_ring::Hashing;
use membership_view::View;
use range_moves::RingArc;
use silo_address::SiloAddress;
use std::alloc::{AllocError, Global};
use std::collections::BTreeMap;
use std::mem;

/// The pieces become those after the sight of the view. First the new ones are made, which needs memory, without the entries
/// of those that stay; then these are put back. Fails only when memory runs out, and then changes nothing.
pub(crate) fn sight(
    alloc: Global,
    pieces: &mut BTreeMap<u32, Piece>,
    next: bool,
    hashing: Hashing,
    view: &View,
    silo: &SiloAddress,
    arcs: &[RingArc],
) -> Result<(), AllocError>
    requires pieces { ArePieces pieces.old.entries }
    requires arcs { AreApart arcs.now }
    ensures after { OnOk result (pieces.new.entries ≡ pieces_after next hashing view.now silo.now pieces.old.entries arcs.now) }
    ensures unchanged { OnErr result (pieces.new.entries ≡ pieces.old.entries) }
{
    let tidy = are_tidy(hashing, pieces);
    let after = pieces_made(alloc, pieces, tidy, next, hashing, view, silo, arcs)?;
    let before = mem::replace(pieces, after);
    if tidy {
        put_all_back(pieces, before, hashing, view);
    }
    Ok(())
}

// The pieces of the arcs that the silo owns in the view.
fn pieces_made(
    alloc: Global,
    pieces: &BTreeMap<u32, Piece>,
    tidy: bool,
    next: bool,
    hashing: Hashing,
    view: &View,
    silo: &SiloAddress,
    arcs: &[RingArc],
) -> Result<BTreeMap<u32, Piece>, AllocError>
    requires pieces { ArePieces pieces.now.entries }
    requires tidy { tidy ≡ are_tidy hashing pieces.now.entries }
    requires arcs { AreApart arcs.now }
    ensures { IfOk result (λ made. made.entries ≡ pieces_made tidy next hashing view.now silo.now pieces.now.entries arcs.now) }
{
    let mut made = BTreeMap::new(alloc);
    'arcs: for arc in arcs {
        if !is_owner(silo, arc.to) {
            continue;
        }
        let piece = piece_made(alloc, pieces, tidy, next, hashing, view, silo, arc)?;
        put(&mut made, piece)?;
    }
    Ok(made)
}

// The piece of an arc that the silo owns in the view, without its entries where a piece stays as this one: it gets them once
// nothing more needs memory. Pieces that aren't tidy have entries in each other's ranges, so that none of them stays; only by
// hand can such be made.
fn piece_made(
    alloc: Global,
    pieces: &BTreeMap<u32, Piece>,
    tidy: bool,
    next: bool,
    hashing: Hashing,
    view: &View,
    silo: &SiloAddress,
    arc: &RingArc,
) -> Result<Piece, AllocError>
    requires pieces { ArePieces pieces.now.entries }
    requires tidy { tidy ≡ are_tidy hashing pieces.now.entries }
    ensures { IfOk result (λ piece. piece ≡ piece_made tidy next hashing view.now silo.now pieces.now.entries arc.now) }
{
    if tidy && stays(pieces, &arc.range) {
        return Ok(Piece::settled(arc.range, Table::new(alloc, hashing)));
    }
    piece_of(alloc, pieces, tidy, next, hashing, view, silo, arc)
}

// The piece of an arc that the silo owns in the view: it stays settled where it was, and then has its entries from those that
// the pieces before have in its range.
fn piece_of(
    alloc: Global,
    pieces: &BTreeMap<u32, Piece>,
    tidy: bool,
    next: bool,
    hashing: Hashing,
    view: &View,
    silo: &SiloAddress,
    arc: &RingArc,
) -> Result<Piece, AllocError>
    requires pieces { ArePieces pieces.now.entries }
    requires tidy { tidy ≡ are_tidy hashing pieces.now.entries }
    ensures { IfOk result (λ piece. piece ≡ piece_of next hashing view.now silo.now pieces.now.entries arc.now) }
{
    if are_settled(pieces, &arc.range) {
        let entries = kept_entries(alloc, pieces, tidy, hashing, view, &arc.range)?;
        return Ok(Piece::settled(arc.range, entries));
    }
    let state = missing_state(next, view, silo, arc.from);
    Ok(Piece::bare(alloc, hashing, arc.range, state))
}

/// The piece stands under its start.
pub(crate) fn put(pieces: &mut BTreeMap<u32, Piece>, piece: Piece) -> Result<(), AllocError>
    ensures { OnOk result (pieces.new.entries ≡ insert_entry nat_cmp pieces.old.entries piece.range.start piece) }
{
    let start = piece.range().start();
    pieces.insert(start, piece)?;
    Ok(())
}

/// Whether the arc's owner is the silo.
pub(crate) fn is_owner(silo: &SiloAddress, owner: Option<SiloAddress>) -> bool
    ensures { result ≡ is_owner silo.now owner }
{
    match owner {
        Some(owner) => owner == *silo,
        None => false,
    }
}

/// The state of a piece that wasn't settled before: a skipped version has no snapshots.
pub(crate) fn missing_state(
    next: bool,
    view: &View,
    silo: &SiloAddress,
    from: Option<SiloAddress>,
) -> PieceState
    ensures { result ≡ missing_state next view.now silo.now from }
{
    if !next {
        return PieceState::Recovering;
    }
    let Some(owner) = from else {
        return PieceState::Recovering;
    };
    if owner == *silo {
        return PieceState::Recovering;
    }
    if is_dead_in(view, &owner) {
        return PieceState::Recovering;
    }
    PieceState::Awaiting(owner)
}
