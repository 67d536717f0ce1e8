//! Entries of pieces in one table.
ghost use Rattle.std.specs.Prelude.{◌≡◌, filter, true, IfOk};
ghost use Rattle.directory_rules.specs.Sight.{all_entries, kept_entries, was_settled};
ghost use Rattle.hash_ring.specs.Hash.{hash_grain};
ghost use Rattle.ring_range.specs.Range.{holds};
ghost use Rattle.grain_partition.specs.Holdings.{ArePieces, are_tidy};

use crate::Piece;
use crate::search::piece_with;
use crate::settled::part_behind;
use grain_table::Table;
use hash_ring::Hashing;
use membership_view::View;
use ring_range::RingRange;
use std::alloc::{AllocError, Global};
use std::collections::BTreeMap;

/// What the pieces keep in a settled range: all their entries whose grains are hashed into it, without those on silos that are
/// Dead in the view. Where each piece has just entries of its own range, it looks at the pieces alone that the range meets. Fails
/// only when memory runs out.
pub(crate) fn kept_entries(
    alloc: Global,
    pieces: &BTreeMap<u32, Piece>,
    tidy: bool,
    hashing: Hashing,
    view: &View,
    range: &RingRange,
) -> Result<Table, AllocError>
    requires pieces { ArePieces pieces.now.entries }
    requires tidy { tidy ≡ are_tidy hashing pieces.now.entries }
    requires settled { was_settled pieces.now.entries range.now ≡ true }
    ensures { IfOk result (λ kept. kept.entries ≡ kept_entries hashing view.now pieces.now.entries range.now) }
{
    let mut kept = within(alloc, pieces, tidy, hashing, range)?;
    kept.remove_dead(view);
    Ok(kept)
}

// The entries of the pieces whose grains are hashed into a settled range.
fn within(
    alloc: Global,
    pieces: &BTreeMap<u32, Piece>,
    tidy: bool,
    hashing: Hashing,
    range: &RingRange,
) -> Result<Table, AllocError>
    requires pieces { ArePieces pieces.now.entries }
    requires tidy { tidy ≡ are_tidy hashing pieces.now.entries }
    requires settled { was_settled pieces.now.entries range.now ≡ true }
    ensures { IfOk result (λ within. within.entries ≡ filter (λ e. holds range.now (hash_grain hashing e.0)) (all_entries pieces.now.entries)) }
{
    if tidy {
        return met_within(alloc, pieces, hashing, range);
    }
    all_within(alloc, pieces, hashing, range)
}

// The same, of the pieces that the range meets: a walk from piece to piece.
fn met_within(
    alloc: Global,
    pieces: &BTreeMap<u32, Piece>,
    hashing: Hashing,
    range: &RingRange,
) -> Result<Table, AllocError>
    requires pieces { ArePieces pieces.now.entries }
    requires tidy { are_tidy hashing pieces.now.entries ≡ true }
    requires settled { was_settled pieces.now.entries range.now ≡ true }
    ensures { IfOk result (λ within. within.entries ≡ filter (λ e. holds range.now (hash_grain hashing e.0)) (all_entries pieces.now.entries)) }
{
    let mut within = Table::new(alloc, hashing);
    let mut rest = *range;
    'walk: while rest.size() > 0 {
        rest.in_range();
        let piece = piece_with(pieces, rest.start()).unwrap();
        let entries = piece.entries();
        entries.made_again();
        within = within.with_all_within(alloc, entries, range)?;
        rest = part_behind(&rest, &piece.range());
    }
    Ok(within)
}

// The same, of all pieces, and of any range.
fn all_within(
    alloc: Global,
    pieces: &BTreeMap<u32, Piece>,
    hashing: Hashing,
    range: &RingRange,
) -> Result<Table, AllocError>
    ensures { IfOk result (λ within. within.entries ≡ filter (λ e. holds range.now (hash_grain hashing e.0)) (all_entries pieces.now.entries)) }
{
    let mut all = Table::new(alloc, hashing);
    'pieces: for (_, piece) in pieces {
        all = all.with_all_within(alloc, piece.entries(), range)?;
    }
    Ok(all)
}
