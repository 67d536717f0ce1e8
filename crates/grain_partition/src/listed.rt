//! What pieces keep in a range, as a list: a seal tells it without a table in between.
ghost use Rattle.std.specs.List.Sorted.{IsPermutation};
ghost use Rattle.std.specs.Prelude.{◌≡◌, true, IfOk};
ghost use Rattle.directory_rules.specs.Sight.{kept_entries, was_settled};
ghost use Rattle.directory_rules.specs.Table.{entries_of};
ghost use Rattle.grain_partition.specs.Holdings.{ArePieces, are_tidy};

use crate::Piece;
use crate::entries::kept_entries;
use crate::search::piece_with;
use crate::settled::{front_of, part_behind};
use hash_ring::Hashing;
use membership_view::View;
use ring_range::RingRange;
use silo_address::Entry;
use std::alloc::{AllocError, Global};
use std::collections::BTreeMap;

/// What the pieces keep in a settled range, in the order of the grains: all their entries whose grains are hashed into it, without
/// those on silos that are Dead in the view. Where each piece has just entries of its own range, it looks at the pieces alone that
/// the range meets. Fails only when memory runs out.
pub(crate) fn listed(
    alloc: Global,
    pieces: &BTreeMap<u32, Piece>,
    tidy: bool,
    hashing: Hashing,
    view: &View,
    range: &RingRange,
) -> Result<Vec<Entry>, AllocError>
    requires pieces { ArePieces pieces.now.entries }
    requires tidy { tidy ≡ are_tidy hashing pieces.now.entries }
    requires settled { was_settled pieces.now.entries range.now ≡ true }
    ensures { IfOk result (λ listed. listed.items ≡ entries_of (kept_entries hashing view.now pieces.now.entries range.now)) }
{
    if !tidy {
        let kept = kept_entries(alloc, pieces, tidy, hashing, view, range)?;
        return kept.in_order(alloc);
    }
    let mut entries = met_listed(alloc, pieces, hashing, view, range)?;
    entries.sort_unstable();
    Ok(entries)
}

// The same of tidy pieces, in no order: a walk from piece to piece.
fn met_listed(
    alloc: Global,
    pieces: &BTreeMap<u32, Piece>,
    hashing: Hashing,
    view: &View,
    range: &RingRange,
) -> Result<Vec<Entry>, AllocError>
    requires pieces { ArePieces pieces.now.entries }
    requires tidy { are_tidy hashing pieces.now.entries ≡ true }
    requires settled { was_settled pieces.now.entries range.now ≡ true }
    ensures { IfOk result (λ listed. IsPermutation (entries_of (kept_entries hashing view.now pieces.now.entries range.now)) listed.items) }
{
    let mut entries = Vec::new(alloc);
    let mut rest = *range;
    'walk: while rest.size() > 0 {
        rest.in_range();
        let piece = piece_with(pieces, rest.start()).unwrap();
        let behind = part_behind(&rest, &piece.range());
        let front = front_of(&rest, &behind);
        let table = piece.entries();
        table.made_again();
        entries = table.list_kept(alloc, entries, hashing, view, &front)?;
        rest = behind;
    }
    Ok(entries)
}
