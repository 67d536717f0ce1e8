//! What a sight seals: the entries of the arcs that the silo hands over to others.
ghost use Rattle.std.specs.Prelude.{◌≡◌, None, if◌then◌else◌, IfOk, IsSome, true};
ghost use Rattle.directory_rules.specs.Sight.{is_handed_over, sealed, was_settled};
ghost use Rattle.grain_partition.specs.Holdings.{ArePieces};

use crate::Piece;
use crate::kept_pieces::are_tidy;
use crate::listed::listed;
use crate::settled::are_settled;
use grain_table::short_entries;
use hash_ring::Hashing;
use membership_view::View;
use range_moves::RingArc;
use seal_snapshot::Snapshot;
use silo_address::SiloAddress;
use std::alloc::{AllocError, Global};
use std::collections::BTreeMap;

/// The snapshots of the arcs that are handed over at the sight of the view, in the order of the arcs. Where each piece has just
/// entries of its own range, costs the pieces that these arcs meet. Each arc's entries are listed whole to be sorted, one arc after the
/// other, and then kept short. Fails only when memory runs out.
pub(crate) fn sealed(
    alloc: Global,
    pieces: &BTreeMap<u32, Piece>,
    hashing: Hashing,
    view: &View,
    silo: &SiloAddress,
    arcs: &[RingArc],
) -> Result<Vec<Snapshot>, AllocError>
    requires { ArePieces pieces.now.entries }
    ensures { IfOk result (λ snapshots. snapshots.items ≡ sealed hashing view.now silo.now pieces.now.entries arcs.now) }
{
    let tidy = are_tidy(hashing, pieces);
    let mut snapshots = Vec::new(alloc);
    'arcs: for arc in arcs {
        let Some(to) = next_owner(pieces, silo, arc) else {
            continue;
        };
        let entries = listed(alloc, pieces, tidy, hashing, view, &arc.range)?;
        let entries = short_entries(alloc, &entries)?;
        snapshots.push(Snapshot::seal(view.version(), arc.range, *silo, to, entries))?;
    }
    Ok(snapshots)
}

// For whom the arc is sealed: for its owner in the view, where that is another silo, this one was its owner before, and all
// of it was settled.
fn next_owner(
    pieces: &BTreeMap<u32, Piece>,
    silo: &SiloAddress,
    arc: &RingArc,
) -> Option<SiloAddress>
    requires { ArePieces pieces.now.entries }
    ensures exact { result ≡ (if is_handed_over silo.now pieces.now.entries arc.now then arc.now.to else None) }
    ensures settled { IsSome result → was_settled pieces.now.entries arc.now.range ≡ true }
{
    let from = arc.from?;
    let to = arc.to?;
    if from != *silo {
        return None;
    }
    if to == *silo {
        return None;
    }
    if !are_settled(pieces, &arc.range) {
        return None;
    }
    Some(to)
}
