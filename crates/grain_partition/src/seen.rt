//! The pieces after a sight, told before it.
ghost use Rattle.std.specs.Prelude.{◌≡◌, if◌then◌else◌, IfOk};
ghost use Rattle.directory_rules.specs.Sight.{missing_state, was_settled};
ghost use Rattle.directory_rules.specs.declared.PieceState.TheVariants.{Settled};
ghost use Rattle.grain_partition.specs.Holdings.{ArePieces};
ghost use Rattle.grain_partition.specs.Seen.{pieces_seen};
ghost use Rattle.grain_partition.specs.Sight.{AreApart};

use crate::Piece;
use crate::settled::are_settled;
use crate::sight::{is_owner, missing_state, put};
use directory_rules::PieceState;
use hash_ring::Hashing;
use membership_view::View;
use range_moves::RingArc;
use silo_address::SiloAddress;
use std::alloc::{AllocError, Global};
use std::collections::BTreeMap;

/// The pieces after the sight of the view, without their entries. Costs a walk over the pieces that each arc meets.
pub(crate) fn pieces_seen(
    alloc: Global,
    pieces: &BTreeMap<u32, Piece>,
    next: bool,
    hashing: Hashing,
    view: &View,
    silo: &SiloAddress,
    arcs: &[RingArc],
) -> Result<BTreeMap<u32, Piece>, AllocError>
    requires pieces { ArePieces pieces.now.entries }
    requires arcs { AreApart arcs.now }
    ensures exact { IfOk result (λ seen. seen.entries ≡ pieces_seen next hashing view.now silo.now pieces.now.entries arcs.now) }
    ensures pieces { IfOk result (λ seen. ArePieces seen.entries) }
{
    let mut seen = BTreeMap::new(alloc);
    'arcs: for arc in arcs {
        if !is_owner(silo, arc.to) {
            continue;
        }
        let state = state_of(pieces, next, view, silo, arc);
        put(&mut seen, Piece::bare(alloc, hashing, arc.range, state))?;
    }
    Ok(seen)
}

// The state of the piece of an arc that the silo owns in the view.
fn state_of(
    pieces: &BTreeMap<u32, Piece>,
    next: bool,
    view: &View,
    silo: &SiloAddress,
    arc: &RingArc,
) -> PieceState
    requires { ArePieces pieces.now.entries }
    ensures { result ≡ (if was_settled pieces.now.entries arc.now.range then Settled else missing_state next view.now silo.now arc.now.from) }
{
    if are_settled(pieces, &arc.range) {
        return PieceState::Settled;
    }
    missing_state(next, view, silo, arc.from)
}
