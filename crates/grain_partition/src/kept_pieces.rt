//! Pieces that stay at a sight: they keep their tables.
ghost use Rattle.std.specs.Prelude.{◌≡◌, fold};
ghost use Rattle.grain_partition.specs.Holdings.{are_tidy};
ghost use Rattle.grain_partition.specs.Kept.{put_back, stays, with_staying};

use crate::Piece;
use hash_ring::Hashing;
use membership_view::View;
use ring_range::RingRange;
use std::collections::BTreeMap;

/// Whether each piece's entries are hashed into its range. Costs a logarithm for each piece.
pub(crate) fn are_tidy(hashing: Hashing, pieces: &BTreeMap<u32, Piece>) -> bool
    ensures { result ≡ are_tidy hashing pieces.now.entries }
{
    'pieces: for (_, piece) in pieces {
        if !piece.is_tidy(hashing) {
            return false;
        }
    }
    true
}

/// Whether a settled piece that begins where the range does has every hash of the range.
pub(crate) fn stays(pieces: &BTreeMap<u32, Piece>, range: &RingRange) -> bool
    ensures { result ≡ stays pieces.now.entries range.now }
{
    match pieces.get(&range.start()) {
        Some(piece) => piece.covers(range),
        None => false,
    }
}

/// Each of the pieces before is put back among those made where it stays: it keeps what is hashed into the range of the one made,
/// less its entries on silos that are Dead in the view.
pub(crate) fn put_all_back(
    made: &mut BTreeMap<u32, Piece>,
    before: BTreeMap<u32, Piece>,
    hashing: Hashing,
    view: &View,
)
    ensures { made.new.entries ≡ fold (with_staying hashing view.now) made.old.entries before.entries }
{
    'pieces: for (start, piece) in before {
        put_back(made, start, piece, hashing, view);
    }
}

// The piece is put back where it stays.
fn put_back(
    made: &mut BTreeMap<u32, Piece>,
    start: u32,
    piece: Piece,
    hashing: Hashing,
    view: &View,
)
    ensures { made.new.entries ≡ with_staying hashing view.now made.old.entries (start, piece) }
{
    if let Some(there) = made.get_mut(&start) {
        let range = there.range();
        if piece.covers(&range) {
            *there = piece.left_of(hashing, view, range);
        }
    }
}
