//! Where the piece of a hash is looked for.
ghost use Rattle.std.specs.Prelude.{◌≡◌, [], MatchOption, option_copied};
ghost use Rattle.directory_rules.specs.Answer.{piece_with};
ghost use Rattle.grain_partition.specs.Holdings.{ArePieces};
ghost use Rattle.grain_partition.specs.Search.{BeginsNearest};

use crate::Piece;
use std::collections::BTreeMap;

/// The piece that has the hash. Ranges go forward from their starts, so only the piece that begins nearest, going back from the
/// hash, can have it.
pub(crate) fn piece_with(pieces: &BTreeMap<u32, Piece>, hash: u32) -> Option<&Piece>
    requires { ArePieces pieces.now.entries }
    ensures { option_copied result ≡ piece_with hash pieces.now.entries }
{
    let piece = nearest(pieces, hash)?;
    if !piece.range().contains(hash) {
        return None;
    }
    Some(piece)
}

// The piece that begins nearest, going back from the hash and on over 0 from the highest.
fn nearest(pieces: &BTreeMap<u32, Piece>, hash: u32) -> Option<&Piece>
    requires { ArePieces pieces.now.entries }
    ensures { MatchOption result (pieces.now.entries ≡ []) (λ piece. BeginsNearest pieces.now.entries hash piece.now) }
{
    if let Some((_, piece)) = pieces.range(..=hash).next_back() {
        return Some(piece);
    }
    let (_, piece) = pieces.last_key_value()?;
    Some(piece)
}
