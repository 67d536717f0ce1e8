ghost use Rattle.std.specs.Map.{values_of};
ghost use Rattle.std.specs.Prelude.{◌≡◌, filter, length, not};
ghost use Rattle.directory_rules.specs.Sight.{is_settled};

use crate::Piece;
use std::collections::BTreeMap;

/// How many of the pieces aren't settled.
pub(crate) fn unsettled_count(pieces: &BTreeMap<u32, Piece>) -> usize
    ensures { result ≡ length (filter (λ piece. not (is_settled piece.state)) (values_of pieces.now.entries)) }
{
    pieces.values().filter(|piece| !piece.is_settled()).count()
}
