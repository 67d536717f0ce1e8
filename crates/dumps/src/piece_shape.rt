//! Whether a piece of a dump is one.

ghost use Rattle.std.specs.Prelude.{◌≡◌};
ghost use Rattle.std.specs.List.{list_all};
ghost use Rattle.dump_rules.specs.DumpShape as rule;

use crate::conjunction::all_hold;
use crate::{ListedNode, ListedPiece, ListedState};

/// Whether each piece of the node is one.
pub(crate) fn are_pieces(node: &ListedNode) -> bool
    ensures { result ≡ list_all rule.is_piece node.now.pieces }
{
    node.pieces.iter().all(|piece| is_piece(piece))
}

/// Whether only a settled piece has entries, by grain, and just an awaiting one tells from whom.
fn is_piece(piece: &ListedPiece) -> bool
    ensures { result ≡ rule.is_piece piece.now }
{
    all_hold(&[
        has_entries_if_settled(piece),
        has_from_if_awaiting(piece),
        has_entries_in_order(piece),
    ])
}

/// Whether only a settled piece has entries.
fn has_entries_if_settled(piece: &ListedPiece) -> bool
    ensures { result ≡ rule.has_entries_if_settled piece.now }
{
    match piece.state {
        ListedState::Settled => true,
        ListedState::Awaiting | ListedState::Recovering => piece.entries.is_empty(),
    }
}

/// Whether just an awaiting piece tells from whom.
fn has_from_if_awaiting(piece: &ListedPiece) -> bool
    ensures { result ≡ rule.has_from_if_awaiting piece.now }
{
    match piece.state {
        ListedState::Awaiting => piece.from.is_some(),
        ListedState::Settled | ListedState::Recovering => piece.from.is_none(),
    }
}

/// Whether entries stand by grain.
fn has_entries_in_order(piece: &ListedPiece) -> bool
    ensures { result ≡ rule.has_entries_in_order piece.now }
{
    piece
        .entries
        .is_sorted_by(|one, next| !next.grain.cmp(&one.grain).is_lt())
}
