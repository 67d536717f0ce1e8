//! How many entries pieces have in a settled range: a walk from piece to piece.
ghost use Rattle.std.specs.Prelude.{◌≡◌, ◌≤◌, ◌^◌, IfOk, OnErr, length, true};
ghost use Rattle.directory_rules.specs.Sight.{all_entries, entries_within, was_settled};
ghost use Rattle.grain_partition.specs.Holdings.{ArePieces, tidied};

use crate::Piece;
use crate::search::piece_with;
use crate::settled::{front_of, part_behind};
use hash_ring::Hashing;
use ring_range::RingRange;
use std::alloc::AllocError;
use std::collections::BTreeMap;

/// How many entries a settled range has in the pieces of their hashes: one that stands in a piece of another range isn't counted. It
/// looks at the pieces alone that the range meets. Fails only where the entries are more than a `usize` can tell.
pub(crate) fn count_within(
    pieces: &BTreeMap<u32, Piece>,
    hashing: Hashing,
    range: &RingRange,
) -> Result<usize, AllocError>
    requires pieces { ArePieces pieces.now.entries }
    requires settled { was_settled pieces.now.entries range.now ≡ true }
    ensures counted { IfOk result (λ count. count ≡ entries_within hashing (tidied hashing pieces.now.entries) range.now) }
    ensures fails { OnErr result (2 ^ 64 ≤ length (all_entries (tidied hashing pieces.now.entries))) }
{
    range.in_range();
    let mut count: usize = 0;
    let mut rest = *range;
    'walk: while rest.size() > 0 {
        rest.in_range();
        let piece = piece_with(pieces, rest.start()).unwrap();
        let behind = part_behind(&rest, &piece.range());
        let front = front_of(&rest, &behind);
        let table = piece.entries();
        table.made_again();
        let Some(more) = count.checked_add(table.count_within(hashing, &front)) else {
            return Err(AllocError);
        };
        count = more;
        rest = behind;
    }
    Ok(count)
}
