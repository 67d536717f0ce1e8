//! Whether a range is settled throughout: a walk from piece to piece.
ghost use Rattle.std.specs.Prelude.{◌≡◌, ◌-◌, ◌<◌, ◌≤◌, MatchOption, false, true};
ghost use Rattle.ring_range.specs.Range.{distance, holds, part_of};
ghost use Rattle.directory_rules.specs.Laws.{lies_settled};
ghost use Rattle.directory_rules.specs.Sight.{was_settled};
ghost use Rattle.grain_partition.specs.Holdings.{ArePieces};
ghost use Rattle.grain_partition.specs.Search.{SettlesAt};

use crate::Piece;
use crate::search::piece_with;
use ring_range::RingRange;
use std::collections::BTreeMap;

/// Whether every hash of the range is in a settled piece. Looks once at each piece that the range meets.
pub(crate) fn are_settled(pieces: &BTreeMap<u32, Piece>, range: &RingRange) -> bool
    requires { ArePieces pieces.now.entries }
    ensures { result ≡ was_settled pieces.now.entries range.now }
{
    let mut rest = *range;
    'walk: while rest.size() > 0 {
        rest.in_range();
        let Some(first) = settled_at(pieces, rest.start()) else {
            return false;
        };
        rest = part_behind(&rest, &first);
    }
    true
}

/// The range of the settled piece that has the hash, if there is one.
pub(crate) fn settled_at(pieces: &BTreeMap<u32, Piece>, hash: u32) -> Option<RingRange>
    requires { ArePieces pieces.now.entries }
    ensures { MatchOption result (lies_settled hash pieces.now.entries ≡ false) (SettlesAt pieces.now.entries hash) }
{
    let piece = piece_with(pieces, hash)?;
    if !piece.is_settled() {
        return None;
    }
    Some(piece.range())
}

/// What of the range lies behind another one that has its first hash.
pub(crate) fn part_behind(range: &RingRange, first: &RingRange) -> RingRange
    requires { holds first.now range.now.start ≡ true }
    ensures { result ≡ part_of range.now (first.now.size - distance first.now.start range.now.start) range.now.size }
{
    let covered = first.size() - u64::from(distance(first.start(), range.start()));
    if covered >= range.size() {
        return nothing(range);
    }
    behind(range, covered)
}

/// What of the range lies before the last part of it.
pub(crate) fn front_of(range: &RingRange, last: &RingRange) -> RingRange
    requires { last.now.size ≤ range.now.size }
    ensures { result ≡ record { start = range.now.start; size = range.now.size - last.now.size } }
{
    RingRange::new(range.start(), range.size() - last.size()).unwrap()
}

// No hash, told at the range's start.
fn nothing(range: &RingRange) -> RingRange
    ensures { result ≡ record { start = range.now.start; size = 0 } }
{
    RingRange::new(range.start(), 0).unwrap()
}

// The hashes from so many steps after the start on.
fn behind(range: &RingRange, steps: u64) -> RingRange
    requires { steps < range.now.size }
    ensures { result ≡ part_of range.now steps range.now.size }
{
    range.in_range();
    let start = range.start().wrapping_add(steps as u32);
    RingRange::new(start, range.size() - steps).unwrap()
}

// How many steps forward from the start the hash comes.
fn distance(start: u32, hash: u32) -> u32
    ensures { result ≡ distance start hash }
{
    hash.wrapping_sub(start)
}
