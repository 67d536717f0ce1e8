//! Whether the numbers of a dump are in their ranges.

ghost use Rattle.std.specs.Prelude.{◌≡◌, ◌<◌, ◌^◌};
ghost use Rattle.std.specs.List.{list_all};
ghost use Rattle.dump_rules.specs.DumpShape as rule;

use crate::conjunction::all_hold;
use crate::{Dump, ListedNode, ListedPiece, ListedPoint, ListedRow};
use ring_range::CIRCLE;

/// The most points of a silo.
const MOST_POINTS: u64 = 128;

/// Whether all numbers of the dump are in their ranges (`docs/RULES.md#the-dump-and-the-verdict`).
pub(crate) fn has_numbers(dump: &Dump) -> bool
    ensures { result ≡ rule.has_numbers dump.now }
{
    version_fits(dump);
    all_hold(&[
        has_number_of_points(dump),
        have_row_numbers(dump),
        have_node_numbers(dump),
    ])
}

/// A law: the current version fits.
fn version_fits(dump: &Dump)
    ensures { dump.now.current < 2 ^ 64 }
{
    let _current = dump.current;
}

/// Whether a silo may have so many points where they are hashed.
fn has_number_of_points(dump: &Dump) -> bool
    ensures { result ≡ rule.is_number_of_points dump.now.points }
{
    1 <= dump.points && dump.points <= MOST_POINTS
}

fn have_row_numbers(dump: &Dump) -> bool
    ensures { result ≡ list_all rule.has_row_numbers dump.now.rows }
{
    dump.rows.iter().all(|row| has_row_numbers(row))
}

fn have_node_numbers(dump: &Dump) -> bool
    ensures { result ≡ list_all rule.has_node_numbers dump.now.nodes }
{
    dump.nodes.iter().all(|node| has_node_numbers(node))
}

/// Whether the numbers of a row are in their ranges.
fn has_row_numbers(row: &ListedRow) -> bool
    ensures { result ≡ rule.has_row_numbers row.now }
{
    versions_fit(row);
    has_hashes(row)
}

/// A law: the versions of a row fit.
fn versions_fit(row: &ListedRow)
    ensures dead { row.now.dead < 2 ^ 64 }
    ensures joined { row.now.joined < 2 ^ 64 }
    ensures left { row.now.left < 2 ^ 64 }
{
    let _dead = row.dead;
    let _joined = row.joined;
    let _left = row.left;
}

/// Whether the places of a row are hashes.
fn has_hashes(row: &ListedRow) -> bool
    ensures { result ≡ list_all rule.is_hash row.now.places }
{
    row.places.iter().all(|place| *place < CIRCLE)
}

/// Whether the numbers of a node are in their ranges.
fn has_node_numbers(node: &ListedNode) -> bool
    ensures { result ≡ rule.has_node_numbers node.now }
{
    seen_fits(node);
    all_hold(&[has_ring_numbers(node), has_ranges(node)])
}

/// A law: the version that a silo has seen fits.
fn seen_fits(node: &ListedNode)
    ensures { node.now.seen < 2 ^ 64 }
{
    let _seen = node.seen;
}

fn has_ring_numbers(node: &ListedNode) -> bool
    ensures { result ≡ list_all rule.has_point_numbers node.now.ring }
{
    node.ring.iter().all(|point| has_point_numbers(point))
}

/// Whether the numbers of a point are in their ranges.
fn has_point_numbers(point: &ListedPoint) -> bool
    ensures { result ≡ rule.has_point_numbers point.now }
{
    let _index = point.index;
    point.place < CIRCLE
}

fn has_ranges(node: &ListedNode) -> bool
    ensures { result ≡ list_all rule.has_piece_numbers node.now.pieces }
{
    node.pieces.iter().all(|piece| has_piece_numbers(piece))
}

/// Whether the range of a piece is one of the circle, as every range is.
fn has_piece_numbers(piece: &ListedPiece) -> bool
    ensures { result ≡ rule.has_piece_numbers piece.now }
{
    piece.range.in_range();
    true
}
