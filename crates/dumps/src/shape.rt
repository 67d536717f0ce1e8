//! Whether lists are a dump: the rules of shape.

ghost use Rattle.std.specs.Prelude.{◌≡◌, IfOk};
ghost use Rattle.std.specs.List.{list_all};
ghost use Rattle.dump_rules.specs.DumpShape as rule;

use crate::conjunction::all_hold;
use crate::nodes::{are_nodes, row_silos};
use crate::numbers::has_numbers;
use crate::{Dump, ListedRow, are_distinct, are_in_order};
use hash_ring::Hashing;
use silo_address::SiloAddress;
use std::alloc::{AllocError, Global};

/// The most places that a join may name.
const MOST_PLACES: usize = 128;

/// Whether the lists are a dump, over which there is a verdict: numbers are in their ranges, whoever is named has joined,
/// what stands once stands once, and all is in order (`docs/RULES.md#the-dump-and-the-verdict`). Where they aren't, the
/// refusal is 972. Fails only when memory runs out.
#[tactic(auto, unfolding(dump_rules::specs::DumpShape::is_dump))]
pub fn is_dump(alloc: Global, dump: &Dump) -> Result<bool, AllocError>
    ensures { IfOk result (λ answer. answer ≡ rule.is_dump dump.now) }
{
    if !has_numbers(dump) {
        return Ok(false);
    }
    has_shape(alloc, dump)
}

/// Whether what has to hold between the parts of a dump does.
fn has_shape(alloc: Global, dump: &Dump) -> Result<bool, AllocError>
    ensures { IfOk result (λ answer. answer ≡ rule.has_shape dump.now) }
{
    let rows = row_silos(alloc, dump)?;
    let nodes = node_silos(alloc, dump)?;
    has_shape_by(alloc, dump, &rows, &nodes)
}

/// The same, given the silos that have rows and those that have nodes.
fn has_shape_by(
    alloc: Global,
    dump: &Dump,
    rows: &[SiloAddress],
    nodes: &[SiloAddress],
) -> Result<bool, AllocError>
    requires rows { rows.now ≡ rule.row_silos dump.now }
    requires nodes { nodes.now ≡ rule.node_silos dump.now }
    ensures { IfOk result (λ answer. answer ≡ rule.has_shape dump.now) }
{
    let rows_once = are_distinct(alloc, rows)?;
    let nodes_once = are_distinct(alloc, nodes)?;
    let rows_in_order = are_in_order(rows);
    let nodes_in_order = are_in_order(nodes);
    let all_nodes = are_nodes(alloc, dump)?;
    Ok(all_hold(&[
        rows_once,
        nodes_once,
        rows_in_order,
        nodes_in_order,
        are_rows(dump),
        all_nodes,
    ]))
}

/// The silos that have nodes.
fn node_silos(alloc: Global, dump: &Dump) -> Result<Vec<SiloAddress>, AllocError>
    ensures { IfOk result (λ silos. silos.items ≡ rule.node_silos dump.now) }
{
    dump.nodes.iter().map(|node| node.silo).collect(alloc)
}

/// Whether each row is one.
fn are_rows(dump: &Dump) -> bool
    ensures { result ≡ list_all (rule.is_row_of dump.now) dump.now.rows }
{
    dump.rows.iter().all(|row| is_row(dump, row))
}

/// Whether the silo joined in a version that was made, with as many places as a join may name.
fn is_row(dump: &Dump, row: &ListedRow) -> bool
    ensures { result ≡ rule.is_row_of dump.now row.now }
{
    all_hold(&[has_joined(dump, row), has_places(dump, row)])
}

/// Whether the silo joined in a version that was made.
fn has_joined(dump: &Dump, row: &ListedRow) -> bool
    ensures { result ≡ rule.has_joined dump.now row.now }
{
    1 <= row.joined && row.joined <= dump.current
}

/// Whether a row has as many places as a join may name.
fn has_places(dump: &Dump, row: &ListedRow) -> bool
    ensures { result ≡ rule.has_places dump.now row.now }
{
    let places = row.places.len();
    match dump.hashing {
        Hashing::Sha256 => places == 0,
        Hashing::Stated => 1 <= places && places <= MOST_PLACES,
    }
}
