//! Whether the nodes of a dump are.

ghost use Rattle.std.specs.Prelude.{◌≡◌, IfOk};
ghost use Rattle.std.specs.List.{list_all};
ghost use Rattle.silo_address.specs.Silo.{silo_cmp};
ghost use Rattle.dump_rules.specs.DumpShape as rule;
ghost use Rattle.dumps.specs.Sets.{HasItems};

use crate::node_shape::is_node;
use crate::{Dump, ListedNode, set_of};
use silo_address::SiloAddress;
use std::alloc::{AllocError, Global};
use std::collections::BTreeSet;

/// Whether each node of the dump is one (`docs/RULES.md#the-dump-and-the-verdict`): it names none but silos that have rows, and what it
/// lists stands once and in order. Costs a logarithm for each row, piece, entry and activation. Fails only when memory runs out.
pub(crate) fn are_nodes(alloc: Global, dump: &Dump) -> Result<bool, AllocError>
    ensures { IfOk result (λ answer. answer ≡ list_all (rule.is_node_of dump.now) dump.now.nodes) }
{
    let silos = known_silos(alloc, dump)?;
    each_is_one(alloc, dump, &silos, &dump.nodes)
}

/// The set of the silos that have rows.
fn known_silos(alloc: Global, dump: &Dump) -> Result<BTreeSet<SiloAddress>, AllocError>
    ensures { IfOk result (λ silos. HasItems silo_cmp silos (rule.row_silos dump.now)) }
{
    let rows = row_silos(alloc, dump)?;
    let silos = set_of(alloc, &rows)?;
    Ok(silos)
}

/// The silos that have rows, in their order. Fails only when memory runs out.
pub(crate) fn row_silos(alloc: Global, dump: &Dump) -> Result<Vec<SiloAddress>, AllocError>
    ensures { IfOk result (λ silos. silos.items ≡ rule.row_silos dump.now) }
{
    dump.rows.iter().map(|row| row.silo).collect(alloc)
}

fn each_is_one(
    alloc: Global,
    dump: &Dump,
    silos: &BTreeSet<SiloAddress>,
    nodes: &[ListedNode],
) -> Result<bool, AllocError>
    requires { HasItems silo_cmp silos.now (rule.row_silos dump.now) }
    ensures { IfOk result (λ answer. answer ≡ list_all (rule.is_node_of dump.now) nodes.now) }
{
    for node in nodes {
        if !is_node(alloc, dump, silos, node)? {
            return Ok(false);
        }
    }
    Ok(true)
}
