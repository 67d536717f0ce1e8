//! Whether a node of a dump is one: who is named there, and what stands once and in order.

ghost use Rattle.std.specs.Prelude.{◌≡◌, ◌&&◌, IfOk, map};
ghost use Rattle.std.specs.List.{list_all};
ghost use Rattle.std.specs.BTreeSet.{contains};
ghost use Rattle.silo_address.specs.Silo.{silo_cmp};
ghost use Rattle.dump_rules.specs.DumpShape as rule;
ghost use Rattle.dumps.specs.Mixed.{grains_lent};
ghost use Rattle.dumps.specs.Sets.{HasItems};

use crate::conjunction::all_hold;
use crate::piece_shape::are_pieces;
use crate::{
    Dump, LentGrain, ListedNode, ListedPiece, are_distinct, are_distinct_grains, are_in_order,
};
use silo_address::{ActivationId, SiloAddress};
use std::alloc::{AllocError, Global};
use std::collections::BTreeSet;

/// Whether a node is one, given the silos that have rows.
pub(crate) fn is_node(
    alloc: Global,
    dump: &Dump,
    silos: &BTreeSet<SiloAddress>,
    node: &ListedNode,
) -> Result<bool, AllocError>
    requires { HasItems silo_cmp silos.now (rule.row_silos dump.now) }
    ensures { IfOk result (λ answer. answer ≡ rule.is_node_of dump.now node.now) }
{
    let activations_once = holds_activations_once(alloc, node)?;
    let grains_once = holds_grains_once(alloc, node)?;
    let in_order = has_pieces_in_order(alloc, node)?;
    Ok(all_hold(&[
        names_known_silos(silos, node),
        holds_its_own(node),
        activations_once,
        grains_once,
        has_seen_a_version(dump, node),
        in_order,
        are_pieces(node),
    ]))
}

/// Whether the node's silo is among those that have rows, and so is that of each activation that is entered there. What is held there
/// needs no look: it is the silo's own.
fn names_known_silos(silos: &BTreeSet<SiloAddress>, node: &ListedNode) -> bool
    ensures { result ≡ (contains silo_cmp silos.now node.now.silo
        && list_all (λ piece. list_all (λ entry. contains silo_cmp silos.now entry.activation.silo) piece.entries) node.now.pieces) }
{
    is_known(silos, node) && enters_known_silos(silos, node)
}

fn is_known(silos: &BTreeSet<SiloAddress>, node: &ListedNode) -> bool
    ensures { result ≡ contains silo_cmp silos.now node.now.silo }
{
    silos.contains(&node.silo)
}

fn enters_known_silos(silos: &BTreeSet<SiloAddress>, node: &ListedNode) -> bool
    ensures { result ≡ list_all (λ piece. list_all (λ entry. contains silo_cmp silos.now entry.activation.silo) piece.entries) node.now.pieces }
{
    node.pieces
        .iter()
        .all(|piece| has_known_entries(silos, piece))
}

fn has_known_entries(silos: &BTreeSet<SiloAddress>, piece: &ListedPiece) -> bool
    ensures { result ≡ list_all (λ entry. contains silo_cmp silos.now entry.activation.silo) piece.now.entries }
{
    piece
        .entries
        .iter()
        .all(|entry| silos.contains(&entry.activation.silo))
}

/// Whether a node holds activations of its own silo only.
fn holds_its_own(node: &ListedNode) -> bool
    ensures { result ≡ rule.holds_its_own node.now }
{
    let silo = node.silo;
    node.held.iter().all(|held| held.activation.silo == silo)
}

/// Whether a node holds each activation once.
fn holds_activations_once(alloc: Global, node: &ListedNode) -> Result<bool, AllocError>
    ensures { IfOk result (λ answer. answer ≡ rule.holds_activations_once node.now) }
{
    let activations = activations_of(alloc, node)?;
    let once = are_distinct(alloc, &activations)?;
    Ok(once)
}

fn activations_of(alloc: Global, node: &ListedNode) -> Result<Vec<ActivationId>, AllocError>
    ensures { IfOk result (λ activations. activations.items ≡ map (λ held. held.activation) node.now.held) }
{
    node.held.iter().map(|held| held.activation).collect(alloc)
}

/// Whether a node holds at most one activation a grain.
fn holds_grains_once(alloc: Global, node: &ListedNode) -> Result<bool, AllocError>
    ensures { IfOk result (λ answer. answer ≡ rule.holds_grains_once node.now) }
{
    let grains = grains_of(alloc, node)?;
    let once = are_distinct_grains(alloc, &grains)?;
    Ok(once)
}

fn grains_of<'a, 't>(
    alloc: Global,
    node: &'a ListedNode<'t>,
) -> Result<Vec<&'a LentGrain<'t>>, AllocError>
    ensures { IfOk result (λ grains. grains_lent grains.items ≡ map (λ held. held.grain) node.now.held) }
{
    node.held.iter().map(|held| &held.grain).collect(alloc)
}

/// Whether the silo has seen a version that was made.
fn has_seen_a_version(dump: &Dump, node: &ListedNode) -> bool
    ensures { result ≡ rule.has_seen_a_version dump.now node.now }
{
    node.seen <= dump.current
}

/// Whether pieces stand by start.
fn has_pieces_in_order(alloc: Global, node: &ListedNode) -> Result<bool, AllocError>
    ensures { IfOk result (λ answer. answer ≡ rule.has_pieces_in_order node.now) }
{
    let starts = starts_of(alloc, node)?;
    Ok(are_in_order(&starts))
}

fn starts_of(alloc: Global, node: &ListedNode) -> Result<Vec<u32>, AllocError>
    ensures { IfOk result (λ starts. starts.items ≡ map (λ piece. piece.range.start) node.now.pieces) }
{
    node.pieces
        .iter()
        .map(|piece| piece.range.start())
        .collect(alloc)
}
