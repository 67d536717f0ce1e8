//! The nodes of a cluster, by their silos. Putting one in and taking one out drops what was there, and a body that drops a node is
//! dear to prove: so each stands here once, alone.
ghost use Rattle.std.specs.Prelude.{◌≡◌, OnErr, OnOk};
ghost use Rattle.std.specs.Map.{remove_entry};
ghost use Rattle.std.specs.BTreeMap.{insert_entry, is_at};
ghost use Rattle.silo_address.specs.Silo.{silo_cmp};
ghost use Rattle.directory_rules.specs.Node.{new_node};

use directory_node::{Node, SharedNode};
use directory_rules::Settings;
use silo_address::SiloAddress;
use std::alloc::{AllocError, Global};
use std::collections::BTreeMap;

/// The silo has a new node, and no other one.
pub(crate) fn put_new_node(
    alloc: Global,
    settings: Settings,
    nodes: &mut BTreeMap<SiloAddress, SharedNode>,
    silo: SiloAddress,
) -> Result<(), AllocError>
    ensures put { OnOk result (nodes.new.entries ≡ insert_entry silo_cmp nodes.old.entries silo (new_node settings silo)) }
    ensures unchanged { OnErr result (nodes.new.entries ≡ nodes.old.entries) }
{
    let node = SharedNode::new(alloc, Node::new(alloc, settings, silo)?)?;
    drop(nodes.insert(silo, node)?);
    Ok(())
}

/// The silo has no node any more.
pub(crate) fn remove_node(nodes: &mut BTreeMap<SiloAddress, SharedNode>, silo: &SiloAddress)
    ensures { nodes.new.entries ≡ remove_entry (is_at (silo_cmp silo.now)) nodes.old.entries }
{
    drop(nodes.remove(silo));
}
