//! A silo's node that is shared until it changes: whoever wants to keep it as it is gets a count, and no table is copied. The rules
//! are in `docs/RULES.md#the-world`.

ghost use Rattle.std.specs.Prelude.{◌≡◌, ◌↔◌, IfOk, IsTrue, MatchResult, OnErr, OnOk};
ghost use Rattle.directory_node.specs.Plans.{Fits, changed};

use crate::{Change, Node};
use std::alloc::{AllocError, AllocFailed, Global};
use std::marker::Model;
use std::sync;

/// A node that may have several holders, each of which sees it as it was when it got it.
#[derive(Drop)]
pub struct SharedNode {
    alloc: Global,
    node: sync::Arc<Node>,
}

impl Model for SharedNode {
    ghost use Rattle.directory_rules.specs.State.{Node};
    ghost use Rattle.std.specs.Arc.{arc_value};

    ghost Value = { Node };

    ghost view = { λ n. arc_value n.node };
}

impl SharedNode {
    /// The node, which nobody else holds yet. Fails only when memory runs out, and then hands the node back.
    pub fn new(alloc: Global, node: Node) -> Result<SharedNode, AllocFailed<Node>>
        ensures { MatchResult result (λ shared. shared ≡ node) (λ failed. failed.value ≡ node) }
    {
        let node = sync::Arc::new(alloc, node)?;
        Ok(SharedNode { alloc, node })
    }

    /// The node, to look at.
    pub fn node(&self) -> &Node
        ensures { result.now ≡ self.now }
    {
        &self.node
    }

    /// The same node for one more holder: a count, however much the node has. Fails only where it has as many holders as can be
    /// counted.
    pub fn copy(&self) -> Result<SharedNode, AllocError>
        ensures { IfOk result (λ shared. shared ≡ self.now) }
    {
        let node = sync::Arc::try_clone(&self.node)?;
        Ok(SharedNode {
            alloc: self.alloc,
            node,
        })
    }

    /// Whether the two know the same. Costs a walk over both.
    pub fn same(&self, other: &SharedNode) -> bool
        ensures { IsTrue result ↔ (self.now ≡ other.now) }
    {
        self.node.same(&other.node)
    }

    /// Makes the change of a plan of this node: where the node is, if nobody else holds it, and else on a copy of it, so that the
    /// other holders see no change. Fails only when memory runs out, and then changes nothing.
    pub fn carry_out(&mut self, change: Change) -> Result<(), AllocError>
        requires fits { Fits change self.old }
        ensures made { OnOk result (self.new ≡ changed change self.old) }
        ensures unchanged { OnErr result (self.new ≡ self.old) }
    {
        match sync::Arc::get_mut(&mut self.node) {
            Some(node) => node.carry_out(change),
            None => self.carry_out_apart(change),
        }
    }

    // The change is made on a copy, which this holder has from now on.
    fn carry_out_apart(&mut self, change: Change) -> Result<(), AllocError>
        requires fits { Fits change self.old }
        ensures made { OnOk result (self.new ≡ changed change self.old) }
        ensures unchanged { OnErr result (self.new ≡ self.old) }
    {
        let node = self.changed_by(change)?;
        self.node = node;
        Ok(())
    }

    // A copy of the node with the change made.
    fn changed_by(&self, change: Change) -> Result<sync::Arc<Node>, AllocError>
        requires fits { Fits change self.now }
        ensures { IfOk result (λ node. node.value ≡ changed change self.now) }
    {
        let mut node = match self.node.copy() {
            Ok(node) => node,
            Err(error) => {
                drop(change);
                return Err(error);
            }
        };
        node.carry_out(change)?;
        let node = sync::Arc::new(self.alloc, node)?;
        Ok(node)
    }
}
