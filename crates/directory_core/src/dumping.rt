//! The world as a dump tells it.
ghost use Rattle.std.specs.Prelude.{◌≡◌, IfOk, map};
ghost use Rattle.dump_rules.specs.Dump.{dump_node, dump_of};
ghost use Rattle.dump_headline.specs.Told.{IsRightlyTold};

use crate::World;
use crate::rows::listed_rows;
use directory_node::listed_node;
use dumps::{Dump, ListedNode};
use std::alloc::{AllocError, Global};

impl World {
    /// The world's dump (`docs/RULES.md#the-dump-and-the-verdict`). It is a dump in which all is right, and a checker says so, of its
    /// lists and of its text. Costs what the world holds, times a logarithm. Fails only when memory runs out.
    #[tactic(auto, unfolding(dump_rules::specs::Dump::dump_of))]
    pub fn dump(&self, alloc: Global) -> Result<Dump<'static>, AllocError>
        ensures told { IfOk result (λ dump. dump ≡ dump_of self.now) }
        ensures right { IsRightlyTold self.now }
    {
        self.headline();
        let nodes = listed_nodes(alloc, self)?;
        let rows = listed_rows(alloc, self)?;
        let settings = self.settings();
        Ok(Dump {
            current: self.current(),
            hashing: settings.hashing(),
            nodes,
            points: settings.points() as u64,
            rows,
        })
    }
}

// The node of each silo that isn't Dead, by address, with all that it holds.
fn listed_nodes(alloc: Global, world: &World) -> Result<Vec<ListedNode<'static>>, AllocError>
    ensures { IfOk result (λ nodes. nodes.items ≡ map (λ e. dump_node e.0 e.1) world.now.nodes) }
{
    let mut nodes = Vec::new(alloc);
    for (silo, node) in world.nodes() {
        let node = listed_node(alloc, silo, node.node())?;
        nodes.push(node)?;
    }
    Ok(nodes)
}
