//! What silos haven't seen yet.

ghost use Rattle.std.specs.Prelude.{◌≡◌, ◌+◌, ◌-◌, ◌++◌, IfOk, OnOk, map};
ghost use Rattle.std.specs.List.{range_with_len};
ghost use mathlib.Core.List.{IsPrefix};
ghost use Rattle.cluster_journal.specs.Journal.{world_of};
ghost use Rattle.directory_rules.specs.Event.{See};
ghost use Rattle.directory_rules.specs.EventModel.{event_of};
ghost use Rattle.script_rules.specs.Output.{sync_events, unseen_versions};

use crate::Cluster;
use cluster_board::{Board, Charter, Hand};
use directory_core::World;
use directory_node::SharedNode;
use directory_rules::Event;
use silo_address::SiloAddress;
use silo_workers::Gate;
use std::alloc::{AllocError, Global};
use std::sync::Wait;

impl<L: Charter, G: Gate + Drop> Cluster<L, G> {
    /// The sights that would bring each silo that isn't Dead, by address, from the version that it has seen up to the current one.
    /// These are the sights by the world that the journal so far leaves, which the hand has seen then. Nothing happens yet. Fails
    /// only when memory runs out.
    pub fn sights<R: Wait>(&self, rt: &R, hand: &mut Hand<L>) -> Result<Vec<Event>, AllocError>
        ensures sights { IfOk result (λ events. map event_of events.items ≡ sync_events (world_of L.settings hand.new.seen)) }
        ensures seen { IsPrefix hand.old.seen hand.new.seen }
        ensures share { hand.new.share ≡ hand.old.share }
    {
        let mut board = self.site.board.lock(rt);
        sights_now(self.alloc, &mut board, hand)
    }
}

// The sights that silos lack by a board.
fn sights_now<L: Charter>(
    alloc: Global,
    board: &mut Board<L>,
    hand: &mut Hand<L>,
) -> Result<Vec<Event>, AllocError>
    ensures sights { IfOk result (λ events. map event_of events.items ≡ sync_events (world_of L.settings hand.new.seen)) }
    ensures seen { IsPrefix hand.old.seen hand.new.seen }
    ensures share { hand.new.share ≡ hand.old.share }
{
    board.renew(&mut hand.seen);
    board.journaled();
    sights(alloc, board.world())
}

fn sights(alloc: Global, world: &World) -> Result<Vec<Event>, AllocError>
    ensures { IfOk result (λ events. map event_of events.items ≡ sync_events world.now) }
{
    let mut events = Vec::new(alloc);
    for (silo, node) in world.nodes() {
        see_up_to(world, silo, node, &mut events)?;
    }
    Ok(events)
}

// The sights of one silo: of the versions behind the one that it has seen, and none from before it joined.
fn see_up_to(
    world: &World,
    silo: &SiloAddress,
    node: &SharedNode,
    events: &mut Vec<Event>,
) -> Result<(), AllocError>
    ensures { OnOk result (map event_of events.new.items ≡ map event_of events.old.items ++ map (See silo.now) (unseen_versions world.now silo.now node.now)) }
{
    let current = world.current();
    let after = seen_by(world, silo, node);
    for seen in after..current {
        events.push(Event::See {
            silo: *silo,
            version: seen + 1,
        })?;
    }
    Ok(())
}

// The version that a silo has seen, or the last one before it joined: behind it are those that it hasn't seen.
fn seen_by(world: &World, silo: &SiloAddress, node: &SharedNode) -> u64
    ensures { range_with_len (result + 1) (world.now.views.version - result) ≡ unseen_versions world.now silo.now node.now }
{
    let joined = world.views().joined_at(silo).unwrap_or(0);
    let seen = node.node().view().version();
    seen.max(joined.saturating_sub(1))
}
