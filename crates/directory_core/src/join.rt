ghost use Rattle.std.specs.Prelude.{◌≡◌, ◌<◌, IfErr, IfOk, IsOk, Ok, OnErr, OnOk};
ghost use Rattle.std.specs.BTreeMap.{insert_entry};
ghost use Rattle.silo_address.specs.Silo.{silo_cmp};
ghost use Rattle.membership_view.specs.Changes.{after_join, occupant, with_join};
ghost use Rattle.directory_rules.specs.Happens.{decides};
ghost use Rattle.directory_rules.specs.Laws.{ArePeopled};
ghost use Rattle.directory_rules.specs.Membership.{Join, changed};
ghost use Rattle.directory_rules.specs.Node.{new_node};
ghost use Rattle.directory_rules.specs.World.{accepted_as};
ghost use Rattle.directory_node.specs.Follows.{Follows};
ghost use Rattle.directory_core.specs.Changes.{made_world, nodes_without};
ghost use Rattle.directory_core.specs.Numbers.{IsNumberedUnlessMemory, event_refusal_number};
ghost use Rattle.directory_core.specs.Whole.{IsWorld, LeavesWorld};

use crate::nodes::{put_new_node, remove_node};
use crate::{EventRefusal, World};
use directory_node::{Membership, SharedNode};
use directory_rules::{Happening, Outcome, Settings};
use silo_address::SiloAddress;
use std::alloc::{AllocError, Global};
use std::collections::BTreeMap;

impl World {
    // A silo joins: 201, 205, then 402, 403.
    #[inline(never)]
    pub(crate) fn join(&mut self, silo: SiloAddress, given: &[u32]) -> Result<Outcome, EventRefusal>
        requires room { self.old.accepted < self.old.settings.events }
        requires leaves { LeavesWorld (decides self.old (Join silo given.now)) }
        ensures told { Follows (accepted_as self.new) event_refusal_number IsOk (decides self.old (Join silo given.now)) result }
        ensures numbered { IfErr result IsNumberedUnlessMemory }
        ensures unchanged { OnErr result (self.new ≡ self.old) }
    {
        match self.membership.may_join(&self.settings, &silo, given) {
            Ok(()) => {}
            Err(refusal) => return Err(EventRefusal::of_change(refusal)),
        }
        match self.admit(silo, given) {
            Ok(replaced) => Ok(Outcome {
                happening: Happening::Joined {
                    version: self.current(),
                    silo,
                    replaced,
                },
                sent: None,
            }),
            Err(_) => Err(EventRefusal::OutOfMemory),
        }
    }

    // A silo that may join joins.
    fn admit(&mut self, silo: SiloAddress, given: &[u32]) -> Result<Option<SiloAddress>, AllocError>
        requires joins { after_join self.old.views silo ≡ Ok (with_join self.old.views silo) }
        requires room { self.old.accepted < self.old.settings.events }
        requires leaves { IfOk (made_world self.old (Join silo given.now)) IsWorld }
        ensures made { OnOk result (made_world self.old (Join silo given.now) ≡ Ok self.new) }
        ensures replaced { IfOk result (λ replaced. replaced ≡ occupant silo self.old.views.rows) }
        ensures unchanged { OnErr result (self.new ≡ self.old) }
    {
        self.shared = None;
        let replaced = put_in(
            self.alloc,
            &self.settings,
            &mut self.membership,
            &mut self.nodes,
            silo,
            given,
        )?;
        self.settings.counts_fit();
        self.accepted += 1;
        Ok(replaced)
    }
}

// The silo gets its node, its places and its row; where memory runs out, it gets none of them.
fn put_in(
    alloc: Global,
    settings: &Settings,
    membership: &mut Membership,
    nodes: &mut BTreeMap<SiloAddress, SharedNode>,
    silo: SiloAddress,
    given: &[u32],
) -> Result<Option<SiloAddress>, AllocError>
    requires joins { after_join membership.old.views silo ≡ Ok (with_join membership.old.views silo) }
    requires peopled { ArePeopled membership.old.views nodes.old.entries }
    ensures made { OnOk result (changed settings.now membership.old (Join silo given.now) ≡ Ok membership.new) }
    ensures nodes { OnOk result (nodes.new.entries ≡ insert_entry silo_cmp (nodes_without (occupant silo membership.old.views.rows) nodes.old.entries) silo (new_node settings.now silo)) }
    ensures replaced { IfOk result (λ replaced. replaced ≡ occupant silo membership.old.views.rows) }
    ensures membership_unchanged { OnErr result (membership.new ≡ membership.old) }
    ensures nodes_unchanged { OnErr result (nodes.new.entries ≡ nodes.old.entries) }
{
    put_new_node(alloc, *settings, nodes, silo)?;
    match membership.join(settings, silo, given) {
        Ok(replaced) => {
            remove_replaced(nodes, &replaced);
            Ok(replaced)
        }
        Err(_) => {
            remove_node(nodes, &silo);
            Err(AllocError)
        }
    }
}

// The silo that is replaced, if there is one, has no node any more.
fn remove_replaced(nodes: &mut BTreeMap<SiloAddress, SharedNode>, replaced: &Option<SiloAddress>)
    ensures { nodes.new.entries ≡ nodes_without replaced.now nodes.old.entries }
{
    if let Some(old) = replaced {
        remove_node(nodes, old);
    }
}
