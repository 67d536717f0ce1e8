ghost use Rattle.std.specs.Prelude.{◌≡◌, ◌↔◌, IsTrue, IfOk, option_copied};
ghost use Rattle.directory_rules.specs.Node.{new_node};
ghost use Rattle.node_plans.specs.Node.{IsNode};
ghost use Rattle.node_plans.specs.CacheModel.{cache_of};

use directory_rules::Settings;
use grain_partition::Holding;
use hash_ring::Ring;
use host_activations::Host;
use lookup_cache::Cache;
use membership_view::View;
use node_plans::{
    copied_own, copied_sight, copied_tables, copied_waits, new_cache, same_caches, same_gatherings,
    same_recoveries,
};
use range_recovery::Recovery;
use seal_snapshot::{Gathering, Shelf};
use silo_address::SiloAddress;
use std::alloc::{AllocError, Global};
use std::collections::BTreeMap;
use std::marker::Model;
use std::sync;

/// All that one silo knows (`docs/RULES.md#the-world`).
#[derive(Drop)]
pub struct Node {
    pub(crate) alloc: Global,
    pub(crate) settings: Settings,
    pub(crate) view: View,
    // Shared with whoever has seen the same view by the same transition.
    pub(crate) ring: sync::Arc<Ring>,
    pub(crate) holding: Holding,
    pub(crate) shelf: Shelf,
    pub(crate) gatherings: BTreeMap<u32, Gathering>,
    pub(crate) recoveries: BTreeMap<u32, Recovery>,
    pub(crate) host: Host,
    // None where the settings are for no entry.
    pub(crate) cache: Option<Cache>,
}

impl Model for Node {
    ghost use Rattle.directory_rules.specs.State.{Node};

    ghost Value = { Node };

    ghost use Rattle.node_plans.specs.Node.{IsNode};
    ghost use Rattle.directory_node.specs.NodeModel.{node_of};

    ghost view = { node_of };

    ghost invariant = { λ n. IsNode (node_of n) };
}

impl Node {
    /// The node of a silo that has just joined: it has seen nothing. Fails only when memory runs out.
    pub fn new(alloc: Global, settings: Settings, silo: SiloAddress) -> Result<Node, AllocError>
        ensures { IfOk result (λ node. node ≡ new_node settings silo) }
    {
        let cache = new_cache(alloc, &settings)?;
        let ring = sync::Arc::new(alloc, Ring::empty(alloc))?;
        Ok(Node {
            alloc,
            settings,
            view: View::empty(alloc),
            ring,
            holding: Holding::new(alloc),
            shelf: Shelf::new(alloc),
            gatherings: BTreeMap::new(alloc),
            recoveries: BTreeMap::new(alloc),
            host: Host::new(alloc, silo, 1, &settings),
            cache,
        })
    }

    /// What the node is set up with.
    pub fn settings(&self) -> Settings
        ensures { result ≡ self.now.settings }
    {
        self.settings
    }

    /// The view that the silo has seen.
    pub fn view(&self) -> &View
        ensures { result.now ≡ self.now.view }
    {
        &self.view
    }

    /// The ring of that view.
    pub fn ring(&self) -> &Ring
        ensures { result.now ≡ self.now.ring }
    {
        &self.ring
    }

    /// What the silo keeps for others.
    pub fn holding(&self) -> &Holding
        ensures { result.now ≡ self.now.holding }
    {
        &self.holding
    }

    /// The snapshots that wait for their new owners.
    pub fn shelf(&self) -> &Shelf
        ensures { result.now ≡ self.now.shelf }
    {
        &self.shelf
    }

    /// What the silo has of the snapshots that it awaits, under the starts of their pieces.
    pub fn gatherings(&self) -> &BTreeMap<u32, Gathering>
        ensures { result.now.entries ≡ self.now.gatherings }
    {
        &self.gatherings
    }

    /// What the silo has been reported for the pieces that recover, under their starts.
    pub fn recoveries(&self) -> &BTreeMap<u32, Recovery>
        ensures { result.now.entries ≡ self.now.recoveries }
    {
        &self.recoveries
    }

    /// The hints of where grains are; `None` where the settings keep none.
    pub fn cache(&self) -> Option<&Cache>
        ensures { cache_of (option_copied result) ≡ self.now.cache }
    {
        match &self.cache {
            Some(cache) => Some(cache),
            None => None,
        }
    }

    /// The silo as the host of activations.
    pub fn host(&self) -> &Host
        ensures { result.now ≡ self.now.host }
    {
        &self.host
    }

    /// A law: what all nodes keep.
    pub fn whole(&self)
        ensures { IsNode self.now }
    {
        let _settings = self.settings;
    }

    /// An equal node. Fails only when memory runs out.
    pub fn copy(&self) -> Result<Node, AllocError>
        ensures { IfOk result (λ node. node ≡ self.now) }
    {
        let (view, ring) = copied_sight(&self.view, &self.ring)?;
        let (holding, shelf) = copied_tables(&self.holding, &self.shelf)?;
        let (gatherings, recoveries) = copied_waits(&self.gatherings, &self.recoveries)?;
        let (host, cache) = copied_own(&self.host, &self.cache)?;
        Ok(Node {
            alloc: self.alloc,
            settings: self.settings,
            view,
            ring,
            holding,
            shelf,
            gatherings,
            recoveries,
            host,
            cache,
        })
    }

    /// Whether the two know the same. What rises is looked at first, and no table where it differs; else the tables are walked once.
    pub fn same(&self, other: &Node) -> bool
        ensures { IsTrue result ↔ (self.now ≡ other.now) }
    {
        self.rose_as_high(other) && self.knows_the_same(other)
    }

    // Whether both have had as many requests and activations of their own, and have seen the same version.
    fn rose_as_high(&self, other: &Node) -> bool
        ensures { IsTrue result ↔ (self.now.host.next_number ≡ other.now.host.next_number) × (self.now.host.next_count ≡ other.now.host.next_count) × (self.now.view.version ≡ other.now.view.version) }
    {
        self.host.next_number() == other.host.next_number()
            && self.host.next_count() == other.host.next_count()
            && self.view.version() == other.view.version()
    }

    // Whether the two know the same, one part after the other.
    fn knows_the_same(&self, other: &Node) -> bool
        ensures { IsTrue result ↔ (self.now ≡ other.now) }
    {
        self.settings.same(&other.settings)
            && self.view.same(&other.view)
            && self.ring.same(&other.ring)
            && self.holding.same(&other.holding)
            && self.shelf.same(&other.shelf)
            && self.host.same(&other.host)
            && same_caches(&self.cache, &other.cache)
            && same_gatherings(&self.gatherings, &other.gatherings)
            && same_recoveries(&self.recoveries, &other.recoveries)
    }
}
