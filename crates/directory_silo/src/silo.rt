ghost use Rattle.std.specs.Prelude.{◌≡◌, IfOk};
ghost use Rattle.silo_rules.specs.SiloValue.{first_silo, own_status};
ghost use Rattle.silo_rules.specs.Whole.{IsWhole};

use directory_node::{Membership, Node};
use directory_rules::Settings;
use hash_ring::Places;
use membership_view::{Status, Views};
use silo_address::SiloAddress;
use std::alloc::{AllocError, Global};
use std::marker::Model;

/// One silo by itself, as a server or a process of its own has it: what it was told of the changes of membership, and its node. It
/// takes no step before it was told of its own join, and none once it is Dead by what it was told
/// (`docs/RULES.md#a-silo-by-itself`).
#[derive(Drop)]
pub struct Silo {
    pub(crate) alloc: Global,
    pub(crate) membership: Membership,
    pub(crate) node: Node,
}

impl Model for Silo {
    ghost use Rattle.silo_rules.specs.SiloValue.{SiloValue};

    ghost Value = { SiloValue };

    ghost use Rattle.silo_rules.specs.Whole.{IsWhole};
    ghost use Rattle.directory_silo.specs.SiloModel.{silo_of};

    ghost view = { silo_of };

    ghost invariant = { λ s. IsWhole (silo_of s) };
}

impl Silo {
    /// The silo of that address, set up so; all silos of a directory have the same settings. It was told nothing yet. Fails only when
    /// memory runs out.
    pub fn new(alloc: Global, settings: Settings, silo: SiloAddress) -> Result<Silo, AllocError>
        ensures { IfOk result (λ made. made ≡ first_silo settings silo) }
    {
        let node = Node::new(alloc, settings, silo)?;
        Ok(Silo {
            alloc,
            membership: Membership::new(alloc, &settings),
            node,
        })
    }

    /// The silo's own address.
    pub fn address(&self) -> SiloAddress
        ensures { result ≡ self.now.node.host.silo }
    {
        self.node.host().silo()
    }

    /// All views that the silo was told.
    pub fn views(&self) -> &Views
        ensures { result.now ≡ self.now.membership.views }
    {
        self.membership.views()
    }

    /// The places of each silo that it was told has joined, but for those that were Dead in the view with which its history begins.
    pub fn places(&self) -> &Places
        ensures { result.now ≡ self.now.membership.places }
    {
        self.membership.places()
    }

    /// Its node: what it has seen, and keeps.
    pub fn node(&self) -> &Node
        ensures { result.now ≡ self.now.node }
    {
        &self.node
    }

    /// What the silo itself is by the last change that it was told; `None` before its own join.
    pub fn status(&self) -> Option<Status>
        ensures { result ≡ own_status self.now }
    {
        self.membership.status(&self.address())
    }

    /// A law: views and places are by the settings, and the node's ring is that of the view that it has seen, by these places.
    pub fn whole(&self)
        ensures { IsWhole self.now }
    {
        let _alloc = self.alloc;
    }
}
