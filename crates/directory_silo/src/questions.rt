//! Questions, which change nothing: about a grain, which the silo answers by the view that it has seen, and about itself.
ghost use Rattle.std.specs.Prelude.{◌≡◌, ◌↔◌, [], IfSome, IsNone, IsTrue, None};
ghost use Rattle.membership_view.specs.View.{active_silos};
ghost use Rattle.hash_ring.specs.Hash.{hash_grain};
ghost use Rattle.hash_ring.specs.Owner.{IsOwner, owner_of};
ghost use Rattle.hash_ring.specs.Ring.{is_active_in};
ghost use Rattle.directory_rules.specs.Placement.{silo_for};
ghost use Rattle.silo_rules.specs.Figures.{figures};

use crate::Silo;
use directory_rules::Policy;
use hash_ring::Point;
use silo_address::{GrainId, SiloAddress};
use silo_placement::silo_for;
use silo_rules::Figures;
use std::collections::BTreeMap;

// A silo that has seen no view knows of no point, and of no silo that is Active.
impl Silo {
    /// The point that owns the grain's hash, by the view that the silo has seen: its silo has the grain's entry. `None` where that view
    /// has no point (`docs/RULES.md#a-silo-by-itself`).
    pub fn owner(&self, grain: &GrainId) -> Option<Point>
        ensures exact { result ≡ owner_of self.now.node.ring.points (hash_grain self.now.node.settings.hashing grain.now) }
        ensures nearest { IfSome result (λ owner. IsOwner self.now.node.ring.points (hash_grain self.now.node.settings.hashing grain.now) owner) }
        ensures none { (result ≡ None) ↔ (self.now.node.ring.points ≡ []) }
    {
        self.node.ring().owner(self.hash_of(grain))
    }

    /// The silo on which this one would begin a new activation of the grain, by the policy, the view that it has seen, and how many
    /// activations silos hold, as the caller knows it; a silo that `counts` doesn't name holds 0. `None` exactly if no silo is Active in
    /// that view (`docs/RULES.md#a-silo-by-itself`).
    pub fn place(
        &self,
        policy: Policy,
        grain: &GrainId,
        counts: &BTreeMap<SiloAddress, u64>,
    ) -> Option<SiloAddress>
        ensures chosen { result ≡ silo_for policy self.now.node.view self.now.node.host.silo (hash_grain self.now.node.settings.hashing grain.now) counts.now.entries }
        ensures none { IsNone result ↔ (active_silos self.now.node.view ≡ []) }
        ensures active { IfSome result (λ silo. IsTrue (is_active_in self.now.node.view silo)) }
    {
        let hash = self.hash_of(grain);
        silo_for(policy, self.node.view(), &self.address(), hash, counts)
    }

    // The grain's hash, by the settings.
    fn hash_of(&self, grain: &GrainId) -> u32
        ensures { result ≡ hash_grain self.now.node.settings.hashing grain.now }
    {
        self.node.settings().hashing().hash_grain(grain)
    }
}

impl Silo {
    /// The silo's figures, which tell an operator whether it gets on. Costs a walk over the silo's ranges, and none over what it holds
    /// (`docs/RULES.md#a-silo-by-itself`).
    pub fn figures(&self) -> Figures
        ensures { result ≡ figures self.now }
    {
        let host = self.node.host();
        Figures {
            seen: self.node.view().version(),
            known: self.membership.views().current(),
            held: host.held_count() as u64,
            asking: host.asking_count() as u64,
            closing: host.closing_count() as u64,
            finding: host.find_count() as u64,
            unsettled: self.node.unsettled_count() as u64,
            kept: self.node.shelf().snapshots().len() as u64,
        }
    }
}
