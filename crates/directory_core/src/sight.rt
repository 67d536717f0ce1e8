ghost use Rattle.std.specs.Prelude.{◌≡◌, ◌-◌, ◌<◌, ◌≤◌, IfErr, IfOk, IfSome, IsOk, IsTrue, OnErr};
ghost use Rattle.membership_view.specs.Views.{view_at};
ghost use Rattle.directory_facts.specs.Seen.{SeesItsVersion};
ghost use Rattle.directory_rules.specs.Happens.{sees};
ghost use Rattle.directory_rules.specs.Input.{sight_of, step};
ghost use Rattle.directory_rules.specs.Membership.{is_seeable};
ghost use Rattle.directory_rules.specs.World.{accepted_as, membership_of};
ghost use Rattle.directory_node.specs.Follows.{Follows};
ghost use Rattle.directory_node.specs.Plans.{Fits, step_by};
ghost use Rattle.directory_node.specs.Transition.{IsOfSight};
ghost use Rattle.directory_core.specs.Applied.{IsOkOrFull};
ghost use Rattle.directory_core.specs.Numbers.{IsNumberedUnlessMemory, event_refusal_number};
ghost use Rattle.directory_core.specs.Transitions.{ComesNext, IsShared};
ghost use Rattle.directory_core.specs.Whole.{LeavesWorld};

use crate::{EventRefusal, World};
use directory_node::{Node, Plan, StepRefusal, Transition};
use directory_rules::{Happening, Outcome};
use membership_view::View;
use silo_address::SiloAddress;
use std::alloc::AllocError;

impl World {
    // A silo sees a version: 901, 902, 903, 904, 805, then 909.
    #[inline(never)]
    pub(crate) fn sees(&mut self, silo: &SiloAddress, version: u64) -> Result<Outcome, EventRefusal>
        requires room { self.old.accepted < self.old.settings.events }
        requires leaves { LeavesWorld (sees self.old silo.now version) }
        ensures told { Follows (accepted_as self.new) event_refusal_number IsOkOrFull (sees self.old silo.now version) result }
        ensures numbered { IfErr result IsNumberedUnlessMemory }
        ensures unchanged { OnErr result (self.new ≡ self.old) }
    {
        self.whole();
        let Some(node) = self.node(silo) else {
            return Err(self.absent(silo));
        };
        if version <= node.view().version() {
            return Err(EventRefusal::Node(StepRefusal::NotNewer));
        }
        if !self.is_seeable(silo, version) {
            return Err(EventRefusal::NoSuchVersion);
        }
        let (plan, transition) = self.sight(node, version)?;
        let happening = Happening::Saw {
            silo: *silo,
            version,
            effect: plan.effect,
        };
        self.share(transition);
        self.take(silo, happening, plan)
    }

    // The transition is kept for the silos that see its version next; without one, the one that was kept stays.
    fn share(&mut self, transition: Option<Transition>)
        requires { IsShared self.old.views self.old.places transition }
        ensures { self.new ≡ self.old }
    {
        if transition.is_some() {
            self.shared = transition;
        }
    }

    // Whether there is that view, and the silo is in it.
    fn is_seeable(&self, silo: &SiloAddress, version: u64) -> bool
        ensures { result ≡ is_seeable (membership_of self.now) silo.now version }
    {
        self.membership.is_seeable(silo, version)
    }

    // A node's sight of a newer version, as a plan, and the transition by which it goes there, if others may go there by the same.
    // Where its requests can get no new numbers, that is told before memory is needed.
    fn sight(&self, node: &Node, version: u64) -> Result<(Plan, Option<Transition>), EventRefusal>
        requires newer { node.now.view.version < version }
        requires made { version ≤ self.now.views.version }
        requires sees { SeesItsVersion self.now.views self.now.places node.now }
        ensures planned { Follows (λ sight. step_by node.now sight.0) event_refusal_number IsOk (step node.now (sight_of (membership_of self.now) version)) result }
        ensures numbered { IfErr result IsNumberedUnlessMemory }
        ensures fits { IfOk result (λ sight. Fits sight.0.change node.now) }
        ensures shared { IfOk result (λ sight. IsShared self.now.views self.now.places sight.1) }
    {
        if !node.can_renew() {
            return Err(EventRefusal::Node(StepRefusal::NumbersSpent));
        }
        let before = self.view(version - 1)?;
        let view = self.view(version)?;
        let Ok(transition) = self.transition(node, &before, &view) else {
            return Err(EventRefusal::OutOfMemory);
        };
        match node.plan_sight_by(self.alloc, &before, &view, &transition) {
            Ok(plan) => Ok((plan, shareable(node, &view, transition))),
            Err(refusal) => Err(EventRefusal::of_node(refusal)),
        }
    }

    // By which transition the node goes to the view: by the shared one, where that goes there from the version that the node has
    // seen.
    fn transition(&self, node: &Node, before: &View, view: &View) -> Result<Transition, AllocError>
        requires newer { node.now.view.version < view.now.version }
        requires sees { SeesItsVersion self.now.views self.now.places node.now }
        requires before { before.now ≡ view_at self.now.views (view.now.version - 1) }
        requires view { view.now ≡ view_at self.now.views view.now.version }
        ensures { IfOk result (λ transition. IsOfSight node.now before.now view.now self.now.places transition) }
    {
        self.whole();
        if let Some(shared) = &self.shared {
            if shared.ring().version() == view.version() && has_seen_before(node, view) {
                return shared.copy();
            }
        }
        node.transition(self.alloc, before, view, self.membership.places())
    }

    // The view of a version that was made.
    fn view(&self, version: u64) -> Result<View, EventRefusal>
        requires made { version ≤ self.now.views.version }
        ensures exact { IfOk result (λ view. view ≡ view_at self.now.views version) }
        ensures memory { IfErr result (λ refusal. refusal ≡ EventRefusal.OutOfMemory) }
    {
        match self.membership.view(self.alloc, version) {
            Ok(view) => Ok(view),
            Err(_) => Err(EventRefusal::OutOfMemory),
        }
    }
}

// Whether the node has seen just the version before the view, and isn't new.
fn has_seen_before(node: &Node, view: &View) -> bool
    requires { node.now.view.version < view.now.version }
    ensures { IsTrue result → ComesNext node.now view.now }
{
    let seen = node.view().version();
    seen != 0 && view.version() == seen + 1
}

// The node's transition to the view, if it goes there from the version before.
fn shareable(node: &Node, view: &View, transition: Transition) -> Option<Transition>
    requires { node.now.view.version < view.now.version }
    ensures same { IfSome result (λ shared. shared ≡ transition) }
    ensures next { IfSome result (λ _. ComesNext node.now view.now) }
{
    if has_seen_before(node, view) {
        Some(transition)
    } else {
        None
    }
}
