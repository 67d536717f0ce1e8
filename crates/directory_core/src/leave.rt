ghost use Rattle.std.specs.Prelude.{◌≡◌, ◌<◌, IfErr, IfOk, OnErr};
ghost use Rattle.directory_rules.specs.Happens.{decides, status_now};
ghost use Rattle.directory_rules.specs.Members.{is_known_dead};
ghost use Rattle.directory_rules.specs.Membership.{Die, Leave};
ghost use Rattle.directory_rules.specs.World.{accepted_as};
ghost use Rattle.directory_node.specs.Follows.{Follows};
ghost use Rattle.directory_node.specs.MembershipModel.{change_refusal_number};
ghost use Rattle.directory_core.specs.Applied.{IsNever};
ghost use Rattle.directory_core.specs.Changes.{made_world};
ghost use Rattle.directory_core.specs.Numbers.{IsNumberedUnlessMemory, event_refusal_number};
ghost use Rattle.directory_core.specs.Whole.{IsWorld, LeavesWorld};

use crate::nodes::remove_node;
use crate::{EventRefusal, World};
use directory_node::ChangeRefusal;
use directory_rules::{Happening, Outcome};
use membership_view::Status;
use silo_address::SiloAddress;

// A silo leaves or dies, as membership lets it; but in a world nothing happens to a silo that is Dead.
impl World {
    // A silo begins to leave: 902, then 202, 203.
    #[inline(never)]
    pub(crate) fn leave(&mut self, silo: &SiloAddress) -> Result<Outcome, EventRefusal>
        requires room { self.old.accepted < self.old.settings.events }
        requires leaves { LeavesWorld (decides self.old (Leave silo.now)) }
        ensures told { Follows (accepted_as self.new) event_refusal_number IsNever (decides self.old (Leave silo.now)) result }
        ensures numbered { IfErr result IsNumberedUnlessMemory }
        ensures unchanged { OnErr result (self.new ≡ self.old) }
    {
        if self.is_dead(silo) {
            return Err(EventRefusal::DeadSilo);
        }
        match self.begin_to_leave(silo) {
            Ok(()) => Ok(Outcome {
                happening: Happening::Left {
                    version: self.current(),
                    silo: *silo,
                },
                sent: None,
            }),
            Err(refusal) => Err(EventRefusal::of_change(refusal)),
        }
    }

    // A silo dies: 902, then 202.
    #[inline(never)]
    pub(crate) fn kill(&mut self, silo: &SiloAddress) -> Result<Outcome, EventRefusal>
        requires room { self.old.accepted < self.old.settings.events }
        requires leaves { LeavesWorld (decides self.old (Die silo.now)) }
        ensures told { Follows (accepted_as self.new) event_refusal_number IsNever (decides self.old (Die silo.now)) result }
        ensures numbered { IfErr result IsNumberedUnlessMemory }
        ensures unchanged { OnErr result (self.new ≡ self.old) }
    {
        if self.is_dead(silo) {
            return Err(EventRefusal::DeadSilo);
        }
        match self.die(silo) {
            Ok(()) => Ok(Outcome {
                happening: Happening::Died {
                    version: self.current(),
                    silo: *silo,
                },
                sent: None,
            }),
            Err(refusal) => Err(EventRefusal::of_change(refusal)),
        }
    }

    // Whether a silo is Dead in the current view.
    fn is_dead(&self, silo: &SiloAddress) -> bool
        ensures { result ≡ is_known_dead (status_now self.now silo.now) }
    {
        match self.membership.status(silo) {
            Some(Status::Dead) => true,
            Some(Status::Active | Status::Leaving) | None => false,
        }
    }

    // A silo begins to leave.
    fn begin_to_leave(&mut self, silo: &SiloAddress) -> Result<(), ChangeRefusal>
        requires room { self.old.accepted < self.old.settings.events }
        requires leaves { IfOk (made_world self.old (Leave silo.now)) IsWorld }
        ensures made { Follows (λ _. self.new) change_refusal_number IsNever (made_world self.old (Leave silo.now)) result }
        ensures unchanged { OnErr result (self.new ≡ self.old) }
    {
        self.membership.leave(silo)?;
        self.shared = None;
        self.settings.counts_fit();
        self.accepted += 1;
        Ok(())
    }

    // A silo dies, and its node goes.
    fn die(&mut self, silo: &SiloAddress) -> Result<(), ChangeRefusal>
        requires room { self.old.accepted < self.old.settings.events }
        requires leaves { IfOk (made_world self.old (Die silo.now)) IsWorld }
        ensures made { Follows (λ _. self.new) change_refusal_number IsNever (made_world self.old (Die silo.now)) result }
        ensures unchanged { OnErr result (self.new ≡ self.old) }
    {
        self.membership.declare_dead(silo)?;
        self.shared = None;
        remove_node(&mut self.nodes, silo);
        self.settings.counts_fit();
        self.accepted += 1;
        Ok(())
    }
}
