ghost use Rattle.std.specs.Prelude.{◌≡◌, ◌↔◌, if◌then◌else◌, Bool, IfSome, IsTrue, None, Some, find, option_and_then};
ghost use Rattle.std.specs.BTreeMap.{is_at};
ghost use Rattle.std.specs.Map.{lookup};
ghost use Rattle.std.specs.Ordering.{nat_cmp};
ghost use Rattle.directory_rules.specs.declared.Phase.{Phase as PhaseSeen};
ghost use Rattle.host_activations.specs.Numbers.{number_in};
ghost use Rattle.directory_rules.specs.Host.{asking_under, closing_under, is_finding, is_outstanding};
ghost use Rattle.host_activations.specs.Asked.{asked_under, find_in};
ghost use Rattle.host_activations.specs.declared.asked.OutstandingRequest.TheVariants.{Activation};
ghost use Rattle.silo_address.specs.Grain.{Grain};

use super::Host;
use crate::asked::{OutstandingRequest, find_in};
use crate::outstanding::OutstandingRequests;
use directory_rules::{Held, Phase};
use silo_address::GrainId;

impl Host {
    /// The activation whose Register has the number.
    pub fn asking_under(&self, number: u64) -> Option<(GrainId, Held)>
        ensures { result ≡ asking_under self.now number }
    {
        let found = self.held_under(number)?;
        match found.1.phase {
            Phase::Asking(_) => Some(found),
            Phase::Firm => None,
            Phase::Closing(_) => None,
        }
    }

    /// The activation whose Deregister has the number.
    pub fn closing_under(&self, number: u64) -> Option<(GrainId, Held)>
        ensures { result ≡ closing_under self.now number }
    {
        let found = self.held_under(number)?;
        match found.1.phase {
            Phase::Asking(_) => None,
            Phase::Firm => None,
            Phase::Closing(_) => Some(found),
        }
    }

    // The activation whose request has the number, whatever that asks. A search for a phase that has the number finds it or none.
    fn held_under(&self, number: u64) -> Option<(GrainId, Held)>
        ensures asked { IfSome result (λ e. number_in e.1.phase ≡ Some number) }
        ensures found { (test : PhaseSeen → Bool) → ((phase : PhaseSeen) → IsTrue (test phase) → number_in phase ≡ Some number)
            → find (λ e. test e.1.phase) self.now.held ≡ option_and_then (λ e. if test e.1.phase then Some e else None) result }
    {
        let grain = activation_under(&self.outstanding, number)?;
        let held = self.held.get(&grain)?;
        Some((grain, held))
    }

    /// Whether a request of the number is outstanding.
    pub fn is_outstanding(&self, number: u64) -> bool
        ensures { result ≡ is_outstanding self.now number }
    {
        self.outstanding.contains_key(number)
    }

    /// The grain for which the find of the number asks; `None` where no find has the number.
    pub fn finding_under(&self, number: u64) -> Option<GrainId>
        ensures { result ≡ lookup (is_at (nat_cmp number)) self.now.finds }
    {
        find_under(&self.outstanding, number)
    }

    /// Whether a find of the number is outstanding.
    pub fn is_finding(&self, number: u64) -> bool
        ensures { result ≡ is_finding self.now number }
    {
        find_under(&self.outstanding, number).is_some()
    }
}

// The activation whose request has the number.
fn activation_under(outstanding: &OutstandingRequests, number: u64) -> Option<GrainId>
    ensures { (grain : Grain) → (result ≡ Some grain) ↔ (asked_under number outstanding.now.entries ≡ Some (Activation grain)) }
{
    let asked = outstanding.get(number)?;
    match asked {
        OutstandingRequest::Activation(grain) => Some(*grain),
        OutstandingRequest::Find(_) => None,
    }
}

// The grain for which the find of the number asks.
pub(super) fn find_under(outstanding: &OutstandingRequests, number: u64) -> Option<GrainId>
    ensures { result ≡ option_and_then find_in (asked_under number outstanding.now.entries) }
{
    find_in(*outstanding.get(number)?)
}
