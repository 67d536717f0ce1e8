ghost use Rattle.std.specs.BTreeMap.{is_at};
ghost use Rattle.std.specs.List.{IsDistinct};
ghost use Rattle.std.specs.Map.{keys_of, lookup, set_value};
ghost use Rattle.std.specs.Prelude.{◌≡◌, ◌+◌, ◌≤◌, ◌^◌, length, IfOk, MatchOption};
ghost use Rattle.silo_address.specs.Grain.{grain_cmp, grain_eq};
ghost use Rattle.directory_rules.specs.Host.{outstanding, renewed};
ghost use Rattle.host_activations.specs.Numbers.{phase_under};
ghost use Rattle.host_activations.specs.Renewal.{renewal_of, with_numbers};

use super::Host;
use super::telling::acts_in;
use crate::Activations;
use crate::asked::OutstandingRequest;
use crate::outstanding::{OutstandingRequests, renumbered};
use directory_rules::{Act, Phase};
use silo_address::GrainId;
use std::alloc::{AllocError, Global};
use std::collections::BTreeMap;
use std::marker::Model;

/// All that a host has outstanding, each request under a new number, in the order of the old ones: made before the host is
/// changed, so that the change needs no memory.
#[derive(Drop)]
pub struct Renewal {
    numbered: OutstandingRequests,
}

impl Model for Renewal {
    ghost use Rattle.std.specs.Prelude.{ℕ, List};
    ghost use Rattle.host_activations.specs.declared.asked.OutstandingRequest.{OutstandingRequest as AskedSeen};

    ghost Value = { List (ℕ × AskedSeen) };

    ghost view = { λ r. r.numbered.entries };
}

impl Host {
    /// A new number for every outstanding request, in the order of the old ones. Fails only when memory runs out.
    pub fn renewal(&self, alloc: Global) -> Result<Renewal, AllocError>
        requires { self.now.next_number + length (outstanding self.now) ≤ 2 ^ 60 + 1 }
        ensures { IfOk result (λ renewal. renewal ≡ renewal_of self.now) }
    {
        let numbered = renumbered(alloc, self.outstanding.by_number(), self.next_number)?;
        Ok(Renewal { numbered })
    }

    /// Every outstanding request has its new number from now on. Asks of its caller that this is the host's own renewal.
    pub fn renew(&mut self, renewal: Renewal)
        requires own { renewal ≡ renewal_of self.old }
        requires numbers { self.old.next_number + length (outstanding self.old) ≤ 2 ^ 60 + 1 }
        ensures { self.new ≡ renewed self.old }
    {
        let Renewal { numbered } = renewal;
        let count = self.outstanding.len() as u64;
        set_numbers(&mut self.held, numbered.by_number());
        self.next_number += count;
        self.outstanding = numbered;
    }

    /// What is outstanding once the host is renewed, under the new numbers in their order. Fails only when memory runs out.
    pub fn renewed_requests(
        &self,
        alloc: Global,
        renewal: &Renewal,
    ) -> Result<Vec<(u64, Act)>, AllocError>
        requires { renewal.now ≡ renewal_of self.now }
        ensures { IfOk result (λ requests. requests.items ≡ outstanding (renewed self.now)) }
    {
        acts_in(alloc, self.silo, &self.held, renewal.numbered.by_number())
    }
}

// Each activation whose request is told has it under the number that is told.
pub(super) fn set_numbers(held: &mut Activations, numbered: &BTreeMap<u64, OutstandingRequest>)
    ensures count { held.new.next_count ≡ held.old.next_count }
    ensures set { held.new.entries ≡ with_numbers numbered.now.entries held.old.entries }
{
    for (number, asked) in numbered {
        if let OutstandingRequest::Activation(grain) = asked {
            set_number(held, grain, *number);
        }
    }
}

// The request of the grain's activation, if it has one, is under this number from now on.
fn set_number(map: &mut Activations, grain: &GrainId, number: u64)
    ensures set { MatchOption (lookup (is_at (grain_cmp grain.now)) map.old.entries) (map.new.entries ≡ map.old.entries)
        (λ held. map.new.entries ≡ set_value (is_at (grain_cmp grain.now)) map.old.entries (record held { phase = phase_under number held.phase })) }
    ensures count { map.new.next_count ≡ map.old.next_count }
    ensures apart { IsDistinct grain_eq (keys_of map.old.entries) }
{
    map.whole();
    if let Some(held) = map.get(grain) {
        map.set(grain, phase_under(number, &held.phase), held.previous);
    }
}

// The phase, its request under this number, if it has one.
fn phase_under(number: u64, phase: &Phase) -> Phase
    ensures { result ≡ phase_under number phase.now }
{
    match phase {
        Phase::Asking(_) => Phase::Asking(number),
        Phase::Firm => Phase::Firm,
        Phase::Closing(_) => Phase::Closing(number),
    }
}
