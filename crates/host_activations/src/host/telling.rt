ghost use Rattle.std.specs.Option.{option_map};
ghost use Rattle.std.specs.Prelude.{◌≡◌, ◌==◌, IfOk, None, length};
ghost use Rattle.directory_rules.specs.Host.{act_in, firm_behind, new_host, outstanding};
ghost use Rattle.host_activations.specs.Page.{IsPage};
ghost use Rattle.host_activations.specs.Acts.{act_for, acts_in};

use super::Host;
use crate::asked::OutstandingRequest;
use crate::{Activations, FirmPage, PageAsked, entry_on};
use directory_rules::{Act, Held, Phase};
use hash_ring::Hashing;
use ring_range::RingRange;
use silo_address::{GrainId, SiloAddress};
use std::alloc::{AllocError, Global};
use std::collections::BTreeMap;

impl Host {
    /// The first entries of those of the firm activations that are hashed into the range and stand behind a grain, so many at most, and
    /// whether no others stand behind them. Where the hashing is the host's own it costs a logarithm, what it tells, and what it passes over
    /// that isn't firm; otherwise it looks at all activations. Fails only when memory runs out.
    pub fn firm_page(&self, alloc: Global, asked: &PageAsked) -> Result<FirmPage, AllocError>
        ensures { IfOk result (IsPage (firm_behind asked.now.hashing self.now asked.now.range asked.now.after) asked.now.most) }
    {
        self.held.firm_page(alloc, self.silo, asked)
    }

    /// Whether no activation is firm and hashed into the range. Where the hashing is the host's own it costs a logarithm, and what it passes
    /// over that isn't firm; otherwise it looks at all activations. It takes no memory.
    pub fn has_none_firm(&self, hashing: Hashing, range: RingRange) -> bool
        ensures { result ≡ (length (firm_behind hashing self.now range None) == 0) }
    {
        !self.held.has_firm(hashing, range)
    }

    /// What is outstanding, under its numbers in their order. Fails only when memory runs out.
    pub fn requests(&self, alloc: Global) -> Result<Vec<(u64, Act)>, AllocError>
        ensures { IfOk result (λ requests. requests.items ≡ outstanding self.now) }
    {
        acts_in(alloc, self.silo, &self.held, self.outstanding.by_number())
    }
}

// The requests as acts, under their numbers.
pub(super) fn acts_in(
    alloc: Global,
    silo: SiloAddress,
    held: &Activations,
    outstanding: &BTreeMap<u64, OutstandingRequest>,
) -> Result<Vec<(u64, Act)>, AllocError>
    ensures { IfOk result (λ acts. acts.items ≡ acts_in silo held.now.entries outstanding.now.entries) }
{
    outstanding
        .iter()
        .filter_map(|(number, asked)| Some((*number, act_for(silo, held, asked)?)))
        .collect(alloc)
}

// What a request asks.
fn act_for(silo: SiloAddress, held: &Activations, asked: &OutstandingRequest) -> Option<Act>
    ensures { result ≡ act_for silo held.now.entries asked.now }
{
    match asked {
        OutstandingRequest::Activation(grain) => {
            let held = held.get(grain)?;
            act_in(silo, *grain, &held)
        }
        OutstandingRequest::Find(grain) => Some(Act::Find { grain: *grain }),
    }
}

// What an activation on the silo asks in its phase.
fn act_in(silo: SiloAddress, grain: GrainId, held: &Held) -> Option<Act>
    ensures { result ≡ option_map (λ e. e.1) (act_in held.now.phase (new_host silo) grain held.now) }
{
    let entry = entry_on(silo, grain, held);
    match held.phase {
        Phase::Asking(_) => Some(Act::Register {
            entry,
            previous: held.previous,
        }),
        Phase::Firm => None,
        Phase::Closing(_) => Some(Act::Deregister { entry }),
    }
}
