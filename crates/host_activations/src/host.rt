ghost use Rattle.std.specs.Prelude.{◌≡◌, ◌+◌, ◌≤◌, ◌^◌, IfOk, count_by, length};
ghost use Rattle.directory_rules.specs.Host.{held_of, is_asking, is_closing, new_host};
ghost use Rattle.hash_ring.specs.Hash.{hash_grain};

mod about;
mod begin;
mod end;
mod limits;
mod renewal;
mod replies;
mod same;
mod telling;

use crate::Activations;
use crate::outstanding::OutstandingRequests;
use directory_rules::{Held, Settings};
use hash_ring::Hashing;
pub use renewal::Renewal;
use silo_address::{GrainId, SiloAddress};
use std::alloc::{AllocError, Global};
use std::marker::Model;

/// A silo as the host of activations: the activations that it holds, and the requests that it has outstanding, each
/// under a number of its own (`docs/RULES.md#phases`).
#[derive(Drop)]
pub struct Host {
    silo: SiloAddress,
    next_number: u64,
    held: Activations,
    outstanding: OutstandingRequests,
}

impl Model for Host {
    ghost use Rattle.directory_rules.specs.State.{Host};

    ghost Value = { Host };

    ghost use Rattle.host_activations.specs.HostModel.{host_of, IsWhole};

    ghost view = { host_of };

    ghost invariant = { IsWhole };
}

impl Host {
    /// The host of a silo, which has nothing yet, and whose first request will have this number, from 1 to 2^60 + 1: 1 in a
    /// directory. It reports the firm activations of a range fast where grains are hashed as the settings have it.
    pub fn new(alloc: Global, silo: SiloAddress, first_number: u64, settings: &Settings) -> Host
        requires above { 1 ≤ first_number }
        requires within { first_number ≤ 2 ^ 60 + 1 }
        ensures { result ≡ record (new_host silo) { next_number = first_number } }
    {
        Host {
            silo,
            next_number: first_number,
            held: Activations::new(alloc, settings),
            outstanding: OutstandingRequests::new(alloc),
        }
    }

    /// The silo.
    pub fn silo(&self) -> SiloAddress
        ensures { result ≡ self.now.silo }
    {
        self.silo
    }

    /// The number of the next request, from 1 to 2^60 + 1; the last one is past all numbers.
    pub fn next_number(&self) -> u64
        ensures { result ≡ self.now.next_number }
    {
        self.next_number
    }

    /// The count of the next activation, from 1 to 2^60 + 1; the last one is past all counts.
    pub fn next_count(&self) -> u64
        ensures { result ≡ self.now.next_count }
    {
        self.held.next_count()
    }

    /// What the host holds of the grain.
    pub fn held(&self, grain: &GrainId) -> Option<Held>
        ensures { result ≡ held_of self.now grain.now }
    {
        self.held.get(grain)
    }

    /// The hash of a grain. It needn't be hashed again where the host holds an activation of it, and was set up with that hashing.
    pub fn hash_of(&self, hashing: Hashing, grain: &GrainId) -> u32
        ensures { result ≡ hash_grain hashing grain.now }
    {
        self.held.hash_of(hashing, grain)
    }

    /// How many activations the host holds.
    pub fn held_count(&self) -> usize
        ensures { result ≡ length self.now.held }
    {
        self.held.len()
    }

    /// How many of them ask to be entered.
    pub fn asking_count(&self) -> usize
        ensures { result ≡ count_by (λ e. is_asking e.1.phase) self.now.held }
    {
        self.held.asking_count()
    }

    /// How many of them ask to be taken out.
    pub fn closing_count(&self) -> usize
        ensures { result ≡ count_by (λ e. is_closing e.1.phase) self.now.held }
    {
        self.held.closing_count()
    }

    /// How many finds the host has outstanding.
    pub fn find_count(&self) -> usize
        ensures { result ≡ length self.now.finds }
    {
        self.outstanding.find_count()
    }

    /// The activations, under their grains, in the order in which they began. Costs a sort of all of them. Fails only when memory
    /// runs out.
    pub fn activations(&self, alloc: Global) -> Result<Vec<(GrainId, Held)>, AllocError>
        ensures { IfOk result (λ list. list.items ≡ self.now.held) }
    {
        self.held.in_order(alloc)
    }
}
