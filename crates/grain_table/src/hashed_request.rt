//! Requests whose grains needn't be hashed again.
ghost use Rattle.std.specs.Prelude.{◌≡◌, ◌↔◌, IsTrue};
ghost use Rattle.directory_rules.specs.Host.{grain_of};
ghost use Rattle.hash_ring.specs.Hash.{hash_grain};
ghost use Rattle.grain_table.specs.Hashed.{IsKeyOf, key_of};

use crate::hashed_grain::HashedGrain;
use directory_rules::{Act, Request};
use hash_ring::Hashing;
use silo_address::{GrainId, SiloAddress};
use std::marker::Model;

/// A request, beside which stands by which hashing its hash is known to be that of its grain, if by any. Who serves it by that
/// hashing takes the hash as it is; who serves it by another one, or where none is known, hashes the grain. No answer depends on it
/// (`docs/RULES.md#requests`).
#[derive(Drop)]
pub struct HashedRequest {
    request: Request,
    known_by: Option<Hashing>,
}

impl Model for HashedRequest {
    ghost use Rattle.directory_rules.specs.declared.act.Request.{Request};

    ghost Value = { Request };

    ghost use Rattle.grain_table.specs.Hashed.{IsHashedBy};

    ghost view = { λ r. r.request };

    ghost invariant = { λ r. IsHashedBy r.known_by r.request };
}

impl HashedRequest {
    /// A request of these parts, with the hash of its grain.
    pub fn of(
        hashing: Hashing,
        sender: SiloAddress,
        version: u64,
        number: u64,
        act: Act,
    ) -> HashedRequest
        ensures { result ≡ record { sender = sender; version = version; number = number; hash = hash_grain hashing (grain_of act); act = act } }
    {
        let hash = hashing.hash_grain(grain_of(&act));
        HashedRequest::hashed(hashing, sender, version, number, hash, act)
    }

    /// A request of these parts, where the hash of its grain is known already.
    pub fn hashed(
        hashing: Hashing,
        sender: SiloAddress,
        version: u64,
        number: u64,
        hash: u32,
        act: Act,
    ) -> HashedRequest
        requires { hash ≡ hash_grain hashing (grain_of act) }
        ensures { result ≡ record { sender = sender; version = version; number = number; hash = hash; act = act } }
    {
        let request = Request {
            sender,
            version,
            number,
            hash,
            act,
        };
        HashedRequest {
            request,
            known_by: Some(hashing),
        }
    }

    /// A request as it came: its hash is what its sender says.
    pub fn claimed(request: Request) -> HashedRequest
        ensures { result ≡ request }
    {
        HashedRequest {
            request,
            known_by: None,
        }
    }

    /// The same request. Its grain is hashed now, where the hash isn't known yet to be the grain's by this hashing.
    pub fn checked(&self, hashing: Hashing) -> HashedRequest
        ensures { result ≡ self.now }
    {
        if self.hash_by(hashing) != self.request.hash {
            return self.copy();
        }
        HashedRequest {
            request: self.request,
            known_by: Some(hashing),
        }
    }

    /// The request.
    pub fn request(&self) -> &Request
        ensures { result.now ≡ self.now }
    {
        &self.request
    }

    /// An equal request.
    pub fn copy(&self) -> HashedRequest
        ensures { result ≡ self.now }
    {
        HashedRequest {
            request: self.request,
            known_by: self.known_by,
        }
    }

    /// Whether the two are one request.
    pub fn same(&self, other: &HashedRequest) -> bool
        ensures { IsTrue result ↔ (self.now ≡ other.now) }
    {
        self.request.same(&other.request)
    }

    // Its grain with the hash.
    pub(crate) fn key(&self, hashing: Hashing) -> HashedGrain
        ensures value { result ≡ key_of hashing (grain_of self.now.act) }
        ensures key { IsKeyOf hashing result }
    {
        let grain = self.grain();
        grain.in_range();
        HashedGrain {
            hash: self.hash_by(hashing),
            grain: *grain,
        }
    }

    // The hash of its grain.
    fn hash_by(&self, hashing: Hashing) -> u32
        ensures { result ≡ hash_grain hashing (grain_of self.now.act) }
    {
        if self.is_known_by(hashing) {
            return self.request.hash;
        }
        hashing.hash_grain(self.grain())
    }

    // Whether the hash is known to be the grain's by this hashing.
    fn is_known_by(&self, hashing: Hashing) -> bool
        ensures { IsTrue result → self.now.hash ≡ hash_grain hashing (grain_of self.now.act) }
    {
        match self.known_by {
            Some(known_by) => known_by.same(&hashing),
            None => false,
        }
    }

    // The grain that it is about.
    fn grain(&self) -> &GrainId
        ensures { result.now ≡ grain_of self.now.act }
    {
        grain_of(&self.request.act)
    }
}

/// The grain that an act is about.
pub fn grain_of(act: &Act) -> &GrainId
    ensures { result.now ≡ grain_of act.now }
{
    match act {
        Act::Register { entry, .. } | Act::Deregister { entry } => &entry.grain,
        Act::Find { grain } => grain,
    }
}
