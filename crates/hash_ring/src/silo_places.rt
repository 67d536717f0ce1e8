ghost use lib.Pointwise.{pointwise};
ghost use Rattle.std.proofs.Common.{rules};
ghost use Rattle.std.specs.Cmp.{partial_equiv_from_equiv};
ghost use Rattle.std.specs.Cmp.Rules.{comparing};
ghost use Rattle.std.specs.Prelude.{◌≡◌, ◌==◌, ◌<◌, All, IfOk};
ghost use Rattle.ring_range.specs.Range.{circle};
ghost use Rattle.hash_ring.specs.Hash.{hashed_places, hash_text, point_text};

use crate::hash_text;
use silo_address::SiloAddress;
use std::alloc::{AllocError, Global};
use std::marker::Model;

/// The places of one silo's points, by their index.
#[derive(Clone, Drop)]
pub(crate) struct SiloPlaces {
    list: Vec<u32>,
}

impl Model for SiloPlaces {
    ghost use Rattle.std.specs.Prelude.{ℕ, List};

    ghost Value = { List ℕ };

    ghost view = { λ p. p.list.items };
}

impl SiloPlaces {
    /// The places that are given.
    pub(crate) fn given(alloc: Global, places: &[u32]) -> Result<SiloPlaces, AllocError>
        ensures given { IfOk result (λ list. list ≡ places.now) }
        ensures hashes { IfOk result (λ list. All (λ place. place < circle) list) }
    {
        let list = Vec::from_slice(alloc, places)?;
        Ok(SiloPlaces { list })
    }

    /// That many places of a silo, each the hash of its point's text.
    pub(crate) fn hashed(
        alloc: Global,
        points: usize,
        silo: &SiloAddress,
    ) -> Result<SiloPlaces, AllocError>
        ensures hashed { IfOk result (λ list. list ≡ hashed_places points silo.now) }
        ensures hashes { IfOk result (λ list. All (λ place. place < circle) list) }
    {
        let mut list = Vec::with_capacity(alloc, points)?;
        for index in 0..points {
            list.push(hashed_place(alloc, silo, index)?)?;
        }
        Ok(SiloPlaces { list })
    }

    /// The places, by index.
    pub(crate) fn list(&self) -> &[u32]
        ensures { result.now ≡ self.now }
    {
        &self.list
    }
}

/// The hash of the text of a silo's point.
fn hashed_place(alloc: Global, silo: &SiloAddress, index: usize) -> Result<u32, AllocError>
    ensures hashed { IfOk result (λ place. place ≡ hash_text (point_text silo.now index)) }
    ensures hash { IfOk result (λ place. place < circle) }
{
    let text = format!(in alloc; "{silo}#{index}")?;
    Ok(hash_text(text.as_bytes()))
}

impl PartialEq for SiloPlaces {
    ghost eq = { pointwise ◌==◌ };

    ghost laws = { partial_equiv_from_equiv (Prim.search (comparing, rules)) };

    fn eq(&self, other: &SiloPlaces) -> bool {
        self.list == other.list
    }
}

impl Eq for SiloPlaces {
    ghost laws = { Prim.search (comparing, rules) };
}
