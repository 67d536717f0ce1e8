ghost use Rattle.std.specs.Cmp.{partial_equiv_from_equiv, partial_order_from_own_ties};
ghost use Rattle.std.specs.Cmp.Rules.{comparing};
ghost use Rattle.std.specs.Cow.{cow_slice_items};
ghost use Rattle.std.specs.Ordering.{as_partial_cmp};
ghost use Rattle.std.specs.Prelude.{◌≡◌, IfOk};
ghost use Rattle.std.proofs.Common.{rules};
ghost use Rattle.silo_address.specs.Grain.{IsGrain, grain_cmp, grain_eq, grain_text};
ghost use Rattle.silo_address.specs.ReadGrain.{read_grain};

use silo_address::{GrainError, GrainId};
use std::alloc::{AllocError, Global};
use std::borrow::CowSlice;
use std::cmp::Ordering;
use std::marker::Model;

/// A grain whose name is lent from a text that spells it, or has memory of its own, where a `GrainId` has room for the longest name.
/// Grains are equal and ordered as they are as a `GrainId`: by kind, then key, byte by byte.
#[derive(Drop)]
pub struct LentGrain<'a> {
    kind_len: u8,
    name: CowSlice<'a, u8>,
}

impl<'a> Model for LentGrain<'a> {
    ghost use Rattle.silo_address.specs.Grain.{Grain};

    ghost Value = { Grain };

    ghost use Rattle.std.specs.Cow.{cow_slice_items};
    ghost use Rattle.dumps.specs.LentGrain.{Spells, spelled};

    ghost view = { λ g. spelled g.kind_len (cow_slice_items g.name) };

    ghost invariant = { λ g. Spells (spelled g.kind_len (cow_slice_items g.name)) (cow_slice_items g.name) };
}

impl<'a> LentGrain<'a> {
    /// Reads the text `kind/key` and keeps it: a kind of 1 to 64 bytes and a key of 1 to 128, all of them visible ASCII. Where it is no
    /// grain, the refusal is the first fault, as of `GrainId::parse` (`docs/RULES.md#refusals-and-their-numbers`).
    pub fn parse(name: CowSlice<'a, u8>) -> Result<LentGrain<'a>, GrainError>
        ensures { result ≡ read_grain (cow_slice_items name.entry) }
    {
        let grain = GrainId::parse(name.as_slice())?;
        grain.in_range();
        Ok(LentGrain {
            kind_len: grain.kind().len() as u8,
            name,
        })
    }

    /// The same grain, with a name that has memory of its own. Fails only when memory runs out.
    pub fn owned(alloc: Global, grain: &GrainId) -> Result<LentGrain<'static>, AllocError>
        ensures { IfOk result (λ lent. lent ≡ grain.now) }
    {
        grain.in_range();
        let name = grain.as_bytes().to_vec(alloc)?;
        Ok(LentGrain {
            kind_len: grain.kind().len() as u8,
            name: CowSlice::Owned(name),
        })
    }

    /// The same grain, with room for the longest name, so that it outlives the text. It is read again from its name.
    pub fn id(&self) -> GrainId
        ensures { result ≡ self.now }
    {
        self.in_range();
        match GrainId::parse(self.as_bytes()) {
            Ok(grain) => grain,
            Err(_) => unreachable!(),
        }
    }

    /// The grain's one spelling, `kind/key`.
    pub fn as_bytes(&self) -> &[u8]
        ensures { result.now ≡ grain_text self.now }
    {
        self.name.as_slice()
    }

    /// The kind, 1 to 64 bytes.
    pub fn kind(&self) -> &[u8]
        ensures { result.now ≡ self.now.kind }
    {
        &self.name.as_slice()[..usize::from(self.kind_len)]
    }

    /// The key within the kind, 1 to 128 bytes.
    pub fn key(&self) -> &[u8]
        ensures { result.now ≡ self.now.key }
    {
        &self.name.as_slice()[usize::from(self.kind_len) + 1..]
    }

    /// A law: the kind and key of every grain are in range.
    pub fn in_range(&self)
        ensures { IsGrain self.now }
    {
        let _kind_len = self.kind_len;
    }
}

impl<'a> PartialEq for LentGrain<'a> {
    ghost eq = { grain_eq };

    ghost laws = { partial_equiv_from_equiv (Prim.search (comparing, rules)) };

    fn eq(&self, other: &LentGrain<'a>) -> bool {
        self.kind() == other.kind() && self.key() == other.key()
    }
}

impl<'a> Eq for LentGrain<'a> {
    ghost laws = { Prim.search (comparing, rules) };
}

impl<'a> Ord for LentGrain<'a> {
    ghost cmp = { grain_cmp };

    ghost total = { Prim.search (comparing, rules) };

    ghost matches_partial_cmp = { Prim.search (comparing, rules) };

    ghost matches_eq = { Prim.search (comparing, rules) };

    fn cmp(&self, other: &LentGrain<'a>) -> Ordering {
        self.kind()
            .cmp(other.kind())
            .then(self.key().cmp(other.key()))
    }
}

impl<'a> PartialOrd for LentGrain<'a> {
    ghost partial_cmp = { as_partial_cmp grain_cmp };

    ghost laws = { partial_order_from_own_ties (Prim.search (comparing, rules)) (Prim.search (comparing, rules)) };

    fn partial_cmp(&self, other: &LentGrain<'a>) -> Option<Ordering> {
        Some(self.cmp(other))
    }
}
