//! One activation under its hashed grain, as a map keeps it.
ghost use Rattle.std.specs.Prelude.{◌≡◌, IfOk};
ghost use Rattle.std.specs.BTreeMap.{is_at};
ghost use Rattle.grain_table.specs.Buckets.{is_before};
ghost use Rattle.grain_table.specs.Hashed.{hashed_cmp};

use crate::hashed_grain::HashedGrain;
use silo_address::{ActivationId, GrainId, SiloAddress};
use std::alloc::{AllocError, Global};
use std::boxed::BoxedSlice;
use std::marker::Model;

/// An activation under its hashed grain, in 48 bytes and as many on the heap as the grain's text has. The hash is in place, so that
/// a search looks at the text mostly of one grain.
#[derive(Drop)]
pub(super) struct Slot {
    hash: u32,
    silo: SiloAddress,
    count: u64,
    text: BoxedSlice<u8>,
}

impl Model for Slot {
    ghost use Rattle.std.specs.Box.{boxed_slice_items};
    ghost use Rattle.silo_address.specs.ReadGrain.{grain_at_slash};
    ghost use Rattle.silo_address.specs.declared.ActivationId.{ActivationId as Activation};
    ghost use Rattle.grain_table.specs.declared.hashed_grain.HashedGrain.{HashedGrain as Key};
    ghost use Rattle.grain_table.specs.Buckets.{IsGrainText};

    ghost Value = { Key × Activation };

    ghost view = { λ s. (record { hash = s.hash; grain = grain_at_slash (boxed_slice_items s.text) }, record { silo = s.silo; count = s.count }) };

    ghost invariant = { λ s. IsGrainText (boxed_slice_items s.text) };
}

impl Slot {
    /// The activation under the key. Fails only when memory runs out.
    pub(super) fn of(
        alloc: Global,
        key: &HashedGrain,
        activation: ActivationId,
    ) -> Result<Slot, AllocError>
        ensures { IfOk result (λ slot. slot ≡ (key.now, activation)) }
    {
        key.grain.in_range();
        let text = BoxedSlice::from_slice(alloc, key.grain.as_bytes())?;
        Ok(Slot {
            hash: key.hash,
            silo: activation.silo,
            count: activation.count,
            text,
        })
    }

    pub(super) fn hash(&self) -> u32
        ensures { result ≡ self.now.0.hash }
    {
        self.hash
    }

    pub(super) fn activation(&self) -> ActivationId
        ensures { result ≡ self.now.1 }
    {
        ActivationId {
            silo: self.silo,
            count: self.count,
        }
    }

    /// The hashed grain; its text is read.
    pub(super) fn key(&self) -> HashedGrain
        ensures { result ≡ self.now.0 }
    {
        match GrainId::parse(self.text.as_slice()) {
            Ok(grain) => HashedGrain {
                hash: self.hash,
                grain,
            },
            Err(_) => unreachable!(),
        }
    }

    /// Whether it stands before the key.
    pub(super) fn is_before(&self, key: &HashedGrain) -> bool
        ensures { result ≡ is_before key.now self.now }
    {
        let hash = key.hash;
        if self.hash != hash {
            return self.hash < hash;
        }
        key.grain.in_range();
        key.grain.as_bytes().cmp(self.text.as_slice()).is_gt()
    }

    /// Whether it stands under the key.
    pub(super) fn is_under(&self, key: &HashedGrain) -> bool
        ensures { result ≡ is_at (hashed_cmp key.now) self.now.0 }
    {
        let hash = key.hash;
        if self.hash != hash {
            return false;
        }
        key.grain.in_range();
        key.grain.as_bytes().cmp(self.text.as_slice()).is_eq()
    }

    /// An equal one. Fails only when memory runs out.
    pub(super) fn copy(&self) -> Result<Slot, AllocError>
        ensures { IfOk result (λ slot. slot ≡ self.now) }
    {
        let text = self.text.clone()?;
        Ok(Slot {
            hash: self.hash,
            silo: self.silo,
            count: self.count,
            text,
        })
    }
}

impl Clone for Slot {
    ghost is_clone = { λ one other. other ≡ one };

    fn clone(&self) -> Result<Slot, AllocError> {
        self.copy()
    }
}
