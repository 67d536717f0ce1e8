//! Entries in little memory.
ghost use Rattle.std.proofs.Common.{rules};
ghost use Rattle.std.specs.Cmp.{partial_equiv_from_equiv};
ghost use Rattle.std.specs.Cmp.Rules.{comparing};
ghost use Rattle.std.specs.Prelude.{◌≡◌, IfOk};
ghost use Rattle.silo_address.specs.Activation.{entry_eq};
ghost use Rattle.silo_address.specs.Grain.{grain_text};

use silo_address::{ActivationId, Entry, GrainId, SiloAddress};
use std::alloc::{AllocError, Global};
use std::boxed::BoxedSlice;
use std::marker::Model;

/// An entry in 40 bytes, and as many on the heap as its grain's text has. What keeps many entries for long keeps them so, and puts
/// each together where it hands it out.
#[derive(Drop)]
pub struct ShortEntry {
    silo: SiloAddress,
    count: u64,
    text: BoxedSlice<u8>,
}

impl Model for ShortEntry {
    ghost use Rattle.std.specs.Box.{boxed_slice_items};
    ghost use Rattle.silo_address.specs.ReadGrain.{grain_at_slash};
    ghost use Rattle.silo_address.specs.declared.Entry.{Entry as EntryValue};
    ghost use Rattle.grain_table.specs.Buckets.{IsGrainText};

    ghost Value = { EntryValue };

    ghost view = { λ s. record { grain = grain_at_slash (boxed_slice_items s.text); activation = record { silo = s.silo; count = s.count } } };

    ghost invariant = { λ s. IsGrainText (boxed_slice_items s.text) };
}

impl ShortEntry {
    /// The entry, kept short. Fails only when memory runs out.
    pub fn of(alloc: Global, entry: &Entry) -> Result<ShortEntry, AllocError>
        ensures { IfOk result (λ short. short ≡ entry.now) }
    {
        entry.grain.in_range();
        let text = BoxedSlice::from_slice(alloc, entry.grain.as_bytes())?;
        Ok(ShortEntry {
            silo: entry.activation.silo,
            count: entry.activation.count,
            text,
        })
    }

    /// The entry. Its grain's text is read.
    pub fn entry(&self) -> Entry
        ensures { result ≡ self.now }
    {
        Entry {
            grain: self.grain(),
            activation: self.activation(),
        }
    }

    /// The text of its grain.
    pub fn text(&self) -> &[u8]
        ensures { result.now ≡ grain_text self.now.grain }
    {
        self.text.as_slice()
    }

    /// Its activation.
    pub fn activation(&self) -> ActivationId
        ensures { result ≡ self.now.activation }
    {
        ActivationId {
            silo: self.silo,
            count: self.count,
        }
    }

    // Its grain.
    fn grain(&self) -> GrainId
        ensures { result ≡ self.now.grain }
    {
        match GrainId::parse(self.text.as_slice()) {
            Ok(grain) => grain,
            Err(_) => unreachable!(),
        }
    }

    /// An equal one. Fails only when memory runs out.
    pub fn copy(&self) -> Result<ShortEntry, AllocError>
        ensures { IfOk result (λ short. short ≡ self.now) }
    {
        let text = self.text.clone()?;
        Ok(ShortEntry {
            silo: self.silo,
            count: self.count,
            text,
        })
    }
}

impl Clone for ShortEntry {
    ghost is_clone = { λ one other. other ≡ one };

    fn clone(&self) -> Result<ShortEntry, AllocError> {
        self.copy()
    }
}

impl PartialEq for ShortEntry {
    ghost eq = { entry_eq };

    ghost laws = { partial_equiv_from_equiv (Prim.search (comparing, rules)) };

    fn eq(&self, other: &ShortEntry) -> bool {
        self.entry() == other.entry()
    }
}

/// The entries, kept short. Fails only when memory runs out.
pub fn short_entries(alloc: Global, entries: &[Entry]) -> Result<Vec<ShortEntry>, AllocError>
    ensures { IfOk result (λ short. short.items ≡ entries.now) }
{
    let mut short = Vec::with_capacity(alloc, entries.len())?;
    for entry in entries {
        let entry = ShortEntry::of(alloc, entry)?;
        short.push(entry)?;
    }
    Ok(short)
}

/// The entries that are kept short, each put together. Fails only when memory runs out.
pub fn full_entries(alloc: Global, short: &[ShortEntry]) -> Result<Vec<Entry>, AllocError>
    ensures { IfOk result (λ entries. entries.items ≡ short.now) }
{
    let mut entries = Vec::with_capacity(alloc, short.len())?;
    for entry in short {
        entries.push(entry.entry())?;
    }
    Ok(entries)
}
