//! The entries of a map, one after another.
ghost use Rattle.std.specs.Prelude.{◌≡◌, ◌∷◌, [], length, MatchOption};
ghost use Rattle.std.specs.Iterator.{at_most};
ghost use Rattle.std.specs.Map.Iter.{TakesFirst};
ghost use Rattle.grain_table.specs.Buckets.{joined};

use super::HashedMap;
use super::bucket::Bucket;
use super::slot::Slot;
use crate::hashed_grain::HashedGrain;
use silo_address::ActivationId;
use std::marker::Model;

/// The entries of some buckets of a map, in its order.
#[derive(Drop)]
pub(crate) struct Entries<'a> {
    left: &'a [Slot],
    later: &'a [Bucket],
}

impl<'a> Model for Entries<'a> {
    ghost use Rattle.std.specs.Prelude.{◌++◌};
    ghost use Rattle.grain_table.specs.Buckets.{joined};
    ghost use Rattle.grain_table.specs.Hashed.{Hashed};

    ghost Value = { Hashed };

    ghost view = { λ s. s.left.now ++ joined s.later.now };
}

impl<'a> Entries<'a> {
    /// Those of these buckets.
    pub(super) fn of(buckets: &'a [Bucket]) -> Entries<'a>
        ensures { result ≡ joined buckets.now }
    {
        Entries {
            left: &[],
            later: buckets,
        }
    }

    /// Takes the slot of the first one, whose grain isn't read.
    pub(super) fn take_slot(&mut self) -> Option<&'a Slot>
        ensures { MatchOption result ((self.old ≡ []) × (self.new ≡ [])) (λ slot. self.old ≡ slot.now ∷ self.new) }
    {
        'empty: while self.left.is_empty() {
            let (bucket, later) = self.later.split_first()?;
            self.left = bucket.slots();
            self.later = later;
        }
        let (slot, left) = self.left.split_first()?;
        self.left = left;
        Some(slot)
    }
}

impl<'a> Iterator for Entries<'a> {
    type Item = (HashedGrain, ActivationId);

    ghost next_gives = { TakesFirst (λ p. p) };

    ghost remaining = { λ s. at_most (length s) };

    fn next(&mut self) -> Option<(HashedGrain, ActivationId)> {
        match self.take_slot() {
            Some(slot) => Some((slot.key(), slot.activation())),
            None => None,
        }
    }
}

impl HashedMap {
    /// All entries.
    pub(crate) fn iter(&self) -> Entries<'_>
        ensures { result ≡ self.now }
    {
        Entries::of(&self.buckets)
    }
}
