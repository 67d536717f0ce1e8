//! Some entries of a bucket stay, and the others go.
ghost use Rattle.std.specs.Prelude.{◌≡◌, filter, not};
ghost use Rattle.directory_rules.specs.Members.{is_dead_in};
ghost use Rattle.hash_ring.specs.Hash.{hash_grain};
ghost use Rattle.ring_range.specs.Range.{holds};

use super::{Bucket, give_room_back};
use crate::alive::is_dead_in;
use hash_ring::Hashing;
use membership_view::View;
use ring_range::RingRange;

impl Bucket {
    /// Keeps what stands under hashes of the range.
    pub(in crate::hashed_map) fn keep_in(&mut self, range: &RingRange)
        ensures { self.new ≡ filter (λ e. holds range.now e.0.hash) self.old }
    {
        self.slots.retain(|slot| range.contains(slot.hash()));
        give_room_back(&mut self.slots);
    }

    /// Keeps the grains that are hashed into the range.
    pub(in crate::hashed_map) fn keep_hashed_into(&mut self, hashing: Hashing, range: &RingRange)
        ensures { self.new ≡ filter (λ e. holds range.now (hash_grain hashing e.0.grain)) self.old }
    {
        self.slots.retain(|slot| range.contains(hashing.hash_grain(&slot.key().grain)));
        give_room_back(&mut self.slots);
    }

    /// Keeps the activations on silos that aren't Dead in the view.
    pub(in crate::hashed_map) fn remove_dead(&mut self, view: &View)
        ensures { self.new ≡ filter (λ e. not (is_dead_in view.now e.1.silo)) self.old }
    {
        self.slots
            .retain(|slot| !is_dead_in(view, &slot.activation().silo));
        give_room_back(&mut self.slots);
    }
}
