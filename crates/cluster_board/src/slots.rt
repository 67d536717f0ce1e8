ghost use Rattle.std.specs.Prelude.{◌≡◌, IfOk, length, slice_get};
ghost use Rattle.std.specs.Option.{option_map};

use boxcar::slot::{OnceSlot, SlotRule};
use boxcar::tag::Tag;
use std::alloc::{AllocError, Global};
use std::marker::Model;
use std::snapshot::Snapshot;

/// The rule of a slot that takes any value.
pub struct AnyValue;

impl<T> SlotRule<Snapshot<T>> for AnyValue {
    ghost holds = { λ _ _. Unit {0} };
}

/// A place for one value, which is written once. What is written is for proofs alone, and takes no memory.
pub type Slot<T> = OnceSlot<Snapshot<T>, AnyValue>;

/// Slots, seen by their names.
#[derive(Drop)]
pub struct Slots<T> {
    slots: Vec<Slot<T>>,
}

/// Places for blocks of slots: what a family of marks begins with.
pub type Blocks<T> = Slots<Slots<T>>;

impl<T> Model for Slots<T> {
    ghost use Rattle.std.specs.Prelude.{List, ℕ, map};

    ghost Value = { List ℕ };

    ghost view = { λ s. map (λ slot. slot.id) s.slots.items };
}

impl<T> Slots<T> {
    /// So many slots, all of them free. Fails only when memory runs out.
    pub fn new(alloc: Global, count: usize) -> Result<Slots<T>, AllocError>
        ensures { IfOk result (λ slots. length slots ≡ count) }
    {
        let tag = Tag::empty();
        let mut slots = Vec::with_capacity(alloc, count)?;
        for _ in 0..count {
            slots.push(OnceSlot::new(&tag))?;
        }
        Ok(Slots { slots })
    }

    /// How many there are.
    pub fn len(&self) -> usize
        ensures { result ≡ length self.now }
    {
        self.slots.len()
    }

    /// The slot at that index; `None` where there are no more than that.
    pub fn get(&self, index: usize) -> Option<&Slot<T>>
        ensures { option_map (λ slot. slot.now.id) result ≡ slice_get self.now index }
    {
        self.slots.get(index)
    }
}
