ghost use Rattle.std.specs.Prelude.{◌≡◌, IfSome};

use crate::mark::{Mark, Names};
use crate::slots::{Blocks, Slot, Slots};
use boxcar::slot::Written;
use std::alloc::Global;
use std::marker::{Model, PhantomData};
use std::snapshot::Snapshot;

// How many slots a block has.
const BLOCK: usize = 1024;

// Some slots, and what shows which they are.
#[derive(Drop)]
struct Block<T> {
    slots: Slots<T>,
    shown: Written<Snapshot<Slots<T>>>,
    ghost its: { shown.value.value ≡ slots },
}

impl<T> Block<T> {
    // A new block at the place, if that is free and there is memory for it.
    fn new(alloc: Global, place: &Slot<Slots<T>>) -> Option<Block<T>>
        ensures { IfSome result (λ block. block.shown.of ≡ place.now.id) }
    {
        let Ok(slots) = Slots::new(alloc, BLOCK) else {
            return None;
        };
        match place.set_written(Snapshot::of(&slots)) {
            Ok(shown) => Some(Block { slots, shown }),
            Err(_) => None,
        }
    }
}

/// Where the marks of a family are made. Its slots are made in blocks, one after the other as they are needed, and a block is
/// freed when the next one begins: marks need no slot any more.
#[derive(Drop)]
pub struct Marks<T, N: Names> {
    alloc: Global,
    blocks: Blocks<T>,
    // The block of which slots are given now, its number, and how many of them were given.
    last: Block<T>,
    number: usize,
    given: usize,
    names: PhantomData<N>,
}

impl<T, N: Names> Model for Marks<T, N> {
    ghost use Rattle.std.specs.Prelude.{◌≡◌, Some, slice_get};

    ghost Value = { Unit {0} };

    ghost view = { λ _. tt };

    ghost invariant = { λ m. (m.blocks ≡ N.names) × (slice_get N.names m.number ≡ Some m.last.shown.of) };
}

impl<T, N: Names> Marks<T, N> {
    /// A family of marks; `None` where there is no block, or no memory for one.
    pub fn new(alloc: Global, blocks: Blocks<T>) -> Option<Marks<T, N>>
        requires { blocks ≡ N.names }
    {
        let last = Block::new(alloc, blocks.get(0)?)?;
        Some(Marks {
            alloc,
            blocks,
            last,
            number: 0,
            given: 0,
            names: PhantomData,
        })
    }

    /// A mark of the value; `None` where no slot is left, or there is no memory for the next block.
    pub fn mark(&mut self, value: &T) -> Option<Mark<T, N>>
        ensures { IfSome result (λ mark. mark ≡ value.now) }
    {
        if self.given >= self.last.slots.len() {
            self.begin_block()?;
        }
        let index = self.given;
        let slot = self.last.slots.get(index)?;
        let Ok(shown) = slot.set_written(Snapshot::of(value)) else {
            return None;
        };
        self.given = index.checked_add(1)?;
        Some(Mark {
            block: self.number,
            index,
            slots: self.last.shown.again(),
            value: shown,
            names: PhantomData,
        })
    }

    // Slots are given of the next block from now on.
    fn begin_block(&mut self) -> Option<()> {
        let number = self.number.checked_add(1)?;
        let last = Block::new(self.alloc, self.blocks.get(number)?)?;
        self.last = last;
        self.number = number;
        self.given = 0;
        Some(())
    }
}
