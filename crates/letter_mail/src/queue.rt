ghost use Rattle.std.specs.Prelude.{◌≡◌, ◌∷◌, ◌++◌, [], Some, IfOk, OnErr, OnOk};
ghost use Rattle.letter_mail.specs.Queues.{first_of, fresh_at, from_first, without_number};

use crate::slots::{Slot, is_fresh_at};
use std::alloc::{AllocError, Global};
use std::collections::VecDeque;
use std::marker::Model;

// The numbers of the letters that were sent to a silo, in the order in which they were sent, from the first one on that is fresh.
#[derive(Drop)]
pub(crate) struct Queue {
    numbers: VecDeque<u64>,
}

impl Model for Queue {
    ghost use Rattle.letter_mail.specs.Queues.{QueueValue};

    ghost Value = { QueueValue };

    ghost use Rattle.letter_mail.specs.QueueModel.{queue_seen};

    ghost view = { queue_seen };
}

impl Queue {
    // The first letter to a silo.
    pub(crate) fn of(alloc: Global, number: u64) -> Result<Queue, AllocError>
        ensures { IfOk result (λ queue. queue ≡ number ∷ []) }
    {
        let mut numbers = VecDeque::new(alloc);
        numbers.push_back(number)?;
        Ok(Queue { numbers })
    }

    // One more letter.
    pub(crate) fn push(&mut self, number: u64) -> Result<(), AllocError>
        ensures put { OnOk result (self.new ≡ self.old ++ number ∷ []) }
        ensures unchanged { OnErr result (self.new ≡ self.old) }
    {
        self.numbers.push_back(number)?;
        Ok(())
    }

    // One letter less, the last one.
    pub(crate) fn pop(&mut self)
        ensures { self.new ≡ without_number self.old }
    {
        let _last = self.numbers.pop_back();
    }

    // The number of the first fresh letter, if there is one.
    pub(crate) fn first(&self) -> Option<u64>
        ensures { result ≡ first_of (Some self.now) }
    {
        self.numbers.front().copied()
    }

    // The numbers go that stand before the first fresh letter.
    pub(crate) fn advance(&mut self, slots: &[Slot])
        ensures { self.new ≡ from_first (fresh_at slots.now) self.old }
    {
        drop_stale(slots, &mut self.numbers);
    }
}

// The numbers go that stand before the first one whose letter is fresh.
fn drop_stale(slots: &[Slot], numbers: &mut VecDeque<u64>)
    ensures { numbers.new.items ≡ from_first (fresh_at slots.now) numbers.old.items }
{
    while let Some(number) = numbers.front() {
        if is_fresh_at(slots, *number) {
            return;
        }
        let _stale = numbers.pop_front();
    }
}
