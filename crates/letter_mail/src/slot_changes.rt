//! Letters put behind the slots, and taken away there.
ghost use Rattle.std.specs.Prelude.{◌≡◌, ◌∷◌, [], ◌-◌, ◌<◌, ◌≤◌, OnErr, OnOk, length, take};
ghost use Rattle.std.specs.Map.{keys_of};
ghost use Rattle.letter_mail.specs.KeptLetters.{Grows};
ghost use Rattle.letter_mail.specs.Slots.{AreKept};
ghost use Rattle.letter_mail.specs.Queues.{AreQueued};
ghost use Rattle.letter_mail.specs.Mail.{with_posted};
ghost use Rattle.letter_mail.specs.MailModel.{mail_in};

use crate::keep::kept;
use crate::queue::Queue;
use crate::queues::{dequeue, enqueue};
use crate::slots::Slot;
use directory_letters::Letter;
use grain_names::GrainMap;
use silo_address::SiloAddress;
use std::alloc::{AllocError, Global};
use std::collections::BTreeMap;

// Letters go behind the slots, each of them fresh. Where memory runs out, at one of them, those before it stand there.
pub(crate) fn put_all(
    alloc: Global,
    grains: &mut GrainMap<()>,
    slots: &mut Vec<Slot>,
    queues: &mut BTreeMap<SiloAddress, Queue>,
    letters: Vec<Letter>,
) -> Result<(), AllocError>
    requires numbered { AreKept (length (keys_of grains.old)) slots.old.items }
    requires queued { AreQueued slots.old.items queues.old.entries }
    ensures numbered { AreKept (length (keys_of grains.new)) slots.new.items }
    ensures queued { AreQueued slots.new.items queues.new.entries }
    ensures behind { Grows slots.old.items slots.new.items }
    ensures grown { Grows (keys_of grains.old) (keys_of grains.new) }
    ensures put { OnOk result (mail_in (keys_of grains.new) slots.new.items ≡ with_posted (mail_in (keys_of grains.old) slots.old.items) letters.items) }
    ensures memory { OnErr result (¬ (letters.items ≡ [])) }
{
    for letter in letters {
        put(alloc, grains, slots, queues, letter)?;
    }
    Ok(())
}

// A letter goes behind the slots, and is fresh: it is kept, and there is room for it, before anything changes.
fn put(
    alloc: Global,
    grains: &mut GrainMap<()>,
    slots: &mut Vec<Slot>,
    queues: &mut BTreeMap<SiloAddress, Queue>,
    letter: Letter,
) -> Result<(), AllocError>
    requires numbered { AreKept (length (keys_of grains.old)) slots.old.items }
    requires queued { AreQueued slots.old.items queues.old.entries }
    ensures numbered { AreKept (length (keys_of grains.new)) slots.new.items }
    ensures queued { AreQueued slots.new.items queues.new.entries }
    ensures behind { Grows slots.old.items slots.new.items }
    ensures grown { Grows (keys_of grains.old) (keys_of grains.new) }
    ensures put { OnOk result (mail_in (keys_of grains.new) slots.new.items ≡ with_posted (mail_in (keys_of grains.old) slots.old.items) (letter ∷ [])) }
{
    let to = letter.to();
    let slot = kept(alloc, grains, letter)?;
    slots.reserve(1)?;
    let number = slots.len() as u64 + 1;
    enqueue(alloc, queues, to, number)?;
    slots.push(slot).unwrap();
    Ok(())
}

// The last slots go, so many of them.
pub(crate) fn take_last(
    slots: &mut Vec<Slot>,
    queues: &mut BTreeMap<SiloAddress, Queue>,
    count: usize,
)
    requires many { count ≤ length slots.old.items }
    requires queued { AreQueued slots.old.items queues.old.entries }
    ensures taken { slots.new.items ≡ take (length slots.old.items - count) slots.old.items }
    ensures queued { AreQueued slots.new.items queues.new.entries }
{
    for _ in 0..count {
        take_one(slots, queues);
    }
}

// The last slot goes.
fn take_one(slots: &mut Vec<Slot>, queues: &mut BTreeMap<SiloAddress, Queue>)
    requires some { 0 < length slots.old.items }
    requires queued { AreQueued slots.old.items queues.old.entries }
    ensures taken { slots.new.items ≡ take (length slots.old.items - 1) slots.old.items }
    ensures queued { AreQueued slots.new.items queues.new.entries }
{
    let Some(slot) = slots.pop() else {
        unreachable!()
    };
    dequeue(queues, &slot.to());
}
