ghost use Rattle.std.specs.Prelude.{◌≡◌, None, Some, OnErr, OnOk};
ghost use Rattle.letter_mail.specs.Queues.{Puts, QueueValue, first_of, fresh_at, from_first, queue_of, with_number, without_number};

use crate::queue::Queue;
use crate::slots::Slot;
use silo_address::SiloAddress;
use std::alloc::{AllocError, Global};
use std::collections::BTreeMap;

// The number of the first fresh letter to the silo.
pub(crate) fn first_at(queues: &BTreeMap<SiloAddress, Queue>, silo: &SiloAddress) -> Option<u64>
    ensures { result ≡ first_of (queue_of queues.now.entries silo.now) }
{
    match queues.get(silo) {
        Some(queue) => queue.first(),
        None => None,
    }
}

// A letter more to the silo. Where memory runs out nothing has changed.
pub(crate) fn enqueue(
    alloc: Global,
    queues: &mut BTreeMap<SiloAddress, Queue>,
    silo: SiloAddress,
    number: u64,
) -> Result<(), AllocError>
    ensures put { OnOk result (Puts silo (with_number (queue_of queues.old.entries silo) number) queues.old.entries queues.new.entries) }
    ensures unchanged { OnErr result (queues.new.entries ≡ queues.old.entries) }
{
    if queues.contains_key(&silo) {
        return push_at(queues, &silo, number);
    }
    queues.insert(silo, Queue::of(alloc, number)?)?;
    Ok(())
}

// A letter more to the silo, which has a queue.
#[tactic(auto, using(std::proofs::lemmas::Map::Steps::set_value_same))]
fn push_at(
    queues: &mut BTreeMap<SiloAddress, Queue>,
    silo: &SiloAddress,
    number: u64,
) -> Result<(), AllocError>
    ensures put { OnOk result ((queue : QueueValue) → queue_of queues.old.entries silo.now ≡ Some queue → Puts silo.now (with_number (Some queue) number) queues.old.entries queues.new.entries) }
    ensures unchanged { OnErr result (queues.new.entries ≡ queues.old.entries) }
{
    let Some(queue) = queues.get_mut(silo) else {
        return Ok(());
    };
    queue.push(number)?;
    Ok(())
}

// The last letter to the silo is there no more.
pub(crate) fn dequeue(queues: &mut BTreeMap<SiloAddress, Queue>, silo: &SiloAddress)
    ensures none { queue_of queues.old.entries silo.now ≡ None → queues.new.entries ≡ queues.old.entries }
    ensures some { (queue : QueueValue) → queue_of queues.old.entries silo.now ≡ Some queue → Puts silo.now (without_number queue) queues.old.entries queues.new.entries }
{
    if let Some(queue) = queues.get_mut(silo) {
        queue.pop();
    }
}

// The silo's queue moves on to the first fresh letter.
pub(crate) fn advance_at(
    slots: &[Slot],
    queues: &mut BTreeMap<SiloAddress, Queue>,
    silo: &SiloAddress,
)
    ensures none { queue_of queues.old.entries silo.now ≡ None → queues.new.entries ≡ queues.old.entries }
    ensures some { (queue : QueueValue) → queue_of queues.old.entries silo.now ≡ Some queue → Puts silo.now (from_first (fresh_at slots.now) queue) queues.old.entries queues.new.entries }
{
    if let Some(queue) = queues.get_mut(silo) {
        queue.advance(slots);
    }
}
