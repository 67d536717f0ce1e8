//! Letters that were delivered or lost: the queue of whom they are for moves on.
ghost use Rattle.std.specs.Prelude.{◌≡◌, ◌-◌, ◌≤◌, length, set, slice_index_or};
ghost use Rattle.letter_mail.specs.Slots.{lost_slot, stale_slot};
ghost use Rattle.letter_mail.specs.Queues.{AreQueued};
ghost use Rattle.letter_mail.specs.declared.slots.Slot.{Slot as SlotSeen};

use crate::queue::Queue;
use crate::queues::advance_at;
use crate::slots::Slot;
use silo_address::SiloAddress;
use std::collections::BTreeMap;

// The letter of that number was delivered.
pub(crate) fn deliver_in(
    slots: &mut Vec<Slot>,
    queues: &mut BTreeMap<SiloAddress, Queue>,
    number: u64,
)
    requires sent { 1 ≤ number }
    requires within { number ≤ length slots.old.items }
    requires queued { AreQueued slots.old.items queues.old.entries }
    ensures delivered { (d : SlotSeen) → slots.new.items ≡ set slots.old.items (number - 1) (stale_slot (slice_index_or slots.old.items (number - 1) d)) }
    ensures queued { AreQueued slots.new.items queues.new.entries }
{
    let slot = &mut slots[(number - 1) as usize];
    slot.deliver();
    let to = slot.to();
    advance_at(slots, queues, &to);
}

// The letter of that number is lost.
pub(crate) fn lose_in(slots: &mut Vec<Slot>, queues: &mut BTreeMap<SiloAddress, Queue>, number: u64)
    requires sent { 1 ≤ number }
    requires within { number ≤ length slots.old.items }
    requires queued { AreQueued slots.old.items queues.old.entries }
    ensures lost { (d : SlotSeen) → slots.new.items ≡ set slots.old.items (number - 1) (lost_slot (slice_index_or slots.old.items (number - 1) d)) }
    ensures queued { AreQueued slots.new.items queues.new.entries }
{
    let slot = &mut slots[(number - 1) as usize];
    slot.lose();
    let to = slot.to();
    advance_at(slots, queues, &to);
}
