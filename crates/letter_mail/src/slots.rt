ghost use Rattle.std.specs.Prelude.{◌≡◌, ◌⊎◌, ◌+◌, ◌<◌, MatchOption, length};
ghost use Rattle.std.specs.Map.{keys_of};
ghost use Rattle.std.specs.Option.{option_map};
ghost use Rattle.directory_rules.specs.State.{Posted};
ghost use Rattle.letter_mail.specs.Slots.{IsSlot, is_fresh, lost_slot, posted_in, slot_to, stale_slot};
ghost use Rattle.letter_mail.specs.Queues.{fresh_at};
ghost use Rattle.letter_mail.specs.MailedModel.{letter_seen};

use crate::MailedLetter;
use crate::kept::{Brief, letter_by};
use directory_letters::Letter;
use grain_names::GrainMap;
use silo_address::SiloAddress;
use std::mem::size_of;

// A letter that was sent; it is fresh until it was delivered. It is kept short, or whole where it has a list, repeats less than
// others do, or has a large number. Of a lost one nothing is kept but whom it was for.
#[derive(Drop)]
pub(crate) enum Slot {
    Short { fresh: bool, brief: Brief },
    Whole { fresh: bool, letter: Box<Letter> },
    Lost(SiloAddress),
}

// There is a slot for each letter that was ever sent.
const _: () = prove!(size_of::<Slot>() == 64);

impl Slot {
    // Whom the letter is for, or was for.
    pub(crate) fn to(&self) -> SiloAddress
        ensures { result ≡ slot_to self.now }
    {
        match self {
            Slot::Short { brief, .. } => brief.to,
            Slot::Whole { letter, .. } => letter.to(),
            Slot::Lost(to) => *to,
        }
    }

    // Whether the letter was never delivered, and isn't lost.
    pub(crate) fn is_fresh(&self) -> bool
        ensures { result ≡ is_fresh self.now }
    {
        match self {
            Slot::Short { fresh, .. } => *fresh,
            Slot::Whole { fresh, .. } => *fresh,
            Slot::Lost(_) => false,
        }
    }

    // The letter, if it isn't lost.
    pub(crate) fn letter(&self, grains: &GrainMap<()>) -> Option<MailedLetter<'_>>
        requires kept { IsSlot (length (keys_of grains.now)) self.now }
        ensures { option_map letter_seen result ≡ option_map (λ (posted : Posted). posted.letter) (posted_in (keys_of grains.now) self.now) }
    {
        match self {
            Slot::Short { brief, .. } => Some(MailedLetter::Made(letter_by(grains, brief))),
            Slot::Whole { letter, .. } => Some(MailedLetter::Lent(letter)),
            Slot::Lost(_) => None,
        }
    }

    // The letter was delivered.
    pub(crate) fn deliver(&mut self)
        ensures { self.new ≡ stale_slot self.old }
    {
        match self {
            Slot::Short { fresh, .. } => *fresh = false,
            Slot::Whole { fresh, .. } => *fresh = false,
            Slot::Lost(_) => {}
        }
    }

    // The letter is lost.
    pub(crate) fn lose(&mut self)
        ensures { self.new ≡ lost_slot self.old }
    {
        *self = Slot::Lost(self.to());
    }
}

// Where the letter of that number stands.
pub(crate) fn index_of(slots: &[Slot], number: u64) -> Option<usize>
    ensures { MatchOption result ((number ≡ 0) ⊎ (length slots.now < number)) (λ index. (index < length slots.now) × (number ≡ 1 + index)) }
{
    if number == 0 {
        return None;
    }
    let index = (number - 1) as usize;
    if index >= slots.len() {
        return None;
    }
    Some(index)
}

// Whether the letter of that number is there, and fresh.
pub(crate) fn is_fresh_at(slots: &[Slot], number: u64) -> bool
    ensures { result ≡ fresh_at slots.now number }
{
    match index_of(slots, number) {
        Some(index) => slots[index].is_fresh(),
        None => false,
    }
}
