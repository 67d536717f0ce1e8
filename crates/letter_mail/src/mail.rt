ghost use Rattle.std.specs.Prelude.{◌≡◌, ◌≤◌, Some, [], IsSome, OnOk, OnErr};
ghost use Rattle.std.specs.Option.{option_map};
ghost use Rattle.directory_rules.specs.State.{Letter as LetterValue};
ghost use Rattle.letter_mail.specs.Mail.{HasRisingNumbers, has_fresh, least_fresh, least_fresh_to, lesser, letter_in, with_lost, with_posted, with_stale, without_last};
ghost use Rattle.letter_mail.specs.MailedModel.{letter_seen};

use crate::MailedLetter;
use crate::passed::{deliver_in, lose_in};
use crate::queue::Queue;
use crate::queues::first_at;
use crate::slot_changes::{put_all, take_last};
use crate::slots::{Slot, index_of, is_fresh_at};
use directory_letters::Letter;
use grain_names::GrainMap;
use silo_address::SiloAddress;
use std::alloc::{AllocError, Global};
use std::collections::BTreeMap;
use std::marker::Model;

/// The letters that were sent and aren't lost, by number from 1. Each is kept short, its grain by number, since a letter stays
/// until it is lost. The least fresh one to a silo is found at once, however many others are fresh: each silo has a queue of the
/// letters that were sent to it, from the first fresh one on.
#[derive(Drop)]
pub struct Mail {
    alloc: Global,
    // The grains that letters named, under their numbers.
    grains: GrainMap<()>,
    slots: Vec<Slot>,
    queues: BTreeMap<SiloAddress, Queue>,
}

impl Model for Mail {
    ghost use Rattle.letter_mail.specs.Mail.{MailValue};

    ghost Value = { MailValue };

    ghost use Rattle.letter_mail.specs.MailModel.{IsMail, mail_of};

    ghost view = { mail_of };

    ghost invariant = { IsMail };
}

impl Mail {
    /// No letter yet.
    pub fn new(alloc: Global) -> Mail
        ensures { result ≡ record { letters = []; sent = 0 } }
    {
        Mail {
            alloc,
            grains: GrainMap::new(alloc),
            slots: Vec::new(alloc),
            queues: BTreeMap::new(alloc),
        }
    }

    /// How many letters were ever sent.
    pub fn sent(&self) -> u64
        ensures { result ≡ self.now.sent }
    {
        self.slots.len() as u64
    }

    /// The letter of that number, if it is in the mail.
    pub fn letter(&self, number: u64) -> Option<MailedLetter<'_>>
        ensures { option_map letter_seen result ≡ letter_in self.now number }
    {
        let slots: &[Slot] = &self.slots;
        match index_of(slots, number) {
            Some(index) => slots[index].letter(&self.grains),
            None => None,
        }
    }

    /// Whether the letter of that number is in the mail and was never delivered.
    pub fn is_fresh(&self, number: u64) -> bool
        ensures { result ≡ has_fresh self.now number }
    {
        let slots: &[Slot] = &self.slots;
        is_fresh_at(slots, number)
    }

    /// The least fresh letter to the silo, if there is one.
    pub fn least_fresh_to(&self, silo: &SiloAddress) -> Option<u64>
        ensures { result ≡ least_fresh_to silo.now self.now }
    {
        first_at(&self.queues, silo)
    }

    /// The least fresh letter to any of these silos, if there is one: one look for each of them.
    pub fn least_fresh<V>(&self, silos: &BTreeMap<SiloAddress, V>) -> Option<u64>
        ensures { result ≡ least_fresh silos.now.entries self.now }
    {
        self.numbered();
        let mut least = None;
        for silo in silos.keys() {
            least = lesser(least, self.least_fresh_to(silo));
        }
        least
    }

    /// Letters are sent, under the next numbers. Fails only where there are letters and memory runs out.
    pub fn post(&mut self, letters: Vec<Letter>) -> Result<(), AllocError>
        ensures posted { OnOk result (self.new ≡ with_posted self.old letters.items) }
        ensures unchanged { OnErr result (self.new ≡ self.old) }
        ensures memory { OnErr result (¬ (letters.items ≡ [])) }
    {
        let before = self.slots.len();
        match put_all(
            self.alloc,
            &mut self.grains,
            &mut self.slots,
            &mut self.queues,
            letters,
        ) {
            Ok(()) => Ok(()),
            Err(error) => {
                let count = self.slots.len() - before;
                take_last(&mut self.slots, &mut self.queues, count);
                Err(error)
            }
        }
    }

    /// The letters that were sent last are taken back, so many of them: no event sent them.
    pub fn take_back(&mut self, count: usize)
        requires { count ≤ self.old.sent }
        ensures { self.new ≡ without_last self.old count }
    {
        take_last(&mut self.slots, &mut self.queues, count);
    }

    /// The letter of a number was delivered, and is fresh no more.
    pub fn deliver(&mut self, number: u64)
        requires there { IsSome (letter_in self.old number) }
        ensures { (letter : LetterValue) → letter_in self.old number ≡ Some letter → self.new ≡ with_stale self.old number letter }
    {
        deliver_in(&mut self.slots, &mut self.queues, number);
    }

    /// The letter of a number is lost: it is in the mail no more, and its number is never given again. What memory it had outside
    /// its slot is freed.
    pub fn lose(&mut self, number: u64)
        requires there { IsSome (letter_in self.old number) }
        ensures { self.new ≡ with_lost self.old number }
    {
        lose_in(&mut self.slots, &mut self.queues, number);
    }

    /// A law: the letters' numbers rise, from 1 at least to the number of letters ever sent.
    pub fn numbered(&self)
        ensures { HasRisingNumbers self.now }
    {
        let _sent = self.slots.len();
    }
}

// The lesser number, where there are two.
fn lesser(number: Option<u64>, other: Option<u64>) -> Option<u64>
    ensures { result ≡ lesser number other }
{
    match (number, other) {
        (Some(number), Some(other)) => Some(number.min(other)),
        (Some(number), None) => Some(number),
        (None, other) => other,
    }
}
