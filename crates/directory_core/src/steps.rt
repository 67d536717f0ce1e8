ghost use Rattle.std.specs.Prelude.{◌≡◌, ◌<◌, ◌+◌, nat_le, true, IfErr, IsOk, IsSome, OnOk, OnErr, Some};
ghost use Rattle.directory_rules.specs.Happens.{absent_number, counted, deliver, does, lose, node_of, taken};
ghost use Rattle.directory_rules.specs.Input.{Does};
ghost use Rattle.directory_rules.specs.State.{Letter as LetterValue, Node as NodeValue};
ghost use Rattle.directory_rules.specs.Mail.{has_room_for, letter_of, span_of, with_delivered, with_lost};
ghost use Rattle.directory_rules.specs.World.{accepted_as};
ghost use Rattle.directory_node.specs.Follows.{Follows};
ghost use Rattle.directory_node.specs.Numbers.{step_refusal_number};
ghost use Rattle.directory_node.specs.Plans.{Fits, changed, step_by};
ghost use Rattle.std.specs.Option.{option_or};
ghost use Rattle.directory_core.specs.Applied.{IsNever, own_excused};
ghost use Rattle.directory_core.specs.Numbers.{IsNumberedUnlessMemory, event_refusal_number};
ghost use Rattle.directory_core.specs.Steps.{after_step, known_count, letters_number};
ghost use Rattle.directory_core.specs.Whole.{IsWorld, LeavesWorld};

use crate::post::{carry_out_at, receive_at};
use crate::{EventRefusal, World};
use directory_letters::Letter;
use directory_node::{Change, Input, Plan, StepRefusal};
use directory_rules::{Happening, Outcome, OwnStep, Span};
use membership_view::Status;
use silo_address::SiloAddress;
use std::alloc::AllocError;

// Steps of silos in the world: a step is planned, which changes nothing yet, then its letters are sent and it is carried out.
impl World {
    // A silo does what its application asks of it: 901, 902, then as the step refuses, then 909. At a nudge out of memory may come
    // before 909.
    #[inline(never)]
    pub(crate) fn does(
        &mut self,
        silo: &SiloAddress,
        step: &OwnStep,
    ) -> Result<Outcome, EventRefusal>
        requires room { self.old.accepted < self.old.settings.events }
        requires leaves { LeavesWorld (does self.old silo.now (Does step.now)) }
        ensures told { Follows (accepted_as self.new) event_refusal_number (own_excused step.now) (does self.old silo.now (Does step.now)) result }
        ensures numbered { IfErr result IsNumberedUnlessMemory }
        ensures unchanged { OnErr result (self.new ≡ self.old) }
    {
        let Some(node) = self.node(silo) else {
            return Err(self.absent(silo));
        };
        let plan = match node.plan(self.alloc, &Input::Does(step)) {
            Ok(plan) => plan,
            Err(refusal) => return Err(self.refused(step, refusal)),
        };
        let happening = Happening::Did {
            silo: *silo,
            effect: plan.effect,
        };
        self.take(silo, happening, plan)
    }

    // A silo's step is taken as planned, where there is room for its letters: 909.
    pub(crate) fn take(
        &mut self,
        silo: &SiloAddress,
        happening: Happening,
        plan: Plan,
    ) -> Result<Outcome, EventRefusal>
        requires room { self.old.accepted < self.old.settings.events }
        requires there { IsSome (node_of self.old silo.now) }
        requires fits { (node : NodeValue) → node_of self.old silo.now ≡ Some node → Fits plan.change node }
        requires leaves { (node : NodeValue) → node_of self.old silo.now ≡ Some node → LeavesWorld (taken self.old silo.now happening (step_by node plan)) }
        ensures told { (node : NodeValue) → node_of self.old silo.now ≡ Some node → Follows (accepted_as self.new) event_refusal_number IsOk (taken self.old silo.now happening (step_by node plan)) result }
        ensures numbered { IfErr result IsNumberedUnlessMemory }
        ensures unchanged { OnErr result (self.new ≡ self.old) }
    {
        if !self.has_room_for(&plan.letters) {
            return Err(EventRefusal::MailFull);
        }
        let sent = self.span_of(&plan.letters);
        match self.carry_out(silo, plan.letters, plan.change) {
            Ok(()) => Ok(Outcome { happening, sent }),
            Err(_) => Err(EventRefusal::OutOfMemory),
        }
    }

    // Why a silo's step is refused. Out of memory is told only where there is room for the letters of which it is known that they
    // needed it.
    fn refused(&self, step: &OwnStep, refusal: StepRefusal) -> EventRefusal
        ensures number { event_refusal_number result ≡ option_or (step_refusal_number refusal) (letters_number self.now (known_count step.now)) }
        ensures numbered { IsNumberedUnlessMemory result }
    {
        match refusal {
            StepRefusal::OutOfMemory => self.refused_sending(known_count(step)),
            refusal => EventRefusal::Node(refusal),
        }
    }

    // Why an event is refused that sends so many letters and had no memory: room for them goes before.
    fn refused_sending(&self, count: usize) -> EventRefusal
        ensures number { event_refusal_number result ≡ letters_number self.now count }
        ensures numbered { IsNumberedUnlessMemory result }
    {
        if count == 0 || self.has_room(count) {
            EventRefusal::OutOfMemory
        } else {
            EventRefusal::MailFull
        }
    }

    // Why a silo without a node takes no step.
    pub(crate) fn absent(&self, silo: &SiloAddress) -> EventRefusal
        ensures number { event_refusal_number result ≡ Some (absent_number self.now silo.now) }
        ensures numbered { IsNumberedUnlessMemory result }
    {
        match self.membership.status(silo) {
            None => EventRefusal::NoSuchSilo,
            Some(Status::Active | Status::Leaving | Status::Dead) => EventRefusal::DeadSilo,
        }
    }

    /// Whether these letters may still be sent (909); no letter always may.
    pub fn has_room_for(&self, letters: &[Letter]) -> bool
        ensures { result ≡ has_room_for self.now letters.now }
    {
        match letters {
            [] => true,
            _ => self.has_room(letters.len()),
        }
    }

    // Whether that many letters may still be sent.
    fn has_room(&self, count: usize) -> bool
        ensures { result ≡ nat_le (self.now.sent + count) self.now.settings.letters }
    {
        count as u64 <= self.settings.letters() - self.mail.sent()
    }

    // The first and the last number of letters that are sent now.
    pub(crate) fn span_of(&self, letters: &[Letter]) -> Option<Span>
        requires { has_room_for self.now letters.now ≡ true }
        ensures { result ≡ span_of self.now letters.now }
    {
        self.settings.counts_fit();
        match letters {
            [] => None,
            _ => Some(Span {
                first: self.mail.sent() + 1,
                last: self.mail.sent() + letters.len() as u64,
            }),
        }
    }

    // A letter comes to its receiver: 905, 902, then 909.
    #[inline(never)]
    pub(crate) fn deliver(&mut self, number: u64) -> Result<Outcome, EventRefusal>
        requires room { self.old.accepted < self.old.settings.events }
        requires leaves { LeavesWorld (deliver self.old number) }
        ensures told { Follows (accepted_as self.new) event_refusal_number IsOk (deliver self.old number) result }
        ensures numbered { IfErr result IsNumberedUnlessMemory }
        ensures unchanged { OnErr result (self.new ≡ self.old) }
    {
        let alloc = self.alloc;
        let found = self.letter(number);
        let Some(mailed) = &found else {
            return Err(EventRefusal::NoSuchLetter);
        };
        let letter = mailed.letter();
        let to = letter.to();
        let kind = letter.kind();
        let Some(node) = self.node(&to) else {
            return Err(EventRefusal::DeadSilo);
        };
        let Ok(plan) = node.plan_letter(alloc, letter) else {
            return Err(self.refused_sending(node.answer_count(letter)));
        };
        drop(found);
        if !self.has_room_for(&plan.letters) {
            return Err(EventRefusal::MailFull);
        }
        let sent = self.span_of(&plan.letters);
        match self.receive(&to, number, plan.letters, plan.change) {
            Ok(()) => Ok(Outcome {
                happening: Happening::Delivered {
                    number,
                    kind,
                    effect: plan.effect,
                },
                sent,
            }),
            Err(_) => Err(EventRefusal::OutOfMemory),
        }
    }

    // A letter is lost for good: 905.
    #[inline(never)]
    pub(crate) fn lose(&mut self, number: u64) -> Result<Outcome, EventRefusal>
        requires room { self.old.accepted < self.old.settings.events }
        requires leaves { LeavesWorld (lose self.old number) }
        ensures told { Follows (accepted_as self.new) event_refusal_number IsNever (lose self.old number) result }
        ensures numbered { IfErr result IsNumberedUnlessMemory }
        ensures unchanged { OnErr result (self.new ≡ self.old) }
    {
        if self.letter(number).is_none() {
            return Err(EventRefusal::NoSuchLetter);
        }
        self.take_out(number);
        Ok(Outcome {
            happening: Happening::Lost { number },
            sent: None,
        })
    }

    // A letter that is there goes out of the mail.
    fn take_out(&mut self, number: u64)
        requires there { IsSome (letter_of self.old number) }
        requires room { self.old.accepted < self.old.settings.events }
        requires leaves { IsWorld (counted (with_lost self.old number)) }
        ensures { self.new ≡ counted (with_lost self.old number) }
    {
        self.mail.lose(number);
        self.settings.counts_fit();
        self.accepted += 1;
    }

    // The receiver of a letter carries its step out, and what is answered is sent.
    pub(crate) fn receive(
        &mut self,
        to: &SiloAddress,
        number: u64,
        letters: Vec<Letter>,
        change: Change,
    ) -> Result<(), AllocError>
        requires letter { IsSome (letter_of self.old number) }
        requires there { IsSome (node_of self.old to.now) }
        requires fits { (node : NodeValue) → node_of self.old to.now ≡ Some node → Fits change node }
        requires room { self.old.accepted < self.old.settings.events }
        requires leaves { (letter : LetterValue) (node : NodeValue) → letter_of self.old number ≡ Some letter → node_of self.old to.now ≡ Some node → IsWorld (after_step (with_delivered self.old number letter) to.now (changed change node) letters.items) }
        ensures made { OnOk result ((letter : LetterValue) (node : NodeValue) → letter_of self.old number ≡ Some letter → node_of self.old to.now ≡ Some node → self.new ≡ after_step (with_delivered self.old number letter) to.now (changed change node) letters.items) }
        ensures unchanged { OnErr result (self.new ≡ self.old) }
    {
        receive_at(&mut self.nodes, &mut self.mail, to, number, letters, change)?;
        self.settings.counts_fit();
        self.accepted += 1;
        Ok(())
    }

    // A silo carries its step out, and its letters are sent.
    fn carry_out(
        &mut self,
        silo: &SiloAddress,
        letters: Vec<Letter>,
        change: Change,
    ) -> Result<(), AllocError>
        requires there { IsSome (node_of self.old silo.now) }
        requires fits { (node : NodeValue) → node_of self.old silo.now ≡ Some node → Fits change node }
        requires room { self.old.accepted < self.old.settings.events }
        requires leaves { (node : NodeValue) → node_of self.old silo.now ≡ Some node → IsWorld (after_step self.old silo.now (changed change node) letters.items) }
        ensures made { OnOk result ((node : NodeValue) → node_of self.old silo.now ≡ Some node → self.new ≡ after_step self.old silo.now (changed change node) letters.items) }
        ensures unchanged { OnErr result (self.new ≡ self.old) }
    {
        carry_out_at(&mut self.nodes, &mut self.mail, silo, letters, change)?;
        self.settings.counts_fit();
        self.accepted += 1;
        Ok(())
    }
}

// How many letters a step that lacks memory would send, as is known before they are made: of a nudge it isn't known.
fn known_count(step: &OwnStep) -> usize
    ensures { result ≡ known_count step.now }
{
    match step {
        OwnStep::Nudge | OwnStep::NudgeGrain(_) | OwnStep::NudgeRanges => 0,
        OwnStep::Wake(_)
        | OwnStep::Close(_)
        | OwnStep::Cancel(_)
        | OwnStep::Find(_)
        | OwnStep::Forget(_)
        | OwnStep::Offer { .. } => 1,
    }
}
