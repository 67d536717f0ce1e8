//! Commands carried out by a cluster that runs.

ghost use Rattle.std.specs.Prelude.{◌≡◌, ◌+◌, [], IfOk, OnOk, false, length, map};
ghost use Rattle.console_threads.specs.Driven.{IsFollowed, IsPosted, Puts};
ghost use Rattle.directory_rules.specs.EventModel.{event_of};
ghost use Rattle.script_lines.specs.CommandModel.{command_of};
ghost use Rattle.script_rules.specs.Script as rule;
ghost use Rattle.silo_threads.specs.declared.cluster.TheConstants.{PARTS};
ghost use Rattle.threaded_play.specs.CarriedOut.{AreCarriedOut, ArePosted, IsCarriedOut};

use cluster_board::{Charter, Hand};
use cluster_journal::Receipt;
use directory_rules::Event;
use script_lines::Command;
use silo_threads::Cluster;
use silo_workers::Gate;
use std::alloc::{AllocError, Global};
use std::sync::Wait;
use std::thread::Threads;

/// A cluster that commands are given to, and what is kept of that: the hand, with the share that workers don't have and what was
/// seen of the journal, and the receipts.
pub(crate) struct Driver<L: Charter, G: Gate + Drop> {
    pub(crate) cluster: Cluster<L, G>,
    pub(crate) hand: Hand<L>,
    pub(crate) receipts: Vec<Receipt>,
    // Whether memory, a thread or a publication couldn't be had; nothing is posted from then on.
    pub(crate) lacks: bool,
    pub(crate) ghost whole: { hand.share.parts + length cluster.workers ≡ PARTS },
}

impl<L: Charter, G: Gate + Drop> Driver<L, G> {
    /// Before the first command.
    pub(crate) fn new(alloc: Global, cluster: Cluster<L, G>, hand: Hand<L>) -> Driver<L, G>
        requires { hand.share.parts + length cluster.workers ≡ PARTS }
        ensures none { result.receipts.items ≡ [] }
        ensures seen { result.hand.seen ≡ hand.seen }
    {
        Driver {
            cluster,
            hand,
            receipts: Vec::new(alloc),
            lacks: false,
        }
    }
}

impl<L: Charter + Send + 'static, G: Gate + Drop + Send + Sync + 'static> Driver<L, G> {
    /// Carries out commands, one after the other. Nothing more happens once something lacks.
    pub(crate) fn drive<H: Threads + Wait + Copy + Drop + Send + 'static>(
        &mut self,
        rt: &H,
        commands: &[Command],
    )
        ensures { self.new.lacks ≡ false → Puts (λ journal before after. AreCarriedOut L.settings journal before after (map command_of commands.now))
            self.old.hand.seen self.new.hand.seen self.old.receipts.items self.new.receipts.items }
    {
        for command in commands {
            self.carry_out(rt, command);
            if self.lacks {
                return;
            }
        }
    }

    // Carries out one command, unless something lacks for it.
    fn carry_out<H: Threads + Wait + Copy + Drop + Send + 'static>(
        &mut self,
        rt: &H,
        command: &Command,
    )
        ensures { self.new.lacks ≡ false → Puts (λ journal before after. IsCarriedOut L.settings journal before after (command_of command.now))
            self.old.hand.seen self.new.hand.seen self.old.receipts.items self.new.receipts.items }
    {
        if self.perform(rt, command).is_err() {
            self.lacks = true;
        }
    }

    // Does what a command asks of the driver; workers deliver, and nothing is lost or printed on the way. Fails only when memory
    // runs out.
    fn perform<H: Threads + Wait + Copy + Drop + Send + 'static>(
        &mut self,
        rt: &H,
        command: &Command,
    ) -> Result<(), AllocError>
        ensures { OnOk result (self.new.lacks ≡ false → Puts (λ journal before after. IsCarriedOut L.settings journal before after (command_of command.now))
            self.old.hand.seen self.new.hand.seen self.old.receipts.items self.new.receipts.items) }
    {
        match command {
            Command::Happen(event) => self.happen(rt, event),
            Command::Sync => self.sync(rt),
            Command::Settle => {
                self.cluster.settle(rt);
                Ok(())
            }
            _ => Ok(()),
        }
    }

    // Posts an event that isn't the workers' own.
    fn happen<H: Threads + Wait + Copy + Drop + Send + 'static>(
        &mut self,
        rt: &H,
        event: &Event,
    ) -> Result<(), AllocError>
        ensures { OnOk result (self.new.lacks ≡ false → Puts (λ journal before after. IsCarriedOut L.settings journal before after (rule.Happen (event_of event.now)))
            self.old.hand.seen self.new.hand.seen self.old.receipts.items self.new.receipts.items) }
    {
        match event {
            Event::Deliver { .. } | Event::Lose { .. } => Ok(()),
            _ => {
                self.post(rt, event)?;
                Ok(())
            }
        }
    }

    // All silos see what they haven't, up to a refusal.
    fn sync<H: Threads + Wait + Copy + Drop + Send + 'static>(
        &mut self,
        rt: &H,
    ) -> Result<(), AllocError>
        ensures { OnOk result (self.new.lacks ≡ false → Puts (λ journal before after. IsCarriedOut L.settings journal before after rule.Sync)
            self.old.hand.seen self.new.hand.seen self.old.receipts.items self.new.receipts.items) }
    {
        let sights = self.cluster.sights(rt, &mut self.hand)?;
        self.post_all(rt, &sights)
    }

    // Posts events, one after the other, up to a refusal.
    fn post_all<H: Threads + Wait + Copy + Drop + Send + 'static>(
        &mut self,
        rt: &H,
        events: &[Event],
    ) -> Result<(), AllocError>
        ensures { OnOk result (self.new.lacks ≡ false → Puts (λ journal before after. ArePosted L.settings journal before after (map event_of events.now))
            self.old.hand.seen self.new.hand.seen self.old.receipts.items self.new.receipts.items) }
    {
        for event in events {
            if !self.post(rt, event)? {
                return Ok(());
            }
        }
        Ok(())
    }

    // Posts an event, and keeps its receipt: whether it was accepted. What should follow it and couldn't be had lacks from then on.
    // Fails only when memory runs out.
    fn post<H: Threads + Wait + Copy + Drop + Send + 'static>(
        &mut self,
        rt: &H,
        event: &Event,
    ) -> Result<bool, AllocError>
        ensures posted { IfOk result (λ accepted. self.new.lacks ≡ false → IsPosted L.settings (event_of event.now) accepted self.old.hand.seen self.new.hand.seen self.old.receipts.items self.new.receipts.items) }
        ensures followed { IfOk result (λ accepted. self.new.lacks ≡ false → IsFollowed L.settings (event_of event.now) accepted self.old.hand.seen self.new.hand.seen self.old.cluster self.new.cluster) }
        ensures lacking { self.new.lacks ≡ false → self.old.lacks ≡ false }
    {
        if self.lacks {
            return Ok(false);
        }
        self.receipts.reserve(1)?;
        match self.cluster.run(rt, &mut self.hand, event) {
            Ok(ran) => {
                self.lacks = ran.lack.is_some();
                self.receipts.push_reserved(ran.receipt);
                Ok(true)
            }
            Err(refusal) => match refusal.number() {
                Some(_) => Ok(false),
                None => Err(AllocError),
            },
        }
    }
}
