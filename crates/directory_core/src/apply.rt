ghost use Rattle.std.specs.Prelude.{◌≡◌, ◌<◌, IfErr, IfOk, OnErr};
ghost use Rattle.directory_rules.specs.EventModel.{event_of};
ghost use Rattle.directory_rules.specs.Happens.{attempted, happens};
ghost use Rattle.directory_rules.specs.Headline.{Headline};
ghost use Rattle.directory_rules.specs.World.{accepted_as};
ghost use Rattle.dump_headline.specs.Told.{IsRightlyTold};
ghost use Rattle.directory_node.specs.Follows.{Follows};
ghost use Rattle.directory_core.specs.Applied.{IsPlainlyTold, excused};
ghost use Rattle.directory_core.specs.Numbers.{IsNumberedUnlessMemory, event_refusal_number};
ghost use Rattle.directory_core.specs.Whole.{LeavesWorld};

use crate::{EventRefusal, World};
use directory_rules::{Event, Outcome};

impl World {
    /// An event happens. It is accepted, with what it tells, or refused by a refusal with its number, and then nothing changes
    /// (`docs/RULES.md#the-world`). Out of memory changes nothing either, is told by `OutOfMemory` alone, and comes only where no
    /// number refuses the event; but at a sight and a nudge, whose letters are known only when they are made, it may come before
    /// 909 (`docs/RULES.md#memory`).
    ///
    /// The headline holds of the world that is left, and what is accepted is the step of the plain machine that it tells
    /// (`docs/RULES.md#what-is-to-hold-of-the-world`); the dump of that world is right
    /// (`docs/RULES.md#the-dump-and-the-verdict`).
    pub fn apply(&mut self, event: &Event) -> Result<Outcome, EventRefusal>
        ensures told { Follows (accepted_as self.new) event_refusal_number (excused event.now) (happens self.old (event_of event.now)) result }
        ensures numbered { IfErr result IsNumberedUnlessMemory }
        ensures unchanged { OnErr result (self.new ≡ self.old) }
        ensures headline { Headline self.new }
        ensures right { IsRightlyTold self.new }
        ensures plain { IfOk result (λ outcome. IsPlainlyTold self.old outcome self.new) }
    {
        event.in_range();
        self.whole();
        let told = self.follow(event);
        self.headline();
        told
    }

    // An event happens, as the rule says.
    fn follow(&mut self, event: &Event) -> Result<Outcome, EventRefusal>
        requires leaves { LeavesWorld (happens self.old (event_of event.now)) }
        ensures told { Follows (accepted_as self.new) event_refusal_number (excused event.now) (happens self.old (event_of event.now)) result }
        ensures numbered { IfErr result IsNumberedUnlessMemory }
        ensures unchanged { OnErr result (self.new ≡ self.old) }
    {
        if self.accepted >= self.settings.events() {
            return Err(EventRefusal::JournalFull);
        }
        self.attempt(event)
    }

    // An event happens while there is room for one more.
    fn attempt(&mut self, event: &Event) -> Result<Outcome, EventRefusal>
        requires room { self.old.accepted < self.old.settings.events }
        requires leaves { LeavesWorld (attempted self.old (event_of event.now)) }
        ensures told { Follows (accepted_as self.new) event_refusal_number (excused event.now) (attempted self.old (event_of event.now)) result }
        ensures numbered { IfErr result IsNumberedUnlessMemory }
        ensures unchanged { OnErr result (self.new ≡ self.old) }
    {
        match event {
            Event::Join { silo, places } => self.join(*silo, places),
            Event::Leave { silo } => self.leave(silo),
            Event::Kill { silo } => self.kill(silo),
            Event::See { silo, version } => self.sees(silo, *version),
            Event::Do { silo, step } => self.does(silo, step),
            Event::Deliver { number } => self.deliver(*number),
            Event::Lose { number } => self.lose(*number),
        }
    }
}
