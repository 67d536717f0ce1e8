ghost use Rattle.std.specs.Prelude.{◌≡◌, ◌⊎◌, ◌++◌, ◌∷◌, [], ℕ, IfOk, OnErr, OnOk, map, take};
ghost use Rattle.directory_rules.specs.EventModel.{event_of};
ghost use Rattle.directory_rules.specs.Happens.{happens};
ghost use Rattle.directory_core.specs.Applied.{excused};
ghost use Rattle.directory_rules.specs.Headline.{Headline};
ghost use Rattle.directory_rules.specs.Run.{run, told_of, world_after};
ghost use Rattle.dump_headline.specs.Told.{IsRightlyTold};
ghost use Rattle.directory_core.specs.PlainSteps.{AllMovePlainly, MovesBy};

use crate::{EventResult, World};
use directory_rules::Event;
use std::alloc::{AllocError, Global};

impl World {
    /// Events happen, one after the other; a refused one changes nothing, and the run goes on behind it. Answers what each event
    /// told, or why it was refused (`docs/RULES.md#the-world`). Out of memory ends the run, and what was applied stands.
    ///
    /// The headline holds of the world that is left, and each accepted event is the step of the plain machine that it tells
    /// (`docs/RULES.md#what-is-to-hold-of-the-world`); the dump of that world is right
    /// (`docs/RULES.md#the-dump-and-the-verdict`).
    pub fn run(&mut self, alloc: Global, events: &[Event]) -> Result<Vec<EventResult>, AllocError>
        ensures told { IfOk result (λ told. told.items ≡ (run self.old (map event_of events.now)).told) }
        ensures world { OnOk result (self.new ≡ (run self.old (map event_of events.now)).world) }
        ensures plain { OnOk result (AllMovePlainly self.old (map event_of events.now)) }
        ensures stopped { OnErr result ((count : ℕ) × (self.new ≡ (run self.old (map event_of (take count events.now))).world) × AllMovePlainly self.old (map event_of (take count events.now))) }
        ensures headline { Headline self.new }
        ensures right { IsRightlyTold self.new }
    {
        let mut told = Vec::new(alloc);
        for event in events {
            self.tell_next(event, &mut told)?;
        }
        self.headline();
        Ok(told)
    }

    // The next event of a run happens, and is told. Fails only when memory runs out; then the event has happened or not.
    fn tell_next(&mut self, event: &Event, told: &mut Vec<EventResult>) -> Result<(), AllocError>
        ensures told { OnOk result (told.new.items ≡ told.old.items ++ told_of (happens self.old (event_of event.now)) ∷ []) }
        ensures world { OnOk result (self.new ≡ world_after (happens self.old (event_of event.now)) self.old) }
        ensures stopped { OnErr result ((self.new ≡ self.old) ⊎ (self.new ≡ world_after (happens self.old (event_of event.now)) self.old)) }
        ensures plain { MovesBy self.old (event_of event.now) }
        ensures headline { Headline self.new }
        ensures right { IsRightlyTold self.new }
    {
        event.in_range();
        self.headline();
        let this = self.apply_next(event)?;
        told.push(this)?;
        Ok(())
    }

    // The next event of a run happens: what it told, or why it was refused. Fails only when memory runs out.
    fn apply_next(&mut self, event: &Event) -> Result<EventResult, AllocError>
        ensures told { IfOk result (λ told. told ≡ told_of (happens self.old (event_of event.now))) }
        ensures world { OnOk result (self.new ≡ world_after (happens self.old (event_of event.now)) self.old) }
        ensures unchanged { OnErr result (self.new ≡ self.old) }
        ensures memory { OnErr result (excused event.now (happens self.old (event_of event.now))) }
        ensures headline { Headline self.new }
        ensures right { IsRightlyTold self.new }
    {
        match self.apply(event) {
            Ok(outcome) => Ok(EventResult::new(Ok(outcome))),
            Err(refusal) => match refusal.number() {
                Some(_) => Ok(EventResult::new(Err(refusal))),
                None => Err(AllocError),
            },
        }
    }
}
