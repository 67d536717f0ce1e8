ghost use Rattle.std.specs.Prelude.{◌≡◌, IfErr, IsOk, OnErr};
ghost use Rattle.directory_rules.specs.declared.own_step.OwnStep.TheVariants.{Wake, Close, Cancel, Find, Forget, Nudge, NudgeGrain, NudgeRanges, Offer};
ghost use Rattle.directory_rules.specs.Input.{Does};
ghost use Rattle.directory_node.specs.Follows.{Follows};
ghost use Rattle.directory_silo.specs.AnswerModel.{stepped_as};
ghost use Rattle.directory_silo.specs.Numbers.{IsNumberedUnlessMemory, silo_refusal_number};
ghost use Rattle.silo_rules.specs.Steps.{does, receives};

use crate::{Answer, Silo, SiloRefusal};
use directory_letters::Letter;
use directory_node::Input;
use directory_rules::{Effect, OwnStep};
use silo_address::{GrainId, SiloAddress};

// What the silo's own application asks for, and letters. All of it is refused by 901 before the silo was told of its own join, then
// by 902 where it is Dead by what it was told.
impl Silo {
    /// The silo does what its application asks of it: what the calls below do, as a value. Refused by 901, 902, and then as each of
    /// them (`docs/RULES.md#the-world`).
    pub fn ask(&mut self, step: &OwnStep) -> Result<Answer, SiloRefusal>
        ensures told { Follows (stepped_as self.new) silo_refusal_number IsOk (does self.old (Does step.now)) result }
        ensures numbered { IfErr result IsNumberedUnlessMemory }
        ensures membership { self.new.membership ≡ self.old.membership }
        ensures unchanged { OnErr result (self.new ≡ self.old) }
    {
        self.does(&Input::Does(step))
    }

    /// An activation of the grain begins, and asks to be entered. Refused by 901, 902, 804, 801, 806, 805
    /// (`docs/RULES.md#the-world`).
    pub fn wake(&mut self, grain: &GrainId) -> Result<Answer, SiloRefusal>
        ensures told { Follows (stepped_as self.new) silo_refusal_number IsOk (does self.old (Does (Wake grain.now))) result }
        ensures numbered { IfErr result IsNumberedUnlessMemory }
        ensures membership { self.new.membership ≡ self.old.membership }
        ensures unchanged { OnErr result (self.new ≡ self.old) }
    {
        self.ask(&OwnStep::Wake(*grain))
    }

    /// The grain's firm activation begins to close: its work has to have ended. Refused by 901, 902, 802, 803, 805
    /// (`docs/RULES.md#the-world`).
    pub fn close(&mut self, grain: &GrainId) -> Result<Answer, SiloRefusal>
        ensures told { Follows (stepped_as self.new) silo_refusal_number IsOk (does self.old (Does (Close grain.now))) result }
        ensures numbered { IfErr result IsNumberedUnlessMemory }
        ensures membership { self.new.membership ≡ self.old.membership }
        ensures unchanged { OnErr result (self.new ≡ self.old) }
    {
        self.ask(&OwnStep::Close(*grain))
    }

    /// The grain's activation is given up: it asks to be registered, and isn't firm yet. From then on it asks to be taken out instead.
    /// Refused by 901, 902, 802, 808, 805 (`docs/RULES.md#the-world`).
    pub fn cancel(&mut self, grain: &GrainId) -> Result<Answer, SiloRefusal>
        ensures told { Follows (stepped_as self.new) silo_refusal_number IsOk (does self.old (Does (Cancel grain.now))) result }
        ensures numbered { IfErr result IsNumberedUnlessMemory }
        ensures membership { self.new.membership ≡ self.old.membership }
        ensures unchanged { OnErr result (self.new ≡ self.old) }
    {
        self.ask(&OwnStep::Cancel(*grain))
    }

    /// The grain is looked up: the cache tells its activation, or its owner is asked. Refused by 901, 902, 806, 805
    /// (`docs/RULES.md#the-world`).
    pub fn find(&mut self, grain: &GrainId) -> Result<Answer, SiloRefusal>
        ensures told { Follows (stepped_as self.new) silo_refusal_number IsOk (does self.old (Does (Find grain.now))) result }
        ensures numbered { IfErr result IsNumberedUnlessMemory }
        ensures membership { self.new.membership ≡ self.old.membership }
        ensures unchanged { OnErr result (self.new ≡ self.old) }
    {
        self.ask(&OwnStep::Find(*grain))
    }

    /// What the cache has of the grain is forgotten. Refused by 901, 902 (`docs/RULES.md#the-world`).
    pub fn forget(&mut self, grain: &GrainId) -> Result<Answer, SiloRefusal>
        ensures told { Follows (stepped_as self.new) silo_refusal_number IsOk (does self.old (Does (Forget grain.now))) result }
        ensures numbered { IfErr result IsNumberedUnlessMemory }
        ensures membership { self.new.membership ≡ self.old.membership }
        ensures unchanged { OnErr result (self.new ≡ self.old) }
    {
        self.ask(&OwnStep::Forget(*grain))
    }

    /// The grain's firm activation begins to close, and is offered to another silo: its work has to have ended. Refused by 901, 902,
    /// 802, 803, 807, 805 (`docs/RULES.md#the-world`).
    pub fn offer(&mut self, grain: &GrainId, to: &SiloAddress) -> Result<Answer, SiloRefusal>
        ensures told { Follows (stepped_as self.new) silo_refusal_number IsOk (does self.old (Does (Offer grain.now to.now))) result }
        ensures numbered { IfErr result IsNumberedUnlessMemory }
        ensures membership { self.new.membership ≡ self.old.membership }
        ensures unchanged { OnErr result (self.new ≡ self.old) }
    {
        self.ask(&OwnStep::Offer {
            grain: *grain,
            to: *to,
        })
    }

    /// All that is outstanding is sent again. Whoever may lose letters nudges from time to time. Refused by 901, 902, 805
    /// (`docs/RULES.md#the-world`).
    pub fn nudge(&mut self) -> Result<Answer, SiloRefusal>
        ensures told { Follows (stepped_as self.new) silo_refusal_number IsOk (does self.old (Does Nudge)) result }
        ensures numbered { IfErr result IsNumberedUnlessMemory }
        ensures membership { self.new.membership ≡ self.old.membership }
        ensures unchanged { OnErr result (self.new ≡ self.old) }
    {
        self.ask(&OwnStep::Nudge)
    }

    /// What is outstanding about the grain is sent again, and nothing else, so that no other request begins anew. Refused by 901, 902,
    /// 805 (`docs/RULES.md#the-world`).
    pub fn nudge_grain(&mut self, grain: &GrainId) -> Result<Answer, SiloRefusal>
        ensures told { Follows (stepped_as self.new) silo_refusal_number IsOk (does self.old (Does (NudgeGrain grain.now))) result }
        ensures numbered { IfErr result IsNumberedUnlessMemory }
        ensures membership { self.new.membership ≡ self.old.membership }
        ensures unchanged { OnErr result (self.new ≡ self.old) }
    {
        self.ask(&OwnStep::NudgeGrain(*grain))
    }

    /// What the silo's unsettled ranges want of other silos is sent again, and no request. Refused by 901, 902
    /// (`docs/RULES.md#the-world`).
    pub fn nudge_ranges(&mut self) -> Result<Answer, SiloRefusal>
        ensures told { Follows (stepped_as self.new) silo_refusal_number IsOk (does self.old (Does NudgeRanges)) result }
        ensures numbered { IfErr result IsNumberedUnlessMemory }
        ensures membership { self.new.membership ≡ self.old.membership }
        ensures unchanged { OnErr result (self.new ≡ self.old) }
    {
        self.ask(&OwnStep::NudgeRanges)
    }

    /// A letter comes: late, again, or in any order. One to another silo is ignored. Refused by 901, 902 alone
    /// (`docs/RULES.md#letters`).
    pub fn receive(&mut self, letter: &Letter) -> Result<Answer, SiloRefusal>
        ensures told { Follows (stepped_as self.new) silo_refusal_number IsOk (receives self.old letter.now) result }
        ensures numbered { IfErr result IsNumberedUnlessMemory }
        ensures membership { self.new.membership ≡ self.old.membership }
        ensures unchanged { OnErr result (self.new ≡ self.old) }
    {
        if letter.to() != self.address() {
            return Ok(Answer {
                letters: Vec::new(self.alloc),
                effect: Effect::Ignored,
            });
        }
        self.does(&Input::Receives(letter))
    }
}
