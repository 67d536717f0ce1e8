ghost use Rattle.std.specs.Prelude.{◌≡◌, IfOk, IsSome, MatchOption, OnErr, Some};
ghost use Rattle.directory_rules.specs.Mail.{letter_of};
ghost use Rattle.cluster_board.specs.Due.{HasNoWork, IsWorkOf};

use crate::marks::mark_of;
use crate::{Board, Charter, Job};
use directory_core::World;
use directory_letters::Letter;
use letter_mail::MailedLetter;
use silo_address::SiloAddress;
use std::alloc::AllocError;

impl<L: Charter> Board<L> {
    /// The silo's node, shared, with the least fresh letter to it and that letter's number; `None` where the silo has no node, or
    /// there is no fresh letter to it. The cluster stays as it is, and so does the letter: it may be lent more than once. Fails
    /// only when memory runs out, and only where there is work (`docs/RULES.md#the-board`).
    pub fn lend(&mut self, silo: &SiloAddress) -> Result<Option<Job<L>>, AllocError>
        ensures lent { IfOk result (λ lent. MatchOption lent (HasNoWork self.old.world silo.now) (IsWorkOf self.old.world silo.now)) }
        ensures memory { OnErr result (¬ (HasNoWork self.old.world silo.now)) }
        ensures unchanged { self.new ≡ self.old }
    {
        let Some(number) = self.world.least_fresh_to(silo) else {
            return Ok(None);
        };
        let Some(node) = self.world.shared_node(silo) else {
            return Ok(None);
        };
        let node = node.copy()?;
        self.world.whole();
        let letter = letter_at(&self.world, number)?;
        let mark = mark_of(&mut self.marked, &mut self.marks, silo, &node);
        Ok(Some(Job {
            number,
            letter,
            node,
            mark,
        }))
    }
}

// The letter of that number, which is in the mail.
fn letter_at(world: &World, number: u64) -> Result<Letter, AllocError>
    requires { IsSome (letter_of world.now number) }
    ensures { IfOk result (λ letter. letter_of world.now number ≡ Some letter) }
{
    match world.letter(number) {
        Some(MailedLetter::Made(letter)) => Ok(letter),
        Some(MailedLetter::Lent(letter)) => letter.copy(),
        None => unreachable!(),
    }
}
