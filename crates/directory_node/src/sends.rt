ghost use Rattle.std.specs.Prelude.{◌≡◌, IfOk, OnErr, length};
ghost use Rattle.directory_rules.specs.Sent.{letter_to, request_letters};
ghost use Rattle.directory_letters.specs.LetterModel.{body_of};
ghost use Rattle.node_plans.specs.Sender.{bare, sending};

use crate::Node;
use directory_letters::{Body, Letter};
use directory_rules::Act;
use node_plans::Sender;
use silo_address::SiloAddress;
use std::alloc::{AllocError, Global};

impl Node {
    // The node as it is.
    pub(crate) fn sender(&self) -> Sender<'_>
        ensures { sending result ≡ bare self.now }
    {
        Sender {
            settings: &self.settings,
            host: &self.host,
            view: &self.view,
            ring: &self.ring,
            gatherings: &self.gatherings,
            recoveries: &self.recoveries,
        }
    }

    // The letter of a request to the owner of its hash, if anybody owns it, as a list. Only a letter needs memory.
    pub(crate) fn request_letters(
        &self,
        alloc: Global,
        number: u64,
        act: Act,
    ) -> Result<Vec<Letter>, AllocError>
        ensures sent { IfOk result (λ letters. letters.items ≡ request_letters self.now number act) }
        ensures one { OnErr result (length (request_letters self.now number act) ≡ 1) }
    {
        self.sender().request_letters(alloc, number, act)
    }

    // A letter of this silo, of the version that it has seen.
    pub(crate) fn letter_to(&self, silo: SiloAddress, body: Body) -> Letter
        ensures { result ≡ letter_to silo self.now (body_of body) }
    {
        Letter::new(self.host.silo(), silo, self.view.version(), body)
    }
}
