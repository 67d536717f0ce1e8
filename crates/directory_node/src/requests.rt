ghost use Rattle.std.specs.Prelude.{◌≡◌, IfOk, OnErr, length};
ghost use Rattle.directory_rules.specs.Answer.{answered};
ghost use Rattle.directory_rules.specs.Receive.{requested};
ghost use Rattle.node_plans.specs.Plans.{Fits, changed, step_by};

use crate::{Change, Node, Plan};
use directory_letters::{Body, Letter};
use directory_rules::{Act, Effect, Request};
use grain_table::HashedRequest;
use node_plans::{list_of, reply_effect};
use std::alloc::{AllocError, Global};

impl Node {
    // A request comes.
    pub(crate) fn plan_request(
        &self,
        alloc: Global,
        letter: &Letter,
        request: &HashedRequest,
    ) -> Result<Plan, AllocError>
        ensures planned { IfOk result (λ plan. step_by self.now plan ≡ requested self.now letter.now request.now) }
        ensures fits { IfOk result (λ plan. Fits plan.change self.now) }
        ensures one { OnErr result (length (requested self.now letter.now request.now).letters ≡ 1) }
    {
        let Request {
            sender,
            version,
            number,
            ..
        } = *request.request();
        if !(sender == letter.from() && version == letter.version()) {
            return Ok(Plan::idle(alloc, Effect::Ignored));
        }
        let request = self.once_hashed(request);
        let reply = self.holding.answer(&request);
        let body = Body::Reply { number, reply };
        let effect = reply_effect(&reply);
        Ok(Plan {
            letters: list_of(alloc, self.letter_to(sender, body))?,
            effect,
            change: self.change_by(&request),
        })
    }

    // The request, whose grain is hashed at most once more: a Find only where it is answered, any other now, since what it changes
    // wants the hash again.
    fn once_hashed(&self, request: &HashedRequest) -> HashedRequest
        ensures { result ≡ request.now }
    {
        match request.request().act {
            Act::Find { .. } => request.copy(),
            Act::Register { .. } | Act::Deregister { .. } => {
                request.checked(self.settings.hashing())
            }
        }
    }

    // What a request changes: a Find nothing.
    fn change_by(&self, request: &HashedRequest) -> Change
        ensures changed { changed result self.now ≡ record self.now { holding = (answered self.now.holding request.now).holding } }
        ensures fits { Fits result self.now }
    {
        match request.request().act {
            Act::Find { .. } => Change::Nothing,
            Act::Register { .. } | Act::Deregister { .. } => Change::Serves(request.copy()),
        }
    }
}
