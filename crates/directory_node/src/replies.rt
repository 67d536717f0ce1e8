ghost use Rattle.std.specs.Prelude.{◌≡◌};
ghost use Rattle.directory_rules.specs.Host.{asking_under, closing_under};
ghost use Rattle.directory_rules.specs.Reply.{confirmed_by, ended_by, found_by, not_found_by, replied, retry_by, yielded_by};
ghost use Rattle.node_plans.specs.Plans.{Fits, step_by};

use crate::{Change, Node, Plan};
use directory_rules::{Effect, Reply};
use silo_address::Entry;
use std::alloc::Global;

impl Node {
    // A reply comes, of a version and under a number. It is answered by no letter.
    pub(crate) fn plan_reply(&self, alloc: Global, version: u64, number: u64, reply: &Reply) -> Plan
        ensures planned { step_by self.now result ≡ replied self.now version number reply.now }
        ensures fits { Fits result.change self.now }
    {
        if let Reply::Retry(_) = reply {
            return self.plan_retry(alloc, number);
        }
        if version != self.view.version() {
            return Plan::idle(alloc, Effect::Ignored);
        }
        match reply {
            Reply::Registered(_) => self.plan_confirm(alloc, number),
            Reply::Taken(entry) => self.plan_yield(alloc, number, entry),
            Reply::Removed | Reply::Absent => self.plan_end(alloc, number),
            Reply::Found(entry) => self.plan_learn(alloc, number, entry),
            Reply::Nothing => self.plan_end_find(alloc, number),
            Reply::Retry(_) => unreachable!(),
        }
    }

    // The asking activation is firm.
    fn plan_confirm(&self, alloc: Global, number: u64) -> Plan
        ensures planned { step_by self.now result ≡ confirmed_by (asking_under self.now.host number) self.now }
        ensures fits { Fits result.change self.now }
    {
        match self.host.asking_under(number) {
            Some(_) => Plan::silent(alloc, Effect::Firm, Change::Confirms(number)),
            None => Plan::idle(alloc, Effect::Ignored),
        }
    }

    // The asking activation goes, and the entry that has its grain is learnt.
    fn plan_yield(&self, alloc: Global, number: u64, entry: &Entry) -> Plan
        ensures planned { step_by self.now result ≡ yielded_by (asking_under self.now.host number) entry.now self.now }
        ensures fits { Fits result.change self.now }
    {
        if self.host.asking_under(number).is_none() {
            return Plan::idle(alloc, Effect::Ignored);
        }
        let entry = *entry;
        Plan::silent(alloc, Effect::Yielded, Change::Yields { number, entry })
    }

    // The closing activation goes.
    fn plan_end(&self, alloc: Global, number: u64) -> Plan
        ensures planned { step_by self.now result ≡ ended_by (closing_under self.now.host number) self.now }
        ensures fits { Fits result.change self.now }
    {
        match self.host.closing_under(number) {
            Some(_) => Plan::silent(alloc, Effect::Ended, Change::Ends(number)),
            None => Plan::idle(alloc, Effect::Ignored),
        }
    }

    // The find ends, and its entry is learnt.
    fn plan_learn(&self, alloc: Global, number: u64, entry: &Entry) -> Plan
        ensures planned { step_by self.now result ≡ found_by number entry.now self.now }
        ensures fits { Fits result.change self.now }
    {
        if !self.host.is_finding(number) {
            return Plan::idle(alloc, Effect::Ignored);
        }
        let entry = *entry;
        Plan::silent(alloc, Effect::Learnt, Change::Learns { number, entry })
    }

    // The find ends with nothing.
    fn plan_end_find(&self, alloc: Global, number: u64) -> Plan
        ensures planned { step_by self.now result ≡ not_found_by number self.now }
        ensures fits { Fits result.change self.now }
    {
        if !self.host.is_finding(number) {
            return Plan::idle(alloc, Effect::Ignored);
        }
        Plan::silent(alloc, Effect::Noted, Change::EndsFind(number))
    }

    // The request stays outstanding.
    fn plan_retry(&self, alloc: Global, number: u64) -> Plan
        ensures planned { step_by self.now result ≡ retry_by number self.now }
        ensures fits { Fits result.change self.now }
    {
        if self.host.is_outstanding(number) {
            Plan::idle(alloc, Effect::Noted)
        } else {
            Plan::idle(alloc, Effect::Ignored)
        }
    }
}
