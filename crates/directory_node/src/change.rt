ghost use Rattle.std.specs.Prelude.{◌≡◌, OnErr, OnOk};
ghost use Rattle.directory_rules.specs.Answer.{answered};
ghost use Rattle.directory_rules.specs.Cache.{learnt};
ghost use Rattle.directory_rules.specs.Host.{asking_under, closing_under, without_find};
ghost use Rattle.directory_rules.specs.Reply.{yielded_by};
ghost use Rattle.node_plans.specs.Plans.{Fits, changed, without};

use crate::{Change, Node};
use grain_table::HashedRequest;
use node_plans::{forget, learn, use_hint};
use silo_address::Entry;
use std::alloc::AllocError;

impl Node {
    /// Makes the change of a plan of this node. Fails only when memory runs out, and then changes nothing.
    pub fn carry_out(&mut self, change: Change) -> Result<(), AllocError>
        requires fits { Fits change self.old }
        ensures made { OnOk result (self.new ≡ changed change self.old) }
        ensures unchanged { OnErr result (self.new ≡ self.old) }
    {
        match change {
            Change::Nothing => Ok(()),
            Change::Sees(sight) => self.see(Box::into_inner(sight)),
            Change::Renews(renewal) => {
                self.renew(renewal);
                Ok(())
            }
            Change::RenewsAbout(grain) => self.renew_about(&grain),
            Change::Starts { grain, previous } => self.host.start(grain, previous),
            Change::Closes(grain) => self.host.begin_to_close(&grain),
            Change::Asks(grain) => self.host.ask(grain),
            Change::Serves(request) => self.serve(&request),
            Change::Confirms(number) => {
                self.host.confirm(number);
                Ok(())
            }
            Change::Yields { number, entry } => self.yield_to_other(number, entry),
            Change::Ends(number) => {
                self.end_closing(number);
                Ok(())
            }
            Change::EndsFind(number) => {
                self.host.end_find(number);
                Ok(())
            }
            Change::Learns { number, entry } => self.learn(number, entry),
            Change::UsesHint(grain) => {
                use_hint(&mut self.cache, &grain);
                Ok(())
            }
            Change::Forgets { grain, activation } => {
                forget(&mut self.cache, &grain, &activation);
                Ok(())
            }
            Change::Discards { version, range, to } => {
                self.discard(version, range, &to);
                Ok(())
            }
            Change::Digests {
                version,
                range,
                to,
                digest,
            } => {
                self.keep_digest(version, range, &to, digest);
                Ok(())
            }
            Change::Gathers(page) => self.gather(&page),
            Change::GathersAnew(range) => self.gather_anew(range),
            Change::Installs { range, entries } => {
                self.settle_piece(range, entries);
                Ok(())
            }
            Change::Recovers(recovery) => self.recover(recovery),
            Change::Counts(report) => self.count(&report),
            Change::Empties {
                from,
                version,
                ranges,
            } => {
                self.count_empty(from, version, &ranges);
                Ok(())
            }
        }
    }

    // A request is served.
    fn serve(&mut self, request: &HashedRequest) -> Result<(), AllocError>
        ensures made { OnOk result (self.new ≡ record self.old { holding = (answered self.old.holding request.now).holding }) }
        ensures unchanged { OnErr result (self.new ≡ self.old) }
    {
        self.holding.serve(request)?;
        Ok(())
    }

    // The asking activation goes, and the entry that has its grain is learnt.
    fn yield_to_other(&mut self, number: u64, entry: Entry) -> Result<(), AllocError>
        ensures made { OnOk result (self.new ≡ (yielded_by (asking_under self.old.host number) entry self.old).node) }
        ensures unchanged { OnErr result (self.new ≡ self.old) }
    {
        if let Some((grain, _)) = self.host.asking_under(number) {
            learn(&mut self.cache, entry)?;
            self.host.end(&grain);
        }
        Ok(())
    }

    // The closing activation goes.
    fn end_closing(&mut self, number: u64)
        ensures { self.new ≡ without (closing_under self.old.host number) self.old }
    {
        if let Some((grain, _)) = self.host.closing_under(number) {
            self.host.end(&grain);
        }
    }

    // The find ends, and what it found is learnt.
    fn learn(&mut self, number: u64, entry: Entry) -> Result<(), AllocError>
        ensures made { OnOk result (self.new ≡ record self.old { host = without_find self.old.host number; cache = learnt self.old.cache entry }) }
        ensures unchanged { OnErr result (self.new ≡ self.old) }
    {
        learn(&mut self.cache, entry)?;
        self.host.end_find(number);
        Ok(())
    }
}
