//! A table's turn at a request.
ghost use Rattle.std.specs.Prelude.{◌≡◌, [], IfOk, OnOk, OnErr};
ghost use Rattle.directory_rules.specs.Answer.{deregistered_from, found_reply, is_previous, registered_over, turned};
ghost use Rattle.directory_rules.specs.Table.{entry_at};
ghost use Rattle.grain_table.specs.Hashed.{IsKeyOf};

use super::Table;
use crate::HashedRequest;
use crate::hashed_grain::HashedGrain;
use directory_rules::{Act, Reply};
use silo_address::{ActivationId, Entry};
use std::alloc::AllocError;

impl Table {
    /// What the table answers to what a request asks (`docs/RULES.md#requests`).
    pub fn reply_to(&self, request: &HashedRequest) -> Reply
        ensures { result ≡ (turned request.now.act self.now.entries).reply }
    {
        let there = self.at(&request.key(self.hashing));
        match &request.request().act {
            Act::Register { entry, previous } => register_reply(there, entry, *previous),
            Act::Deregister { entry } => deregister_reply(there, entry),
            Act::Find { .. } => find_reply(there),
        }
    }

    /// Answers what a request asks, and makes its change. Fails only when memory runs out, and then changes nothing
    /// (`docs/RULES.md#requests`).
    pub fn turn(&mut self, request: &HashedRequest) -> Result<Reply, AllocError>
        ensures reply { IfOk result (λ reply. reply ≡ (turned request.now.act self.old.entries).reply) }
        ensures table { OnOk result (self.new ≡ record self.old { entries = (turned request.now.act self.old.entries).table }) }
        ensures unchanged { OnErr result (self.new ≡ self.old) }
    {
        let key = request.key(self.hashing);
        match &request.request().act {
            Act::Register { entry, previous } => self.register(key, entry, *previous),
            Act::Deregister { entry } => Ok(self.deregister(&key, entry)),
            Act::Find { .. } => Ok(find_reply(self.at(&key))),
        }
    }

    fn register(
        &mut self,
        key: HashedGrain,
        entry: &Entry,
        previous: Option<ActivationId>,
    ) -> Result<Reply, AllocError>
        requires is_key { IsKeyOf self.old.hashing key }
        requires of_grain { key.grain ≡ entry.now.grain }
        ensures reply { IfOk result (λ reply. reply ≡ (registered_over (entry_at entry.now.grain self.old.entries) entry.now previous self.old.entries).reply) }
        ensures table { OnOk result (self.new ≡ record self.old { entries = (registered_over (entry_at entry.now.grain self.old.entries) entry.now previous self.old.entries).table }) }
        ensures unchanged { OnErr result (self.new ≡ self.old) }
    {
        if let Some(there) = self.at(&key) {
            if there.activation == entry.activation {
                return Ok(Reply::Registered(*entry));
            }
            if !is_previous(previous, &there) {
                return Ok(Reply::Taken(there));
            }
        }
        self.put(key, entry.activation)?;
        Ok(Reply::Registered(*entry))
    }

    fn deregister(&mut self, key: &HashedGrain, entry: &Entry) -> Reply
        requires is_key { IsKeyOf self.old.hashing key.now }
        requires of_grain { key.now.grain ≡ entry.now.grain }
        ensures reply { result ≡ (deregistered_from (entry_at entry.now.grain self.old.entries) entry.now self.old.entries).reply }
        ensures table { self.new ≡ record self.old { entries = (deregistered_from (entry_at entry.now.grain self.old.entries) entry.now self.old.entries).table } }
    {
        let Some(there) = self.at(key) else {
            return Reply::Absent;
        };
        if there.activation != entry.activation {
            return Reply::Absent;
        }
        self.take_out(key);
        Reply::Removed
    }
}

fn register_reply(there: Option<Entry>, entry: &Entry, previous: Option<ActivationId>) -> Reply
    ensures { result ≡ (registered_over there entry.now previous []).reply }
{
    let Some(there) = there else {
        return Reply::Registered(*entry);
    };
    if there.activation == entry.activation {
        return Reply::Registered(*entry);
    }
    if is_previous(previous, &there) {
        return Reply::Registered(*entry);
    }
    Reply::Taken(there)
}

fn deregister_reply(there: Option<Entry>, entry: &Entry) -> Reply
    ensures { result ≡ (deregistered_from there entry.now []).reply }
{
    match there {
        Some(there) if there.activation == entry.activation => Reply::Removed,
        Some(_) | None => Reply::Absent,
    }
}

fn find_reply(there: Option<Entry>) -> Reply
    ensures { result ≡ found_reply there }
{
    match there {
        Some(entry) => Reply::Found(entry),
        None => Reply::Nothing,
    }
}

// Whether the entry there is that of the previous activation, in whose place another may be entered.
fn is_previous(previous: Option<ActivationId>, there: &Entry) -> bool
    ensures { result ≡ is_previous previous there.now }
{
    match previous {
        Some(previous) => there.activation == previous,
        None => false,
    }
}
