//! All that a host has outstanding: by number, and its finds by grain as well.
ghost use Rattle.std.specs.BTreeMap.{insert_entry, is_at};
ghost use Rattle.std.specs.List.Sorted.{IsStrictlySortedBy};
ghost use Rattle.std.specs.Map.{keys_of, remove_entry};
ghost use Rattle.std.specs.Ordering.{nat_cmp};
ghost use Rattle.std.specs.Prelude.{◌≡◌, ◌↔◌, [], IfOk, IsTrue, None, OnErr, OnOk, is_some, length, option_copied};
ghost use Rattle.host_activations.specs.Asked.{asked_under, finds_in};

mod about;
mod by_grain;

use crate::asked::OutstandingRequest;
pub(crate) use about::renumbered;
use by_grain::{FindKey, put_find, take_find};
use std::alloc::{AllocError, Global};
use std::collections::BTreeMap;
use std::marker::Model;

/// All that a host has outstanding, each request under its number, so that a reply finds what it answers at once.
#[derive(Drop)]
pub(crate) struct OutstandingRequests {
    by_number: BTreeMap<u64, OutstandingRequest>,
    // The finds among them, so that those of one grain are found without a look at the others.
    finds: BTreeMap<FindKey, ()>,
}

impl Model for OutstandingRequests {
    ghost use Rattle.host_activations.specs.Outstanding.{OutstandingValue};

    ghost Value = { OutstandingValue };

    ghost use Rattle.host_activations.specs.Outstanding.{AreIndexed};

    ghost view = { λ o. record { entries = o.by_number.entries } };

    ghost invariant = { λ o. AreIndexed o.by_number.entries o.finds.entries };
}

impl OutstandingRequests {
    /// Nothing is outstanding.
    pub(crate) fn new(alloc: Global) -> OutstandingRequests
        ensures { result ≡ record { entries = [] } }
    {
        OutstandingRequests {
            by_number: BTreeMap::new(alloc),
            finds: BTreeMap::new(alloc),
        }
    }

    /// How many requests there are.
    pub(crate) fn len(&self) -> usize
        ensures { result ≡ length self.now.entries }
    {
        self.by_number.len()
    }

    /// How many of them are finds.
    pub(crate) fn find_count(&self) -> usize
        ensures { result ≡ length (finds_in self.now.entries) }
    {
        self.finds.len()
    }

    /// The requests under their numbers, in order.
    pub(crate) fn by_number(&self) -> &BTreeMap<u64, OutstandingRequest>
        ensures { result.now.entries ≡ self.now.entries }
    {
        &self.by_number
    }

    /// The request of the number.
    pub(crate) fn get(&self, number: u64) -> Option<&OutstandingRequest>
        ensures value { option_copied result ≡ asked_under number self.now.entries }
    {
        self.by_number.get(&number)
    }

    /// Whether a request has the number.
    pub(crate) fn contains_key(&self, number: u64) -> bool
        ensures { result ≡ is_some (asked_under number self.now.entries) }
    {
        self.by_number.contains_key(&number)
    }

    /// A request comes, under a number that none has. Fails only when memory runs out.
    pub(crate) fn insert(
        &mut self,
        number: u64,
        asked: &OutstandingRequest,
    ) -> Result<(), AllocError>
        requires free { asked_under number self.old.entries ≡ None }
        ensures entries { OnOk result (self.new.entries ≡ insert_entry nat_cmp self.old.entries number asked.now) }
        ensures unchanged { OnErr result (self.new ≡ self.old) }
    {
        put_find(&mut self.finds, number, asked)?;
        match self.by_number.insert(number, *asked) {
            Ok(_) => Ok(()),
            Err(_) => {
                take_find(&mut self.finds, number, asked);
                Err(AllocError)
            }
        }
    }

    /// The request of the number goes. Where there is none, nothing changes.
    pub(crate) fn remove(&mut self, number: u64)
        ensures entries { self.new.entries ≡ remove_entry (is_at (nat_cmp number)) self.old.entries }
    {
        let Some(asked) = self.by_number.remove(&number) else {
            return;
        };
        take_find(&mut self.finds, number, &asked);
    }

    /// A law: the requests stand in the order of their numbers.
    pub(crate) fn in_order(&self)
        ensures { IsStrictlySortedBy nat_cmp (keys_of self.now.entries) }
    {
        let _len = self.by_number.len();
    }

    /// The same requests. Fails only when memory runs out.
    pub(crate) fn copy(&self) -> Result<OutstandingRequests, AllocError>
        ensures { IfOk result (λ copy. copy ≡ self.now) }
    {
        let by_number = self.by_number.clone()?;
        let finds = self.finds.clone()?;
        Ok(OutstandingRequests { by_number, finds })
    }

    /// Whether both are the same requests under the same numbers.
    pub(crate) fn same(&self, other: &OutstandingRequests) -> bool
        ensures { IsTrue result ↔ (self.now ≡ other.now) }
    {
        same_requests(&self.by_number, &other.by_number)
    }
}

fn same_requests(
    one: &BTreeMap<u64, OutstandingRequest>,
    other: &BTreeMap<u64, OutstandingRequest>,
) -> bool
    ensures { IsTrue result ↔ (one.now.entries ≡ other.now.entries) }
{
    *one == *other
}
