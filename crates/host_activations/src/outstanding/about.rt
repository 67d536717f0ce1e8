//! Requests about one grain, and their new numbers.
ghost use Rattle.std.specs.BTreeMap.{insert_entry};
ghost use Rattle.std.specs.List.{enumerate_from};
ghost use Rattle.std.specs.List.Sorted.{IsStrictlySortedBy};
ghost use Rattle.std.specs.Map.{values_of};
ghost use Rattle.std.specs.Ordering.{nat_cmp};
ghost use Rattle.std.specs.Prelude.{◌≡◌, ◌+◌, ◌++◌, ◌<◌, ◌≤◌, ◌^◌, ℕ, IfOk, IsTrue, MatchOption, None, OnErr, OnOk, if◌then◌else◌, is_some, length, map};
ghost use Rattle.host_activations.specs.Asked.{asked_under};
ghost use Rattle.host_activations.specs.Outstanding.{AreAllBelow, IsOwn, about_grain, about_others};
ghost use Rattle.host_activations.specs.declared.asked.OutstandingRequest.TheVariants.{Activation, Find};

use super::OutstandingRequests;
use super::by_grain::{FindKey, first_of, last_of};
use crate::asked::OutstandingRequest;
use silo_address::GrainId;
use std::alloc::{AllocError, Global};
use std::collections::BTreeMap;
use std::collections::btree_map::Range;
use std::ops::Bound;

// Each call is told the number of the request that the grain's activation has, if it has one.
impl OutstandingRequests {
    /// How many requests are about the grain. Costs a logarithm and their number.
    pub(crate) fn count_about(&self, grain: &GrainId, own: Option<u64>) -> usize
        requires { IsOwn own grain.now self.now.entries }
        ensures { result ≡ length (about_grain grain.now self.now.entries) }
    {
        let bounds = (
            Bound::Included(first_of(grain)),
            Bound::Included(last_of(grain)),
        );
        let finds = count_of(self.finds.range(bounds));
        match own {
            Some(_) => finds + 1,
            None => finds,
        }
    }

    /// The requests about the grain, under their numbers. Costs a logarithm and their number. Fails only when memory runs out.
    pub(crate) fn about(
        &self,
        alloc: Global,
        grain: &GrainId,
        own: Option<u64>,
    ) -> Result<BTreeMap<u64, OutstandingRequest>, AllocError>
        requires { IsOwn own grain.now self.now.entries }
        ensures { IfOk result (λ about. about.entries ≡ about_grain grain.now self.now.entries) }
    {
        let bounds = (
            Bound::Included(first_of(grain)),
            Bound::Included(last_of(grain)),
        );
        let finds = finds_under(alloc, self.finds.range(bounds), grain)?;
        match own {
            Some(number) => with_activation(finds, number, grain),
            None => Ok(finds),
        }
    }

    /// The requests about the grain have the numbers from this one on, above those of all requests, in the order of their old
    /// numbers; and are told under these. Costs a logarithm for each. Fails only when memory runs out, and then changes nothing.
    pub(crate) fn renew_about(
        &mut self,
        alloc: Global,
        grain: &GrainId,
        own: Option<u64>,
        first: u64,
    ) -> Result<OutstandingRequests, AllocError>
        requires own { IsOwn own grain.now self.old.entries }
        requires below { AreAllBelow first self.old.entries }
        requires left { first + length (about_grain grain.now self.old.entries) ≤ 2 ^ 60 + 1 }
        ensures told { IfOk result (λ numbered. numbered.entries ≡ enumerate_from first (values_of (about_grain grain.now self.old.entries))) }
        ensures renewed { OnOk result (self.new.entries ≡ about_others grain.now self.old.entries ++ enumerate_from first (values_of (about_grain grain.now self.old.entries))) }
        ensures unchanged { OnErr result (self.new ≡ self.old) }
    {
        self.in_order();
        let about = self.about(alloc, grain, own)?;
        let numbered = renumbered(alloc, &about, first)?;
        self.insert_all(&numbered)?;
        self.remove_all(&about);
        self.in_order();
        Ok(numbered)
    }

    // More requests come, under numbers that none has. Fails only when memory runs out, and then changes nothing.
    fn insert_all(&mut self, more: &OutstandingRequests) -> Result<(), AllocError>
        requires free { (number : ℕ) → IsTrue (is_some (asked_under number more.now.entries)) → asked_under number self.old.entries ≡ None }
        ensures put { OnOk result ((number : ℕ) → MatchOption (asked_under number more.now.entries) (asked_under number self.new.entries ≡ asked_under number self.old.entries)
            (λ asked. asked_under number self.new.entries ≡ Some asked)) }
        ensures unchanged { OnErr result (self.new ≡ self.old) }
    {
        self.in_order();
        more.in_order();
        for (number, asked) in more.by_number() {
            match self.insert(*number, asked) {
                Ok(()) => {}
                Err(error) => {
                    self.remove_all(more.by_number());
                    self.in_order();
                    return Err(error);
                }
            }
        }
        Ok(())
    }

    // The requests that have these numbers go.
    fn remove_all(&mut self, gone: &BTreeMap<u64, OutstandingRequest>)
        ensures { (number : ℕ) → asked_under number self.new.entries ≡ (if is_some (asked_under number gone.now.entries) then None else asked_under number self.old.entries) }
    {
        for (number, _) in gone {
            self.in_order();
            self.remove(*number);
        }
    }
}

// With the request of the grain's activation.
fn with_activation(
    mut about: BTreeMap<u64, OutstandingRequest>,
    number: u64,
    grain: &GrainId,
) -> Result<BTreeMap<u64, OutstandingRequest>, AllocError>
    ensures { IfOk result (λ with. with.entries ≡ insert_entry nat_cmp about.entries number (Activation grain.now)) }
{
    about.insert(number, OutstandingRequest::Activation(*grain))?;
    Ok(about)
}

// How many finds there are.
fn count_of(finds: Range<'_, FindKey, ()>) -> usize
    requires { length finds < 2 ^ 63 }
    ensures { result ≡ length finds.entry }
{
    let mut count: usize = 0;
    'finds: for _find in finds {
        count += 1;
    }
    count
}

// The finds of the grain, under their numbers.
fn finds_under(
    alloc: Global,
    finds: Range<'_, FindKey, ()>,
    grain: &GrainId,
) -> Result<BTreeMap<u64, OutstandingRequest>, AllocError>
    requires { IsStrictlySortedBy nat_cmp (map (λ x. x.0.number) finds) }
    ensures { IfOk result (λ listed. listed.entries ≡ map (λ x. (x.0.number, Find grain.now)) finds.entry) }
{
    let mut listed = BTreeMap::new(alloc);
    'finds: for (key, _) in finds {
        listed.insert(key.number, OutstandingRequest::Find(*grain))?;
    }
    Ok(listed)
}

/// The requests, in their order, under the numbers from this one on. Fails only when memory runs out.
pub(crate) fn renumbered(
    alloc: Global,
    requests: &BTreeMap<u64, OutstandingRequest>,
    first: u64,
) -> Result<OutstandingRequests, AllocError>
    requires { first + length requests.now.entries ≤ 2 ^ 60 + 1 }
    ensures { IfOk result (λ renewed. renewed.entries ≡ enumerate_from first (values_of requests.now.entries)) }
{
    let mut renewed = OutstandingRequests::new(alloc);
    let mut number = first;
    for asked in requests.values() {
        renewed.insert(number, asked)?;
        number += 1;
    }
    Ok(renewed)
}
