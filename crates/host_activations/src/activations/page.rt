//! The firm activations, as entries, page by page.
ghost use Rattle.std.specs.List.{AllByRecursion};
ghost use Rattle.std.specs.List.Sorted.{IsStrictlySortedBy};
ghost use Rattle.std.specs.Map.{keys_of};
ghost use Rattle.std.specs.Prelude.{◌≡◌, ◌<◌, ◌≤◌, ◌++◌, ◌∷◌, [], IfOk, OnOk, map, take};
ghost use Rattle.directory_rules.specs.Host.{entry_on, is_firm};
ghost use Rattle.hash_ring.specs.Hash.{hash_grain};
ghost use Rattle.host_activations.specs.Begun.{AreApart};
ghost use Rattle.host_activations.specs.ByHash.{AreByHash, IsUnder, hashed_count_cmp};
ghost use Rattle.host_activations.specs.Listing.{AddsBetween, AddsFirst, AreFirst, RiseByHash, asked_for, entry_counted, entry_listed, is_asked_for, steps_before};
ghost use Rattle.host_activations.specs.Page.{IsPage, told_behind};
ghost use Rattle.ring_range.specs.Range.{circle};

use super::Activations;
use crate::by_hash::{ByHash, HashedCount, end_at, first_at};
use crate::kept::{Kept, held_at};
use crate::standing::{is_behind, steps_to};
use directory_rules::{Held, Phase};
use grain_names::GrainMap;
use hash_ring::Hashing;
use ring_range::{CIRCLE, RingRange};
use silo_address::{ActivationId, Entry, GrainId, SiloAddress};
use std::alloc::{AllocError, Global};
use std::collections::btree_map::Range;
use std::ops::Bound;

/// What is asked of a range: so many of its firm activations at most, the first ones that stand behind a grain.
#[derive(Clone, Copy)]
pub struct PageAsked {
    pub hashing: Hashing,
    pub range: RingRange,
    pub after: Option<GrainId>,
    pub most: usize,
}

/// The first entries of those asked for, and whether no others stand behind them.
#[derive(Drop)]
pub struct FirmPage {
    pub entries: Vec<Entry>,
    pub last: bool,
}

/// A firm activation, as it is listed to be sorted: how many hashes of the range come before its grain's, the grain, and its count.
type Standing = (u64, GrainId, u64);

impl Activations {
    /// The entries of the first of those activations on the silo that are firm, hashed into the range and stand behind a grain. Looks
    /// at these, and at those of the last one's hash, where the hashing is the one by which the activations are in order; otherwise at
    /// all of them. Fails only when memory runs out.
    pub fn firm_page(
        &self,
        alloc: Global,
        silo: SiloAddress,
        asked: &PageAsked,
    ) -> Result<FirmPage, AllocError>
        ensures { IfOk result (IsPage (told_behind silo asked.now self.now.entries) asked.now.most) }
    {
        self.whole();
        let mut firm = self.first_firm(alloc, asked)?;
        firm.sort_unstable();
        page_of(alloc, silo, &firm, asked.most)
    }

    // The first that are asked for, in no order.
    fn first_firm(&self, alloc: Global, asked: &PageAsked) -> Result<Vec<Standing>, AllocError>
        ensures { IfOk result (λ firm. AreFirst asked.now self.now.entries firm.items) }
    {
        if self.hashing.same(&asked.hashing) {
            return first_by_hash(alloc, &self.map, &self.by_hash, asked);
        }
        firm_among_all(alloc, &self.map, asked)
    }
}

/// The entry of an activation on the silo.
pub fn entry_on(silo: SiloAddress, grain: GrainId, held: &Held) -> Entry
    ensures { result ≡ entry_on silo grain held.now }
{
    entry_counted(silo, grain, held.count)
}

// The entry of the activation of that count.
fn entry_counted(silo: SiloAddress, grain: GrainId, count: u64) -> Entry
    ensures { result ≡ entry_counted silo grain count }
{
    let activation = ActivationId { silo, count };
    Entry { grain, activation }
}

// So many of them at most, as entries.
fn page_of(
    alloc: Global,
    silo: SiloAddress,
    firm: &[Standing],
    most: usize,
) -> Result<FirmPage, AllocError>
    ensures { IfOk result (IsPage (map (entry_listed silo) firm.now) most) }
{
    let entries = entries_of(alloc, silo, firm, most)?;
    let last = firm.len() <= most;
    Ok(FirmPage { entries, last })
}

// The first entries of them.
fn entries_of(
    alloc: Global,
    silo: SiloAddress,
    firm: &[Standing],
    most: usize,
) -> Result<Vec<Entry>, AllocError>
    ensures { IfOk result (λ entries. entries.items ≡ map (entry_listed silo) (take most firm.now)) }
{
    firm.iter()
        .take(most)
        .map(|one| entry_counted(silo, one.1, one.2))
        .collect(alloc)
}

// All that are asked for: each activation is looked at.
fn firm_among_all(
    alloc: Global,
    held: &GrainMap<Kept>,
    asked: &PageAsked,
) -> Result<Vec<Standing>, AllocError>
    ensures { IfOk result (λ firm. firm.items ≡ asked_for asked.now held.now) }
{
    let first = first_step(asked);
    let mut firm = Vec::new(alloc);
    for index in 0..held.len() {
        let Some((grain, held)) = held_at(held, index) else {
            unreachable!();
        };
        let hash = asked.hashing.hash_grain(&grain);
        list_firm(&mut firm, asked, first, hash, grain, &held)?;
    }
    Ok(firm)
}

// The first that are asked for, by the order of their hashes: more than a page where there are more, and all of the last one's hash. What
// stands behind a grain stands in at most two stretches of that order.
fn first_by_hash(
    alloc: Global,
    held: &GrainMap<Kept>,
    by_hash: &ByHash,
    asked: &PageAsked,
) -> Result<Vec<Standing>, AllocError>
    requires apart { AreApart held.now }
    requires by_hash { AreByHash asked.now.hashing held.now by_hash.now.entries }
    ensures { IfOk result (λ firm. AreFirst asked.now held.now firm.items) }
{
    let range = &asked.range;
    range.in_range();
    let firm = Vec::new(alloc);
    let first = u64::from(range.start()) + first_step(asked);
    let end = u64::from(range.start()) + range.size();
    if CIRCLE <= first {
        return list_between(firm, held, by_hash, first - CIRCLE, end - CIRCLE, asked);
    }
    if end <= CIRCLE {
        return list_between(firm, held, by_hash, first, end, asked);
    }
    let firm = list_between(firm, held, by_hash, first, CIRCLE, asked)?;
    if asked.most < firm.len() {
        return Ok(firm);
    }
    list_between(firm, held, by_hash, 0, end - CIRCLE, asked)
}

// How many hashes of the range come before the grain's behind which they stand; none where they stand behind none.
pub(super) fn first_step(asked: &PageAsked) -> u64
    ensures value { result ≡ steps_before asked.now asked.now.after }
    ensures within { result ≤ asked.now.range.size }
{
    match asked.after {
        Some(after) => steps_to(&asked.range, asked.hashing.hash_grain(&after)),
        None => 0,
    }
}

// The list with the first that are asked for of those whose hashes stand from one up to another.
fn list_between(
    firm: Vec<Standing>,
    held: &GrainMap<Kept>,
    by_hash: &ByHash,
    first: u64,
    end: u64,
    asked: &PageAsked,
) -> Result<Vec<Standing>, AllocError>
    requires by_hash { AreByHash asked.now.hashing held.now by_hash.now.entries }
    requires below { first < circle }
    requires forward { first ≤ end }
    requires within { end ≤ circle }
    ensures added { IfOk result (λ new. AddsBetween asked.now held.now by_hash.now.entries first end firm.items new.items) }
    ensures ordered { IsStrictlySortedBy hashed_count_cmp (keys_of by_hash.now.entries) }
{
    let stretch = by_hash.range((Bound::Included(first_at(first as u32)), end_at(end)));
    list_stretch(firm, held, stretch, asked)
}

// The list with the first of a stretch that are asked for, until there are more than a page and the hash is another.
fn list_stretch(
    mut firm: Vec<Standing>,
    held: &GrainMap<Kept>,
    stretch: Range<'_, HashedCount, usize>,
    asked: &PageAsked,
) -> Result<Vec<Standing>, AllocError>
    requires under { AllByRecursion (IsUnder asked.now.hashing held.now) stretch }
    requires rising { RiseByHash stretch }
    ensures { IfOk result (λ new. AddsFirst asked.now held.now stretch.entry firm.items new.items) }
{
    let first = first_step(asked);
    let mut last = None;
    'stretch: for (key, index) in stretch {
        if asked.most < firm.len() && last != Some(key.hash) {
            return Ok(firm);
        }
        last = Some(key.hash);
        if let Some((grain, held)) = held_at(held, *index) {
            list_firm(&mut firm, asked, first, key.hash, grain, &held)?;
        }
    }
    Ok(firm)
}

// The list with the activation, if it is asked for.
fn list_firm(
    firm: &mut Vec<Standing>,
    asked: &PageAsked,
    first: u64,
    hash: u32,
    grain: GrainId,
    held: &Held,
) -> Result<(), AllocError>
    requires first { first ≡ steps_before asked.now asked.now.after }
    requires hash { hash ≡ hash_grain asked.now.hashing grain }
    ensures { OnOk result (firm.new.items ≡ firm.old.items ++ asked_for asked.now ((grain, held.now) ∷ [])) }
{
    if is_asked_for(asked, first, hash, grain, held) {
        firm.push((steps_to(&asked.range, hash), grain, held.count))?;
    }
    Ok(())
}

// Whether the activation is firm, its grain is hashed into the range, and this stands behind the grain that was named. Neither grain is
// hashed again.
pub(super) fn is_asked_for(
    asked: &PageAsked,
    first: u64,
    hash: u32,
    grain: GrainId,
    held: &Held,
) -> bool
    requires first { first ≡ steps_before asked.now asked.now.after }
    requires hash { hash ≡ hash_grain asked.now.hashing grain }
    ensures { result ≡ is_asked_for asked.now (grain, held.now) }
{
    is_firm(&held.phase)
        && asked.range.contains(hash)
        && is_behind(asked.after, first, steps_to(&asked.range, hash), grain)
}

fn is_firm(phase: &Phase) -> bool
    ensures { result ≡ is_firm phase.now }
{
    match phase {
        Phase::Firm => true,
        Phase::Asking(_) | Phase::Closing(_) => false,
    }
}
