//! Whether any activation is firm and hashed into a range.
ghost use Rattle.std.specs.List.{AllByRecursion};
ghost use Rattle.std.specs.List.Sorted.{IsStrictlySortedBy};
ghost use Rattle.std.specs.Map.{keys_of};
ghost use Rattle.std.specs.Prelude.{◌≡◌, ◌<◌, ◌≤◌, None, length, nat_lt};
ghost use Rattle.host_activations.specs.Begun.{AreApart};
ghost use Rattle.host_activations.specs.ByHash.{AreByHash, IsUnder, hashed_count_cmp};
ghost use Rattle.host_activations.specs.Listing.{HasAny, all_in, asked_for, hashed_between};
ghost use Rattle.host_activations.specs.Page.{told_behind};
ghost use Rattle.host_activations.specs.Stretch.{standing_at};
ghost use Rattle.ring_range.specs.Range.{circle};
ghost use Rattle.silo_address.specs.Silo.{Silo};

use super::Activations;
use super::page::{PageAsked, first_step, is_asked_for};
use crate::by_hash::{ByHash, HashedCount, end_at, first_at};
use crate::kept::{Kept, held_at};
use grain_names::GrainMap;
use hash_ring::Hashing;
use ring_range::{CIRCLE, RingRange};
use std::collections::btree_map::Range;
use std::ops::Bound;

impl Activations {
    /// Whether an activation is firm and hashed into the range. Looks at those in the range up to the first firm one, where the
    /// hashing is the one by which the activations are in order; otherwise at all of them, up to such a one. It takes no memory.
    pub fn has_firm(&self, hashing: Hashing, range: RingRange) -> bool
        ensures { (silo : Silo) → result ≡ nat_lt 0 (length (told_behind silo (all_in hashing range) self.now.entries)) }
    {
        self.whole();
        let asked = PageAsked {
            hashing,
            range,
            after: None,
            most: 0,
        };
        self.has_asked(&asked)
    }

    // Whether any is asked for.
    fn has_asked(&self, asked: &PageAsked) -> bool
        requires none { asked.now.most ≡ 0 }
        requires from { asked.now.after ≡ None }
        ensures { HasAny asked.now self.now.entries result }
    {
        if self.hashing.same(&asked.hashing) {
            return any_by_hash(&self.map, &self.by_hash, asked);
        }
        any_among_all(&self.map, asked)
    }
}

// Whether any is asked for: each activation is looked at.
fn any_among_all(held: &GrainMap<Kept>, asked: &PageAsked) -> bool
    ensures { result ≡ nat_lt 0 (length (asked_for asked.now held.now)) }
{
    let first = first_step(asked);
    for index in 0..held.len() {
        let Some((grain, held)) = held_at(held, index) else {
            unreachable!();
        };
        let hash = asked.hashing.hash_grain(&grain);
        if is_asked_for(asked, first, hash, grain, &held) {
            return true;
        }
    }
    false
}

// Whether any is asked for, by the order of their hashes. The range is a stretch of that order, or two where it goes over 0.
fn any_by_hash(held: &GrainMap<Kept>, by_hash: &ByHash, asked: &PageAsked) -> bool
    requires apart { AreApart held.now }
    requires by_hash { AreByHash asked.now.hashing held.now by_hash.now.entries }
    requires none { asked.now.most ≡ 0 }
    requires from { asked.now.after ≡ None }
    ensures { HasAny asked.now held.now result }
{
    let range = &asked.range;
    range.in_range();
    let first = u64::from(range.start());
    let end = first + range.size();
    if end <= CIRCLE {
        return any_between(held, by_hash, first, end, asked);
    }
    if any_between(held, by_hash, first, CIRCLE, asked) {
        return true;
    }
    any_between(held, by_hash, 0, end - CIRCLE, asked)
}

// Whether any is asked for of those whose hashes stand from one up to another.
fn any_between(
    held: &GrainMap<Kept>,
    by_hash: &ByHash,
    first: u64,
    end: u64,
    asked: &PageAsked,
) -> bool
    requires by_hash { AreByHash asked.now.hashing held.now by_hash.now.entries }
    requires below { first < circle }
    requires forward { first ≤ end }
    requires within { end ≤ circle }
    ensures any { result ≡ nat_lt 0 (length (asked_for asked.now (standing_at held.now (hashed_between first end by_hash.now.entries)))) }
    ensures ordered { IsStrictlySortedBy hashed_count_cmp (keys_of by_hash.now.entries) }
{
    let stretch = by_hash.range((Bound::Included(first_at(first as u32)), end_at(end)));
    any_in_stretch(held, stretch, asked)
}

// Whether any of a stretch is asked for.
fn any_in_stretch(
    held: &GrainMap<Kept>,
    stretch: Range<'_, HashedCount, usize>,
    asked: &PageAsked,
) -> bool
    requires under { AllByRecursion (IsUnder asked.now.hashing held.now) stretch }
    ensures { result ≡ nat_lt 0 (length (asked_for asked.now (standing_at held.now stretch.entry))) }
{
    let first = first_step(asked);
    'stretch: for (key, index) in stretch {
        if let Some((grain, held)) = held_at(held, *index) {
            if is_asked_for(asked, first, key.hash, grain, &held) {
                return true;
            }
        }
    }
    false
}
