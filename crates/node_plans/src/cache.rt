//! The cache of a node, which is none where the settings keep no entry (`docs/RULES.md#the-cache`).
ghost use Rattle.std.specs.Prelude.{◌≡◌, ◌↔◌, IsTrue, IfOk, OnErr, OnOk};
ghost use Rattle.directory_rules.specs.Cache.{cache_seeing, hint_of, learnt, new_cache, without_pair};
ghost use Rattle.lookup_cache.specs.Used.{used};
ghost use Rattle.node_plans.specs.CacheModel.{cache_of};

use directory_rules::Settings;
use lookup_cache::{Cache, CacheError};
use membership_view::View;
use silo_address::{ActivationId, Entry, GrainId};
use std::alloc::{AllocError, Global};

/// A cache for as many entries as the settings have it, if they are any. Fails only when memory runs out.
pub fn new_cache(alloc: Global, settings: &Settings) -> Result<Option<Cache>, AllocError>
    ensures { IfOk result (λ cache. cache_of cache ≡ new_cache settings.now.cache) }
{
    settings.in_range();
    let capacity = settings.cache();
    if capacity == 0 {
        return Ok(None);
    }
    match Cache::new(alloc, capacity) {
        Ok(cache) => Ok(Some(cache)),
        Err(CacheError::Capacity) => unreachable!(),
        Err(CacheError::OutOfMemory) => Err(AllocError),
    }
}

/// What the cache has for the grain.
pub fn hint_in(cache: &Option<Cache>, grain: &GrainId) -> Option<ActivationId>
    ensures { result ≡ hint_of (cache_of cache.now) grain.now }
{
    match cache {
        Some(cache) => cache.hint(grain),
        None => None,
    }
}

/// An entry is learnt. Fails only when memory runs out, and then changes nothing.
pub fn learn(cache: &mut Option<Cache>, entry: Entry) -> Result<(), AllocError>
    ensures learnt { OnOk result (cache_of cache.new ≡ learnt (cache_of cache.old) entry) }
    ensures unchanged { OnErr result (cache.new ≡ cache.old) }
{
    match cache {
        Some(cache) => cache.learn(entry),
        None => Ok(()),
    }
}

/// What the cache has for the grain, if anything; that hint is the most recent one from now on.
pub fn use_hint(cache: &mut Option<Cache>, grain: &GrainId) -> Option<ActivationId>
    ensures hint { result ≡ hint_of (cache_of cache.old) grain.now }
    ensures used { cache_of cache.new ≡ used (cache_of cache.old) grain.now }
{
    match cache {
        Some(cache) => cache.find(grain),
        None => None,
    }
}

/// Just this hint is forgotten.
pub fn forget(cache: &mut Option<Cache>, grain: &GrainId, activation: &ActivationId)
    ensures { cache_of cache.new ≡ without_pair (cache_of cache.old) grain.now activation.now }
{
    if let Some(cache) = cache {
        cache.forget(grain, activation);
    }
}

/// The hints at silos that are Dead in the view go.
pub fn see_in_cache(cache: &mut Option<Cache>, view: &View)
    ensures { cache_of cache.new ≡ cache_seeing view.now (cache_of cache.old) }
{
    if let Some(cache) = cache {
        cache.see(view);
    }
}

// An equal cache, if there is one.
pub(crate) fn copy_of_cache(cache: &Option<Cache>) -> Result<Option<Cache>, AllocError>
    ensures { IfOk result (λ copy. copy ≡ cache.now) }
{
    match cache {
        Some(cache) => Ok(Some(cache.copy()?)),
        None => Ok(None),
    }
}

/// Whether both have equal caches; one that isn't there is for no entry, and any other for at least one.
pub fn same_caches(one: &Option<Cache>, other: &Option<Cache>) -> bool
    ensures { IsTrue result ↔ (cache_of one.now ≡ cache_of other.now) }
{
    match (one, other) {
        (Some(one), Some(other)) => one.same(other),
        (Some(cache), None) | (None, Some(cache)) => {
            cache.whole();
            false
        }
        (None, None) => true,
    }
}
