ghost use Rattle.std.specs.Prelude.{◌≡◌, ◌↔◌, length, Some, IsTrue, IfOk, IsErrOf, OnOk, OnErr};
ghost use Rattle.directory_rules.specs.Cache.{cache_seeing, hint_of, learnt, new_cache, without_pair};
ghost use Rattle.lookup_cache.specs.Capacity.{IsCache, IsCapacity};
ghost use Rattle.lookup_cache.specs.Used.{used};

use crate::CacheError;
use crate::hints::{copy_of, drop_dead, same_hints, use_hint};
use lru::LruCache;
use membership_view::View;
use silo_address::{ActivationId, Entry, GrainId};
use std::alloc::{AllocError, Global};
use std::marker::Model;
use std::num::NonZeroUsize;

/// The highest capacity of a cache.
pub const MOST_HINTS: usize = 65_536;

/// The hints that a silo keeps of where grains are, the most recent first (`docs/RULES.md#the-cache`). A hint may be wrong.
#[derive(Drop)]
pub struct Cache {
    alloc: Global,
    hints: LruCache<GrainId, ActivationId>,
}

impl Model for Cache {
    ghost use Rattle.directory_rules.specs.State.{Cache as CacheValue};

    ghost Value = { CacheValue };

    ghost use Rattle.lookup_cache.specs.Capacity.{IsCapacity};

    ghost view = { λ c. record { capacity = c.hints.cap; pairs = c.hints.entries } };

    ghost invariant = { λ c. IsCapacity c.hints.cap };
}

impl Cache {
    /// A cache without hints that may keep so many. Refuses by 851 a capacity outside 1 to 65,536.
    pub fn new(alloc: Global, capacity: usize) -> Result<Cache, CacheError>
        ensures made { IfOk result (λ cache. cache ≡ new_cache capacity) }
        ensures capacity { IsErrOf result CacheError.Capacity ↔ ¬ (IsCapacity capacity) }
    {
        let Some(most) = NonZeroUsize::new(capacity) else {
            return Err(CacheError::Capacity);
        };
        if capacity > MOST_HINTS {
            return Err(CacheError::Capacity);
        }
        match LruCache::sparse(alloc, most) {
            Ok(hints) => Ok(Cache { alloc, hints }),
            Err(_) => Err(CacheError::OutOfMemory),
        }
    }

    /// How many hints it may keep, 1 to 65,536.
    pub fn capacity(&self) -> usize
        ensures { result ≡ self.now.capacity }
    {
        self.hints.cap().get()
    }

    /// How many hints it has.
    pub fn len(&self) -> usize
        ensures { result ≡ length self.now.pairs }
    {
        self.hints.len()
    }

    /// The hint of the grain, which isn't used by this.
    pub fn hint(&self, grain: &GrainId) -> Option<ActivationId>
        ensures { result ≡ hint_of self.now grain.now }
    {
        self.hints.peek(grain).copied()
    }

    /// The hint of the grain, which is used: it comes to the front.
    pub fn find(&mut self, grain: &GrainId) -> Option<ActivationId>
        ensures hint { result ≡ hint_of self.old grain.now }
        ensures used { self.new ≡ used self.old grain.now }
    {
        let _len = self.hints.len();
        use_hint(&mut self.hints, grain)
    }

    /// Learns where a grain is: the hint stands in front, in place of one of its grain, and the last one goes where there are too
    /// many. Fails only when memory runs out, and then changes nothing.
    pub fn learn(&mut self, entry: Entry) -> Result<(), AllocError>
        ensures learnt { OnOk result (self.new ≡ learnt self.old entry) }
        ensures unchanged { OnErr result (self.new ≡ self.old) }
    {
        let _len = self.hints.len();
        self.hints.put(entry.grain, entry.activation)?;
        Ok(())
    }

    /// Drops the hint that names just this activation of the grain, if there is one.
    pub fn forget(&mut self, grain: &GrainId, activation: &ActivationId)
        ensures { self.new ≡ without_pair self.old grain.now activation.now }
    {
        let _len = self.hints.len();
        if self.names(grain, activation) {
            self.hints.pop(grain);
        }
    }

    // Whether the hint of the grain names just this activation.
    fn names(&self, grain: &GrainId, activation: &ActivationId) -> bool
        ensures { IsTrue result ↔ (hint_of self.now grain.now ≡ Some activation.now) }
    {
        match self.hint(grain) {
            Some(hint) => hint.same(activation),
            None => false,
        }
    }

    /// Drops the hints at silos that are Dead in the view, in one pass.
    pub fn see(&mut self, view: &View)
        ensures { self.new ≡ cache_seeing view.now self.old }
    {
        drop_dead(&mut self.hints, view);
    }

    /// A law: what every cache keeps.
    pub fn whole(&self)
        ensures { IsCache self.now }
    {
        let _len = self.hints.len();
    }

    /// An equal cache. Fails only when memory runs out.
    pub fn copy(&self) -> Result<Cache, AllocError>
        ensures { IfOk result (λ cache. cache ≡ self.now) }
    {
        let hints = copy_of(self.alloc, &self.hints)?;
        Ok(Cache {
            alloc: self.alloc,
            hints,
        })
    }

    /// Whether both have the same capacity, and the same hints in the same order.
    pub fn same(&self, other: &Cache) -> bool
        ensures { IsTrue result ↔ (self.now ≡ other.now) }
    {
        self.hints.cap() == other.hints.cap() && same_hints(&self.hints, &other.hints)
    }
}
