ghost use Rattle.std.specs.Map.{lookup};
ghost use Rattle.std.specs.Prelude.{◌≡◌, ◌↔◌, IsTrue, IfOk, is_some};
ghost use Rattle.directory_rules.specs.Members.{is_dead_in, is_dead_status};
ghost use Rattle.lookup_cache.specs.Hints.{living_hints, turned};
ghost use Rattle.lru.specs.LruCache.{lru_cache, promoted};
ghost use Rattle.silo_address.specs.Grain.{grain_eq};

use lru::LruCache;
use membership_view::{Status, View};
use silo_address::{ActivationId, GrainId, SiloAddress};
use std::alloc::{AllocError, Global};

/// The hint of the grain, which comes to the front. It is read there, so that its grain is looked up once.
pub(crate) fn use_hint(
    hints: &mut LruCache<GrainId, ActivationId>,
    grain: &GrainId,
) -> Option<ActivationId>
    ensures hint { result ≡ lookup (grain_eq grain.now) hints.old.entries }
    ensures front { hints.new ≡ lru_cache (promoted (grain_eq grain.now) hints.old.entries) hints.old.cap }
{
    if !bring_to_front(hints, grain) {
        return None;
    }
    match hints.peek_mru() {
        Some((_, activation)) => Some(*activation),
        None => None,
    }
}

// The hint of the grain comes to the front; whether there is one.
fn bring_to_front(hints: &mut LruCache<GrainId, ActivationId>, grain: &GrainId) -> bool
    ensures found { result ≡ is_some (lookup (grain_eq grain.now) hints.old.entries) }
    ensures front { hints.new ≡ lru_cache (promoted (grain_eq grain.now) hints.old.entries) hints.old.cap }
{
    hints.promote(grain)
}

/// Drops the hints at silos that are Dead in the view. Once round from the last one: each hint goes to the front, where its order is
/// kept, or it goes for good. So no memory is needed.
pub(crate) fn drop_dead(hints: &mut LruCache<GrainId, ActivationId>, view: &View)
    ensures { hints.new ≡ lru_cache (living_hints view.now hints.old.entries) hints.old.cap }
{
    for _ in 0..hints.len() {
        turn_last(hints, view);
    }
}

// The last hint goes to the front, or, at a silo that is Dead in the view, for good.
fn turn_last(hints: &mut LruCache<GrainId, ActivationId>, view: &View)
    ensures { hints.new ≡ lru_cache (turned view.now hints.old.entries) hints.old.cap }
{
    let _len = hints.len();
    let Some((grain, activation)) = hints.peek_lru() else {
        return;
    };
    let (grain, silo) = (*grain, activation.silo);
    if is_dead_in(view, &silo) {
        hints.pop_lru();
    } else {
        hints.promote(&grain);
    }
}

// Whether the silo is Dead in the view.
fn is_dead_in(view: &View, silo: &SiloAddress) -> bool
    ensures { result ≡ is_dead_in view.now silo.now }
{
    match view.status(silo) {
        Some(status) => is_dead(status),
        None => false,
    }
}

fn is_dead(status: Status) -> bool
    ensures { result ≡ is_dead_status status }
{
    match status {
        Status::Active | Status::Leaving => false,
        Status::Dead => true,
    }
}

/// The same hints in the same order, with the same capacity.
pub(crate) fn copy_of(
    alloc: Global,
    hints: &LruCache<GrainId, ActivationId>,
) -> Result<LruCache<GrainId, ActivationId>, AllocError>
    ensures { IfOk result (λ copy. copy ≡ hints.now) }
{
    let _len = hints.len();
    let mut copy = LruCache::sparse(alloc, hints.cap())?;
    for (grain, activation) in hints.iter().rev() {
        copy.put(*grain, *activation)?;
    }
    Ok(copy)
}

/// Whether both have the same hints in the same order.
pub(crate) fn same_hints(
    one: &LruCache<GrainId, ActivationId>,
    other: &LruCache<GrainId, ActivationId>,
) -> bool
    ensures { IsTrue result ↔ (one.now.entries ≡ other.now.entries) }
{
    if one.len() != other.len() {
        return false;
    }
    for ((grain, activation), (other_grain, other_activation)) in one.iter().zip(other.iter()) {
        if !grain.same(other_grain) || !activation.same(other_activation) {
            return false;
        }
    }
    true
}
