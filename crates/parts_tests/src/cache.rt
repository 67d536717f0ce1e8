//! A cache of hints, in a form that any one refusal of an allocation leaves true: a call that is refused has changed nothing, and is
//! made again. `rt try --test --fail-alloc N` refuses each test its Nth allocation.
use crate::samples::{A, B, MANY, declare_dead, entry, grain, joined, view};
use lookup_cache::{Cache, CacheError};
use silo_address::{Entry, GrainId};
use std::alloc::Global;
use std::process::Abort;

const ANN: &str = "user/ann";

const BOB: &str = "user/bob";

const CID: &str = "user/cid";

// A cache, made again if memory runs out at first.
fn cache(rt: &impl Abort, alloc: Global, capacity: usize) -> Cache {
    match Cache::new(alloc, capacity) {
        Ok(cache) => cache,
        Err(_) => Cache::new(alloc, capacity).expect(rt, "a cache"),
    }
}

fn copy_of(rt: &impl Abort, cache: &Cache) -> Cache {
    match cache.copy() {
        Ok(copy) => copy,
        Err(_) => cache.copy().expect(rt, "memory"),
    }
}

// Whether the entry is learnt, at first or behind a refusal that leaves the cache as it was.
fn learns(cache: &mut Cache, before: &Cache, entry: &Entry) -> bool {
    cache.learn(*entry).is_ok() || (cache.same(before) && cache.learn(*entry).is_ok())
}

// Learns that the grain has the activation of this silo and count.
fn learn(rt: &impl Abort, cache: &mut Cache, told: (&str, &str, u64)) {
    let before = copy_of(rt, cache);
    assert!(rt; learns(cache, &before, &entry(rt, told)));
}

// Whether the activation of this count is found for the grain.
fn finds(cache: &mut Cache, grain: &GrainId, count: u64) -> bool {
    match cache.find(grain) {
        Some(activation) => activation.count == count,
        None => false,
    }
}

// Hints of BOB at one silo, of ANN at the other, and of CID there, the last learnt first.
fn three_hints(rt: &impl Abort, alloc: Global) -> Cache {
    let mut cache = cache(rt, alloc, 3);
    learn(rt, &mut cache, (BOB, A, 1));
    learn(rt, &mut cache, (ANN, B, 2));
    learn(rt, &mut cache, (CID, B, 3));
    cache
}

// One hint more than there is room for: the one that was used longest ago goes.
#[test]
fn the_last_used_stay(rt: HostRuntime) {
    let mut cache = three_hints(&rt, rt.alloc());
    cache.whole();
    assert!(rt; finds(&mut cache, &grain(&rt, BOB), 1) && cache.capacity() == 3);
    learn(&rt, &mut cache, ("user/dan", A, 4));
    assert!(rt; cache.hint(&grain(&rt, ANN)).is_none() && cache.len() == 3);
    assert!(rt; finds(&mut cache, &grain(&rt, BOB), 1) && finds(&mut cache, &grain(&rt, CID), 3));
}

// Learns where the grains are. None is compared with what was before it, so that few allocations are made.
fn fill(rt: &impl Abort, cache: &mut Cache, grains: &[&str]) {
    for text in grains {
        let entry = &entry(rt, (text, A, 1));
        if cache.learn(*entry).is_err() {
            cache.learn(*entry).expect(rt, "memory");
        }
    }
}

// More hints than the room that was made at first.
#[test]
fn room_is_made(rt: HostRuntime) {
    let mut cache = cache(&rt, rt.alloc(), 16);
    fill(&rt, &mut cache, &MANY[..9]);
    learn(&rt, &mut cache, (MANY[9], B, 2));
    assert!(rt; finds(&mut cache, &grain(&rt, MANY[0]), 1) && cache.len() == 10);
    assert!(rt; finds(&mut cache, &grain(&rt, MANY[9]), 2));
}

// A cache of one hint has the last one that it learnt.
#[test]
fn one_hint_is_kept(rt: HostRuntime) {
    let mut cache = cache(&rt, rt.alloc(), 1);
    fill(&rt, &mut cache, &[ANN, BOB]);
    assert!(rt; finds(&mut cache, &grain(&rt, BOB), 1) && cache.len() == 1);
}

// Whether the grain's hint is there, and is forgotten by its activation.
fn forgets(cache: &mut Cache, grain: &GrainId) -> bool {
    let Some(hint) = cache.hint(grain) else {
        return false;
    };
    cache.forget(grain, &hint);
    cache.hint(grain).is_none()
}

// A hint is forgotten by its grain and activation, and dropped where its silo has died.
#[test]
fn hints_go(rt: HostRuntime) {
    let mut cache = three_hints(&rt, rt.alloc());
    assert!(rt; forgets(&mut cache, &grain(&rt, ANN)));
    let mut views = joined(&rt, rt.alloc(), &[A, B]);
    declare_dead(&rt, &mut views, B);
    cache.see(&view(&rt, rt.alloc(), &views, 3));
    assert!(rt; finds(&mut cache, &grain(&rt, BOB), 1) && cache.len() == 1);
}

#[test]
fn a_capacity_is_1_to_65536(rt: HostRuntime) {
    assert!(rt; matches!(Cache::new(rt.alloc(), 0), Err(CacheError::Capacity)));
    assert!(rt; CacheError::Capacity.number() == Some(851));
}
