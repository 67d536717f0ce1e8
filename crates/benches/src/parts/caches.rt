use crate::fault::Fault;
use crate::naming::{Order, STRIDE, silo};
use crate::parts::COUNT;
use crate::stopwatch::{now, report_since};
use lookup_cache::Cache;
use silo_address::{ActivationId, Entry, GrainId, SiloAddress};

/// Grains with a hint in the order in which they are learned and in another one, and grains without a hint.
const LEARNED: Order = Order {
    from: 0,
    among: COUNT,
    stride: 1,
};

const KNOWN: Order = Order {
    from: 0,
    among: COUNT,
    stride: STRIDE,
};

const UNKNOWN: Order = Order {
    from: COUNT,
    among: COUNT,
    stride: STRIDE,
};

/// What is done with grains.
enum Use {
    /// They are looked up.
    Find,
    /// Their hints are learned.
    Learn,
}

/// Each measure's name, its grains, and what is done with them. Hints are learned in place of the least recent.
const MEASURES: [(&str, Order, Use); 3] = [
    ("cache_hit", KNOWN, Use::Find),
    ("cache_miss", UNKNOWN, Use::Find),
    ("cache_learn", UNKNOWN, Use::Learn),
];

/// Looks up grains and learns hints in a cache that is full.
pub(crate) fn measure(rt: &HostRuntime) -> Result<(), Fault> {
    let mut cache = Cache::new(rt.alloc(), COUNT as usize)?;
    measure_cache(rt, &mut cache)
}

fn measure_cache(rt: &HostRuntime, cache: &mut Cache) -> Result<(), Fault> {
    fill(rt, cache)?;
    for (name, order, what) in &MEASURES {
        measure_use(rt, name, cache, order, what)?;
    }
    Ok(())
}

fn fill(rt: &HostRuntime, cache: &mut Cache) -> Result<(), Fault> {
    let grains = LEARNED.grains(rt.alloc(), 0, COUNT)?;
    learn_all(cache, silo(rt.alloc(), 0)?, &grains)
}

fn measure_use(
    rt: &HostRuntime,
    name: &str,
    cache: &mut Cache,
    order: &Order,
    what: &Use,
) -> Result<(), Fault> {
    let silo = silo(rt.alloc(), 0)?;
    let grains = order.grains(rt.alloc(), 0, COUNT)?;
    match what {
        Use::Find => measure_find(rt, name, cache, &grains),
        Use::Learn => measure_learning(rt, name, cache, silo, &grains),
    }
}

// The sum is of the counts of what is found.
fn measure_find(
    rt: &HostRuntime,
    name: &str,
    cache: &mut Cache,
    grains: &[GrainId],
) -> Result<(), Fault> {
    let start = now(rt)?;
    let mut sum = 0u64;
    for grain in grains {
        if let Some(activation) = cache.find(grain) {
            sum = sum.wrapping_add(activation.count);
        }
    }
    report_since(rt, name, start, COUNT, sum)
}

// The sum is how many hints there are then.
fn measure_learning(
    rt: &HostRuntime,
    name: &str,
    cache: &mut Cache,
    silo: SiloAddress,
    grains: &[GrainId],
) -> Result<(), Fault> {
    let start = now(rt)?;
    learn_all(cache, silo, grains)?;
    report_since(rt, name, start, COUNT, cache.len() as u64)
}

// The activation of each grain is on the silo, and began in the grain's turn.
fn learn_all(cache: &mut Cache, silo: SiloAddress, grains: &[GrainId]) -> Result<(), Fault> {
    for (turn, grain) in grains.iter().enumerate() {
        let activation = ActivationId {
            silo,
            count: (turn as u64).wrapping_add(1),
        };
        cache.learn(Entry {
            grain: *grain,
            activation,
        })?;
    }
    Ok(())
}
