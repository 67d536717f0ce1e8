//! Parts of a node once more, two at a time, and the ranges of a letter.
ghost use Rattle.std.specs.Arc.{arc_value};
ghost use Rattle.std.specs.Prelude.{◌≡◌, IfOk};

use crate::Transition;
use crate::cache::copy_of_cache;
use grain_partition::Holding;
use hash_ring::Ring;
use host_activations::Host;
use lookup_cache::Cache;
use membership_view::View;
use range_recovery::Recovery;
use ring_range::RingRange;
use seal_snapshot::{Gathering, Shelf};
use std::alloc::{AllocError, Global};
use std::collections::BTreeMap;
use std::sync;

/// An equal view, and the same ring. Fails only when memory runs out.
pub fn copied_sight(
    view: &View,
    ring: &sync::Arc<Ring>,
) -> Result<(View, sync::Arc<Ring>), AllocError>
    ensures view { IfOk result (λ copied. copied.0 ≡ view.now) }
    ensures ring { IfOk result (λ copied. arc_value copied.1 ≡ arc_value ring.now) }
{
    let view = view.copy()?;
    let ring = sync::Arc::try_clone(ring)?;
    Ok((view, ring))
}

/// What is kept for others, once more. Fails only when memory runs out.
pub fn copied_tables(holding: &Holding, shelf: &Shelf) -> Result<(Holding, Shelf), AllocError>
    ensures holding { IfOk result (λ copied. copied.0 ≡ holding.now) }
    ensures shelf { IfOk result (λ copied. copied.1 ≡ shelf.now) }
{
    let holding = holding.copy()?;
    let shelf = shelf.copy()?;
    Ok((holding, shelf))
}

/// Equal gatherings and recoveries under the same starts. Fails only when memory runs out.
pub fn copied_waits(
    gatherings: &BTreeMap<u32, Gathering>,
    recoveries: &BTreeMap<u32, Recovery>,
) -> Result<(BTreeMap<u32, Gathering>, BTreeMap<u32, Recovery>), AllocError>
    ensures gatherings { IfOk result (λ copied. copied.0.entries ≡ gatherings.now.entries) }
    ensures recoveries { IfOk result (λ copied. copied.1.entries ≡ recoveries.now.entries) }
{
    let gatherings = gatherings.clone()?;
    let recoveries = recoveries.clone()?;
    Ok((gatherings, recoveries))
}

/// An equal host and an equal cache. Fails only when memory runs out.
pub fn copied_own(host: &Host, cache: &Option<Cache>) -> Result<(Host, Option<Cache>), AllocError>
    ensures host { IfOk result (λ copied. copied.0 ≡ host.now) }
    ensures cache { IfOk result (λ copied. copied.1 ≡ cache.now) }
{
    let host = host.copy()?;
    let cache = copy_of_cache(cache)?;
    Ok((host, cache))
}

/// The view and the transition once more. Fails only when memory runs out.
pub fn copied_seen(view: &View, transition: &Transition) -> Result<(View, Transition), AllocError>
    ensures view { IfOk result (λ copied. copied.0 ≡ view.now) }
    ensures transition { IfOk result (λ copied. copied.1 ≡ transition.now) }
{
    let view = view.copy()?;
    let transition = transition.copy()?;
    Ok((view, transition))
}

/// The same ranges, in the same order. Fails only when memory runs out.
pub fn copied_ranges(alloc: Global, ranges: &[RingRange]) -> Result<Vec<RingRange>, AllocError>
    ensures { IfOk result (λ copied. copied.items ≡ ranges.now) }
{
    ranges.to_vec(alloc)
}
