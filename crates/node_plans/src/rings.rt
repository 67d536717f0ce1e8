//! Rings of views by places that are known, so that only memory can be wanting (`docs/RULES.md#the-ring`).
ghost use Rattle.std.specs.Prelude.{◌≡◌, ◌+◌, IfOk, true};
ghost use Rattle.hash_ring.specs.Ring.{IsRingBy, are_added, ring_of};

use hash_ring::{Places, Ring, RingError};
use membership_view::View;
use std::alloc::{AllocError, Global};

/// The ring of a view by that of the view before it. It asks that this one is made by the places, that the view is the next one, and
/// that the places are known of all who are Active in it. Fails only when memory runs out.
pub fn advanced(ring: &Ring, view: &View, places: &Places) -> Result<Ring, AllocError>
    requires by { IsRingBy ring.now places.now }
    requires next { view.now.version ≡ ring.now.version + 1 }
    requires added { are_added view.now places.now ≡ true }
    ensures { IfOk result (λ ring. ring ≡ ring_of view.now places.now) }
{
    let mut ring = ring.copy()?;
    match ring.advance(view, places) {
        Ok(()) => Ok(ring),
        Err(RingError::OutOfMemory) => Err(AllocError),
        Err(_) => unreachable!(),
    }
}

/// The ring of a view. It asks that the places are known of all who are Active in it. Fails only when memory runs out.
pub fn ring_of(alloc: Global, view: &View, places: &Places) -> Result<Ring, AllocError>
    requires { are_added view.now places.now ≡ true }
    ensures { IfOk result (λ ring. ring ≡ ring_of view.now places.now) }
{
    match Ring::anew(alloc, view, places) {
        Ok(ring) => Ok(ring),
        Err(RingError::PointsMissing) => unreachable!(),
        Err(_) => Err(AllocError),
    }
}
