ghost use Rattle.std.specs.Prelude.{◌≡◌, ◌-◌, ◌<◌, ◌≤◌, IfOk};
ghost use Rattle.ring_range.specs.Range.{circle};
ghost use Rattle.range_moves.specs.Arcs.{arcs_of, AreArcs};
ghost use Rattle.range_moves.specs.Moves.{moves_of, AreMoves};

use crate::walk::{Side, next_place};
use crate::{Move, RingArc};
use hash_ring::Ring;
use ring_range::{CIRCLE, RingRange};
use std::alloc::{AllocError, Global};

/// The arcs between two rings, by start: the circle cut at every place of either, each part with its owner before and its
/// owner after. Where the rings have one place in all the arc is the full circle; where they have none there is no arc.
///
/// One walk over the points of both. Fails only when memory runs out (`docs/RULES.md#arcs-and-moves`).
pub fn arcs(alloc: Global, old: &Ring, new: &Ring) -> Result<Vec<RingArc>, AllocError>
    ensures exact { IfOk result (λ arcs. arcs.items ≡ arcs_of old.now.points new.now.points) }
    ensures whole { IfOk result (λ arcs. AreArcs old.now.points new.now.points arcs.items) }
{
    old.whole();
    new.whole();
    let mut arcs = Vec::with_capacity(alloc, old.points().len().max(new.points().len()))?;
    let (mut old, mut new) = (Side::before_first(old), Side::before_first(new));
    let Some(first) = next_place(&old, &new) else {
        return Ok(arcs);
    };
    let mut start = first;
    old = old.at(start);
    new = new.at(start);
    while let Some(next) = next_place(&old, &new) {
        arcs.push(arc(up_to(start, next), &old, &new))?;
        start = next;
        old = old.at(start);
        new = new.at(start);
    }
    arcs.push(arc(round_to(start, first), &old, &new))?;
    Ok(arcs)
}

/// The moves between two rings, by start: the arcs whose owners before and after are of different silos, and that have an
/// owner after. A hash is in one of them exactly where it moved.
///
/// One walk over the points of both. Fails only when memory runs out (`docs/RULES.md#arcs-and-moves`).
pub fn moves(alloc: Global, old: &Ring, new: &Ring) -> Result<Vec<Move>, AllocError>
    ensures exact { IfOk result (λ moves. moves.items ≡ moves_of old.now.points new.now.points) }
    ensures whole { IfOk result (λ moves. AreMoves old.now.points new.now.points moves.items) }
{
    old.whole();
    new.whole();
    arcs(alloc, old, new)?
        .iter()
        .filter_map(|arc| arc.moved())
        .collect(alloc)
}

// The range with its owner on each side.
fn arc(range: RingRange, old: &Side<'_>, new: &Side<'_>) -> RingArc
    ensures { result ≡ record { range = range; from = old.now.owner; to = new.now.owner } }
{
    RingArc {
        range,
        from: old.owner,
        to: new.owner,
    }
}

// From one place up to a higher one.
fn up_to(start: u32, end: u32) -> RingRange
    requires { start < end }
    ensures { result ≡ record { start = start; size = end - start } }
{
    RingRange::new(start, u64::from(end - start)).unwrap()
}

// From a place over 0 on to a lower one, or all round to the place itself.
fn round_to(start: u32, end: u32) -> RingRange
    requires { end ≤ start }
    ensures { result ≡ record { start = start; size = circle - (start - end) } }
{
    RingRange::new(start, CIRCLE - u64::from(start - end)).unwrap()
}
