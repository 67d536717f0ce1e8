//! How pieces see a view.
ghost use Rattle.std.specs.Prelude.{◌≡◌, ◌+◌, ◌≤◌, [], IfOk, OnErr, OnOk, length, vec_capacity};
ghost use Rattle.directory_rules.specs.Sight.{pieces_after};

use crate::Sight;
use grain_partition::Holding;
use hash_ring::Hashing;
use seal_snapshot::{Shelf, Snapshot};
use silo_address::SiloAddress;
use std::alloc::{AllocError, Global};

/// The pieces see the view of a sight. There is room on the shelf then for what is sealed, which is handed back. Fails only when memory
/// runs out, and then changes nothing (`docs/RULES.md#pieces`).
pub fn see_in_holding(
    alloc: Global,
    holding: &mut Holding,
    shelf: &Shelf,
    hashing: Hashing,
    silo: SiloAddress,
    sight: &Sight,
) -> Result<Vec<Snapshot>, AllocError>
    ensures seen { OnOk result (holding.new ≡ record { seen = sight.now.view.version; served = []; pieces = pieces_after sight.now.next hashing sight.now.view silo holding.old.pieces sight.now.transition.arcs }) }
    ensures unchanged { OnErr result (holding.new ≡ holding.old) }
    ensures empty { IfOk result (λ room. room.items ≡ []) }
    ensures large { IfOk result (λ room. length shelf.now + length sight.now.sealed.items ≤ vec_capacity room) }
{
    sight.transition.whole();
    let room = shelf.room(alloc, &sight.sealed)?;
    let arcs = sight.transition.arcs();
    holding.sight(alloc, sight.next, hashing, &sight.view, &silo, arcs)?;
    Ok(room)
}
