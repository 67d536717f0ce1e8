//! The rows of all silos that ever joined, as a dump tells them.
ghost use Rattle.std.specs.Prelude.{◌≡◌, IfOk, map};
ghost use Rattle.dump_rules.specs.Dump.{dump_row};
ghost use Rattle.hash_ring.specs.Places.{named_places};

use crate::World;
use dumps::ListedRow;
use hash_ring::{Hashing, Places};
use membership_view::Row;
use silo_address::SiloAddress;
use std::alloc::{AllocError, Global};

/// A row for each silo that ever joined, by address (`docs/RULES.md#the-dump-and-the-verdict`). Fails only when memory runs out.
pub(crate) fn listed_rows(alloc: Global, world: &World) -> Result<Vec<ListedRow>, AllocError>
    ensures { IfOk result (λ rows. rows.items ≡ map (λ e. dump_row world.now.places e.0 e.1) world.now.views.rows) }
{
    let mut rows = Vec::new(alloc);
    for (silo, row) in world.views().rows() {
        let row = dumped(alloc, world.places(), silo, row)?;
        rows.push(row)?;
    }
    Ok(rows)
}

fn dumped(
    alloc: Global,
    places: &Places,
    silo: &SiloAddress,
    row: &Row,
) -> Result<ListedRow, AllocError>
    ensures { IfOk result (λ dumped. dumped ≡ dump_row places.now silo.now row.now) }
{
    let places = named(alloc, places, silo)?;
    Ok(ListedRow {
        dead: row.dead.unwrap_or(0),
        joined: row.joined,
        left: row.left.unwrap_or(0),
        places,
        silo: *silo,
    })
}

// The places that were named when the silo joined: none where they are hashed.
fn named(alloc: Global, places: &Places, silo: &SiloAddress) -> Result<Vec<u64>, AllocError>
    ensures { IfOk result (λ named. named.items ≡ named_places places.now.hashing places.now silo.now) }
{
    match (places.hashing(), places.of(silo)) {
        (Hashing::Stated, Some(list)) => list.iter().map(|place| u64::from(*place)).collect(alloc),
        (Hashing::Stated, None) | (Hashing::Sha256, _) => Ok(Vec::new(alloc)),
    }
}
