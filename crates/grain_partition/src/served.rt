//! Serving a numbered request: the piece's turn, and the sender's number. Either may need room, so the number is noted
//! first, and unnoted where the piece finds no room.
ghost use Rattle.std.specs.Prelude.{◌≡◌, Some, IfOk, OnOk, OnErr, IsSome};
ghost use Rattle.std.specs.BTreeMap.{insert_entry, is_at};
ghost use Rattle.std.specs.Map.{lookup, set_value};
ghost use Rattle.std.specs.Ordering.{nat_cmp};
ghost use Rattle.silo_address.specs.Silo.{silo_cmp};
ghost use Rattle.directory_rules.specs.Answer.{turned};
ghost use Rattle.grain_partition.specs.Served.{IsTurnOf, number_before};

use crate::Piece;
use directory_rules::{Reply, Request};
use grain_table::HashedRequest;
use silo_address::SiloAddress;
use std::alloc::AllocError;
use std::collections::BTreeMap;

/// Serves a numbered request from the piece that begins at the start. Fails only when memory runs out, and then changes nothing.
pub(crate) fn serve_numbered(
    pieces: &mut BTreeMap<u32, Piece>,
    served: &mut BTreeMap<SiloAddress, u64>,
    start: u32,
    request: &HashedRequest,
) -> Result<Reply, AllocError>
    requires { IsSome (lookup (is_at (nat_cmp start)) pieces.old.entries) }
    ensures turned { IfOk result (IsTurnOf request.now.act start pieces.old.entries pieces.new.entries) }
    ensures noted { OnOk result (served.new.entries ≡ insert_entry silo_cmp served.old.entries request.now.sender request.now.number) }
    ensures pieces_stay { OnErr result (pieces.new.entries ≡ pieces.old.entries) }
    ensures served_stay { OnErr result (served.new.entries ≡ served.old.entries) }
{
    let Request { sender, number, .. } = *request.request();
    let before = served.insert(sender, number)?;
    match turn_at(pieces, start, request) {
        Ok(reply) => Ok(reply),
        Err(_) => {
            unnote(served, &sender, before);
            Err(AllocError)
        }
    }
}

// The turn of the piece that begins at the start.
#[tactic(auto, using(std::proofs::lemmas::Map::Steps::set_value_same))]
fn turn_at(
    pieces: &mut BTreeMap<u32, Piece>,
    start: u32,
    request: &HashedRequest,
) -> Result<Reply, AllocError>
    requires { IsSome (lookup (is_at (nat_cmp start)) pieces.old.entries) }
    ensures turned { IfOk result (IsTurnOf request.now.act start pieces.old.entries pieces.new.entries) }
    ensures unchanged { OnErr result (pieces.new.entries ≡ pieces.old.entries) }
{
    let piece = pieces.get_mut(&start).unwrap();
    piece.turn(request)
}

// What was noted for the silo before is noted again.
fn unnote(served: &mut BTreeMap<SiloAddress, u64>, silo: &SiloAddress, before: Option<u64>)
    requires { IsSome (lookup (is_at (silo_cmp silo.now)) served.old.entries) }
    ensures { served.new.entries ≡ number_before silo.now before served.old.entries }
{
    match before {
        Some(number) => renumber(served, silo, number),
        None => {
            served.remove(silo);
        }
    }
}

// The silo, which has a number, has this one.
fn renumber(served: &mut BTreeMap<SiloAddress, u64>, silo: &SiloAddress, number: u64)
    requires { IsSome (lookup (is_at (silo_cmp silo.now)) served.old.entries) }
    ensures { served.new.entries ≡ set_value (is_at (silo_cmp silo.now)) served.old.entries number }
{
    let kept = served.get_mut(silo).unwrap();
    *kept = number;
}
