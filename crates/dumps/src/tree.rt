//! The dump that a value tells, list by list.

ghost use Rattle.std.specs.Prelude.{◌≢◌, Err, Option, codes};
ghost use Rattle.serde_json.specs.Data.{Data};
ghost use Rattle.serde_json.specs.View.{members_view, view};
ghost use Rattle.dump_rules.specs.DumpIn.{dump_in, entry_in, held_in, node_in, piece_in, point_in, row_in};
ghost use Rattle.dump_rules.specs.Values.{list_in, member_in, number_in, silo_in};
ghost use Rattle.dumps.specs.ReadAs.{IsReading, IsReadingBy};
ghost use Rattle.dumps.specs.declared.error.DumpError.TheVariants.{OutOfMemory};

use crate::values::{
    activation, from, grain, hashing, items, member, members_of, number, phase, range, silo, state,
    three_items, two_items,
};
use crate::{
    Dump, DumpError, ListedEntry, ListedHeld, ListedNode, ListedPiece, ListedPoint, ListedRow,
};
use serde_json::{Map, Value};
use silo_address::SiloAddress;
use std::alloc::Global;

/// Reads the dump that the value tells (`docs/RULES.md#the-dump-and-the-verdict`). Refused by `NotADump` where it tells none, and by
/// `OutOfMemory` when memory runs out. What is read may still be no dump by its lists.
#[tactic(auto, unfolding(dump_rules::specs::DumpIn::dump_in))]
pub fn read_tree(alloc: Global, value: &Value) -> Result<Dump<'static>, DumpError>
    ensures { IsReading result (dump_in (view value.now)) }
{
    let members = members_of(value, 5)?;
    let current = number_member(members, "current")?;
    let hashing = hashing(member(members, "hashing")?)?;
    let points = number_member(members, "points")?;
    let nodes = list_member(alloc, members, "nodes")?;
    let rows = list_member(alloc, members, "rows")?;
    Ok(Dump {
        current,
        hashing,
        nodes,
        points,
        rows,
    })
}

/// What a dump lists, as it reads from a JSON value.
trait ReadJson: Drop {
    ghost reads: { Data → Option Self };

    /// What the value tells.
    fn read(alloc: Global, value: &Value) -> Result<Self, DumpError>
        ensures { IsReading result (reads (view value.now)) };
}

/// The list that the value tells, all of whose items are readable.
fn list<T: ReadJson>(alloc: Global, value: &Value) -> Result<Vec<T>, DumpError>
    ensures { IsReadingBy (λ list. list.items) result (list_in T.reads (view value.now)) }
{
    let values = items(value)?;
    let mut list = Vec::with_capacity(alloc, values.len())?;
    for value in values {
        let item = T::read(alloc, value)?;
        list.push(item)?;
    }
    Ok(list)
}

/// The list under that name.
fn list_member<T: ReadJson>(
    alloc: Global,
    members: &Map<String, Value>,
    name: &str,
) -> Result<Vec<T>, DumpError>
    ensures { IsReadingBy (λ list. list.items) result (member_in (list_in T.reads) name.now (members_view members.now.entries)) }
{
    list(alloc, member(members, name)?)
}

/// The number under that name.
fn number_member(members: &Map<String, Value>, name: &str) -> Result<u64, DumpError>
    ensures read { IsReading result (member_in number_in name.now (members_view members.now.entries)) }
    ensures needs_no_memory { result ≢ Err OutOfMemory }
{
    number(member(members, name)?)
}

/// The silo under its name.
fn silo_member(members: &Map<String, Value>) -> Result<SiloAddress, DumpError>
    ensures read { IsReading result (member_in silo_in (codes "silo") (members_view members.now.entries)) }
    ensures needs_no_memory { result ≢ Err OutOfMemory }
{
    silo(member(members, "silo")?)
}

impl ReadJson for ListedRow {
    ghost reads = { row_in };

    fn read(alloc: Global, value: &Value) -> Result<ListedRow, DumpError> {
        let members = members_of(value, 5)?;
        let dead = number_member(members, "dead")?;
        let joined = number_member(members, "joined")?;
        let left = number_member(members, "left")?;
        let silo = silo_member(members)?;
        let places = list_member(alloc, members, "places")?;
        Ok(ListedRow {
            dead,
            joined,
            left,
            places,
            silo,
        })
    }
}

impl ReadJson for ListedNode<'static> {
    ghost reads = { node_in };

    fn read(alloc: Global, value: &Value) -> Result<ListedNode<'static>, DumpError> {
        let members = members_of(value, 5)?;
        let seen = number_member(members, "seen")?;
        let silo = silo_member(members)?;
        let held = list_member(alloc, members, "held")?;
        let pieces = list_member(alloc, members, "pieces")?;
        let ring = list_member(alloc, members, "ring")?;
        Ok(ListedNode {
            held,
            pieces,
            ring,
            seen,
            silo,
        })
    }
}

impl ReadJson for ListedPiece<'static> {
    ghost reads = { piece_in };

    fn read(alloc: Global, value: &Value) -> Result<ListedPiece<'static>, DumpError> {
        let members = members_of(value, 4)?;
        let from = from(member(members, "from")?)?;
        let range = range(member(members, "range")?)?;
        let state = state(member(members, "state")?)?;
        let entries = list_member(alloc, members, "entries")?;
        Ok(ListedPiece {
            entries,
            from,
            range,
            state,
        })
    }
}

impl ReadJson for ListedHeld<'static> {
    ghost reads = { held_in };

    fn read(alloc: Global, value: &Value) -> Result<ListedHeld<'static>, DumpError> {
        let members = members_of(value, 3)?;
        let activation = activation(member(members, "activation")?)?;
        let phase = phase(member(members, "phase")?)?;
        let grain = grain(alloc, member(members, "grain")?)?;
        Ok(ListedHeld {
            activation,
            grain,
            phase,
        })
    }
}

impl ReadJson for ListedPoint {
    ghost reads = { point_in };

    fn read(_alloc: Global, value: &Value) -> Result<ListedPoint, DumpError>
        ensures read { IsReading result (point_in (view value.now)) }
        ensures needs_no_memory { result ≢ Err OutOfMemory }
    {
        let (place, silo_text, index) = three_items(value)?;
        let place = number(place)?;
        let silo = silo(silo_text)?;
        let index = number(index)?;
        Ok(ListedPoint { place, silo, index })
    }
}

impl ReadJson for ListedEntry<'static> {
    ghost reads = { entry_in };

    fn read(alloc: Global, value: &Value) -> Result<ListedEntry<'static>, DumpError> {
        let (grain_text, activation_text) = two_items(value)?;
        let activation = activation(activation_text)?;
        let grain = grain(alloc, grain_text)?;
        Ok(ListedEntry { grain, activation })
    }
}

impl ReadJson for u64 {
    ghost reads = { number_in };

    fn read(_alloc: Global, value: &Value) -> Result<u64, DumpError>
        ensures read { IsReading result (number_in (view value.now)) }
        ensures needs_no_memory { result ≢ Err OutOfMemory }
    {
        number(value)
    }
}
