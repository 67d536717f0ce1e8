//! The values, each of which is refused by `NotADump` where it is of another type or unreadable
//! (`docs/RULES.md#the-dump-and-the-verdict`).

ghost use Rattle.std.specs.Prelude.{◌≢◌, Err, option_and_then};
ghost use Rattle.serde_json.specs.Find.{as_array, as_str, get_member};
ghost use Rattle.serde_json.specs.View.{items_view, members_view, view};
ghost use Rattle.dump_rules.specs.DumpIn.{hashing_in, phase_in, state_in};
ghost use Rattle.dump_rules.specs.Values.{activation_in, from_in, grain_in, members_in, number_in, range_in, silo_in, three_items, two_items};
ghost use Rattle.dumps.specs.DumpModel.{phase_of, state_of};
ghost use Rattle.dumps.specs.ReadAs.{IsReading, IsReadingBy};
ghost use Rattle.dumps.specs.declared.error.DumpError.TheVariants.{OutOfMemory};

use crate::{DumpError, LentGrain, ListedPhase, ListedState, named};
use hash_ring::Hashing;
use ring_range::RingRange;
use serde_json::{Map, Value};
use silo_address::{ActivationId, SiloAddress};
use std::alloc::Global;
use std::borrow::CowSlice;

/// Reads an object's members, if they are so many. Refused by `NotADump` where the value is no object, or has more or fewer.
pub(crate) fn members_of(value: &Value, many: usize) -> Result<&Map<String, Value>, DumpError>
    ensures read { IsReadingBy (λ members. members_view members.now.entries) result (members_in many (view value.now)) }
    ensures needs_no_memory { result ≢ Err OutOfMemory }
{
    let Some(members) = value.as_object() else {
        return Err(DumpError::NotADump);
    };
    if members.len() != many {
        return Err(DumpError::NotADump);
    }
    Ok(members)
}

/// The member of that name. Refused by `NotADump` where there is none.
pub(crate) fn member<'v>(
    members: &'v Map<String, Value>,
    name: &str,
) -> Result<&'v Value, DumpError>
    ensures read { IsReadingBy (λ value. view value.now) result (get_member name.now (members_view members.now.entries)) }
    ensures needs_no_memory { result ≢ Err OutOfMemory }
{
    members.get(name).ok_or(DumpError::NotADump)
}

/// Reads a list's items. Refused by `NotADump` where the value is no list.
pub(crate) fn items(value: &Value) -> Result<&[Value], DumpError>
    ensures read { IsReadingBy (λ items. items_view items.now) result (as_array (view value.now)) }
    ensures needs_no_memory { result ≢ Err OutOfMemory }
{
    match value.as_array() {
        Some(items) => Ok(items.as_slice()),
        None => Err(DumpError::NotADump),
    }
}

/// Reads the items of a list of two. Refused by `NotADump` where the value is no list, or has more items or fewer.
pub(crate) fn two_items(value: &Value) -> Result<(&Value, &Value), DumpError>
    ensures read { IsReadingBy (λ pair. (view pair.0.now, view pair.1.now)) result (option_and_then two_items (as_array (view value.now))) }
    ensures needs_no_memory { result ≢ Err OutOfMemory }
{
    let parts = items(value)?;
    if parts.len() != 2 {
        return Err(DumpError::NotADump);
    }
    Ok((&parts[0], &parts[1]))
}

/// Reads the items of a list of three. Refused by `NotADump` where the value is no list, or has more items or fewer.
pub(crate) fn three_items(value: &Value) -> Result<(&Value, &Value, &Value), DumpError>
    ensures read { IsReadingBy (λ triple. (view triple.0.now, view triple.1.now, view triple.2.now)) result (option_and_then three_items (as_array (view value.now))) }
    ensures needs_no_memory { result ≢ Err OutOfMemory }
{
    let parts = items(value)?;
    if parts.len() != 3 {
        return Err(DumpError::NotADump);
    }
    Ok((&parts[0], &parts[1], &parts[2]))
}

/// Reads a text. Refused by `NotADump` where the value is none.
fn text(value: &Value) -> Result<&[u8], DumpError>
    ensures read { IsReadingBy (λ text. text.now) result (as_str (view value.now)) }
    ensures needs_no_memory { result ≢ Err OutOfMemory }
{
    match value.as_str() {
        Some(text) => Ok(text.as_bytes()),
        None => Err(DumpError::NotADump),
    }
}

/// Reads a number below 2^64, without sign, point or exponent. Refused by `NotADump` where the value is none.
pub(crate) fn number(value: &Value) -> Result<u64, DumpError>
    ensures read { IsReading result (number_in (view value.now)) }
    ensures needs_no_memory { result ≢ Err OutOfMemory }
{
    value.as_u64().ok_or(DumpError::NotADump)
}

/// Reads a silo, as `named::silo` does. Refused by `NotADump` where the value is no text that tells one.
pub(crate) fn silo(value: &Value) -> Result<SiloAddress, DumpError>
    ensures read { IsReading result (silo_in (view value.now)) }
    ensures needs_no_memory { result ≢ Err OutOfMemory }
{
    named::silo(text(value)?)
}

/// Reads a grain, with a name of its own, as `named::grain` does. Refused by `NotADump` where the value is no text that tells one, and
/// by `OutOfMemory` when memory runs out.
pub(crate) fn grain(alloc: Global, value: &Value) -> Result<LentGrain<'static>, DumpError>
    ensures { IsReading result (grain_in (view value.now)) }
{
    let name = text(value)?.to_vec(alloc)?;
    named::grain(CowSlice::Owned(name))
}

/// Reads an activation, as `named::activation` does. Refused by `NotADump` where the value is no text that tells one.
pub(crate) fn activation(value: &Value) -> Result<ActivationId, DumpError>
    ensures read { IsReading result (activation_in (view value.now)) }
    ensures needs_no_memory { result ≢ Err OutOfMemory }
{
    named::activation(text(value)?)
}

/// Reads a range of the circle of 2^32 hashes, as `named::range` does. Refused by `NotADump` where the value is no text that tells
/// one.
pub(crate) fn range(value: &Value) -> Result<RingRange, DumpError>
    ensures read { IsReading result (range_in (view value.now)) }
    ensures needs_no_memory { result ≢ Err OutOfMemory }
{
    named::range(text(value)?)
}

/// Reads the silo from which a piece awaits its entries, as `named::from` does: the empty text for none. Refused by `NotADump` where
/// the value is another text or none.
pub(crate) fn from(value: &Value) -> Result<Option<SiloAddress>, DumpError>
    ensures read { IsReading result (from_in (view value.now)) }
    ensures needs_no_memory { result ≢ Err OutOfMemory }
{
    named::from(text(value)?)
}

/// Reads how the cluster hashes, as `named::hashing` does. Refused by `NotADump` where the value is no such word.
pub(crate) fn hashing(value: &Value) -> Result<Hashing, DumpError>
    ensures read { IsReading result (hashing_in (view value.now)) }
    ensures needs_no_memory { result ≢ Err OutOfMemory }
{
    named::hashing(text(value)?)
}

/// Reads the phase of an activation, as `named::phase` does. Refused by `NotADump` where the value is no such word.
pub(crate) fn phase(value: &Value) -> Result<ListedPhase, DumpError>
    ensures read { IsReadingBy phase_of result (phase_in (view value.now)) }
    ensures needs_no_memory { result ≢ Err OutOfMemory }
{
    named::phase(text(value)?)
}

/// Reads the state of a piece, as `named::state` does. Refused by `NotADump` where the value is no such word.
pub(crate) fn state(value: &Value) -> Result<ListedState, DumpError>
    ensures read { IsReadingBy state_of result (state_in (view value.now)) }
    ensures needs_no_memory { result ≢ Err OutOfMemory }
{
    named::state(text(value)?)
}
