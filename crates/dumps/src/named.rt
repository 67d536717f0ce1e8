//! Names, ranges and words, read from the texts that a dump has for them (`docs/RULES.md#the-dump-and-the-verdict`). Each has one
//! spelling; another text is refused by `NotADump`.

ghost use Rattle.std.specs.Prelude.{◌≢◌, Err};
ghost use Rattle.std.specs.Cow.{cow_slice_items};
ghost use Rattle.serde_json.specs.Data.{string};
ghost use Rattle.dump_rules.specs.DumpIn.{hashing_in, phase_in, state_in};
ghost use Rattle.dump_rules.specs.Values.{activation_in, from_in, grain_in, range_in, silo_in};
ghost use Rattle.dumps.specs.DumpModel.{phase_of, state_of};
ghost use Rattle.dumps.specs.declared.error.DumpError.TheVariants.{OutOfMemory};
ghost use Rattle.dumps.specs.ReadAs.{IsReading, IsReadingBy};

use crate::{DumpError, LentGrain, ListedPhase, ListedState};
use hash_ring::Hashing;
use ring_range::RingRange;
use silo_address::{ActivationId, SiloAddress};
use std::borrow::CowSlice;

/// Reads a silo, as `SiloAddress::parse` does. Refused by `NotADump` where the text is no silo.
pub fn silo(text: &[u8]) -> Result<SiloAddress, DumpError>
    ensures read { IsReading result (silo_in (string text.now)) }
    ensures needs_no_memory { result ≢ Err OutOfMemory }
{
    match SiloAddress::parse(text) {
        Ok(silo) => Ok(silo),
        Err(_) => Err(DumpError::NotADump),
    }
}

/// Reads a grain, and keeps the text as its name, as `LentGrain::parse` does. Refused by `NotADump` where the text is no grain.
pub fn grain(text: CowSlice<'_, u8>) -> Result<LentGrain<'_>, DumpError>
    ensures read { IsReading result (grain_in (string (cow_slice_items text.entry))) }
    ensures needs_no_memory { result ≢ Err OutOfMemory }
{
    match LentGrain::parse(text) {
        Ok(grain) => Ok(grain),
        Err(_) => Err(DumpError::NotADump),
    }
}

/// Reads an activation, as `ActivationId::parse` does. Refused by `NotADump` where the text is no activation.
pub fn activation(text: &[u8]) -> Result<ActivationId, DumpError>
    ensures read { IsReading result (activation_in (string text.now)) }
    ensures needs_no_memory { result ≢ Err OutOfMemory }
{
    match ActivationId::parse(text) {
        Ok(activation) => Ok(activation),
        Err(_) => Err(DumpError::NotADump),
    }
}

/// Reads a range `START+SIZE` of the circle of 2^32 hashes, as `RingRange::parse` does. Refused by `NotADump` where the text is no
/// range.
pub fn range(text: &[u8]) -> Result<RingRange, DumpError>
    ensures read { IsReading result (range_in (string text.now)) }
    ensures needs_no_memory { result ≢ Err OutOfMemory }
{
    match RingRange::parse(text) {
        Ok(range) => Ok(range),
        Err(_) => Err(DumpError::NotADump),
    }
}

/// Reads the silo from which a piece awaits its entries: the empty text for none. Refused by `NotADump` where another text is no
/// silo.
pub fn from(text: &[u8]) -> Result<Option<SiloAddress>, DumpError>
    ensures read { IsReading result (from_in (string text.now)) }
    ensures needs_no_memory { result ≢ Err OutOfMemory }
{
    if text.is_empty() {
        return Ok(None);
    }
    match SiloAddress::parse(text) {
        Ok(silo) => Ok(Some(silo)),
        Err(_) => Err(DumpError::NotADump),
    }
}

/// Reads how the cluster hashes: `sha256` or `stated`. Refused by `NotADump` where the text is another word.
pub fn hashing(text: &[u8]) -> Result<Hashing, DumpError>
    ensures read { IsReading result (hashing_in (string text.now)) }
    ensures needs_no_memory { result ≢ Err OutOfMemory }
{
    if text == b"sha256".as_slice() {
        return Ok(Hashing::Sha256);
    }
    if text == b"stated".as_slice() {
        return Ok(Hashing::Stated);
    }
    Err(DumpError::NotADump)
}

/// Reads the phase of an activation: `asking`, `firm` or `closing`. Refused by `NotADump` where the text is another word.
pub fn phase(text: &[u8]) -> Result<ListedPhase, DumpError>
    ensures read { IsReadingBy phase_of result (phase_in (string text.now)) }
    ensures needs_no_memory { result ≢ Err OutOfMemory }
{
    if text == b"asking".as_slice() {
        return Ok(ListedPhase::Asking);
    }
    if text == b"firm".as_slice() {
        return Ok(ListedPhase::Firm);
    }
    if text == b"closing".as_slice() {
        return Ok(ListedPhase::Closing);
    }
    Err(DumpError::NotADump)
}

/// Reads the state of a piece: `settled`, `awaiting` or `recovering`. Refused by `NotADump` where the text is another word.
pub fn state(text: &[u8]) -> Result<ListedState, DumpError>
    ensures read { IsReadingBy state_of result (state_in (string text.now)) }
    ensures needs_no_memory { result ≢ Err OutOfMemory }
{
    if text == b"settled".as_slice() {
        return Ok(ListedState::Settled);
    }
    if text == b"awaiting".as_slice() {
        return Ok(ListedState::Awaiting);
    }
    if text == b"recovering".as_slice() {
        return Ok(ListedState::Recovering);
    }
    Err(DumpError::NotADump)
}
