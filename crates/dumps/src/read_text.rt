//! What stands in a dump, read from its text: numbers, names, ranges and words.

ghost use Rattle.std.specs.Prelude.{◌≡◌, ◌≢◌, ℕ, Some, Option, Err, IfOk};
ghost use Rattle.serde_json.specs.Data.{Data};
ghost use Rattle.dump_rules.specs.DumpIn.{hashing_in, phase_in, state_in};
ghost use Rattle.dump_rules.specs.Values.{activation_in, from_in, grain_in, number_in, range_in, silo_in};
ghost use Rattle.dumps.specs.DumpModel.{phase_of, state_of};
ghost use Rattle.dumps.specs.Straight.{Tells, TellsBy};
ghost use Rattle.dumps.specs.declared.error.DumpError.TheVariants.{OutOfMemory};

use crate::plain_text::PlainText;
use crate::{DumpError, LentGrain, ListedPhase, ListedState, named};
use hash_ring::Hashing;
use ring_range::RingRange;
use silo_address::{ActivationId, SiloAddress};
use std::alloc::Global;

/// What is read from the tokens of a text.
pub(crate) trait ReadText<'a>: Drop {
    ghost tells: { Data → Self → Type 0 };

    ghost deep: { ℕ };

    /// What the next value tells.
    fn read_text(alloc: Global, reader: &mut PlainText<'a>) -> Result<Self, DumpError>
        ensures { IfOk result (λ read. TellsBy tells deep reader.old read reader.new) };
}

impl<'a> ReadText<'a> for u64 {
    ghost tells = { λ value number. number_in value ≡ Some number };

    ghost deep = { 0 };

    #[inline(always)]
    fn read_text(_alloc: Global, reader: &mut PlainText<'a>) -> Result<u64, DumpError>
        ensures told { IfOk result (λ number. Tells number_in 0 reader.old number reader.new) }
        ensures needs_no_memory { result ≢ Err OutOfMemory }
    {
        reader.number()
    }
}

impl<'a> ReadText<'a> for SiloAddress {
    ghost tells = { λ value silo. silo_in value ≡ Some silo };

    ghost deep = { 0 };

    #[inline(always)]
    fn read_text(alloc: Global, reader: &mut PlainText<'a>) -> Result<SiloAddress, DumpError> {
        named::silo(reader.text(alloc)?.as_slice())
    }
}

impl<'a> ReadText<'a> for Option<SiloAddress> {
    ghost tells = { λ value from. from_in value ≡ Some from };

    ghost deep = { 0 };

    #[inline(always)]
    fn read_text(
        alloc: Global,
        reader: &mut PlainText<'a>,
    ) -> Result<Option<SiloAddress>, DumpError> {
        named::from(reader.text(alloc)?.as_slice())
    }
}

impl<'a> ReadText<'a> for LentGrain<'a> {
    ghost tells = { λ value grain. grain_in value ≡ Some grain };

    ghost deep = { 0 };

    #[inline(always)]
    fn read_text(alloc: Global, reader: &mut PlainText<'a>) -> Result<LentGrain<'a>, DumpError> {
        named::grain(reader.text(alloc)?)
    }
}

impl<'a> ReadText<'a> for ActivationId {
    ghost tells = { λ value activation. activation_in value ≡ Some activation };

    ghost deep = { 0 };

    #[inline(always)]
    fn read_text(alloc: Global, reader: &mut PlainText<'a>) -> Result<ActivationId, DumpError> {
        named::activation(reader.text(alloc)?.as_slice())
    }
}

impl<'a> ReadText<'a> for RingRange {
    ghost tells = { λ value range. range_in value ≡ Some range };

    ghost deep = { 0 };

    #[inline(always)]
    fn read_text(alloc: Global, reader: &mut PlainText<'a>) -> Result<RingRange, DumpError> {
        named::range(reader.text(alloc)?.as_slice())
    }
}

impl<'a> ReadText<'a> for Hashing {
    ghost tells = { λ value hashing. hashing_in value ≡ Some hashing };

    ghost deep = { 0 };

    #[inline(always)]
    fn read_text(alloc: Global, reader: &mut PlainText<'a>) -> Result<Hashing, DumpError> {
        named::hashing(reader.text(alloc)?.as_slice())
    }
}

impl<'a> ReadText<'a> for ListedPhase {
    ghost tells = { λ value phase. phase_in value ≡ Some (phase_of phase) };

    ghost deep = { 0 };

    #[inline(always)]
    fn read_text(alloc: Global, reader: &mut PlainText<'a>) -> Result<ListedPhase, DumpError> {
        named::phase(reader.text(alloc)?.as_slice())
    }
}

impl<'a> ReadText<'a> for ListedState {
    ghost tells = { λ value state. state_in value ≡ Some (state_of state) };

    ghost deep = { 0 };

    #[inline(always)]
    fn read_text(alloc: Global, reader: &mut PlainText<'a>) -> Result<ListedState, DumpError> {
        named::state(reader.text(alloc)?.as_slice())
    }
}
