//! Texts, each with a mark behind it. A number or a silo is written into an array first, from its end to its front, and then
//! appended at once.

#![tactic(auto, using(crate::proofs::WrittenPieces::part_by_part))]

ghost use Rattle.std.specs.Prelude.{◌≡◌, ◌+◌, ◌<◌, ◌≤◌, [], ◌∷◌, ◌++◌, OnOk, drop, length};
ghost use Rattle.std.specs.Fmt.{decimal};
ghost use Rattle.silo_address.specs.ActivationText.{activation_text};
ghost use Rattle.silo_address.specs.SiloText.{silo_text};
ghost use Rattle.script_rules.specs.Lines.{span_text};
ghost use Rattle.script_lines.specs.Spaced.{BeginsWith};

use directory_rules::Span;
use itoa::write_digits;
use silo_address::{ActivationId, SiloAddress};
use std::alloc::AllocError;

/// How many bytes a number below 2^64 and a mark take at most.
const MOST_OF_NUMBER: usize = 21;

/// How many bytes a silo and a mark take at most.
const MOST_OF_SILO: usize = 33;

/// How many bytes an activation and a mark take at most.
const MOST_OF_ACTIVATION: usize = 54;

/// How many bytes a span and a mark take at most.
const MOST_OF_SPAN: usize = 43;

/// A text, and a mark behind it.
pub(crate) fn push_marked(out: &mut Vec<u8>, text: &[u8], mark: u8) -> Result<(), AllocError>
    ensures written { OnOk result (out.new.items ≡ out.old.items ++ (text.now ++ mark ∷ [])) }
    ensures kept { BeginsWith out.old.items out.new.items }
{
    out.extend_from_slice(text)?;
    out.push(mark)?;
    Ok(())
}

/// A number in decimal, and a mark behind it.
pub(crate) fn push_marked_number(out: &mut Vec<u8>, number: u64, mark: u8) -> Result<(), AllocError>
    ensures written { OnOk result (out.new.items ≡ out.old.items ++ (decimal number ++ mark ∷ [])) }
    ensures kept { BeginsWith out.old.items out.new.items }
{
    let mut bytes = [0; MOST_OF_NUMBER];
    let start = put_number(&mut bytes, MOST_OF_NUMBER, number, mark);
    out.extend_from_slice(&bytes[start..])
}

/// A silo, and a mark behind it.
pub(crate) fn push_marked_silo(
    out: &mut Vec<u8>,
    silo: &SiloAddress,
    mark: u8,
) -> Result<(), AllocError>
    ensures written { OnOk result (out.new.items ≡ out.old.items ++ (silo_text silo.now ++ mark ∷ [])) }
    ensures kept { BeginsWith out.old.items out.new.items }
{
    let mut bytes = [0; MOST_OF_SILO];
    let start = put_silo(&mut bytes, MOST_OF_SILO, silo, mark);
    out.extend_from_slice(&bytes[start..])
}

/// An activation, and a mark behind it.
pub(crate) fn push_marked_activation(
    out: &mut Vec<u8>,
    activation: &ActivationId,
    mark: u8,
) -> Result<(), AllocError>
    ensures written { OnOk result (out.new.items ≡ out.old.items ++ (activation_text activation.now ++ mark ∷ [])) }
    ensures kept { BeginsWith out.old.items out.new.items }
{
    let mut bytes = [0; MOST_OF_ACTIVATION];
    let count = activation.count;
    let behind = put_number(&mut bytes, MOST_OF_ACTIVATION, count, mark);
    let start = put_silo(&mut bytes, behind, &activation.silo, b'!');
    out.extend_from_slice(&bytes[start..])
}

/// A span, its first and its last number with two dots between them, and a mark behind it.
pub(crate) fn push_marked_span(out: &mut Vec<u8>, span: &Span, mark: u8) -> Result<(), AllocError>
    ensures written { OnOk result (out.new.items ≡ out.old.items ++ (span_text span.now ++ mark ∷ [])) }
    ensures kept { BeginsWith out.old.items out.new.items }
{
    let mut bytes = [0; MOST_OF_SPAN];
    let Span { first, last } = *span;
    let behind = put_number(&mut bytes, MOST_OF_SPAN, last, mark);
    bytes[behind - 1] = b'.';
    let start = put_number(&mut bytes, behind - 1, first, b'.');
    out.extend_from_slice(&bytes[start..])
}

/// Puts a silo and a mark in front of `end`, and says where they begin.
fn put_silo(bytes: &mut [u8], end: usize, silo: &SiloAddress, mark: u8) -> usize
    requires room { 33 ≤ end }
    requires within { end ≤ length bytes.old }
    ensures within { result ≤ end }
    ensures put { drop result bytes.new ≡ silo_text silo.now ++ mark ∷ drop end bytes.old }
{
    silo.in_range();
    let [first, second, third, fourth] = silo.ip();
    let start = put_number(bytes, end, u64::from(silo.generation()), mark);
    let start = put_number(bytes, start, u64::from(silo.port()), b'@');
    let start = put_number(bytes, start, u64::from(fourth), b':');
    let start = put_number(bytes, start, u64::from(third), b'.');
    let start = put_number(bytes, start, u64::from(second), b'.');
    put_number(bytes, start, u64::from(first), b'.')
}

/// Puts a number and a mark in front of `end`, and says where they begin.
#[inline(always)]
fn put_number(bytes: &mut [u8], end: usize, number: u64, mark: u8) -> usize
    requires room { length (decimal number) < end }
    requires within { end ≤ length bytes.old }
    ensures start { result + length (decimal number) + 1 ≡ end }
    ensures put { drop result bytes.new ≡ decimal number ++ mark ∷ drop end bytes.old }
{
    bytes[end - 1] = mark;
    if number < 10 {
        bytes[end - 2] = b'0' + number as u8;
        return end - 2;
    }
    write_digits(number, bytes, end - 1)
}
