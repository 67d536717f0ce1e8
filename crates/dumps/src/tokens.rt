//! The tokens, each written behind what stands in a buffer (`docs/RULES.md#the-dump-and-the-verdict`).

ghost use Rattle.std.specs.Prelude.{◌≡◌, ◌++◌, ◌<◌, ◌∷◌, [], OnOk, codes};
ghost use Rattle.std.specs.Fmt.{decimal};
ghost use Rattle.dump_rules.specs.Dump.{comma, escaped, json_member, quoted};

use itoa::Buffer;
use std::alloc::AllocError;

/// Writes a mark, and behind it a number under its name. Fails only when memory runs out.
pub(crate) fn push_number_member(
    out: &mut Vec<u8>,
    mark: u8,
    name: &[u8],
    number: u64,
) -> Result<(), AllocError>
    ensures { OnOk result (out.new.items ≡ out.old.items ++ mark ∷ json_member (name.now, decimal number)) }
{
    push_name(out, mark, name)?;
    push_number(out, number)
}

/// Writes a mark, and behind it a text under its name. Fails only when memory runs out.
pub(crate) fn push_text_member(
    out: &mut Vec<u8>,
    mark: u8,
    name: &[u8],
    text: &[u8],
) -> Result<(), AllocError>
    ensures { OnOk result (out.new.items ≡ out.old.items ++ mark ∷ json_member (name.now, quoted text.now)) }
{
    push_name(out, mark, name)?;
    push_quoted(out, text)
}

/// Writes a mark, a name and a colon. Fails only when memory runs out.
pub(crate) fn push_name(out: &mut Vec<u8>, mark: u8, name: &[u8]) -> Result<(), AllocError>
    ensures { OnOk result (out.new.items ≡ out.old.items ++ mark ∷ (quoted name.now ++ codes ":")) }
{
    out.push(mark)?;
    push_quoted(out, name)?;
    out.push(b':')?;
    Ok(())
}

/// Writes the comma before the item of a list at that index: none before the first. Fails only when memory runs out.
pub(crate) fn push_comma(out: &mut Vec<u8>, index: usize) -> Result<(), AllocError>
    ensures first { index ≡ 0 → OnOk result (out.new.items ≡ out.old.items) }
    ensures later { 0 < index → OnOk result (out.new.items ≡ out.old.items ++ comma ∷ []) }
{
    if index > 0 {
        out.push(b',')?;
    }
    Ok(())
}

/// Writes a number in decimal. Fails only when memory runs out.
pub(crate) fn push_number(out: &mut Vec<u8>, number: u64) -> Result<(), AllocError>
    ensures { OnOk result (out.new.items ≡ out.old.items ++ decimal number) }
{
    let mut digits = Buffer::new();
    out.extend_from_slice(digits.format(number).as_bytes())
}

/// Writes a text in quotation marks, with a backslash before each quotation mark and each backslash in it. Fails only when memory runs
/// out.
pub(crate) fn push_quoted(out: &mut Vec<u8>, text: &[u8]) -> Result<(), AllocError>
    ensures { OnOk result (out.new.items ≡ out.old.items ++ quoted text.now) }
{
    out.push(b'"')?;
    for byte in text {
        push_escaped(out, *byte)?;
    }
    out.push(b'"')?;
    Ok(())
}

/// A byte of a text, a backslash before it if it is a quotation mark or a backslash.
fn push_escaped(out: &mut Vec<u8>, byte: u8) -> Result<(), AllocError>
    ensures { OnOk result (out.new.items ≡ out.old.items ++ escaped byte) }
{
    if byte == b'"' || byte == b'\\' {
        out.extend_from_slice(&[b'\\', byte])
    } else {
        out.push(byte)?;
        Ok(())
    }
}
