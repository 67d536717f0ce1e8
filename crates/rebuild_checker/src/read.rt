//! Dumps read from bytes: straight from their text, or else by way of a tree of JSON values.

ghost use Rattle.std.specs.Prelude.{◌≡◌, ◌≢◌, ◌⊎◌, [], Err, IfOk, IsTrue, IsUtf8};
ghost use Rattle.serde_json.specs.Errors.{IsMemory};
ghost use Rattle.dump_rules.specs.DumpShape as rule;
ghost use Rattle.rebuild_checker.specs.Told.{lists_told, text_told, told};

use dumps::{Dump, DumpError, is_dump, read_straight, read_tree};
use serde_json::Value;
use simdutf8::basic::from_utf8;
use std::alloc::Global;

/// Reads the dump that bytes tell: they have to be UTF-8 and one JSON value, nested at most 127 deep, else they are refused by 971; and the
/// value has to tell lists that are a dump, else they are refused by 972 (`docs/RULES.md#the-dump-and-the-verdict`). Without memory that
/// may not be told, but bytes that are no UTF-8, and no bytes at all, are refused by 971, whether there is memory or not. Costs the reading
/// of the bytes, and a logarithm for each row, piece, entry and activation.
pub fn read_dump(alloc: Global, bytes: &[u8]) -> Result<Dump<'_>, DumpError>
    ensures told { (result ≡ Err DumpError.OutOfMemory) ⊎ (result ≡ told bytes.now) }
    ensures is_dump { IfOk result (λ dump. IsTrue (rule.is_dump dump)) }
    ensures not_utf8 { ¬ (IsUtf8 bytes.now) → result ≡ Err DumpError.NotJson }
    ensures empty { bytes.now ≡ [] → result ≡ Err DumpError.NotJson }
{
    let dump = read_lists(alloc, bytes)?;
    if !is_dump(alloc, &dump)? {
        return Err(DumpError::NotADump);
    }
    Ok(dump)
}

/// The lists that bytes tell, which may be no dump.
fn read_lists(alloc: Global, bytes: &[u8]) -> Result<Dump<'_>, DumpError>
    ensures told { (result ≡ Err DumpError.OutOfMemory) ⊎ (result ≡ lists_told bytes.now) }
    ensures not_utf8 { ¬ (IsUtf8 bytes.now) → result ≡ Err DumpError.NotJson }
    ensures empty { bytes.now ≡ [] → result ≡ Err DumpError.NotJson }
{
    match from_utf8(bytes) {
        Ok(text) => read_text(alloc, text),
        Err(_) => Err(DumpError::NotJson),
    }
}

/// The lists that a text tells, straight from it if it is written so. Then its grains are lent from it, but for names with escapes.
fn read_text(alloc: Global, text: &str) -> Result<Dump<'_>, DumpError>
    ensures told { (result ≡ Err DumpError.OutOfMemory) ⊎ (result ≡ text_told text.now) }
    ensures empty { text.now ≡ [] → result ≢ Err DumpError.OutOfMemory }
{
    match read_straight(alloc, text) {
        Ok(dump) => return Ok(dump),
        Err(DumpError::OutOfMemory) => return Err(DumpError::OutOfMemory),
        Err(DumpError::NotJson | DumpError::NotADump) => {}
    }
    by_value(alloc, text)
}

/// The lists that a text tells, however it is written. It lends nothing from it.
fn by_value(alloc: Global, text: &str) -> Result<Dump<'static>, DumpError>
    ensures told { (result ≡ Err DumpError.OutOfMemory) ⊎ (result ≡ text_told text.now) }
    ensures empty { text.now ≡ [] → result ≢ Err DumpError.OutOfMemory }
{
    match Value::from_str(alloc, text) {
        Ok(value) => read_tree(alloc, &value),
        Err(failure) => Err(read_error(failure)),
    }
}

/// Why no JSON value was read.
fn read_error(failure: serde_json::Error) -> DumpError
    ensures { ((result ≡ DumpError.OutOfMemory) × IsMemory failure) ⊎ ((result ≡ DumpError.NotJson) × ¬ (IsMemory failure)) }
{
    if failure.is_memory() {
        DumpError::OutOfMemory
    } else {
        DumpError::NotJson
    }
}
