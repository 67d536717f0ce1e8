//! JSON read token by token, as the program writes dumps, or with blanks between the tokens. What is written otherwise is refused
//! here, which says nothing of it.
//!
//! Strings are lent from the text. Only one in which bytes are escaped gets bytes of its own. Escapes of codes from 128 on and short
//! ones of control characters are refused, since no text of a dump needs them.

ghost use Rattle.std.specs.Prelude.{◌≡◌, ◌≢◌, ◌<◌, ◌≤◌, [], ◌∷◌, ◌++◌, Err, IfOk, IfSome, OnOk, None, Some, length, true};
ghost use Rattle.std.specs.Bool.{OnFalse, OnTrue};
ghost use Rattle.std.specs.List.{list_all};
ghost use Rattle.std.specs.Cow.{cow_slice_items};
ghost use Rattle.json.specs.Json.{after_end_array};
ghost use Rattle.json.specs.Lex.{tokens};
ghost use Rattle.json.specs.Word.{is_space};
ghost use Rattle.json.specs.Token.{begin_array, begin_object, end_object, key, string};
ghost use Rattle.dump_rules.specs.Values.{number_in};
ghost use Rattle.dumps.specs.Straight.{Tells};
ghost use Rattle.dumps.specs.declared.error.DumpError.TheVariants.{OutOfMemory};
ghost use Rattle.dumps.specs.PlainText.{AreDigitsOf, IsBegun, IsNamed, IsQuoted, StandsFor, behind_blanks, ends_value, is_plain_byte, keeps_its_meaning};

use crate::DumpError;
use memchr::memchr;
use std::alloc::Global;
use std::borrow::CowSlice;
use std::marker::Model;
use texts::number_up_to;

/// What came last: a mark behind which a value may come at once, or a value, behind which it needs a comma.
#[derive(Clone, Copy, Drop)]
pub(crate) enum Place {
    Fresh,
    AfterValue,
}

/// A text, from where it is read on. A clause sees the tokens that are still to come.
#[derive(Drop)]
pub(crate) struct PlainText<'a> {
    rest: &'a [u8],
    place: Place,
    /// Where the bytes of a string are put together some of which are escaped.
    scratch: Vec<u8>,
}

impl<'a> Model for PlainText<'a> {
    ghost use Rattle.std.specs.Prelude.{List};
    ghost use Rattle.json.specs.Token.{Token, tokens_code};

    ghost Value = { List Token };

    ghost coded = { tokens_code };

    ghost use Rattle.dumps.specs.PlainText.{tokens_at};

    ghost view = { λ t. tokens_at t.place t.rest.now };
}

impl<'a> PlainText<'a> {
    /// All tokens of the text are still to come.
    pub(crate) fn new(alloc: Global, text: &'a str) -> PlainText<'a>
        ensures { result ≡ tokens text.now }
    {
        PlainText {
            rest: text.as_bytes(),
            place: Place::Fresh,
            scratch: Vec::new(alloc),
        }
    }

    /// Takes the brace that opens an object.
    pub(crate) fn begin_members(&mut self) -> Result<(), DumpError>
        ensures taken { OnOk result (self.old ≡ begin_object ∷ self.new) }
        ensures needs_no_memory { result ≢ Err OutOfMemory }
    {
        let rest = opened(self.rest, self.place, b'{')?;
        self.rest = rest;
        self.place = Place::Fresh;
        Ok(())
    }

    /// Takes the brace that closes an object, if it is next.
    pub(crate) fn take_end_object(&mut self) -> bool
        ensures taken { OnTrue result (self.old ≡ end_object ∷ self.new) }
        ensures unchanged { OnFalse result (self.new ≡ self.old) }
    {
        let Some(rest) = behind_blanks_and(self.rest, b'}') else {
            return false;
        };
        self.rest = rest;
        self.place = Place::AfterValue;
        true
    }

    /// Takes the bracket that opens a list.
    pub(crate) fn begin_items(&mut self) -> Result<(), DumpError>
        ensures taken { OnOk result (self.old ≡ begin_array ∷ self.new) }
        ensures needs_no_memory { result ≢ Err OutOfMemory }
    {
        let rest = opened(self.rest, self.place, b'[')?;
        self.rest = rest;
        self.place = Place::Fresh;
        Ok(())
    }

    /// Takes the bracket that closes a list, if it is next.
    pub(crate) fn take_end_array(&mut self) -> bool
        ensures taken { OnTrue result (after_end_array self.old ≡ Some self.new) }
        ensures unchanged { OnFalse result (self.new ≡ self.old) }
    {
        let Some(rest) = behind_blanks_and(self.rest, b']') else {
            return false;
        };
        self.rest = rest;
        self.place = Place::AfterValue;
        true
    }

    /// Takes the bracket that closes a list.
    pub(crate) fn end_items(&mut self) -> Result<(), DumpError>
        ensures taken { OnOk result (after_end_array self.old ≡ Some self.new) }
        ensures needs_no_memory { result ≢ Err OutOfMemory }
    {
        if self.take_end_array() {
            Ok(())
        } else {
            Err(DumpError::NotADump)
        }
    }

    /// Takes the name of a member, with its colon, if it is next. Each byte of the name stands for itself.
    #[inline(always)]
    pub(crate) fn take_name(&mut self, name: &[u8]) -> bool
        requires { list_all is_plain_byte name.now ≡ true }
        ensures taken { OnTrue result (self.old ≡ key name.now ∷ self.new) }
        ensures unchanged { OnFalse result (self.new ≡ self.old) }
    {
        let Ok(quoted) = opened(self.rest, self.place, b'"') else {
            return false;
        };
        let Some(rest) = behind_name(quoted, name) else {
            return false;
        };
        self.rest = rest;
        self.place = Place::Fresh;
        true
    }

    /// Takes a string. It is lent from the text where each of its bytes stands for itself there.
    pub(crate) fn text(&mut self, alloc: Global) -> Result<CowSlice<'a, u8>, DumpError>
        ensures { IfOk result (λ text. self.old ≡ string (cow_slice_items text) ∷ self.new) }
    {
        let quoted = opened(self.rest, self.place, b'"')?;
        let (text, rest) = string(alloc, &mut self.scratch, quoted)?;
        if !ends_value(rest) {
            return Err(DumpError::NotADump);
        }
        self.rest = rest;
        self.place = Place::AfterValue;
        Ok(text)
    }

    /// Takes a number below 2^64 that is written in digits alone.
    pub(crate) fn number(&mut self) -> Result<u64, DumpError>
        ensures taken { IfOk result (λ value. Tells number_in 0 self.old value self.new) }
        ensures needs_no_memory { result ≢ Err OutOfMemory }
    {
        let Some(begun) = begun(self.rest, self.place) else {
            return Err(DumpError::NotADump);
        };
        let end = digits_end(begun);
        let rest = &begun[end..];
        if !ends_value(rest) {
            return Err(DumpError::NotADump);
        }
        let Ok(value) = number_up_to(&begun[..end], u64::MAX) else {
            return Err(DumpError::NotADump);
        };
        self.rest = rest;
        self.place = Place::AfterValue;
        Ok(value)
    }

    /// Whether nothing comes any more, but for blanks.
    pub(crate) fn is_over(&self) -> bool
        ensures { OnTrue result (self.now ≡ []) }
    {
        behind_blanks(self.rest).is_empty()
    }
}

/// The bytes behind the mark with which a value or a name begins.
#[inline(always)]
fn opened(bytes: &[u8], place: Place, mark: u8) -> Result<&[u8], DumpError>
    ensures begun { IfOk result (λ rest. IsBegun place bytes.now (mark ∷ rest.now)) }
    ensures needs_no_memory { result ≢ Err OutOfMemory }
{
    let Some(begun) = begun(bytes, place) else {
        return Err(DumpError::NotADump);
    };
    match behind(begun, mark) {
        Some(rest) => Ok(rest),
        None => Err(DumpError::NotADump),
    }
}

/// The bytes with which a value or a name may begin, behind blanks: at once, or behind a comma.
fn begun(bytes: &[u8], place: Place) -> Option<&[u8]>
    ensures { IfSome result (λ begun. IsBegun place bytes.now begun.now) }
{
    match place {
        Place::Fresh => Some(behind_blanks(bytes)),
        Place::AfterValue => {
            let rest = behind_blanks_and(bytes, b',')?;
            Some(behind_blanks(rest))
        }
    }
}

/// The bytes behind the mark, if it comes first but for blanks.
fn behind_blanks_and(bytes: &[u8], mark: u8) -> Option<&[u8]>
    ensures { IfSome result (λ rest. behind_blanks bytes.now ≡ mark ∷ rest.now) }
{
    behind(behind_blanks(bytes), mark)
}

/// The bytes behind blanks. The program writes none, so that most often one comparison is all.
#[inline(always)]
fn behind_blanks(bytes: &[u8]) -> &[u8]
    ensures { result.now ≡ behind_blanks bytes.now }
{
    let Some(first) = bytes.first() else {
        return bytes;
    };
    if b' ' < *first {
        return bytes;
    }
    behind_each_blank(bytes)
}

/// The same, blank by blank. It stands apart, so that the way without blanks stays short.
#[inline(never)]
fn behind_each_blank(bytes: &[u8]) -> &[u8]
    ensures { result.now ≡ behind_blanks bytes.now }
{
    let mut left = bytes;
    while let Some(rest) = behind_blank(left) {
        left = rest;
    }
    left
}

/// The bytes behind a blank, if one comes first.
fn behind_blank(bytes: &[u8]) -> Option<&[u8]>
    ensures none { result ≡ None → behind_blanks bytes.now ≡ bytes.now }
    ensures one { IfSome result (λ rest. behind_blanks bytes.now ≡ behind_blanks rest.now) }
    ensures shorter { IfSome result (λ rest. length rest.now < length bytes.now) }
{
    let (first, rest) = bytes.split_first()?;
    if is_blank(*first) { Some(rest) } else { None }
}

fn is_blank(byte: u8) -> bool
    ensures { result ≡ is_space byte }
{
    byte == b' ' || byte == b'\t' || byte == b'\n' || byte == b'\r'
}

/// The bytes behind the mark, if it comes first.
fn behind(bytes: &[u8], mark: u8) -> Option<&[u8]>
    ensures { IfSome result (λ rest. bytes.now ≡ mark ∷ rest.now) }
{
    let (first, rest) = bytes.split_first()?;
    if *first == mark { Some(rest) } else { None }
}

/// The bytes behind a name, its quotation mark and its colon, if these come first.
#[inline(always)]
fn behind_name<'a>(bytes: &'a [u8], name: &[u8]) -> Option<&'a [u8]>
    ensures { IfSome result (λ rest. IsNamed bytes.now name.now rest.now) }
{
    let unnamed = behind_all(bytes, name)?;
    let unquoted = behind(unnamed, b'"')?;
    behind_blanks_and(unquoted, b':')
}

/// The bytes behind these marks, if they come first.
#[inline(always)]
fn behind_all<'a>(bytes: &'a [u8], marks: &[u8]) -> Option<&'a [u8]>
    ensures { IfSome result (λ rest. bytes.now ≡ marks.now ++ rest.now) }
{
    let mut rest = bytes;
    for mark in marks {
        rest = behind(rest, *mark)?;
    }
    Some(rest)
}

/// The string whose first quotation mark stands before these bytes, and what comes behind its last one.
fn string<'a>(
    alloc: Global,
    scratch: &mut Vec<u8>,
    bytes: &'a [u8],
) -> Result<(CowSlice<'a, u8>, &'a [u8]), DumpError>
    ensures { IfOk result (λ parts. IsQuoted bytes.now (cow_slice_items parts.0) parts.1.now) }
{
    let Some(end) = memchr(b'"', bytes) else {
        return Err(DumpError::NotADump);
    };
    let text = &bytes[..end];
    if are_plain(text) {
        return Ok((CowSlice::Borrowed(text), &bytes[end + 1..]));
    }
    let rest = unescape(bytes, scratch)?;
    let text = scratch.to_vec(alloc)?;
    Ok((CowSlice::Owned(text), rest))
}

/// The bytes of such a string in which some are escaped, part by part, and what comes behind it. It stands apart, as few strings are
/// so.
#[inline(never)]
fn unescape<'a>(bytes: &'a [u8], text: &mut Vec<u8>) -> Result<&'a [u8], DumpError>
    ensures { IfOk result (λ rest. IsQuoted bytes.now text.new.items rest.now) }
{
    text.clear();
    let mut left = bytes;
    while let Some((part, byte, rest)) = up_to_escape(left) {
        text.extend_from_slice(part)?;
        text.push(byte)?;
        left = rest;
    }
    let Some((part, marked)) = up_to_mark(left) else {
        return Err(DumpError::NotADump);
    };
    text.extend_from_slice(part)?;
    match behind(marked, b'"') {
        Some(rest) => Ok(rest),
        None => Err(DumpError::NotADump),
    }
}

/// The bytes up to the first byte that is escaped, this byte, and what comes behind it.
fn up_to_escape(bytes: &[u8]) -> Option<(&[u8], u8, &[u8])>
    ensures { IfSome result (λ parts. StandsFor bytes.now (parts.0.now ++ parts.1 ∷ []) parts.2.now) }
{
    let (part, marked) = up_to_mark(bytes)?;
    let (byte, rest) = escaped(marked)?;
    Some((part, byte, rest))
}

/// The bytes before the first quotation mark or backslash, each of which stands for itself, and what begins with the mark.
fn up_to_mark(bytes: &[u8]) -> Option<(&[u8], &[u8])>
    ensures { IfSome result (λ parts. StandsFor bytes.now parts.0.now parts.1.now) }
{
    let quote = memchr(b'"', bytes)?;
    let end = memchr(b'\\', &bytes[..quote]).unwrap_or(quote);
    let (part, marked) = bytes.split_at(end);
    if are_plain(part) {
        Some((part, marked))
    } else {
        None
    }
}

/// The byte that is escaped first of all, and what comes behind it: a mark behind a backslash, or a code below 128.
fn escaped(bytes: &[u8]) -> Option<(u8, &[u8])>
    ensures { IfSome result (λ parts. StandsFor bytes.now (parts.0 ∷ []) parts.1.now) }
{
    let marked = behind(bytes, b'\\')?;
    match behind(marked, b'u') {
        Some(digits) => coded(digits),
        None => kept(marked),
    }
}

/// The mark that comes first, which stands for itself behind a backslash, and what comes behind it.
fn kept(bytes: &[u8]) -> Option<(u8, &[u8])>
    ensures { IfSome result (λ parts. StandsFor (92 ∷ bytes.now) (parts.0 ∷ []) parts.1.now) }
{
    let (first, rest) = bytes.split_first()?;
    if keeps_its_meaning(*first) {
        Some((*first, rest))
    } else {
        None
    }
}

/// The byte whose code the first four digits are, if it is below 128, and what comes behind them.
fn coded(bytes: &[u8]) -> Option<(u8, &[u8])>
    ensures { IfSome result (λ parts. StandsFor (92 ∷ 117 ∷ bytes.now) (parts.0 ∷ []) parts.1.now) }
{
    let digits = behind(behind(bytes, b'0')?, b'0')?;
    let (high, digits) = digits.split_first()?;
    let (low, rest) = digits.split_first()?;
    Some((of_digits(*high, *low)?, rest))
}

/// The byte below 128 whose hexadecimal digits these are.
fn of_digits(high: u8, low: u8) -> Option<u8>
    ensures { IfSome result (λ byte. AreDigitsOf byte high low) }
{
    let high = char::from(high).to_digit(16)?;
    let low = char::from(low).to_digit(16)?;
    let code = high * 16 + low;
    if code < 128 { Some(code as u8) } else { None }
}

/// Whether the byte stands for itself behind a backslash too.
fn keeps_its_meaning(byte: u8) -> bool
    ensures { result ≡ keeps_its_meaning byte }
{
    byte == b'"' || byte == b'\\' || byte == b'/'
}

/// Whether each byte stands for itself in a string. Looks at all of them, whatever it finds, so that many can be looked at at
/// once.
fn are_plain(text: &[u8]) -> bool
    ensures { result ≡ list_all is_plain_byte text.now }
{
    let mut all = true;
    for byte in text {
        all &= is_plain(*byte);
    }
    all
}

fn is_plain(byte: u8) -> bool
    ensures { result ≡ is_plain_byte byte }
{
    32 <= byte && byte != b'"' && byte != b'\\'
}

/// The position of the first byte that is no digit, or the length.
fn digits_end(bytes: &[u8]) -> usize
    ensures { result ≤ length bytes.now }
{
    for (position, byte) in bytes.iter().enumerate() {
        if !byte.is_ascii_digit() {
            return position;
        }
    }
    bytes.len()
}

/// Whether a value ends before these bytes: behind blanks comes a comma or a closing mark.
fn ends_value(bytes: &[u8]) -> bool
    ensures { result ≡ ends_value bytes.now }
{
    match behind_blanks(bytes).first() {
        Some(byte) => *byte == b',' || *byte == b']' || *byte == b'}',
        None => false,
    }
}
