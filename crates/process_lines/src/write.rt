//! Letters, written as lines.

#![tactic(auto, using(script_lines::proofs::WrittenPieces::word_by_word))]

ghost use Rattle.std.specs.Prelude.{◌≡◌, [], ◌∷◌, ◌++◌, OnOk, OnErr, codes};
ghost use Rattle.std.specs.Fmt.{decimal};
ghost use Rattle.hex.specs.Hex.{encode_lower};
ghost use Rattle.silo_address.specs.SiloText.{silo_text};
ghost use Rattle.ring_range.specs.Text.{range_text};
ghost use Rattle.directory_rules.specs.Letter.{kind_of};
ghost use Rattle.directory_letters.specs.LetterModel.{body_of};
ghost use Rattle.script_rules.specs.Lines.{kind_word};
ghost use Rattle.script_lines.specs.Printed.{printed};
ghost use Rattle.script_lines.specs.Spaced.{spaced, BeginsWith};
ghost use Rattle.process_rules.specs.LetterText.{act_words, after_words, body_words, end_word, entries_words, entry_words, letter_line, letter_words, previous_words, ranges_words, reply_words, why_words};

use crate::words::digest_text;
use directory_letters::{Body, Letter};
use directory_rules::{Act, Reply, Why};
use range_recovery::Report;
use ring_range::RingRange;
use script_lines::{
    end_line, kind_word, push_activation, push_grain, push_named, push_number, push_range,
    push_silo, push_word,
};
use seal_snapshot::Page;
use silo_address::{ActivationId, Entry, GrainId};
use std::alloc::AllocError;

/// Writes a letter's line (`docs/RULES.md#lines-of-a-silos-process`). Fails only when memory runs out.
#[tactic(auto, unfolding(process_rules::specs::LetterText::letter_line))]
pub fn write_letter(out: &mut Vec<u8>, letter: &Letter) -> Result<(), AllocError>
    ensures written { OnOk result (out.new.items ≡ out.old.items ++ printed (letter_line letter.now)) }
    ensures unchanged { OnErr result (out.new.items ≡ out.old.items) }
{
    let start = out.len();
    let written = push_letter(out, letter);
    end_line(out, start, written)
}

fn push_letter(out: &mut Vec<u8>, letter: &Letter) -> Result<(), AllocError>
    ensures written { OnOk result (out.new.items ≡ out.old.items ++ spaced (codes "letter" ∷ letter_words letter.now)) }
    ensures kept { BeginsWith out.old.items out.new.items }
{
    push_front(out, letter)?;
    push_body(out, letter.body())?;
    Ok(())
}

/// What stands in front of what the letter says.
fn push_front(out: &mut Vec<u8>, letter: &Letter) -> Result<(), AllocError>
    ensures written { OnOk result (out.new.items ≡ out.old.items ++ spaced
        (codes "letter" ∷ silo_text letter.now.from ∷ silo_text letter.now.to ∷ decimal letter.now.version ∷ kind_word (kind_of letter.now.body) ∷ [])) }
    ensures kept { BeginsWith out.old.items out.new.items }
{
    push_word(out, b"letter")?;
    push_silo(out, &letter.from())?;
    push_silo(out, &letter.to())?;
    push_number(out, letter.version())?;
    push_word(out, kind_word(letter.kind()))?;
    Ok(())
}

/// What the letter says, but for its kind.
fn push_body(out: &mut Vec<u8>, body: &Body) -> Result<(), AllocError>
    ensures written { OnOk result (out.new.items ≡ out.old.items ++ spaced (body_words (body_of body.now))) }
    ensures kept { BeginsWith out.old.items out.new.items }
{
    match body {
        Body::Request(request) => {
            let request = request.request();
            push_request(out, request.number, &request.act)
        }
        Body::Reply { number, reply } => push_numbered_reply(out, *number, reply),
        Body::Ask { range, page } => push_ask(out, range, *page),
        Body::Page(page) => push_page(out, page),
        Body::Missing(range) | Body::Done(range) | Body::Behind(range) | Body::Ahead(range) =>
            push_range(out, range),
        Body::Query { range, after } => push_query(out, range, *after),
        Body::Report(report) => push_report(out, report),
        Body::Survey(ranges) | Body::Empty(ranges) => push_ranges(out, ranges.as_slice()),
        Body::Offer(entry) => push_placed(out, entry),
    }
}

fn push_request(out: &mut Vec<u8>, number: u64, act: &Act) -> Result<(), AllocError>
    ensures written { OnOk result (out.new.items ≡ out.old.items ++ spaced (decimal number ∷ act_words act.now)) }
    ensures kept { BeginsWith out.old.items out.new.items }
{
    push_number(out, number)?;
    push_act(out, act)?;
    Ok(())
}

fn push_act(out: &mut Vec<u8>, act: &Act) -> Result<(), AllocError>
    ensures written { OnOk result (out.new.items ≡ out.old.items ++ spaced (act_words act.now)) }
    ensures kept { BeginsWith out.old.items out.new.items }
{
    match act {
        Act::Register { entry, previous } => push_register(out, entry, previous),
        Act::Deregister { entry } => push_placed(out, entry),
        Act::Find { grain } => push_grain(out, grain),
    }
}

fn push_register(
    out: &mut Vec<u8>,
    entry: &Entry,
    previous: &Option<ActivationId>,
) -> Result<(), AllocError>
    ensures written { OnOk result (out.new.items ≡ out.old.items ++ spaced (entry_words entry.now ++ previous_words previous.now)) }
    ensures kept { BeginsWith out.old.items out.new.items }
{
    push_placed(out, entry)?;
    push_previous(out, previous)?;
    Ok(())
}

/// The activation that is replaced, if there is one.
fn push_previous(out: &mut Vec<u8>, previous: &Option<ActivationId>) -> Result<(), AllocError>
    ensures written { OnOk result (out.new.items ≡ out.old.items ++ spaced (previous_words previous.now)) }
    ensures kept { BeginsWith out.old.items out.new.items }
{
    match previous {
        Some(activation) => push_activation(out, activation),
        None => Ok(()),
    }
}

/// A grain and its activation.
fn push_placed(out: &mut Vec<u8>, entry: &Entry) -> Result<(), AllocError>
    ensures written { OnOk result (out.new.items ≡ out.old.items ++ spaced (entry_words entry.now)) }
    ensures kept { BeginsWith out.old.items out.new.items }
{
    push_grain(out, &entry.grain)?;
    push_activation(out, &entry.activation)?;
    Ok(())
}

/// Entries, one behind the other.
fn push_entries(out: &mut Vec<u8>, entries: &[Entry]) -> Result<(), AllocError>
    ensures written { OnOk result (out.new.items ≡ out.old.items ++ spaced (entries_words entries.now)) }
    ensures kept { BeginsWith out.old.items out.new.items }
{
    for entry in entries {
        push_placed(out, entry)?;
    }
    Ok(())
}

/// Ranges, one behind the other.
fn push_ranges(out: &mut Vec<u8>, ranges: &[RingRange]) -> Result<(), AllocError>
    ensures written { OnOk result (out.new.items ≡ out.old.items ++ spaced (ranges_words ranges.now)) }
    ensures kept { BeginsWith out.old.items out.new.items }
{
    for range in ranges {
        push_range(out, range)?;
    }
    Ok(())
}

fn push_numbered_reply(out: &mut Vec<u8>, number: u64, reply: &Reply) -> Result<(), AllocError>
    ensures written { OnOk result (out.new.items ≡ out.old.items ++ spaced (decimal number ∷ reply_words reply.now)) }
    ensures kept { BeginsWith out.old.items out.new.items }
{
    push_number(out, number)?;
    push_reply(out, reply)?;
    Ok(())
}

fn push_reply(out: &mut Vec<u8>, reply: &Reply) -> Result<(), AllocError>
    ensures written { OnOk result (out.new.items ≡ out.old.items ++ spaced (reply_words reply.now)) }
    ensures kept { BeginsWith out.old.items out.new.items }
{
    match reply {
        Reply::Registered(entry) | Reply::Taken(entry) | Reply::Found(entry) => {
            push_placed(out, entry)
        }
        Reply::Removed | Reply::Absent | Reply::Nothing => Ok(()),
        Reply::Retry(why) => push_why(out, *why),
    }
}

fn push_why(out: &mut Vec<u8>, why: Why) -> Result<(), AllocError>
    ensures written { OnOk result (out.new.items ≡ out.old.items ++ spaced (why_words why)) }
    ensures kept { BeginsWith out.old.items out.new.items }
{
    match why {
        Why::View { seen } => push_named(out, b"601", seen),
        Why::Unsettled => push_word(out, b"602"),
        Why::OldNumber { last } => push_named(out, b"603", last),
        Why::NotOwner => push_word(out, b"604"),
    }
}

fn push_ask(out: &mut Vec<u8>, range: &RingRange, page: u64) -> Result<(), AllocError>
    ensures written { OnOk result (out.new.items ≡ out.old.items ++ spaced (range_text range.now ∷ decimal page ∷ [])) }
    ensures kept { BeginsWith out.old.items out.new.items }
{
    push_range(out, range)?;
    push_number(out, page)?;
    Ok(())
}

fn push_page(out: &mut Vec<u8>, page: &Page) -> Result<(), AllocError>
    ensures written { OnOk result (out.new.items ≡ out.old.items ++ spaced
        (range_text page.now.range ∷ decimal page.now.page ∷ decimal page.now.pages ∷ encode_lower page.now.digest ∷ entries_words page.now.entries)) }
    ensures kept { BeginsWith out.old.items out.new.items }
{
    push_page_front(out, page)?;
    push_entries(out, page.entries())?;
    Ok(())
}

/// What a page says of its snapshot.
fn push_page_front(out: &mut Vec<u8>, page: &Page) -> Result<(), AllocError>
    ensures written { OnOk result (out.new.items ≡ out.old.items ++ spaced
        (range_text page.now.range ∷ decimal page.now.page ∷ decimal page.now.pages ∷ encode_lower page.now.digest ∷ [])) }
    ensures kept { BeginsWith out.old.items out.new.items }
{
    push_range(out, &page.range())?;
    push_number(out, page.page())?;
    push_number(out, page.pages())?;
    push_word(out, &digest_text(&page.digest()))?;
    Ok(())
}

fn push_query(
    out: &mut Vec<u8>,
    range: &RingRange,
    after: Option<GrainId>,
) -> Result<(), AllocError>
    ensures written { OnOk result (out.new.items ≡ out.old.items ++ spaced (range_text range.now ∷ after_words after)) }
    ensures kept { BeginsWith out.old.items out.new.items }
{
    push_range(out, range)?;
    push_after(out, after)?;
    Ok(())
}

/// The grain behind which is asked or told, if there is one.
fn push_after(out: &mut Vec<u8>, after: Option<GrainId>) -> Result<(), AllocError>
    ensures written { OnOk result (out.new.items ≡ out.old.items ++ spaced (after_words after)) }
    ensures kept { BeginsWith out.old.items out.new.items }
{
    match after {
        Some(grain) => push_grain(out, &grain),
        None => Ok(()),
    }
}

/// Whether a report is its silo's last.
fn end_word(last: bool) -> &'static [u8]
    ensures { result.now ≡ end_word last }
{
    if last { b"last" } else { b"more" }
}

fn push_report(out: &mut Vec<u8>, report: &Report) -> Result<(), AllocError>
    ensures written { OnOk result (out.new.items ≡ out.old.items ++ spaced
        (range_text report.now.range ∷ (after_words report.now.after ++ (end_word report.now.last ∷ entries_words report.now.entries)))) }
    ensures kept { BeginsWith out.old.items out.new.items }
{
    push_range(out, &report.range())?;
    push_after(out, report.after())?;
    push_word(out, end_word(report.is_last()))?;
    push_entries(out, report.entries())?;
    Ok(())
}
