//! Letters of transfers and recoveries.

ghost use Rattle.std.specs.Prelude.{◌≡◌, [], ◌∷◌, true, IsErrOf};
ghost use Rattle.directory_rules.specs.State as letters;
ghost use Rattle.texts.specs.Words.{words_in};
ghost use Rattle.process_rules.specs.ReadLetter as rule;
ghost use Rattle.process_lines.specs.Made.{OfARange, after_in};
ghost use Rattle.process_lines.specs.ReadAs.{Reads, head_of, told};
ghost use Rattle.process_lines.specs.Short.{LetterTellsList};

use crate::entries::{are_pairs, entries_in};
use crate::head::Head;
use crate::words::{
    FourWords, digest_word, four_words, grain_word, last_word, number_word, range_word,
};
use crate::{LineError, LineFault};
use directory_letters::{Body, Letter};
use range_recovery::Report;
use ring_range::RingRange;
use script_lines::{only_two_words, only_word, split_word};
use seal_snapshot::Page;
use silo_address::GrainId;
use std::alloc::Global;

/// A range and the number of a page.
pub(crate) fn an_ask(head: Result<Head, LineFault>, words: &[u8]) -> Result<Letter, LineFault>
    ensures { told (λ letter. letter) result ≡ rule.an_ask (told head_of head) (words_in words.now) }
{
    let Some((range, page)) = only_two_words(words) else {
        return Err(LineFault::WordCount);
    };
    let head = head?;
    let range = range_word(range)?;
    let page = number_word(page)?;
    Ok(head.letter(Body::Ask { range, page }))
}

/// A range.
fn a_range(head: Result<Head, LineFault>, words: &[u8]) -> Result<(Head, RingRange), LineFault>
    ensures { (of : OfARange) → told (λ parts. rule.letter_of (head_of parts.0) (of parts.1)) result ≡ rule.a_range of (told head_of head) (words_in words.now) }
{
    let Some(range) = only_word(words) else {
        return Err(LineFault::WordCount);
    };
    let head = head?;
    let range = range_word(range)?;
    Ok((head, range))
}

pub(crate) fn a_missing(head: Result<Head, LineFault>, words: &[u8]) -> Result<Letter, LineFault>
    ensures { told (λ letter. letter) result ≡ rule.a_range letters.Missing_letter (told head_of head) (words_in words.now) }
{
    let (head, range) = a_range(head, words)?;
    Ok(head.letter(Body::Missing(range)))
}

pub(crate) fn a_done(head: Result<Head, LineFault>, words: &[u8]) -> Result<Letter, LineFault>
    ensures { told (λ letter. letter) result ≡ rule.a_range letters.Done_letter (told head_of head) (words_in words.now) }
{
    let (head, range) = a_range(head, words)?;
    Ok(head.letter(Body::Done(range)))
}

/// A range, and perhaps the grain behind which is asked.
pub(crate) fn a_query(head: Result<Head, LineFault>, words: &[u8]) -> Result<Letter, LineFault>
    ensures { told (λ letter. letter) result ≡ rule.a_query (told head_of head) (words_in words.now) }
{
    let Some((range, behind)) = split_word(words) else {
        return Err(LineFault::WordCount);
    };
    let Some((after, behind)) = split_word(behind) else {
        return a_first_query(head, range);
    };
    match split_word(behind) {
        None => a_further_query(head, range, after),
        Some(_) => Err(LineFault::WordCount),
    }
}

/// A query from the start of a range on.
fn a_first_query(head: Result<Head, LineFault>, range: &[u8]) -> Result<Letter, LineFault>
    ensures { told (λ letter. letter) result ≡ rule.a_query (told head_of head) (range.now ∷ []) }
{
    let head = head?;
    let range = range_word(range)?;
    let after = None;
    Ok(head.letter(Body::Query { range, after }))
}

/// A query behind a grain.
fn a_further_query(
    head: Result<Head, LineFault>,
    range: &[u8],
    after: &[u8],
) -> Result<Letter, LineFault>
    ensures { told (λ letter. letter) result ≡ rule.a_query (told head_of head) (range.now ∷ after.now ∷ []) }
{
    let head = head?;
    let range = range_word(range)?;
    let after = Some(grain_word(after)?);
    Ok(head.letter(Body::Query { range, after }))
}

pub(crate) fn a_behind(head: Result<Head, LineFault>, words: &[u8]) -> Result<Letter, LineFault>
    ensures { told (λ letter. letter) result ≡ rule.a_range letters.Behind_letter (told head_of head) (words_in words.now) }
{
    let (head, range) = a_range(head, words)?;
    Ok(head.letter(Body::Behind(range)))
}

pub(crate) fn an_ahead(head: Result<Head, LineFault>, words: &[u8]) -> Result<Letter, LineFault>
    ensures { told (λ letter. letter) result ≡ rule.a_range letters.Ahead_letter (told head_of head) (words_in words.now) }
{
    let (head, range) = a_range(head, words)?;
    Ok(head.letter(Body::Ahead(range)))
}

/// A range, the number of a page, how many there are, the digest of all, and the entries.
#[tactic(auto, using(crate::proofs::Forms::fronts))]
pub(crate) fn a_page(
    alloc: Global,
    head: Result<Head, LineFault>,
    words: &[u8],
) -> Result<Letter, LineError>
    ensures reads { Reads (λ letter. letter) result (rule.a_page (told head_of head) (words_in words.now)) }
    ensures memory { IsErrOf result LineError.OutOfMemory → LetterTellsList (rule.a_page (told head_of head) (words_in words.now)) }
{
    let Some(front) = four_words(words) else {
        return Err(LineError::Fault(LineFault::WordCount));
    };
    if !are_pairs(front.behind) {
        return Err(LineError::Fault(LineFault::WordCount));
    }
    page_of(alloc, head, &front)
}

/// A page whose entries are pairs of words.
fn page_of(
    alloc: Global,
    head: Result<Head, LineFault>,
    front: &FourWords<'_>,
) -> Result<Letter, LineError>
    ensures reads { Reads (λ letter. letter) result
        (rule.page_for true (told head_of head) front.now.first.now front.now.second.now front.now.third.now front.now.fourth.now (words_in front.now.behind.now)) }
    ensures memory { IsErrOf result LineError.OutOfMemory → LetterTellsList
        (rule.page_for true (told head_of head) front.now.first.now front.now.second.now front.now.third.now front.now.fourth.now (words_in front.now.behind.now)) }
{
    let head = head?;
    let range = range_word(front.first)?;
    let page = number_word(front.second)?;
    let pages = number_word(front.third)?;
    let digest = digest_word(front.fourth)?;
    let entries = entries_in(alloc, front.behind)?;
    let page = Page::new(head.version, range, page, pages, digest, entries);
    Ok(head.letter(Body::Page(page)))
}

/// A range, perhaps the grain behind which is told, whether it is the silo's last, and the entries. The grain stands there where the words
/// behind the range are pairs.
#[tactic(auto, using(crate::proofs::Forms::reports))]
pub(crate) fn a_report(
    alloc: Global,
    head: Result<Head, LineFault>,
    words: &[u8],
) -> Result<Letter, LineError>
    ensures reads { Reads (λ letter. letter) result (rule.a_report (told head_of head) (words_in words.now)) }
    ensures memory { IsErrOf result LineError.OutOfMemory → LetterTellsList (rule.a_report (told head_of head) (words_in words.now)) }
{
    let Some((range, behind)) = split_word(words) else {
        return Err(LineError::Fault(LineFault::WordCount));
    };
    let Some((first, others)) = split_word(behind) else {
        return Err(LineError::Fault(LineFault::WordCount));
    };
    if !are_pairs(behind) {
        return report_of(alloc, head, range, Ok(None), first, others);
    }
    let Some((last, entries)) = split_word(others) else {
        return Err(LineError::Fault(LineFault::WordCount));
    };
    report_of(alloc, head, range, after_word(first), last, entries)
}

/// The grain behind which is told.
fn after_word(word: &[u8]) -> Result<Option<GrainId>, LineFault>
    ensures { told (λ after. after) result ≡ after_in word.now }
{
    let grain = grain_word(word)?;
    Ok(Some(grain))
}

/// A report whose entries are pairs of words.
fn report_of(
    alloc: Global,
    head: Result<Head, LineFault>,
    range: &[u8],
    after: Result<Option<GrainId>, LineFault>,
    last: &[u8],
    entries: &[u8],
) -> Result<Letter, LineError>
    ensures reads { Reads (λ letter. letter) result
        (rule.report_behind (told head_of head) range.now (told (λ after. after) after) last.now (words_in entries.now)) }
    ensures memory { IsErrOf result LineError.OutOfMemory → LetterTellsList
        (rule.report_behind (told head_of head) range.now (told (λ after. after) after) last.now (words_in entries.now)) }
{
    let head = head?;
    let range = range_word(range)?;
    let after = after?;
    let last = last_word(last)?;
    let entries = entries_in(alloc, entries)?;
    let report = Report::new(head.version, range, head.from, after, entries, last);
    Ok(head.letter(Body::Report(report)))
}
