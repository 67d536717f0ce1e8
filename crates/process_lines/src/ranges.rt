//! Letters that have any number of ranges.

ghost use Rattle.std.specs.Prelude.{IsErrOf};
ghost use Rattle.directory_rules.specs.State as letters;
ghost use Rattle.texts.specs.Words.{words_in};
ghost use Rattle.process_rules.specs.ReadLetter as rule;
ghost use Rattle.process_lines.specs.Made.{OfRanges};
ghost use Rattle.process_lines.specs.ReadAs.{Fails, Reads, head_of, told};
ghost use Rattle.process_lines.specs.Short.{AreSome, LetterTellsList, TellsThem};

use crate::head::Head;
use crate::words::range_word;
use crate::{LineError, LineFault};
use directory_letters::{Body, Letter};
use ring_range::RingRange;
use script_lines::split_word;
use std::alloc::Global;

pub(crate) fn a_survey(
    alloc: Global,
    head: Result<Head, LineFault>,
    words: &[u8],
) -> Result<Letter, LineError>
    ensures reads { Reads (λ letter. letter) result (rule.some_ranges letters.Survey_letter (told head_of head) (words_in words.now)) }
    ensures memory { IsErrOf result LineError.OutOfMemory → LetterTellsList (rule.some_ranges letters.Survey_letter (told head_of head) (words_in words.now)) }
{
    let (head, ranges) = some_ranges(alloc, head, words)?;
    Ok(head.letter(Body::Survey(ranges)))
}

pub(crate) fn an_empty(
    alloc: Global,
    head: Result<Head, LineFault>,
    words: &[u8],
) -> Result<Letter, LineError>
    ensures reads { Reads (λ letter. letter) result (rule.some_ranges letters.Empty_letter (told head_of head) (words_in words.now)) }
    ensures memory { IsErrOf result LineError.OutOfMemory → LetterTellsList (rule.some_ranges letters.Empty_letter (told head_of head) (words_in words.now)) }
{
    let (head, ranges) = some_ranges(alloc, head, words)?;
    Ok(head.letter(Body::Empty(ranges)))
}

/// Ranges, one at least.
#[tactic(auto, using(crate::proofs::EachRange::range_letters))]
fn some_ranges(
    alloc: Global,
    head: Result<Head, LineFault>,
    words: &[u8],
) -> Result<(Head, Vec<RingRange>), LineError>
    ensures reads { (of : OfRanges) → Reads (λ parts. rule.letter_of (head_of parts.0) (of parts.1.items)) result
        (rule.some_ranges of (told head_of head) (words_in words.now)) }
    ensures memory { (of : OfRanges) → TellsThem of → IsErrOf result LineError.OutOfMemory
        → LetterTellsList (rule.some_ranges of (told head_of head) (words_in words.now)) }
{
    let Some(_) = split_word(words) else {
        return Err(LineError::Fault(LineFault::WordCount));
    };
    let head = head?;
    let ranges = ranges_in(alloc, words)?;
    Ok((head, ranges))
}

/// The ranges that the words tell. Memory may run out only where they tell one.
#[tactic(auto, using(crate::proofs::EachRange::range_by_range))]
fn ranges_in(alloc: Global, words: &[u8]) -> Result<Vec<RingRange>, LineError>
    ensures reads { Reads (λ ranges. ranges.items) result (rule.ranges_in (words_in words.now)) }
    ensures memory { IsErrOf result LineError.OutOfMemory → AreSome (rule.ranges_in (words_in words.now)) }
{
    let mut ranges = Vec::new(alloc);
    let mut rest = words;
    'words: while let Some((word, behind)) = split_word(rest) {
        let range = range_word(word)?;
        if ranges.push(range).is_err() {
            return Err(without_memory(behind));
        }
        rest = behind;
    }
    Ok(ranges)
}

/// The first fault of the ranges, else that memory ran out.
#[tactic(auto, using(crate::proofs::EachRange::range_by_range))]
fn without_memory(words: &[u8]) -> LineError
    ensures { Fails result (rule.ranges_in (words_in words.now)) }
{
    let mut rest = words;
    'words: while let Some((word, behind)) = split_word(rest) {
        if let Err(fault) = range_word(word) {
            return LineError::Fault(fault);
        }
        rest = behind;
    }
    LineError::OutOfMemory
}
