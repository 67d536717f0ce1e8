ghost use Rattle.std.specs.Prelude.{◌≡◌, IsErrOf};
ghost use Rattle.texts.specs.Words.{words_in};
ghost use Rattle.process_rules.specs.ReadLetter.{form_of, read_letter};
ghost use Rattle.process_lines.specs.ReadAs.{Reads, head_of, told};
ghost use Rattle.process_lines.specs.Short.{LetterTellsList, IsShort};

use crate::head::{Head, read_head};
use crate::kinds::kind_of_word;
use crate::ranges::{a_survey, an_empty};
use crate::replies::{a_found, a_number, a_registered, a_retry, a_taken};
use crate::requests::{a_deregister, a_find, a_register, an_offer};
use crate::transfers::{a_behind, a_done, a_missing, a_page, a_query, a_report, an_ahead, an_ask};
use crate::words::four_words;
use crate::{LineError, LineFault};
use directory_letters::Letter;
use directory_rules::{LetterKind, Reply};
use hash_ring::Hashing;
use std::alloc::Global;

/// Reads what stands behind `letter` in a line, grains being hashed so: the letter, or the first fault. Memory may run out only at a page
/// or a report that tells an entry, and at a letter of any number of ranges; that it does is told only where the line has no fault.
/// (`docs/RULES.md#lines-of-a-silos-process`)
#[tactic(auto, using(crate::proofs::Forms::fronts))]
pub fn read_letter(alloc: Global, hashing: Hashing, words: &[u8]) -> Result<Letter, LineError>
    ensures reads { Reads (λ letter. letter) result (read_letter hashing (words_in words.now)) }
    ensures memory { IsErrOf result LineError.OutOfMemory → LetterTellsList (read_letter hashing (words_in words.now)) }
{
    let Some(front) = four_words(words) else {
        return Err(LineError::Fault(LineFault::WordCount));
    };
    let Some(kind) = kind_of_word(front.fourth) else {
        return Err(LineError::Fault(LineFault::Kind));
    };
    let head = read_head(front.first, front.second, front.third);
    letter_of_kind(alloc, hashing, kind, head, front.behind)
}

/// What stands behind a kind.
#[tactic(auto, using(crate::proofs::Forms::by_kind))]
fn letter_of_kind(
    alloc: Global,
    hashing: Hashing,
    kind: LetterKind,
    head: Result<Head, LineFault>,
    words: &[u8],
) -> Result<Letter, LineError>
    ensures reads { Reads (λ letter. letter) result (form_of hashing kind (told head_of head) (words_in words.now)) }
    ensures memory { IsErrOf result LineError.OutOfMemory → LetterTellsList (form_of hashing kind (told head_of head) (words_in words.now)) }
{
    match kind {
        LetterKind::Page => a_page(alloc, head, words),
        LetterKind::Report => a_report(alloc, head, words),
        LetterKind::Survey => a_survey(alloc, head, words),
        LetterKind::Empty => an_empty(alloc, head, words),
        short => without_list(short_letter(hashing, short, head, words)),
    }
}

/// A letter that needed no memory.
fn without_list(read: Result<Letter, LineFault>) -> Result<Letter, LineError>
    ensures reads { Reads (λ letter. letter) result (told (λ letter. letter) read) }
    ensures never { ¬ (IsErrOf result LineError.OutOfMemory) }
{
    match read {
        Ok(letter) => Ok(letter),
        Err(fault) => Err(LineError::Fault(fault)),
    }
}

/// What stands behind a kind whose letters have no list.
fn short_letter(
    hashing: Hashing,
    kind: LetterKind,
    head: Result<Head, LineFault>,
    words: &[u8],
) -> Result<Letter, LineFault>
    requires { IsShort kind }
    ensures { told (λ letter. letter) result ≡ form_of hashing kind (told head_of head) (words_in words.now) }
{
    match kind {
        LetterKind::Register => a_register(hashing, head, words),
        LetterKind::Deregister => a_deregister(hashing, head, words),
        LetterKind::Find => a_find(hashing, head, words),
        LetterKind::Registered => a_registered(head, words),
        LetterKind::Taken => a_taken(head, words),
        LetterKind::Removed => a_number(head, Reply::Removed, words),
        LetterKind::Absent => a_number(head, Reply::Absent, words),
        LetterKind::Found => a_found(head, words),
        LetterKind::Nothing => a_number(head, Reply::Nothing, words),
        LetterKind::Retry => a_retry(head, words),
        LetterKind::Ask => an_ask(head, words),
        LetterKind::Missing => a_missing(head, words),
        LetterKind::Done => a_done(head, words),
        LetterKind::Query => a_query(head, words),
        LetterKind::Behind => a_behind(head, words),
        LetterKind::Ahead => an_ahead(head, words),
        LetterKind::Offer => an_offer(head, words),
        LetterKind::Page | LetterKind::Report | LetterKind::Survey | LetterKind::Empty => {
            unreachable!()
        }
    }
}
