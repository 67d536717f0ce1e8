//! The word for each kind, effect, status and phase.

ghost use Rattle.std.specs.Prelude.{◌≡◌, ◌∷◌};
ghost use Rattle.script_rules.specs.Lines.{kind_word, effect_words};
ghost use Rattle.script_rules.specs.Show.{phase_word, status_word};
ghost use Rattle.script_lines.specs.Effects.{second_words};

use directory_rules::{Effect, LetterKind, Phase};
use membership_view::Status;

/// The word for a kind of letter.
pub fn kind_word(kind: LetterKind) -> &'static [u8]
    ensures { result.now ≡ kind_word kind }
{
    match kind {
        LetterKind::Register => b"register",
        LetterKind::Deregister => b"deregister",
        LetterKind::Find => b"find",
        LetterKind::Registered => b"registered",
        LetterKind::Taken => b"taken",
        LetterKind::Removed => b"removed",
        LetterKind::Absent => b"absent",
        LetterKind::Found => b"found",
        LetterKind::Nothing => b"nothing",
        LetterKind::Retry => b"retry",
        LetterKind::Ask => b"ask",
        LetterKind::Page => b"page",
        LetterKind::Missing => b"missing",
        LetterKind::Done => b"done",
        LetterKind::Query => b"query",
        LetterKind::Report => b"report",
        LetterKind::Survey => b"survey",
        LetterKind::Empty => b"empty",
        LetterKind::Behind => b"behind",
        LetterKind::Ahead => b"ahead",
        LetterKind::Offer => b"offer",
    }
}

/// The first word for an effect.
pub(crate) fn effect_word(effect: &Effect) -> &'static [u8]
    ensures { result.now ∷ second_words effect.now ≡ effect_words effect.now }
{
    match effect {
        Effect::Next => b"next",
        Effect::Skip => b"skip",
        Effect::Started(_) => b"started",
        Effect::Closing(_) => b"closing",
        Effect::Cancelled(_) => b"cancelled",
        Effect::Offered { .. } => b"offered",
        Effect::Cached(_) => b"cached",
        Effect::Finding(_) => b"finding",
        Effect::Forgot(_) => b"forgot",
        Effect::NothingCached(_) | Effect::Nothing => b"nothing",
        Effect::Nudged => b"nudged",
        Effect::Registered => b"registered",
        Effect::Taken => b"taken",
        Effect::Removed => b"removed",
        Effect::Absent => b"absent",
        Effect::Found => b"found",
        Effect::Retry(_) => b"retry",
        Effect::Firm => b"firm",
        Effect::Yielded => b"yielded",
        Effect::Ended => b"ended",
        Effect::Learnt => b"learnt",
        Effect::Noted => b"noted",
        Effect::Ignored => b"ignored",
        Effect::Page => b"page",
        Effect::Missing => b"missing",
        Effect::Behind => b"behind",
        Effect::Ahead => b"ahead",
        Effect::Installed => b"installed",
        Effect::Gathering => b"gathering",
        Effect::Refused(_) => b"refused",
        Effect::Recovering => b"recovering",
        Effect::Deleted => b"deleted",
        Effect::Report => b"report",
        Effect::More => b"more",
        Effect::Complete => b"complete",
    }
}

/// The word for a status.
pub fn status_word(status: Status) -> &'static [u8]
    ensures { result.now ≡ status_word status }
{
    match status {
        Status::Active => b"active",
        Status::Leaving => b"leaving",
        Status::Dead => b"dead",
    }
}

/// The word for a phase.
pub(crate) fn phase_word(phase: Phase) -> &'static [u8]
    ensures { result.now ≡ phase_word phase }
{
    match phase {
        Phase::Asking(_) => b"asking",
        Phase::Firm => b"firm",
        Phase::Closing(_) => b"closing",
    }
}
