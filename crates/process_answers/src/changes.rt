//! Changes of membership that the silo is told, and what is said of them.

#![tactic(auto, using(crate::proofs::Outcomes::outcome_by_outcome))]

ghost use Rattle.std.specs.Prelude.{◌≡◌, ◌++◌, IfOk, IsOk, OnErr, OnOk, [], ◌∷◌, codes};
ghost use Rattle.std.specs.Fmt.{decimal};
ghost use Rattle.texts.specs.Words.{sentence};
ghost use Rattle.directory_node.specs.Follows.{Follows};
ghost use Rattle.silo_rules.specs.Told.{told};
ghost use Rattle.directory_silo.specs.AnswerModel.{heard_as};
ghost use Rattle.directory_silo.specs.Numbers.{silo_refusal_number};
ghost use Rattle.script_rules.specs.Lines.{happening_words};
ghost use Rattle.script_lines.specs.Printed.{printed};
ghost use Rattle.script_lines.specs.Spaced.{BeginsWith};
ghost use Rattle.process_rules.specs.Answer.{told_so};
ghost use Rattle.process_rules.specs.Happened.{made_words, news_words};
ghost use Rattle.process_answers.specs.Answering.{IsAnswered};
ghost use Rattle.process_answers.specs.ChangeModel.{change_of};
ghost use Rattle.process_answers.specs.Ending.{EndsAsDead};

use crate::lines::{write_happening, write_refused};
use directory_rules::Happening;
use directory_silo::{News, Silo, SiloRefusal};
use membership_view::Status;
use script_lines::{end_line, push_named};
use silo_address::SiloAddress;
use std::alloc::AllocError;

/// A change of membership.
#[derive(Drop)]
pub(crate) enum Change<'a> {
    /// This silo joined, with the places stated for it.
    Join {
        silo: &'a SiloAddress,
        places: &'a [u32],
    },
    /// This one began to leave.
    Leave(&'a SiloAddress),
    /// This one died.
    Die(&'a SiloAddress),
}

/// The silo is told a change, and the version that it made. Writes the change, that it was known, or its refusal, and behind the
/// first two that the silo is Dead, where it is; whether the process ends, since the silo is Dead.
pub(crate) fn answer_change(
    silo: &mut Silo,
    version: u64,
    change: &Change<'_>,
    out: &mut Vec<u8>,
) -> Result<bool, AllocError>
    ensures answered { IfOk result (IsAnswered (told_so version (change_of change.now) silo.old) out.old.items silo.new out.new.items) }
    ensures kept { BeginsWith out.old.items out.new.items }
{
    match tell(silo, version, change) {
        Ok(news) => {
            write_news(out, version, change, news)?;
            end_if_dead(silo.status(), out)
        }
        Err(refusal) => {
            write_refused(out, refusal)?;
            Ok(false)
        }
    }
}

// One call of the silo a change.
fn tell(silo: &mut Silo, version: u64, change: &Change<'_>) -> Result<News, SiloRefusal>
    ensures told { Follows (heard_as silo.new) silo_refusal_number IsOk (told silo.old.node.settings silo.old.membership version (change_of change.now)) result }
    ensures node { silo.new.node ≡ silo.old.node }
    ensures unchanged { OnErr result (silo.new ≡ silo.old) }
{
    match change {
        Change::Join {
            silo: joined,
            places,
        } => silo.joined(version, **joined, places),
        Change::Leave(leaving) => silo.leaving(version, leaving),
        Change::Die(dead) => silo.dead(version, dead),
    }
}

// The line of a change that was told.
fn write_news(
    out: &mut Vec<u8>,
    version: u64,
    change: &Change<'_>,
    news: News,
) -> Result<(), AllocError>
    ensures written { OnOk result (out.new.items ≡ out.old.items ++ printed (sentence (news_words version (change_of change.now) news))) }
    ensures kept { BeginsWith out.old.items out.new.items }
{
    match news {
        News::Known => write_known(out, version),
        News::Made => write_happening(out, made(version, change, None)),
        News::Replaced(old) => write_happening(out, made(version, change, Some(old))),
    }
}

// The line of a change that was known.
fn write_known(out: &mut Vec<u8>, version: u64) -> Result<(), AllocError>
    ensures written { OnOk result (out.new.items ≡ out.old.items ++ printed (sentence (codes "known" ∷ decimal version ∷ []))) }
    ensures kept { BeginsWith out.old.items out.new.items }
{
    let start = out.len();
    let written = push_named(out, b"known", version);
    end_line(out, start, written)
}

// What happened where the change was made.
fn made(version: u64, change: &Change<'_>, replaced: Option<SiloAddress>) -> Happening
    ensures { happening_words result ≡ made_words version (change_of change.now) replaced }
{
    match change {
        Change::Join { silo, .. } => Happening::Joined {
            version,
            silo: **silo,
            replaced,
        },
        Change::Leave(silo) => Happening::Left {
            version,
            silo: **silo,
        },
        Change::Die(silo) => Happening::Died {
            version,
            silo: **silo,
        },
    }
}

// A silo that is Dead says so, and then the process ends.
fn end_if_dead(status: Option<Status>, out: &mut Vec<u8>) -> Result<bool, AllocError>
    ensures ended { IfOk result (EndsAsDead status out.old.items out.new.items) }
    ensures kept { BeginsWith out.old.items out.new.items }
{
    match status {
        Some(Status::Dead) => {
            out.extend_from_slice(b"dead\n")?;
            Ok(true)
        }
        Some(Status::Active | Status::Leaving) | None => Ok(false),
    }
}
