//! Processes of silos.

ghost use Rattle.std.specs.Prelude.{IfSome};
ghost use Rattle.silo_rules.specs.SiloValue.{first_silo};
ghost use Rattle.line_loop.specs.Endings.{MakesCalls};
ghost use Rattle.console_command.specs.SiloPlay.{AnswersInTurn, WritesAnswers};

use directory_rules::Settings;
use directory_silo::Silo;
use line_loop::{Ended, Sink, Source};
use process_answers::{Dead, JoinToken, Player};
use silo_address::SiloAddress;
use std::alloc::Global;

/// Plays the process of a new silo, with these settings, started with that token, if there is one, as `line_loop::play` does. Its lines
/// come from the reader up to its end, or up to the one by which the silo is dead, and what is answered goes to the writer
/// (`docs/RULES.md#lines-of-a-silos-process`).
pub fn play_new_silo<R: Source, W: Sink>(
    alloc: Global,
    settings: Settings,
    silo: SiloAddress,
    token: Option<JoinToken>,
    reader: &mut R,
    writer: &mut W,
) -> Ended<Dead>
    ensures writes { IfSome (R.remaining reader.old) (λ input.
        WritesAnswers settings silo token input (R.remaining reader.new) (W.contents writer.old) (W.contents writer.new) result) }
    ensures calls { MakesCalls R.reads W.writes (reader.old, writer.old) (reader.new, writer.new) result }
    ensures in_turn { AnswersInTurn R.reads W.writes token (first_silo settings silo) (reader.old, writer.old) (reader.new, writer.new) result }
{
    let Ok(silo) = Silo::new(alloc, settings, silo) else {
        return Ended::OutOfMemory;
    };
    line_loop::play(alloc, &mut Player { silo, token }, reader, writer)
}
