//! The letters in the mail, told one by one.

#![tactic(auto, using(crate::proofs::Lines::line_by_line))]

ghost use Rattle.std.specs.Prelude.{◌≡◌, ◌++◌, OnOk};
ghost use Rattle.directory_rules.specs.Mail.{letter_of};
ghost use Rattle.script_rules.specs.Output.{printing};
ghost use Rattle.script_rules.specs.Show.{mail_lines};
ghost use Rattle.texts.specs.Printed.{text_of_lines};
ghost use Rattle.script_lines.specs.Spaced.{BeginsWith};
ghost use Rattle.console_command.specs.Commands.{Performs, in_session};
ghost use Rattle.console_command.specs.Reports.{lines_of_letter};

use directory_core::World;
use script_lines::{laws, write_letter};
use std::alloc::AllocError;

/// Writes a line for each letter in the mail, by its number.
pub(crate) fn tell_mail(world: &World, out: &mut Vec<u8>) -> Result<(), AllocError>
    ensures performed { OnOk result (Performs (printing (mail_lines world.now) (in_session world.now)) out.old.items world.now out.new.items) }
    ensures kept { BeginsWith out.old.items out.new.items }
{
    world.whole();
    let sent = world.sent();
    for before in 0..sent {
        tell_letter(world, before + 1, out)?;
    }
    Ok(())
}

// The line of the letter of that number, if it is in the mail.
fn tell_letter(world: &World, number: u64, out: &mut Vec<u8>) -> Result<(), AllocError>
    ensures told { OnOk result (out.new.items ≡ out.old.items ++ text_of_lines (lines_of_letter number (letter_of world.now number))) }
    ensures kept { BeginsWith out.old.items out.new.items }
{
    laws::lines_of_letters_and_places();
    let Some(mailed) = world.letter(number) else {
        return Ok(());
    };
    let letter = mailed.letter();
    write_letter(
        out,
        number,
        letter.kind(),
        &letter.from(),
        &letter.to(),
        letter.version(),
    )
}
