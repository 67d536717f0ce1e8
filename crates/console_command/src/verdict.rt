//! What is said of bytes that should tell a dump.

ghost use Rattle.std.specs.Prelude.{◌≡◌, IfOk, IsTrue, string_bytes};
ghost use Rattle.dump_rules.specs.DumpShape.{is_dump};
ghost use Rattle.dump_rules.specs.Judged.{judged_text};
ghost use Rattle.dump_rules.specs.Judgement.{judgement_of};
ghost use Rattle.console_command.specs.Verdicts.{IsRefusal, IsSaid};

use crate::Checked;
use rebuild_checker::{Dump, DumpError, check, read_dump, verdict_text};
use std::alloc::{AllocError, Global};

/// What is said of the bytes, and how the check ends once it is written: all is right, or not.
pub(crate) fn verdict_on(alloc: Global, bytes: &[u8]) -> Result<(String, Checked), AllocError>
    ensures { IfOk result (λ judged. IsSaid (judged_text bytes.now) (string_bytes judged.0) judged.1) }
{
    match read_dump(alloc, bytes) {
        Ok(dump) => judge_dump(alloc, &dump),
        Err(error) => refuse(alloc, error),
    }
}

// What is said of a dump.
fn judge_dump(alloc: Global, dump: &Dump) -> Result<(String, Checked), AllocError>
    requires { IsTrue (is_dump dump.now) }
    ensures { IfOk result (λ judged. IsSaid (judgement_of dump.now) (string_bytes judged.0) judged.1) }
{
    let answer = check(alloc, dump);
    let text = verdict_text(alloc, &answer)?;
    match answer {
        Ok(()) => Ok((text, Checked::Right)),
        Err(_) => Ok((text, Checked::Faulty)),
    }
}

// What is said where no dump was read: the number of the refusal.
fn refuse(alloc: Global, error: DumpError) -> Result<(String, Checked), AllocError>
    ensures { IfOk result (λ judged. IsRefusal error (string_bytes judged.0) judged.1) }
{
    let Some(number) = error.number() else {
        return Err(AllocError);
    };
    let text = format!(in alloc; "check {number}\n")?;
    Ok((text, Checked::Faulty))
}
