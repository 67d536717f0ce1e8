//! What is printed of a dump that was checked.

ghost use Rattle.std.specs.Prelude.{IfOk, string_bytes};
ghost use Rattle.rebuild_checker.specs.Faults.{IsLineOf};

use crate::CheckFault;
use std::alloc::{AllocError, Global};

/// The line of what a check answered, with its line feed: `check ok`, or `check`, the number of the fault and its silo or grain. Fails
/// only when memory runs out, and where it ran out in the check.
pub fn verdict_text(alloc: Global, answer: &Result<(), CheckFault>) -> Result<String, AllocError>
    ensures { IfOk result (λ text. IsLineOf answer.now (string_bytes text)) }
{
    match answer {
        Ok(()) => format!(in alloc; "check ok\n"),
        Err(fault) => match fault.number() {
            Some(_) => format!(in alloc; "check {fault}\n"),
            None => Err(AllocError),
        },
    }
}
