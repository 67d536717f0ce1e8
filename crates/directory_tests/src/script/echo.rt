//! A player that prints each line as it stands.

ghost use Rattle.std.proofs.Common.{arith};
ghost use Rattle.line_loop.specs.Scripts.{PlaysLine, most_begun, most_read};
ghost use Rattle.line_loop.specs.TooLong.{too_long as plays_as_it_begins};
ghost use Rattle.directory_tests.specs.Echoes.{echoed, long_lines_fault};

use line_loop::{LinePlayer, MOST_BEGUN, MOST_OF_SCRIPT, ScriptLineFault};
use script_lines::{LONGEST_LINE, ScriptFault, without_return, write_fault};
use std::alloc::{AllocError, Global};

#[derive(Drop)]
pub(crate) struct Echo;

impl LinePlayer for Echo {
    type Stop = ScriptLineFault;

    ghost plays = { λ _ number line _ text fault _. PlaysLine echoed echoed number line text fault };

    ghost MOST_KEPT = { most_begun };

    ghost MOST_READ = { most_read };

    ghost too_long = { λ _ _ number line more text _ fault. plays_as_it_begins echoed echoed number line more text fault (long_lines_fault number) };

    ghost countable = { Prim.omega arith };

    const MOST_KEPT: usize = MOST_BEGUN;

    const MOST_READ: u64 = MOST_OF_SCRIPT;

    fn play_line(
        &mut self,
        alloc: Global,
        number: u64,
        line: &[u8],
        _ended: bool,
        out: &mut Vec<u8>,
    ) -> Result<Option<ScriptLineFault>, AllocError> {
        let line = without_return(line);
        if line.len() > LONGEST_LINE {
            let fault = ScriptFault::LineTooLong;
            write_fault(out, number, fault.number())?;
            return Ok(Some(ScriptLineFault {
                line: number,
                fault,
            }));
        }
        let mut text = Vec::from_slice(alloc, line)?;
        text.push(b'\n')?;
        out.extend_from_slice(&text)?;
        Ok(None)
    }
}
