//! A silo that answers lines.

ghost use Rattle.std.specs.Prelude.{◌≡◌, ◌++◌, IfOk, OnErr, OnOk};
ghost use Rattle.std.proofs.Common.{arith};
ghost use Rattle.process_rules.specs.ReadLine as rule;
ghost use Rattle.process_rules.specs.Output.{after_last};
ghost use Rattle.process_answers.specs.LineAnswers.{AnswersLine, PlaysOne, most_begun, most_read};
ghost use Rattle.process_answers.specs.TooLong.{plays_as_it_begins};

use crate::fault::write_fault;
use crate::{JoinToken, answer};
use directory_silo::Silo;
use line_loop::LinePlayer;
use process_lines::{LONGEST_LINE, LineError, read_line, unended_fault};
use script_lines::without_return;
use std::alloc::{AllocError, Global};

/// A silo, as far as its process has brought it.
#[derive(Drop)]
pub struct Player {
    pub silo: Silo,
    /// The token that the process was started with, if it was started with one.
    pub token: Option<JoinToken>,
}

/// The silo is dead by a line, whose answer is the last.
#[derive(Clone, Copy, PartialEq, Eq)]
pub struct Dead;

impl Player {
    /// Answers a line that a line feed ended, given without it: does what it asks for, and writes what that prints behind what is
    /// written already; whether the process ends there. Fails only when memory runs out; then nothing is written, and the silo may
    /// have changed.
    pub fn answer_line(
        &mut self,
        alloc: Global,
        line: &[u8],
        out: &mut Vec<u8>,
    ) -> Result<bool, AllocError>
        ensures answered { IfOk result (λ ends. AnswersLine self.old.token self.old.silo line.now out.old.items self.new.silo out.new.items ends) }
        ensures unwritten { OnErr result (out.new.items ≡ out.old.items) }
        ensures token { self.new.token ≡ self.old.token }
    {
        let hashing = self.silo.node().settings().hashing();
        match read_line(alloc, hashing, without_return(line)) {
            Ok(None) => Ok(false),
            Ok(Some(asked)) => answer(alloc, &self.token, &mut self.silo, asked, out),
            Err(LineError::Fault(fault)) => {
                write_fault(out, fault.number())?;
                Ok(false)
            }
            Err(LineError::OutOfMemory) => Err(AllocError),
        }
    }
}

impl LinePlayer for Player {
    type Stop = Dead;

    ghost plays = { λ old _ line ended text stop new. PlaysOne old.token old.silo line ended text stop new.token new.silo };

    ghost MOST_KEPT = { most_begun };

    ghost MOST_READ = { most_read };

    ghost too_long = { λ old new _. plays_as_it_begins old.token new.token old.silo new.silo };

    ghost countable = { Prim.omega arith };

    const MOST_KEPT: usize = LONGEST_LINE + 1;

    const MOST_READ: u64 = 9_223_372_036_854_775_807;

    fn play_line(
        &mut self,
        alloc: Global,
        _number: u64,
        line: &[u8],
        ended: bool,
        out: &mut Vec<u8>,
    ) -> Result<Option<Dead>, AllocError> {
        if !ended {
            tell_unended(line, out)?;
            return Ok(None);
        }
        if self.answer_line(alloc, line, out)? {
            Ok(Some(Dead))
        } else {
            Ok(None)
        }
    }
}

// Tells the fault of what stands behind the last line feed, if anything does.
fn tell_unended(rest: &[u8], out: &mut Vec<u8>) -> Result<(), AllocError>
    ensures told { OnOk result (out.new.items ≡ out.old.items ++ after_last (rule.unended_fault rest.now)) }
    ensures untold { OnErr result (out.new.items ≡ out.old.items) }
{
    match unended_fault(rest) {
        None => Ok(()),
        Some(fault) => write_fault(out, fault.number()),
    }
}
