ghost use Rattle.std.specs.Prelude.{◌≡◌, IsErrOf, option_map};
ghost use Rattle.process_rules.specs.ReadLine as rule;
ghost use Rattle.process_lines.specs.FaultNumbers.{line_fault_number};
ghost use Rattle.process_lines.specs.ReadAs.{Reads};
ghost use Rattle.process_lines.specs.AskedModel.{asked_of};
ghost use Rattle.process_lines.specs.Memory.{LineNeedsMemory};

use crate::known::asked_under;
use crate::{Asked, LineError, LineFault};
use hash_ring::Hashing;
use script_lines::{is_remark, is_text, split_word};
use std::alloc::Global;

/// How many bytes a line may have, its end not counted.
pub const LONGEST_LINE: usize = 16_777_216;

/// Reads a line of a silo's process, given without its end, grains being hashed so: what it asks for, nothing, or its first
/// fault. Memory may run out only at a join with places, a view with silos, a page or a report that tells an entry, or a letter of any
/// number of ranges, and that it does is told only where the line has no fault (`docs/RULES.md#lines-of-a-silos-process`).
#[tactic(auto, unfolding(process_rules::specs::ReadLine::read_silo_line))]
pub fn read_line<'a>(
    alloc: Global,
    hashing: Hashing,
    line: &'a [u8],
) -> Result<Option<Asked<'a>>, LineError>
    ensures reads { Reads (option_map asked_of) result (rule.read_silo_line hashing line.now) }
    ensures memory { IsErrOf result LineError.OutOfMemory → LineNeedsMemory (rule.read_silo_line hashing line.now) }
{
    if line.len() > LONGEST_LINE {
        return Err(LineError::Fault(LineFault::LineTooLong));
    }
    if !is_text(line) {
        return Err(LineError::Fault(LineFault::NotText));
    }
    let Some((name, words)) = split_word(line) else {
        return Ok(None);
    };
    if is_remark(name) {
        return Ok(None);
    }
    let asked = asked_under(alloc, hashing, name, words)?;
    Ok(Some(asked))
}

/// The fault of what stands behind the last line feed, if anything does: that it is too long, else that no end came, so that
/// it may have been cut. (`docs/RULES.md#lines-of-a-silos-process`)
#[tactic(auto, unfolding(process_rules::specs::ReadLine::unended_fault))]
pub fn unended_fault(line: &[u8]) -> Option<LineFault>
    ensures { option_map line_fault_number result ≡ rule.unended_fault line.now }
{
    if line.is_empty() {
        return None;
    }
    if line.len() > LONGEST_LINE {
        return Some(LineFault::LineTooLong);
    }
    Some(LineFault::Unended)
}
