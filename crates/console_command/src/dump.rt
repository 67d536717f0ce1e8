//! The dump of a cluster, printed and judged.

#![tactic(auto, using(crate::proofs::Lines::line_by_line))]

ghost use Rattle.std.specs.Prelude.{◌≡◌, ◌++◌, [], ◌∷◌, OnOk, OnErr};
ghost use Rattle.dump_rules.specs.Dump.{dump_of, dump_text};
ghost use Rattle.dump_rules.specs.Verdict.{verdict};
ghost use Rattle.script_rules.specs.Output.{checked, printing};
ghost use Rattle.script_lines.specs.Printed.{printed};
ghost use Rattle.script_lines.specs.Spaced.{BeginsWith};
ghost use Rattle.console_command.specs.Commands.{Performs, in_session};

use directory_core::World;
use rebuild_checker::{check, verdict_text, write_dump};
use std::alloc::{AllocError, Global};

/// Writes the line of the world's dump.
pub(crate) fn tell_dump(alloc: Global, world: &World, out: &mut Vec<u8>) -> Result<(), AllocError>
    ensures performed { OnOk result (Performs (printing (dump_text (dump_of world.now) ∷ []) (in_session world.now)) out.old.items world.now out.new.items) }
    ensures kept { OnErr result (BeginsWith out.old.items out.new.items) }
{
    let dump = world.dump(alloc)?;
    let text = write_dump(alloc, &dump)?;
    write_line(out, &text)
}

/// Judges the world's dump, and writes what is said of it.
pub fn tell_verdict(alloc: Global, world: &World, out: &mut Vec<u8>) -> Result<(), AllocError>
    ensures performed { OnOk result (Performs (checked (verdict (dump_of world.now)) (in_session world.now)) out.old.items world.now out.new.items) }
    ensures kept { OnErr result (BeginsWith out.old.items out.new.items) }
{
    let dump = world.dump(alloc)?;
    let text = verdict_text(alloc, &check(alloc, &dump))?;
    out.extend_from_slice(text.as_bytes())?;
    Ok(())
}

// Writes a whole line.
fn write_line(out: &mut Vec<u8>, line: &[u8]) -> Result<(), AllocError>
    ensures written { OnOk result (out.new.items ≡ out.old.items ++ printed line.now) }
    ensures kept { BeginsWith out.old.items out.new.items }
{
    out.extend_from_slice(line)?;
    out.push(b'\n')?;
    Ok(())
}
