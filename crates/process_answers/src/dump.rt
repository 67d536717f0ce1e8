//! What `dump` prints of the silo.

#![tactic(auto, using(crate::proofs::Written::line_by_line))]

ghost use Rattle.std.specs.Prelude.{◌≡◌, ◌++◌, [], ◌∷◌, OnOk};
ghost use Rattle.texts.specs.Printed.{text_of_lines};
ghost use Rattle.script_lines.specs.Spaced.{BeginsWith};
ghost use Rattle.process_rules.specs.Show.{dump_line};

use directory_node::listed_node;
use directory_silo::Silo;
use dumps::write_node;
use std::alloc::{AllocError, Global};

/// Writes the silo's object among the nodes of a dump, as a line.
#[tactic(auto, using(crate::proofs::Written::line_by_line), unfolding(process_rules::specs::Show::dump_line))]
pub(crate) fn write_dump(alloc: Global, silo: &Silo, out: &mut Vec<u8>) -> Result<(), AllocError>
    ensures written { OnOk result (out.new.items ≡ out.old.items ++ text_of_lines (dump_line silo.now ∷ [])) }
    ensures kept { BeginsWith out.old.items out.new.items }
{
    let node = listed_node(alloc, &silo.address(), silo.node())?;
    let text = write_node(alloc, &node)?;
    write_line(out, &text)
}

// Writes a whole line.
fn write_line(out: &mut Vec<u8>, line: &[u8]) -> Result<(), AllocError>
    ensures written { OnOk result (out.new.items ≡ out.old.items ++ text_of_lines (line.now ∷ [])) }
    ensures kept { BeginsWith out.old.items out.new.items }
{
    out.extend_from_slice(line)?;
    out.push(b'\n')?;
    Ok(())
}
