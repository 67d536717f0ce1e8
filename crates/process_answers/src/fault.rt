//! The lines that tell faults.

ghost use Rattle.std.specs.Prelude.{◌≡◌, ◌++◌, [], ◌∷◌, OnOk, OnErr};
ghost use Rattle.texts.specs.Printed.{text_of_lines};
ghost use Rattle.process_rules.specs.Output.{fault_line};

use script_lines::{end_line, push_named};
use std::alloc::AllocError;

/// Writes the line that tells a fault by its number (`docs/RULES.md#lines-of-a-silos-process`). Fails only when memory runs out.
pub(crate) fn write_fault(out: &mut Vec<u8>, fault: u16) -> Result<(), AllocError>
    ensures written { OnOk result (out.new.items ≡ out.old.items ++ text_of_lines (fault_line fault ∷ [])) }
    ensures unchanged { OnErr result (out.new.items ≡ out.old.items) }
{
    let start = out.len();
    let written = push_named(out, b"fault", u64::from(fault));
    end_line(out, start, written)
}
