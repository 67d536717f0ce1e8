ghost use Rattle.std.specs.Prelude.{◌≡◌, take, OnOk, OnErr};

use std::alloc::AllocError;

/// Passes on how a writing to the end of a buffer ended. What stands behind the first `start` bytes is taken back if it failed, and
/// else stays (`docs/RULES.md#what-a-script-prints`).
pub fn taken_back_at_error(
    out: &mut Vec<u8>,
    start: usize,
    written: Result<(), AllocError>,
) -> Result<(), AllocError>
    ensures passed_on { result ≡ written }
    ensures kept { OnOk result (out.new.items ≡ out.old.items) }
    ensures taken_back { OnErr result (out.new.items ≡ take start out.old.items) }
{
    if written.is_err() {
        out.truncate(start);
    }
    written
}
