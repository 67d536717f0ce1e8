//! Measures the parts of a node: what is sealed and gathered, hints, a sight, and activations.

mod caches;
mod handing;
mod hosts;
mod sights;
mod stage;

use crate::fault::Fault;

/// How many entries, activations or hints there are.
const COUNT: u64 = 65_536;

pub(crate) fn measure(rt: &HostRuntime) -> Result<(), Fault> {
    handing::measure(rt)?;
    caches::measure(rt)?;
    sights::measure(rt)
}
