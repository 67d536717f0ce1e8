ghost use Rattle.std.specs.Prelude.{◌≡◌, IfOk};
ghost use Rattle.ring_range.specs.Cut.{cut_steps, cut_parts, IsCut};

use super::{RingRange, distance};
use std::alloc::{AllocError, Global};
use std::collections::BTreeSet;

impl RingRange {
    /// The parts of the range when it is cut at these places, going forward from its start.
    ///
    /// A place outside the range, a repeated one, or the range's start cuts nothing. A range of size 0
    /// has no parts. The places may be in any order; the time is that of sorting them. Fails only when memory runs out (`docs/RULES.md#the-circle`).
    #[tactic(auto, unfolding(crate::specs::Cut::cut_parts))]
    pub fn cut_at(&self, alloc: Global, places: &[u32]) -> Result<Vec<RingRange>, AllocError>
        ensures exact { IfOk result (λ parts. parts.items ≡ cut_parts self.now places.now) }
        ensures cut { IfOk result (λ parts. IsCut self.now places.now parts.items) }
    {
        let mut parts = Vec::new(alloc);
        if self.size == 0 {
            return Ok(parts);
        }
        let mut from = 0;
        for step in &self.cut_steps(alloc, places)? {
            let to = u64::from(*step);
            parts.push(self.part(from, to))?;
            from = to;
        }
        parts.push(self.part(from, self.size))?;
        Ok(parts)
    }

    // How many steps from the start each cut comes.
    fn cut_steps(&self, alloc: Global, places: &[u32]) -> Result<BTreeSet<u32>, AllocError>
        ensures { IfOk result (λ steps. steps.keys ≡ cut_steps self.now places.now) }
    {
        let mut steps = BTreeSet::new(alloc);
        for place in places {
            let step = distance(self.start, *place);
            if step > 0 && u64::from(step) < self.size {
                steps.insert(step)?;
            }
        }
        Ok(steps)
    }
}
