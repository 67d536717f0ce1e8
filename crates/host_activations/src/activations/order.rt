//! The activations in the order in which they began.
ghost use Rattle.std.specs.Prelude.{◌≡◌, IfOk};
ghost use Rattle.std.specs.Map.{values_of};
ghost use Rattle.host_activations.specs.Begun.{AreApart};
ghost use Rattle.host_activations.specs.InOrder.{AreAt, in_order};

use super::Activations;
use crate::kept::{Kept, held_at};
use directory_rules::Held;
use grain_names::GrainMap;
use silo_address::GrainId;
use std::alloc::{AllocError, Global};
use std::collections::BTreeMap;

impl Activations {
    /// All activations, under their grains, in the order in which they began. Costs a sort of all of them. Fails only when
    /// memory runs out.
    pub fn in_order(&self, alloc: Global) -> Result<Vec<(GrainId, Held)>, AllocError>
        ensures { IfOk result (λ list. list.items ≡ self.now.entries) }
    {
        let counted = by_count(alloc, &self.map)?;
        at_indices(alloc, &self.map, &counted)
    }
}

// The indices of the activations under their counts: much less than the activations themselves.
fn by_count(alloc: Global, map: &GrainMap<Kept>) -> Result<BTreeMap<u64, usize>, AllocError>
    requires { AreApart map.now }
    ensures { IfOk result (λ counted. AreAt map.now (values_of counted.entries) (in_order map.now)) }
{
    let mut counted = BTreeMap::new(alloc);
    for index in 0..map.len() {
        let Some((_, held)) = held_at(map, index) else {
            unreachable!();
        };
        let count = held.count;
        counted.insert(count, index)?;
    }
    Ok(counted)
}

// The activations at these indices.
fn at_indices(
    alloc: Global,
    map: &GrainMap<Kept>,
    counted: &BTreeMap<u64, usize>,
) -> Result<Vec<(GrainId, Held)>, AllocError>
    requires { AreAt map.now (values_of counted.now.entries) (in_order map.now) }
    ensures { IfOk result (λ list. list.items ≡ in_order map.now) }
{
    let mut list = Vec::with_capacity(alloc, counted.len())?;
    for index in counted.values() {
        let Some((grain, held)) = held_at(map, *index) else {
            unreachable!();
        };
        list.push((grain, held))?;
    }
    Ok(list)
}
