use crate::fault::Fault;
use silo_address::{GrainId, SiloAddress};
use std::alloc::Global;

/// From the number of a grain to that of the next one, where they come from all over the circle.
pub(crate) const STRIDE: u64 = 40_503;

/// The silo of a number; a higher number has a higher address.
pub(crate) fn silo(alloc: Global, number: u64) -> Result<SiloAddress, Fault> {
    let (high, low) = (number / 200, number % 200);
    let text = format!(in alloc; "10.0.{high}.{low}:1000@1")?;
    Ok(SiloAddress::parse(text.as_bytes())?)
}

/// The places of so many points, from a first one on, so far from one another.
pub(crate) fn places(alloc: Global, points: u32, first: u32, step: u32) -> Result<Vec<u32>, Fault> {
    let mut places = Vec::with_capacity(alloc, points as usize)?;
    for number in 0..points {
        places.push(first.wrapping_add(number.wrapping_mul(step)))?;
    }
    Ok(places)
}

// The grain of a number. Its key states a hash; those of one number after another lie all over the circle.
fn grain(alloc: Global, number: u64) -> Result<GrainId, Fault> {
    let hash = number.wrapping_mul(2_654_435_761).wrapping_add(12_345) & 0xffff_ffff;
    let text = format!(in alloc; "user/grain-{number}#{hash}")?;
    Ok(GrainId::parse(text.as_bytes())?)
}

/// In which order grains have their turns.
#[derive(Clone, Copy)]
pub(crate) struct Order {
    /// The least number of a grain.
    pub(crate) from: u64,
    /// How many grains there are.
    pub(crate) among: u64,
    /// From the number of a grain to that of the next one.
    pub(crate) stride: u64,
}

impl Order {
    /// The grains of so many turns from a first one on.
    pub(crate) fn grains(
        &self,
        alloc: Global,
        first: u64,
        turns: u64,
    ) -> Result<Vec<GrainId>, Fault> {
        let mut grains = Vec::new(alloc);
        for step in 0..turns {
            grains.push(self.grain(alloc, first.wrapping_add(step))?)?;
        }
        Ok(grains)
    }

    /// The grain of a turn.
    pub(crate) fn grain(&self, alloc: Global, turn: u64) -> Result<GrainId, Fault> {
        grain(alloc, self.number(turn))
    }

    fn number(&self, turn: u64) -> u64 {
        let step = turn.wrapping_mul(self.stride).checked_rem(self.among);
        self.from.wrapping_add(step.unwrap_or(0))
    }
}
