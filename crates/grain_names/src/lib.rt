//! Grains under their indices, each with a value: their names stand on the heap, as short as they are.
#![tactic(auto)]

mod grain_map;

pub use grain_map::GrainMap;
