//! Who is who in a cluster: silos, grains, and the activations of grains on silos.
#![tactic(auto)]

mod activation;
mod entry;
mod grain;
pub mod laws;
mod silo;
mod spelled;
mod words;

pub use activation::{ActivationError, ActivationId};
pub use entry::Entry;
pub use grain::{GrainError, GrainId};
pub use silo::{SiloAddress, SiloError};
pub use texts::NumberError;
