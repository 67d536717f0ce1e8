use silo_address::SiloAddress;

/// What a worker passes between lending a letter and preparing its silo's step, while nobody has the lock. Tests hold workers here.
pub trait Gate {
    /// The silo was lent the letter of that number.
    fn between(&self, silo: &SiloAddress, letter: u64);
}

/// A gate that holds nobody.
#[derive(Drop)]
pub struct OpenGate;

impl Gate for OpenGate {
    fn between(&self, _silo: &SiloAddress, _letter: u64) {}
}
