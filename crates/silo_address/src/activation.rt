ghost use Rattle.std.specs.Prelude.{◌≡◌, ◌≢◌, ◌<◌, ◌^◌, ◌↔◌, All, Some, IfOk, IsErrOf, IsTrue, string_bytes};
ghost use Rattle.silo_address.specs.ActivationText.{activation_of, activation_text, read_activation};
ghost use Rattle.silo_address.specs.Marks.{exclamation_mark};
ghost use Rattle.texts.specs.Numeral.{read_number};
ghost use Rattle.silo_address.specs.Silo.{IsSilo};
ghost use Rattle.silo_address.specs.ReadSilo.{read_silo};

use crate::{NumberError, SiloAddress, SiloError};
use std::alloc::{AllocError, Global};
use std::fmt;
use texts::{first_position, number_up_to};
use thiserror::Error;

/// Why a text is no activation: the first fault, in this order.
#[derive(Clone, Copy, Debug, PartialEq, Eq, Error)]
pub enum ActivationError {
    #[error("an activation is written SILO!COUNT")]
    Shape,
    #[error("{0}")]
    Silo(SiloError),
    #[error("{0}")]
    Count(NumberError),
}

/// One activation of a grain: the silo that it is on, and that silo's count of activations when it began.
#[derive(Clone, Copy, Debug, PartialEq, Eq, PartialOrd, Ord, Hash)]
pub struct ActivationId {
    pub silo: SiloAddress,
    pub count: u64,
}

impl ActivationId {
    /// Reads the text `SILO!COUNT`: a silo's text, and a count of at most 2^64 - 1 in decimal without a leading zero.
    pub fn parse(text: &[u8]) -> Result<ActivationId, ActivationError>
        ensures reads { result ≡ read_activation text.now }

        // The one spelling of an activation reads as that activation, and nothing else reads as an activation.
        ensures found { IfOk result (λ activation. text.now ≡ activation_text activation) }
        ensures shape { IsErrOf result ActivationError.Shape ↔ All (λ byte. byte ≢ exclamation_mark) text.now }
        ensures only { (activation : ActivationId) → IsSilo activation.silo → activation.count < 2 ^ 64 → text.now ≡ activation_text activation → result ≡ Ok activation }
    {
        let end = first_position(text, b'!');
        if end < text.len() {
            ActivationId::from_parts(&text[..end], &text[end + 1..])
        } else {
            Err(ActivationError::Shape)
        }
    }

    fn from_parts(silo: &[u8], count: &[u8]) -> Result<ActivationId, ActivationError>
        ensures { result ≡ activation_of (read_silo silo.now) (read_number 18446744073709551615 count.now) }
    {
        let silo = match SiloAddress::parse(silo) {
            Ok(silo) => silo,
            Err(fault) => return Err(ActivationError::Silo(fault)),
        };
        match number_up_to(count, u64::MAX) {
            Ok(count) => Ok(ActivationId { silo, count }),
            Err(fault) => Err(ActivationError::Count(fault)),
        }
    }

    /// The activation's one spelling, `SILO!COUNT`.
    pub fn text(&self, alloc: Global) -> Result<String, AllocError>
        ensures { IfOk result (λ text. string_bytes text ≡ activation_text self.now) }
    {
        self.to_string(alloc)
    }

    /// Whether the two are the same activation.
    pub fn same(&self, other: &ActivationId) -> bool
        ensures { IsTrue result ↔ (self.now ≡ other.now) }
    {
        self == other
    }

    /// The same activation. Ids are copied, never cloned.
    pub fn copy(&self) -> ActivationId
        ensures { result ≡ self.now }
    {
        *self
    }
}

impl fmt::Display for ActivationId {
    ghost output = { λ activation. Some (activation_text activation) };

    fn fmt<W: fmt::Write>(&self, f: &mut fmt::Formatter<W>) -> fmt::Result {
        let silo = self.silo;
        let count = self.count;
        write!(f, "{silo}!{count}")
    }
}
