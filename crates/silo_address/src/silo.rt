ghost use Rattle.std.specs.Option.{SomeIff};
ghost use Rattle.std.specs.Prelude.{◌≡◌, ◌↔◌, Some, Err, IfOk, IsErrOf, IsTrue, string_bytes};
ghost use Rattle.silo_address.specs.Numbers.{silo_error_number};
ghost use Rattle.silo_address.specs.Silo.{IsSameEndpoint, IsSilo, Silo};
ghost use Rattle.silo_address.specs.ReadSilo.{read_silo};
ghost use Rattle.silo_address.specs.SiloText.{AreNumerals, HasSiloShape, HasWords, Words, silo_of, silo_text};

use crate::spelled::spelled;
use crate::words::words;
use std::alloc::{AllocError, Global};
use std::fmt;
use std::marker::Model;
use thiserror::Error;

/// Why a text is no silo: the first fault, in this order (`docs/RULES.md#refusals-and-their-numbers`).
#[derive(Clone, Copy, Debug, PartialEq, Eq, Error)]
pub enum SiloError {
    #[error("a silo is written a.b.c.d:port@generation")]
    Shape,
    #[error("the numbers of a silo are written in decimal digits, without a leading zero")]
    NotANumber,
    #[error("a silo has bytes up to 255, a port from 1 to 65535 and a generation from 1 to 2147483647")]
    OutOfRange,
}

impl SiloError {
    /// The number by which users know the refusal: 101, 102 or 103.
    pub fn number(self) -> u16
        ensures { result ≡ silo_error_number self }
    {
        match self {
            SiloError::Shape => 101,
            SiloError::NotANumber => 102,
            SiloError::OutOfRange => 103,
        }
    }
}

/// A silo: a server process, identified by the IPv4 address and port where it listens, and by its generation, which tells it
/// apart from earlier processes there. Silos are ordered by address, then port, then generation. Stored inline, so it is `Copy`.
#[derive(Clone, Copy, Debug, PartialEq, Eq, PartialOrd, Ord, Hash)]
pub struct SiloAddress {
    ip: [u8; 4],
    port: u16,
    generation: u32,
}

impl Model for SiloAddress {
    ghost use Rattle.silo_address.specs.Silo.{Silo, IsSilo};

    ghost Value = { Silo };

    ghost view = { λ s. record { ip = s.ip; port = s.port; generation = s.generation } };

    ghost invariant = { λ s. IsSilo (record { ip = s.ip; port = s.port; generation = s.generation }) };

    ghost inverse = { λ v. record { ip = v.ip; port = v.port; generation = v.generation } };
}

impl SiloAddress {
    /// Reads the text `a.b.c.d:port@generation`, each number in decimal digits without a leading zero: bytes up to 255,
    /// a port from 1 to 65535, a generation from 1 to 2147483647 (`docs/RULES.md#identities-and-their-texts`).
    pub fn parse(text: &[u8]) -> Result<SiloAddress, SiloError>
        ensures reads { result ≡ read_silo text.now }

        // The one spelling of a silo reads as that silo, and nothing else reads as a silo.
        ensures found { IfOk result (λ silo. text.now ≡ silo_text silo) }
        ensures only { (silo : Silo) → IsSilo silo → text.now ≡ silo_text silo → result ≡ Ok silo }

        // The first fault that holds: in the shape, then in a number, then in a range.
        ensures shape { IsErrOf result SiloError.Shape ↔ ¬ (HasSiloShape text.now) }
        ensures not_a_number { IsErrOf result SiloError.NotANumber ↔ ((words : Words) × HasWords text.now words × ¬ (AreNumerals words)) }
        ensures out_of_range { IsErrOf result SiloError.OutOfRange ↔ ((words : Words) × HasWords text.now words × AreNumerals words × ¬ (IsSilo (silo_of words))) }
    {
        match spelled(text) {
            Some(silo) => Ok(silo),
            None => Err(fault_of(text)),
        }
    }

    /// The silo of these parts: the four bytes of its IP address, a port from 1 to 65535 and a generation from 1 to 2147483647. Parts out
    /// of range are refused as their text would be, by 103 (`docs/RULES.md#identities-and-their-texts`).
    pub fn new(ip: [u8; 4], port: u16, generation: u32) -> Result<SiloAddress, SiloError>
        ensures made { IsSilo (record { ip = ip; port = port; generation = generation }) → result ≡ Ok (record { ip = ip; port = port; generation = generation }) }
        ensures refused { ¬ (IsSilo (record { ip = ip; port = port; generation = generation })) → result ≡ Err SiloError.OutOfRange }
    {
        SiloAddress::from_parts(ip, port, generation).ok_or(SiloError::OutOfRange)
    }

    /// The silo of these parts, if they are in range.
    pub(crate) fn from_parts(ip: [u8; 4], port: u16, generation: u32) -> Option<SiloAddress>
        ensures { SomeIff result (IsSilo (record { ip = ip; port = port; generation = generation })) (record { ip = ip; port = port; generation = generation }) }
    {
        if port == 0 || generation == 0 || generation > 2_147_483_647 {
            return None;
        }
        Some(SiloAddress {
            ip,
            port,
            generation,
        })
    }

    /// The silo's one spelling, `a.b.c.d:port@generation`.
    pub fn text(&self, alloc: Global) -> Result<String, AllocError>
        ensures { IfOk result (λ text. string_bytes text ≡ silo_text self.now) }
    {
        self.to_string(alloc)
    }

    /// The four bytes of the IP address.
    pub fn ip(&self) -> [u8; 4]
        ensures { result ≡ self.now.ip }
    {
        self.ip
    }

    /// The port, from 1 to 65535.
    pub fn port(&self) -> u16
        ensures { result ≡ self.now.port }
    {
        self.port
    }

    /// The generation, from 1 to 2147483647. Each process that starts at an endpoint has a higher one than those before it.
    pub fn generation(&self) -> u32
        ensures { result ≡ self.now.generation }
    {
        self.generation
    }

    /// Whether the two silos have the same endpoint, whatever their generations.
    pub fn same_endpoint(&self, other: &SiloAddress) -> bool
        ensures { IsTrue result ↔ IsSameEndpoint self.now other.now }
    {
        (self.ip, self.port) == (other.ip, other.port)
    }

    /// Whether the two are the same silo.
    pub fn same(&self, other: &SiloAddress) -> bool
        ensures { IsTrue result ↔ (self.now ≡ other.now) }
    {
        self == other
    }

    /// The same silo. Ids are copied, never cloned.
    pub fn copy(&self) -> SiloAddress
        ensures { result ≡ self.now }
    {
        *self
    }

    /// A law: the parts of every silo are in range.
    pub fn in_range(&self)
        ensures { IsSilo self.now }
    {
        let _port = self.port;
    }
}

/// Why a text is no silo's.
#[cold]
#[inline(never)]
fn fault_of(text: &[u8]) -> SiloError
    requires { (silo : Silo) → IsSilo silo → ¬ (text.now ≡ silo_text silo) }
    ensures { Err result ≡ read_silo text.now }
{
    match words(text) {
        Some(words) => {
            if words.are_numerals() {
                SiloError::OutOfRange
            } else {
                SiloError::NotANumber
            }
        }
        None => SiloError::Shape,
    }
}

impl fmt::Display for SiloAddress {
    ghost output = { λ silo. Some (silo_text silo) };

    fn fmt<W: fmt::Write>(&self, f: &mut fmt::Formatter<W>) -> fmt::Result {
        let [first, second, third, fourth] = self.ip;
        let port = self.port;
        let generation = self.generation;
        write!(f, "{first}.{second}.{third}.{fourth}:{port}@{generation}")
    }
}
