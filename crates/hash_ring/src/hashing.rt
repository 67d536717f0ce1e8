ghost use Rattle.std.specs.Prelude.{◌≡◌, ◌↔◌, IsTrue};
ghost use Rattle.hash_ring.specs.Hash.{hash_text, hash_grain};

use sha2::{Digest, Sha256};
use silo_address::GrainId;

/// How a cluster hashes: where its points are, and which hash a grain has (`docs/RULES.md#hashes`).
#[derive(Clone, Copy, PartialEq, Eq)]
pub enum Hashing {
    /// Points and grains are hashed by their texts.
    Sha256,
    /// Points are at the places given for them, and a grain's key may state the grain's hash.
    Stated,
}

impl Hashing {
    /// The hash of a grain: under `Stated` the one that its key states, if it states one, and otherwise that of its text.
    pub fn hash_grain(&self, grain: &GrainId) -> u32
        ensures { result ≡ hash_grain self.now grain.now }
    {
        match self {
            Hashing::Sha256 => hash_text(grain.as_bytes()),
            Hashing::Stated => match grain.stated_hash() {
                Some(hash) => hash,
                None => hash_text(grain.as_bytes()),
            },
        }
    }

    /// Whether the two are the same way of hashing.
    pub fn same(&self, other: &Hashing) -> bool
        ensures { IsTrue result ↔ (self.now ≡ other.now) }
    {
        match (self, other) {
            (Hashing::Sha256, Hashing::Sha256) | (Hashing::Stated, Hashing::Stated) => true,
            (Hashing::Sha256, Hashing::Stated) | (Hashing::Stated, Hashing::Sha256) => false,
        }
    }

    /// The same way of hashing.
    pub fn copy(&self) -> Hashing
        ensures { result ≡ self.now }
    {
        *self
    }
}

/// The hash of a text: the first four bytes, big-endian, of its SHA-256.
pub fn hash_text(text: &[u8]) -> u32
    ensures { result ≡ hash_text text.now }
{
    let digest = Sha256::digest(text);
    u32::from_be_bytes([digest[0], digest[1], digest[2], digest[3]])
}
