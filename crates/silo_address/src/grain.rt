ghost use Rattle.std.proofs.Common.{rules};
ghost use Rattle.std.specs.Cmp.{partial_equiv_from_equiv, partial_order_from_own_ties};
ghost use Rattle.std.specs.Cmp.Rules.{comparing};
ghost use Rattle.std.specs.Ordering.{as_partial_cmp};
ghost use Rattle.std.specs.List.{position_or_len};
ghost use Rattle.std.specs.Option.{SomeIff};
ghost use Rattle.std.specs.Prelude.{◌≡◌, ◌↔◌, ◌≤◌, ◌<◌, ◌-◌, ◌^◌, ◌++◌, ℕ, List, All, Some, IfOk, IfSome, IsErrOf, IsTrue, [], ◌∷◌, length, replicate, string_bytes};
ghost use Rattle.std.specs.Fmt.{decimal};
ghost use Rattle.silo_address.specs.Marks.{number_sign};
ghost use Rattle.silo_address.specs.StatedHash.{stated_hash};
ghost use Rattle.silo_address.specs.Numbers.{grain_error_number};
ghost use Rattle.silo_address.specs.Grain.{Grain, HasGrainShape, IsCutInto, IsGrain, IsShortEnough, IsVisible, grain_cmp, grain_eq, grain_text};
ghost use Rattle.silo_address.specs.ReadGrain.{grain_within, is_cut, is_slash, read_grain};

use std::alloc::{AllocError, Global};
use std::cmp::Ordering;
use std::fmt;
use std::hash::{Hash, Hasher};
use std::marker::Model;
use texts::{after_last, first_position, number_up_to};
use thiserror::Error;

/// Why a text is no grain: the first fault, in this order (`docs/RULES.md#refusals-and-their-numbers`).
#[derive(Clone, Copy, Debug, PartialEq, Eq, Error)]
pub enum GrainError {
    #[error("a grain is written kind/key, neither of them empty")]
    Shape,
    #[error("a grain's kind has at most 64 bytes and its key at most 128")]
    TooLong,
    #[error("a grain is written in visible ASCII, bytes 33 to 126")]
    Byte,
}

impl GrainError {
    /// The number by which users know the refusal: 111, 112 or 113.
    pub fn number(self) -> u16
        ensures { result ≡ grain_error_number self }
    {
        match self {
            GrainError::Shape => 111,
            GrainError::TooLong => 112,
            GrainError::Byte => 113,
        }
    }
}

/// The most bytes of a kind.
const MOST_KIND: usize = 64;

/// The most bytes of a key.
const MOST_KEY: usize = 128;

/// A grain: one virtual actor, identified by its kind and its key within the kind. Grains are ordered by kind, then key, byte
/// by byte, which is not the order of their texts. Stored inline, so it is `Copy`.
#[derive(Clone, Copy)]
pub struct GrainId {
    kind_len: u8,
    text_len: u8,
    text: [u8; 193],
}

impl Model for GrainId {
    ghost use Rattle.silo_address.specs.Grain.{Grain};

    ghost Value = { Grain };

    ghost use Rattle.silo_address.specs.GrainFields.{HoldsGrain, grain_in, fields_of};
    ghost use Rattle.std.specs.Prelude.{refl};

    ghost view = { grain_in };

    ghost invariant = { HoldsGrain };

    ghost inverse = { fields_of };

    ghost inverse_ok = { λ _ holds. holds.exact };
}

impl GrainId {
    /// Reads the text `kind/key`, split at the first slash: a kind of 1 to 64 bytes and a key of 1 to 128, all of them visible
    /// ASCII.
    pub fn parse(text: &[u8]) -> Result<GrainId, GrainError>
        ensures reads { result ≡ read_grain text.now }

        // The one spelling of a grain reads as that grain, and nothing else reads as a grain.
        ensures found { IfOk result (λ grain. text.now ≡ grain_text grain) }
        ensures only { (grain : Grain) → IsGrain grain → text.now ≡ grain_text grain → result ≡ Ok grain }

        // The first fault that holds: in the shape, then in a length, then in a byte.
        ensures shape { IsErrOf result GrainError.Shape ↔ ¬ (HasGrainShape text.now) }
        ensures too_long { IsErrOf result GrainError.TooLong ↔ ((grain : Grain) × IsCutInto text.now grain × ¬ (IsShortEnough grain)) }
        ensures byte { IsErrOf result GrainError.Byte ↔ ((grain : Grain) × IsCutInto text.now grain × IsShortEnough grain × ¬ (All IsVisible text.now)) }
    {
        match kind_end(text) {
            Some(kind_len) => GrainId::within(text, kind_len),
            None => Err(GrainError::Shape),
        }
    }

    fn within(text: &[u8], kind_len: usize) -> Result<GrainId, GrainError>
        requires is_cut { IsTrue (is_cut text.now) }
        requires kind_len { kind_len ≡ position_or_len is_slash text.now }
        ensures { result ≡ grain_within text.now }
    {
        let key_len = text.len() - kind_len - 1;
        if kind_len > MOST_KIND || key_len > MOST_KEY {
            return Err(GrainError::TooLong);
        }
        if !are_visible(text) {
            return Err(GrainError::Byte);
        }
        Ok(GrainId {
            kind_len: kind_len as u8,
            text_len: text.len() as u8,
            text: padded(text),
        })
    }

    /// The grain's one spelling, `kind/key`, borrowed.
    pub fn as_bytes(&self) -> &[u8]
        ensures text { result.now ≡ grain_text self.now }
        ensures visible { All IsVisible result.now }
    {
        &self.text[..usize::from(self.text_len)]
    }

    /// The grain's one spelling, `kind/key`, borrowed as text.
    pub fn as_str(&self) -> &str
        ensures { result.now ≡ grain_text self.now }
    {
        str::from_utf8(self.as_bytes()).unwrap()
    }

    /// The grain's one spelling, `kind/key`.
    pub fn text(&self, alloc: Global) -> Result<String, AllocError>
        ensures { IfOk result (λ text. string_bytes text ≡ grain_text self.now) }
    {
        String::from_str(alloc, self.as_str())
    }

    /// The kind, 1 to 64 bytes.
    pub fn kind(&self) -> &[u8]
        ensures { result.now ≡ self.now.kind }
    {
        &self.text[..usize::from(self.kind_len)]
    }

    /// The key within the kind, 1 to 128 bytes.
    pub fn key(&self) -> &[u8]
        ensures { result.now ≡ self.now.key }
    {
        &self.text[usize::from(self.kind_len) + 1..usize::from(self.text_len)]
    }

    /// The hash that the key states: the number from 0 to 2^32 - 1 after its last `#`, if the key ends with one.
    pub fn stated_hash(&self) -> Option<u32>
        ensures reads { result ≡ stated_hash self.now.key }
        ensures found { IfSome result (λ hash. (before : List ℕ) × (self.now.key ≡ before ++ number_sign ∷ decimal hash)) }
        ensures only { (hash : ℕ) (before : List ℕ) → hash < 2 ^ 32 → self.now.key ≡ before ++ number_sign ∷ decimal hash → result ≡ Some hash }
    {
        let key = self.key();
        let start = after_last(key, b'#')?;
        match number_up_to(&key[start..], 4_294_967_295) {
            Ok(hash) => Some(hash as u32),
            Err(_) => None,
        }
    }

    /// Whether the two are the same grain.
    pub fn same(&self, other: &GrainId) -> bool
        ensures { IsTrue result ↔ (self.now ≡ other.now) }
    {
        self == other
    }

    /// The same grain. Ids are copied, never cloned.
    pub fn copy(&self) -> GrainId
        ensures { result ≡ self.now }
    {
        *self
    }

    /// A law: the kind and key of every grain are in range.
    pub fn in_range(&self)
        ensures { IsGrain self.now }
    {
        let _kind_len = self.kind_len;
    }
}

/// The position of the first slash, if there is something on both sides of it.
fn kind_end(text: &[u8]) -> Option<usize>
    ensures { SomeIff result (IsTrue (is_cut text.now)) (position_or_len is_slash text.now) }
{
    let end = first_position(text, b'/');
    if end == 0 || end == text.len() || end + 1 == text.len() {
        return None;
    }
    Some(end)
}

/// Whether each byte is visible ASCII. Looks at all of them, whatever it finds, so that many can be looked at at once.
fn are_visible(text: &[u8]) -> bool
    ensures { IsTrue result ↔ All IsVisible text.now }
{
    let mut all = true;
    for byte in text {
        all &= is_visible(*byte);
    }
    all
}

fn is_visible(byte: u8) -> bool
    ensures { IsTrue result ↔ IsVisible byte }
{
    33 <= byte && byte <= 126
}

/// The text at the front of an array, with zeros behind it.
fn padded(text: &[u8]) -> [u8; 193]
    requires { length text.now ≤ 193 }
    ensures { result ≡ text.now ++ replicate (193 - length text.now) 0 }
{
    let mut array = [0; 193];
    for (position, byte) in text.iter().enumerate() {
        array[position] = *byte;
    }
    array
}

impl PartialEq for GrainId {
    ghost eq = { grain_eq };

    ghost laws = { partial_equiv_from_equiv (Prim.search (comparing, rules)) };

    fn eq(&self, other: &GrainId) -> bool {
        self.kind() == other.kind() && self.key() == other.key()
    }
}

impl Eq for GrainId {
    ghost laws = { Prim.search (comparing, rules) };
}

impl Ord for GrainId {
    ghost cmp = { grain_cmp };

    ghost total = { Prim.search (comparing, rules) };

    ghost matches_partial_cmp = { Prim.search (comparing, rules) };

    ghost matches_eq = { Prim.search (comparing, rules) };

    fn cmp(&self, other: &GrainId) -> Ordering {
        let (kind, other_kind) = (self.kind(), other.kind());
        // Where the kinds have one length, the texts compare as the kinds and then the keys.
        if kind.len() == other_kind.len() {
            return self.as_bytes().cmp(other.as_bytes());
        }
        kind.cmp(other_kind).then(self.key().cmp(other.key()))
    }
}

impl PartialOrd for GrainId {
    ghost partial_cmp = { as_partial_cmp grain_cmp };

    ghost laws = { partial_order_from_own_ties (Prim.search (comparing, rules)) (Prim.search (comparing, rules)) };

    fn partial_cmp(&self, other: &GrainId) -> Option<Ordering> {
        Some(self.cmp(other))
    }
}

impl Hash for GrainId {
    ghost use Rattle.silo_address.specs.GrainLaws.{equal_texts};

    ghost hash_input = { λ grain. grain_text grain ∷ [] };

    ghost respects_eq = { equal_texts };

    fn hash<H: Hasher>(&self, state: &mut H) {
        state.write(self.as_bytes());
    }
}

impl fmt::Display for GrainId {
    ghost output = { λ grain. Some (grain_text grain) };

    fn fmt<W: fmt::Write>(&self, f: &mut fmt::Formatter<W>) -> fmt::Result {
        f.write_str(self.as_str())
    }
}

impl fmt::Debug for GrainId {
    fn fmt<W: fmt::Write>(&self, f: &mut fmt::Formatter<W>) -> fmt::Result {
        f.write_str(self.as_str())
    }
}
