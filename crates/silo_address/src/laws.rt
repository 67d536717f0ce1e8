//! Laws of the texts: each function has a law as its contract, and does nothing.

ghost use Rattle.std.specs.Prelude.{◌≡◌, ◌<◌, ◌^◌, ◌≤◌, ◌++◌, ℕ, List, [], ◌∷◌, Ok, Err, Some, None, codes};
ghost use Rattle.std.specs.Fmt.{decimal};
ghost use Rattle.silo_address.specs.ActivationText.{activation_text, read_activation};
ghost use Rattle.silo_address.specs.Grain.{Grain, IsGrain, grain_text};
ghost use Rattle.silo_address.specs.ReadGrain.{read_grain};
ghost use Rattle.silo_address.specs.Marks.{number_sign};
ghost use Rattle.texts.specs.Numeral.{read_number};
ghost use Rattle.silo_address.specs.Silo.{IsSilo, Silo};
ghost use Rattle.silo_address.specs.ReadSilo.{read_silo};
ghost use Rattle.silo_address.specs.SiloText.{silo_text};
ghost use Rattle.silo_address.specs.StatedHash.{stated_hash};

use crate::{ActivationError, ActivationId, GrainError, NumberError, SiloError};

/// What is written is read back as the value that was written.
pub fn round_trips()
    ensures silo { (silo : Silo) → IsSilo silo → read_silo (silo_text silo) ≡ Ok silo }
    ensures grain { (grain : Grain) → IsGrain grain → read_grain (grain_text grain) ≡ Ok grain }
    ensures activation { (activation : ActivationId) → IsSilo activation.silo → activation.count < 2 ^ 64 → read_activation (activation_text activation) ≡ Ok activation }
    ensures number { (most number : ℕ) → most < 2 ^ 64 → number ≤ most → read_number most (decimal number) ≡ Ok number }
    ensures hash { (hash : ℕ) (before : List ℕ) → hash < 2 ^ 32 → stated_hash (before ++ number_sign ∷ decimal hash) ≡ Some hash }
{}

/// The readings compute: the text of a silo, and one text for each refusal.
pub fn silo_readings()
    ensures silo { read_silo (codes "10.0.0.1:1000@1") ≡ Ok (record { ip = 10 ∷ 0 ∷ 0 ∷ 1 ∷ []; port = 1000; generation = 1 }) }
    ensures shape { read_silo (codes "10.0.0.1@1") ≡ Err SiloError.Shape }
    ensures not_a_number { read_silo (codes "10.0.0.256:1000@01") ≡ Err SiloError.NotANumber }
    ensures out_of_range { read_silo (codes "10.0.0.256:1@1") ≡ Err SiloError.OutOfRange }
{}

/// The readings compute: the text of a grain, and one text for each refusal.
pub fn grain_readings()
    ensures grain { read_grain (codes "user/a/b") ≡ Ok (record { kind = codes "user"; key = codes "a/b" }) }
    ensures shape { read_grain (codes "user/") ≡ Err GrainError.Shape }
    ensures too_long { read_grain (codes "aaaaaaaaaaaaaaaaaaaaaaaaaaaaaaaaaaaaaaaaaaaaaaaaaaaaaaaaaaaaaaaaa/ b") ≡ Err GrainError.TooLong }
    ensures byte { read_grain (codes "user/a b") ≡ Err GrainError.Byte }
{}

/// The readings compute: the text of an activation, and one text for each kind of refusal.
pub fn activation_readings()
    ensures activation { read_activation (codes "10.0.0.1:1000@1!7") ≡ Ok (record { silo = record { ip = 10 ∷ 0 ∷ 0 ∷ 1 ∷ []; port = 1000; generation = 1 }; count = 7 }) }
    ensures shape { read_activation (codes "10.0.0.1:1000@1") ≡ Err ActivationError.Shape }
    ensures silo { read_activation (codes "10.0.0.1:0@1!x") ≡ Err (ActivationError.Silo SiloError.OutOfRange) }
    ensures count { read_activation (codes "10.0.0.1:1000@1!07") ≡ Err (ActivationError.Count NumberError.NotANumber) }
{}

/// The stated hash computes: it is what follows the last `#`, if that is a number below 2^32.
pub fn stated_hashes()
    ensures stated { stated_hash (codes "a#1#4294967295") ≡ Some 4294967295 }
    ensures none { stated_hash (codes "ann") ≡ None }
    ensures leading_zero { stated_hash (codes "ann#07") ≡ None }
    ensures too_large { stated_hash (codes "ann#4294967296") ≡ None }
{}
