ghost use Rattle.std.proofs.Common.{rules};
ghost use Rattle.std.specs.Cmp.{partial_equiv_from_equiv};
ghost use Rattle.std.specs.Cmp.Rules.{comparing};
ghost use Rattle.std.specs.Prelude.{◌≡◌, ◌↔◌, ◌≤◌, ◌-◌, ◌++◌, All, IsSome, IsTrue, length, replicate};
ghost use Rattle.std.specs.Str.{bytes_eq};
ghost use Rattle.std.specs.List.{list_all};
ghost use Rattle.silo_address.specs.Grain.{IsVisible};
ghost use Rattle.silo_address.specs.ReadGrain.{is_visible};
ghost use Rattle.process_answers.specs.JoinToken.{IsToken, read_token};

use std::marker::Model;

/// The most bytes of a token.
const MOST_BYTES: usize = 64;

/// A token that a silo's process is started with: its silo joins by the line that carries this token, and by no other
/// (`docs/RULES.md#lines-of-a-silos-process`). Stored inline, so it is `Copy`.
#[derive(Clone, Copy)]
pub struct JoinToken {
    token_len: u8,
    text: [u8; 64],
}

impl Model for JoinToken {
    ghost use Rattle.std.specs.Prelude.{List, ℕ};

    ghost Value = { List ℕ };

    ghost use Rattle.process_answers.specs.JoinTokenFields.{HoldsToken, fields_of, token_in};

    ghost view = { token_in };

    ghost invariant = { HoldsToken };

    ghost inverse = { fields_of };

    ghost inverse_ok = { λ _ holds. holds.exact };
}

impl JoinToken {
    /// The token that is written so: 1 to 64 bytes, all of them visible ASCII. `None` where they are no token.
    pub fn parse(text: &[u8]) -> Option<JoinToken>
        ensures reads { result ≡ read_token text.now }
        ensures is_token { IsSome result ↔ IsToken text.now }
    {
        if text.is_empty() || text.len() > MOST_BYTES || !are_visible(text) {
            return None;
        }
        Some(JoinToken {
            token_len: text.len() as u8,
            text: padded(text),
        })
    }

    /// The token's bytes.
    pub fn as_bytes(&self) -> &[u8]
        ensures { result.now ≡ self.now }
    {
        &self.text[..usize::from(self.token_len)]
    }
}

impl PartialEq for JoinToken {
    ghost eq = { bytes_eq };

    ghost laws = { partial_equiv_from_equiv (Prim.search (comparing, rules)) };

    fn eq(&self, other: &JoinToken) -> bool {
        self.as_bytes() == other.as_bytes()
    }
}

impl Eq for JoinToken {
    ghost laws = { Prim.search (comparing, rules) };
}

// Whether each byte is visible ASCII.
fn are_visible(text: &[u8]) -> bool
    ensures computed { result ≡ list_all is_visible text.now }
    ensures visible { IsTrue result ↔ All IsVisible text.now }
{
    text.iter().all(|byte| 33 <= *byte && *byte <= 126)
}

// The text at the front of an array, with zeros behind it.
fn padded(text: &[u8]) -> [u8; 64]
    requires { length text.now ≤ 64 }
    ensures { result ≡ text.now ++ replicate (64 - length text.now) 0 }
{
    let mut array = [0; 64];
    for (position, byte) in text.iter().enumerate() {
        array[position] = *byte;
    }
    array
}
