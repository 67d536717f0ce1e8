//! Whose join a line tells: a process that was started with a token joins by the line that carries that token, and by no other.

ghost use Rattle.std.specs.Option.{option_copied};
ghost use Rattle.std.specs.Prelude.{◌≡◌, ◌&&◌, not};
ghost use Rattle.silo_address.specs.Silo.{silo_eq};
ghost use Rattle.process_lines.specs.AskedModel.{asked_of};
ghost use Rattle.process_rules.specs.Answer as rule;

use crate::JoinToken;
use process_lines::Asked;
use silo_address::SiloAddress;

/// Whether a line tells the join of the process's silo, but that of another process, by the token with which this one was started.
pub(crate) fn is_anothers_join(
    token: &Option<JoinToken>,
    asked: &Asked<'_>,
    own: &SiloAddress,
) -> bool
    ensures { result ≡ rule.is_anothers_join token.now (asked_of asked.now) own.now }
{
    let Some(token) = token else {
        return false;
    };
    match asked {
        Asked::Joined {
            silo,
            token: stated,
            ..
        } => is_of_another(silo, stated, token, own),
        _ => false,
    }
}

// Whether a join of that silo, with that token, is its own but another process's.
fn is_of_another(
    silo: &SiloAddress,
    stated: &Option<&[u8]>,
    token: &JoinToken,
    own: &SiloAddress,
) -> bool
    ensures { result ≡ (silo_eq silo.now own.now && not (rule.carries (option_copied stated.now) token.now)) }
{
    silo == own && !carries(stated, token)
}

// Whether a join carries the token.
fn carries(stated: &Option<&[u8]>, token: &JoinToken) -> bool
    ensures { result ≡ rule.carries (option_copied stated.now) token.now }
{
    match stated {
        Some(stated) => *stated == token.as_bytes(),
        None => false,
    }
}
