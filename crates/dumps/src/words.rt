//! The words for hashings, phases and states, as a dump has them.

ghost use Rattle.std.specs.Prelude.{◌≡◌};
ghost use Rattle.dump_rules.specs.Dump.{dump_phase_word, dump_state_word, hashing_word};
ghost use Rattle.dumps.specs.DumpModel.{phase_of, state_of};

use crate::{ListedPhase, ListedState};
use hash_ring::Hashing;

/// The word for a hashing.
pub(crate) fn word_of_hashing(hashing: Hashing) -> &'static [u8]
    ensures { result.now ≡ hashing_word hashing }
{
    match hashing {
        Hashing::Sha256 => b"sha256",
        Hashing::Stated => b"stated",
    }
}

/// The word for a phase.
pub(crate) fn word_of_phase(phase: ListedPhase) -> &'static [u8]
    ensures { result.now ≡ dump_phase_word (phase_of phase) }
{
    match phase {
        ListedPhase::Asking => b"asking",
        ListedPhase::Firm => b"firm",
        ListedPhase::Closing => b"closing",
    }
}

/// The word for a state.
pub(crate) fn word_of_state(state: ListedState) -> &'static [u8]
    ensures { result.now ≡ dump_state_word (state_of state) }
{
    match state {
        ListedState::Settled => b"settled",
        ListedState::Awaiting => b"awaiting",
        ListedState::Recovering => b"recovering",
    }
}
