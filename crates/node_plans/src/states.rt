//! Tests of states and phases.
ghost use Rattle.std.specs.Prelude.{◌≡◌};
ghost use Rattle.directory_rules.specs.Host.{is_asking, is_firm};
ghost use Rattle.directory_rules.specs.Transfer.{is_recovering};
ghost use Rattle.node_plans.specs.Beginnings.{is_awaiting};

use directory_rules::{Phase, PieceState};

/// Whether the state awaits a snapshot, from whomever.
pub fn is_awaiting(state: PieceState) -> bool
    ensures { result ≡ is_awaiting state }
{
    match state {
        PieceState::Awaiting(_) => true,
        PieceState::Settled | PieceState::Recovering => false,
    }
}

/// Whether the state recovers.
pub fn is_recovering(state: PieceState) -> bool
    ensures { result ≡ is_recovering state }
{
    match state {
        PieceState::Recovering => true,
        PieceState::Settled | PieceState::Awaiting(_) => false,
    }
}

/// Whether the phase is firm.
pub fn is_firm(phase: &Phase) -> bool
    ensures { result ≡ is_firm phase.now }
{
    match phase {
        Phase::Firm => true,
        Phase::Asking(_) | Phase::Closing(_) => false,
    }
}

/// Whether the phase asks.
pub fn is_asking(phase: &Phase) -> bool
    ensures { result ≡ is_asking phase.now }
{
    match phase {
        Phase::Asking(_) => true,
        Phase::Firm | Phase::Closing(_) => false,
    }
}
