ghost use Rattle.std.specs.Prelude.{◌≡◌};
ghost use Rattle.host_activations.specs.Asked.{find_in};
ghost use Rattle.host_activations.specs.Numbers.{number_in};

use directory_rules::Phase;
use silo_address::GrainId;

/// What a host has outstanding under a number.
#[derive(Clone, Copy, PartialEq, Eq)]
pub enum OutstandingRequest {
    /// The request of the grain's activation: to be entered, or to be taken out.
    Activation(GrainId),
    /// Where the grain is.
    Find(GrainId),
}

/// The number of the request that the phase has outstanding.
pub fn number_in(phase: Phase) -> Option<u64>
    ensures { result ≡ number_in phase }
{
    match phase {
        Phase::Asking(number) | Phase::Closing(number) => Some(number),
        Phase::Firm => None,
    }
}

/// The grain for which it asks, if it is a find.
pub fn find_in(asked: OutstandingRequest) -> Option<GrainId>
    ensures { result ≡ find_in asked }
{
    match asked {
        OutstandingRequest::Activation(_) => None,
        OutstandingRequest::Find(grain) => Some(grain),
    }
}
