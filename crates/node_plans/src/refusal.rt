ghost use Rattle.std.specs.Prelude.{◌≡◌};
ghost use Rattle.node_plans.specs.Numbers.{step_refusal_number};

use thiserror::Error;

/// Why a silo's step is refused: the first of these that holds (`docs/RULES.md#refusals-and-their-numbers`).
#[derive(Clone, Copy, Debug, PartialEq, Eq, Error)]
pub enum StepRefusal {
    #[error("the silo holds an activation of the grain already")]
    AlreadyHere,
    #[error("the silo holds no activation of the grain")]
    NotHere,
    #[error("the activation is not firm")]
    NotFirm,
    #[error("the activation does not ask to be registered")]
    NotAsking,
    #[error("the silo is not Active in the view that it has seen")]
    NotActiveSilo,
    #[error("the silo has no request number or count left")]
    NumbersSpent,
    #[error("the silo has as many activations or finds as it may have")]
    HostFull,
    #[error("the other silo is not Active in the view that the silo has seen, or is the silo itself")]
    NotATarget,
    #[error("the silo has seen this version or a newer one")]
    NotNewer,
    #[error("there is not enough memory")]
    OutOfMemory,
}

impl StepRefusal {
    /// The number by which users know the refusal: 801 to 808 or 903. Out of memory has none.
    pub fn number(self) -> Option<u16>
        ensures { result ≡ step_refusal_number self }
    {
        match self {
            StepRefusal::AlreadyHere => Some(801),
            StepRefusal::NotHere => Some(802),
            StepRefusal::NotFirm => Some(803),
            StepRefusal::NotActiveSilo => Some(804),
            StepRefusal::NumbersSpent => Some(805),
            StepRefusal::HostFull => Some(806),
            StepRefusal::NotATarget => Some(807),
            StepRefusal::NotAsking => Some(808),
            StepRefusal::NotNewer => Some(903),
            StepRefusal::OutOfMemory => None,
        }
    }
}
