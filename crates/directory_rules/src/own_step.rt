ghost use Rattle.std.specs.Prelude.{◌≡◌, ◌↔◌, IsTrue};
ghost use Rattle.directory_rules.specs.OwnStep.{IsOwnStep};

use silo_address::{GrainId, SiloAddress};

/// What a silo's application asks of it (`docs/RULES.md#the-world`).
#[derive(Clone, Copy)]
pub enum OwnStep {
    /// To start an activation of the grain.
    Wake(GrainId),
    /// To close its activation of the grain.
    Close(GrainId),
    /// To give up its activation of the grain, which asks and isn't firm yet.
    Cancel(GrainId),
    /// To look the grain up.
    Find(GrainId),
    /// To drop what its cache has of the grain.
    Forget(GrainId),
    /// To send again what it has outstanding, each request under a new number, and what its unsettled pieces want.
    Nudge,
    /// To send again what it has outstanding about the grain, each request under a new number, and nothing else.
    NudgeGrain(GrainId),
    /// To send again what its unsettled pieces want, and no request.
    NudgeRanges,
    /// To close its activation of the grain, and offer its place to another silo.
    Offer { grain: GrainId, to: SiloAddress },
}

impl OwnStep {
    /// A law: the grain and the silo that the step names are in their ranges.
    pub fn in_range(&self)
        ensures { IsOwnStep self.now }
    {
        match self {
            OwnStep::Wake(grain)
            | OwnStep::Close(grain)
            | OwnStep::Cancel(grain)
            | OwnStep::Find(grain)
            | OwnStep::Forget(grain)
            | OwnStep::NudgeGrain(grain) => grain.in_range(),
            OwnStep::Nudge | OwnStep::NudgeRanges => {}
            OwnStep::Offer { grain, to } => {
                grain.in_range();
                to.in_range();
            }
        }
    }

    /// Whether the two are one step.
    pub fn same(&self, other: &OwnStep) -> bool
        ensures { IsTrue result ↔ (self.now ≡ other.now) }
    {
        match (self, other) {
            (OwnStep::Wake(grain), OwnStep::Wake(its))
            | (OwnStep::Close(grain), OwnStep::Close(its))
            | (OwnStep::Cancel(grain), OwnStep::Cancel(its))
            | (OwnStep::Find(grain), OwnStep::Find(its))
            | (OwnStep::Forget(grain), OwnStep::Forget(its))
            | (OwnStep::NudgeGrain(grain), OwnStep::NudgeGrain(its)) => grain.same(its),
            (OwnStep::Nudge, OwnStep::Nudge) | (OwnStep::NudgeRanges, OwnStep::NudgeRanges) => true,
            (
                OwnStep::Offer { grain, to },
                OwnStep::Offer {
                    grain: its,
                    to: whom,
                },
            ) => grain.same(its) && to.same(whom),
            _ => false,
        }
    }
}
