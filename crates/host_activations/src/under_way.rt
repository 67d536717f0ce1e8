ghost use Rattle.std.specs.Prelude.{◌≡◌, ◌+◌, ◌≤◌, ◌<◌, ◌^◌};
ghost use Rattle.directory_rules.specs.Host.{is_asking, is_closing};
ghost use Rattle.host_activations.specs.UnderWay.{one_if, with_phase};

use directory_rules::Phase;

/// How many activations ask to be entered, and how many to be taken out.
#[derive(Clone, Copy)]
pub(crate) struct UnderWay {
    pub(crate) asking: usize,
    pub(crate) closing: usize,
}

impl UnderWay {
    /// With one more activation, which is in that phase.
    pub(crate) fn with(self, phase: &Phase) -> UnderWay
        requires asking { self.asking + one_if (is_asking phase.now) < 2 ^ 64 }
        requires closing { self.closing + one_if (is_closing phase.now) < 2 ^ 64 }
        ensures { result ≡ with_phase self phase.now }
    {
        match phase {
            Phase::Asking(_) => UnderWay {
                asking: self.asking + 1,
                closing: self.closing,
            },
            Phase::Firm => self,
            Phase::Closing(_) => UnderWay {
                asking: self.asking,
                closing: self.closing + 1,
            },
        }
    }

    /// Without one of the activations, which was in that phase.
    pub(crate) fn without(self, phase: &Phase) -> UnderWay
        requires asking { one_if (is_asking phase.now) ≤ self.asking }
        requires closing { one_if (is_closing phase.now) ≤ self.closing }
        ensures { with_phase result phase.now ≡ self }
    {
        match phase {
            Phase::Asking(_) => UnderWay {
                asking: self.asking - 1,
                closing: self.closing,
            },
            Phase::Firm => self,
            Phase::Closing(_) => UnderWay {
                asking: self.asking,
                closing: self.closing - 1,
            },
        }
    }
}
