use silo_address::{GrainId, SiloAddress};
use std::alloc::AllocError;
use std::error::Error;
use std::fmt;

/// Why a check doesn't say yes: what is wrong with the dump (`docs/RULES.md#the-dump-and-the-verdict`), or that memory ran out.
#[derive(Clone, Copy, Debug, PartialEq, Eq)]
pub enum CheckFault {
    /// The silo's ring isn't that of the view that it has seen: 973.
    RingDiffers(SiloAddress),
    /// The silo's pieces aren't what it owns by its ring, or an entry isn't where it belongs: 977.
    WrongRange(SiloAddress),
    /// The grain is firm on two silos: 976.
    TwoFirm(GrainId),
    /// A firm activation of the grain isn't entered where it has to be: 974.
    MissingFirm(GrainId),
    /// An entry of the grain names an activation that no silo holds: 975.
    Stranger(GrainId),
    /// Memory ran out.
    OutOfMemory,
}

impl CheckFault {
    ghost use Rattle.std.specs.Prelude.{◌≡◌};
    ghost use Rattle.std.specs.Option.{option_map};
    ghost use Rattle.dump_rules.specs.Verdict.{fault_number};
    ghost use Rattle.rebuild_checker.specs.Faults.{fault_of};

    /// The number by which users know the fault, 973 to 977; none where memory ran out.
    pub fn number(&self) -> Option<u16>
        ensures { result ≡ option_map fault_number (fault_of self.now) }
    {
        match self {
            CheckFault::RingDiffers(_) => Some(973),
            CheckFault::MissingFirm(_) => Some(974),
            CheckFault::Stranger(_) => Some(975),
            CheckFault::TwoFirm(_) => Some(976),
            CheckFault::WrongRange(_) => Some(977),
            CheckFault::OutOfMemory => None,
        }
    }
}

/// The number, a space, and the silo or the grain.
impl fmt::Display for CheckFault {
    ghost use Rattle.std.specs.Prelude.{Some};
    ghost use Rattle.rebuild_checker.specs.Faults.{fault_text};

    ghost output = { λ fault. Some (fault_text fault) };

    fn fmt<W: fmt::Write>(&self, f: &mut fmt::Formatter<W>) -> fmt::Result {
        match self {
            CheckFault::RingDiffers(silo) => write!(f, "973 {silo}"),
            CheckFault::MissingFirm(grain) => write!(f, "974 {grain}"),
            CheckFault::Stranger(grain) => write!(f, "975 {grain}"),
            CheckFault::TwoFirm(grain) => write!(f, "976 {grain}"),
            CheckFault::WrongRange(silo) => write!(f, "977 {silo}"),
            CheckFault::OutOfMemory => f.write_str("out of memory"),
        }
    }
}

impl Error for CheckFault {}

impl From<AllocError> for CheckFault {
    ghost use Rattle.std.specs.Prelude.{◌≡◌};
    ghost use Rattle.rebuild_checker.specs.declared.check_fault.CheckFault.TheVariants.{OutOfMemory};

    ghost from_gives = { λ _ error. error ≡ OutOfMemory };

    fn from(_failure: AllocError) -> CheckFault {
        CheckFault::OutOfMemory
    }
}
