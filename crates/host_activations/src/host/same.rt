ghost use Rattle.std.specs.List.{IsDistinct};
ghost use Rattle.std.specs.List.Sorted.{IsStrictlySortedBy};
ghost use Rattle.std.specs.Map.{keys_of};
ghost use Rattle.std.specs.Ordering.{nat_cmp};
ghost use Rattle.std.specs.Prelude.{◌≡◌, ◌↔◌, IsTrue, IfOk};
ghost use Rattle.directory_rules.specs.Laws.{AreNumbered};
ghost use Rattle.host_activations.specs.Begun.{IsNext};
ghost use Rattle.silo_address.specs.Grain.{grain_eq};

use super::Host;
use std::alloc::AllocError;

impl Host {
    /// A law: what all hosts keep. Each grain has one activation; the requests have distinct numbers below the next one.
    pub fn whole(&self)
        ensures numbered { AreNumbered self.now }
        ensures number { IsNext self.now.next_number }
        ensures count { IsNext self.now.next_count }
        ensures grains { IsDistinct grain_eq (keys_of self.now.held) }
        ensures finds { IsStrictlySortedBy nat_cmp (keys_of self.now.finds) }
    {
        self.held.whole();
    }

    /// An equal host. Fails only when memory runs out.
    pub fn copy(&self) -> Result<Host, AllocError>
        ensures { IfOk result (λ host. host ≡ self.now) }
    {
        let held = self.held.copy()?;
        let outstanding = self.outstanding.copy()?;
        Ok(Host {
            silo: self.silo,
            next_number: self.next_number,
            held,
            outstanding,
        })
    }

    /// Whether the two are one silo with the same activations, in the same order, and the same requests outstanding.
    pub fn same(&self, other: &Host) -> bool
        ensures { IsTrue result ↔ (self.now ≡ other.now) }
    {
        if !self.silo.same(&other.silo) {
            return false;
        }
        if self.next_number != other.next_number {
            return false;
        }
        if !self.held.same(&other.held) {
            return false;
        }
        self.outstanding.same(&other.outstanding)
    }
}
