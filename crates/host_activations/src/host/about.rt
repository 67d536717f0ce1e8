//! What is outstanding about one grain, and its renewal alone.
ghost use Rattle.std.specs.Prelude.{◌≡◌, ◌+◌, ◌≤◌, ◌^◌, IfOk, OnErr, OnOk, length};
ghost use Rattle.directory_rules.specs.Host.{renewed_about, requests_about};

use super::Host;
use super::end::number_of;
use super::renewal::set_numbers;
use super::telling::acts_in;
use crate::outstanding::renumbered;
use directory_rules::Act;
use silo_address::GrainId;
use std::alloc::{AllocError, Global};

// Each call costs a logarithm of what is outstanding for each request about the grain, and once more; it looks at no others.
impl Host {
    /// How many requests about the grain are outstanding: its activation's, if that asks or closes, and each find of it.
    pub fn count_about(&self, grain: &GrainId) -> usize
        ensures { result ≡ length (requests_about grain.now self.now) }
    {
        let own = number_of(&self.held, grain);
        self.outstanding.count_about(grain, own)
    }

    /// The requests about the grain once they are renewed, under the new numbers in their order. Fails only when memory runs out.
    pub fn renewed_requests_about(
        &self,
        alloc: Global,
        grain: &GrainId,
    ) -> Result<Vec<(u64, Act)>, AllocError>
        requires { self.now.next_number + length (requests_about grain.now self.now) ≤ 2 ^ 60 + 1 }
        ensures { IfOk result (λ requests. requests.items ≡ requests_about grain.now (renewed_about grain.now self.now)) }
    {
        let own = number_of(&self.held, grain);
        let about = self.outstanding.about(alloc, grain, own)?;
        let numbered = renumbered(alloc, &about, self.next_number)?;
        acts_in(alloc, self.silo, &self.held, numbered.by_number())
    }

    /// Each request about the grain has a new number from now on, in the order of the old ones; no other request changes. Fails only
    /// when memory runs out.
    pub fn renew_about(&mut self, alloc: Global, grain: &GrainId) -> Result<(), AllocError>
        requires numbers { self.old.next_number + length (requests_about grain.now self.old) ≤ 2 ^ 60 + 1 }
        ensures renewed { OnOk result (self.new ≡ renewed_about grain.now self.old) }
        ensures unchanged { OnErr result (self.new ≡ self.old) }
    {
        let own = number_of(&self.held, grain);
        let first = self.next_number;
        let numbered = self.outstanding.renew_about(alloc, grain, own, first)?;
        set_numbers(&mut self.held, numbered.by_number());
        self.held.whole();
        self.next_number += numbered.len() as u64;
        Ok(())
    }
}
