ghost use Rattle.std.specs.Prelude.{◌≡◌, ◌≤◌, ◌^◌, None, IfSome, IsSome, OnOk, OnErr};
ghost use Rattle.directory_rules.specs.Host.{held_of, with_closing, with_find, with_started};

use super::Host;
use super::end::free;
use crate::asked::{OutstandingRequest, number_in};
use directory_rules::Phase;
use silo_address::{ActivationId, GrainId};
use std::alloc::AllocError;

impl Host {
    /// An activation of the grain begins, in the place of a previous one if one is named, and asks to be entered. Fails only
    /// when memory runs out.
    pub fn start(
        &mut self,
        grain: GrainId,
        previous: Option<ActivationId>,
    ) -> Result<(), AllocError>
        requires new { held_of self.old grain ≡ None }
        requires number { self.old.next_number ≤ 2 ^ 60 }
        requires count { self.old.next_count ≤ 2 ^ 60 }
        ensures started { OnOk result (self.new ≡ with_started self.old grain previous) }
        ensures unchanged { OnErr result (self.new ≡ self.old) }
    {
        self.outstanding
            .insert(self.next_number, &OutstandingRequest::Activation(grain))?;
        match self.held.begin(grain, self.next_number, previous) {
            Ok(()) => {
                self.held.whole();
                self.next_number += 1;
                Ok(())
            }
            Err(error) => {
                self.outstanding.remove(self.next_number);
                Err(error)
            }
        }
    }

    /// The grain's activation asks to be taken out: from then on the request that it has had outstanding, if it had one, doesn't
    /// count. Fails only when memory runs out.
    pub fn begin_to_close(&mut self, grain: &GrainId) -> Result<(), AllocError>
        requires there { IsSome (held_of self.old grain.now) }
        requires number { self.old.next_number ≤ 2 ^ 60 }
        ensures closing { OnOk result (IfSome (held_of self.old grain.now) (λ held. self.new ≡ with_closing self.old grain.now held)) }
        ensures unchanged { OnErr result (self.new ≡ self.old) }
    {
        let held = self.held.get(grain).unwrap();
        self.outstanding
            .insert(self.next_number, &OutstandingRequest::Activation(*grain))?;
        free(&mut self.outstanding, number_in(held.phase));
        let closing = Phase::Closing(self.next_number);
        self.held.set(grain, closing, None);
        self.held.whole();
        self.next_number += 1;
        Ok(())
    }

    /// The host asks where the grain is. Fails only when memory runs out.
    pub fn ask(&mut self, grain: GrainId) -> Result<(), AllocError>
        requires number { self.old.next_number ≤ 2 ^ 60 }
        ensures asking { OnOk result (self.new ≡ with_find self.old grain) }
        ensures unchanged { OnErr result (self.new ≡ self.old) }
    {
        self.outstanding
            .insert(self.next_number, &OutstandingRequest::Find(grain))?;
        self.next_number += 1;
        Ok(())
    }
}
