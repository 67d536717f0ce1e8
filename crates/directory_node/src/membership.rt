//! Membership as a world has it, or a silo by what it was told: all that changes of membership make.

ghost use Rattle.std.specs.Prelude.{◌≡◌, ◌≤◌, ◌==◌, [], IfErr, IfOk, IsOk, IsSomeAnd, Ok, OnErr, OnOk, false, true};
ghost use Rattle.membership_view.specs.Beginning.{after_listing, with_listed};
ghost use Rattle.membership_view.specs.Changes.{after_join, with_join};
ghost use Rattle.membership_view.specs.Views.{view_at};
ghost use Rattle.hash_ring.specs.Numbers.{ring_error_number};
ghost use Rattle.directory_rules.specs.ListedModel.{all_listed_of, listed_of};
ghost use Rattle.directory_rules.specs.Membership.{Join, Leave, Die, begun, changed, first_membership, is_seeable, listed, placed, replaced_by, status_in};
ghost use Rattle.directory_rules.specs.Settings.{Settings as SettingsValue};
ghost use Rattle.node_plans.specs.Follows.{Follows};
ghost use Rattle.directory_node.specs.MembershipModel.{IsNumberedUnlessMemory, MayBeListed, RefusesPlaces, change_refusal_number, places_of_listed};

use crate::beginnings::may_begin;
use crate::stated::{may_state, may_state_none};
use directory_rules::{Listed, Settings};
use hash_ring::{Places, RingError};
use membership_view::{Status, View, Views, ViewsError};
use silo_address::SiloAddress;
use std::alloc::{AllocError, Global};
use std::marker::Model;

/// What changes of membership make: all views so far, and each silo's places, as it joined (`docs/RULES.md#membership`).
#[derive(Drop)]
pub struct Membership {
    views: Views,
    places: Places,
}

impl Model for Membership {
    ghost use Rattle.directory_rules.specs.Membership.{Membership};

    ghost Value = { Membership };

    ghost use Rattle.directory_node.specs.MembershipModel.{membership_of};

    ghost view = { membership_of };
}

/// Why a change of membership is refused: the first of these that holds (`docs/RULES.md#refusals-and-their-numbers`).
#[derive(Clone, Copy)]
pub enum ChangeRefusal {
    /// The views refuse it.
    Views(ViewsError),
    /// The ring refuses the places of a silo that joins.
    Ring(RingError),
    /// There was no memory for a join. Whatever ran out of it, this is told.
    OutOfMemory,
}

impl Membership {
    /// Before the first change, as the settings have it.
    pub fn new(alloc: Global, settings: &Settings) -> Membership
        ensures { result ≡ first_membership settings.now }
    {
        settings.in_range();
        let Ok(places) = Places::new(alloc, settings.hashing(), settings.points()) else {
            unreachable!()
        };
        Membership {
            views: Views::new(alloc, settings.silos()),
            places,
        }
    }

    /// What is known by the view of a version alone, in place of all changes up to it. Refused by 210 where no history may begin with that
    /// version; then silo by silo, the first one first: by 210 where its endpoint was listed, or the version is 0; by 205 where as many
    /// are known as may be; by 402, 403 as at a join, or by 402 where places are stated for one that is Dead. Memory runs out only where
    /// none of them is refused.
    pub fn begun(
        alloc: Global,
        settings: &Settings,
        version: u64,
        rows: &[Listed],
    ) -> Result<Membership, ChangeRefusal>
        ensures begun { Follows (λ m. m) change_refusal_number IsOk (begun settings.now version (all_listed_of rows.now)) result }
        ensures numbered { IfErr result IsNumberedUnlessMemory }
    {
        let mut begun = Membership::before_listing(alloc, settings, version)?;
        for one in rows {
            if let Err(refusal) = begun.list(settings, one) {
                // Memory may have run out in front of a silo that is refused.
                may_begin(settings, version, rows)?;
                return Err(refusal);
            }
        }
        Ok(begun)
    }

    // Before any silo is listed.
    fn before_listing(
        alloc: Global,
        settings: &Settings,
        version: u64,
    ) -> Result<Membership, ChangeRefusal>
        ensures begun { Follows (λ m. m) change_refusal_number IsOk (begun settings.now version []) result }
        ensures numbered { IfErr result (λ refusal. refusal ≡ ChangeRefusal.Views ViewsError.NotListable) }
    {
        settings.in_range();
        let Ok(places) = Places::new(alloc, settings.hashing(), settings.points()) else {
            unreachable!()
        };
        match Views::beginning(alloc, settings.silos(), version) {
            Ok(views) => Ok(Membership { views, places }),
            Err(refusal) => Err(ChangeRefusal::Views(refusal)),
        }
    }

    // A silo is listed. What is begun is lost where memory runs out.
    fn list(&mut self, settings: &Settings, one: &Listed) -> Result<(), ChangeRefusal>
        ensures listed { Follows (λ _. self.new) change_refusal_number IsOk (listed settings.now self.old (listed_of one.now)) result }
        ensures numbered { IfErr result IsNumberedUnlessMemory }
    {
        if let Err(refusal) = self.views.may_list(&one.silo) {
            return Err(ChangeRefusal::Views(refusal));
        }
        if let Err(refusal) = self.may_place_listed(settings, one) {
            return Err(ChangeRefusal::Ring(refusal));
        }
        match self.put_listed(settings, one) {
            Ok(()) => Ok(()),
            Err(_) => Err(ChangeRefusal::OutOfMemory),
        }
    }

    // Whether a silo that is listed may be given the places stated for it: none where it is Dead.
    fn may_place_listed(&self, settings: &Settings, one: &Listed) -> Result<(), RingError>
        ensures placed { OnOk result (MayBeListed settings.now self.now.places (listed_of one.now)) }
        ensures refused { IfErr result (λ refusal. IsSomeAnd (ring_error_number refusal) (λ number. RefusesPlaces settings.now self.now.places (listed_of one.now) number)) }
    {
        match one.status {
            Status::Active => self.may_place(settings, &one.silo, &one.places),
            Status::Leaving => self.may_place(settings, &one.silo, &one.places),
            Status::Dead => may_state_none(&one.places),
        }
    }

    // A silo that may be listed is, with its places.
    fn put_listed(&mut self, settings: &Settings, one: &Listed) -> Result<(), AllocError>
        requires lists { after_listing self.old.views one.now.silo one.now.status ≡ Ok (with_listed self.old.views one.now.silo one.now.status) }
        requires placed { MayBeListed settings.now self.old.places (listed_of one.now) }
        ensures { OnOk result (listed settings.now self.old (listed_of one.now) ≡ Ok self.new) }
    {
        place_listed(&mut self.places, settings, one)?;
        match self.views.list(one.silo, one.status) {
            Ok(()) => Ok(()),
            Err(_) => Err(AllocError),
        }
    }

    /// All views so far.
    pub fn views(&self) -> &Views
        ensures { result.now ≡ self.now.views }
    {
        &self.views
    }

    /// The places of each silo that has joined.
    pub fn places(&self) -> &Places
        ensures { result.now ≡ self.now.places }
    {
        &self.places
    }

    /// What a silo is by the last change; `None` where it never joined.
    pub fn status(&self, silo: &SiloAddress) -> Option<Status>
        ensures { result ≡ status_in self.now silo.now }
    {
        self.views.status(self.views.current(), silo)
    }

    /// Whether there is that version, and the silo is in its view.
    pub fn is_seeable(&self, silo: &SiloAddress, version: u64) -> bool
        ensures { result ≡ is_seeable self.now silo.now version }
    {
        let joined = self.views.joined_at(silo).unwrap_or(0);
        version <= self.views.current() && joined <= version
    }

    /// The view of a version that was made. Fails only when memory runs out.
    pub fn view(&self, alloc: Global, version: u64) -> Result<View, AllocError>
        requires made { version ≤ self.now.views.version }
        ensures exact { IfOk result (λ view. view ≡ view_at self.now.views version) }
    {
        match self.views.view(alloc, version)? {
            Some(view) => Ok(view),
            None => unreachable!(),
        }
    }

    /// Whether a silo may join with the places stated for it: fails as `join` would. Needs no memory.
    pub fn may_join(
        &self,
        settings: &Settings,
        silo: &SiloAddress,
        stated: &[u32],
    ) -> Result<(), ChangeRefusal>
        ensures joins { OnOk result (after_join self.now.views silo.now ≡ Ok (with_join self.now.views silo.now)) }
        ensures placed { OnOk result (IsOk (placed settings.now self.now.places silo.now stated.now)) }
        ensures may { OnOk result (IsOk (changed settings.now self.now (Join silo.now stated.now))) }
        ensures refused { IfErr result (λ refusal. IsSomeAnd (change_refusal_number refusal) (λ number. changed settings.now self.now (Join silo.now stated.now) ≡ Err number)) }
    {
        if let Err(refusal) = self.views.may_join(silo) {
            return Err(ChangeRefusal::Views(refusal));
        }
        match self.may_place(settings, silo, stated) {
            Ok(()) => Ok(()),
            Err(refusal) => Err(ChangeRefusal::Ring(refusal)),
        }
    }

    // Whether a silo may be given the places stated for it: 402, 403, 404.
    fn may_place(
        &self,
        settings: &Settings,
        silo: &SiloAddress,
        stated: &[u32],
    ) -> Result<(), RingError>
        ensures placed { OnOk result (IsOk (placed settings.now self.now.places silo.now stated.now)) }
        ensures refused { IfErr result (λ refusal. IsSomeAnd (ring_error_number refusal) (λ number. placed settings.now self.now.places silo.now stated.now ≡ Err number)) }
    {
        may_state(settings, self.places.hashing(), stated)?;
        if self.places.is_added(silo) {
            return Err(RingError::AlreadyAdded);
        }
        Ok(())
    }

    /// A silo joins, with the places stated for it; none are stated where they are hashed. Answers the older silo of its endpoint
    /// that it replaces, if there is one. Refused by 201, 205, 402, 403; a refusal changes nothing.
    pub fn join(
        &mut self,
        settings: &Settings,
        silo: SiloAddress,
        stated: &[u32],
    ) -> Result<Option<SiloAddress>, ChangeRefusal>
        ensures made { Follows (λ _. self.new) change_refusal_number IsOk (changed settings.now self.old (Join silo stated.now)) result }
        ensures numbered { IfErr result IsNumberedUnlessMemory }
        ensures replaced { IfOk result (λ replaced. replaced ≡ replaced_by self.old (Join silo stated.now)) }
        ensures unchanged { OnErr result (self.new ≡ self.old) }
    {
        self.may_join(settings, &silo, stated)?;
        match self.put_in(settings, silo, stated) {
            Ok(replaced) => Ok(replaced),
            Err(_) => Err(ChangeRefusal::OutOfMemory),
        }
    }

    // A silo that may join gets its places and its row; where memory runs out, it gets neither.
    fn put_in(
        &mut self,
        settings: &Settings,
        silo: SiloAddress,
        stated: &[u32],
    ) -> Result<Option<SiloAddress>, AllocError>
        requires joins { after_join self.old.views silo ≡ Ok (with_join self.old.views silo) }
        requires placed { IsOk (placed settings.now self.old.places silo stated.now) }
        ensures made { OnOk result (changed settings.now self.old (Join silo stated.now) ≡ Ok self.new) }
        ensures replaced { IfOk result (λ replaced. replaced ≡ replaced_by self.old (Join silo stated.now)) }
        ensures unchanged { OnErr result (self.new ≡ self.old) }
    {
        match self.places.add(silo, stated) {
            Ok(()) => {}
            Err(_) => return Err(AllocError),
        }
        match self.views.join(silo) {
            Ok(joined) => Ok(joined.replaced),
            Err(_) => {
                self.places.remove(&silo);
                Err(AllocError)
            }
        }
    }

    /// An Active silo becomes Leaving. Refused by 202 where it never joined, by 203 where it is Leaving or Dead. Needs no memory.
    pub fn leave(&mut self, silo: &SiloAddress) -> Result<(), ChangeRefusal>
        ensures left { (settings : SettingsValue) → OnOk result (changed settings self.old (Leave silo.now) ≡ Ok self.new) }
        ensures refused { (settings : SettingsValue) → IfErr result (λ refusal. IsSomeAnd (change_refusal_number refusal) (λ number. changed settings self.old (Leave silo.now) ≡ Err number)) }
        ensures unchanged { OnErr result (self.new ≡ self.old) }
    {
        match self.views.leave(silo) {
            Ok(_) => Ok(()),
            Err(refusal) => Err(ChangeRefusal::Views(refusal)),
        }
    }

    /// An Active or Leaving silo becomes Dead. Refused by 202 where it never joined, by 204 where it is Dead. Needs no memory.
    pub fn declare_dead(&mut self, silo: &SiloAddress) -> Result<(), ChangeRefusal>
        ensures dead { (settings : SettingsValue) → OnOk result (changed settings self.old (Die silo.now) ≡ Ok self.new) }
        ensures refused { (settings : SettingsValue) → IfErr result (λ refusal. IsSomeAnd (change_refusal_number refusal) (λ number. changed settings self.old (Die silo.now) ≡ Err number)) }
        ensures unchanged { OnErr result (self.new ≡ self.old) }
    {
        match self.views.declare_dead(silo) {
            Ok(_) => Ok(()),
            Err(refusal) => Err(ChangeRefusal::Views(refusal)),
        }
    }
}

// A silo that is listed gets the places stated for it, but for one that is Dead.
fn place_listed(places: &mut Places, settings: &Settings, one: &Listed) -> Result<(), AllocError>
    requires { MayBeListed settings.now places.old (listed_of one.now) }
    ensures { OnOk result (places_of_listed settings.now places.old (listed_of one.now) ≡ Ok places.new) }
{
    if one.status == Status::Dead {
        return Ok(());
    }
    match places.add(one.silo, &one.places) {
        Ok(()) => Ok(()),
        Err(_) => Err(AllocError),
    }
}
