ghost use Rattle.std.specs.Prelude.{◌≡◌, ◌==◌, ◌+◌, ◌<◌, Err, IfErr, IsOk, IsTrue, Ok, OnErr, false};
ghost use Rattle.directory_node.specs.Follows.{Follows};
ghost use Rattle.directory_node.specs.MembershipModel.{change_refusal_number};
ghost use Rattle.directory_silo.specs.AnswerModel.{heard_as};
ghost use Rattle.directory_silo.specs.Later.{all_let_join, number_first};
ghost use Rattle.directory_rules.specs.Membership.{Join, Leave, Die, changed, replaced_by};
ghost use Rattle.directory_silo.specs.Numbers.{IsNumberedUnlessMemory, silo_refusal_number};
ghost use Rattle.directory_rules.specs.ListedModel.{all_listed_of};
ghost use Rattle.silo_rules.specs.Begun.{told_view};
ghost use Rattle.silo_rules.specs.Told.{IsNever, heard_by, told};

use crate::known::{is_before, is_known_death, is_known_join, is_known_leave};
use crate::later::all_let_join;
use crate::{Silo, SiloRefusal};
use directory_node::{ChangeRefusal, Membership};
use directory_rules::Listed;
use membership_view::ViewsError;
use silo_address::SiloAddress;
use silo_rules::News;

// Changes of membership, in the order in which they were decided. To know a change is not to see its view: nothing else changes until
// `see`, but that a silo takes no step before its own join, and none once it is Dead.
impl Silo {
    /// The silo is told that a silo joined, which made that version, with the places stated for it; none are stated where they are
    /// hashed. Refused by 212 where the version was told by the view with which the silo began, by 207 where the version was told
    /// before and says otherwise, by 206 where it isn't the next one, then by 201, 205, 402, 403
    /// (`docs/RULES.md#a-silo-by-itself`). A refusal changes nothing.
    pub fn joined(
        &mut self,
        version: u64,
        silo: SiloAddress,
        places: &[u32],
    ) -> Result<News, SiloRefusal>
        ensures told { Follows (heard_as self.new) silo_refusal_number IsOk (told self.old.node.settings self.old.membership version (Join silo places.now)) result }
        ensures numbered { IfErr result IsNumberedUnlessMemory }
        ensures node { self.new.node ≡ self.old.node }
        ensures unchanged { OnErr result (self.new ≡ self.old) }
    {
        if version <= self.membership.views().current() {
            let known = is_known_join(&self.membership, version, &silo, places);
            return again(is_before(&self.membership, version), known);
        }
        if !is_next(&self.membership, version) {
            return Err(SiloRefusal::Gap);
        }
        self.admit(silo, places)
    }

    /// The silo is told that a silo began to leave, which made that version. Refused by 212, 207, 206, then by 202, and by 203 where
    /// the silo is Leaving or Dead (`docs/RULES.md#a-silo-by-itself`). Needs no memory.
    pub fn leaving(&mut self, version: u64, silo: &SiloAddress) -> Result<News, SiloRefusal>
        ensures told { Follows (heard_as self.new) silo_refusal_number IsNever (told self.old.node.settings self.old.membership version (Leave silo.now)) result }
        ensures node { self.new.node ≡ self.old.node }
        ensures unchanged { OnErr result (self.new ≡ self.old) }
    {
        if version <= self.membership.views().current() {
            let known = is_known_leave(&self.membership, version, silo);
            return again(is_before(&self.membership, version), known);
        }
        if !is_next(&self.membership, version) {
            return Err(SiloRefusal::Gap);
        }
        match self.membership.leave(silo) {
            Ok(()) => Ok(News::Made),
            Err(refusal) => Err(SiloRefusal::of_change(refusal)),
        }
    }

    /// The silo is told that a silo died, which made that version. Refused by 212, 207, 206, then by 202, 204
    /// (`docs/RULES.md#a-silo-by-itself`). Needs no memory.
    pub fn dead(&mut self, version: u64, silo: &SiloAddress) -> Result<News, SiloRefusal>
        ensures told { Follows (heard_as self.new) silo_refusal_number IsNever (told self.old.node.settings self.old.membership version (Die silo.now)) result }
        ensures node { self.new.node ≡ self.old.node }
        ensures unchanged { OnErr result (self.new ≡ self.old) }
    {
        if version <= self.membership.views().current() {
            let known = is_known_death(&self.membership, version, silo);
            return again(is_before(&self.membership, version), known);
        }
        if !is_next(&self.membership, version) {
            return Err(SiloRefusal::Gap);
        }
        match self.membership.declare_dead(silo) {
            Ok(()) => Ok(News::Made),
            Err(refusal) => Err(SiloRefusal::of_change(refusal)),
        }
    }

    /// The silo is told the view of a version, in place of all changes up to it: it knows of the changes after that alone. The Dead
    /// are left out but for the newest silo of each endpoint, and the silo itself joins later. Refused by 211 where it was told a
    /// change before, or a view above version 0; by 210 where no history may begin with that version; then silo by silo, the first
    /// one first, by 210, 205, 402, 403; last by 201 where the silo itself, or a newer one of its endpoint, is listed
    /// (`docs/RULES.md#a-silo-by-itself`). A refusal changes nothing. Memory runs out only where nothing refuses the view.
    pub fn begins(&mut self, version: u64, rows: &[Listed]) -> Result<(), SiloRefusal>
        ensures begun { Follows (λ _. self.new.membership) silo_refusal_number IsOk (told_view self.old.node.settings self.old.membership self.old.node.host.silo version (all_listed_of rows.now)) result }
        ensures numbered { IfErr result IsNumberedUnlessMemory }
        ensures node { self.new.node ≡ self.old.node }
        ensures unchanged { OnErr result (self.new ≡ self.old) }
    {
        let begun = self.begun(version, rows)?;
        self.membership = begun;
        Ok(())
    }

    // What the silo knows once it was told that view.
    fn begun(&self, version: u64, rows: &[Listed]) -> Result<Membership, SiloRefusal>
        ensures begun { Follows (λ membership. membership) silo_refusal_number IsOk (told_view self.now.node.settings self.now.membership self.now.node.host.silo version (all_listed_of rows.now)) result }
        ensures numbered { IfErr result IsNumberedUnlessMemory }
    {
        if self.membership.views().current() > 0 {
            return Err(SiloRefusal::ToldBefore);
        }
        let settings = self.node.settings();
        let begun = match Membership::begun(self.alloc, &settings, version, rows) {
            Ok(begun) => begun,
            Err(refusal) => return Err(self.not_begun(refusal, rows)),
        };
        if !begun.views().is_newest(&self.address()) {
            return Err(SiloRefusal::Views(ViewsError::OldGeneration));
        }
        Ok(begun)
    }

    // Why nothing begins with these silos: their refusal. Where there is none, memory ran out, and 201 comes before that.
    fn not_begun(&self, refusal: ChangeRefusal, rows: &[Listed]) -> SiloRefusal
        ensures number { silo_refusal_number result ≡ number_first (all_let_join self.now.node.host.silo (all_listed_of rows.now)) (change_refusal_number refusal) }
        ensures numbered { IsNumberedUnlessMemory result }
    {
        let refusal = SiloRefusal::of_change(refusal);
        if refusal.number().is_some() {
            return refusal;
        }
        if all_let_join(&self.address(), rows) {
            return SiloRefusal::OutOfMemory;
        }
        SiloRefusal::Views(ViewsError::OldGeneration)
    }

    // A join of the next version is told.
    fn admit(&mut self, silo: SiloAddress, places: &[u32]) -> Result<News, SiloRefusal>
        ensures told { Follows (heard_as self.new) silo_refusal_number IsOk (heard_by (changed self.old.node.settings self.old.membership (Join silo places.now)) (replaced_by self.old.membership (Join silo places.now))) result }
        ensures numbered { IfErr result IsNumberedUnlessMemory }
        ensures node { self.new.node ≡ self.old.node }
        ensures unchanged { OnErr result (self.new ≡ self.old) }
    {
        let settings = self.node.settings();
        match self.membership.join(&settings, silo, places) {
            Ok(replaced) => Ok(News::of_change(replaced)),
            Err(refusal) => Err(SiloRefusal::of_change(refusal)),
        }
    }
}

// Whether the version, which isn't known, is the next one.
fn is_next(membership: &Membership, version: u64) -> bool
    requires { membership.now.views.version < version }
    ensures { result ≡ (version == membership.now.views.version + 1) }
{
    version - 1 == membership.views().current()
}

// What is told of a change of a version that is known.
fn again(before: bool, known: bool) -> Result<News, SiloRefusal>
    ensures before { IsTrue before → result ≡ Err SiloRefusal.BeforeHistory }
    ensures known { before ≡ false → IsTrue known → result ≡ Ok News.Known }
    ensures otherwise { before ≡ false → known ≡ false → result ≡ Err SiloRefusal.SaysOtherwise }
{
    if before {
        return Err(SiloRefusal::BeforeHistory);
    }
    if known {
        Ok(News::Known)
    } else {
        Err(SiloRefusal::SaysOtherwise)
    }
}
