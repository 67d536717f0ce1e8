ghost use Rattle.std.specs.Map.Iter.{ShowsInOrder, deref_pair};
ghost use Rattle.std.specs.Prelude.{◌≡◌, ◌≢◌, ◌<◌, ◌≤◌, ◌↔◌, length, IsTrue, IfOk, IfErr, IsErrOf, IsSomeAnd, OnOk, OnErr, IfSome, IsSome, Ok, Err, true, false};
ghost use Rattle.silo_address.specs.Silo.{Silo};
ghost use Rattle.membership_view.specs.Changes.{Join, Leave, Die, after, changed, is_newest, joined_rows, occupant, with_death, with_join, with_leave};
ghost use Rattle.membership_view.specs.Beginning.{after_listing, beginning, is_known_endpoint, with_listed};
ghost use Rattle.membership_view.specs.Refusal.{Refuses, RefusesListing, RefusesOrLacksMemory, views_error_number};
ghost use Rattle.membership_view.specs.declared.status.Status.{Status as StatusSeen};
ghost use Rattle.membership_view.specs.Row.{leaving, dying};
ghost use Rattle.membership_view.specs.Views.{dying_version, first_views, joining_version, leaving_version, most_known, row_of, status_at, view_at, views_from};
ghost use Rattle.membership_view.specs.Whole.{IsViews, OlderAreDead};
ghost use Rattle.membership_view.specs.declared.row.Row.{Row as RowSeen};
ghost use Rattle.membership_view.specs.declared.status.Status.TheVariants.{Active, Dead};

use crate::{Row, Status, View, ViewsError, endpoint};
use silo_address::SiloAddress;
use std::alloc::{AllocError, Global};
use std::collections::BTreeMap;
use std::collections::btree_map::Iter;
use std::marker::Model;

/// The greatest number of silos that may be known: 2^62 - 1.
pub const MAX_SILOS: usize = (1 << 62) - 1;

/// The greatest version with which views may begin: 2^62 - 1.
pub const MAX_FIRST: u64 = (1 << 62) - 1;

/// All views from a first version on. That is version 0, the empty view, or a later one, of which only is known what it lists. Each
/// accepted change makes the next version (`docs/RULES.md#membership`).
#[derive(Drop)]
pub struct Views {
    limit: usize,
    first: u64,
    version: u64,
    rows: BTreeMap<SiloAddress, Row>,
}

impl Model for Views {
    ghost use Rattle.membership_view.specs.Views.{ViewsValue};

    ghost Value = { ViewsValue };

    ghost use Rattle.membership_view.specs.Whole.{IsViews};

    ghost view = { λ v. record { limit = v.limit; first = v.first; version = v.version; rows = v.rows.entries } };

    ghost invariant = { λ v. IsViews (record { limit = v.limit; first = v.first; version = v.version; rows = v.rows.entries }) };
}

/// The outcome of a join.
#[derive(Clone, Copy, PartialEq, Eq)]
pub struct Joined {
    /// The version that the join made.
    pub version: u64,
    /// The older silo of the same endpoint that became Dead in that version, if there was one that wasn't Dead.
    pub replaced: Option<SiloAddress>,
}

impl Views {
    /// Version 0 alone, the empty view. At most `limit` silos (1 to 2^62 - 1) may ever join.
    pub fn new(alloc: Global, limit: usize) -> Views
        requires limit_above { 0 < limit }
        requires limit_below { limit ≤ MAX_SILOS }
        ensures { result ≡ first_views limit }
    {
        Views {
            limit,
            first: 0,
            version: 0,
            rows: BTreeMap::new(alloc),
        }
    }

    /// A later version alone, which lists nobody yet; `list` adds whom it lists. At most `limit` silos (1 to 2^62 - 1) may be known.
    /// Refused by 210 where the version is above 2^62 - 1.
    pub fn beginning(alloc: Global, limit: usize, version: u64) -> Result<Views, ViewsError>
        requires limit_above { 0 < limit }
        requires limit_below { limit ≤ MAX_SILOS }
        ensures begun { IfOk result (λ views. views ≡ views_from limit version) }
        ensures not_listable { IsErrOf result ViewsError.NotListable ↔ ¬ (version < most_known) }
        ensures only { IfErr result (λ refusal. refusal ≡ ViewsError.NotListable) }
    {
        if version > MAX_FIRST {
            return Err(ViewsError::NotListable);
        }
        Ok(Views {
            limit,
            first: version,
            version,
            rows: BTreeMap::new(alloc),
        })
    }

    /// The first version lists a silo, and what it is there. Refused by 210 where that is version 0, or where a silo of its endpoint is
    /// known, since one of each endpoint is listed; then by 205 where as many silos are known as may be
    /// (`docs/RULES.md#membership`).
    pub fn list(&mut self, silo: SiloAddress, status: Status) -> Result<(), ViewsError>
        ensures listed { OnOk result (after_listing self.old silo status ≡ Ok self.new) }

        // Memory runs out only at a silo that nothing refuses.
        ensures refused { IfErr result (RefusesListing self.old silo status) }
        ensures unchanged { OnErr result (self.new ≡ self.old) }
    {
        self.may_list(&silo)?;
        match self.put_listed(silo, status) {
            Ok(()) => Ok(()),
            Err(_) => Err(ViewsError::OutOfMemory),
        }
    }

    /// Whether the first version may list a silo: fails as `list` would, whatever the silo is there. Needs no memory.
    pub fn may_list(&self, silo: &SiloAddress) -> Result<(), ViewsError>
        ensures lists { OnOk result ((status : StatusSeen) → after_listing self.now silo.now status ≡ Ok (with_listed self.now silo.now status)) }
        ensures later { OnOk result (0 < self.now.first) }
        ensures apart { OnOk result (is_known_endpoint silo.now self.now.rows ≡ false) }
        ensures room { OnOk result (length self.now.rows < self.now.limit) }
        ensures refused { IfErr result (λ refusal. IsSomeAnd (views_error_number refusal) (λ number. (status : StatusSeen) → after_listing self.now silo.now status ≡ Err number)) }
    {
        if self.first == 0 || endpoint::is_known(&self.rows, silo) {
            return Err(ViewsError::NotListable);
        }
        if self.limit <= self.rows.len() {
            return Err(ViewsError::RowsFull);
        }
        Ok(())
    }

    /// Whether every silo of this one's endpoint that is known has a lower generation.
    pub fn is_newest(&self, silo: &SiloAddress) -> bool
        ensures { result ≡ is_newest silo.now self.now.rows }
    {
        endpoint::is_newest(&self.rows, silo)
    }

    /// The version with which these views begin.
    pub fn first(&self) -> u64
        ensures { result ≡ self.now.first }
    {
        self.first
    }

    /// The current version.
    pub fn current(&self) -> u64
        ensures { result ≡ self.now.version }
    {
        self.version
    }

    /// How many silos may be known.
    pub fn limit(&self) -> usize
        ensures { result ≡ self.now.limit }
    {
        self.limit
    }

    /// How many silos are known.
    pub fn row_count(&self) -> usize
        ensures { result ≡ length self.now.rows }
    {
        self.rows.len()
    }

    /// The row of each silo that is known, by address.
    pub fn rows(&self) -> Iter<'_, SiloAddress, Row>
        ensures rest { result ≡ self.now.rows }
        ensures runs { ShowsInOrder (deref_pair {K = Silo} {X = RowSeen}) }
    {
        self.rows.iter()
    }

    /// The row of a silo; `None` where it isn't known.
    pub fn row(&self, silo: &SiloAddress) -> Option<Row>
        ensures { result ≡ row_of self.now silo.now }
    {
        self.rows.get(silo).copied()
    }

    /// The version in which a silo joined, or the first one where that lists it; `None` where it isn't known.
    pub fn joined_at(&self, silo: &SiloAddress) -> Option<u64>
        ensures { result ≡ joining_version self.now silo.now }
    {
        Some(self.row(silo)?.joined)
    }

    /// The version in which a silo became Leaving, or the first one; `None` where it never did.
    pub fn left_at(&self, silo: &SiloAddress) -> Option<u64>
        ensures { result ≡ leaving_version self.now silo.now }
    {
        self.row(silo)?.left
    }

    /// The version in which a silo became Dead, or the first one; `None` where it never did.
    pub fn dead_at(&self, silo: &SiloAddress) -> Option<u64>
        ensures { result ≡ dying_version self.now silo.now }
    {
        self.row(silo)?.dead
    }

    /// The status of a silo in a version, as its row tells it; `None` where it isn't known or had not joined by then, or that version has
    /// not been made.
    pub fn status(&self, version: u64, silo: &SiloAddress) -> Option<Status>
        ensures { result ≡ status_at self.now version silo.now }
    {
        if version > self.version {
            return None;
        }
        self.row(silo)?.status(version)
    }

    /// Whether a silo is Dead in the view of a version.
    pub fn is_dead(&self, version: u64, silo: &SiloAddress) -> bool
        ensures { IsTrue result ↔ (status_at self.now version silo.now ≡ Some Dead) }
    {
        self.status(version, silo) == Some(Status::Dead)
    }

    /// The view of a version; `None` where that version has not been made. Fails only when memory runs out.
    pub fn view(&self, alloc: Global, version: u64) -> Result<Option<View>, AllocError>
        ensures made { IfOk result (λ view. IsSome view ↔ (version ≤ self.now.version)) }
        ensures exact { IfOk result (λ view. IfSome view (λ view. view ≡ view_at self.now version)) }
    {
        if version > self.version {
            return Ok(None);
        }
        let view = View::read(alloc, version, &self.rows)?;
        Ok(Some(view))
    }

    /// A silo joins; an older one of its endpoint that isn't Dead becomes Dead in the same version. Refused by 201 where a
    /// silo of its endpoint with this generation or a higher one has ever joined, then by 205 where as many silos are known
    /// as may be (`docs/RULES.md#membership`).
    pub fn join(&mut self, silo: SiloAddress) -> Result<Joined, ViewsError>
        ensures joined { OnOk result (after self.old (Join silo) ≡ Ok self.new) }
        ensures version { IfOk result (λ joined. joined.version ≡ self.new.version) }
        ensures replaced { IfOk result (λ joined. joined.replaced ≡ occupant silo self.old.rows) }

        // Memory runs out only at a join that nothing refuses.
        ensures refused { IfErr result (RefusesOrLacksMemory self.old (Join silo)) }
        ensures unchanged { OnErr result (self.new ≡ self.old) }
    {
        self.may_join(&silo)?;
        match self.admit(silo) {
            Ok(joined) => Ok(joined),
            Err(_) => Err(ViewsError::OutOfMemory),
        }
    }

    /// Whether a silo may join: fails as `join` would (`docs/RULES.md#membership`). Needs no memory.
    pub fn may_join(&self, silo: &SiloAddress) -> Result<(), ViewsError>
        ensures joins { OnOk result (after self.now (Join silo.now) ≡ Ok (with_join self.now silo.now)) }
        ensures newest { OnOk result (is_newest silo.now self.now.rows ≡ true) }
        ensures room { OnOk result (length self.now.rows < self.now.limit) }
        ensures refused { IfErr result (Refuses self.now (Join silo.now)) }
    {
        if !endpoint::is_newest(&self.rows, silo) {
            return Err(ViewsError::OldGeneration);
        }
        if self.rows.len() >= self.limit {
            return Err(ViewsError::RowsFull);
        }
        Ok(())
    }

    /// An Active silo becomes Leaving. Returns the version that this makes. Refused by 202 where the silo has never joined, by
    /// 203 where it is Leaving or Dead (`docs/RULES.md#membership`).
    pub fn leave(&mut self, silo: &SiloAddress) -> Result<u64, ViewsError>
        ensures left { OnOk result (after self.old (Leave silo.now) ≡ Ok self.new) }
        ensures version { IfOk result (λ version. version ≡ self.new.version) }
        ensures refused { IfErr result (Refuses self.old (Leave silo.now)) }
        ensures unchanged { OnErr result (self.new ≡ self.old) }
    {
        match self.status(self.version, silo) {
            Some(Status::Active) => Ok(self.begin_to_leave(silo)),
            Some(Status::Leaving | Status::Dead) => Err(ViewsError::NotActive),
            None => Err(ViewsError::UnknownSilo),
        }
    }

    /// An Active or Leaving silo becomes Dead. Returns the version that this makes. Refused by 202 where the silo has never
    /// joined, by 204 where it is Dead (`docs/RULES.md#membership`).
    pub fn declare_dead(&mut self, silo: &SiloAddress) -> Result<u64, ViewsError>
        ensures dead { OnOk result (after self.old (Die silo.now) ≡ Ok self.new) }
        ensures version { IfOk result (λ version. version ≡ self.new.version) }
        ensures refused { IfErr result (Refuses self.old (Die silo.now)) }
        ensures unchanged { OnErr result (self.new ≡ self.old) }
    {
        match self.status(self.version, silo) {
            Some(Status::Dead) => Err(ViewsError::AlreadyDead),
            Some(_) => Ok(self.die(silo)),
            None => Err(ViewsError::UnknownSilo),
        }
    }

    // A silo that may be listed is.
    fn put_listed(&mut self, silo: SiloAddress, status: Status) -> Result<(), AllocError>
        requires later { 0 < self.old.first }
        requires apart { is_known_endpoint silo self.old.rows ≡ false }
        requires room { length self.old.rows < self.old.limit }
        ensures ok { OnOk result (self.new ≡ with_listed self.old silo status) }
        ensures err { OnErr result (self.new ≡ self.old) }
    {
        let row = Row::beginning(self.first, status);
        self.rows.insert(silo, row)?;
        Ok(())
    }

    // A silo that may join joins.
    fn admit(&mut self, silo: SiloAddress) -> Result<Joined, AllocError>
        requires newest { is_newest silo self.old.rows ≡ true }
        requires room { length self.old.rows < self.old.limit }
        ensures ok { OnOk result (self.new ≡ with_join self.old silo) }
        ensures version { IfOk result (λ joined. joined.version ≡ self.new.version) }
        ensures replaced { IfOk result (λ joined. joined.replaced ≡ occupant silo self.old.rows) }
        ensures err { OnErr result (self.new ≡ self.old) }
    {
        let version = self.version + 1;
        let joined = put_in(&mut self.rows, silo, version)?;
        self.version = version;
        Ok(joined)
    }

    // An Active silo begins to leave.
    fn begin_to_leave(&mut self, silo: &SiloAddress) -> u64
        requires { status_at self.old self.old.version silo.now ≡ Some Active }
        ensures views { self.new ≡ with_leave self.old silo.now }
        ensures version { result ≡ self.new.version }
    {
        let version = self.version + 1;
        set_left(&mut self.rows, silo, version);
        self.version = version;
        version
    }

    // A silo that has joined and isn't Dead becomes Dead.
    fn die(&mut self, silo: &SiloAddress) -> u64
        requires there { IsSome (status_at self.old self.old.version silo.now) }
        requires not_dead { status_at self.old self.old.version silo.now ≢ Some Dead }
        ensures views { self.new ≡ with_death self.old silo.now }
        ensures version { result ≡ self.new.version }
    {
        let version = self.version + 1;
        set_dead(&mut self.rows, silo, version);
        self.version = version;
        version
    }

    /// A law: the invariant of all views.
    pub fn whole(&self)
        ensures { IsViews self.now }
    {
        let _version = self.version;
    }

    /// An equal copy. Fails only when memory runs out.
    pub fn copy(&self) -> Result<Views, AllocError>
        ensures { IfOk result (λ views. views ≡ self.now) }
    {
        let rows = self.rows.clone()?;
        Ok(Views {
            limit: self.limit,
            first: self.first,
            version: self.version,
            rows,
        })
    }

    /// Whether both have the same limit, versions and rows.
    pub fn same(&self, other: &Views) -> bool
        ensures { IsTrue result ↔ (self.now ≡ other.now) }
    {
        self.limit == other.limit
            && self.first == other.first
            && self.version == other.version
            && same_rows(&self.rows, &other.rows)
    }
}

// Inserts the row of a silo that joins, and marks the silo that it replaces, if there is one, as Dead from that version on.
fn put_in(
    rows: &mut BTreeMap<SiloAddress, Row>,
    silo: SiloAddress,
    version: u64,
) -> Result<Joined, AllocError>
    requires newest { is_newest silo rows.old.entries ≡ true }
    requires older_dead { OlderAreDead rows.old.entries }
    ensures ok { OnOk result (rows.new.entries ≡ joined_rows silo version rows.old.entries) }
    ensures version { IfOk result (λ joined. joined.version ≡ version) }
    ensures replaced { IfOk result (λ joined. joined.replaced ≡ occupant silo rows.old.entries) }
    ensures err { OnErr result (rows.new.entries ≡ rows.old.entries) }
{
    let replaced = endpoint::occupant(rows, &silo);
    let row = Row {
        joined: version,
        left: None,
        dead: None,
    };
    rows.insert(silo, row)?;
    if let Some(old) = replaced {
        set_dead(rows, &old, version);
    }
    Ok(Joined { version, replaced })
}

// Marks the silo's row, if it has one, as Leaving from this version on.
fn set_left(rows: &mut BTreeMap<SiloAddress, Row>, silo: &SiloAddress, version: u64)
    ensures { rows.new.entries ≡ changed (leaving version) silo.now rows.old.entries }
{
    if let Some(row) = rows.get_mut(silo) {
        row.left = Some(version);
    }
}

// Marks the silo's row, if it has one, as Dead from this version on.
fn set_dead(rows: &mut BTreeMap<SiloAddress, Row>, silo: &SiloAddress, version: u64)
    ensures { rows.new.entries ≡ changed (dying version) silo.now rows.old.entries }
{
    if let Some(row) = rows.get_mut(silo) {
        row.dead = Some(version);
    }
}

fn same_rows(one: &BTreeMap<SiloAddress, Row>, other: &BTreeMap<SiloAddress, Row>) -> bool
    ensures { IsTrue result ↔ (one.now.entries ≡ other.now.entries) }
{
    *one == *other
}
