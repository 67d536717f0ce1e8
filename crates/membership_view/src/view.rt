ghost use Rattle.std.specs.Prelude.{◌≡◌, ◌↔◌, ◌++◌, [], IsTrue, IfOk, OnOk};
ghost use Rattle.membership_view.specs.View.{IsByAddress, active_silos, listed_rows, status_of};
ghost use Rattle.membership_view.specs.Listing.{before, last_of, outlived_at};
ghost use Rattle.membership_view.specs.Views.{rows_in};

use crate::{Row, Status};
use silo_address::SiloAddress;
use std::alloc::{AllocError, Global};
use std::collections::BTreeMap;
use std::marker::Model;

/// A view: one version of the membership, with the status of each silo that has joined by then. Of the Dead it lists those alone that are the
/// newest of their endpoint (`docs/RULES.md#membership`).
#[derive(Drop)]
pub struct View {
    version: u64,
    rows: Vec<(SiloAddress, Status)>,
}

impl Model for View {
    ghost use Rattle.membership_view.specs.View.{ViewValue};

    ghost Value = { ViewValue };

    ghost use Rattle.membership_view.specs.View.{IsByAddress};

    ghost view = { λ v. record { version = v.version; rows = v.rows.items } };

    ghost invariant = { λ v. IsByAddress (record { version = v.version; rows = v.rows.items }) };
}

impl View {
    // The view of one version, as the rows tell it.
    pub(crate) fn read(
        alloc: Global,
        version: u64,
        rows: &BTreeMap<SiloAddress, Row>,
    ) -> Result<View, AllocError>
        ensures { IfOk result (λ view. view ≡ record { version = version; rows = listed_rows (rows_in version rows.now.entries) }) }
    {
        let mut shown = Vec::with_capacity(alloc, rows.len())?;
        let mut last = None;
        for (silo, row) in rows {
            if let Some(status) = row.status(version) {
                show_before(&mut shown, last, silo)?;
                last = Some((*silo, status));
            }
        }
        show_last(&mut shown, last)?;
        Ok(View {
            version,
            rows: shown,
        })
    }

    /// The view before the first change: version 0, without silos.
    pub fn empty(alloc: Global) -> View
        ensures { result ≡ record { version = 0; rows = [] } }
    {
        View {
            version: 0,
            rows: Vec::new(alloc),
        }
    }

    /// The view's version.
    pub fn version(&self) -> u64
        ensures { result ≡ self.now.version }
    {
        self.version
    }

    /// Each silo that the view lists, with its status, in order of address: those that have joined by this version, but for a Dead one of
    /// whose endpoint a newer one is listed.
    pub fn rows(&self) -> &[(SiloAddress, Status)]
        ensures { result.now ≡ self.now.rows }
    {
        &self.rows
    }

    /// The status of a silo in this view. One that isn't listed is Dead where a newer silo of its endpoint is; else `None`: it had not
    /// joined by this version.
    pub fn status(&self, silo: &SiloAddress) -> Option<Status>
        ensures { result ≡ status_of self.now silo.now }
    {
        match self.rows.binary_search_by_key(silo, |row| row.0) {
            Ok(index) => Some(self.rows[index].1),
            Err(index) => outlived_at(&self.rows, index, silo),
        }
    }

    /// The silos that are Active in this view, in order of address. Fails only when memory runs out.
    pub fn active(&self, alloc: Global) -> Result<Vec<SiloAddress>, AllocError>
        ensures { IfOk result (λ silos. silos.items ≡ active_silos self.now) }
    {
        self.rows
            .iter()
            .filter(|row| row.1.is_active())
            .map(|row| row.0)
            .collect(alloc)
    }

    /// A law: each silo has one row, and the rows are in order of address.
    pub fn in_order(&self)
        ensures { IsByAddress self.now }
    {
        let _version = self.version;
    }

    /// An equal copy. Fails only when memory runs out.
    pub fn copy(&self) -> Result<View, AllocError>
        ensures { IfOk result (λ view. view ≡ self.now) }
    {
        let rows = self.rows.clone()?;
        Ok(View {
            version: self.version,
            rows,
        })
    }

    /// Whether both have the same version and rows.
    pub fn same(&self, other: &View) -> bool
        ensures { IsTrue result ↔ (self.now ≡ other.now) }
    {
        self.version == other.version && same_rows(&self.rows, &other.rows)
    }
}

// A silo's row is shown in front of that of the next one, if there is one, but where it is Dead and the next one is of its endpoint.
fn show_before(
    shown: &mut Vec<(SiloAddress, Status)>,
    row: Option<(SiloAddress, Status)>,
    next: &SiloAddress,
) -> Result<(), AllocError>
    ensures { OnOk result (shown.new.items ≡ shown.old.items ++ before row next.now) }
{
    let Some((silo, status)) = row else {
        return Ok(());
    };
    if status == Status::Dead && silo.same_endpoint(next) {
        return Ok(());
    }
    shown.push((silo, status))?;
    Ok(())
}

// The last silo's row is shown, if there is one.
fn show_last(
    shown: &mut Vec<(SiloAddress, Status)>,
    row: Option<(SiloAddress, Status)>,
) -> Result<(), AllocError>
    ensures { OnOk result (shown.new.items ≡ shown.old.items ++ last_of row) }
{
    if let Some(row) = row {
        shown.push(row)?;
    }
    Ok(())
}

// A silo that isn't listed, but would be at that index, is Dead where the row there is of its endpoint.
fn outlived_at(rows: &[(SiloAddress, Status)], index: usize, silo: &SiloAddress) -> Option<Status>
    ensures { result ≡ outlived_at rows.now index silo.now }
{
    let (next, _) = rows.get(index)?;
    if silo.same_endpoint(next) {
        return Some(Status::Dead);
    }
    None
}

fn same_rows(one: &[(SiloAddress, Status)], other: &[(SiloAddress, Status)]) -> bool
    ensures { IsTrue result ↔ (one.now ≡ other.now) }
{
    *one == *other
}
