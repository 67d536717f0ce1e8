//! Arcs under the silos whose they are, so that a silo comes to its own without a look at the others.
ghost use Rattle.std.specs.Prelude.{◌≡◌, ◌++◌, List, [], ◌∷◌, Some, if◌then◌else◌, IfOk, OnOk};
ghost use Rattle.range_moves.specs.declared.RingArc.{RingArc};
ghost use Rattle.silo_address.specs.Silo.{Silo};
ghost use Rattle.directory_rules.specs.Sight.{is_owner};
ghost use Rattle.grain_partition.specs.BySilo.{Puts, arcs_under, giver_of, given_by, owned_by, stands_under};

use crate::own_arcs::OwnArcs;
use range_moves::RingArc;
use silo_address::SiloAddress;
use std::alloc::{AllocError, Global};
use std::collections::BTreeMap;
use std::marker::Model;

/// Arcs, in the order in which they come, and beside them under each silo those that it owns after and those that it gives up
/// (`docs/RULES.md#arcs-and-moves`).
#[derive(Drop)]
pub struct ArcsBySilo {
    arcs: Vec<RingArc>,
    owned: BTreeMap<SiloAddress, OwnArcs>,
    given: BTreeMap<SiloAddress, OwnArcs>,
}

impl Model for ArcsBySilo {
    ghost use Rattle.std.specs.Prelude.{List};
    ghost use Rattle.range_moves.specs.declared.RingArc.{RingArc};

    ghost Value = { List RingArc };

    ghost use Rattle.grain_partition.specs.BySilo.{AreBySilo};

    ghost view = { λ a. a.arcs.items };

    ghost invariant = { λ a. AreBySilo a.arcs.items a.owned.entries a.given.entries };
}

impl ArcsBySilo {
    /// These arcs. Costs a logarithm for each. Fails only when memory runs out.
    pub fn of(alloc: Global, arcs: Vec<RingArc>) -> Result<ArcsBySilo, AllocError>
        ensures { IfOk result (λ by_silo. by_silo ≡ arcs.items) }
    {
        let owned = owned_arcs(alloc, &arcs)?;
        let given = given_arcs(alloc, &arcs)?;
        Ok(ArcsBySilo { arcs, owned, given })
    }

    /// All of them.
    pub fn all(&self) -> &[RingArc]
        ensures { result.now ≡ self.now }
    {
        &self.arcs
    }

    // Those that the silo owns after.
    pub(crate) fn owned_by(&self, silo: &SiloAddress) -> &[RingArc]
        ensures { result.now ≡ owned_by silo.now self.now }
    {
        arcs_under(&self.owned, silo)
    }

    // Those that the silo gives up.
    pub(crate) fn given_by(&self, silo: &SiloAddress) -> &[RingArc]
        ensures { result.now ≡ given_by silo.now self.now }
    {
        arcs_under(&self.given, silo)
    }
}

// The arcs under the silo.
fn arcs_under<'a>(under: &'a BTreeMap<SiloAddress, OwnArcs>, silo: &SiloAddress) -> &'a [RingArc]
    ensures { result.now ≡ arcs_under silo.now under.now.entries }
{
    match under.get(silo) {
        Some(own) => own.arcs(),
        None => &[],
    }
}

// The arcs under those who own them after.
fn owned_arcs(alloc: Global, arcs: &[RingArc]) -> Result<BTreeMap<SiloAddress, OwnArcs>, AllocError>
    ensures { IfOk result (λ owned. (silo : Silo) → arcs_under silo owned.entries ≡ owned_by silo arcs.now) }
{
    let mut owned = BTreeMap::new(alloc);
    'arcs: for arc in arcs {
        put_under(alloc, &mut owned, arc.to, arc)?;
    }
    Ok(owned)
}

// The arcs under those who give them up.
fn given_arcs(alloc: Global, arcs: &[RingArc]) -> Result<BTreeMap<SiloAddress, OwnArcs>, AllocError>
    ensures { IfOk result (λ given. (silo : Silo) → arcs_under silo given.entries ≡ given_by silo arcs.now) }
{
    let mut given = BTreeMap::new(alloc);
    'arcs: for arc in arcs {
        put_under(alloc, &mut given, giver_of(arc), arc)?;
    }
    Ok(given)
}

// The silo that gives the arc up.
fn giver_of(arc: &RingArc) -> Option<SiloAddress>
    ensures { result ≡ giver_of arc.now }
{
    arc.moved()?.from
}

// An arc more under the silo, if there is one.
fn put_under(
    alloc: Global,
    under: &mut BTreeMap<SiloAddress, OwnArcs>,
    owner: Option<SiloAddress>,
    arc: &RingArc,
) -> Result<(), AllocError>
    ensures { OnOk result ((silo : Silo) → arcs_under silo under.new.entries ≡ arcs_under silo under.old.entries ++ (if is_owner silo owner then arc.now ∷ [] else [])) }
{
    match owner {
        Some(silo) => put_at(alloc, under, silo, arc),
        None => Ok(()),
    }
}

// An arc more under the silo.
fn put_at(
    alloc: Global,
    under: &mut BTreeMap<SiloAddress, OwnArcs>,
    silo: SiloAddress,
    arc: &RingArc,
) -> Result<(), AllocError>
    ensures { OnOk result (Puts silo (arcs_under silo under.old.entries ++ arc.now ∷ []) under.old.entries under.new.entries) }
{
    if under.contains_key(&silo) {
        return push_at(under, &silo, arc);
    }
    under.insert(silo, OwnArcs::of(alloc, arc)?)?;
    Ok(())
}

// An arc more under the silo, which has some.
#[tactic(auto, using(std::proofs::lemmas::Map::Steps::set_value_same))]
fn push_at(
    under: &mut BTreeMap<SiloAddress, OwnArcs>,
    silo: &SiloAddress,
    arc: &RingArc,
) -> Result<(), AllocError>
    ensures { OnOk result ((arcs : List RingArc) → stands_under silo.now under.old.entries ≡ Some arcs → Puts silo.now (arcs ++ arc.now ∷ []) under.old.entries under.new.entries) }
{
    let Some(own) = under.get_mut(silo) else {
        return Ok(());
    };
    own.push(arc)
}
