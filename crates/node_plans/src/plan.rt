ghost use Rattle.std.specs.Prelude.{◌≡◌, [], ◌∷◌, IfOk, Some};
ghost use Rattle.directory_rules.specs.Cache.{hint_of, in_front};
ghost use Rattle.directory_rules.specs.State.{Node as NodeValue};
ghost use Rattle.directory_rules.specs.Step.{silently};
ghost use Rattle.directory_rules.specs.declared.Effect.TheVariants.{Cached};
ghost use Rattle.node_plans.specs.Plans.{changed, step_by};

use crate::Transition;
use directory_letters::Letter;
use directory_rules::Effect;
use grain_table::{HashedRequest, Table};
use host_activations::Renewal;
use membership_view::View;
use range_recovery::{Recovery, Report};
use ring_range::RingRange;
use seal_snapshot::{Gathering, Page, Snapshot};
use silo_address::{ActivationId, Entry, GrainId, SiloAddress};
use std::alloc::{AllocError, Global};
use std::collections::BTreeMap;

/// What a step is to do: the letters that it sends, in order, what it did, and the change that the node has still to make.
/// A plan has changed nothing yet, so that whoever finds no room for its letters may drop it (`docs/RULES.md#the-world`).
#[derive(Drop)]
pub struct Plan {
    pub letters: Vec<Letter>,
    pub effect: Effect,
    pub change: Change,
}

/// What a step changes of its node.
#[derive(Drop)]
pub enum Change {
    /// Nothing.
    Nothing,
    /// A view is seen.
    Sees(Box<Sight>),
    /// Every outstanding request has a new number.
    Renews(Renewal),
    /// Every outstanding request about the grain has a new number.
    RenewsAbout(GrainId),
    /// An activation of the grain begins, in the place of a previous one if one is named, and asks to be entered.
    Starts {
        grain: GrainId,
        previous: Option<ActivationId>,
    },
    /// The grain's activation asks to be taken out.
    Closes(GrainId),
    /// The host asks where the grain is.
    Asks(GrainId),
    /// A request is served.
    Serves(HashedRequest),
    /// The activation whose Register has the number is firm.
    Confirms(u64),
    /// The activation whose Register has the number goes: another one has its grain, which is learnt.
    Yields {
        number: u64,
        entry: Entry,
    },
    /// The activation whose Deregister has the number goes.
    Ends(u64),
    /// The find that has the number ends.
    EndsFind(u64),
    /// The find that has the number ends, and what it found is learnt.
    Learns {
        number: u64,
        entry: Entry,
    },
    /// The hint of the grain was used: it is the most recent one.
    UsesHint(GrainId),
    /// Just this hint is forgotten.
    Forgets {
        grain: GrainId,
        activation: ActivationId,
    },
    /// The snapshot of that version and range for that silo goes from the shelf.
    Discards {
        version: u64,
        range: RingRange,
        to: SiloAddress,
    },
    /// The digest of the snapshot of that version and range for that silo is kept, if it's on the shelf.
    Digests {
        version: u64,
        range: RingRange,
        to: SiloAddress,
        digest: [u8; 32],
    },
    /// A page is put behind those gathered for its piece.
    Gathers(Page),
    /// Nothing is left of what was gathered for the piece of the range.
    GathersAnew(RingRange),
    /// The piece of the range has its entries.
    Installs {
        range: RingRange,
        entries: Table,
    },
    /// The piece of the recovery's range recovers from now on.
    Recovers(Recovery),
    /// A report is counted for the piece that recovers.
    Counts(Report),
    /// A silo that has seen the version has nothing in these ranges: that is counted for each of them that recovers.
    Empties {
        from: SiloAddress,
        version: u64,
        ranges: Vec<RingRange>,
    },
}

/// A sight, as far as it is made before its node changes: the view, and what the node has of it.
#[derive(Drop)]
pub struct Sight {
    /// Whether the view is the next one after that seen.
    pub next: bool,
    pub view: View,
    /// The new ring, and the arcs from the one compared to it.
    pub transition: Transition,
    /// What it seals, if the view is the next one.
    pub sealed: Vec<Snapshot>,
    /// What pieces wait by then, under their starts.
    pub gatherings: BTreeMap<u32, Gathering>,
    pub recoveries: BTreeMap<u32, Recovery>,
    /// A new number for every outstanding request.
    pub renewal: Renewal,
}

impl Sight {
    /// The sight in a box, as a plan has it. Fails only when memory runs out.
    pub fn boxed(self, alloc: Global) -> Result<Box<Sight>, AllocError>
        ensures { IfOk result (λ boxed. boxed.value ≡ self) }
    {
        let sight = Box::new(alloc, self)?;
        Ok(sight)
    }
}

impl Plan {
    /// A plan without a letter.
    pub fn silent(alloc: Global, effect: Effect, change: Change) -> Plan
        ensures planned { (node : NodeValue) → step_by node result ≡ record { node = changed change node; letters = []; effect = effect } }
        ensures change { result.change ≡ change }
    {
        Plan {
            letters: Vec::new(alloc),
            effect,
            change,
        }
    }

    /// A plan by which nothing is sent or changed.
    pub fn idle(alloc: Global, effect: Effect) -> Plan
        ensures planned { (node : NodeValue) → step_by node result ≡ record { node = node; letters = []; effect = effect } }
        ensures change { result.change ≡ Change.Nothing }
    {
        Plan::silent(alloc, effect, Change::Nothing)
    }

    /// A plan with one letter. Fails only when memory runs out.
    pub fn of_one(
        alloc: Global,
        letter: Letter,
        effect: Effect,
        change: Change,
    ) -> Result<Plan, AllocError>
        ensures planned { IfOk result (λ plan. (node : NodeValue) → step_by node plan ≡ record { node = changed change node; letters = letter ∷ []; effect = effect }) }
        ensures change { IfOk result (λ plan. plan.change ≡ change) }
    {
        match list_of(alloc, letter) {
            Ok(letters) => Ok(Plan {
                letters,
                effect,
                change,
            }),
            Err(error) => {
                drop(change);
                Err(error)
            }
        }
    }

    /// The plan of a find whose hint the cache had, that activation: the hint is used.
    pub fn of_hint(alloc: Global, grain: &GrainId, activation: ActivationId) -> Plan
        ensures planned { (node : NodeValue) → hint_of node.cache grain.now ≡ Some activation → step_by node result ≡ silently (record node { cache = in_front node.cache grain.now activation }) (Cached (record { grain = grain.now; activation = activation })) }
        ensures change { result.change ≡ Change.UsesHint grain.now }
    {
        let grain = *grain;
        Plan::silent(
            alloc,
            Effect::Cached(Entry { grain, activation }),
            Change::UsesHint(grain),
        )
    }
}

/// The letter alone, as a list. Fails only when memory runs out.
pub fn list_of(alloc: Global, letter: Letter) -> Result<Vec<Letter>, AllocError>
    ensures { IfOk result (λ letters. letters.items ≡ letter ∷ []) }
{
    let mut letters = Vec::with_capacity(alloc, 1)?;
    letters.push(letter)?;
    Ok(letters)
}
