use crate::LentGrain;
use hash_ring::Hashing;
use ring_range::RingRange;
use silo_address::{ActivationId, SiloAddress};
use std::marker::Model;

/// The phase of an activation.
#[derive(Clone, Copy, PartialEq, Eq)]
pub enum ListedPhase {
    Asking,
    Firm,
    Closing,
}

/// The state of a piece. From whom an awaiting piece expects its entries is said beside it.
#[derive(Clone, Copy, PartialEq, Eq)]
pub enum ListedState {
    Settled,
    Awaiting,
    Recovering,
}

/// An activation on its silo.
#[derive(Drop)]
pub struct ListedHeld<'a> {
    pub activation: ActivationId,
    pub grain: LentGrain<'a>,
    pub phase: ListedPhase,
}

impl<'a> Model for ListedHeld<'a> {
    ghost use Rattle.dump_rules.specs.Dump.{DumpHeld};

    ghost Value = { DumpHeld };

    ghost use Rattle.dumps.specs.DumpModel.{phase_of};

    ghost view = { λ h. record { activation = h.activation; grain = h.grain; phase = phase_of h.phase } };
}

/// A point of a ring, as a dump lists it: its place may be above every hash. Points are ordered by place, then silo, then index.
#[derive(Clone, Copy, PartialEq, Eq, PartialOrd, Ord)]
pub struct ListedPoint {
    pub place: u64,
    pub silo: SiloAddress,
    pub index: u64,
}

impl Model for ListedPoint {
    ghost use Rattle.hash_ring.specs.declared.point.Point.{Point};

    ghost Value = { Point };

    ghost view = { λ p. record { place = p.place; silo = p.silo; index = p.index } };

    ghost inverse = { λ v. record { place = v.place; silo = v.silo; index = v.index } };
}

/// An entry of a piece: a grain and its activation.
#[derive(Drop)]
pub struct ListedEntry<'a> {
    pub grain: LentGrain<'a>,
    pub activation: ActivationId,
}

impl<'a> Model for ListedEntry<'a> {
    ghost use Rattle.silo_address.specs.declared.Entry.{Entry as EntryValue};

    ghost Value = { EntryValue };

    ghost view = { λ e. record { grain = e.grain; activation = e.activation } };
}

/// A piece of what a silo owns.
#[derive(Drop)]
pub struct ListedPiece<'a> {
    pub entries: Vec<ListedEntry<'a>>,
    /// The silo from which it awaits its entries.
    pub from: Option<SiloAddress>,
    pub range: RingRange,
    pub state: ListedState,
}

impl<'a> Model for ListedPiece<'a> {
    ghost use Rattle.dump_rules.specs.Dump.{DumpPiece};

    ghost Value = { DumpPiece };

    ghost use Rattle.dumps.specs.DumpModel.{state_of};

    ghost view = { λ p. record { entries = p.entries.items; from = p.from; range = p.range; state = state_of p.state } };
}

/// What one silo has.
#[derive(Drop)]
pub struct ListedNode<'a> {
    /// In the order in which they began.
    pub held: Vec<ListedHeld<'a>>,
    /// By start.
    pub pieces: Vec<ListedPiece<'a>>,
    pub ring: Vec<ListedPoint>,
    /// The version that the silo has seen.
    pub seen: u64,
    pub silo: SiloAddress,
}

impl<'a> Model for ListedNode<'a> {
    ghost use Rattle.dump_rules.specs.Dump.{DumpNode};

    ghost Value = { DumpNode };

    ghost view = { λ n. record { held = n.held.items; pieces = n.pieces.items; ring = n.ring.items; seen = n.seen; silo = n.silo } };
}

/// A silo that ever joined, with the versions in which it became Dead, joined and became Leaving: 0 for never.
#[derive(Drop)]
pub struct ListedRow {
    pub dead: u64,
    pub joined: u64,
    pub left: u64,
    /// Those named at its join.
    pub places: Vec<u64>,
    pub silo: SiloAddress,
}

impl Model for ListedRow {
    ghost use Rattle.dump_rules.specs.Dump.{DumpRow};

    ghost Value = { DumpRow };

    ghost view = { λ r. record { dead = r.dead; joined = r.joined; left = r.left; places = r.places.items; silo = r.silo } };
}

/// A whole dump: the rows and nodes of a world as plain lists, which may say anything
/// (`docs/RULES.md#the-dump-and-the-verdict`).
#[derive(Drop)]
pub struct Dump<'a> {
    /// The current version.
    pub current: u64,
    pub hashing: Hashing,
    /// By address.
    pub nodes: Vec<ListedNode<'a>>,
    /// How many points a silo has where points are hashed.
    pub points: u64,
    /// By address.
    pub rows: Vec<ListedRow>,
}

impl<'a> Model for Dump<'a> {
    ghost use Rattle.dump_rules.specs.Dump.{DumpValue};

    ghost Value = { DumpValue };

    ghost view = { λ d. record { current = d.current; hashing = d.hashing; nodes = d.nodes.items; points = d.points; rows = d.rows.items } };
}
