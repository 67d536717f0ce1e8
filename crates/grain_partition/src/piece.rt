ghost use Rattle.std.specs.Prelude.{◌≡◌, ◌↔◌, [], true, IsTrue, IfOk, OnOk, OnErr};
ghost use Rattle.directory_rules.specs.Answer.{turned};
ghost use Rattle.directory_rules.specs.declared.PieceState.TheVariants.{Recovering, Settled};
ghost use Rattle.directory_rules.specs.Sight.{is_settled};
ghost use Rattle.directory_rules.specs.Table.{entries_of, entry_at, lie_in};
ghost use Rattle.grain_partition.specs.Kept.{covers, left_of};

use directory_rules::{PieceState, Reply};
use grain_table::{HashedRequest, Table};
use hash_ring::Hashing;
use membership_view::View;
use ring_range::RingRange;
use silo_address::{Entry, GrainId};
use std::alloc::{AllocError, Global};
use std::marker::Model;

/// A piece of what a silo owns: a range of hashes, its state, and the entries of its grains, which it has where it is
/// settled (`docs/RULES.md#pieces`).
#[derive(Clone, Drop)]
pub struct Piece {
    range: RingRange,
    state: PieceState,
    entries: Table,
}

impl Model for Piece {
    ghost use Rattle.directory_rules.specs.State.{Piece as PieceValue};

    ghost Value = { PieceValue };

    ghost view = { λ p. record { range = p.range; state = p.state; entries = p.entries.entries } };
}

impl Piece {
    // A settled piece.
    pub(crate) fn settled(range: RingRange, entries: Table) -> Piece
        ensures { result ≡ record { range = range; state = Settled; entries = entries.entries } }
    {
        Piece {
            range,
            state: PieceState::Settled,
            entries,
        }
    }

    // A piece without entries.
    pub(crate) fn bare(
        alloc: Global,
        hashing: Hashing,
        range: RingRange,
        state: PieceState,
    ) -> Piece
        ensures { result ≡ record { range = range; state = state; entries = [] } }
    {
        Piece {
            range,
            state,
            entries: Table::new(alloc, hashing),
        }
    }

    // The piece recovers from now on: it has no entries.
    pub(crate) fn recover(&mut self)
        ensures { self.new ≡ record self.old { state = Recovering; entries = [] } }
    {
        self.state = PieceState::Recovering;
        self.entries.clear();
    }

    /// The hashes of the piece.
    pub fn range(&self) -> RingRange
        ensures { result ≡ self.now.range }
    {
        self.range
    }

    /// What the silo has of it.
    pub fn state(&self) -> PieceState
        ensures { result ≡ self.now.state }
    {
        self.state
    }

    /// The entries.
    pub fn entries(&self) -> &Table
        ensures { result.now.entries ≡ self.now.entries }
    {
        &self.entries
    }

    /// The grain's entry; `None` where it has none here.
    pub fn find(&self, grain: &GrainId) -> Option<Entry>
        ensures { result ≡ entry_at grain.now self.now.entries }
    {
        self.entries.get(grain)
    }

    // Whether the piece is settled.
    pub(crate) fn is_settled(&self) -> bool
        ensures { result ≡ is_settled self.now.state }
    {
        match self.state {
            PieceState::Settled => true,
            PieceState::Awaiting(_) | PieceState::Recovering => false,
        }
    }

    // Whether the piece is settled, and has every hash of a range that begins where it does.
    pub(crate) fn covers(&self, range: &RingRange) -> bool
        ensures { result ≡ covers range.now self.now }
    {
        self.is_settled() && range.size() <= self.range.size()
    }

    // Whether the entries are hashed into the range.
    pub(crate) fn is_tidy(&self, hashing: Hashing) -> bool
        ensures { result ≡ lie_in hashing self.now.range (entries_of self.now.entries) }
    {
        self.entries.lies_in(hashing, &self.range)
    }

    // What is left of the piece where it stays as a settled one of the range: it keeps its table, less what is hashed outside and
    // what is on silos that are Dead in the view.
    pub(crate) fn left_of(self, hashing: Hashing, view: &View, range: RingRange) -> Piece
        ensures { result ≡ left_of hashing view.now range self }
    {
        let Piece {
            range: _,
            state: _,
            mut entries,
        } = self;
        entries.made_again();
        entries.keep_within(hashing, &range);
        entries.remove_dead(view);
        Piece::settled(range, entries)
    }

    // What the piece answers to what a request asks.
    pub(crate) fn reply_to(&self, request: &HashedRequest) -> Reply
        ensures { result ≡ (turned request.now.act self.now.entries).reply }
    {
        self.entries.reply_to(request)
    }

    // Answers what a request asks, and makes its change. Fails only when memory runs out, and then changes nothing.
    pub(crate) fn turn(&mut self, request: &HashedRequest) -> Result<Reply, AllocError>
        ensures reply { IfOk result (λ reply. reply ≡ (turned request.now.act self.old.entries).reply) }
        ensures table { OnOk result (self.new ≡ record self.old { entries = (turned request.now.act self.old.entries).table }) }
        ensures unchanged { OnErr result (self.new ≡ self.old) }
    {
        self.entries.turn(request)
    }

    /// An equal piece. Fails only when memory runs out.
    pub fn copy(&self) -> Result<Piece, AllocError>
        ensures { IfOk result (λ piece. piece ≡ self.now) }
    {
        self.clone()
    }

    /// Whether both have the same range, state and entries.
    pub fn same(&self, other: &Piece) -> bool
        ensures { IsTrue result ↔ (self.now ≡ other.now) }
    {
        other.range.same(&self.range)
            && self.state.same(&other.state)
            && self.entries.has_same_entries(&other.entries)
    }
}
