ghost use Rattle.std.specs.Map.Iter.{ShowsInOrder, deref_pair};
ghost use Rattle.std.specs.Prelude.{◌≡◌, ◌↔◌, ℕ, [], ◌≤◌, ◌^◌, IsTrue, IsSome, IfOk, OnOk, OnErr, MatchResult, count_by, length, not, option_copied};
ghost use Rattle.std.specs.Map.{lookup};
ghost use Rattle.std.specs.Ordering.{nat_cmp};
ghost use Rattle.std.specs.BTreeMap.{insert_entry, is_at};
ghost use Rattle.silo_address.specs.Silo.{silo_cmp};
ghost use Rattle.directory_rules.specs.State.{Piece as PieceValue};
ghost use Rattle.directory_rules.specs.Answer.{answered, is_numbered, last_served, piece_with, serving_piece, with_piece};
ghost use Rattle.directory_rules.specs.declared.PieceState.TheVariants.{Recovering, Settled};
ghost use Rattle.directory_rules.specs.Sight.{all_entries, is_settled, pieces_after, sealed, was_settled};
ghost use Rattle.grain_partition.specs.Holdings.{ArePieces, HasPiece, IsHolding, tidied, settled_entries};
ghost use Rattle.grain_partition.specs.Seen.{pieces_seen};
ghost use Rattle.grain_partition.specs.Served.{IsTurnOf};
ghost use Rattle.grain_partition.specs.Settled.{LiesSettled};
ghost use Rattle.grain_partition.specs.Sight.{AreOfRings};

use crate::count::count_within;
use crate::seals::sealed;
use crate::search::piece_with;
use crate::seen::pieces_seen;
use crate::served::serve_numbered;
use crate::settled::are_settled;
use crate::sight::sight;
use crate::unsettled::unsettled_count;
use crate::{ArcsBySilo, Piece};
use directory_rules::{Act, Reply, Request, Why};
use grain_table::{HashedRequest, Table};
use hash_ring::Hashing;
use membership_view::View;
use ring_range::RingRange;
use seal_snapshot::Snapshot;
use silo_address::SiloAddress;
use std::alloc::{AllocError, Global};
use std::collections::BTreeMap;
use std::collections::btree_map::Iter;
use std::marker::Model;

/// What a silo keeps for others: the version that it has seen, the last number that it served each silo at that version,
/// and its pieces (`docs/RULES.md#pieces`).
#[derive(Drop)]
pub struct Holding {
    seen: u64,
    served: BTreeMap<SiloAddress, u64>,
    pieces: BTreeMap<u32, Piece>,
}

impl Model for Holding {
    ghost use Rattle.directory_rules.specs.State.{Holding as HoldingValue};
    ghost use Rattle.grain_partition.specs.Holdings.{IsHolding};

    ghost Value = { HoldingValue };

    ghost view = { λ h. record { seen = h.seen; served = h.served.entries; pieces = h.pieces.entries } };

    ghost invariant = { λ h. IsHolding (record { seen = h.seen; served = h.served.entries; pieces = h.pieces.entries }) };
}

impl Holding {
    /// What a silo keeps before it has seen any view: nothing.
    pub fn new(alloc: Global) -> Holding
        ensures { result ≡ record { seen = 0; served = []; pieces = [] } }
    {
        Holding {
            seen: 0,
            served: BTreeMap::new(alloc),
            pieces: BTreeMap::new(alloc),
        }
    }

    /// The version that the silo has seen.
    pub fn seen(&self) -> u64
        ensures { result ≡ self.now.seen }
    {
        self.seen
    }

    /// The pieces under their starts, by start.
    pub fn pieces(&self) -> Iter<'_, u32, Piece>
        ensures rest { result ≡ self.now.pieces }
        ensures runs { ShowsInOrder (deref_pair {K = ℕ} {X = PieceValue}) }
    {
        self.pieces.iter()
    }

    /// How many pieces aren't settled. Costs a walk over them.
    pub fn unsettled_count(&self) -> usize
        ensures { result ≡ count_by (λ e. not (is_settled e.1.state)) self.now.pieces }
    {
        unsettled_count(&self.pieces)
    }

    /// The piece that begins at this hash; `None` where none does.
    pub fn piece_at(&self, start: u32) -> Option<&Piece>
        ensures { option_copied result ≡ lookup (is_at (nat_cmp start)) self.now.pieces }
    {
        self.pieces.get(&start)
    }

    /// The piece that has the hash; `None` where none has it.
    pub fn piece_with(&self, hash: u32) -> Option<&Piece>
        ensures { option_copied result ≡ piece_with hash self.now.pieces }
    {
        piece_with(&self.pieces, hash)
    }

    /// What a request is answered, whether or not it is then served (`docs/RULES.md#requests`).
    pub fn answer(&self, request: &HashedRequest) -> Reply
        ensures { result ≡ (answered self.now request.now).reply }
    {
        match self.serving_piece(request.request()) {
            Ok(piece) => piece.reply_to(request),
            Err(why) => Reply::Retry(why),
        }
    }

    /// Serves a request: answers it, and makes its change. A sender's Registers and Deregisters are served by rising numbers,
    /// so that a late copy of one changes nothing. Fails only when memory runs out, and then changes nothing
    /// (`docs/RULES.md#requests`).
    pub fn serve(&mut self, request: &HashedRequest) -> Result<Reply, AllocError>
        ensures served { IfOk result (λ reply. answered self.old request.now ≡ record { reply = reply; holding = self.new }) }
        ensures unchanged { OnErr result (self.new ≡ self.old) }
    {
        self.whole();
        let asked = request.request();
        let start = match self.serving_piece(asked) {
            Ok(piece) => {
                if !is_numbered(&asked.act) {
                    return Ok(piece.reply_to(request));
                }
                piece.range().start()
            }
            Err(why) => return Ok(Reply::Retry(why)),
        };
        self.serve_from(start, request)
    }

    // Serves a numbered request from the piece that begins at the start.
    fn serve_from(&mut self, start: u32, request: &HashedRequest) -> Result<Reply, AllocError>
        requires { IsSome (lookup (is_at (nat_cmp start)) self.old.pieces) }
        ensures turned { IfOk result (IsTurnOf request.now.act start self.old.pieces self.new.pieces) }
        ensures noted { OnOk result (self.new ≡ record self.old { served = insert_entry silo_cmp self.old.served request.now.sender request.now.number; pieces = self.new.pieces }) }
        ensures unchanged { OnErr result (self.new ≡ self.old) }
    {
        serve_numbered(&mut self.pieces, &mut self.served, start, request)
    }

    /// Whether there is a piece of just this range.
    pub fn has_piece(&self, range: &RingRange) -> bool
        ensures { IsTrue result ↔ HasPiece range.now self.now.pieces }
    {
        match self.piece_at(range.start()) {
            Some(piece) => piece.range().same(range),
            None => false,
        }
    }

    /// The piece of just this range has its entries now: it is settled. Asks of its caller that there is such a piece.
    pub fn install(&mut self, range: RingRange, entries: Table)
        requires { HasPiece range self.old.pieces }
        ensures { self.new ≡ record self.old { pieces = with_piece (record { range = range; state = Settled; entries = entries.entries }) self.old.pieces } }
    {
        replace(&mut self.pieces, Piece::settled(range, entries));
    }

    // The piece from which a request is served, or why it isn't: the first reason that holds.
    fn serving_piece(&self, request: &Request) -> Result<&Piece, Why>
        ensures { MatchResult result (λ piece. serving_piece self.now request.now ≡ Ok piece.now) (λ why. serving_piece self.now request.now ≡ Err why) }
    {
        if request.version != self.seen {
            return Err(Why::View { seen: self.seen });
        }
        let Some(piece) = self.piece_with(request.hash) else {
            return Err(Why::NotOwner);
        };
        if !piece.is_settled() {
            return Err(Why::Unsettled);
        }
        let last = self.last_served(&request.sender);
        if is_numbered(&request.act) && request.number <= last {
            return Err(Why::OldNumber { last });
        }
        Ok(piece)
    }

    // The last number that the silo was served at this version, and 0 before the first.
    fn last_served(&self, silo: &SiloAddress) -> u64
        ensures { result ≡ last_served silo.now self.now.served }
    {
        self.served.get(silo).copied().unwrap_or(0)
    }

    /// The silo sees the view: it keeps one piece for each of the arcs that it owns there, which is settled where it was, and
    /// else awaits its entries where this view is the `next` one after that seen before. The arcs are those from the ring of the
    /// version seen before to the ring of the view, under the cluster's hashing. A settled piece that has all of an arc, and begins
    /// where it does, keeps its table, less what is hashed elsewhere; for each other arc just the entries hashed into it are
    /// copied. Fails only when memory runs out, and then changes nothing (`docs/RULES.md#pieces`).
    pub fn sight(
        &mut self,
        alloc: Global,
        next: bool,
        hashing: Hashing,
        view: &View,
        silo: &SiloAddress,
        arcs: &ArcsBySilo,
    ) -> Result<(), AllocError>
        requires { AreOfRings arcs.now }
        ensures seen { OnOk result (self.new ≡ record { seen = view.now.version; served = []; pieces = pieces_after next hashing view.now silo.now self.old.pieces arcs.now }) }
        ensures unchanged { OnErr result (self.new ≡ self.old) }
    {
        let owned = arcs.owned_by(silo);
        sight(alloc, &mut self.pieces, next, hashing, view, silo, owned)?;
        self.seen = view.version();
        self.served = BTreeMap::new(alloc);
        Ok(())
    }

    /// The pieces that `sight` will leave, without their entries: asked before the sight by whoever wants to know what the pieces
    /// will want. Fails only when memory runs out.
    pub fn pieces_seen(
        &self,
        alloc: Global,
        next: bool,
        hashing: Hashing,
        view: &View,
        silo: &SiloAddress,
        arcs: &ArcsBySilo,
    ) -> Result<BTreeMap<u32, Piece>, AllocError>
        requires { AreOfRings arcs.now }
        ensures exact { IfOk result (λ seen. seen.entries ≡ pieces_seen next hashing view.now silo.now self.now.pieces arcs.now) }
        ensures pieces { IfOk result (λ seen. ArePieces seen.entries) }
    {
        let owned = arcs.owned_by(silo);
        pieces_seen(alloc, &self.pieces, next, hashing, view, silo, owned)
    }

    /// Whether every hash of the range is in a settled piece.
    pub fn is_settled_throughout(&self, range: &RingRange) -> bool
        ensures exact { result ≡ was_settled self.now.pieces range.now }
        ensures each_hash { IsTrue result ↔ LiesSettled self.now.pieces range.now }
    {
        range.in_range();
        are_settled(&self.pieces, range)
    }

    /// How many entries the range has in the pieces of their hashes, where it is settled throughout; `None` elsewhere. An entry
    /// that stands in a piece of another range isn't counted; no cluster has such. It looks at the pieces alone that the range
    /// meets, and needs no memory. Fails only where the entries are more than a `usize` can tell (`docs/RULES.md#pieces`).
    pub fn settled_entries(
        &self,
        hashing: Hashing,
        range: &RingRange,
    ) -> Result<Option<usize>, AllocError>
        ensures told { IfOk result (λ entries. entries ≡ settled_entries hashing self.now.pieces range.now) }
        ensures fails { OnErr result (2 ^ 64 ≤ length (all_entries (tidied hashing self.now.pieces))) }
    {
        if !self.is_settled_throughout(range) {
            return Ok(None);
        }
        let entries = count_within(&self.pieces, hashing, range)?;
        Ok(Some(entries))
    }

    /// A law: what all holdings keep.
    pub fn whole(&self)
        ensures { IsHolding self.now }
    {
        let _seen = self.seen;
    }

    /// An equal holding. Fails only when memory runs out.
    pub fn copy(&self) -> Result<Holding, AllocError>
        ensures { IfOk result (λ holding. holding ≡ self.now) }
    {
        let served = self.served.clone()?;
        let pieces = self.pieces.clone()?;
        Ok(Holding {
            seen: self.seen,
            served,
            pieces,
        })
    }

    /// Whether both have seen the same version, served the same numbers and have the same pieces.
    pub fn same(&self, other: &Holding) -> bool
        ensures { IsTrue result ↔ (self.now ≡ other.now) }
    {
        other.seen == self.seen
            && same_served(&self.served, &other.served)
            && same_pieces(&self.pieces, &other.pieces)
    }

    /// What the silo seals at the sight of the view, which is the next one after that seen: a snapshot for each arc that it
    /// owned, that another silo owns now, and all of which is in settled pieces, with the entries hashed into it but those on
    /// silos that are Dead in the view. Asked before the sight, since it looks at the pieces so far. Fails only when memory
    /// runs out (`docs/RULES.md#pieces`).
    pub fn seal(
        &self,
        alloc: Global,
        hashing: Hashing,
        view: &View,
        silo: &SiloAddress,
        arcs: &ArcsBySilo,
    ) -> Result<Vec<Snapshot>, AllocError>
        ensures { IfOk result (λ snapshots. snapshots.items ≡ sealed hashing view.now silo.now self.now.pieces arcs.now) }
    {
        let given = arcs.given_by(silo);
        sealed(alloc, &self.pieces, hashing, view, silo, given)
    }

    /// The piece of just this range recovers from now on, without entries. Asks of its caller that there is such a piece
    /// (`docs/RULES.md#pieces`).
    pub fn wait_for_reports(&mut self, range: RingRange)
        requires { HasPiece range self.old.pieces }
        ensures { self.new ≡ record self.old { pieces = with_piece (record { range = range; state = Recovering; entries = [] }) self.old.pieces } }
    {
        recover(&mut self.pieces, &range);
    }
}

fn same_served(one: &BTreeMap<SiloAddress, u64>, other: &BTreeMap<SiloAddress, u64>) -> bool
    ensures { IsTrue result ↔ (one.now.entries ≡ other.now.entries) }
{
    *one == *other
}

fn same_pieces(one: &BTreeMap<u32, Piece>, other: &BTreeMap<u32, Piece>) -> bool
    ensures { IsTrue result ↔ (one.now.entries ≡ other.now.entries) }
{
    let (mut rest, mut its) = (one.iter(), other.iter());
    'rest: while let Some((start, piece)) = rest.next() {
        let Some((its_start, its_piece)) = its.next() else {
            return false;
        };
        if *start != *its_start {
            return false;
        }
        if !piece.same(its_piece) {
            return false;
        }
    }
    its.next().is_none()
}

// Whether requests of this kind are served only by rising numbers.
fn is_numbered(act: &Act) -> bool
    ensures { result ≡ is_numbered act.now }
{
    match act {
        Act::Register { .. } | Act::Deregister { .. } => true,
        Act::Find { .. } => false,
    }
}

// The piece of just this range recovers, without entries.
fn recover(pieces: &mut BTreeMap<u32, Piece>, range: &RingRange)
    requires { HasPiece range.now pieces.old.entries }
    ensures { pieces.new.entries ≡ with_piece (record { range = range.now; state = Recovering; entries = [] }) pieces.old.entries }
{
    let piece = pieces.get_mut(&range.start()).unwrap();
    piece.recover();
}

// The piece takes the place of the one that begins where it does.
fn replace(pieces: &mut BTreeMap<u32, Piece>, piece: Piece)
    requires { IsSome (lookup (is_at (nat_cmp piece.range.start)) pieces.old.entries) }
    ensures { pieces.new.entries ≡ with_piece piece pieces.old.entries }
{
    let start = piece.range().start();
    let kept = pieces.get_mut(&start).unwrap();
    *kept = piece;
}
