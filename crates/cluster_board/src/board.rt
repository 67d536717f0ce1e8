ghost use Rattle.std.specs.Prelude.{◌≡◌, ◌+◌, ◌<◌, [], IfSome, MatchOption, true, false, length};
ghost use mathlib.Core.List.{IsPrefix};
ghost use Rattle.directory_rules.specs.World.{first_world};
ghost use Rattle.cluster_board.specs.Due.{IsDismissed};
ghost use Rattle.cluster_journal.specs.Journal.{IsJournaled};

use crate::{Charter, Dismissal, Hand, Mark, Marks, Tokens};
use cluster_journal::{Front, JournalEntry, Keeper};
use directory_core::World;
use directory_node::SharedNode;
use directory_rules::Settings;
use silo_address::SiloAddress;
use std::alloc::Global;
use std::collections::BTreeMap;
use std::marker::{Model, PhantomData};
use std::sync::ledger::{Book, Share};

/// A cluster and its journal, as they stand under one lock: the world is what the run of the journal's events leaves, and these
/// tell just what the journal says. Whoever posts or commits has a share of the board's ledger, whose total is the journal's
/// length, and a beginning of the journal. No event reads the two flags (`docs/RULES.md#the-board`).
#[derive(Drop)]
pub struct Board<L: Charter> {
    pub(crate) alloc: Global,
    pub(crate) world: World,
    pub(crate) journal: Vec<JournalEntry>,
    pub(crate) book: Book<L>,
    // The log of the journal, of which others have beginnings.
    pub(crate) keeper: Keeper<JournalEntry, L>,
    // Where marks of nodes are made; none where there was no memory for it.
    pub(crate) marks: Option<Marks<SharedNode, L>>,
    // Of the silos whose nodes are as they were marked, the marks.
    pub(crate) marked: BTreeMap<SiloAddress, Mark<SharedNode, L>>,
    stops: bool,
    gave_up: bool,
}

impl<L: Charter> Model for Board<L> {
    ghost use Rattle.cluster_board.specs.Board.{BoardValue};
    ghost use Rattle.cluster_board.specs.Whole.{IsBoard};

    ghost Value = { BoardValue };

    ghost view = { λ b. record { world = b.world; journal = b.journal.items; stops = b.stops; gave_up = b.gave_up } };

    ghost invariant = { λ b. IsBoard L.settings b.world b.journal.items b.keeper b.book.total b.marked.entries };
}

impl<L: Charter> Board<L> {
    /// A board before the first event, and the hand that has every part of its ledger. The caller says by the type which settings
    /// these are, which ledger it opens, which blocks the marks of nodes are of, and which log the journal's is.
    #[tactic(auto, using(cluster_journal::proofs::Journal::begins))]
    pub fn new(alloc: Global, settings: Settings, tokens: Tokens) -> (Board<L>, Hand<L>)
        requires settings { settings ≡ L.settings }
        requires ledger { tokens.ledger.name ≡ L.name }
        requires parts { tokens.ledger.parts ≡ L.parts }
        requires marks { tokens.marks ≡ L.names }
        requires log { tokens.log ≡ L.log }
        ensures board { result.0 ≡ record { world = first_world settings; journal = []; stops = false; gave_up = false } }
        ensures all { result.1.share.parts ≡ L.parts }
        ensures none { result.1.share.amount ≡ 0 }
        ensures seen { result.1.seen ≡ [] }
    {
        let Tokens { ledger, marks, log } = tokens;
        let (book, share) = ledger.open::<L>();
        let mut keeper = log.keeper::<L>();
        let seen = keeper.front();
        let board = Board {
            alloc,
            world: World::new(alloc, settings),
            journal: Vec::new(alloc),
            book,
            keeper,
            marks: Marks::new(alloc, marks),
            marked: BTreeMap::new(alloc),
            stops: false,
            gave_up: false,
        };
        (board, Hand { share, seen })
    }

    /// The world.
    pub fn world(&self) -> &World
        ensures { result.now ≡ self.now.world }
    {
        &self.world
    }

    /// The accepted events, in order, each with what it told.
    pub fn journal(&self) -> &[JournalEntry]
        ensures { result.now ≡ self.now.journal }
    {
        &self.journal
    }

    /// Whether the silos are to stop.
    pub fn stops(&self) -> bool
        ensures { result ≡ self.now.stops }
    {
        self.stops
    }

    /// The silos are to stop. Who says so has more parts of the share than a worker, which has one.
    pub fn stop(&mut self, _hand: &Hand<L>)
        requires { 1 < _hand.now.share.parts }
        ensures { self.new ≡ record self.old { stops = true } }
    {
        self.stops = true;
    }

    /// Whether a silo's worker gave up.
    pub fn gave_up(&self) -> bool
        ensures { result ≡ self.now.gave_up }
    {
        self.gave_up
    }

    /// The silo's worker gives up.
    pub fn give_up(&mut self, silo: &SiloAddress) -> Dismissal<L>
        ensures board { self.new ≡ record self.old { gave_up = true } }
        ensures its { result ≡ record { silo = silo.now; gave_up = true } }
    {
        self.gave_up = true;
        Dismissal {
            silo: *silo,
            gave_up: true,
            board: PhantomData,
        }
    }

    /// Dismisses the silo's worker, if nothing more is to be done for the silo: all are to stop, a worker gave up, or it has no node.
    pub fn dismissal(&self, silo: &SiloAddress) -> Option<Dismissal<L>>
        ensures due { MatchOption result (¬ (IsDismissed self.now silo.now)) (λ _. IsDismissed self.now silo.now) }
        ensures its { IfSome result (λ dismissal. dismissal ≡ record { silo = silo.now; gave_up = false }) }
    {
        if self.stops || self.gave_up || self.world.node(silo).is_none() {
            Some(Dismissal {
                silo: *silo,
                gave_up: false,
                board: PhantomData,
            })
        } else {
            None
        }
    }

    /// The journal as it is, to be kept outside the lock: a beginning of what it will be.
    pub fn front(&mut self) -> Front<JournalEntry, L>
        ensures front { result ≡ self.old.journal }
        ensures unchanged { self.new ≡ self.old }
    {
        self.keeper.front()
    }

    /// The front, which was seen of the journal, is the journal as it is from now on.
    pub fn renew(&mut self, seen: &mut Front<JournalEntry, L>)
        ensures begins { IsPrefix seen.old self.old.journal }
        ensures front { seen.new ≡ self.old.journal }
        ensures unchanged { self.new ≡ self.old }
    {
        self.keeper.renew(seen);
    }

    /// What another hand has of the ledger and saw of the journal is put to this one.
    pub fn merge(&mut self, hand: &mut Hand<L>, other: Hand<L>)
        ensures parts { hand.new.share.parts ≡ hand.old.share.parts + other.share.parts }
        ensures amount { hand.new.share.amount ≡ hand.old.share.amount + other.share.amount }
        ensures mine { IsPrefix hand.old.seen hand.new.seen }
        ensures its { IsPrefix other.seen hand.new.seen }
        ensures journal { hand.new.seen ≡ self.old.journal }
        ensures unchanged { self.new ≡ self.old }
    {
        let Hand { share, seen } = other;
        self.keeper.began(seen);
        self.keeper.renew(&mut hand.seen);
        hand.share.merge(share);
    }

    /// A law: what was seen of the journal is a beginning of it.
    pub fn began(&mut self, seen: Front<JournalEntry, L>)
        ensures begins { IsPrefix seen self.old.journal }
        ensures unchanged { self.new ≡ self.old }
    {
        self.keeper.began(seen);
    }

    /// A law: the run of the journal's events tells just the journal's outcomes, and leaves the world.
    pub fn journaled(&self)
        ensures { IsJournaled L.settings self.now.journal self.now.world }
    {
        let _stops = self.stops;
    }

    /// A law: whoever has the whole share has the journal's length in it.
    pub fn counted(&mut self, share: &mut Share<L>)
        ensures whole { share.old.parts ≡ L.parts → share.old.amount ≡ length self.old.journal }
        ensures unchanged { self.new ≡ self.old }
        ensures parts { share.new.parts ≡ share.old.parts }
        ensures amount { share.new.amount ≡ share.old.amount }
    {
        self.book.audit(share);
    }
}
