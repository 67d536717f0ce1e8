//! The log of all rings that a publication shows, in proofs alone. Its keeper knows all of it, and whoever has a front of it a
//! beginning. At run time it is a word that only the keeper has.
ghost use Rattle.std.specs.Prelude.{◌≡◌, [], ◌∷◌, ◌++◌, IfSome, None};
ghost use Rattle.logbook.specs.Pages.{may_write};
ghost use Rattle.published_rings.specs.Log.{head_of};
ghost use Rattle.published_rings.specs.Rule.{Begins};

use crate::log_rule::{Announced, Begin, Compare, Draw, Entry, Extend, Nothing, OneWriter, Silent};
use hash_ring::Ring;
use logbook::{Offer, Pen, Seen, Start, Word};
use std::marker::Model;
use std::snapshot::Snapshot;

type Head = Word<Entry, u64, OneWriter>;

type Entries = Seen<Entry, u64, OneWriter>;

type Step = Offer<Entry, u64, OneWriter, Nothing>;

/// A beginning of a log that was seen. It has no bytes.
#[derive(Drop)]
pub(crate) struct Front {
    seen: Entries,
}

impl Model for Front {
    ghost use Rattle.published_rings.specs.Log.{FrontValue, rings_of};

    ghost Value = { FrontValue };

    ghost view = { λ f. record { log = f.seen.book; all = rings_of f.seen.log } };
}

impl Front {
    pub(crate) fn again(&self) -> Front
        ensures { result ≡ self.now }
    {
        Front {
            seen: self.seen.again(),
        }
    }
}

/// The right to add to a log, and the knowledge of all of it.
#[derive(Drop)]
pub(crate) struct Keeper {
    head: Head,
    seen: Entries,
    pen: Pen,
}

impl Model for Keeper {
    ghost use Rattle.std.specs.Prelude.{◌≡◌};
    ghost use Rattle.logbook.specs.Pages.{may_write};
    ghost use Rattle.published_rings.specs.Log.{FrontValue, EndsAt, head_of, rings_of};

    ghost Value = { FrontValue };

    ghost view = { λ k. record { log = k.seen.book; all = rings_of k.seen.log } };

    ghost invariant = { λ k. (k.head ≡ head_of k.seen.book) × (k.pen.book ≡ k.seen.book) × (k.pen.nib.right ≡ may_write) × EndsAt k.seen.log k.pen.nib.key };
}

impl Keeper {
    // A new log with one ring, and the front of it before that. None, were there another ring in it already.
    pub(crate) fn open(ring: &Ring) -> Option<(Front, Keeper)>
        ensures { IfSome result (λ made. (made.0.all ≡ []) × (made.1 ≡ record made.0 { all = ring.now ∷ [] })) }
    {
        let (mut seen, mut made, _other) = Entries::open(Start::alone(), 0, 0);
        let head = Head::tracked(0, &mut made);
        let front = Front { seen: seen.again() };
        let pen = draw(&head, &seen);
        let mut step = announce(&seen, ring, &pen);
        let mut none = seen.no_pen();
        let found = head.compare_exchange::<Begin, Nothing>(0, 1, &mut seen, &mut step, &mut none);
        if found != 0 {
            return None;
        }
        Some((front, Keeper { head, seen, pen }))
    }

    // The ring is the log's last one from now on.
    pub(crate) fn add(&mut self, ring: &Ring)
        ensures { self.new ≡ record self.old { all = self.old.all ++ ring.now ∷ [] } }
    {
        let Keeper { head, seen, pen } = self;
        let next = draw(head, seen);
        let mut step = announce(seen, ring, &next);
        head.compare_exchange::<Extend, Nothing>(0, 0, seen, &mut step, pen);
        *pen = next;
    }

    // The log as it is.
    pub(crate) fn front(&self) -> Front
        ensures { result ≡ self.now }
    {
        Front {
            seen: self.seen.again(),
        }
    }

    // A law: a front of the log is a beginning of it.
    pub(crate) fn began(&mut self, front: &Front)
        requires { front.now.log ≡ self.old.log }
        ensures begins { Begins front.now.all self.old.all }
        ensures unchanged { self.new ≡ self.old }
    {
        let Keeper { head, seen, pen } = self;
        let mut both = seen.again();
        both.learn(&front.seen);
        let mut step: Step = both.plain::<Nothing, (), Silent>(&());
        head.compare_exchange::<Compare, Nothing>(0, 0, &mut both, &mut step, pen);
    }
}

// A pen for a new cell of the log's book.
fn draw(head: &Head, seen: &Entries) -> Pen
    requires { head.now ≡ head_of seen.now.book }
    ensures { (result.book ≡ seen.now.book) × (result.nib.right ≡ may_write) }
{
    let mut now = seen.again();
    let mut step: Step = now.plain::<Nothing, (), Silent>(&());
    let mut pen = now.no_pen();
    head.compare_exchange::<Draw, Nothing>(0, 0, &mut now, &mut step, &mut pen);
    let _made = Head::tracked(0, &mut pen);
    pen
}

// A step that announces the ring with the pen's cell.
fn announce(seen: &Entries, ring: &Ring, pen: &Pen) -> Step
    ensures { (result.names ≡ seen.now.names) × (result.ask ≡ record { ring = ring.now; cell = pen.now.nib.key }) × (result.state ≡ None) }
{
    let about = (Snapshot::of(ring), Snapshot::of(pen));
    seen.plain::<Nothing, (Snapshot<Ring>, Snapshot<Pen>), Announced>(&about)
}
