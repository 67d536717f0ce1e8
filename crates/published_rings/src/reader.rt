ghost use Rattle.std.specs.Prelude.{◌≡◌, ◌≤◌, [], All, IfOk, IfErr, OnErr, IfSome, Some, max};
ghost use Rattle.left_right.specs.Sides.{view};
ghost use Rattle.published_rings.specs.Ends.{IsRouteOf, first_reader};
ghost use Rattle.published_rings.specs.Looks.{IsAnswer, IsLook};
ghost use Rattle.published_rings.specs.Rule.{Begins};
ghost use Rattle.published_rings.specs.Shown.{publication_of};

use crate::log::Front;
use crate::origin::Origin;
use crate::rule::{Look, RingReader};
use crate::shown::{Edition, Shown};
use crate::{Route, RouteError, Told};
use core::mem::replace_with;
use std::marker::Model;

/// Routes hashes in one thread. It never waits for another (`docs/RULES.md#published-rings`).
#[derive(Drop)]
pub struct RouteReader {
    reader: RingReader,
    of: Origin,
    /// What it has seen, in proofs alone.
    front: Front,
    told: u64,
}

impl Model for RouteReader {
    ghost use Rattle.std.specs.Prelude.{◌≡◌, Some};
    ghost use Rattle.left_right.specs.Sides.{view as known_at};
    ghost use Rattle.published_rings.specs.Ends.{ReaderValue};
    ghost use Rattle.published_rings.specs.Rule.{Begins};

    ghost Value = { ReaderValue };

    ghost view = { λ r. record { of = r.of; seen = r.front.all; told = r.told } };

    // What it has seen stands in its publication's log, and its end of the publication knows no less.
    ghost invariant = { λ r. (r.front.log ≡ r.of.log) × ((known_at r.reader.place).of ≡ Some r.of) × Begins r.front.all (known_at r.reader.place).seen };
}

impl RouteReader {
    // A reader of the publication that shows this, which has seen nothing, and was told of nothing.
    pub(crate) fn new(reader: RingReader, shown: &Shown, before: Front) -> RouteReader
        requires known { (view reader.place).of ≡ Some (publication_of shown.now) }
        requires before { before ≡ record { log = shown.now.edition.log; all = [] } }
        ensures { result ≡ first_reader (publication_of shown.now) }
    {
        RouteReader {
            reader,
            of: Origin::of(shown),
            front: before,
            told: 0,
        }
    }

    // What it has seen, in the log of its publication.
    pub(crate) fn front(&self) -> &Front
        ensures { result.now ≡ record { log = self.now.of.log; all = self.now.seen } }
    {
        &self.front
    }

    /// Takes in that a version was published. From then on this reader's routes are by that version or a later one.
    pub fn learn(&mut self, told: Told)
        ensures { self.new ≡ record self.old { told = max self.old.told told } }
    {
        self.told = u64::max(self.told, told.version());
    }

    /// Who owns a hash, by the newest ring that this reader is shown, and the version of its view. That version is never below one
    /// by which it routed, or of which it was told. Refused by 954 where the reader isn't let in, which is where the publisher was
    /// closed, or where it is shown an older version than it was told of.
    pub fn route(&mut self, hash: u32) -> Result<Route, RouteError>
        ensures route { IfOk result (λ route. IsRouteOf self.new.seen hash route) }
        ensures not_below_seen { IfOk result (λ route. All (λ ring. ring.version ≤ route.version) self.new.seen) }
        ensures not_below_told { IfOk result (λ route. self.old.told ≤ route.version) }
        ensures kept { Begins self.old.seen self.new.seen }
        ensures of { self.new.of ≡ self.old.of }
        ensures told { self.new.told ≡ self.old.told }
        ensures refused { IfErr result (λ refusal. refusal ≡ RouteError.NotLetIn) }
        ensures unchanged { OnErr result (self.new ≡ self.old) }
    {
        let asked = (self.told, hash);
        match replace_with(&mut self.reader, asked, look) {
            Some((route, front)) => {
                self.front = front;
                Ok(route)
            }
            None => Err(RouteError::NotLetIn),
        }
    }
}

// Looks at the ring that is shown, if the reader is let in, and routes by it, if it isn't older than was told.
fn look(reader: RingReader, asked: (u64, u32)) -> (RingReader, Option<(Route, Front)>)
    ensures { IsLook (view reader.place) (view result.0.place) asked.0 asked.1 result.1 }
{
    match reader.enter_as::<Look>() {
        Ok(reading) => {
            let answer = answer_by(reading.get().edition(), asked.0, asked.1);
            (reading.leave(), answer)
        }
        Err(reader) => (reader, None),
    }
}

// The route by an edition, with the front that it shows; `None` where that is older than was told.
fn answer_by(edition: &Edition, told: u64, hash: u32) -> Option<(Route, Front)>
    ensures { IfSome result (λ answer. IsAnswer edition.now told hash answer) }
{
    let ring = edition.ring();
    let version = ring.version();
    if version < told {
        return None;
    }
    let owner = ring.owner(hash);
    Some((Route { version, owner }, edition.front().again()))
}
