ghost use Rattle.std.specs.Prelude.{◌≡◌, ◌↔◌, ◌⊎◌, ◌+◌, ◌-◌, ◌<◌, ◌≤◌, ◌++◌, ◌∷◌, [], All, Some, drop, fold, vec_len, vec_capacity, IfOk, IfErr, OnOk, OnErr, IsErrOf, false};
ghost use Rattle.left_right.specs.Sides.{view as known_at};
ghost use Rattle.hash_ring.specs.Ring.{IsRingBy, are_added, ring_of};
ghost use Rattle.published_rings.specs.Ends.{after_publishing, first_publisher, first_reader, published_by};
ghost use Rattle.published_rings.specs.Rule.{Begins};
ghost use Rattle.published_rings.specs.Shown.{FollowsOn, IsOfView, ShownValue, edition_after, front_of, publication_of, showing};
ghost use Rattle.published_rings.specs.declared.rule.Known.{Known};

use crate::log::{Front, Keeper};
use crate::rule::{Add, Hears, Open, RingReader, RingWriter, Tells};
use crate::shown::{Edition, Shown};
use crate::{RouteError, RouteReader, Told};
use core::mem::replace_with;
use hash_ring::{Places, Ring, RingError};
use left_right::writer::Writer;
use membership_view::View;
use std::alloc::{AllocError, Global};
use std::marker::Model;
use std::sync::Wait;

/// The greatest number of readers that a publisher may have.
pub const MOST_READERS: usize = 64;

/// Publishes rings. It isn't `Drop`: end it by `close` (`docs/RULES.md#published-rings`).
pub struct Publisher {
    writer: RingWriter,
    readers: Vec<RingReader>,
    /// The log of the rings, and the front of it before the first one, in proofs alone.
    keeper: Keeper,
    before: Front,
}

impl Model for Publisher {
    ghost use Rattle.std.specs.Prelude.{◌≡◌, [], All, Some, vec_len};
    ghost use Rattle.left_right.specs.Sides.{view as known_at};
    ghost use Rattle.published_rings.specs.Ends.{PublisherValue};
    ghost use Rattle.published_rings.specs.Shown.{ShownValue, front_of, publication_of};
    ghost use Rattle.published_rings.specs.declared.rule.Known.{Known};

    ghost Value = { PublisherValue };

    ghost view = { λ p. record { of = publication_of p.writer.desk.shown.value; earlier = p.writer.desk.shown.value.edition.earlier; last = p.writer.desk.shown.value.edition.ring; left = vec_len p.readers } };

    // The log has just the rings that were shown, and its readers know that they are of its publication.
    ghost invariant = { λ p. (p.keeper ≡ front_of p.writer.desk.shown.value.edition) × (p.before ≡ record { log = p.writer.desk.shown.value.edition.log; all = [] }) × All (λ reader. (known_at {T = ShownValue} {V = Known} reader.place).of ≡ Some (publication_of p.writer.desk.shown.value)) p.readers.items };
}

impl Publisher {
    /// Publishes the ring of a view, and makes all readers at once, 1 to 64 of them. Refused by 403 where a silo that is Active in
    /// the view was not added to the places, then by 952 where fewer readers could be had.
    pub fn new<R: Wait>(
        rt: &R,
        alloc: Global,
        view: &View,
        places: &Places,
        readers: usize,
    ) -> Result<Publisher, RouteError>
        requires some { 0 < readers }
        requires most { readers ≤ MOST_READERS }
        ensures made { IfOk result (λ publisher. publisher ≡ first_publisher publisher.of (ring_of view.now places.now) readers) }
        ensures missing { IsErrOf result RouteError.PointsMissing ↔ (are_added view.now places.now ≡ false) }
        ensures only { IfErr result (λ refusal. (refusal ≡ RouteError.PointsMissing) ⊎ (refusal ≡ RouteError.NoReader) ⊎ (refusal ≡ RouteError.OutOfMemory)) }
    {
        let (mut writer, keeper, before) = open(rt, alloc, view, places, readers)?;
        let Ok(mut made) = Vec::with_capacity(alloc, readers) else {
            writer.take(rt);
            return Err(RouteError::OutOfMemory);
        };
        if make_readers(&mut writer, &mut made, readers).is_err() {
            writer.take(rt);
            return Err(RouteError::NoReader);
        }
        Ok(Publisher {
            writer,
            readers: made,
            keeper,
            before,
        })
    }

    /// The version of the last view whose ring was published.
    pub fn version(&self) -> u64
        ensures { result ≡ self.now.last.version }
    {
        self.writer.published().edition().ring().version()
    }

    /// Hands out a reader that wasn't handed out yet. Refused by 952 where none is left.
    pub fn reader(&mut self) -> Result<RouteReader, RouteError>
        ensures given { IfOk result (λ reader. reader ≡ first_reader self.old.of) }
        ensures fewer { OnOk result (self.old ≡ record self.new { left = self.new.left + 1 }) }
        ensures none { IsErrOf result RouteError.NoReader ↔ (self.old.left ≡ 0) }
        ensures only { IfErr result (λ refusal. refusal ≡ RouteError.NoReader) }
        ensures unchanged { OnErr result (self.new ≡ self.old) }
    {
        match self.readers.pop() {
            Some(reader) => Ok(RouteReader::new(
                reader,
                self.writer.published(),
                self.before.again(),
            )),
            None => Err(RouteError::NoReader),
        }
    }

    /// Publishes the ring of a newer view, and returns a note of it for readers. The ring is that of the last view, advanced, where the view
    /// is the next one, and else made anew. The last ring has to be by these places. Refused by 403 where a silo that is
    /// Active in the view was not added to the places.
    pub fn publish<R: Wait>(
        &mut self,
        rt: &R,
        alloc: Global,
        view: &View,
        places: &Places,
    ) -> Result<Told, RouteError>
        requires newer { self.old.last.version < view.now.version }
        requires by_places { IsRingBy self.old.last places.now }
        ensures published { OnOk result (self.new ≡ after_publishing self.old (ring_of view.now places.now)) }
        ensures told { IfOk result (λ told. told ≡ view.now.version) }
        ensures missing { IsErrOf result RouteError.PointsMissing ↔ (are_added view.now places.now ≡ false) }
        ensures only { IfErr result (λ refusal. (refusal ≡ RouteError.PointsMissing) ⊎ (refusal ≡ RouteError.OutOfMemory)) }
        ensures unchanged { OnErr result (self.new ≡ self.old) }
    {
        let ring = ring_after(
            alloc,
            self.writer.published().edition().ring(),
            view,
            places,
        )?;
        self.show_ring(rt, alloc, ring)?;
        Ok(Told::of(view.version()))
    }

    /// As `publish`, whatever places the last ring is by: the ring is made anew, even if the view is the next one. Refused by 403
    /// where a silo that is Active in the view was not added to the places.
    pub fn publish_anew<R: Wait>(
        &mut self,
        rt: &R,
        alloc: Global,
        view: &View,
        places: &Places,
    ) -> Result<Told, RouteError>
        requires { self.old.last.version < view.now.version }
        ensures published { OnOk result (self.new ≡ after_publishing self.old (ring_of view.now places.now)) }
        ensures told { IfOk result (λ told. told ≡ view.now.version) }
        ensures missing { IsErrOf result RouteError.PointsMissing ↔ (are_added view.now places.now ≡ false) }
        ensures only { IfErr result (λ refusal. (refusal ≡ RouteError.PointsMissing) ⊎ (refusal ≡ RouteError.OutOfMemory)) }
        ensures unchanged { OnErr result (self.new ≡ self.old) }
    {
        let ring = Ring::anew(alloc, view, places)?;
        self.show_ring(rt, alloc, ring)?;
        Ok(Told::of(view.version()))
    }

    // Shows readers the ring of a newer view. Fails only when memory runs out.
    fn show_ring<R: Wait>(&mut self, rt: &R, alloc: Global, ring: Ring) -> Result<(), AllocError>
        requires newer { self.old.last.version < ring.version }
        requires made { IsOfView ring }
        ensures shown { OnOk result (self.new ≡ after_publishing self.old ring) }
        ensures unchanged { OnErr result (self.new ≡ self.old) }
    {
        let last = self.writer.published().edition();
        let edition = last.next(alloc, ring, &mut self.keeper)?;
        replace_with(&mut self.writer, (rt, edition), show);
        Ok(())
    }

    /// A law: what a reader of its publication has seen begins what it has published.
    pub fn has_shown(&mut self, reader: &RouteReader)
        requires { reader.now.of ≡ self.old.of }
        ensures begins { Begins reader.now.seen (published_by self.old) }
        ensures unchanged { self.new ≡ self.old }
    {
        self.keeper.began(reader.front());
    }

    /// Ends the publisher. Readers are not let in from then on.
    pub fn close<R: Wait>(self, rt: &R) {
        let Publisher {
            writer,
            readers: _readers,
            keeper: _keeper,
            before: _before,
        } = self;
        writer.take(rt);
    }
}

// Shows the ring of a view in a new publication: its writer, the keeper of its log, and the front of that before the ring. The queue of
// editions that are to be shown has room from then on.
fn open<R: Wait>(
    rt: &R,
    alloc: Global,
    view: &View,
    places: &Places,
    readers: usize,
) -> Result<(RingWriter, Keeper, Front), RouteError>
    requires some { 0 < readers }
    requires most { readers ≤ MOST_READERS }
    ensures shown { IfOk result (λ made. made.0.desk.shown.value.edition ≡ record { log = made.2.log; earlier = []; ring = ring_of view.now places.now }) }
    ensures keeper { IfOk result (λ made. made.1 ≡ front_of made.0.desk.shown.value.edition) }
    ensures before { IfOk result (λ made. made.2.all ≡ []) }
    ensures knows { IfOk result (λ made. (known_at made.0.desk.place).of ≡ Some (publication_of made.0.desk.shown.value)) }
    ensures missing { IsErrOf result RouteError.PointsMissing ↔ (are_added view.now places.now ≡ false) }
    ensures only { IfErr result (λ refusal. (refusal ≡ RouteError.PointsMissing) ⊎ (refusal ≡ RouteError.OutOfMemory)) }
{
    let ring = Ring::anew(alloc, view, places)?;
    let (before, edition, keeper) = Edition::first(alloc, ring)?;
    let (first, second) = Shown::pair(&edition)?;
    let writer = Writer::new(alloc, first, second, readers)?;
    match show_first(rt, writer, edition) {
        Ok(writer) => Ok((writer, keeper, before)),
        Err(_) => Err(RouteError::OutOfMemory),
    }
}

// Shows the first edition, which both copies have.
fn show_first<R: Wait>(
    rt: &R,
    writer: RingWriter,
    edition: Edition,
) -> Result<RingWriter, AllocError>
    requires { writer.desk.shown.value.edition ≡ edition }
    ensures same { IfOk result (λ made. made.desk.shown.value ≡ writer.desk.shown.value) }
    ensures knows { IfOk result (λ made. (known_at made.desk.place).of ≡ Some (publication_of writer.desk.shown.value)) }
{
    let mut writer = writer;
    let Ok(()) = writer.append(edition) else {
        writer.take(rt);
        return Err(AllocError);
    };
    let (writer, opened) = writer.publish_as::<Open, R>(rt);
    if opened.is_err() {
        writer.take(rt);
        return Err(AllocError);
    }
    Ok(writer)
}

// Makes that many readers of the writer's publication, or fails.
fn make_readers(
    writer: &mut RingWriter,
    readers: &mut Vec<RingReader>,
    count: usize,
) -> Result<(), AllocError>
    requires known { (known_at writer.old.desk.place).of ≡ Some (publication_of writer.old.desk.shown.value) }
    requires before { All (λ reader. (known_at {T = ShownValue} {V = Known} reader.place).of ≡ Some (publication_of writer.old.desk.shown.value)) readers.old.items }
    requires room { vec_len readers.old + count ≤ vec_capacity readers.old }
    ensures own { All (λ reader. (known_at {T = ShownValue} {V = Known} reader.place).of ≡ Some (publication_of writer.new.desk.shown.value)) readers.new.items }
    ensures made { OnOk result (vec_len readers.new ≡ vec_len readers.old + count) }
    ensures shown { writer.new.desk.shown.value ≡ writer.old.desk.shown.value }
    ensures knows { known_at writer.new.desk.place ≡ known_at writer.old.desk.place }
{
    for _made in 0..count {
        readers.push_reserved(make_reader(writer)?);
    }
    Ok(())
}

// Makes a reader, which knows what the writer knows, or fails.
fn make_reader(writer: &mut RingWriter) -> Result<RingReader, AllocError>
    ensures told { IfOk result (λ reader. known_at reader.place ≡ known_at writer.old.desk.place) }
    ensures shown { writer.new.desk.shown.value ≡ writer.old.desk.shown.value }
    ensures knows { known_at writer.new.desk.place ≡ known_at writer.old.desk.place }
{
    let mut reader = writer.factory().reader()?;
    reader.learn::<Hears>(writer.tell::<Tells>());
    Ok(reader)
}

// The ring of a view that is newer than that of the last ring.
fn ring_after(alloc: Global, last: &Ring, view: &View, places: &Places) -> Result<Ring, RingError>
    requires newer { last.now.version < view.now.version }
    requires by_places { IsRingBy last.now places.now }
    ensures made { IfOk result (λ ring. ring ≡ ring_of view.now places.now) }
    ensures missing { IsErrOf result RingError.PointsMissing ↔ (are_added view.now places.now ≡ false) }
    ensures only { IfErr result (λ refusal. (refusal ≡ RingError.PointsMissing) ⊎ (refusal ≡ RingError.OutOfMemory)) }
{
    if !places.has_active_of(view) {
        return Err(RingError::PointsMissing);
    }
    if view.version() - last.version() > 1 {
        return Ring::anew(alloc, view, places);
    }
    let Ok(mut ring) = last.copy() else {
        return Err(RingError::OutOfMemory);
    };
    ring.advance(view, places)?;
    Ok(ring)
}

// Shows readers one more edition. It is in the log, so there is no way back; and none is needed, since `open` made room in the queue.
fn show<R: Wait>(writer: RingWriter, given: (&R, Edition)) -> (RingWriter, ())
    requires { given.1 ≡ edition_after writer.desk.shown.value.edition given.1.ring }
    ensures { result.0.desk.shown.value ≡ showing writer.desk.shown.value given.entry.1 }
{
    let (rt, edition) = given;
    let mut writer = writer;
    queue(rt, &mut writer, edition);
    (turn(rt, writer), ())
}

// Puts the edition behind those that are to be shown. Without room it waits for memory.
fn queue<R: Wait>(rt: &R, writer: &mut RingWriter, edition: Edition)
    ensures desk { writer.new.desk ≡ writer.old.desk }
    ensures pending { drop writer.new.behind writer.new.log.items ≡ drop writer.old.behind writer.old.log.items ++ edition ∷ [] }
{
    let mut left = edition;
    for _ in rt.forever() {
        match writer.append(left) {
            Ok(()) => return,
            Err(edition) => left = edition,
        }
    }
    unreachable!()
}

// Shows what is to be shown. Where its ring has as many owners as there may be, it waits until one lets it go.
fn turn<R: Wait>(rt: &R, writer: RingWriter) -> RingWriter
    requires { FollowsOn writer.desk.shown.value (fold showing writer.desk.shown.value (drop writer.behind writer.log.items)) }
    ensures { result.desk.shown.value ≡ fold showing writer.desk.shown.value (drop writer.behind writer.log.items) }
{
    let mut writer = writer;
    for _ in rt.forever() {
        match writer.publish_as::<Add, R>(rt) {
            (shown, Ok(())) => return shown,
            (same, Err(_)) => writer = same,
        }
    }
    unreachable!()
}
