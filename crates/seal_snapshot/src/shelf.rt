ghost use Rattle.std.specs.Prelude.{◌≡◌, ◌↔◌, ◌+◌, ◌≤◌, ◌++◌, [], All, IsTrue, IsOk, IfOk, IfSome, IfNone, Some, filter, length, not, true, false, vec_capacity};
ghost use Rattle.std.specs.List.Sorted.{IsPartitionPoint};
ghost use Rattle.directory_rules.specs.Members.{is_dead_in};
ghost use Rattle.directory_rules.specs.Sight.{shelf_after};
ghost use Rattle.directory_rules.specs.Snapshot.{has_snapshot, is_snapshot, page_from, shelf_answer, shelf_without};
ghost use Rattle.seal_snapshot.specs.Shelf.{AreInOrder, IsAt, IsDigestFor, IsPageless, Meets, TellsDigest, answer_of, is_before};

use crate::{ShelfAnswer, Snapshot};
use membership_view::{Status, View};
use ring_range::RingRange;
use silo_address::SiloAddress;
use std::alloc::{AllocError, Global};
use std::marker::Model;
use std::mem;

/// The snapshots that a silo keeps for their new owners, in the order in which they were sealed: by version, and at one
/// version by where their ranges begin (`docs/RULES.md#pieces`). One of many is found by a search.
#[derive(Drop)]
pub struct Shelf {
    snapshots: Vec<Snapshot>,
}

impl Model for Shelf {
    ghost use Rattle.std.specs.Prelude.{List};
    ghost use Rattle.directory_rules.specs.State.{Snapshot as SnapshotValue};
    ghost use Rattle.seal_snapshot.specs.Shelf.{AreInOrder};

    ghost Value = { List SnapshotValue };

    ghost view = { λ s. s.snapshots.items };

    ghost invariant = { λ s. AreInOrder s.snapshots.items };
}

impl Shelf {
    /// No snapshot.
    pub fn new(alloc: Global) -> Shelf
        ensures { result ≡ [] }
    {
        Shelf {
            snapshots: Vec::new(alloc),
        }
    }

    /// The snapshots, in the order in which they were sealed.
    pub fn snapshots(&self) -> &[Snapshot]
        ensures { result.now ≡ self.now }
    {
        &self.snapshots
    }

    /// A law: each snapshot of a shelf comes before all behind it.
    pub fn in_order(&self)
        ensures { AreInOrder self.now }
    {
        let _count = self.snapshots.len();
    }

    /// What a silo that has seen this version is answered when it asks for a page of its snapshot of a version and range: the
    /// page, or that there is no such page, or that the version wasn't seen yet. Costs the page and a logarithm, and a walk over the
    /// snapshot where its digest isn't kept yet. Fails only when memory runs out; an answer without a page needs none.
    pub fn answer(
        &self,
        alloc: Global,
        seen: u64,
        version: u64,
        range: &RingRange,
        asker: &SiloAddress,
        page: u64,
    ) -> Result<ShelfAnswer, AllocError>
        ensures answered { IfOk result (λ answer. answer_of answer ≡ shelf_answer self.now seen version range.now asker.now page) }
        ensures pageless_succeeds { IsPageless (shelf_answer self.now seen version range.now asker.now page) → IsOk result }
        ensures digest { IfOk result (TellsDigest version range.now asker.now self.now) }
    {
        if seen < version {
            return Ok(ShelfAnswer::Behind);
        }
        match self.index_of(version, range, asker) {
            Some(index) => page_of(alloc, &self.snapshots[index], page),
            None => Ok(ShelfAnswer::Missing),
        }
    }

    /// Whether the digest of the asker's snapshot of that version and range is kept, if there is such a snapshot: then each page
    /// costs its own entries alone. It changes no answer whether it is.
    pub fn keeps_digest(&self, version: u64, range: &RingRange, asker: &SiloAddress) -> bool {
        match self.index_of(version, range, asker) {
            Some(index) => self.snapshots[index].keeps_digest(),
            None => true,
        }
    }

    /// The digest of the asker's snapshot of that version and range, which a page of it tells, is kept from now on.
    pub fn keep_digest(
        &mut self,
        version: u64,
        range: &RingRange,
        asker: &SiloAddress,
        digest: [u8; 32],
    )
        requires { IsDigestFor version range.now asker.now self.old digest }
        ensures { self.new ≡ self.old }
    {
        if let Some(index) = self.index_of(version, range, asker) {
            self.snapshots[index].keep_digest(digest);
        }
    }

    /// Whether there is a snapshot of that version and range for the asker.
    pub fn has(&self, version: u64, range: &RingRange, asker: &SiloAddress) -> bool
        ensures { result ≡ has_snapshot self.now version range.now asker.now }
    {
        match self.index_of(version, range, asker) {
            Some(_) => true,
            None => false,
        }
    }

    /// The asker has its snapshot of that version and range whole, so it is deleted. Answers whether there was one.
    pub fn done(&mut self, version: u64, range: &RingRange, asker: &SiloAddress) -> bool
        ensures answered { result ≡ has_snapshot self.old version range.now asker.now }
        ensures deleted { self.new ≡ shelf_without self.old version range.now asker.now }
    {
        match self.index_of(version, range, asker) {
            Some(index) => {
                self.snapshots.remove(index);
                true
            }
            None => false,
        }
    }

    /// Whether these snapshots come behind those of the shelf, each behind those before it.
    pub fn takes(&self, sealed: &[Snapshot]) -> bool
        ensures { IsTrue result ↔ AreInOrder (self.now ++ sealed.now) }
    {
        meets(&self.snapshots, sealed) && are_in_order(sealed)
    }

    /// Room for a sight of the next version: for what is kept, and for what the sight seals. Fails only when memory runs out.
    pub fn room(&self, alloc: Global, sealed: &[Snapshot]) -> Result<Vec<Snapshot>, AllocError>
        ensures empty { IfOk result (λ room. room.items ≡ []) }
        ensures large { IfOk result (λ room. length self.now + length sealed.now ≤ vec_capacity room) }
    {
        Vec::with_capacity(alloc, self.snapshots.len() + sealed.len())
    }

    /// A sight of the next version: what is kept for silos that are Dead in the view is dropped, and what the sight seals is
    /// put behind the rest. Asks of its caller that it comes behind (`takes`), as what is sealed at a later version does, from
    /// arcs that come one after the other; and that there is `room` for it, so that it can't fail.
    pub fn sight(&mut self, room: Vec<Snapshot>, view: &View, sealed: Vec<Snapshot>)
        requires behind { AreInOrder (self.old ++ sealed.items) }
        requires empty { room.items ≡ [] }
        requires large { length self.old + length sealed.items ≤ vec_capacity room }
        ensures { self.new ≡ shelf_after true view.now self.old sealed.items }
    {
        let kept = mem::replace(&mut self.snapshots, room);
        fill(&mut self.snapshots, kept, view, sealed);
    }

    /// A sight that skips versions: nothing is kept.
    pub fn skip(&mut self)
        ensures { self.new ≡ [] }
    {
        self.snapshots.clear();
    }

    // The index of the snapshot of that version and range for the asker.
    fn index_of(&self, version: u64, range: &RingRange, asker: &SiloAddress) -> Option<usize>
        ensures found { IfSome result (IsAt (is_snapshot version range.now asker.now) self.now) }
        ensures absent { IfNone result (All (λ snapshot. is_snapshot version range.now asker.now snapshot ≡ false) self.now) }
    {
        let index = first_from(&self.snapshots, version, range.start());
        if index >= self.snapshots.len() {
            return None;
        }
        if !self.snapshots[index].is_for(version, range, asker) {
            return None;
        }
        Some(index)
    }

    /// An equal shelf. Fails only when memory runs out.
    pub fn copy(&self) -> Result<Shelf, AllocError>
        ensures { IfOk result (λ shelf. shelf ≡ self.now) }
    {
        let snapshots = self.snapshots.clone()?;
        Ok(Shelf { snapshots })
    }

    /// Whether both have the same snapshots.
    pub fn same(&self, other: &Shelf) -> bool
        ensures { IsTrue result ↔ (self.now ≡ other.now) }
    {
        same_snapshots(&self.snapshots, &other.snapshots)
    }
}

// The page of that number, if the snapshot has so many.
fn page_of(alloc: Global, snapshot: &Snapshot, page: u64) -> Result<ShelfAnswer, AllocError>
    ensures answered { IfOk result (λ answer. answer_of answer ≡ page_from (Some snapshot.now) page) }
    ensures pageless_succeeds { IsPageless (page_from (Some snapshot.now) page) → IsOk result }
{
    match snapshot.page(alloc, page)? {
        Some(page) => Ok(ShelfAnswer::Page(page)),
        None => Ok(ShelfAnswer::Missing),
    }
}

// The index of the first snapshot that isn't before that start at that version.
fn first_from(snapshots: &[Snapshot], version: u64, start: u32) -> usize
    requires { AreInOrder snapshots.now }
    ensures { IsPartitionPoint (λ s. is_before version start s ≡ true) (λ s. is_before version start s ≡ false) snapshots.now result }
{
    snapshots.partition_point(|snapshot| snapshot.is_before(version, start))
}

// Whether the last one in front comes before the first one behind.
fn meets(front: &[Snapshot], behind: &[Snapshot]) -> bool
    ensures { IsTrue result ↔ Meets front.now behind.now }
{
    if front.is_empty() {
        return true;
    }
    if behind.is_empty() {
        return true;
    }
    front[front.len() - 1].comes_before(&behind[0])
}

// Whether each snapshot comes before those behind it.
fn are_in_order(snapshots: &[Snapshot]) -> bool
    ensures { IsTrue result ↔ AreInOrder snapshots.now }
{
    for index in 1..snapshots.len() {
        if !snapshots[index - 1].comes_before(&snapshots[index]) {
            return false;
        }
    }
    true
}

// Puts in what isn't for silos that are Dead in the view, and what is sealed behind it.
fn fill(room: &mut Vec<Snapshot>, mut kept: Vec<Snapshot>, view: &View, sealed: Vec<Snapshot>)
    requires empty { room.old.items ≡ [] }
    requires large { length kept.items + length sealed.items ≤ vec_capacity room.old }
    ensures { room.new.items ≡ filter (λ s. not (is_dead_in view.now s.to)) kept.items ++ sealed.items }
{
    kept.retain(|snapshot| !is_dead(view, snapshot.to()));
    move_behind(room, kept);
    move_behind(room, sealed);
}

// Moves these snapshots behind the others, where there is room.
fn move_behind(snapshots: &mut Vec<Snapshot>, mut behind: Vec<Snapshot>)
    requires { length snapshots.old.items + length behind.items ≤ vec_capacity snapshots.old }
    ensures moved { snapshots.new.items ≡ snapshots.old.items ++ behind.items }
    ensures room { vec_capacity snapshots.old ≤ vec_capacity snapshots.new }
{
    match snapshots.append(&mut behind) {
        Ok(()) => {}
        Err(_) => unreachable!(),
    }
}

// Whether the silo is Dead in the view.
fn is_dead(view: &View, silo: SiloAddress) -> bool
    ensures { result ≡ is_dead_in view.now silo }
{
    view.status(&silo) == Some(Status::Dead)
}

fn same_snapshots(one: &[Snapshot], other: &[Snapshot]) -> bool
    ensures { IsTrue result ↔ (one.now ≡ other.now) }
{
    let (mut rest, mut its) = (one.iter(), other.iter());
    'rest: while let Some(snapshot) = rest.next() {
        let Some(its_snapshot) = its.next() else {
            return false;
        };
        if !snapshot.same(its_snapshot) {
            return false;
        }
    }
    its.next().is_none()
}
