ghost use lib.Pointwise.{pointwise};
ghost use Rattle.std.specs.Prelude.{◌≡◌, ◌↔◌, ◌==◌, ◌<◌, ◌++◌, ℕ, List, flat_map, length, IsTrue, IfOk, IfErr, OnOk, Ok, MatchResult};
ghost use Rattle.sha2.specs.Hashers.{Holds256};
ghost use Rattle.sha2.specs.Sha256.{sha256};
ghost use Rattle.directory_rules.specs.Gatherings.{agrees, gathered, is_entry_count, is_in_turn, new_gathering, with_page};
ghost use Rattle.directory_rules.specs.Snapshot.{digest_line};
ghost use Rattle.seal_snapshot.specs.Progress.{IsRefused, IsRefusedOrLacksMemory, Reaches, progress_of};
ghost use Rattle.seal_snapshot.specs.Steps.{IsWanted, Rejects};

use crate::lines::{copy_of, take_entries};
use crate::short::{add_short, same_short_entries};
use crate::snapshot::PAGE_SIZE;
use crate::whole::{Whole, same_wholes};
use crate::{GatheringError, GatheringProgress, Page};
use grain_table::ShortEntry;
use ring_range::RingRange;
use sha2::{Digest, Sha256};
use std::alloc::{AllocError, Global};
use std::marker::Model;

/// What a new owner has of a snapshot so far: its pages, taken one after the other, whose entries are kept short
/// (`docs/RULES.md#transfer`).
#[derive(Drop)]
pub struct Gathering {
    alloc: Global,
    version: u64,
    range: RingRange,
    next: u64,
    whole: Option<Whole>,
    entries: Vec<ShortEntry>,
    // It has taken the lines of the entries.
    hasher: Sha256,
}

impl Model for Gathering {
    ghost use Rattle.std.specs.Prelude.{flat_map};
    ghost use Rattle.sha2.specs.Hashers.{Holds256};
    ghost use Rattle.directory_rules.specs.State.{Gathering as GatheringValue};
    ghost use Rattle.directory_rules.specs.Snapshot.{digest_line};
    ghost use Rattle.seal_snapshot.specs.GatheringModel.{whole_of};

    ghost Value = { GatheringValue };

    ghost view = { λ g. record { version = g.version; range = g.range; next = g.next; whole = whole_of g.whole; entries = g.entries.items } };

    ghost invariant = { λ g. Holds256 g.hasher (flat_map digest_line g.entries.items) };
}

impl Gathering {
    /// Nothing is gathered yet of the snapshot of this version and range.
    pub fn new(alloc: Global, version: u64, range: RingRange) -> Gathering
        ensures { result ≡ new_gathering version range }
    {
        Gathering {
            alloc,
            version,
            range,
            next: 0,
            whole: None,
            entries: Vec::new(alloc),
            hasher: Sha256::new(),
        }
    }

    /// The version of the snapshot.
    pub fn version(&self) -> u64
        ensures { result ≡ self.now.version }
    {
        self.version
    }

    /// The range of the snapshot.
    pub fn range(&self) -> RingRange
        ensures { result ≡ self.now.range }
    {
        self.range
    }

    /// The number of the page that is wanted next.
    pub fn next(&self) -> u64
        ensures { result ≡ self.now.next }
    {
        self.next
    }

    /// The entries gathered so far, in the order of the pages.
    pub fn entries(&self) -> &[ShortEntry]
        ensures { result.now ≡ self.now.entries }
    {
        &self.entries
    }

    /// What would come of the page. Refuses by 703 one of another version or range, then by 702 one that isn't the next one of
    /// the snapshot whose pages were taken, then by 701 the last one if the digest isn't that of all entries.
    pub fn progress_with(&self, page: &Page) -> Result<GatheringProgress, GatheringError>
        ensures judged { IfOk result (λ progress. progress_of (gathered self.now page.now) ≡ Ok progress) }
        ensures refused { IfErr result (IsRefused (progress_of (gathered self.now page.now))) }
    {
        self.check(page)?;
        if !page.is_last() {
            return Ok(GatheringProgress::More);
        }
        if has_digest(&self.hasher_after(page), &page.digest()) {
            Ok(GatheringProgress::Complete)
        } else {
            Err(GatheringError::WrongDigest)
        }
    }

    /// Takes a page: its entries go behind those of the pages before it. Refuses by 703 one of another version or range, then by
    /// 702 one that isn't the next one of the snapshot whose pages were taken, then by 701 the last one if the digest isn't that
    /// of all entries: nothing is left of them then, and the first page is wanted again. Nothing else that is refused changes
    /// anything.
    pub fn take(&mut self, page: &Page) -> Result<GatheringProgress, GatheringError>
        ensures reached { IfOk result (λ progress. Reaches progress self.new (gathered self.old page.now)) }
        ensures taken { OnOk result (self.new ≡ with_page self.old page.now) }

        // Only a page that nothing refuses can run out of memory.
        ensures refused { IfErr result (λ fault. IsRefusedOrLacksMemory fault self.old self.new (gathered self.old page.now)) }
    {
        self.check(page)?;
        let hasher = self.hasher_after(page);
        if page.is_last() && !has_digest(&hasher, &page.digest()) {
            self.start_again();
            return Err(GatheringError::WrongDigest);
        }
        self.add(page, hasher)?;
        if page.is_last() {
            Ok(GatheringProgress::Complete)
        } else {
            Ok(GatheringProgress::More)
        }
    }
}

// ---- The steps of taking a page.
impl Gathering {
    // Refuses by 703 a page of another version or range, then by 702 one that isn't in its turn.
    fn check(&self, page: &Page) -> Result<(), GatheringError>
        ensures { MatchResult result (λ _. IsWanted self.now page.now) (λ fault. Rejects fault self.now page.now) }
    {
        if page.version() != self.version || page.range() != self.range {
            return Err(GatheringError::WrongVersion);
        }
        if !self.is_in_turn(page) {
            return Err(GatheringError::OutOfTurn);
        }
        Ok(())
    }

    // Whether the page is the next one, of the whole that the first one told.
    fn is_in_turn(&self, page: &Page) -> bool
        ensures { result ≡ is_in_turn self.now page.now }
    {
        page.page() == self.next
            && page.page() < page.pages()
            && self.agrees(page)
            && is_entry_count(page)
    }

    // Whether the page says of the whole what the first one said.
    fn agrees(&self, page: &Page) -> bool
        ensures { result ≡ agrees self.now.whole page.now }
    {
        match self.whole {
            Some(whole) => whole.pages == page.pages() && whole.digest == page.digest(),
            None => true,
        }
    }

    // A hasher that has taken the lines of the entries gathered and of the page's.
    fn hasher_after(&self, page: &Page) -> Sha256
        ensures { Holds256 result (flat_map digest_line (self.now.entries ++ page.now.entries)) }
    {
        let mut hasher = copy_of(&self.hasher);
        take_entries(&mut hasher, page.entries());
        hasher
    }

    // The page's entries go behind those gathered; the hasher has taken the lines of both.
    fn add(&mut self, page: &Page, hasher: Sha256) -> Result<(), GatheringError>
        requires next { page.now.page ≡ self.old.next }
        requires within { page.now.page < page.now.pages }
        requires taken { Holds256 hasher (flat_map digest_line (self.old.entries ++ page.now.entries)) }
        ensures added { OnOk result (self.new ≡ with_page self.old page.now) }
        ensures unchanged { IfErr result (λ fault. (fault ≡ GatheringError.OutOfMemory) × (self.new ≡ self.old)) }
    {
        let whole = Whole {
            pages: page.pages(),
            digest: page.digest(),
        };
        match add_short(self.alloc, &mut self.entries, page.entries()) {
            Ok(()) => {
                self.hasher = hasher;
                self.next += 1;
                self.whole = Some(whole);
                Ok(())
            }
            Err(_) => Err(GatheringError::OutOfMemory),
        }
    }

    // Nothing is gathered any more.
    fn start_again(&mut self)
        ensures { self.new ≡ new_gathering self.old.version self.old.range }
    {
        self.next = 0;
        self.whole = None;
        self.entries.clear();
        self.hasher = Sha256::new();
    }
}

// ---- What is done with a gathering as a whole.
impl Gathering {
    /// The entries gathered, in the order of the pages.
    pub fn into_entries(self) -> Vec<ShortEntry>
        ensures { result.items ≡ self.entries }
    {
        self.entries
    }

    /// An equal gathering. Fails only when memory runs out.
    pub fn copy(&self) -> Result<Gathering, AllocError>
        ensures { IfOk result (λ gathering. gathering ≡ self.now) }
    {
        let entries = self.entries.clone()?;
        Ok(Gathering {
            alloc: self.alloc,
            version: self.version,
            range: self.range,
            next: self.next,
            whole: self.whole,
            entries,
            hasher: copy_of(&self.hasher),
        })
    }

    /// Whether both are of one version and range, want the same page of the same whole, and have the same entries.
    pub fn same(&self, other: &Gathering) -> bool
        ensures { IsTrue result ↔ (self.now ≡ other.now) }
    {
        other.version == self.version
            && other.next == self.next
            && self.range.same(&other.range)
            && same_wholes(&self.whole, &other.whole)
            && same_short_entries(&self.entries, &other.entries)
    }
}

impl Clone for Gathering {
    ghost is_clone = { λ one other. other ≡ one };

    fn clone(&self) -> Result<Gathering, AllocError> {
        self.copy()
    }
}

// Whether the page has as many entries as one of its number may have.
fn is_entry_count(page: &Page) -> bool
    ensures { result ≡ is_entry_count page.now.page page.now.pages (length page.now.entries) }
{
    let entries = page.entries().len();
    if page.is_last() {
        return entries <= PAGE_SIZE && (0 < entries || page.pages() == 1);
    }
    entries == PAGE_SIZE
}

// Whether the digest of what the hasher has taken is this one.
fn has_digest(hasher: &Sha256, digest: &[u8; 32]) -> bool
    ensures { (text : List ℕ) → Holds256 hasher.now text → result ≡ pointwise ◌==◌ (sha256 text) digest.now }
{
    copy_of(hasher).finalize() == *digest
}
