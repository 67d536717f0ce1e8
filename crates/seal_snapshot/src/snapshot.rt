ghost use Rattle.std.specs.Prelude.{◌≡◌, ◌<◌, ◌≤◌, ◌↔◌, IsTrue, IsOk, IfOk, IfSome, length, Some, None, nat_lt, take, if◌then◌else◌};
ghost use Rattle.directory_rules.specs.Settings.{page_size};
ghost use Rattle.directory_rules.specs.Snapshot.{digest_of, is_snapshot, page_count, page_entries, page_of};
ghost use Rattle.seal_snapshot.specs.Shelf.{comes_before, is_before};

use crate::Page;
use crate::lines::digest_of;
use crate::short::same_short_entries;
use grain_table::{ShortEntry, full_entries};
use ring_range::RingRange;
use silo_address::{Entry, SiloAddress};
use std::alloc::{AllocError, Global};
use std::marker::Model;

/// How many entries a page has, unless it is the last one.
pub(crate) const PAGE_SIZE: usize = 64;

/// What a silo gave up when it saw a version: the entries of a range, sealed for the range's new owner
/// (`docs/RULES.md#pieces`). The entries are kept short. Their digest takes half as long as all else of a seal, so it is computed for
/// the first page that is handed out, and kept from then on.
#[derive(Drop)]
pub struct Snapshot {
    version: u64,
    range: RingRange,
    from: SiloAddress,
    to: SiloAddress,
    entries: Vec<ShortEntry>,
    // None: it isn't kept yet.
    digest: Option<[u8; 32]>,
}

impl Model for Snapshot {
    ghost use Rattle.std.specs.Prelude.{◌≡◌, IfSome};
    ghost use Rattle.directory_rules.specs.State.{Snapshot as SnapshotValue};
    ghost use Rattle.directory_rules.specs.Snapshot.{digest_of};

    ghost Value = { SnapshotValue };

    ghost view = { λ s. record { version = s.version; range = s.range; from = s.from; to = s.to; entries = s.entries.items } };

    ghost invariant = { λ s. IfSome s.digest (λ digest. digest ≡ digest_of s.entries.items) };
}

impl Snapshot {
    /// Seals the entries of a range, in the order of their grains, for the silo that owns it in the view of this version.
    pub fn seal(
        version: u64,
        range: RingRange,
        from: SiloAddress,
        to: SiloAddress,
        entries: Vec<ShortEntry>,
    ) -> Snapshot
        ensures { result ≡ record { version = version; range = range; from = from; to = to; entries = entries.items } }
    {
        Snapshot {
            version,
            range,
            from,
            to,
            entries,
            digest: None,
        }
    }

    /// The version of the view at whose sight it was sealed.
    pub fn version(&self) -> u64
        ensures { result ≡ self.now.version }
    {
        self.version
    }

    /// The range that was given up.
    pub fn range(&self) -> RingRange
        ensures { result ≡ self.now.range }
    {
        self.range
    }

    /// The silo that gave it up.
    pub fn from(&self) -> SiloAddress
        ensures { result ≡ self.now.from }
    {
        self.from
    }

    /// The new owner, for whom it is kept.
    pub fn to(&self) -> SiloAddress
        ensures { result ≡ self.now.to }
    {
        self.to
    }

    /// The entries, in the order of their grains.
    pub fn entries(&self) -> &[ShortEntry]
        ensures { result.now ≡ self.now.entries }
    {
        &self.entries
    }

    /// The SHA-256 of the entries' lines. Costs a walk over them where it isn't kept yet.
    pub fn digest(&self) -> [u8; 32]
        ensures { result ≡ digest_of self.now.entries }
    {
        match self.digest {
            Some(digest) => digest,
            None => digest_of(&self.entries),
        }
    }

    /// The same snapshot, whose digest is kept: each page costs its own entries alone.
    pub fn digested(mut self) -> Snapshot
        ensures { result ≡ self }
    {
        let digest = self.digest();
        self.keep_digest(digest);
        self
    }

    /// Whether its digest is kept.
    pub(crate) fn keeps_digest(&self) -> bool {
        self.digest.is_some()
    }

    /// Its digest is kept from now on.
    pub(crate) fn keep_digest(&mut self, digest: [u8; 32])
        requires { digest ≡ digest_of self.old.entries }
        ensures { self.new ≡ self.old }
    {
        self.digest = Some(digest);
    }

    /// How many pages it has: one where it has no entry, and else no more than hold them.
    pub fn pages(&self) -> u64
        ensures { result ≡ page_count (length self.now.entries) }
    {
        page_count(self.entries.as_slice())
    }

    /// The page of that number, from 0; `None` where there are no more than so many. Costs a walk over all entries where the digest isn't
    /// kept yet. Fails only when memory runs out; `None` needs none.
    pub fn page(&self, alloc: Global, page: u64) -> Result<Option<Page>, AllocError>
        ensures found { IfOk result (λ found. found ≡ (if nat_lt page (page_count (length self.now.entries)) then Some (page_of self.now page) else None)) }
        ensures none_succeeds { page_count (length self.now.entries) ≤ page → IsOk result }
    {
        let pages = self.pages();
        if page >= pages {
            return Ok(None);
        }
        let entries = page_entries(alloc, &self.entries, page)?;
        let digest = self.digest();
        Ok(Some(Page::new(self.version, self.range, page, pages, digest, entries)))
    }

    /// Whether it is the snapshot of that version and range for that silo.
    pub fn is_for(&self, version: u64, range: &RingRange, to: &SiloAddress) -> bool
        ensures { result ≡ is_snapshot version range.now to.now self.now }
    {
        self.version == version && self.range == *range && self.to == *to
    }

    // Whether it is of an earlier version, or of this one with a range that begins before this start.
    pub(crate) fn is_before(&self, version: u64, start: u32) -> bool
        ensures { result ≡ is_before version start self.now }
    {
        self.version < version || (self.version == version && self.range.start() < start)
    }

    // Whether it comes before the other.
    pub(crate) fn comes_before(&self, other: &Snapshot) -> bool
        ensures { result ≡ comes_before self.now other.now }
    {
        self.is_before(other.version, other.range.start())
    }

    /// An equal snapshot. Fails only when memory runs out.
    pub fn copy(&self) -> Result<Snapshot, AllocError>
        ensures { IfOk result (λ snapshot. snapshot ≡ self.now) }
    {
        let entries = self.entries.clone()?;
        Ok(Snapshot {
            version: self.version,
            range: self.range,
            from: self.from,
            to: self.to,
            entries,
            digest: self.digest,
        })
    }

    /// Whether both are of one version and range, from and to the same silos, with the same entries.
    pub fn same(&self, other: &Snapshot) -> bool
        ensures { IsTrue result ↔ (self.now ≡ other.now) }
    {
        other.version == self.version
            && self.range.same(&other.range)
            && self.from.same(&other.from)
            && self.to.same(&other.to)
            && same_short_entries(&self.entries, &other.entries)
    }
}

impl Clone for Snapshot {
    ghost is_clone = { λ one other. other ≡ one };

    fn clone(&self) -> Result<Snapshot, AllocError> {
        self.copy()
    }
}

// How many pages so many entries have.
fn page_count(entries: &[ShortEntry]) -> u64
    ensures { result ≡ page_count (length entries.now) }
{
    if entries.is_empty() {
        return 1;
    }
    ((entries.len() - 1) / PAGE_SIZE) as u64 + 1
}

// The entries of the page of that number.
fn page_entries(alloc: Global, entries: &[ShortEntry], page: u64) -> Result<Vec<Entry>, AllocError>
    requires { page < page_count (length entries.now) }
    ensures { IfOk result (λ chosen. chosen.items ≡ page_entries page entries.now) }
{
    let start = page as usize * PAGE_SIZE;
    full_entries(alloc, front(&entries[start..]))
}

// The first entries, no more than a page has.
fn front(entries: &[ShortEntry]) -> &[ShortEntry]
    ensures { result.now ≡ take page_size entries.now }
{
    let count = PAGE_SIZE.min(entries.len());
    &entries[..count]
}
