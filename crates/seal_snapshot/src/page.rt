ghost use Rattle.std.specs.Prelude.{◌≡◌, ◌↔◌, ◌+◌, nat_lt, not, IsTrue, IfOk};

use ring_range::RingRange;
use silo_address::Entry;
use std::alloc::AllocError;
use std::marker::Model;

/// A page of a snapshot: 64 of its entries, or fewer on the last page (`docs/RULES.md#transfer`).
#[derive(Drop)]
pub struct Page {
    version: u64,
    range: RingRange,
    page: u64,
    pages: u64,
    digest: [u8; 32],
    entries: Vec<Entry>,
}

impl Model for Page {
    ghost use Rattle.directory_rules.specs.State.{Page as PageValue};

    ghost Value = { PageValue };

    ghost view = { λ p. record { version = p.version; range = p.range; page = p.page; pages = p.pages; digest = p.digest; entries = p.entries.items } };
}

impl Page {
    /// The page of that number, from 0, of the snapshot of the version and range, which has so many pages and this digest.
    pub fn new(
        version: u64,
        range: RingRange,
        page: u64,
        pages: u64,
        digest: [u8; 32],
        entries: Vec<Entry>,
    ) -> Page
        ensures { result ≡ record { version = version; range = range; page = page; pages = pages; digest = digest; entries = entries.items } }
    {
        Page {
            version,
            range,
            page,
            pages,
            digest,
            entries,
        }
    }

    /// The version of the view at whose sight the snapshot was sealed.
    pub fn version(&self) -> u64
        ensures { result ≡ self.now.version }
    {
        self.version
    }

    /// The range of the snapshot.
    pub fn range(&self) -> RingRange
        ensures { result ≡ self.now.range }
    {
        self.range
    }

    /// Its number, from 0.
    pub fn page(&self) -> u64
        ensures { result ≡ self.now.page }
    {
        self.page
    }

    /// How many pages the snapshot has.
    pub fn pages(&self) -> u64
        ensures { result ≡ self.now.pages }
    {
        self.pages
    }

    /// Whether it is the last page of the snapshot, or past it.
    pub fn is_last(&self) -> bool
        ensures { result ≡ not (nat_lt (self.now.page + 1) self.now.pages) }
    {
        self.pages <= self.page || self.pages - self.page == 1
    }

    /// The digest of the whole snapshot.
    pub fn digest(&self) -> [u8; 32]
        ensures { result ≡ self.now.digest }
    {
        self.digest
    }

    /// Its entries, in the order of their grains.
    pub fn entries(&self) -> &[Entry]
        ensures { result.now ≡ self.now.entries }
    {
        &self.entries
    }

    /// Its entries, without what says where they belong.
    pub fn into_entries(self) -> Vec<Entry>
        ensures { result.items ≡ self.entries }
    {
        self.entries
    }

    /// An equal page. Fails only when memory runs out.
    pub fn copy(&self) -> Result<Page, AllocError>
        ensures { IfOk result (λ page. page ≡ self.now) }
    {
        let entries = self.entries.clone()?;
        Ok(Page {
            version: self.version,
            range: self.range,
            page: self.page,
            pages: self.pages,
            digest: self.digest,
            entries,
        })
    }

    /// Whether both have the same number, entries and digest, and are of one version and range with as many pages.
    pub fn same(&self, other: &Page) -> bool
        ensures { IsTrue result ↔ (self.now ≡ other.now) }
    {
        other.version == self.version
            && other.page == self.page
            && other.pages == self.pages
            && self.range.same(&other.range)
            && same_digests(&self.digest, &other.digest)
            && same_entries(&self.entries, &other.entries)
    }
}

fn same_digests(one: &[u8; 32], other: &[u8; 32]) -> bool
    ensures { IsTrue result ↔ (one.now ≡ other.now) }
{
    *one == *other
}

fn same_entries(one: &[Entry], other: &[Entry]) -> bool
    ensures { IsTrue result ↔ (one.now ≡ other.now) }
{
    *one == *other
}
