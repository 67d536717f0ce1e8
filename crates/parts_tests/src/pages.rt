//! Pages of snapshots, and how they are gathered, in a form that any one refusal of an allocation leaves true: what is refused has
//! changed nothing, and made again it gives its result. `rt try --test --fail-alloc N` refuses each test its Nth allocation.
ghost use Rattle.std.specs.Prelude.{◌+◌, ◌≤◌};

use crate::made::{NEXT, OWNER, VERSION, page, range, short, snapshot};
use crate::samples::silo;
use seal_snapshot::{Gathering, GatheringError, GatheringProgress, Page, Snapshot};
use silo_address::{ActivationId, Entry, GrainId};
use std::alloc::Global;
use std::process::Abort;

// The eight bytes of a digest from a position on, as one number.
fn eight(digest: [u8; 32], at: usize) -> u64
    requires { at + 8 ≤ 32 }
{
    u64::from_be_bytes([
        digest[at],
        digest[at + 1],
        digest[at + 2],
        digest[at + 3],
        digest[at + 4],
        digest[at + 5],
        digest[at + 6],
        digest[at + 7],
    ])
}

fn four_words(digest: [u8; 32]) -> [u64; 4] {
    [
        eight(digest, 0),
        eight(digest, 8),
        eight(digest, 16),
        eight(digest, 24),
    ]
}

// How many entries, and of their snapshot the pages and the digest. The digests are from outside: what `sha256sum` says of the
// lines, as words of eight bytes.
const DIGESTS: [(u64, u64, [u64; 4]); 6] = [
    (
        0,
        1,
        [
            0xe3b0c44298fc1c14,
            0x9afbf4c8996fb924,
            0x27ae41e4649b934c,
            0xa495991b7852b855,
        ],
    ),
    (
        1,
        1,
        [
            0xfd195d0633f235d2,
            0x5886a223bc6dd859,
            0x05e12fb30cd4d761,
            0xe16c2f26720db1c4,
        ],
    ),
    (
        64,
        1,
        [
            0x3a69fa18502dfd4c,
            0x8585b29a6b9ec4db,
            0xf4bdf4ba1c809c3c,
            0x46e02794290b5c16,
        ],
    ),
    (
        65,
        2,
        [
            0x700acbbd22a4ad27,
            0xd1f481530c35c1f9,
            0x519dfd371e980189,
            0x401f3f57808a2241,
        ],
    ),
    (
        128,
        2,
        [
            0xfb1a97fc0d95b80d,
            0x32574dd9345fac1e,
            0xcf0c3edacf1af525,
            0xac335f9acb7ccbb0,
        ],
    ),
    (
        129,
        3,
        [
            0x43b17cb6cedda9e6,
            0x6df530c343421f1a,
            0x4f850812b149143e,
            0x4f99568fad01cab3,
        ],
    ),
];

// A snapshot of so many entries.
fn counted(rt: &impl Abort, alloc: Global, count: u64) -> Snapshot {
    snapshot(rt, alloc, (VERSION, 0, NEXT), count)
}

fn has_digest(snapshot: &Snapshot, digest: &[u64; 4]) -> bool {
    four_words(snapshot.digest()) == *digest
}

#[test]
fn pages_and_digests(rt: HostRuntime) {
    for (count, pages, digest) in &DIGESTS {
        let snapshot = counted(&rt, rt.alloc(), *count);
        assert!(rt;
            snapshot.pages() == *pages && has_digest(&snapshot, digest),
            "{count}"
        );
    }
}

fn listed(rt: &impl Abort, alloc: Global, entries: &[Entry]) -> Vec<Entry> {
    match Vec::from_slice(alloc, entries) {
        Ok(list) => list,
        Err(_) => Vec::from_slice(alloc, entries).expect(rt, "memory"),
    }
}

fn entry(rt: &impl Abort, grain: &[u8], activation: &[u8]) -> Entry {
    Entry {
        grain: GrainId::parse(grain).expect(rt, "a grain"),
        activation: ActivationId::parse(activation).expect(rt, "an activation"),
    }
}

// The longest of silos and counts, beside the shortest. The digest is from outside, as above.
#[test]
fn digest_of_wide_numbers(rt: HostRuntime) {
    let near = entry(&rt, b"user/ann", b"10.0.0.1:1000@1!1");
    let text = b"10.20.30.255:65535@2147483647!18446744073709551615";
    let entries = short(&rt, rt.alloc(), &[near, entry(&rt, b"user/bob", text)]);
    let (from, to) = (silo(&rt, OWNER), silo(&rt, NEXT));
    let snapshot = Snapshot::seal(VERSION, range(&rt, 0), from, to, entries);
    let digest = [
        0x37f4369fc5ccda1d,
        0x36f629e56a20c1c8,
        0xe24dbee23ac45bfe,
        0x3118bfc0162bc2c9,
    ];
    assert!(rt; has_digest(&snapshot, &digest));
}

// The page with these entries in place of its own.
fn with_entries(page: &Page, entries: Vec<Entry>) -> Page {
    let (version, range) = (page.version(), page.range());
    let (number, pages, digest) = (page.page(), page.pages(), page.digest());
    Page::new(version, range, number, pages, digest, entries)
}

// The page of one entry with another count in it.
fn miscounted(rt: &impl Abort, alloc: Global, page: &Page) -> Page {
    let mut entry = page.entries().first().copied().expect(rt, "an entry");
    entry.activation.count = 9;
    with_entries(page, listed(rt, alloc, &[entry]))
}

// The page with its first entry taken out.
fn shortened(rt: &impl Abort, alloc: Global, page: &Page) -> Page {
    let (_, rest) = page.entries().split_first().expect(rt, "an entry");
    with_entries(page, listed(rt, alloc, rest))
}

// Whether a copy of the page is the same, and is not the other one.
fn is_copied(page: &Page, other: &Page) -> bool {
    match page.copy() {
        Ok(copy) => copy.same(page) && !copy.same(other),
        Err(_) => false,
    }
}

#[test]
fn a_page(rt: HostRuntime) {
    let page = page(&rt, rt.alloc(), &counted(&rt, rt.alloc(), 65), 1);
    let other = miscounted(&rt, rt.alloc(), &page);
    assert!(rt; is_copied(&page, &other) || is_copied(&page, &other));
    assert!(rt; page.is_last() && page.into_entries().len() == 1);
}

fn copy_of(rt: &impl Abort, gathering: &Gathering) -> Gathering {
    match gathering.copy() {
        Ok(copy) => copy,
        Err(_) => gathering.copy().expect(rt, "memory"),
    }
}

// Whether this comes of the page, at first or behind a refusal of memory that leaves the gathering as it was.
fn takes(
    gathering: &mut Gathering,
    before: &Gathering,
    page: &Page,
    want: Result<GatheringProgress, GatheringError>,
) -> bool {
    gathering.progress_with(page) == want
        && (gathering.take(page) == want
            || (gathering.same(before) && gathering.take(page) == want))
}

fn take(
    rt: &impl Abort,
    gathering: &mut Gathering,
    page: &Page,
    want: Result<GatheringProgress, GatheringError>,
) {
    let before = copy_of(rt, gathering);
    assert!(rt; takes(gathering, &before, page, want));
}

// Pages that aren't in turn: the second one before the first, and the first one without all of its entries. Then one that makes the
// gathering begin again.
fn take_others(rt: &impl Abort, alloc: Global, gathering: &mut Gathering, pages: &[Page; 2]) {
    let [first, second] = pages;
    let early = Err(GatheringError::OutOfTurn);
    take(rt, gathering, second, early);
    take(rt, gathering, &shortened(rt, alloc, first), early);
    take(rt, gathering, first, Ok(GatheringProgress::More));
    let wrong = Err(GatheringError::WrongDigest);
    take(rt, gathering, &miscounted(rt, alloc, second), wrong);
}

// Whether all of the snapshot is gathered.
fn is_whole(gathering: &Gathering, snapshot: &Snapshot) -> bool {
    gathering.version() == snapshot.version()
        && gathering.range() == snapshot.range()
        && gathering.next() == 2
        && gathering.entries() == snapshot.entries()
}

#[test]
fn pages_are_taken(rt: HostRuntime) {
    let alloc = rt.alloc();
    let snapshot = counted(&rt, alloc, 65);
    let pages = [
        page(&rt, alloc, &snapshot, 0),
        page(&rt, alloc, &snapshot, 1),
    ];
    let mut gathering = Gathering::new(alloc, VERSION, range(&rt, 0));
    take_others(&rt, alloc, &mut gathering, &pages);
    take(&rt, &mut gathering, &pages[0], Ok(GatheringProgress::More));
    take(
        &rt,
        &mut gathering,
        &pages[1],
        Ok(GatheringProgress::Complete),
    );
    assert!(rt; is_whole(&gathering, &snapshot) && gathering.into_entries().len() == 65);
}

#[test]
fn a_refusal(rt: HostRuntime) {
    assert!(rt; GatheringError::WrongDigest.number() == Some(701));
}
