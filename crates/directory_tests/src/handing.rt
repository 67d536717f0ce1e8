//! A range is handed over between two nodes that exchange letters by hand (`steps.rt`). Any one refusal of an allocation leaves the
//! tests true: `rt try --test --fail-alloc N` refuses each its Nth.
use crate::steps::{
    does, does_alone, does_one, entry_on, first, joined, moved, posted, second, sees, sees_one,
    sends, settled, takes,
};
use directory_letters::{Body, Letter};
use directory_node::{Input, Node};
use directory_rules::{Effect, OwnStep};
use range_recovery::Report;
use ring_range::RingRange;
use seal_snapshot::Page;
use silo_address::{ActivationId, Entry, GrainId, SiloAddress};
use std::alloc::Global;
use std::process::Abort;

// The first silo has seen version 2, and sealed what the second one has now.
fn sealed(rt: &impl Abort, alloc: Global) -> Box<Node> {
    let mut node = settled(rt, alloc);
    let letters = sees(rt, alloc, &mut node, 2, Effect::Next);
    assert!(rt; letters.is_empty() && node.shelf().snapshots().len() == 1);
    node
}

// The second silo, which has seen nothing.
fn joining(rt: &impl Abort, alloc: Global) -> Box<Node> {
    joined(rt, alloc, second(rt))
}

// It sees version 2, by which it asks the first one; the page that comes.
fn page_for(rt: &impl Abort, alloc: Global, old: &mut Node, new: &mut Node) -> Box<Letter> {
    let ask = sees_one(rt, alloc, new, 2, Effect::Next);
    sends(rt, alloc, old, &ask, Effect::Page)
}

// Both, when the first one has handed over.
pub(crate) fn handed(rt: &impl Abort, alloc: Global) -> (Box<Node>, Box<Node>) {
    let mut old = sealed(rt, alloc);
    let mut new = joining(rt, alloc);
    let page = page_for(rt, alloc, &mut old, &mut new);
    hand_over(rt, alloc, &mut old, &mut new, &page);
    (old, new)
}

// The range that is handed over.
fn range(rt: &impl Abort) -> RingRange {
    RingRange::new(2_000_000_000, 2_294_967_306).expect(rt, "a range")
}

// Whether nothing of the range is on the way any more.
fn is_handed_over(old: &Node, new: &Node, range: &RingRange) -> bool {
    old.shelf().snapshots().is_empty()
        && new.holding().is_settled_throughout(range)
        && new.gatherings().is_empty()
}

// Each letter comes twice. The second time nothing of it counts, and the snapshot is gone.
#[test]
fn a_range_is_handed_over(rt: HostRuntime) {
    let mut old = sealed(&rt, rt.alloc());
    let mut new = joining(&rt, rt.alloc());
    let ask = sees_one(&rt, rt.alloc(), &mut new, 2, Effect::Next);
    ask_twice(&rt, rt.alloc(), &mut old, &mut new, &ask);
}

fn ask_twice(rt: &impl Abort, alloc: Global, old: &mut Node, new: &mut Node, ask: &Letter) {
    let page = sends(rt, alloc, old, ask, Effect::Page);
    hand_over(rt, alloc, old, new, &page);
    assert!(rt; is_handed_over(old, new, &range(rt)));
    takes(rt, alloc, new, &page, Effect::Ignored);
    let missing = sends(rt, alloc, old, ask, Effect::Missing);
    takes(rt, alloc, new, &missing, Effect::Ignored);
}

// The page comes, and that it has come, which comes twice.
fn hand_over(rt: &impl Abort, alloc: Global, old: &mut Node, new: &mut Node, page: &Letter) {
    let done = sends(rt, alloc, new, page, Effect::Installed);
    takes(rt, alloc, old, &done, Effect::Deleted);
    takes(rt, alloc, old, &done, Effect::Ignored);
}

// The page that the letter hands over.
fn page_in(letter: &Letter) -> Option<&Page> {
    match letter.body() {
        Body::Page(page) => Some(page),
        _ => None,
    }
}

// The entry alone, as a list; nothing where memory was refused.
fn list_if(alloc: Global, entry: &Entry) -> Option<Vec<Entry>> {
    let mut entries = Vec::new(alloc);
    entries.push(*entry).ok()?;
    Some(entries)
}

fn list_of(rt: &impl Abort, alloc: Global, entry: &Entry) -> Vec<Entry> {
    match list_if(alloc, entry) {
        Some(entries) => entries,
        None => list_if(alloc, entry).expect(rt, "memory"),
    }
}

// The page's letter with one entry in place of its own, the first silo's activation of that count.
fn changed(
    rt: &impl Abort,
    alloc: Global,
    letter: &Letter,
    grain: GrainId,
    count: u64,
) -> Box<Letter> {
    let page = page_in(letter).expect(rt, "a page");
    let silo = first(rt);
    let activation = ActivationId { silo, count };
    let entries = list_of(rt, alloc, &Entry { grain, activation });
    let (version, range, digest) = (page.version(), page.range(), page.digest());
    let changed = Page::new(version, range, page.page(), page.pages(), digest, entries);
    let changed = Letter::new(letter.from(), letter.to(), version, Body::Page(changed));
    posted(rt, alloc, changed)
}

// The page comes with this entry in place of its own, which has that effect.
fn take_changed(
    rt: &impl Abort,
    alloc: Global,
    node: &mut Node,
    page: &Letter,
    grain: GrainId,
    effect: Effect,
) {
    let wrong = changed(rt, alloc, page, grain, 2);
    takes(rt, alloc, node, &wrong, effect);
    assert!(rt; !node.holding().is_settled_throughout(&range(rt)));
}

// A page with another count is refused; its piece still waits, and is settled after a nudge.
#[test]
fn a_page_with_another_count_is_refused(rt: HostRuntime) {
    let mut old = sealed(&rt, rt.alloc());
    let mut new = joining(&rt, rt.alloc());
    let page = page_for(&rt, rt.alloc(), &mut old, &mut new);
    let refused = Effect::Refused(701);
    take_changed(&rt, rt.alloc(), &mut new, &page, moved(&rt), refused);
    nudge(&rt, rt.alloc(), &mut old, &mut new);
}

// The second silo asks once more, and gets what the first one has sealed.
fn nudge(rt: &impl Abort, alloc: Global, old: &mut Node, new: &mut Node) {
    let ask = does_one(
        rt,
        alloc,
        new,
        &Input::Does(&OwnStep::Nudge),
        Effect::Nudged,
    );
    let page = sends(rt, alloc, old, &ask, Effect::Page);
    hand_over(rt, alloc, old, new, &page);
    assert!(rt; is_handed_over(old, new, &range(rt)));
}

// A grain that is hashed elsewhere.
fn outside(rt: &impl Abort) -> GrainId {
    GrainId::parse(b"user/ann#50").expect(rt, "a grain")
}

#[test]
fn a_page_with_an_entry_outside_the_range(rt: HostRuntime) {
    let mut old = sealed(&rt, rt.alloc());
    let mut new = joining(&rt, rt.alloc());
    let page = page_for(&rt, rt.alloc(), &mut old, &mut new);
    take_changed(
        &rt,
        rt.alloc(),
        &mut new,
        &page,
        outside(&rt),
        Effect::Ignored,
    );
}

// It is told that there is no snapshot, and asks both silos for reports: the first one, and then itself.
fn recovers(rt: &impl Abort, alloc: Global, node: &mut Node) -> Vec<Letter> {
    sees_one(rt, alloc, node, 2, Effect::Next);
    let missing = missing(rt, alloc);
    let input = Input::Receives(&missing);
    let queries = does(rt, alloc, node, &input, Effect::Recovering);
    assert!(rt; queries.len() == 2);
    queries
}

// What the first silo tells, where it has no snapshot.
fn missing(rt: &impl Abort, alloc: Global) -> Box<Letter> {
    let missing = Letter::new(first(rt), second(rt), 2, Body::Missing(range(rt)));
    posted(rt, alloc, missing)
}

#[test]
fn a_snapshot_that_is_missing_is_recovered(rt: HostRuntime) {
    let mut node = joining(&rt, rt.alloc());
    let queries = recovers(&rt, rt.alloc(), &mut node);
    take_reports(&rt, rt.alloc(), &mut node, &queries);
}

// The first silo's report comes twice, and then its own.
fn take_reports(rt: &impl Abort, alloc: Global, node: &mut Node, queries: &[Letter]) {
    let report = report_to(rt, alloc, queries.first().expect(rt, "a query"));
    take_foreign(rt, alloc, node, &report);
    takes(rt, alloc, node, &report, Effect::More);
    take_own(rt, alloc, node, queries.last().expect(rt, "a query"));
}

// What the first silo reports.
fn report_to(rt: &impl Abort, alloc: Global, query: &Letter) -> Box<Letter> {
    sends(rt, alloc, &mut sealed(rt, alloc), query, Effect::Report)
}

// Its own report completes the recovery.
fn take_own(rt: &impl Abort, alloc: Global, node: &mut Node, query: &Letter) {
    let report = sends(rt, alloc, node, query, Effect::Report);
    takes(rt, alloc, node, &report, Effect::Complete);
    assert!(rt; node.holding().is_settled_throughout(&range(rt)));
}

// A report that tells another silo's activations, and one that has an entry outside the range: neither counts.
fn take_foreign(rt: &impl Abort, alloc: Global, node: &mut Node, letter: &Letter) {
    let foreign = reported(rt, alloc, letter, moved(rt), second(rt));
    takes(rt, alloc, node, &foreign, Effect::Ignored);
    let stray = reported(rt, alloc, letter, outside(rt), first(rt));
    takes(rt, alloc, node, &stray, Effect::Ignored);
}

// The first silo's last report, with this entry alone.
fn reported(
    rt: &impl Abort,
    alloc: Global,
    letter: &Letter,
    grain: GrainId,
    silo: SiloAddress,
) -> Box<Letter> {
    let activation = ActivationId { silo, count: 1 };
    let entries = list_of(rt, alloc, &Entry { grain, activation });
    let report = Report::new(2, range(rt), letter.from(), None, entries, true);
    let reported = Letter::new(letter.from(), letter.to(), 2, Body::Report(report));
    posted(rt, alloc, reported)
}

// What the first silo tells the second one behind a grain, and whether that is all.
fn told(
    rt: &impl Abort,
    alloc: Global,
    after: Option<GrainId>,
    entries: Vec<Entry>,
    last: bool,
) -> Box<Letter> {
    let report = Report::new(2, range(rt), first(rt), after, entries, last);
    let letter = Letter::new(first(rt), second(rt), 2, Body::Report(report));
    posted(rt, alloc, letter)
}

// The grain behind which a query asks.
fn asked_behind(query: &Letter) -> Option<GrainId> {
    match query.body() {
        Body::Query { after, .. } => *after,
        _ => None,
    }
}

// A silo that has more to tell is asked on behind what it told. What it told before doesn't count again.
#[test]
fn a_silo_that_has_more_to_tell_is_asked_on(rt: HostRuntime) {
    let mut node = joining(&rt, rt.alloc());
    let queries = recovers(&rt, rt.alloc(), &mut node);
    take_parts(&rt, rt.alloc(), &mut node);
    take_own(
        &rt,
        rt.alloc(),
        &mut node,
        queries.last().expect(&rt, "a query"),
    );
}

// The first silo's report comes in two parts, each of them twice.
fn take_parts(rt: &impl Abort, alloc: Global, node: &mut Node) {
    let entry = entry_on(rt, first(rt));
    let part = told(rt, alloc, None, list_of(rt, alloc, &entry), false);
    let query = sends(rt, alloc, node, &part, Effect::More);
    assert!(rt; query.to() == first(rt) && asked_behind(&query) == Some(entry.grain));
    takes(rt, alloc, node, &part, Effect::Ignored);
    let rest = told(rt, alloc, Some(entry.grain), Vec::new(alloc), true);
    takes(rt, alloc, node, &rest, Effect::More);
    takes(rt, alloc, node, &rest, Effect::Ignored);
}

// The second silo offers its activation at version 2.
fn later_offer(rt: &impl Abort, alloc: Global) -> Box<Letter> {
    let (from, to) = (second(rt), first(rt));
    let offer = Letter::new(from, to, 2, Body::Offer(entry_on(rt, from)));
    posted(rt, alloc, offer)
}

#[test]
fn an_offer_of_a_later_version_is_ignored(rt: HostRuntime) {
    let mut node = settled(&rt, rt.alloc());
    let offer = later_offer(&rt, rt.alloc());
    takes(&rt, rt.alloc(), &mut node, &offer, Effect::Ignored);
}

// The node asks where the moved grain is, and learns it.
fn learns(rt: &impl Abort, alloc: Global, node: &mut Node) {
    let grain = moved(rt);
    let find = does_one(
        rt,
        alloc,
        node,
        &Input::Does(&OwnStep::Find(grain)),
        Effect::Finding(grain),
    );
    let found = sends(rt, alloc, node, &find, Effect::Found);
    takes(rt, alloc, node, &found, Effect::Learnt);
}

#[test]
fn a_find_is_cached(rt: HostRuntime) {
    let mut node = settled(&rt, rt.alloc());
    learns(&rt, rt.alloc(), &mut node);
    assert!(rt; node.cache().is_some());
    forgets(&rt, rt.alloc(), &mut node);
}

// It finds the grain in its cache, and forgets it.
fn forgets(rt: &impl Abort, alloc: Global, node: &mut Node) {
    let grain = moved(rt);
    let cached = Effect::Cached(entry_on(rt, first(rt)));
    does_alone(rt, alloc, node, &Input::Does(&OwnStep::Find(grain)), cached);
    let forgot = Effect::Forgot(grain);
    does_alone(
        rt,
        alloc,
        node,
        &Input::Does(&OwnStep::Forget(grain)),
        forgot,
    );
}
