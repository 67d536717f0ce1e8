//! Tables of entries. Each call that needs memory stands in a form that any one refusal of an allocation leaves true: what is
//! refused has changed nothing, and made again it gives its result. `rt try --test --fail-alloc N` refuses each test its Nth
//! allocation.
use crate::samples::{A, B, MANY, declare_dead, entry, grain, joined, range, silo, view};
use directory_rules::{Act, Reply, Request};
use grain_table::{HashedRequest, Table};
use hash_ring::Hashing;
use membership_view::View;
use ring_range::RingRange;
use silo_address::Entry;
use std::alloc::{AllocError, Global};
use std::process::Abort;

// Entries of the grains, all on activations of a silo.
fn table(rt: &impl Abort, alloc: Global, hashing: Hashing, on: &str, grains: &[&str]) -> Table {
    let mut table = Table::new(alloc, hashing);
    for text in grains {
        put(rt, &mut table, &entry(rt, (text, on, 1)));
    }
    table
}

// Puts the entry in, once more where that is refused.
pub(crate) fn put(rt: &impl Abort, table: &mut Table, entry: &Entry) {
    if table.insert(entry).is_err() {
        table.insert(entry).expect(rt, "memory");
    }
}

// Some entries, whose hashes rise.
fn full(rt: &impl Abort, alloc: Global) -> Table {
    table(rt, alloc, Hashing::Stated, A, &MANY[..15])
}

// An entry behind them.
fn one_more(rt: &impl Abort) -> Entry {
    entry(rt, (MANY[15], B, 1))
}

fn copy_of(rt: &impl Abort, table: &Table) -> Table {
    match table.copy() {
        Ok(copy) => copy,
        Err(_) => table.copy().expect(rt, "memory"),
    }
}

// Whether the entry is in the table, which has so many.
fn has(table: &Table, entry: &Entry, count: usize) -> bool {
    table.len() == count && table.get(&entry.grain) == Some(*entry)
}

// Whether the entry is put in, at first or behind a refusal that leaves the table as it was.
fn puts(table: &mut Table, before: &Table, entry: &Entry) -> bool {
    table.insert(entry).is_ok() || (table.has_same_entries(before) && table.insert(entry).is_ok())
}

#[test]
fn an_entry_is_put_in(rt: HostRuntime) {
    let (mut table, entry) = (full(&rt, rt.alloc()), one_more(&rt));
    let before = copy_of(&rt, &table);
    assert!(rt; puts(&mut table, &before, &entry) && has(&table, &entry, 16));
}

// The grain that states the number, at the first try or the second.
fn numbered(rt: &impl Abort, alloc: Global, number: u32) -> Entry {
    match format!(in alloc; "user/a#{number}") {
        Ok(text) => entry(rt, (text.as_str(), A, 1)),
        Err(_) => {
            let text = format!(in alloc; "user/a#{number}").expect(rt, "memory");
            entry(rt, (text.as_str(), A, 1))
        }
    }
}

// So many entries, put in in no order: buckets are cut again and again.
fn many(rt: &impl Abort, alloc: Global, count: u32) -> Table {
    let mut table = Table::new(alloc, Hashing::Stated);
    for number in 0..count {
        put(
            rt,
            &mut table,
            &numbered(rt, alloc, number.wrapping_mul(37) % 401),
        );
    }
    table
}

#[test]
fn each_of_many_is_found_and_taken_out(rt: HostRuntime) {
    let mut table = many(&rt, rt.alloc(), 401);
    assert!(rt; table.len() == 401);
    for number in 0..401 {
        let entry = numbered(&rt, rt.alloc(), number);
        assert!(rt; table.get(&entry.grain) == Some(entry));
        table.remove(&entry.grain);
        assert!(rt; table.get(&entry.grain).is_none());
    }
    assert!(rt; table.len() == 0);
}

#[test]
fn some_of_many_are_kept(rt: HostRuntime) {
    let mut table = many(&rt, rt.alloc(), 401);
    assert!(rt; !table.lies_in(Hashing::Stated, &range(&rt, "100+200")));
    table.keep_within(Hashing::Stated, &range(&rt, "100+200"));
    assert!(rt; table.len() == 200 && table.lies_in(Hashing::Stated, &range(&rt, "100+200")));
    assert!(rt; table.get(&numbered(&rt, rt.alloc(), 299).grain).is_some());
    assert!(rt; table.get(&numbered(&rt, rt.alloc(), 300).grain).is_none());
    assert!(rt; table.get(&numbered(&rt, rt.alloc(), 99).grain).is_none());
}

fn puts_new(table: &mut Table, before: &Table, entry: &Entry) -> bool {
    table.insert_new(entry) == Ok(true)
        || (table.has_same_entries(before) && table.insert_new(entry) == Ok(true))
}

#[test]
fn a_new_entry_is_put_in(rt: HostRuntime) {
    let (mut table, entry) = (full(&rt, rt.alloc()), one_more(&rt));
    let before = copy_of(&rt, &table);
    assert!(rt; puts_new(&mut table, &before, &entry) && has(&table, &entry, 16));
}

pub(crate) fn is_reply(reply: Result<Reply, AllocError>, want: &Reply) -> bool {
    match reply {
        Ok(reply) => reply.same(want),
        Err(_) => false,
    }
}

fn turns(table: &mut Table, before: &Table, request: &HashedRequest, want: &Reply) -> bool {
    table.reply_to(request).same(want)
        && (is_reply(table.turn(request), want)
            || (table.has_same_entries(before) && is_reply(table.turn(request), want)))
}

#[test]
fn a_register_is_answered(rt: HostRuntime) {
    let (mut table, entry) = (full(&rt, rt.alloc()), one_more(&rt));
    let before = copy_of(&rt, &table);
    let act = Act::Register {
        entry,
        previous: None,
    };
    let request = HashedRequest::of(Hashing::Stated, silo(&rt, B), 1, 1, act);
    let want = Reply::Registered(entry);
    assert!(rt; turns(&mut table, &before, &request, &want) && has(&table, &entry, 16));
}

// Whether the request stays what it is, whoever says what its hash is, and whether or not that is believed.
fn stays(request: &HashedRequest) -> bool {
    let claim = HashedRequest::claimed(*request.request());
    claim.same(request)
        && claim.checked(Hashing::Stated).same(request)
        && claim.checked(Hashing::Sha256).same(request)
        && request.checked(Hashing::Stated).same(request)
}

#[test]
fn a_request_has_its_grains_hash(rt: HostRuntime) {
    let grain = grain(&rt, "user/ann#50");
    let request = HashedRequest::of(Hashing::Stated, silo(&rt, A), 3, 7, Act::Find { grain });
    let &Request {
        version,
        number,
        hash,
        ..
    } = request.request();
    assert!(rt; (version, number, hash) == (3, 7, 50) && stays(&request));
}

// The first table, into a copy of which all of the second are put.
fn with_all(rt: &impl Abort, one: &Table, other: &Table) -> Table {
    match copy_of(rt, one).with_all(other) {
        Ok(all) => all,
        Err(_) => copy_of(rt, one).with_all(other).expect(rt, "memory"),
    }
}

// The same, of those alone that are hashed into the range.
fn with_all_within(
    rt: &impl Abort,
    alloc: Global,
    one: &Table,
    other: &Table,
    range: &RingRange,
) -> Table {
    match copy_of(rt, one).with_all_within(alloc, other, range) {
        Ok(all) => all,
        Err(_) => {
            let all = copy_of(rt, one).with_all_within(alloc, other, range);
            all.expect(rt, "memory")
        }
    }
}

// What comes from a table that hashes otherwise replaces what is there.
#[test]
fn tables_are_joined(rt: HostRuntime) {
    let alloc = rt.alloc();
    let one = table(&rt, alloc, Hashing::Stated, A, &MANY[14..]);
    let other = table(&rt, alloc, Hashing::Sha256, B, &MANY[..15]);
    check_joined(&rt, alloc, &one, &other);
}

fn check_joined(rt: &impl Abort, alloc: Global, one: &Table, other: &Table) {
    let (last, third) = (entry(rt, (MANY[14], B, 1)), entry(rt, (MANY[2], B, 1)));
    assert!(rt; has(&with_all(rt, one, other), &last, 17));
    let some = with_all_within(rt, alloc, one, other, &range(rt, "30+100"));
    assert!(rt; has(&some, &third, 13));
}

// A view in which B is dead.
fn view_without_b(rt: &impl Abort, alloc: Global) -> View {
    let mut views = joined(rt, alloc, &[A, B]);
    declare_dead(rt, &mut views, B);
    view(rt, alloc, &views, 3)
}

fn keeps(alloc: Global, table: &Table, view: &View, range: &RingRange, count: usize) -> bool {
    match table.kept(alloc, view, range) {
        Ok(kept) => kept.len() == count,
        Err(_) => false,
    }
}

fn lists(alloc: Global, table: &Table, view: &View, range: &RingRange, count: usize) -> bool {
    match table.list_kept(alloc, Vec::new(alloc), Hashing::Stated, view, range) {
        Ok(listed) => listed.len() == count,
        Err(_) => false,
    }
}

// Fifteen entries, of which one is on the dead silo.
fn one_on_b(rt: &impl Abort, alloc: Global, hashing: Hashing) -> Table {
    let mut table = table(rt, alloc, hashing, A, &MANY[..15]);
    put(rt, &mut table, &entry(rt, (MANY[1], B, 1)));
    table
}

#[test]
fn a_table_is_cut(rt: HostRuntime) {
    let (alloc, range) = (rt.alloc(), range(&rt, "20+110"));
    let table = one_on_b(&rt, alloc, Hashing::Stated);
    let view = view_without_b(&rt, alloc);
    assert!(rt; keeps(alloc, &table, &view, &range, 10) || keeps(alloc, &table, &view, &range, 10));
}

// The same, as a list, of a table that hashes otherwise.
#[test]
fn a_table_is_listed(rt: HostRuntime) {
    let (alloc, range) = (rt.alloc(), range(&rt, "20+110"));
    let table = one_on_b(&rt, alloc, Hashing::Sha256);
    let view = view_without_b(&rt, alloc);
    assert!(rt; lists(alloc, &table, &view, &range, 10) || lists(alloc, &table, &view, &range, 10));
}

// Whether the table tells entries of just these grains, on A, in this order.
fn tells(rt: &impl Abort, alloc: Global, table: &Table, grains: &[&str]) -> bool {
    let Ok(entries) = table.in_order(alloc) else {
        return false;
    };
    for (told, text) in entries.iter().zip(grains) {
        if *told != entry(rt, (*text, A, 1)) {
            return false;
        }
    }
    entries.len() == grains.len()
}

#[test]
fn a_table_is_told_in_order(rt: HostRuntime) {
    let (table, alloc) = (full(&rt, rt.alloc()), rt.alloc());
    let grains = &MANY[..15];
    assert!(rt; tells(&rt, alloc, &table, grains) || tells(&rt, alloc, &table, grains));
}

// Grains with their hashes stated, two of them with one hash, and one with the highest.
const FOUR: [&str; 4] = [
    "user/zoe#4294967295",
    "user/ann#50",
    "user/eve#3",
    "user/amy#50",
];

// Ranges, some of which go on over 0, and how many of the four are hashed into each.
const WITHIN: [(&str, usize); 6] = [
    ("50+1", 2),
    ("51+4294967244", 0),
    ("4294967295+4", 1),
    ("4294967295+5", 2),
    ("7+4294967296", 4),
    ("3+0", 0),
];

// Whether so many are hashed into the range, and are left where it alone is kept.
fn has_within(table: &Table, mut left: Table, range: &RingRange, count: usize) -> bool {
    left.keep_within(Hashing::Stated, range);
    table.count_within(Hashing::Stated, range) == count && left.len() == count
}

#[test]
fn entries_of_a_range(rt: HostRuntime) {
    let stated = table(&rt, rt.alloc(), Hashing::Stated, A, &FOUR);
    let hashed = table(&rt, rt.alloc(), Hashing::Sha256, A, &FOUR);
    for (text, count) in &WITHIN {
        let range = range(&rt, text);
        assert!(rt; has_within(&stated, copy_of(&rt, &hashed), &range, *count));
        assert!(rt; has_within(&hashed, copy_of(&rt, &stated), &range, *count));
    }
}

#[test]
fn an_entry_is_taken_out(rt: HostRuntime) {
    let mut table = full(&rt, rt.alloc());
    table.whole();
    let grain = grain(&rt, MANY[0]);
    table.remove(&grain);
    assert!(rt; table.get(&grain).is_none() && table.len() == 14);
}
