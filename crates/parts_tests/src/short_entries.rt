//! Entries that are kept short, in a form that any one refusal of an allocation leaves true: what is refused, made again, gives its
//! result. `rt try --test --fail-alloc N` refuses each test its Nth allocation.
use crate::made::short;
use crate::samples::{activation, grain};
use grain_table::{ShortEntry, full_entries};
use silo_address::Entry;
use std::alloc::Global;
use std::process::Abort;

const SILO: &str = "10.0.0.1:1000@1!1";

// Entries of which no two are the same: they differ in a kind, a key, or an activation.
const APART: [(&str, &str); 6] = [
    ("a/z", SILO),
    ("a!/a", SILO),
    ("a!/b", SILO),
    ("a!/b", "10.0.0.1:1000@1!2"),
    ("a!/b", "10.20.30.255:65535@2147483647!18446744073709551615"),
    ("b/a", SILO),
];

fn entry(rt: &impl Abort, (of, on): (&str, &str)) -> Entry {
    Entry {
        grain: grain(rt, of),
        activation: activation(rt, on),
    }
}

fn shortened(rt: &impl Abort, alloc: Global, texts: (&str, &str)) -> ShortEntry {
    let entry = entry(rt, texts);
    match ShortEntry::of(alloc, &entry) {
        Ok(short) => short,
        Err(_) => ShortEntry::of(alloc, &entry).expect(rt, "memory"),
    }
}

// Whether the short entry has all of the entry.
fn is_of(short: &ShortEntry, entry: &Entry) -> bool {
    short.entry() == *entry
        && short.text() == entry.grain.as_bytes()
        && short.activation() == entry.activation
}

fn copy_of(rt: &impl Abort, short: &ShortEntry) -> ShortEntry {
    match short.copy() {
        Ok(copy) => copy,
        Err(_) => short.copy().expect(rt, "memory"),
    }
}

#[test]
fn each_by_itself(rt: HostRuntime) {
    for (index, texts) in APART.iter().enumerate() {
        let one = shortened(&rt, rt.alloc(), *texts);
        assert!(rt; is_of(&one, &entry(&rt, *texts)) && one == copy_of(&rt, &one));
        for (other_index, other_texts) in APART.iter().enumerate() {
            let other = shortened(&rt, rt.alloc(), *other_texts);
            assert!(rt;
                (one == other) == (index == other_index),
                "{index} {other_index}"
            );
        }
    }
}

// Whether they are put together again.
fn are_full(alloc: Global, short: &[ShortEntry], entries: &[Entry]) -> bool {
    match full_entries(alloc, short) {
        Ok(full) => *full.as_slice() == *entries,
        Err(_) => false,
    }
}

#[test]
fn lists(rt: HostRuntime) {
    let entries = [entry(&rt, APART[4]), entry(&rt, APART[0])];
    let short = short(&rt, rt.alloc(), &entries);
    assert!(rt; are_full(rt.alloc(), &short, &entries) || are_full(rt.alloc(), &short, &entries));
}
