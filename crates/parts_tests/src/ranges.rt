use crate::samples::range;
use ring_range::{RangeError, RingRange, laws};
use std::process::Abort;

#[test]
fn sizes_up_to_the_circle(rt: HostRuntime) {
    let full = RingRange::new(7, 4294967296).expect(&rt, "a range");
    full.in_range();
    assert!(rt; full.start() == 7 && full.size() == 4294967296);
    assert!(rt; RingRange::new(0, 4294967297).is_err() && RangeError::TooLarge.number() == 301);
}

// A range over the highest hash, its hashes before and after it, and one past its end.
#[test]
fn members(rt: HostRuntime) {
    let range = range(&rt, "4294967290+10");
    assert!(rt; range.contains(4294967295) && range.contains(3) && !range.contains(4));
}

const INCLUSIONS: [(&str, &str, bool); 5] = [
    ("4294967295+5", "4294967290+10", true),
    ("4294967295+6", "4294967290+10", false),
    ("3+0", "900+0", true),
    ("9+4294967296", "5+4294967296", true),
    ("9+4294967296", "9+4294967295", false),
];

#[test]
fn inclusions(rt: HostRuntime) {
    for (inner, outer, within) in &INCLUSIONS {
        let is_within = range(&rt, inner).is_within(&range(&rt, outer));
        assert!(rt; is_within == *within, "{inner}");
    }
}

// Two ranges, and the two parts that they share.
const MEETINGS: [(&str, &str, &str, &str); 5] = [
    (
        "0+4000000000",
        "3000000000+2000000000",
        "0+705032704",
        "3000000000+1000000000",
    ),
    (
        "3000000000+2000000000",
        "0+4000000000",
        "3000000000+1000000000",
        "0+705032704",
    ),
    ("10+5", "12+5", "12+3", "10+0"),
    ("10+5", "15+5", "10+0", "10+0"),
    ("9+4294967296", "5+4294967296", "9+4294967296", "9+0"),
];

#[test]
fn meetings(rt: HostRuntime) {
    for (this, other, first, second) in &MEETINGS {
        let parts = range(&rt, this).meet(&range(&rt, other));
        assert!(rt; parts == [range(&rt, first), range(&rt, second)], "{this}");
    }
}

// A range, where it is cut, and its parts.
const CUTS: [(&str, &[u32], &[&str]); 5] = [
    (
        "3000000000+2000000000",
        &[0, 3_500_000_000, 1_000_000_000],
        &[
            "3000000000+500000000",
            "3500000000+794967296",
            "0+705032704",
        ],
    ),
    ("5+4294967296", &[0], &["5+4294967291", "0+5"]),
    ("5+4294967296", &[5, 5], &["5+4294967296"]),
    ("10+5", &[9, 14, 12, 15], &["10+2", "12+2", "14+1"]),
    (
        "4294967294+4",
        &[1, 0, 4294967295, 2],
        &["4294967294+1", "4294967295+1", "0+1", "1+1"],
    ),
];

// Whether these are the ranges.
pub(crate) fn are_ranges(rt: &impl Abort, ranges: &[RingRange], texts: &[&str]) -> bool {
    for (one, text) in ranges.iter().zip(texts) {
        if *one != range(rt, *text) {
            return false;
        }
    }
    ranges.len() == texts.len()
}

#[test]
fn cuts(rt: HostRuntime) {
    for (text, places, parts) in &CUTS {
        let cut = range(&rt, text).cut_at(rt.alloc(), *places);
        assert!(rt;
            are_ranges(&rt, &cut.expect(&rt, "memory"), *parts),
            "{text}"
        );
    }
}

#[test]
fn a_text(rt: HostRuntime) {
    let full = range(&rt, "4294967295+4294967296");
    let printed = full.text(rt.alloc()).expect(&rt, "memory");
    assert!(rt; printed.as_str() == "4294967295+4294967296");
}

// By start, then size.
#[test]
fn ranges_in_order(rt: HostRuntime) {
    let middle = range(&rt, "10+1");
    assert!(rt; range(&rt, "2+9") < middle && middle < range(&rt, "10+2"));
}

#[test]
fn the_laws_are_calls(_rt: HostRuntime) {
    laws::steps_are_differences();
    laws::holds_is_membership();
    laws::within_is_inclusion();
    laws::meet_of_is_the_meet();
    laws::cut_parts_is_a_cut();
    laws::examples_compute();
}
