//! An activation closes, and one moves from a node to another; a version is skipped. Any one refusal of an allocation leaves the
//! tests true: `rt try --test --fail-alloc N` refuses each its Nth.
use crate::handing::handed;
use crate::steps::{does_one, entry_on, first, joined, moved, second, sees, sends, settled, takes};
use directory_letters::Letter;
use directory_node::{Input, Node};
use directory_rules::{Effect, OwnStep};
use std::alloc::Global;
use std::process::Abort;

// The activation on the first silo is entered no more, and ends, of which it is told twice.
fn closes(rt: &impl Abort, alloc: Global, node: &mut Node) {
    let closing = Effect::Closing(entry_on(rt, first(rt)));
    let close = OwnStep::Close(moved(rt));
    let deregister = does_one(rt, alloc, node, &Input::Does(&close), closing);
    let removed = sends(rt, alloc, node, &deregister, Effect::Removed);
    takes(rt, alloc, node, &removed, Effect::Ended);
    takes(rt, alloc, node, &removed, Effect::Ignored);
}

#[test]
fn an_activation_closes(rt: HostRuntime) {
    let mut node = settled(&rt, rt.alloc());
    closes(&rt, rt.alloc(), &mut node);
    assert!(rt; node.host().held(&moved(&rt)).is_none());
}

// What the first silo offers to the second one.
fn offers(rt: &impl Abort, alloc: Global, node: &mut Node) -> Box<Letter> {
    let (grain, to) = (moved(rt), second(rt));
    let offer = OwnStep::Offer { grain, to };
    let entry = entry_on(rt, first(rt));
    does_one(
        rt,
        alloc,
        node,
        &Input::Does(&offer),
        Effect::Offered { entry, to },
    )
}

// The offer comes twice: an activation starts, and is entered.
fn take_offer(rt: &impl Abort, alloc: Global, node: &mut Node, offer: &Letter) {
    let started = Effect::Started(entry_on(rt, second(rt)));
    let register = sends(rt, alloc, node, offer, started);
    let registered = sends(rt, alloc, node, &register, Effect::Registered);
    takes(rt, alloc, node, &registered, Effect::Firm);
    takes(rt, alloc, node, offer, Effect::Ignored);
}

#[test]
fn an_activation_moves(rt: HostRuntime) {
    let (mut old, mut new) = handed(&rt, rt.alloc());
    let offer = offers(&rt, rt.alloc(), &mut old);
    take_offer(&rt, rt.alloc(), &mut new, &offer);
}

// Both silos are asked for what is firm on them.
#[test]
fn a_version_is_skipped(rt: HostRuntime) {
    let alloc = rt.alloc();
    let mut node = joined(&rt, alloc, first(&rt));
    let queries = sees(&rt, alloc, &mut node, 2, Effect::Skip);
    assert!(rt; queries.len() == 2);
    let report = sends(&rt, alloc, &mut node, &queries[0], Effect::Report);
    takes(&rt, alloc, &mut node, &report, Effect::More);
    takes(&rt, alloc, &mut node, &report, Effect::Ignored);
}
