//! A silo whose request numbers are spent: all that needs one more is refused by events, and changes nothing.
use crate::leaving::{second, two_silos_by};
use crate::limits::{accept, refuse};
use crate::worlds::{see, silo};
use directory_core::{EventRefusal, World};
use directory_node::StepRefusal;
use directory_rules::{Event, OwnStep, Settings};
use hash_ring::Hashing;
use silo_address::{GrainId, SiloAddress};
use std::alloc::Global;
use std::process::Abort;

// Grains in the first silo's half, by the hashes that they state.
const ANN: &str = "user/ann#50";

const BOB: &str = "user/bob#60";

const CID: &str = "user/cid#70";

// A third silo.
const C: &str = "10.0.0.3:1000@1";

fn grain(rt: &impl Abort, text: &str) -> GrainId {
    GrainId::parse(text.as_bytes()).expect(rt, text)
}

// The first silo does that.
fn does(rt: &impl Abort, step: OwnStep) -> Event {
    Event::Do {
        silo: silo(rt),
        step,
    }
}

// It gives up its activation of ANN.
fn cancel(rt: &impl Abort) -> Event {
    does(rt, OwnStep::Cancel(grain(rt, ANN)))
}

fn third_joins(rt: &impl Abort, alloc: Global) -> Event {
    Event::Join {
        silo: SiloAddress::parse(C.as_bytes()).expect(rt, C),
        places: vec![in alloc; 1_000; 1].expect(rt, "memory"),
    }
}

// The world of two silos, each of which has so many numbers.
fn two_silos(rt: &impl Abort, alloc: Global, numbers: u64) -> Box<World> {
    let settings = Settings::of_directory(Hashing::Stated, 30, 16).expect(rt, "30 points");
    let settings = settings.with_last_number(numbers).expect(rt, "numbers");
    two_silos_by(rt, alloc, settings)
}

// The first silo has taken both of its numbers: an activation of ANN is firm, and one of BOB asks. Then a third silo joins.
fn spent(rt: &impl Abort, alloc: Global) -> Box<World> {
    let mut world = two_silos(rt, alloc, 2);
    accept(rt, &mut world, does(rt, OwnStep::Wake(grain(rt, ANN))));
    accept(rt, &mut world, Event::Deliver { number: 4 });
    accept(rt, &mut world, Event::Deliver { number: 5 });
    accept(rt, &mut world, does(rt, OwnStep::Wake(grain(rt, BOB))));
    accept(rt, &mut world, third_joins(rt, alloc));
    world
}

// All that needs one more number.
fn steps(rt: &impl Abort) -> [OwnStep; 7] {
    let (ann, bob, cid) = (grain(rt, ANN), grain(rt, BOB), grain(rt, CID));
    [
        OwnStep::Wake(cid),
        OwnStep::Close(ann),
        OwnStep::Cancel(bob),
        OwnStep::Offer {
            grain: ann,
            to: second(rt),
        },
        OwnStep::Find(cid),
        OwnStep::Nudge,
        OwnStep::NudgeGrain(bob),
    ]
}

fn refuse_for_numbers(rt: &impl Abort, world: &mut World, event: Event) {
    let refusal = EventRefusal::Node(StepRefusal::NumbersSpent);
    refuse(rt, world, event, refusal, 805);
}

#[test]
fn a_silo_without_numbers(rt: HostRuntime) {
    let mut world = spent(&rt, rt.alloc());
    let steps = steps(&rt);
    for step in &steps {
        refuse_for_numbers(&rt, &mut world, does(&rt, *step));
    }
    refuse_for_numbers(&rt, &mut world, see(&rt, 3));
}

// What has nothing outstanding needs no number.
#[test]
fn nudges_without_requests(rt: HostRuntime) {
    let mut world = spent(&rt, rt.alloc());
    let sent = world.sent();
    accept(&rt, &mut world, does(&rt, OwnStep::NudgeRanges));
    let about = OwnStep::NudgeGrain(grain(&rt, CID));
    accept(&rt, &mut world, does(&rt, about));
    assert!(rt; world.sent() == sent);
}

// Whether the first silo holds none of the grain.
fn holds_none(rt: &impl Abort, world: &World, text: &str) -> bool {
    match world.node(&silo(rt)) {
        Some(node) => node.host().held(&grain(rt, text)).is_none(),
        None => false,
    }
}

// An activation is given up while its Register, letter 4, is under way: the Deregister, letter 5, comes first, and the Register
// doesn't count any more.
#[test]
fn an_activation_is_given_up(rt: HostRuntime) {
    let mut world = two_silos(&rt, rt.alloc(), 2);
    accept(&rt, &mut world, does(&rt, OwnStep::Wake(grain(&rt, ANN))));
    accept(&rt, &mut world, cancel(&rt));
    for number in [5, 4, 6, 7] {
        accept(&rt, &mut world, Event::Deliver { number });
    }
    assert!(rt; holds_none(&rt, &world, ANN));
    let refusal = EventRefusal::Node(StepRefusal::NotHere);
    refuse(&rt, &mut world, cancel(&rt), refusal, 802);
}

// What is firm isn't given up.
#[test]
fn a_firm_activation_is_not_given_up(rt: HostRuntime) {
    let mut world = spent(&rt, rt.alloc());
    let refusal = EventRefusal::Node(StepRefusal::NotAsking);
    refuse(&rt, &mut world, cancel(&rt), refusal, 808);
}
