//! A silo that comes to a cluster of one, and goes; a letter between the two that is lost.
use crate::limits::{accept, boxed, refuses};
use crate::worlds::{has_one_point, see, sees, silo};
use directory_core::{EventRefusal, World};
use directory_rules::{Event, OwnStep, Settings};
use hash_ring::Hashing;
use membership_view::ViewsError;
use silo_address::SiloAddress;
use std::alloc::Global;
use std::process::Abort;

// A second silo.
const B: &str = "10.0.0.2:1000@1";

pub(crate) fn second(rt: &impl Abort) -> SiloAddress {
    SiloAddress::parse(B.as_bytes()).expect(rt, B)
}

// The letters of these numbers come.
fn all_come(rt: &impl Abort, world: &mut World, first: u64, last: u64) {
    for number in first..=last {
        assert!(rt; world.apply(&Event::Deliver { number }).is_ok());
    }
}

// The first silo has settled the whole circle, and hands half of it to the second one, which asks for it.
fn two_silos(rt: &impl Abort, alloc: Global) -> Box<World> {
    let settings = Settings::of_directory(Hashing::Stated, 30, 16).expect(rt, "30 points");
    two_silos_by(rt, alloc, settings)
}

// The same by these settings: 7 events, and 3 letters.
pub(crate) fn two_silos_by(rt: &impl Abort, alloc: Global, settings: Settings) -> Box<World> {
    let mut world = boxed(rt, alloc, settings);
    sees(rt, alloc, &mut world);
    all_come(rt, &mut world, 1, 2);
    second_joins(rt, alloc, &mut world);
    world
}

// The second silo joins, and both see it.
fn second_joins(rt: &impl Abort, alloc: Global, world: &mut World) {
    let silo = second(rt);
    let places = vec![in alloc; 2_147_483_655; 1].expect(rt, "memory");
    accept(rt, world, Event::Join { silo, places });
    accept(rt, world, see(rt, 2));
    accept(rt, world, Event::See { silo, version: 2 });
}

// A range is handed over; then the second silo leaves, and dies.
#[test]
fn a_silo_comes_and_goes(rt: HostRuntime) {
    let mut world = two_silos(&rt, rt.alloc());
    all_come(&rt, &mut world, 3, 5);
    assert!(rt; leaves(&mut world, second(&rt)) && has_one_point(rt.alloc(), &world));
}

// Whether the silo leaves just once, and dies just once.
fn leaves(world: &mut World, silo: SiloAddress) -> bool {
    let (leave, kill) = (Event::Leave { silo }, Event::Kill { silo });
    world.apply(&leave).is_ok()
        && refuses(
            world,
            &leave,
            EventRefusal::Views(ViewsError::NotActive),
            203,
        )
        && world.apply(&kill).is_ok()
        && world.node(&silo).is_none()
        && refuses(world, &kill, EventRefusal::DeadSilo, 902)
        && refuses(world, &leave, EventRefusal::DeadSilo, 902)
}

// Whether letter 3, for the silo, is the least that may be delivered, and the first one isn't fresh any more.
fn is_sent(world: &World, silo: &SiloAddress) -> bool {
    world.least_deliverable() == Some(3)
        && world.least_fresh_to(silo) == Some(3)
        && world.is_fresh(3)
        && !world.is_fresh(1)
}

// Whether the letter is lost, and can't come.
fn is_lost(world: &mut World) -> bool {
    let deliver = Event::Deliver { number: 3 };
    world.apply(&Event::Lose { number: 3 }).is_ok()
        && world.least_deliverable().is_none()
        && !world.is_fresh(3)
        && refuses(world, &deliver, EventRefusal::NoSuchLetter, 905)
}

// An ask is lost, and a nudge sends it again.
#[test]
fn a_lost_letter(rt: HostRuntime) {
    let mut world = two_silos(&rt, rt.alloc());
    assert!(rt; is_sent(&world, &silo(&rt)) && is_lost(&mut world));
    let (silo, step) = (second(&rt), OwnStep::Nudge);
    accept(&rt, &mut world, Event::Do { silo, step });
    all_come(&rt, &mut world, 4, 6);
    assert!(rt; world.sent() == 6);
}
