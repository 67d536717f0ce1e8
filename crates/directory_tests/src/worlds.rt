use crate::limits::{accept, boxed, refuse};
use directory_core::{EventRefusal, EventResult, World};
use directory_rules::{Effect, Event, Happening, LetterKind, Outcome, OwnStep, Settings, Span};
use hash_ring::Hashing;
use silo_address::{ActivationId, Entry, GrainId, SiloAddress};
use std::alloc::Global;
use std::process::Abort;

// The silo, and a grain whose stated hash is 7.
const A: &str = "10.0.0.1:1000@1";

const ANN: &str = "user/ann#7";

pub(crate) fn silo(rt: &impl Abort) -> SiloAddress {
    SiloAddress::parse(A.as_bytes()).expect(rt, A)
}

fn grain(rt: &impl Abort) -> GrainId {
    GrainId::parse(ANN.as_bytes()).expect(rt, ANN)
}

// The world of one silo before the first event, with stated places, in which so many letters may ever be sent.
fn first(rt: &impl Abort, alloc: Global, letters: u64) -> Box<World> {
    let settings = Settings::of_directory(Hashing::Stated, 30, 0).expect(rt, "30 points");
    let settings = settings.with_silos(1).expect(rt, "one silo");
    let settings = settings.with_letters(letters).expect(rt, "so many letters");
    boxed(rt, alloc, settings)
}

// A join with that place so often.
fn join_with(rt: &impl Abort, alloc: Global, places: usize) -> Event {
    Event::Join {
        silo: silo(rt),
        places: vec![in alloc; 7; places].expect(rt, "memory"),
    }
}

pub(crate) fn see(rt: &impl Abort, version: u64) -> Event {
    Event::See {
        silo: silo(rt),
        version,
    }
}

fn wake(rt: &impl Abort) -> Event {
    Event::Do {
        silo: silo(rt),
        step: OwnStep::Wake(grain(rt)),
    }
}

fn find(rt: &impl Abort) -> Event {
    Event::Do {
        silo: silo(rt),
        step: OwnStep::Find(grain(rt)),
    }
}

// The event is accepted, and tells that.
fn happens(
    rt: &impl Abort,
    world: &mut World,
    event: Event,
    happening: Happening,
    sent: Option<Span>,
) {
    assert!(rt; world.apply(&event) == Ok(Outcome { happening, sent }));
}

// One letter of that number.
fn one(number: u64) -> Option<Span> {
    Some(Span {
        first: number,
        last: number,
    })
}

// The letter of that number comes, which does that.
fn comes(
    rt: &impl Abort,
    world: &mut World,
    number: u64,
    kind: LetterKind,
    effect: Effect,
    sent: Option<Span>,
) {
    let happening = Happening::Delivered {
        number,
        kind,
        effect,
    };
    happens(rt, world, Event::Deliver { number }, happening, sent);
}

// The silo does something of its own accord, by which that letter is sent.
fn does(rt: &impl Abort, world: &mut World, event: Event, effect: Effect, letter: u64) {
    let did = Happening::Did {
        silo: silo(rt),
        effect,
    };
    happens(rt, world, event, did, one(letter));
}

// It joins, sees its view, and recovers its range from itself.
fn recovers(rt: &impl Abort, world: &mut World, join: Event) {
    let joined = Happening::Joined {
        version: 1,
        silo: silo(rt),
        replaced: None,
    };
    happens(rt, world, join, joined, None);
    let saw = Happening::Saw {
        silo: silo(rt),
        version: 1,
        effect: Effect::Next,
    };
    happens(rt, world, see(rt, 1), saw, one(1));
    comes(rt, world, 1, LetterKind::Query, Effect::Report, one(2));
    comes(rt, world, 2, LetterKind::Report, Effect::Complete, None);
}

// A grain's activation begins, and is entered.
fn registers(rt: &impl Abort, world: &mut World) {
    let entry = Entry {
        grain: grain(rt),
        activation: ActivationId {
            silo: silo(rt),
            count: 1,
        },
    };
    does(rt, world, wake(rt), Effect::Started(entry), 3);
    comes(
        rt,
        world,
        3,
        LetterKind::Register,
        Effect::Registered,
        one(4),
    );
    comes(rt, world, 4, LetterKind::Registered, Effect::Firm, None);
}

// It is found.
fn finds(rt: &impl Abort, world: &mut World) {
    does(rt, world, find(rt), Effect::Finding(grain(rt)), 5);
    comes(rt, world, 5, LetterKind::Find, Effect::Found, one(6));
    comes(rt, world, 6, LetterKind::Found, Effect::Learnt, None);
}

fn has_ended(world: &World) -> bool {
    world.accepted() == 10 && world.sent() == 6 && world.least_deliverable().is_none()
}

// One silo, alone.
#[test]
fn the_first_run(rt: HostRuntime) {
    let mut world = first(&rt, rt.alloc(), 6);
    recovers(&rt, &mut world, join_with(&rt, rt.alloc(), 1));
    registers(&rt, &mut world);
    finds(&rt, &mut world);
    assert!(rt; has_ended(&world));
}

// A letter that isn't there is to come, and then the silo joins.
fn refused_and_joined(rt: &impl Abort, alloc: Global) -> Vec<Event> {
    let mut events = Vec::new(alloc);
    events
        .push(Event::Deliver { number: 1 })
        .expect(rt, "memory");
    events.push(join_with(rt, alloc, 1)).expect(rt, "memory");
    events
}

fn goes_on(told: &[EventResult]) -> bool {
    told.len() == 2
        && *told[0].result() == Err(EventRefusal::NoSuchLetter)
        && told[1].result().is_ok()
}

// A run goes on behind a refusal.
#[test]
fn a_run_goes_on(rt: HostRuntime) {
    let mut world = first(&rt, rt.alloc(), 6);
    let events = refused_and_joined(&rt, rt.alloc());
    let told = world.run(rt.alloc(), &events).expect(&rt, "memory");
    assert!(rt; goes_on(&told));
}

// The world in which the silo has seen the view, and so many letters may ever be sent.
fn seen(rt: &impl Abort, alloc: Global, letters: u64) -> Box<World> {
    let mut world = first(rt, alloc, letters);
    sees(rt, alloc, &mut world);
    world
}

// The silo joins, and sees it.
pub(crate) fn sees(rt: &impl Abort, alloc: Global, world: &mut World) {
    accept(rt, world, join_with(rt, alloc, 1));
    accept(rt, world, see(rt, 1));
}

// What is told of the world, of its silo and of its letter.
fn tells(world: &World, silo: &SiloAddress) -> bool {
    world.settings().silos() == 1
        && world.views().current() == 1
        && world.current() == 1
        && world.least_deliverable() == Some(1)
        && has_seen(world, silo)
}

fn has_seen(world: &World, silo: &SiloAddress) -> bool {
    match world.node(silo) {
        Some(node) => node.view().version() == 1,
        None => false,
    }
}

// What may be asked of a world, after its silo has seen the view.
#[test]
fn questions_to_a_world(rt: HostRuntime) {
    let world = seen(&rt, rt.alloc(), 6);
    world.whole();
    assert!(rt; tells(&world, &silo(&rt)) && has_query(&world));
    assert!(rt; has_one_point(rt.alloc(), &world) && is_owner(rt.alloc(), &world, 7));
}

fn has_query(world: &World) -> bool {
    match world.letter(1) {
        Some(letter) => letter.letter().kind() == LetterKind::Query,
        None => false,
    }
}

// Whether the ring of the current view has just one point.
pub(crate) fn has_one_point(alloc: Global, world: &World) -> bool {
    match world.current_ring(alloc) {
        Ok(ring) => ring.points().len() == 1,
        Err(_) => false,
    }
}

// Whether the point at that place owns the least hash.
fn is_owner(alloc: Global, world: &World, place: u32) -> bool {
    match world.owner(alloc, 0) {
        Ok(Some(owner)) => owner.place == place,
        _ => false,
    }
}

// The one letter that may be sent is the query of the silo's sight; what would send a second one is refused, and the query may
// come again.
#[test]
fn no_room_for_a_second_letter(rt: HostRuntime) {
    let mut world = seen(&rt, rt.alloc(), 1);
    let full = EventRefusal::MailFull;
    refuse(&rt, &mut world, wake(&rt), full, 909);
    refuse(&rt, &mut world, find(&rt), full, 909);
    refuse(&rt, &mut world, Event::Deliver { number: 1 }, full, 909);
    assert!(rt; world.least_deliverable() == Some(1));
}
