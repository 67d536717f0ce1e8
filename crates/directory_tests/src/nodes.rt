ghost use Rattle.directory_node.specs.Placed.{ArePlaced, IsPlaced};
ghost use Rattle.directory_node.specs.InputModel.{input_of};

use crate::steps::{copy_of, does_one};
use directory_letters::{Body, Letter};
use directory_node::{Input, Node};
use directory_rules::{Effect, OwnStep, Settings};
use hash_ring::{Hashing, Places, Ring};
use membership_view::{View, Views};
use ring_range::RingRange;
use silo_address::{GrainId, SiloAddress};
use std::alloc::Global;
use std::process::Abort;

// The silo of the story, which is alone.
fn silo(rt: &impl Abort) -> SiloAddress {
    SiloAddress::parse(b"10.0.0.1:1000@1").expect(rt, "a silo")
}

fn circle(rt: &impl Abort) -> RingRange {
    RingRange::new(10, 4_294_967_296).expect(rt, "a range")
}

// The silo has joined, and has seen nothing; in a box, as the nodes of `steps.rt`.
fn joined(rt: &impl Abort, alloc: Global) -> Box<Node> {
    let settings = Settings::of_directory(Hashing::Stated, 30, 0).expect(rt, "settings");
    let settings = settings.with_silos(1).expect(rt, "one silo");
    let node = Node::new(alloc, settings, silo(rt)).expect(rt, "memory");
    Box::new(alloc, node).expect(rt, "memory")
}

// The view of its joining.
fn view(rt: &impl Abort, alloc: Global) -> View {
    let mut views = Views::new(alloc, 1);
    views.join(silo(rt)).expect(rt, "the join");
    let made = views.view(alloc, 1).expect(rt, "memory");
    made.expect(rt, "the version")
}

fn places(rt: &impl Abort, alloc: Global) -> Places {
    let mut places = Places::new(alloc, Hashing::Stated, 30).expect(rt, "30 points");
    places.add(silo(rt), &[10]).expect(rt, "the place");
    places
}

// What a sight asks: the places are those of the silos that are Active before it and after it, and the node's ring is by them.
pub(crate) fn check_placed(
    rt: &impl Abort,
    alloc: Global,
    node: &Node,
    before: &View,
    view: &View,
    places: &Places,
)
    ensures { ArePlaced node.now before.now view.now places.now }
{
    assert!(rt; places.has_active_of(before) && places.has_active_of(view));
    let own = match Ring::anew(alloc, node.view(), places) {
        Ok(ring) => ring,
        Err(_) => Ring::anew(alloc, node.view(), places).expect(rt, "a ring"),
    };
    assert!(rt; node.ring().same(&own));
}

// The number that refuses an input.
fn refusal_of(rt: &impl Abort, alloc: Global, node: &Node, input: &Input<'_>) -> Option<u16>
    requires { IsPlaced node.now (input_of input.now) }
{
    let refusal = node.plan(alloc, input).err();
    refusal.expect(rt, "a refusal").number()
}

// The silo has joined and sees it, so its piece recovers.
fn recovering(rt: &impl Abort, alloc: Global) -> Box<Node> {
    let mut node = joined(rt, alloc);
    see(rt, alloc, &mut node);
    node
}

// The node sees the view, by which it sends one letter.
fn see(rt: &impl Abort, alloc: Global, node: &mut Node) {
    let before = View::empty(alloc);
    let view = view(rt, alloc);
    let places = places(rt, alloc);
    check_placed(rt, alloc, node, &before, &view, &places);
    let input = Input::Sees {
        before: &before,
        view: &view,
        places: &places,
    };
    does_one(rt, alloc, node, &input, Effect::Next);
}

// A grain of which the silo knows nothing is neither woken, closed, given up nor offered, and isn't cached.
#[test]
fn a_silo_that_has_seen_nothing(rt: HostRuntime) {
    let node = joined(&rt, rt.alloc());
    node.whole();
    let ann = GrainId::parse(b"user/ann#50").expect(&rt, "a grain");
    check_refusals(&rt, rt.alloc(), &node, &ann);
}

fn check_refusals(rt: &impl Abort, alloc: Global, node: &Node, grain: &GrainId) {
    let (grain, to) = (*grain, node.host().silo());
    assert!(rt;
        refusal_of(rt, alloc, node, &Input::Does(&OwnStep::Wake(grain))) == Some(804)
            && refusal_of(rt, alloc, node, &Input::Does(&OwnStep::Close(grain))) == Some(802)
            && refusal_of(rt, alloc, node, &Input::Does(&OwnStep::Cancel(grain))) == Some(802)
            && refusal_of(rt, alloc, node, &Input::Does(&OwnStep::Offer { grain, to })) == Some(802)
    );
}

fn is_recovering(node: &Node, circle: &RingRange) -> bool {
    node.view().version() == 1
        && node.holding().has_piece(circle)
        && !node.holding().is_settled_throughout(circle)
        && node.unsettled_count() == 1
}

#[test]
fn a_first_sight(rt: HostRuntime) {
    let node = recovering(&rt, rt.alloc());
    let copy = copy_of(&rt, rt.alloc(), &node);
    assert!(rt; copy.same(&node) && is_recovering(&node, &circle(&rt)));
}

fn is_copied(letter: &Letter) -> bool {
    let Ok(copy) = letter.copy() else {
        return false;
    };
    copy.same(letter) && letter.from() == letter.to() && letter.version() == 1
}

fn is_body_copied(body: &Body) -> bool {
    match body.copy() {
        Ok(copy) => copy.same(body),
        Err(_) => false,
    }
}

#[test]
fn a_letter(rt: HostRuntime) {
    let body = Body::Query {
        range: circle(&rt),
        after: None,
    };
    let letter = Letter::new(silo(&rt), silo(&rt), 1, body);
    assert!(rt; is_copied(&letter) && is_body_copied(letter.body()));
}
