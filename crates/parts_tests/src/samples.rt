//! Values by their texts, for the tests. What needs memory is made again where that is refused.
use directory_rules::Settings;
use hash_ring::{Hashing, Places, Ring};
use membership_view::{View, Views};
use ring_range::RingRange;
use silo_address::{ActivationId, Entry, GrainId, SiloAddress};
use std::alloc::Global;
use std::process::Abort;

// Silos, by address.
pub(crate) const A: &str = "10.0.0.1:1000@1";

pub(crate) const B: &str = "10.0.0.2:1000@1";

pub(crate) const C: &str = "10.0.0.3:1000@1";

pub(crate) const DEAD: &str = "10.0.0.4:1000@1";

pub(crate) fn silo(rt: &impl Abort, text: &str) -> SiloAddress {
    SiloAddress::parse(text.as_bytes()).expect(rt, "a silo")
}

pub(crate) fn grain(rt: &impl Abort, text: &str) -> GrainId {
    GrainId::parse(text.as_bytes()).expect(rt, "a grain")
}

pub(crate) fn activation(rt: &impl Abort, text: &str) -> ActivationId {
    ActivationId::parse(text.as_bytes()).expect(rt, "an activation")
}

pub(crate) fn range(rt: &impl Abort, text: &str) -> RingRange {
    RingRange::parse(text.as_bytes()).expect(rt, "a range")
}

// The entry of a grain that has the activation of that count on a silo.
pub(crate) fn entry(rt: &impl Abort, (of, on, count): (&str, &str, u64)) -> Entry {
    let (grain, silo) = (grain(rt, of), silo(rt, on));
    let activation = ActivationId { silo, count };
    Entry { grain, activation }
}

// Settings of a directory that hashes in this way.
pub(crate) fn settings(rt: &impl Abort, hashing: Hashing) -> Settings {
    Settings::of_directory(hashing, 30, 0).expect(rt, "settings")
}

// The views in which these silos join one after another.
pub(crate) fn joined(rt: &impl Abort, alloc: Global, texts: &[&str]) -> Views {
    let mut views = Views::new(alloc, 256);
    for text in texts {
        join(rt, &mut views, text);
    }
    views
}

pub(crate) fn join(rt: &impl Abort, views: &mut Views, text: &str) {
    let silo = silo(rt, text);
    if views.join(silo).is_err() {
        views.join(silo).expect(rt, "memory");
    }
}

pub(crate) fn declare_dead(rt: &impl Abort, views: &mut Views, text: &str) {
    let silo = silo(rt, text);
    if views.declare_dead(&silo).is_err() {
        views.declare_dead(&silo).expect(rt, "memory");
    }
}

// The view of a version that was made.
pub(crate) fn view(rt: &impl Abort, alloc: Global, views: &Views, version: u64) -> View {
    let made = match views.view(alloc, version) {
        Ok(made) => made,
        Err(_) => views.view(alloc, version).expect(rt, "memory"),
    };
    made.expect(rt, "this version was made")
}

// A cluster without silos, whose points have stated places.
pub(crate) fn no_silos(rt: &impl Abort, alloc: Global) -> (Views, Places) {
    let places = Places::new(alloc, Hashing::Stated, 30).expect(rt, "1 to 128 points");
    (Views::new(alloc, 256), places)
}

// A silo joins, with these places.
pub(crate) fn join_at(
    rt: &impl Abort,
    views: &mut Views,
    places: &mut Places,
    silo: SiloAddress,
    given: &[u32],
) {
    views.join(silo).expect(rt, "a silo that may join");
    places
        .add(silo, given)
        .expect(rt, "places that may be given");
}

// The ring of the current view.
pub(crate) fn ring_now(rt: &impl Abort, alloc: Global, views: &Views, places: &Places) -> Ring {
    let now = view(rt, alloc, views, views.current());
    assert!(rt; places.has_active_of(&now));
    Ring::anew(alloc, &now, places).expect(rt, "a ring")
}

// As many grains as a node of a map takes, which is 15, one that splits it, and one more.
pub(crate) const MANY: [&str; 17] = [
    "user/a#10",
    "user/b#20",
    "user/c#30",
    "user/d#40",
    "user/e#50",
    "user/f#60",
    "user/g#70",
    "user/h#80",
    "user/i#90",
    "user/j#100",
    "user/k#110",
    "user/l#120",
    "user/m#130",
    "user/n#140",
    "user/o#150",
    "user/p#160",
    "user/q#170",
];
