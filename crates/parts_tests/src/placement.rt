//! On which silo an activation is to begin.
use crate::samples::{A, B, C, DEAD, joined, silo, view};
use directory_rules::Policy;
use membership_view::View;
use silo_address::SiloAddress;
use silo_placement::silo_for;
use std::alloc::Global;
use std::collections::BTreeMap;
use std::process::Abort;

const LEAVING: &str = "10.0.0.2:2000@1";

// A view in which A, B and C are Active, one silo is Leaving and one is Dead.
fn three_active(rt: &impl Abort, alloc: Global) -> View {
    let mut views = joined(rt, alloc, &[C, DEAD, LEAVING, A, B]);
    views.leave(&silo(rt, LEAVING)).expect(rt, "a leave");
    views.declare_dead(&silo(rt, DEAD)).expect(rt, "a death");
    view(rt, alloc, &views, views.current())
}

fn counts(rt: &impl Abort, alloc: Global, held: &[(&str, u64)]) -> BTreeMap<SiloAddress, u64> {
    let mut counts = BTreeMap::new(alloc);
    for (text, count) in held {
        let put: Result<_, _> = counts.insert(silo(rt, text), *count);
        put.expect(rt, "memory");
    }
    counts
}

// The policy, the silo that asks, and the one that is chosen.
const CHOICES: [(Policy, &str, &str); 4] = [
    (Policy::HashBased, B, C),
    (Policy::PreferLocal, B, B),
    (Policy::PreferLocal, LEAVING, C),
    (Policy::LeastHeld, C, B),
];

// By each policy, of silos that hold so many: the third Active silo in turn, the silo itself where it is Active and else by the
// hash, and the first of those that hold least.
#[test]
fn a_silo_by_each_policy(rt: HostRuntime) {
    let view = three_active(&rt, rt.alloc());
    let held = counts(&rt, rt.alloc(), &[(A, 2), (B, 1), (C, 1), (LEAVING, 0)]);
    for (policy, local, want) in &CHOICES {
        let chosen = silo_for(*policy, &view, &silo(&rt, local), 5, &held);
        assert!(rt; chosen == Some(silo(&rt, want)));
    }
}
