//! Measures the ring: owners in rings of 1 to 256 silos, a text's hash, and a ring that is made, advanced and compared.
ghost use Rattle.hash_ring.specs.Ring.{IsRingBy};

use crate::cluster::Cluster;
use crate::fault::Fault;
use crate::stopwatch::{Stopwatch, now};
use hash_ring::{Ring, hash_text};
use membership_view::View;
use range_moves::{RingArc, arcs};
use std::alloc::Global;

/// How many silos there are at most, and how many points each of them has.
const SILOS: u64 = 256;

const POINTS: u32 = 30;

/// How many owners are looked up, and how many texts are hashed, in a round.
const OWNERS: u64 = 2_000_000;

const TEXTS: u64 = 1_000_000;

/// What is called in a round.
enum Work {
    /// Owners of hashes drawn at random are looked up.
    Owners,
    /// Texts are hashed.
    Texts,
    /// The ring of the view in which one silo is dead is made.
    Anew,
    /// The ring is brought to this view.
    Advance,
    /// The ring is compared with that of this view.
    Arcs,
}

/// Each measure's name, with how many points its ring has; the version of the ring, which is how many silos have joined; and how
/// many rounds there are.
const MEASURES: [(&str, Work, u64, u64); 9] = [
    ("owner-30", Work::Owners, 1, 1),
    ("owner-120", Work::Owners, 4, 1),
    ("owner-480", Work::Owners, 16, 1),
    ("owner-1920", Work::Owners, 64, 1),
    ("owner-7680", Work::Owners, 256, 1),
    ("hash_text-0", Work::Texts, 1, 1),
    ("anew-7650", Work::Anew, 256, 100),
    ("advance-7680", Work::Advance, 256, 100),
    ("arcs-7680", Work::Arcs, 256, 100),
];

pub(crate) fn measure(rt: &HostRuntime) -> Result<(), Fault> {
    let rings = Rings::of(rt.alloc())?;
    rings.measure(rt)
}

/// A cluster in which silos joined one after another, and then one of them died: the view after, and its ring.
#[derive(Drop)]
struct Rings {
    cluster: Box<Cluster>,
    view: View,
    ring: Ring,
}

impl Rings {
    fn of(alloc: Global) -> Result<Rings, Fault> {
        let cluster = shrunken(alloc)?;
        let view = cluster.view(SILOS + 1)?;
        let ring = cluster.ring(SILOS + 1)?;
        Ok(Rings {
            cluster,
            view,
            ring,
        })
    }

    fn measure(&self, rt: &HostRuntime) -> Result<(), Fault> {
        for (name, work, version, rounds) in &MEASURES {
            let stopwatch = self.measured(rt, work, *version, *rounds)?;
            stopwatch.report(rt, name)?;
        }
        Ok(())
    }

    // Makes the ring of the version for each round, outside the time.
    fn measured(
        &self,
        rt: &HostRuntime,
        work: &Work,
        version: u64,
        rounds: u64,
    ) -> Result<Stopwatch, Fault> {
        let mut stopwatch = Stopwatch::new();
        for _ in 0..rounds {
            let mut ring = self.cluster.ring(version)?;
            self.measure_round(rt, work, &mut ring, &mut stopwatch)?;
        }
        Ok(stopwatch)
    }

    fn measure_round(
        &self,
        rt: &HostRuntime,
        work: &Work,
        ring: &mut Ring,
        stopwatch: &mut Stopwatch,
    ) -> Result<(), Fault>
        requires { IsRingBy ring.old self.now.cluster.value.world.places }
    {
        let start = now(rt)?;
        let (calls, sum) = self.round(work, ring)?;
        stopwatch.count(calls, sum);
        stopwatch.note(rt, start)
    }

    // How many calls there were in a round, and the sum of their answers.
    fn round(&self, work: &Work, ring: &mut Ring) -> Result<(u64, u64), Fault>
        requires { IsRingBy ring.old self.now.cluster.value.world.places }
    {
        match work {
            Work::Owners => Ok((OWNERS, sum_of_owners(ring))),
            Work::Texts => Ok((TEXTS, sum_of_hashes())),
            Work::Anew => self.anew(),
            Work::Advance => self.advance(ring),
            Work::Arcs => self.compare(ring),
        }
    }

    fn anew(&self) -> Result<(u64, u64), Fault> {
        let ring = Ring::anew(self.cluster.alloc, &self.view, self.cluster.world.places())?;
        Ok((1, place_of(&ring)))
    }

    fn advance(&self, ring: &mut Ring) -> Result<(u64, u64), Fault>
        requires { IsRingBy ring.old self.now.cluster.value.world.places }
    {
        ring.advance(&self.view, self.cluster.world.places())?;
        Ok((1, place_of(ring)))
    }

    fn compare(&self, ring: &Ring) -> Result<(u64, u64), Fault> {
        let arcs = arcs(self.cluster.alloc, ring, &self.ring)?;
        Ok((1, sum_of_arcs(&arcs)))
    }
}

// So many silos join as there are at most, and the last one dies.
fn shrunken(alloc: Global) -> Result<Box<Cluster>, Fault> {
    let mut cluster = Cluster::new(alloc, 0)?;
    for _ in 0..SILOS {
        cluster.join(POINTS)?;
    }
    cluster.kill()?;
    Ok(cluster)
}

// The sum of the places of the owners' points.
fn sum_of_owners(ring: &Ring) -> u64 {
    let (mut x, mut sum) = (1u64, 0u64);
    for _ in 0..OWNERS {
        x = x
            .wrapping_mul(6364136223846793005)
            .wrapping_add(1442695040888963407);
        if let Some(point) = ring.owner((x >> 32) as u32) {
            sum = sum.wrapping_add(u64::from(point.place));
        }
    }
    sum
}

fn sum_of_hashes() -> u64 {
    let mut sum = 0u64;
    for number in 0..TEXTS {
        sum = sum.wrapping_add(u64::from(hash_text(&text_of(number))));
    }
    sum
}

// The text of a grain, its key a number of seven digits.
fn text_of(number: u64) -> [u8; 14] {
    let mut text = *b"user/0000000#7";
    let mut rest = number;
    for digit in text[5..12].iter_mut().rev() {
        *digit = b'0' + (rest % 10) as u8;
        rest /= 10;
    }
    text
}

// The place of some point: a sample of a ring.
fn place_of(ring: &Ring) -> u64 {
    match ring.points().get(77) {
        Some(point) => u64::from(point.place),
        None => 0,
    }
}

// How many hashes change hands, and where the arcs begin.
fn sum_of_arcs(arcs: &[RingArc]) -> u64 {
    let mut sum = 0u64;
    for arc in arcs {
        sum = sum.wrapping_add(u64::from(arc.range.start()));
        if arc.from != arc.to {
            sum = sum.wrapping_add(arc.range.size());
        }
    }
    sum
}
