ghost use Rattle.std.specs.Prelude.{IfOk};
ghost use Rattle.hash_ring.specs.Ring.{IsRingBy};

use crate::fault::Fault;
use crate::naming::{places, silo};
use crate::stopwatch::Stopwatch;
use directory_core::World;
use directory_rules::{Event, OwnStep, Settings};
use grain_partition::Holding;
use hash_ring::{Hashing, Ring};
use membership_view::View;
use silo_address::{GrainId, SiloAddress};
use std::alloc::Global;

/// From the place of a point to that of the next one, where they lie all over the circle, evenly.
pub(crate) const EVENLY: u32 = 1_779_033_703;

/// What a silo does with a grain.
#[derive(Clone, Copy)]
pub(crate) enum Deed {
    /// It starts an activation.
    Wake,
    /// It closes its activation.
    Close,
    /// It looks the grain up.
    Find,
    /// It closes its activation, and starts another one once that is settled.
    Renew,
}

/// A world, and the silos that live in it, by address.
#[derive(Drop)]
pub(crate) struct Cluster {
    pub(crate) alloc: Global,
    pub(crate) world: World,
    silos: Vec<SiloAddress>,
    // How many points all silos have that ever joined.
    points: u32,
    /// What was measured of it.
    pub(crate) stopwatch: Stopwatch,
}

impl Cluster {
    /// A world before its first event, whose caches keep so many hints.
    pub(crate) fn new(alloc: Global, hints: usize) -> Result<Box<Cluster>, Fault> {
        match Settings::of_directory(Hashing::Stated, 1, hints) {
            Some(settings) => Ok(Box::new(alloc, Cluster::first(alloc, settings))?),
            None => Err(Fault::Missing),
        }
    }

    fn first(alloc: Global, settings: Settings) -> Cluster {
        Cluster {
            alloc,
            world: World::new(alloc, settings),
            silos: Vec::new(alloc),
            points: 0,
            stopwatch: Stopwatch::new(),
        }
    }

    /// The silo whose turn it is.
    pub(crate) fn in_turn(&self, turn: u64) -> Result<SiloAddress, Fault> {
        let index = turn.checked_rem(self.silos.len() as u64).unwrap_or(0);
        match self.silos.get(index as usize) {
            Some(silo) => Ok(*silo),
            None => Err(Fault::Missing),
        }
    }

    /// A view of the world.
    pub(crate) fn view(&self, version: u64) -> Result<View, Fault> {
        self.world
            .views()
            .view(self.alloc, version)?
            .ok_or(Fault::Missing)
    }

    /// The ring of a version.
    pub(crate) fn ring(&self, version: u64) -> Result<Ring, Fault>
        ensures { IfOk result (λ ring. IsRingBy ring self.now.world.places) }
    {
        let view = self.view(version)?;
        Ok(Ring::anew(self.alloc, &view, self.world.places())?)
    }

    /// A silo joins with so many points, which lie all over the circle, and among those of all others.
    pub(crate) fn join(&mut self, points: u32) -> Result<(), Fault> {
        let first = self.points.wrapping_mul(EVENLY);
        self.join_at(points, first, EVENLY)
    }

    /// A silo joins with so many points, from a first one on, so far from one another.
    pub(crate) fn join_at(&mut self, points: u32, first: u32, step: u32) -> Result<(), Fault> {
        let silo = silo(self.alloc, self.silos.len() as u64)?;
        self.silos.push(silo)?;
        self.points = self.points.wrapping_add(points);
        let places = places(self.alloc, points, first, step)?;
        self.happens(&Event::Join { silo, places })
    }

    /// The youngest silo dies.
    pub(crate) fn kill(&mut self) -> Result<(), Fault> {
        let silo = self.silos.pop().ok_or(Fault::Missing)?;
        self.happens(&Event::Kill { silo })
    }

    /// All silos see the current version, the oldest one first, and all letters are delivered.
    pub(crate) fn all_see(&mut self) -> Result<(), Fault> {
        let version = self.world.current();
        for turn in 0..self.silos.len() as u64 {
            let silo = self.in_turn(turn)?;
            self.happens(&Event::See { silo, version })?;
        }
        self.settle()
    }

    /// The silo whose turn it is does something with a grain.
    pub(crate) fn does(&mut self, deed: Deed, turn: u64, grain: GrainId) -> Result<(), Fault> {
        let silo = self.in_turn(turn)?;
        match deed {
            Deed::Wake => self.asks(silo, OwnStep::Wake(grain)),
            Deed::Close => self.asks(silo, OwnStep::Close(grain)),
            Deed::Find => self.asks(silo, OwnStep::Find(grain)),
            Deed::Renew => self.renew(silo, grain),
        }
    }

    // An activation ends and another one begins.
    fn renew(&mut self, silo: SiloAddress, grain: GrainId) -> Result<(), Fault> {
        self.asks(silo, OwnStep::Close(grain))?;
        self.settle()?;
        self.asks(silo, OwnStep::Wake(grain))
    }

    // A silo does what its application asks of it.
    fn asks(&mut self, silo: SiloAddress, step: OwnStep) -> Result<(), Fault> {
        self.happens(&Event::Do { silo, step })
    }

    /// The letters that were never delivered are delivered, the least first, until there is none.
    pub(crate) fn settle(&mut self) -> Result<(), Fault> {
        for _ in 0..u64::MAX {
            let Some(number) = self.world.least_deliverable() else {
                break;
            };
            self.happens(&Event::Deliver { number })?;
        }
        Ok(())
    }

    /// An event happens, which has to be accepted.
    pub(crate) fn happens(&mut self, event: &Event) -> Result<(), Fault> {
        match self.world.apply(event) {
            Ok(_) => {
                self.stopwatch.count(1, 0);
                Ok(())
            }
            Err(refusal) => Err(Fault::Event(refusal.number())),
        }
    }

    /// What was measured, with the sum of what is left.
    pub(crate) fn measured(&self) -> Stopwatch {
        let mut stopwatch = self.stopwatch;
        stopwatch.count(0, sum_of_world(&self.world));
        stopwatch
    }
}

/// A sum mixed from how many events were accepted and letters sent, and how many activations, pieces and entries each silo has.
pub(crate) fn sum_of_world(world: &World) -> u64 {
    let mut sum = mixed(world.accepted(), world.sent());
    for (_, shared) in world.nodes() {
        let node = shared.node();
        let held = node.host().held_count() as u64;
        sum = mixed(mixed(sum, held), sum_of(node.holding()));
    }
    sum
}

/// How many pieces there are, and how many entries they have.
pub(crate) fn sum_of(holding: &Holding) -> u64 {
    let mut sum = 0u64;
    for (_, piece) in holding.pieces() {
        sum = sum
            .wrapping_add(1)
            .wrapping_add(piece.entries().len() as u64);
    }
    sum
}

fn mixed(sum: u64, number: u64) -> u64 {
    sum.wrapping_mul(1_000_003).wrapping_add(number)
}
