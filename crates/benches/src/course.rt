//! What is done in a cluster, step by step, and what that takes.

use crate::cluster::{Cluster, Deed};
use crate::fault::Fault;
use crate::naming::{Order, STRIDE};
use crate::stopwatch::now;
use silo_address::GrainId;

/// How many grains are named at a time, and after how many deeds letters are delivered where they aren't after each.
const PORTION: u64 = 16;

/// What is done in a cluster.
pub(crate) enum Step {
    /// So many silos join, one after another, with so many points each, and all see each version.
    Join(Amount, u32),
    /// The youngest silo dies, and all others see it.
    Kill,
    /// The deed is done to each of so many grains once, in their order, settled by portions.
    Through(Deed, Amount),
    /// The deed is done so often, to grains from all over the circle, of so many, and settled each time.
    Across(Deed, Amount, Amount),
}

/// How much is done: where it is measured, and where it is only seen that it can be.
pub(crate) struct Amount(pub(crate) u64, pub(crate) u64);

/// Which of both is played.
#[derive(Clone, Copy)]
pub(crate) enum Scale {
    /// What is measured.
    Whole,
    /// What is played to see that all of it can be.
    Small,
}

impl Scale {
    fn of(self, amount: &Amount) -> u64 {
        match self {
            Scale::Whole => amount.0,
            Scale::Small => amount.1,
        }
    }
}

/// Deeds one after another, the silos doing them in turn.
#[derive(Clone, Copy)]
struct Course {
    deed: Deed,
    /// How many deeds there are.
    count: u64,
    /// To which grains.
    order: Order,
    /// Whether letters are delivered after each deed, and not only after each portion.
    settles_each: bool,
}

impl Course {
    // The deeds of the portion that begins with a turn, and is of these grains.
    fn play(&self, cluster: &mut Cluster, first: u64, grains: &[GrainId]) -> Result<(), Fault> {
        for (step, grain) in grains.iter().enumerate() {
            cluster.does(self.deed, first.wrapping_add(step as u64), *grain)?;
            if self.settles_each {
                cluster.settle()?;
            }
        }
        cluster.settle()
    }
}

impl Cluster {
    /// Steps are played one after another.
    pub(crate) fn play_all(
        &mut self,
        rt: &HostRuntime,
        steps: &[Step],
        scale: Scale,
    ) -> Result<(), Fault> {
        for step in steps {
            self.play(rt, step, scale)?;
        }
        Ok(())
    }

    /// A step is played, and what it takes is noted.
    pub(crate) fn play(
        &mut self,
        rt: &HostRuntime,
        step: &Step,
        scale: Scale,
    ) -> Result<(), Fault> {
        match step {
            Step::Join(silos, points) => self.grow(rt, scale.of(silos), *points),
            Step::Kill => self.shrink(rt),
            Step::Through(deed, grains) => {
                let among = scale.of(grains);
                self.go(
                    rt,
                    &Course {
                        deed: *deed,
                        count: among,
                        order: Order {
                            from: 0,
                            among,
                            stride: 1,
                        },
                        settles_each: false,
                    },
                )
            }
            Step::Across(deed, count, among) => {
                let among = scale.of(among);
                self.go(
                    rt,
                    &Course {
                        deed: *deed,
                        count: scale.of(count),
                        order: Order {
                            from: 0,
                            among,
                            stride: STRIDE,
                        },
                        settles_each: true,
                    },
                )
            }
        }
    }

    fn grow(&mut self, rt: &HostRuntime, silos: u64, points: u32) -> Result<(), Fault> {
        let start = now(rt)?;
        for _ in 0..silos {
            self.join(points)?;
            self.all_see()?;
        }
        self.stopwatch.note(rt, start)
    }

    fn shrink(&mut self, rt: &HostRuntime) -> Result<(), Fault> {
        let start = now(rt)?;
        self.kill()?;
        self.all_see()?;
        self.stopwatch.note(rt, start)
    }

    // To name grains counts for nothing.
    fn go(&mut self, rt: &HostRuntime, course: &Course) -> Result<(), Fault> {
        for portion in 0..course.count.div_ceil(PORTION) {
            let first = portion.wrapping_mul(PORTION);
            let turns = PORTION.min(course.count.saturating_sub(first));
            let grains = course.order.grains(rt.alloc(), first, turns)?;
            self.go_on(rt, course, first, &grains)?;
        }
        Ok(())
    }

    // The portion that begins with a turn, and is of these grains.
    fn go_on(
        &mut self,
        rt: &HostRuntime,
        course: &Course,
        first: u64,
        grains: &[GrainId],
    ) -> Result<(), Fault> {
        let start = now(rt)?;
        course.play(self, first, grains)?;
        self.stopwatch.note(rt, start)
    }
}
