use crate::fault::Fault;
use std::rt::Clock;
use std::time::Instant;

/// How many calls were measured, what they took, and a sum of their answers.
#[derive(Clone, Copy)]
pub(crate) struct Stopwatch {
    calls: u64,
    spent: u128,
    sum: u64,
}

impl Stopwatch {
    /// No call yet.
    pub(crate) fn new() -> Stopwatch {
        Stopwatch {
            calls: 0,
            spent: 0,
            sum: 0,
        }
    }

    /// Notes what was spent since a moment.
    pub(crate) fn note(&mut self, rt: &impl Clock, since: Instant) -> Result<(), Fault> {
        let nanoseconds = since.elapsed(rt)?.as_nanos();
        self.spent = self.spent.wrapping_add(nanoseconds);
        Ok(())
    }

    /// Counts so many calls, and the sum of their answers.
    pub(crate) fn count(&mut self, calls: u64, sum: u64) {
        self.calls = self.calls.wrapping_add(calls);
        self.sum = self.sum.wrapping_add(sum);
    }

    /// Prints the line of a measure.
    pub(crate) fn report(&self, rt: &HostRuntime, name: &str) -> Result<(), Fault> {
        println!(rt; "{name} {} {} {}", self.calls, self.spent, self.sum)?;
        Ok(())
    }

    /// Prints the line of a measure without the time.
    pub(crate) fn report_sum(&self, rt: &HostRuntime, name: &str) -> Result<(), Fault> {
        println!(rt; "{name} {} {}", self.calls, self.sum)?;
        Ok(())
    }
}

/// The moment at which something begins.
pub(crate) fn now(rt: &impl Clock) -> Result<Instant, Fault> {
    Ok(Instant::now(rt)?)
}

/// Prints the line of calls that were made since a moment, and of the sum of their answers.
pub(crate) fn report_since(
    rt: &HostRuntime,
    name: &str,
    since: Instant,
    calls: u64,
    sum: u64,
) -> Result<(), Fault> {
    let mut stopwatch = Stopwatch::new();
    stopwatch.note(rt, since)?;
    stopwatch.count(calls, sum);
    stopwatch.report(rt, name)
}
