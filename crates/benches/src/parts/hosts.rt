use crate::fault::Fault;
use crate::naming::{Order, STRIDE};
use crate::parts::COUNT;
use crate::stopwatch::{now, report_since};
use hash_ring::Hashing;
use host_activations::{Host, PageAsked};
use ring_range::RingRange;
use silo_address::GrainId;
use std::alloc::Global;

/// The last number of a request, and the last count of an activation.
const LAST: u64 = 1 << 60;

/// How many activations end and start anew, of grains from all over the circle.
const ENDS: u64 = 1_000;

const ENDING: Order = Order {
    from: 0,
    among: COUNT,
    stride: STRIDE,
};

const REPORTS: u64 = 20;

/// How many hashes a range has that has about a hundred of the activations.
const REPORTED: u64 = 6_553_600;

/// Ends activations and starts them anew, and reports those of a range.
pub(crate) fn measure(rt: &HostRuntime, kept: &Host) -> Result<(), Fault> {
    let mut host = kept.copy()?;
    measure_host(rt, &mut host)
}

fn measure_host(rt: &HostRuntime, host: &mut Host) -> Result<(), Fault> {
    measure_ends(rt, host)?;
    measure_report(rt, host)
}

fn measure_ends(rt: &HostRuntime, host: &mut Host) -> Result<(), Fault> {
    let ending = ENDING.grains(rt.alloc(), 0, ENDS)?;
    let start = now(rt)?;
    end_all(host, &ending)?;
    let sum = host.next_count().wrapping_add(host.held_count() as u64);
    report_since(rt, "end_and_start", start, ENDS, sum)
}

fn measure_report(rt: &HostRuntime, host: &Host) -> Result<(), Fault> {
    match RingRange::new(1 << 31, REPORTED) {
        Ok(range) => measure_reports(rt, host, &range),
        Err(_) => Err(Fault::Missing),
    }
}

fn measure_reports(rt: &HostRuntime, host: &Host, range: &RingRange) -> Result<(), Fault> {
    let start = now(rt)?;
    let mut sum = 0u64;
    for _ in 0..REPORTS {
        sum = sum.wrapping_add(sum_of_report(rt.alloc(), host, range)?);
    }
    report_since(rt, "report", start, REPORTS, sum)
}

// The activations of the grains end, and others begin.
fn end_all(host: &mut Host, grains: &[GrainId]) -> Result<(), Fault> {
    for grain in grains {
        host.end(grain);
        start(host, *grain)?;
    }
    Ok(())
}

// An activation begins, and is firm.
fn start(host: &mut Host, grain: GrainId) -> Result<(), Fault> {
    let number = host.next_number();
    if number > LAST || host.next_count() > LAST || host.held(&grain).is_some() {
        return Err(Fault::Missing);
    }
    host.start(grain, None)?;
    host.confirm(number);
    Ok(())
}

// How many entries a report has at most.
const REPORT_SIZE: usize = 64;

// The counts of what is reported of the range, page by page.
fn sum_of_report(alloc: Global, host: &Host, range: &RingRange) -> Result<u64, Fault> {
    let mut sum = 0u64;
    let mut asked = PageAsked {
        hashing: Hashing::Stated,
        range: *range,
        after: None,
        most: REPORT_SIZE,
    };
    for _page in 0..COUNT {
        let page = host.firm_page(alloc, &asked)?;
        for entry in &page.entries {
            sum = sum.wrapping_add(1).wrapping_add(entry.activation.count);
            asked.after = Some(entry.grain);
        }
        if page.last {
            return Ok(sum);
        }
    }
    Err(Fault::Missing)
}
