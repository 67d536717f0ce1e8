//! The first row's script, cut at each of its bytes.

use crate::play::plays::played;
use crate::play::rows::ONE_SILO;
use line_loop::{Ended, ScriptLineFault};
use std::alloc::Global;
use std::process::Abort;

// From how many bytes of a line on, up to the next of these, what is left of it has the fault of that number, or none.
type Faults<'a> = &'a [(usize, Option<u16>)];

const SETTLE: (&str, Faults<'static>) = ("settle", &[(0, None), (1, Some(921)), (6, None)]);

// The words of a wake and of a find are equally long: the silo, the slash and the first byte of the key end there.
const OF_A_GRAIN: Faults<'static> = &[
    (0, None),
    (1, Some(921)),
    (4, Some(922)),
    (22, Some(111)),
    (27, None),
];

// The script's lines.
const LINES: [(&str, Faults<'static>); 8] = [
    (
        "join 10.0.0.1:1000@1 0",
        &[
            (0, None),
            (1, Some(921)),
            (4, Some(922)),
            (6, Some(101)),
            (20, None),
        ],
    ),
    (
        "see 10.0.0.1:1000@1 1",
        &[(0, None), (1, Some(921)), (3, Some(922)), (21, None)],
    ),
    SETTLE,
    ("wake 10.0.0.1:1000@1 user/ann#7", OF_A_GRAIN),
    SETTLE,
    ("find 10.0.0.1:1000@1 user/ann#7", OF_A_GRAIN),
    SETTLE,
    ("show", &[(0, None), (1, Some(921)), (4, None)]),
];

// The fault of so many bytes of a line.
fn fault_at(faults: Faults<'_>, length: usize) -> Option<u16> {
    let mut number = None;
    for (from, fault) in faults {
        if *from <= length {
            number = *fault;
        }
    }
    number
}

// Whether a script ends so where its last line, of that number, has the fault or none.
fn ends_so(ended: Ended<ScriptLineFault>, line: u64, fault: Option<u16>) -> bool {
    match ended {
        Ended::AtEnd => fault.is_none(),
        Ended::Stopped(told) => told.line == line && Some(told.fault.number()) == fault,
        _ => false,
    }
}

// What the fault prints.
fn fault_line(rt: &impl Abort, alloc: Global, line: u64, fault: u16) -> String {
    format!(in alloc; "line {line} fault {fault}\n").expect(rt, "memory")
}

// Whether the script, whose last line of that number has the fault or none, ends so and prints first what the lines before print. A
// fault's line alone stands behind that.
fn is_played(
    rt: &impl Abort,
    alloc: Global,
    script: &[u8],
    (before, line): (&[u8], u64),
    fault: Option<u16>,
) -> bool {
    let (ended, printed) = played(rt, alloc, script);
    let Some(behind) = printed.strip_prefix(before) else {
        return false;
    };
    let is_told = match fault {
        Some(number) => behind == fault_line(rt, alloc, line, number).as_bytes(),
        None => true,
    };
    is_told && ends_so(ended, line, fault)
}

// The line of that number, cut at each byte; the script up to it is that long, and prints what it has to.
fn check_line(
    rt: &impl Abort,
    alloc: Global,
    line: u64,
    start: usize,
    faults: Faults<'_>,
    length: usize,
) {
    let script = ONE_SILO.script.as_bytes();
    let (ended, before) = played(rt, alloc, &script[..usize::min(start, script.len())]);
    assert!(rt; ended == Ended::AtEnd && ONE_SILO.out.as_bytes().starts_with(&before));
    for count in 0..=length {
        let end = usize::min(start.saturating_add(count), script.len());
        let fault = fault_at(faults, count);
        assert!(rt;
            is_played(rt, alloc, &script[..end], (&before, line), fault),
            "{line} {count}"
        );
    }
}

#[test]
fn the_first_row_cut_at_each_byte(rt: HostRuntime) {
    let mut start: usize = 0;
    let mut line: u64 = 0;
    for (text, faults) in &LINES {
        line = line.saturating_add(1);
        check_line(&rt, rt.alloc(), line, start, *faults, text.len());
        start = start.saturating_add(text.len()).saturating_add(1);
    }
    assert!(rt; start == ONE_SILO.script.len());
}
