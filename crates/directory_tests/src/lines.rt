//! Lines of a silo's process: each command, lines that ask for nothing, faults, and what no line feed ended.
use directory_rules::OwnStep;
use hash_ring::Hashing;
use process_lines::{Asked, LineError, read_line, unended_fault};
use std::alloc::Global;
use std::test::Fail;

// What a line asks for, by the name of the command; "nothing", or "a fault".
fn asked_by(alloc: Global, line: &[u8]) -> &'static str {
    match read_line(alloc, Hashing::Stated, line) {
        Ok(Some(asked)) => name_of(&asked),
        Ok(None) => "nothing",
        Err(_) => "a fault",
    }
}

fn name_of(asked: &Asked<'_>) -> &'static str {
    match asked {
        Asked::Joined { token: None, .. } => "joined",
        Asked::Joined {
            token: Some(token),
            ..
        } if *token == b"a=b".as_slice() => "joined with a=b",
        Asked::Joined { .. } => "joined with another",
        Asked::Leaving { .. } => "leaving",
        Asked::Dead { .. } => "dead",
        Asked::Begin { rows, .. } if rows.is_empty() => "view of none",
        Asked::Begin { .. } => "view",
        Asked::See { .. } => "see",
        Asked::Do(step) => step_name(step),
        Asked::Receive(_) => "letter",
        Asked::Ping(_) => "ping",
        Asked::Owner { .. } => "owner",
        Asked::Place { .. } => "place",
        Asked::Figures => "status",
        Asked::Show => "show",
        Asked::Dump => "dump",
    }
}

pub(crate) fn step_name(step: &OwnStep) -> &'static str {
    match step {
        OwnStep::Wake(_) => "wake",
        OwnStep::Close(_) => "close",
        OwnStep::Cancel(_) => "cancel",
        OwnStep::Find(_) => "find",
        OwnStep::Forget(_) => "forget",
        OwnStep::Nudge => "nudge",
        OwnStep::NudgeGrain(_) => "nudge grain",
        OwnStep::NudgeRanges => "nudge ranges",
        OwnStep::Offer { .. } => "offer",
    }
}

fn fault_of(alloc: Global, line: &[u8]) -> Option<u16> {
    match read_line(alloc, Hashing::Stated, line) {
        Err(LineError::Fault(fault)) => Some(fault.number()),
        _ => None,
    }
}

fn unended_number(line: &[u8]) -> Option<u16> {
    match unended_fault(line) {
        Some(fault) => Some(fault.number()),
        None => None,
    }
}

const LINES: [(&str, &str); 36] = [
    ("joined 1 10.0.0.1:1000@1", "joined"),
    (
        "joined 18446744073709551615 10.0.0.1:1000@1 0 7 4294967295",
        "joined",
    ),
    ("joined 1 10.0.0.1:1000@1 token=a=b", "joined with a=b"),
    ("joined 1 10.0.0.1:1000@1  token=a=b 0 7", "joined with a=b"),
    ("joined 1 10.0.0.1:1000@1 token=", "joined with another"),
    ("leaving 3 10.0.0.2:1000@1", "leaving"),
    ("dead 4 10.0.0.2:1000@1", "dead"),
    ("view 5", "view of none"),
    ("view 5 10.0.0.1:1000@1:active", "view"),
    (
        "view 18446744073709551615 10.0.0.1:1000@1:leaving:0,4294967295  10.0.0.1:1000@1:dead",
        "view",
    ),
    ("view 1 10.0.0.1:1000@1:dead:7", "view"),
    ("see 2", "see"),
    ("wake user/ann#7", "wake"),
    ("close user/ann#7", "close"),
    ("cancel user/ann#7", "cancel"),
    ("offer user/bob#3000000000 10.0.0.2:1000@1", "offer"),
    ("find user/ann#7", "find"),
    ("forget user/ann#7", "forget"),
    ("nudge", "nudge"),
    ("nudge user/ann#7", "nudge grain"),
    ("nudge ranges/1", "nudge grain"),
    ("nudge  ranges ", "nudge ranges"),
    (
        "letter 10.0.0.2:1000@1 10.0.0.1:1000@1 2 done 2147483648+2147483648",
        "letter",
    ),
    (
        "letter 10.0.0.1:1000@1 10.0.0.1:1000@1 1 report 0+4294967296 last user/ann#7 10.0.0.1:1000@1!1",
        "letter",
    ),
    ("ping joined", "ping"),
    ("owner user/ann#7", "owner"),
    ("place user/ann#7 prefer_local", "place"),
    ("place user/ann#7 hash_based", "place"),
    ("status", "status"),
    ("show", "show"),
    ("  dump  ", "dump"),
    ("", "nothing"),
    ("   ", "nothing"),
    (";", "nothing"),
    (" ; joined", "nothing"),
    (";joined 1 here", "nothing"),
];

// Each command, and lines that ask for nothing.
#[test]
fn commands(rt: HostRuntime) {
    for (line, name) in &LINES {
        assert!(rt; asked_by(rt.alloc(), line.as_bytes()) == *name, "{line}");
    }
}

const FAULTS: [(&str, u16); 60] = [
    ("see\t1", 925),
    ("hello\u{7f}", 925),
    ("ping caf\u{e9}", 925),
    ("hello", 921),
    ("Show", 921),
    ("joinedx 1 10.0.0.1:1000@1", 921),
    ("join 10.0.0.1:1000@1", 921),
    ("joined 1", 922),
    ("leaving 1", 922),
    ("leaving x here 0", 922),
    ("dead 1 10.0.0.1:1000@1 0", 922),
    ("view", 922),
    ("view x 10.0.0.1:1000@1", 923),
    ("view 1 10.0.0.1:1000@1", 933),
    ("view 1 active", 933),
    ("view 1 10.0.0.1:1000@1:gone", 933),
    ("view 1 10.0.0.1:1000@1:Active", 933),
    ("view 1 here:there:gone:x", 933),
    ("view 1 10.0.0.1:1000@1:active:0:1", 933),
    ("view 1 here:there:dead:x", 101),
    ("view 1 10.0.0.1:1000@1:active:", 923),
    ("view 1 10.0.0.1:1000@1:active:0,,1", 923),
    ("view 1 10.0.0.1:1000@1:active:4294967296", 923),
    ("view 1 10.0.0.1:1000@1:dead 10.0.0.1:1000@0:dead", 103),
    ("view 1 10.0.0.1:1000@1:dead x", 933),
    ("see", 922),
    ("wake", 922),
    ("close user/ann user/ann", 922),
    ("offer ann", 922),
    ("offer ann here there", 922),
    ("find", 922),
    ("forget user/ann here", 922),
    ("nudge 10.0.0.1:1000@1", 111),
    ("nudge range", 111),
    ("nudge ranges ranges", 922),
    ("nudge user/ann ranges", 922),
    ("cancel", 922),
    ("cancel user/ann user/ann", 922),
    ("letter x x x", 922),
    ("ping", 922),
    ("owner", 922),
    ("owner user/ann 10.0.0.1:1000@1", 922),
    ("place user/ann", 922),
    ("status all", 922),
    ("show all", 922),
    ("dump all", 922),
    ("letter x x x greet", 927),
    ("see 01", 923),
    ("joined x here 4294967296", 923),
    ("joined 1 here x", 101),
    ("joined 1 10.0.0.1:1000@1 0 4294967296", 923),
    ("joined 1 10.0.0.1:1000@1 0 token=a", 923),
    ("joined 1 10.0.0.1:1000@1 token=a token=b", 923),
    ("owner ann", 111),
    ("place ann least_held", 111),
    ("place user/ann least_held", 926),
    ("place user/ann local", 926),
    ("wake ann", 111),
    ("cancel ann", 111),
    ("offer user/ann here", 101),
];

// The first fault of each, by its number.
#[test]
fn faults(rt: HostRuntime) {
    for (line, number) in &FAULTS {
        assert!(rt;
            fault_of(rt.alloc(), line.as_bytes()) == Some(*number),
            "{line}"
        );
    }
}

// The longest line, and one byte more.
#[test]
fn long_lines(rt: HostRuntime) -> Result<(), Fail> {
    let line = vec![in rt.alloc(); b' '; 16_777_216]?;
    assert!(rt; asked_by(rt.alloc(), &line) == "nothing");
    assert!(rt; unended_number(&line) == Some(931));
    let line = vec![in rt.alloc(); b'\t'; 16_777_217]?;
    assert!(rt; fault_of(rt.alloc(), &line) == Some(924));
    assert!(rt; unended_number(&line) == Some(924));
    assert!(rt; unended_number(b"").is_none());
    assert!(rt; unended_number(b"see 1") == Some(931));
    Ok(())
}
