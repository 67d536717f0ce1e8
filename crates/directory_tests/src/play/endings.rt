//! How plays begin and end: the numbers of points, and faults.

use crate::play::plays::{check_play, check_prints};
use hash_ring::Hashing;
use std::alloc::Global;
use std::process::Abort;

const HASHED: &[u8] = b"join 10.0.0.1:1000@1 0\njoin 10.0.0.1:1000@1\nowner 2737053157\nshow";

// The SHA-256 of `10.0.0.1:1000@1#0` begins with a3241de6, that of `10.0.0.1:1000@1#1` with 55867f05.
#[test]
fn hashed_points(rt: HostRuntime) {
    let table: [(usize, &[u8]); 2] = [
        (
            1,
            b"refused 402
view 1 joined 10.0.0.1:1000@1
owner 2737053157 10.0.0.1:1000@1 0
version 1
silo 10.0.0.1:1000@1 active seen 0 held 0
range 2737053158+4294967296 10.0.0.1:1000@1 unsettled
",
        ),
        (
            2,
            b"refused 402
view 1 joined 10.0.0.1:1000@1
owner 2737053157 10.0.0.1:1000@1 1
version 1
silo 10.0.0.1:1000@1 active seen 0 held 0
range 1434877701+1302175457 10.0.0.1:1000@1 unsettled
range 2737053158+2992791839 10.0.0.1:1000@1 unsettled
",
        ),
    ];
    for (points, text) in table {
        check_play(
            &rt,
            rt.alloc(),
            (Hashing::Sha256, points),
            HASHED,
            (text, 0),
        );
    }
}

// Lines that say nothing are counted, what stands behind the last line feed is a line, and nothing is played behind a fault.
#[test]
fn lines_are_counted(rt: HostRuntime) {
    let table: [(&[u8], &str); 5] = [
        (b"x", "line 1 fault 921\n"),
        (b"\n\n\r\n;\n  \nx\nshow\n", "line 6 fault 921\n"),
        (b"settle\nsettle\nsettle\nx\nx\n", "line 4 fault 921\n"),
        (b"\n\n\n\n\n\n\n\n\n\n\nx", "line 12 fault 921\n"),
        (b";\r\n;\r\nx\r\n", "line 3 fault 921\n"),
    ];
    for (script, text) in table {
        check_prints(&rt, rt.alloc(), script, (text, 2));
    }
}

// A line of so many spaces and then a command.
fn padded(rt: &impl Abort, alloc: Global, spaces: usize) -> Vec<u8> {
    let mut line = vec![in alloc; b' '; spaces].expect(rt, "memory");
    line.extend_from_slice(b"show\r\n").expect(rt, "memory");
    line
}

// 8,192 bytes may stand in a line, and its end does not count.
#[test]
fn the_longest_line(rt: HostRuntime) {
    let longest = padded(&rt, rt.alloc(), 8188);
    check_prints(&rt, rt.alloc(), &longest, ("version 0\nno owner\n", 0));
    let longer = padded(&rt, rt.alloc(), 8189);
    check_prints(&rt, rt.alloc(), &longer, ("line 1 fault 924\n", 2));
}
