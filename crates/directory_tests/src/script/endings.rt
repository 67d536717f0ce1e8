//! The exit status of each ending.

use line_loop::{Ended, ScriptLineFault};
use script_lines::ScriptFault;

#[test]
fn statuses(rt: HostRuntime) {
    let fault = ScriptFault::WordCount;
    let faulted = Ended::Stopped(ScriptLineFault { line: 7, fault });
    assert!(rt; status(Ended::AtEnd) == 0);
    assert!(rt; status(faulted) == 2);
    assert!(rt; status(Ended::TooLong) == 5);
    assert!(rt; status(Ended::OutOfMemory) == 3);
    assert!(rt; status(Ended::Broken) == 5);
}

// The status of a script that ends so, where a fault stops it.
fn status(ended: Ended<ScriptLineFault>) -> u8 {
    ended.status(2)
}
