//! Reads and writes: in pieces, failing, and of very much.

use crate::fakes::{Counter, Refusal, Remarks, SparseReader, SparseWriter};
use crate::script::echo::Echo;
use line_loop::{Ended, MOST_OF_SCRIPT, ScriptLineFault, Sink, Source, play, send};
use script_lines::ScriptFault;
use std::alloc::Global;
use std::process::Abort;

// A script of 21 bytes, and what it prints, 21 bytes too.
const SCRIPT: &[u8] = b"one\r\ntwo\n\n; four\nfive";

const TEXT: &[u8] = b"one\ntwo\n\n; four\nfive\n";

fn echo(alloc: Global, reader: &mut impl Source, writer: &mut impl Sink) -> Ended<ScriptLineFault> {
    play(alloc, &mut Echo, reader, writer)
}

// Plays from a reader that gives so many bytes at a time, and fails after so many reads, to a writer that takes so many, and
// refuses a write after so many: the ending, and this is written.
fn check_play(
    rt: &impl Abort,
    alloc: Global,
    script: &[u8],
    (given, reads): (usize, u64),
    (taken, writes, refusal): (usize, u64, Refusal),
    (wanted, text): (Ended<ScriptLineFault>, &[u8]),
) {
    let mut reader = SparseReader {
        rest: script,
        most: given,
        reads,
    };
    let mut writer = SparseWriter::willing(alloc);
    writer.most = taken;
    writer.writes = writes;
    writer.refusal = refusal;
    let ended = echo(alloc, &mut reader, &mut writer);
    assert!(rt; ended == wanted);
    assert!(rt; writer.taken.as_slice() == text);
}

// In whatever pieces the script comes and its text goes.
#[test]
fn pieces(rt: HostRuntime) {
    let well = u64::MAX;
    for size in [1, 4, 20, 21, 22, 65536] {
        let writes = (size, well, Refusal::Fails);
        let ends = (Ended::AtEnd, TEXT);
        check_play(&rt, rt.alloc(), SCRIPT, (size, well), writes, ends);
        check_play(&rt, rt.alloc(), SCRIPT, (1000, well), writes, ends);
    }
}

// What the lines print that are whole is written before the next read, also where that fails; and neither a read nor a write is
// tried again.
#[test]
fn streams_that_fail(rt: HostRuntime) {
    let well = u64::MAX;
    let table: [((usize, u64), (usize, u64, Refusal), &[u8]); 5] = [
        ((1, 4), (1, well, Refusal::Fails), b""),
        ((1, 5), (1, well, Refusal::Fails), b"one\n"),
        ((1, 21), (1, well, Refusal::Fails), b"one\ntwo\n\n; four\n"),
        ((1000, well), (1, 3, Refusal::Fails), b"one"),
        ((1000, well), (1, 4, Refusal::TakesNothing), b"one\n"),
    ];
    for (reads, writes, text) in table {
        check_play(
            &rt,
            rt.alloc(),
            SCRIPT,
            reads,
            writes,
            (Ended::Broken, text),
        );
    }
}

// Bytes sent alone, in writes of three.
#[test]
fn bytes_are_sent_whole(rt: HostRuntime) {
    let mut writer = SparseWriter::willing(rt.alloc());
    writer.most = 3;
    assert!(rt; send(&mut writer, TEXT));
    assert!(rt; writer.taken.as_slice() == TEXT);
}

// 8,194 bytes without a line feed are a fault before any more is read; with 8,193 the line may still be a good one.
#[test]
fn a_long_line_needs_no_end(rt: HostRuntime) {
    let fault = ScriptFault::LineTooLong;
    let faulted = Ended::Stopped(ScriptLineFault { line: 1, fault });
    let table: [(usize, Ended<ScriptLineFault>, &[u8]); 2] = [
        (8193, Ended::Broken, b""),
        (8194, faulted, b"line 1 fault 924\n"),
    ];
    for (length, ended, text) in table {
        let script = vec![in rt.alloc(); b' '; length].expect(&rt, "memory");
        let writes = (65536, u64::MAX, Refusal::Fails);
        check_play(&rt, rt.alloc(), &script, (length, 1), writes, (ended, text));
    }
}

// Lines of 8,192 bytes, so many bytes in all: the ending, how many bytes are printed, and how many are left.
fn play_remarks(alloc: Global, length: u64) -> (Ended<ScriptLineFault>, u64, u64) {
    let mut reader = Remarks::of(length);
    let mut writer = Counter { taken: 0 };
    let ended = echo(alloc, &mut reader, &mut writer);
    (ended, writer.taken, reader.left)
}

// Behind the last line feed stands a line without a byte.
#[test]
fn the_longest_script(rt: HostRuntime) {
    let played = play_remarks(rt.alloc(), MOST_OF_SCRIPT);
    assert!(rt; played == (Ended::AtEnd, MOST_OF_SCRIPT + 1, 0));
}

#[test]
fn a_byte_too_many(rt: HostRuntime) {
    let played = play_remarks(rt.alloc(), MOST_OF_SCRIPT + 1);
    assert!(rt; played == (Ended::TooLong, MOST_OF_SCRIPT, 0));
}
