//! Letters as lines of a silo's process: each kind both ways, and each fault.
use hash_ring::Hashing;
use process_lines::{LineError, read_letter, write_letter};
use std::alloc::{AllocError, Global};
use std::test::Fail;

// What is written of the letter that the words tell; nothing where they tell none.
fn written(alloc: Global, words: &str) -> Result<Vec<u8>, AllocError> {
    let mut out = Vec::new(alloc);
    if let Ok(letter) = read_letter(alloc, Hashing::Stated, words.as_bytes()) {
        write_letter(&mut out, &letter)?;
    }
    Ok(out)
}

fn is_written(alloc: Global, words: &str, line: &str) -> Result<bool, AllocError> {
    let out = written(alloc, words)?;
    Ok(out.as_slice() == line.as_bytes())
}

fn fault_of(alloc: Global, words: &str) -> Option<u16> {
    match read_letter(alloc, Hashing::Stated, words.as_bytes()) {
        Err(LineError::Fault(fault)) => Some(fault.number()),
        _ => None,
    }
}

const LETTERS: [(&str, &str); 28] = [
    (
        "10.0.0.1:1000@1 10.0.0.2:1000@1 2 register 2 user/bob#3000000000 10.0.0.1:1000@1!2",
        "letter 10.0.0.1:1000@1 10.0.0.2:1000@1 2 register 2 user/bob#3000000000 10.0.0.1:1000@1!2\n",
    ),
    (
        "10.0.0.2:1000@1 10.0.0.2:1000@1 2 register 4 user/bob#3000000000 10.0.0.2:1000@1!2 10.0.0.1:1000@1!2",
        "letter 10.0.0.2:1000@1 10.0.0.2:1000@1 2 register 4 user/bob#3000000000 10.0.0.2:1000@1!2 10.0.0.1:1000@1!2\n",
    ),
    (
        "10.0.0.1:1000@1 10.0.0.1:1000@1 2 deregister 3 user/ann#7 10.0.0.1:1000@1!1",
        "letter 10.0.0.1:1000@1 10.0.0.1:1000@1 2 deregister 3 user/ann#7 10.0.0.1:1000@1!1\n",
    ),
    (
        "10.0.0.2:1000@1 10.0.0.1:1000@1 2 find 2 user/ann#7",
        "letter 10.0.0.2:1000@1 10.0.0.1:1000@1 2 find 2 user/ann#7\n",
    ),
    (
        "10.0.0.2:1000@1 10.0.0.1:1000@1 2 registered 2 user/bob#3000000000 10.0.0.1:1000@1!2",
        "letter 10.0.0.2:1000@1 10.0.0.1:1000@1 2 registered 2 user/bob#3000000000 10.0.0.1:1000@1!2\n",
    ),
    (
        "10.0.0.1:1000@1 10.0.0.2:1000@1 2 taken 1 user/ann#7 10.0.0.1:1000@1!1",
        "letter 10.0.0.1:1000@1 10.0.0.2:1000@1 2 taken 1 user/ann#7 10.0.0.1:1000@1!1\n",
    ),
    (
        "10.0.0.1:1000@1 10.0.0.1:1000@1 2 removed 3",
        "letter 10.0.0.1:1000@1 10.0.0.1:1000@1 2 removed 3\n",
    ),
    (
        "10.0.0.1:1000@1 10.0.0.1:1000@1 2 absent 4",
        "letter 10.0.0.1:1000@1 10.0.0.1:1000@1 2 absent 4\n",
    ),
    (
        "10.0.0.1:1000@1 10.0.0.2:1000@1 2 found 2 user/ann#7 10.0.0.1:1000@1!1",
        "letter 10.0.0.1:1000@1 10.0.0.2:1000@1 2 found 2 user/ann#7 10.0.0.1:1000@1!1\n",
    ),
    (
        "10.0.0.1:1000@1 10.0.0.2:1000@1 2 nothing 3",
        "letter 10.0.0.1:1000@1 10.0.0.2:1000@1 2 nothing 3\n",
    ),
    (
        "10.0.0.2:1000@1 10.0.0.1:1000@1 3 retry 1 601 3",
        "letter 10.0.0.2:1000@1 10.0.0.1:1000@1 3 retry 1 601 3\n",
    ),
    (
        "10.0.0.2:1000@1 10.0.0.1:1000@1 3 retry 1 602",
        "letter 10.0.0.2:1000@1 10.0.0.1:1000@1 3 retry 1 602\n",
    ),
    (
        "10.0.0.2:1000@1 10.0.0.1:1000@1 3 retry 1 603 18446744073709551615",
        "letter 10.0.0.2:1000@1 10.0.0.1:1000@1 3 retry 1 603 18446744073709551615\n",
    ),
    (
        "10.0.0.2:1000@1 10.0.0.1:1000@1 3 retry 1 604",
        "letter 10.0.0.2:1000@1 10.0.0.1:1000@1 3 retry 1 604\n",
    ),
    (
        "10.0.0.2:1000@1 10.0.0.1:1000@1 2 ask 2147483648+2147483648 0",
        "letter 10.0.0.2:1000@1 10.0.0.1:1000@1 2 ask 2147483648+2147483648 0\n",
    ),
    (
        "10.0.0.1:1000@1 10.0.0.2:1000@1 2 page 2147483648+2147483648 0 1 e3b0c44298fc1c149afbf4c8996fb92427ae41e4649b934ca495991b7852b855",
        "letter 10.0.0.1:1000@1 10.0.0.2:1000@1 2 page 2147483648+2147483648 0 1 e3b0c44298fc1c149afbf4c8996fb92427ae41e4649b934ca495991b7852b855\n",
    ),
    (
        "10.0.0.2:1000@1 10.0.0.1:1000@1 3 page 2147483648+2147483648 0 1 88c66eb915d52fb4e2dffc54052ebfa461263dac367f136ee8439915fa2e3346 user/bob#3000000000 10.0.0.2:1000@1!2",
        "letter 10.0.0.2:1000@1 10.0.0.1:1000@1 3 page 2147483648+2147483648 0 1 88c66eb915d52fb4e2dffc54052ebfa461263dac367f136ee8439915fa2e3346 user/bob#3000000000 10.0.0.2:1000@1!2\n",
    ),
    (
        "10.0.0.1:1000@1 10.0.0.2:1000@1 2 missing 0+1",
        "letter 10.0.0.1:1000@1 10.0.0.2:1000@1 2 missing 0+1\n",
    ),
    (
        "10.0.0.2:1000@1 10.0.0.1:1000@1 2 done 2147483648+2147483648",
        "letter 10.0.0.2:1000@1 10.0.0.1:1000@1 2 done 2147483648+2147483648\n",
    ),
    (
        "10.0.0.1:1000@1 10.0.0.1:1000@1 1 query 0+4294967296",
        "letter 10.0.0.1:1000@1 10.0.0.1:1000@1 1 query 0+4294967296\n",
    ),
    (
        "10.0.0.1:1000@1 10.0.0.1:1000@1 1 report 0+4294967296 last",
        "letter 10.0.0.1:1000@1 10.0.0.1:1000@1 1 report 0+4294967296 last\n",
    ),
    (
        "10.0.0.1:1000@1 10.0.0.1:1000@1 1 report 0+4294967296 last user/ann#7 10.0.0.1:1000@1!1 user/bob#9 10.0.0.1:1000@1!2",
        "letter 10.0.0.1:1000@1 10.0.0.1:1000@1 1 report 0+4294967296 last user/ann#7 10.0.0.1:1000@1!1 user/bob#9 10.0.0.1:1000@1!2\n",
    ),
    (
        "10.0.0.1:1000@1 10.0.0.2:1000@1 2 survey 2147483648+2147483648 0+5 7+0",
        "letter 10.0.0.1:1000@1 10.0.0.2:1000@1 2 survey 2147483648+2147483648 0+5 7+0\n",
    ),
    (
        "10.0.0.2:1000@1 10.0.0.1:1000@1 2  empty  0+5 ",
        "letter 10.0.0.2:1000@1 10.0.0.1:1000@1 2 empty 0+5\n",
    ),
    (
        "10.0.0.1:1000@1 10.0.0.2:1000@1 2 behind 0+1",
        "letter 10.0.0.1:1000@1 10.0.0.2:1000@1 2 behind 0+1\n",
    ),
    (
        "10.0.0.1:1000@1 10.0.0.2:1000@1 2 ahead 0+1",
        "letter 10.0.0.1:1000@1 10.0.0.2:1000@1 2 ahead 0+1\n",
    ),
    (
        "  10.0.0.1:1000@1  10.0.0.2:1000@1 2   offer  user/bob#3000000000   10.0.0.1:1000@1!2 ",
        "letter 10.0.0.1:1000@1 10.0.0.2:1000@1 2 offer user/bob#3000000000 10.0.0.1:1000@1!2\n",
    ),
    (
        "10.0.0.1:1000@1 10.0.0.2:1000@1 2 offer user/bob#3000000000",
        "",
    ),
];

// A line of each kind, read, and written again.
#[test]
fn letters(rt: HostRuntime) -> Result<(), Fail> {
    for (words, line) in &LETTERS {
        assert!(rt; is_written(rt.alloc(), words, line)?, "{words}");
    }
    Ok(())
}

const FAULTS: [(&str, u16); 44] = [
    ("", 922),
    ("x x x", 922),
    ("x x x tell", 927),
    ("x x x Find 1 user/ann", 927),
    ("x x x register", 922),
    ("x x x register x x", 922),
    ("x x x register x x x x x", 922),
    ("x x x deregister x x", 922),
    ("x x x deregister x x x x", 922),
    ("x x x find x", 922),
    ("x x x find x x x", 922),
    ("x x x registered x x", 922),
    ("x x x removed", 922),
    ("x x x nothing x x", 922),
    ("x x x retry", 922),
    ("x x x retry x", 922),
    ("x x x retry x 600", 927),
    ("x x x retry x 601", 922),
    ("x x x retry x 602 x", 922),
    ("x x x retry x 603 x x", 922),
    ("x x x ask x", 922),
    ("x x x page x x x", 922),
    ("x x x page x x x x x", 922),
    ("x x x done", 922),
    ("x x x report", 922),
    ("x x x report x", 922),
    ("x x x survey", 922),
    ("x x x empty", 922),
    ("x x x offer x", 922),
    ("10.0.0.1@1 x x survey x", 101),
    ("10.0.0.1@1 x x find x x", 101),
    ("10.0.0.1:1000@1 10.0.0.1:1000@01 x find x x", 102),
    (
        "10.0.0.1:1000@1 10.0.0.1:1000@1 18446744073709551616 find x x",
        923,
    ),
    ("10.0.0.1:1000@1 10.0.0.1:1000@1 2 find x x", 923),
    ("10.0.0.1:1000@1 10.0.0.1:1000@1 2 find 1 ann", 111),
    (
        "10.0.0.1:1000@1 10.0.0.1:1000@1 2 offer user/ann 10.0.0.1:1000@1",
        929,
    ),
    (
        "10.0.0.1:1000@1 10.0.0.1:1000@1 2 offer user/ann 10.0.0.1:0@1!x",
        103,
    ),
    (
        "10.0.0.1:1000@1 10.0.0.1:1000@1 2 offer user/ann 10.0.0.1:1000@1!01",
        923,
    ),
    ("10.0.0.1:1000@1 10.0.0.1:1000@1 2 ask 01+2 x", 928),
    ("10.0.0.1:1000@1 10.0.0.1:1000@1 2 survey 0+1 01+2 2+3", 928),
    ("10.0.0.1:1000@1 10.0.0.1:1000@1 2 empty last", 928),
    ("10.0.0.1:1000@1 10.0.0.1:1000@1 2 page 0+1 0 x x", 923),
    (
        "10.0.0.1:1000@1 10.0.0.1:1000@1 2 page 0+1 0 1 E3b0c44298fc1c149afbf4c8996fb92427ae41e4649b934ca495991b7852b855",
        930,
    ),
    (
        "10.0.0.1:1000@1 10.0.0.1:1000@1 2 report 0+1 more user/ann 10.0.0.1:1000@1!1 user/bob x",
        929,
    ),
];

// The first fault of each, by its number.
#[test]
fn faults(rt: HostRuntime) {
    for (words, number) in &FAULTS {
        assert!(rt; fault_of(rt.alloc(), words) == Some(*number), "{words}");
    }
}
