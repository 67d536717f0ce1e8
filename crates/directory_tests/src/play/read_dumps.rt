//! Dumps read from bytes, and written again.
use rebuild_checker::{read_dump, write_dump};
use std::alloc::Global;
use std::process::Abort;

/// One silo, which has all hashes.
pub(crate) const ONE: &str =
    "{\"current\":1,\"hashing\":\"stated\",\"nodes\":[{\"held\":[],\"pieces\":[{\"entries\":[],\"from\":\"\",\"range\":\"0+4294967296\",\"state\":\"settled\"}],\"ring\":[[0,\"10.0.0.1:1000@1\",0]],\"seen\":1,\"silo\":\"10.0.0.1:1000@1\"}],\"points\":30,\"rows\":[{\"dead\":0,\"joined\":1,\"left\":0,\"places\":[0],\"silo\":\"10.0.0.1:1000@1\"}]}";

/// Two silos, and a grain that is firm on both.
pub(crate) const TWO: &str =
    "{\"current\":2,\"hashing\":\"stated\",\"nodes\":[{\"held\":[{\"activation\":\"10.0.0.1:1000@1!1\",\"grain\":\"user/z#1\",\"phase\":\"firm\"}],\"pieces\":[{\"entries\":[[\"user/z#1\",\"10.0.0.1:1000@1!1\"]],\"from\":\"\",\"range\":\"0+2147483648\",\"state\":\"settled\"}],\"ring\":[[0,\"10.0.0.1:1000@1\",0],[2147483648,\"10.0.0.2:1000@1\",0]],\"seen\":2,\"silo\":\"10.0.0.1:1000@1\"},{\"held\":[{\"activation\":\"10.0.0.2:1000@1!1\",\"grain\":\"user/z#1\",\"phase\":\"firm\"}],\"pieces\":[{\"entries\":[],\"from\":\"\",\"range\":\"2147483648+2147483648\",\"state\":\"settled\"}],\"ring\":[[0,\"10.0.0.1:1000@1\",0],[2147483648,\"10.0.0.2:1000@1\",0]],\"seen\":2,\"silo\":\"10.0.0.2:1000@1\"}],\"points\":30,\"rows\":[{\"dead\":0,\"joined\":1,\"left\":0,\"places\":[0],\"silo\":\"10.0.0.1:1000@1\"},{\"dead\":0,\"joined\":2,\"left\":0,\"places\":[2147483648],\"silo\":\"10.0.0.2:1000@1\"}]}";

/// A grain whose key has a quotation mark.
pub(crate) const QUOTED: &str =
    "{\"current\":1,\"hashing\":\"stated\",\"nodes\":[{\"held\":[],\"pieces\":[{\"entries\":[[\"user/\\\"z#1\",\"10.0.0.1:1000@1!1\"]],\"from\":\"\",\"range\":\"0+4294967296\",\"state\":\"settled\"}],\"ring\":[[0,\"10.0.0.1:1000@1\",0]],\"seen\":1,\"silo\":\"10.0.0.1:1000@1\"}],\"points\":30,\"rows\":[{\"dead\":0,\"joined\":1,\"left\":0,\"places\":[0],\"silo\":\"10.0.0.1:1000@1\"}]}";

/// Points are hashed.
pub(crate) const HASHED: &str =
    "{\"current\":1,\"hashing\":\"stated\",\"nodes\":[{\"held\":[],\"pieces\":[{\"entries\":[],\"from\":\"\",\"range\":\"0+4294967296\",\"state\":\"settled\"}],\"ring\":[[0,\"10.0.0.1:1000@1\",0]],\"seen\":1,\"silo\":\"10.0.0.1:1000@1\"}],\"points\":30,\"rows\":[{\"dead\":0,\"joined\":1,\"left\":0,\"places\":[0],\"silo\":\"10.0.0.1:1000@1\"}]}";

// The number by which the bytes are refused.
fn refusal(alloc: Global, text: &[u8]) -> Option<u16> {
    match read_dump(alloc, text) {
        Ok(_) => None,
        Err(error) => error.number(),
    }
}

// What is read is written as it was.
fn comes_back(rt: &impl Abort, alloc: Global, text: &str) -> bool {
    let dump = read_dump(alloc, text.as_bytes()).expect(rt, text);
    let written = write_dump(alloc, &dump).expect(rt, "memory");
    written.as_slice() == text.as_bytes()
}

// It is read as the dump of one silo.
fn is_read_as_one(rt: &impl Abort, alloc: Global, text: &str) -> bool {
    let dump = read_dump(alloc, text.as_bytes()).expect(rt, text);
    let written = write_dump(alloc, &dump).expect(rt, "memory");
    written.as_slice() == ONE.as_bytes()
}

#[test]
fn refusals(rt: HostRuntime) {
    let table: [(&str, Option<u16>); 11] = [
        (ONE, None),
        (TWO, None),
        (QUOTED, None),
        (HASHED, None),
        (CUT, Some(971)),
        (MORE_MEMBERS, Some(972)),
        (SIGN, Some(972)),
        (UNMADE_VERSION, Some(972)),
        (MORE_TEXT, Some(971)),
        (TOO_LARGE, Some(971)),
        ("", Some(971)),
    ];
    for (text, number) in table {
        assert!(rt; refusal(rt.alloc(), text.as_bytes()) == number, "{text}");
    }
}

// Whether each beginning of the text, which isn't all of it, is no value.
fn beginnings_are_refused(alloc: Global, text: &[u8]) -> bool {
    for length in 0..text.len() {
        if refusal(alloc, &text[..length]) != Some(971) {
            return false;
        }
    }
    true
}

#[test]
fn beginnings(rt: HostRuntime) {
    for text in [ONE, TWO, QUOTED, HASHED, CODED] {
        assert!(rt;
            beginnings_are_refused(rt.alloc(), text.as_bytes()),
            "{text}"
        );
    }
}

#[test]
fn written_again(rt: HostRuntime) {
    for text in [ONE, TWO, QUOTED, HASHED] {
        assert!(rt; comes_back(&rt, rt.alloc(), text), "{text}");
    }
}

#[test]
fn written_otherwise(rt: HostRuntime) {
    for text in [OTHER_ORDER, CODED, REPEATED] {
        assert!(rt; is_read_as_one(&rt, rt.alloc(), text), "{text}");
    }
}

/// That of one silo, the members of each object in the opposite order.
pub(crate) const OTHER_ORDER: &str =
    "{\"rows\":[{\"silo\":\"10.0.0.1:1000@1\",\"places\":[0],\"left\":0,\"joined\":1,\"dead\":0}],\"points\":30,\"nodes\":[{\"silo\":\"10.0.0.1:1000@1\",\"seen\":1,\"ring\":[[0,\"10.0.0.1:1000@1\",0]],\"pieces\":[{\"state\":\"settled\",\"range\":\"0+4294967296\",\"from\":\"\",\"entries\":[]}],\"held\":[]}],\"hashing\":\"stated\",\"current\":1}";

/// That of one silo, the members of each object in yet another order, with blanks, and with bytes told by their codes.
pub(crate) const CODED: &str =
    "{ \"rows\": [{\"silo\": \"10.0.0.1\\u003a1000@1\", \"joined\": 1, \"l\\u0065ft\": 0, \"dead\": 0, \"places\": [0]}], \"current\": 1, \"hashing\": \"\\u0073tate\\u0064\", \"points\": 30, \"nodes\": [{\"silo\": \"10.0.0.1:1000@1\", \"seen\": 1, \"held\": [], \"ring\": [[0, \"10.0.0.1:1000\\u00401\", 0]], \"pieces\": [{\"range\": \"0\\u002B4294967296\", \"st\\u0061te\": \"settled\", \"from\": \"\", \"entries\": []}]}] }";

/// That of one silo, with a member twice, of which the last one counts.
const REPEATED: &str =
    "{\"current\":1,\"hashing\":\"stated\",\"nodes\":[{\"held\":[],\"pieces\":[{\"entries\":[],\"from\":\"\",\"range\":\"0+4294967296\",\"state\":\"settled\"}],\"ring\":[[0,\"10.0.0.1:1000@1\",0]],\"seen\":1,\"silo\":\"10.0.0.1:1000@1\"}],\"points\":[],\"points\":30,\"rows\":[{\"dead\":0,\"joined\":1,\"left\":0,\"places\":[0],\"silo\":\"10.0.0.1:1000@1\"}]}";

/// Text behind the value.
const MORE_TEXT: &str =
    "{\"current\":1,\"hashing\":\"stated\",\"nodes\":[{\"held\":[],\"pieces\":[{\"entries\":[],\"from\":\"\",\"range\":\"0+4294967296\",\"state\":\"settled\"}],\"ring\":[[0,\"10.0.0.1:1000@1\",0]],\"seen\":1,\"silo\":\"10.0.0.1:1000@1\"}],\"points\":30,\"rows\":[{\"dead\":0,\"joined\":1,\"left\":0,\"places\":[0],\"silo\":\"10.0.0.1:1000@1\"}]}0";

/// A number that no float is as large as, in a member that doesn't count.
const TOO_LARGE: &str =
    "{\"current\":1,\"hashing\":\"stated\",\"nodes\":[{\"held\":[],\"pieces\":[{\"entries\":[],\"from\":\"\",\"range\":\"0+4294967296\",\"state\":\"settled\"}],\"ring\":[[0,\"10.0.0.1:1000@1\",0]],\"seen\":1,\"silo\":\"10.0.0.1:1000@1\"}],\"points\":1e999,\"points\":30,\"rows\":[{\"dead\":0,\"joined\":1,\"left\":0,\"places\":[0],\"silo\":\"10.0.0.1:1000@1\"}]}";

/// It lacks its last brace.
pub(crate) const CUT: &str =
    "{\"current\":1,\"hashing\":\"stated\",\"nodes\":[{\"held\":[],\"pieces\":[{\"entries\":[],\"from\":\"\",\"range\":\"0+4294967296\",\"state\":\"settled\"}],\"ring\":[[0,\"10.0.0.1:1000@1\",0]],\"seen\":1,\"silo\":\"10.0.0.1:1000@1\"}],\"points\":30,\"rows\":[{\"dead\":0,\"joined\":1,\"left\":0,\"places\":[0],\"silo\":\"10.0.0.1:1000@1\"}]";

/// A member that no dump has.
pub(crate) const MORE_MEMBERS: &str =
    "{\"current\":1,\"hashing\":\"stated\",\"nodes\":[{\"held\":[],\"pieces\":[{\"entries\":[],\"from\":\"\",\"range\":\"0+4294967296\",\"state\":\"settled\"}],\"ring\":[[0,\"10.0.0.1:1000@1\",0]],\"seen\":1,\"silo\":\"10.0.0.1:1000@1\"}],\"extra\":0,\"points\":30,\"rows\":[{\"dead\":0,\"joined\":1,\"left\":0,\"places\":[0],\"silo\":\"10.0.0.1:1000@1\"}]}";

/// A number with a sign.
const SIGN: &str =
    "{\"current\":1,\"hashing\":\"stated\",\"nodes\":[{\"held\":[],\"pieces\":[{\"entries\":[],\"from\":\"\",\"range\":\"0+4294967296\",\"state\":\"settled\"}],\"ring\":[[0,\"10.0.0.1:1000@1\",0]],\"seen\":-1,\"silo\":\"10.0.0.1:1000@1\"}],\"points\":30,\"rows\":[{\"dead\":0,\"joined\":1,\"left\":0,\"places\":[0],\"silo\":\"10.0.0.1:1000@1\"}]}";

/// A silo has seen a version that isn't made.
pub(crate) const UNMADE_VERSION: &str =
    "{\"current\":1,\"hashing\":\"stated\",\"nodes\":[{\"held\":[],\"pieces\":[{\"entries\":[],\"from\":\"\",\"range\":\"0+4294967296\",\"state\":\"settled\"}],\"ring\":[[0,\"10.0.0.1:1000@1\",0]],\"seen\":2,\"silo\":\"10.0.0.1:1000@1\"}],\"points\":30,\"rows\":[{\"dead\":0,\"joined\":1,\"left\":0,\"places\":[0],\"silo\":\"10.0.0.1:1000@1\"}]}";
