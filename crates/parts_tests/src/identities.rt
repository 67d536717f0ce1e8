use crate::samples::{activation, grain, silo};
use silo_address::{ActivationId, Entry, GrainId, SiloAddress};

// The number by which a silo's text is refused, if it is.
fn silo_refusal(text: &str) -> Option<u16> {
    match SiloAddress::parse(text.as_bytes()) {
        Ok(_) => None,
        Err(refusal) => Some(refusal.number()),
    }
}

// The number by which a grain's text is refused, if it is.
fn grain_refusal(text: &[u8]) -> Option<u16> {
    match GrainId::parse(text) {
        Ok(_) => None,
        Err(refusal) => Some(refusal.number()),
    }
}

const NO_SILOS: [(&str, u16); 14] = [
    ("", 101),
    ("10.0.0.1@1", 101),
    ("10.0.0.1:@1", 101),
    ("10.0.0.0.1:1@1", 101),
    ("10.0.0.1@1:1", 101),
    ("10.0.0.256:0@", 101),
    ("10.0.0.1:1000@01", 102),
    ("00.0.0.1:1@1", 102),
    ("10.0.0.1:1@1 ", 102),
    ("256.256.256.256:65536@00", 102),
    ("10.0.0.256:1@1", 103),
    ("10.0.0.1:0@1", 103),
    ("10.0.0.1:1@2147483648", 103),
    ("10.0.0.1:18446744073709551617@1", 103),
];

#[test]
fn silo_refusals(rt: HostRuntime) {
    for (text, number) in &NO_SILOS {
        assert!(rt; silo_refusal(*text) == Some(*number), "{text}");
    }
}

// Texts, and the ip, port and generation that each tells.
const SILOS: [(&str, [u8; 4], u16, u32); 8] = [
    ("10.0.0.1:1000@1", [10, 0, 0, 1], 1000, 1),
    ("10.0.0.2:1000@1", [10, 0, 0, 2], 1000, 1),
    ("10.0.0.3:1000@1", [10, 0, 0, 3], 1000, 1),
    ("10.0.0.4:1000@1", [10, 0, 0, 4], 1000, 1),
    ("10.0.0.1:1000@2", [10, 0, 0, 1], 1000, 2),
    ("9.0.0.9:70@3", [9, 0, 0, 9], 70, 3),
    ("0.0.0.0:1@1", [0, 0, 0, 0], 1, 1),
    (
        "255.255.255.255:65535@2147483647",
        [255, 255, 255, 255],
        65_535,
        2_147_483_647,
    ),
];

// Whether the silo has these parts.
fn is_silo(silo: &SiloAddress, ip: [u8; 4], port: u16, generation: u32) -> bool {
    silo.ip() == ip && silo.port() == port && silo.generation() == generation
}

#[test]
fn silo_texts(rt: HostRuntime) {
    for (text, ip, port, generation) in &SILOS {
        let one = silo(&rt, *text);
        one.in_range();
        assert!(rt; is_silo(&one, *ip, *port, *generation), "{text}");
        let printed = one.text(rt.alloc()).expect(&rt, "memory");
        assert!(rt; printed.as_str() == *text);
    }
}

#[test]
fn silos_compared(rt: HostRuntime) {
    let one = silo(&rt, "10.0.0.1:1000@7");
    assert!(rt; one.same_endpoint(&silo(&rt, "10.0.0.1:1000@8")) && one.same(&one.copy()));
}

// By ip, then port, then generation, each as a number: not as texts.
#[test]
fn silos_in_order(rt: HostRuntime) {
    let (low, old) = (silo(&rt, "2.0.0.1:9@9"), silo(&rt, "10.0.0.1:9@2"));
    let (new, high) = (silo(&rt, "10.0.0.1:9@10"), silo(&rt, "10.0.0.1:80@1"));
    assert!(rt; low < old && old < new && new < high);
}

// Whether the grain has this kind and key, and is copied.
fn is_grain(grain: &GrainId, kind: &[u8], key: &[u8]) -> bool {
    grain.kind() == kind && grain.key() == key && grain.same(&grain.copy())
}

#[test]
fn grain_texts(rt: HostRuntime) {
    let (ann, slash) = (grain(&rt, "user/ann#7"), grain(&rt, "a//"));
    assert!(rt; is_grain(&ann, b"user", b"ann#7") && is_grain(&slash, b"a", b"/"));
    ann.in_range();
    let printed = ann.text(rt.alloc()).expect(&rt, "memory");
    assert!(rt; printed.as_str() == ann.as_str() && ann.as_bytes() == b"user/ann#7".as_slice());
}

// A kind of 65 bytes and a key of 129 are too long, one byte more than they may have.
const NO_GRAINS: [(&[u8], u16); 8] = [
    (b"user", 111),
    (b"user/", 111),
    (b"/ann", 111),
    (
        b"aaaaaaaaaaaaaaaaaaaaaaaaaaaaaaaaaaaaaaaaaaaaaaaaaaaaaaaaaaaaaaaaa/a",
        112,
    ),
    (
        b"a/aaaaaaaaaaaaaaaaaaaaaaaaaaaaaaaaaaaaaaaaaaaaaaaaaaaaaaaaaaaaaaaaaaaaaaaaaaaaaaaaaaaaaaaaaaaaaaaaaaaaaaaaaaaaaaaaaaaaaaaaaaaaaaaaa",
        112,
    ),
    (b"user/a\x20b", 113),
    (b"user/\x7f", 113),
    (b"\x1f/a", 113),
];

#[test]
fn grain_refusals(rt: HostRuntime) {
    for (text, number) in &NO_GRAINS {
        assert!(rt; grain_refusal(*text) == Some(*number));
    }
}

// By kind, then key: not by their texts, in which a byte below the slash would come first.
#[test]
fn grains_in_order(rt: HostRuntime) {
    let middle = grain(&rt, "a!/a");
    assert!(rt; grain(&rt, "a/b!") < middle && middle < grain(&rt, "b/a"));
}

const STATED: [(&str, Option<u32>); 4] = [
    ("user/a#1#4294967295", Some(4_294_967_295)),
    ("user/a#4294967296", None),
    ("user/a#07", None),
    ("us#7/ann", None),
];

#[test]
fn stated_hashes(rt: HostRuntime) {
    for (text, hash) in &STATED {
        assert!(rt; grain(&rt, text).stated_hash() == *hash, "{text}");
    }
}

// Texts, and the silo and count that each tells.
const ACTIVATIONS: [(&str, &str, u64); 4] = [
    ("10.0.0.1:1000@1!1", "10.0.0.1:1000@1", 1),
    ("10.0.0.2:1000@1!2", "10.0.0.2:1000@1", 2),
    ("10.0.0.1:1000@1!0", "10.0.0.1:1000@1", 0),
    (
        "10.0.0.1:1000@1!18446744073709551615",
        "10.0.0.1:1000@1",
        u64::MAX,
    ),
];

#[test]
fn activation_texts(rt: HostRuntime) {
    for (text, on, count) in &ACTIVATIONS {
        let one = activation(&rt, *text);
        assert!(rt; one.silo == silo(&rt, *on) && one.count == *count && one.same(&one.copy()));
        let printed = one.text(rt.alloc()).expect(&rt, "memory");
        assert!(rt; printed.as_str() == *text);
    }
}

// No silo, or no count.
const NO_ACTIVATIONS: [&str; 6] = [
    "10.0.0.1:1000@1",
    "10.0.0.1:1000!1",
    "10.0.0.1:1000@1!",
    "10.0.0.1:1000@1!01",
    "10.0.0.1:1000@1!1!",
    "10.0.0.1:1000@1!18446744073709551616",
];

#[test]
fn activation_refusals(rt: HostRuntime) {
    for text in &NO_ACTIVATIONS {
        assert!(rt; ActivationId::parse(text.as_bytes()).is_err(), "{text}");
    }
}

#[test]
fn entries(rt: HostRuntime) {
    let entry = Entry {
        grain: grain(&rt, "user/ann"),
        activation: activation(&rt, "10.0.0.1:1000@1!3"),
    };
    let other = Entry {
        grain: grain(&rt, "user/ann"),
        activation: activation(&rt, "10.0.0.1:1000@1!4"),
    };
    assert!(rt; entry.same(&entry.copy()) && entry < other);
}
