//! The lines that a script prints.
use directory_rules::{Effect, Happening, Held, LetterKind, Outcome, Phase, Span, Why};
use hash_ring::Point;
use membership_view::Status;
use ring_range::RingRange;
use script_lines::{
    laws, write_fault, write_held, write_letter, write_no_owner, write_outcome, write_owner,
    write_place, write_range, write_refusal, write_silo, write_version,
};
use silo_address::{ActivationId, Entry, GrainId, SiloAddress};
use std::alloc::Global;
use std::process::Abort;

const A: &str = "10.0.0.1:1000@1";

const B: &str = "10.0.0.2:1000@1";

const GRAIN: &str = "user/t#3000000000";

fn silo(rt: &impl Abort, text: &str) -> SiloAddress {
    SiloAddress::parse(text.as_bytes()).expect(rt, text)
}

fn grain(rt: &impl Abort) -> GrainId {
    GrainId::parse(GRAIN.as_bytes()).expect(rt, GRAIN)
}

// The entry of the grain's first activation on A.
fn entry(rt: &impl Abort) -> Entry {
    Entry {
        grain: grain(rt),
        activation: ActivationId {
            silo: silo(rt, A),
            count: 1,
        },
    }
}

fn span(first: u64, last: u64) -> Option<Span> {
    Some(Span { first, last })
}

// The outcome's line is this, and is written behind one that stands already.
fn prints(rt: &impl Abort, alloc: Global, outcome: &Outcome, line: &str) {
    let mut out = Vec::from_slice(alloc, b"check ok\n").expect(rt, "memory");
    write_outcome(&mut out, outcome).expect(rt, "memory");
    let text = format!(in alloc; "check ok\n{line}\n").expect(rt, "memory");
    assert!(rt; out.as_slice() == text.as_bytes());
}

// The lines of docs/RULES.md, each kind of it once.
#[test]
fn lines_of_versions(rt: HostRuntime) {
    let (a, b) = (silo(&rt, A), silo(&rt, B));
    let other = silo(&rt, "255.0.10.9:65535@2147483647");
    let table: [(&str, Happening, Option<Span>); 7] = [
        (
            "view 1 joined 10.0.0.2:1000@1",
            Happening::Joined {
                version: 1,
                silo: b,
                replaced: None,
            },
            None,
        ),
        (
            "view 18446744073709551615 joined 255.0.10.9:65535@2147483647 dead 10.0.0.1:1000@1",
            Happening::Joined {
                version: u64::MAX,
                silo: other,
                replaced: Some(a),
            },
            None,
        ),
        (
            "view 3 leaving 10.0.0.2:1000@1",
            Happening::Left {
                version: 3,
                silo: b,
            },
            None,
        ),
        (
            "view 4 dead 10.0.0.2:1000@1",
            Happening::Died {
                version: 4,
                silo: b,
            },
            None,
        ),
        (
            "10.0.0.1:1000@1 sees 2 next",
            Happening::Saw {
                silo: a,
                version: 2,
                effect: Effect::Next,
            },
            None,
        ),
        (
            "10.0.0.2:1000@1 sees 2 next sent 3..3",
            Happening::Saw {
                silo: b,
                version: 2,
                effect: Effect::Next,
            },
            span(3, 3),
        ),
        (
            "10.0.0.2:1000@1 sees 6 skip sent 44..48",
            Happening::Saw {
                silo: b,
                version: 6,
                effect: Effect::Skip,
            },
            span(44, 48),
        ),
    ];
    for (line, happening, sent) in table {
        prints(&rt, rt.alloc(), &Outcome { happening, sent }, line);
    }
}

// A's own step has this effect, which is told so.
fn tells(rt: &impl Abort, alloc: Global, effect: Effect, line: &str) {
    let silo = silo(rt, A);
    let happening = Happening::Did { silo, effect };
    let sent = None;
    prints(rt, alloc, &Outcome { happening, sent }, line);
}

#[test]
fn lines_of_activations(rt: HostRuntime) {
    let alloc = rt.alloc();
    let entry = &entry(&rt);
    let to = silo(&rt, B);
    let started = "started 10.0.0.1:1000@1!1 user/t#3000000000";
    tells(&rt, alloc, Effect::Started(*entry), started);
    let closing = "closing 10.0.0.1:1000@1!1 user/t#3000000000";
    tells(&rt, alloc, Effect::Closing(*entry), closing);
    let cancelled = "cancelled 10.0.0.1:1000@1!1 user/t#3000000000";
    tells(&rt, alloc, Effect::Cancelled(*entry), cancelled);
    let offered = "offered 10.0.0.1:1000@1!1 user/t#3000000000 to 10.0.0.2:1000@1";
    let effect = Effect::Offered { entry: *entry, to };
    tells(&rt, alloc, effect, offered);
    let cached = "cached 10.0.0.1:1000@1!1 user/t#3000000000";
    tells(&rt, alloc, Effect::Cached(*entry), cached);
}

#[test]
fn lines_of_grains(rt: HostRuntime) {
    let alloc = rt.alloc();
    let grain = &grain(&rt);
    let finding = "finding user/t#3000000000";
    tells(&rt, alloc, Effect::Finding(*grain), finding);
    let forgot = "forgot user/t#3000000000";
    tells(&rt, alloc, Effect::Forgot(*grain), forgot);
    let nothing = "nothing cached user/t#3000000000";
    tells(&rt, alloc, Effect::NothingCached(*grain), nothing);
    tells(&rt, alloc, Effect::Nudged, "nudged 10.0.0.1:1000@1");
}

// A letter of this kind comes, and what it does is told so.
fn is_delivered(rt: &impl Abort, alloc: Global, words: &str, kind: LetterKind, effect: Effect) {
    let happening = Happening::Delivered {
        number: 7,
        kind,
        effect,
    };
    let sent = span(9, 12);
    let line = format!(in alloc; "delivered 7 {words} sent 9..12").expect(rt, "memory");
    prints(rt, alloc, &Outcome { happening, sent }, line.as_str());
}

const LETTERS: [(&str, LetterKind, Effect); 34] = [
    (
        "register registered",
        LetterKind::Register,
        Effect::Registered,
    ),
    ("register taken", LetterKind::Register, Effect::Taken),
    (
        "register retry 602",
        LetterKind::Register,
        Effect::Retry(Why::Unsettled),
    ),
    (
        "register retry 603",
        LetterKind::Register,
        Effect::Retry(Why::OldNumber { last: 9 }),
    ),
    (
        "deregister removed",
        LetterKind::Deregister,
        Effect::Removed,
    ),
    ("deregister absent", LetterKind::Deregister, Effect::Absent),
    ("find found", LetterKind::Find, Effect::Found),
    ("find nothing", LetterKind::Find, Effect::Nothing),
    (
        "find retry 601",
        LetterKind::Find,
        Effect::Retry(Why::View { seen: 4 }),
    ),
    (
        "find retry 604",
        LetterKind::Find,
        Effect::Retry(Why::NotOwner),
    ),
    ("registered firm", LetterKind::Registered, Effect::Firm),
    (
        "registered ignored",
        LetterKind::Registered,
        Effect::Ignored,
    ),
    ("taken yielded", LetterKind::Taken, Effect::Yielded),
    ("removed ended", LetterKind::Removed, Effect::Ended),
    ("absent ended", LetterKind::Absent, Effect::Ended),
    ("found learnt", LetterKind::Found, Effect::Learnt),
    ("nothing noted", LetterKind::Nothing, Effect::Noted),
    ("retry noted", LetterKind::Retry, Effect::Noted),
    ("ask page", LetterKind::Ask, Effect::Page),
    ("ask missing", LetterKind::Ask, Effect::Missing),
    ("ask behind", LetterKind::Ask, Effect::Behind),
    ("page installed", LetterKind::Page, Effect::Installed),
    ("page gathering", LetterKind::Page, Effect::Gathering),
    ("page refused 701", LetterKind::Page, Effect::Refused(701)),
    (
        "missing recovering",
        LetterKind::Missing,
        Effect::Recovering,
    ),
    ("done deleted", LetterKind::Done, Effect::Deleted),
    ("query report", LetterKind::Query, Effect::Report),
    ("query ahead", LetterKind::Query, Effect::Ahead),
    ("report more", LetterKind::Report, Effect::More),
    ("report complete", LetterKind::Report, Effect::Complete),
    ("behind noted", LetterKind::Behind, Effect::Noted),
    ("ahead noted", LetterKind::Ahead, Effect::Noted),
    ("offer ignored", LetterKind::Offer, Effect::Ignored),
    ("page ignored", LetterKind::Page, Effect::Ignored),
];

// Each kind of letter, and each of its effects.
#[test]
fn lines_of_letters(rt: HostRuntime) {
    for (words, kind, effect) in &LETTERS {
        is_delivered(&rt, rt.alloc(), words, *kind, *effect);
    }
    let started = Effect::Started(entry(&rt));
    is_delivered(&rt, rt.alloc(), "offer started", LetterKind::Offer, started);
}

#[test]
fn line_of_a_lost_letter(rt: HostRuntime) {
    let happening = Happening::Lost { number: 6 };
    let sent = None;
    prints(&rt, rt.alloc(), &Outcome { happening, sent }, "lost 6");
}

// The silo's activation of that count, in the phase.
fn write_phase(rt: &impl Abort, out: &mut Vec<u8>, silo: &SiloAddress, count: u64, phase: Phase) {
    let held = Held {
        count,
        phase,
        previous: None,
    };
    write_held(out, silo, &grain(rt), &held).expect(rt, "memory");
}

// The lines of two silos.
fn write_silos(rt: &impl Abort, out: &mut Vec<u8>, a: &SiloAddress, b: &SiloAddress) {
    write_silo(out, a, Status::Leaving, Some((3, 2))).expect(rt, "memory");
    write_phase(rt, out, a, 1, Phase::Asking(9));
    write_phase(rt, out, a, 2, Phase::Firm);
    write_phase(rt, out, a, 3, Phase::Closing(10));
    write_silo(out, b, Status::Active, Some((2, 0))).expect(rt, "memory");
    write_silo(out, b, Status::Dead, None).expect(rt, "memory");
}

// Those of their ranges.
fn write_ranges(rt: &impl Abort, out: &mut Vec<u8>, a: &SiloAddress, b: &SiloAddress) {
    let lower = RingRange::new(0, 2147483648).expect(rt, "a range");
    let upper = RingRange::new(2147483648, 4294967296).expect(rt, "a range");
    write_range(out, &lower, a, Some(12)).expect(rt, "memory");
    write_range(out, &upper, b, None).expect(rt, "memory");
}

// Those of owners.
fn write_owners(rt: &impl Abort, out: &mut Vec<u8>, silo: SiloAddress) {
    let owner = Point {
        place: 7,
        silo,
        index: 29,
    };
    write_no_owner(out).expect(rt, "memory");
    write_owner(out, 4294967295, Some(owner)).expect(rt, "memory");
    write_owner(out, 1, None).expect(rt, "memory");
}

const SHOWN: &str = "version 3
silo 10.0.0.1:1000@1 leaving seen 3 held 2
held 10.0.0.1:1000@1!1 user/t#3000000000 asking
held 10.0.0.1:1000@1!2 user/t#3000000000 firm
held 10.0.0.1:1000@1!3 user/t#3000000000 closing
silo 10.0.0.2:1000@1 active seen 2 held 0
silo 10.0.0.2:1000@1 dead
range 0+2147483648 10.0.0.1:1000@1 settled entries 12
range 2147483648+4294967296 10.0.0.2:1000@1 unsettled
no owner
owner 4294967295 10.0.0.2:1000@1 29
owner 1 none
refused 905
line 17 fault 921
";

// The lines that `show` prints of two silos, and those of owners, refusals and faults.
#[test]
fn lines_of_the_world(rt: HostRuntime) {
    let (a, b) = (silo(&rt, A), silo(&rt, B));
    let mut out = Vec::new(rt.alloc());
    write_version(&mut out, 3).expect(&rt, "memory");
    write_silos(&rt, &mut out, &a, &b);
    write_ranges(&rt, &mut out, &a, &b);
    write_owners(&rt, &mut out, b);
    write_refusal(&mut out, 905).expect(&rt, "memory");
    write_fault(&mut out, 17, 921).expect(&rt, "memory");
    assert!(rt; out.as_slice() == SHOWN.as_bytes());
}

const ANSWERED: &str = "1 query 10.0.0.1:1000@1 10.0.0.1:1000@1 1
4 page 10.0.0.1:1000@1 10.0.0.2:1000@1 2
place user/t#3000000000 10.0.0.2:1000@1
place user/t#3000000000 none
";

// The lines of `mail` and `place`.
#[test]
fn lines_of_questions(rt: HostRuntime) {
    let (a, b) = (silo(&rt, A), silo(&rt, B));
    let grain = grain(&rt);
    let mut out = Vec::new(rt.alloc());
    write_letter(&mut out, 1, LetterKind::Query, &a, &a, 1).expect(&rt, "memory");
    write_letter(&mut out, 4, LetterKind::Page, &a, &b, 2).expect(&rt, "memory");
    write_place(&mut out, &grain, Some(b)).expect(&rt, "memory");
    write_place(&mut out, &grain, None).expect(&rt, "memory");
    assert!(rt; out.as_slice() == ANSWERED.as_bytes());
}

#[test]
fn laws_are_calls() {
    laws::lines_are_of_the_world();
    laws::lines_of_letters_and_places();
}
