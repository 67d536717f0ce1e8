//! A mail whose letters are delivered, lost and taken back.
use directory_letters::{Body, Letter};
use letter_mail::Mail;
use ring_range::RingRange;
use silo_address::SiloAddress;
use std::alloc::{AllocError, Global};
use std::collections::BTreeMap;
use std::process::Abort;

const A: &str = "10.0.0.1:1000@1";

const B: &str = "10.0.0.2:1000@1";

fn silo(rt: &impl Abort, text: &str) -> SiloAddress {
    SiloAddress::parse(text.as_bytes()).expect(rt, text)
}

// A letter to the silo is sent.
fn post(rt: &impl Abort, alloc: Global, mail: &mut Mail, to: &str) {
    let range = RingRange::new(0, 10).expect(rt, "a range");
    let body = Body::Query { range, after: None };
    let letter = Letter::new(silo(rt, A), silo(rt, to), 1, body);
    let mut letters = Vec::new(alloc);
    letters.push(letter).expect(rt, "memory");
    mail.post(letters).expect(rt, "memory");
}

// Letters 1 and 3 are for the first silo, 2 and 4 for the second one.
fn mail(rt: &impl Abort, alloc: Global) -> Mail {
    let mut mail = Mail::new(alloc);
    post(rt, alloc, &mut mail, A);
    post(rt, alloc, &mut mail, B);
    post(rt, alloc, &mut mail, A);
    post(rt, alloc, &mut mail, B);
    mail
}

fn deliver(rt: &impl Abort, mail: &mut Mail, number: u64) {
    assert!(rt; mail.letter(number).is_some());
    mail.deliver(number);
}

fn lose(rt: &impl Abort, mail: &mut Mail, number: u64) {
    assert!(rt; mail.letter(number).is_some());
    mail.lose(number);
}

fn take_back(rt: &impl Abort, mail: &mut Mail, count: usize) {
    assert!(rt; count as u64 <= mail.sent());
    mail.take_back(count);
}

// Both silos, with anything beside them.
fn both(rt: &impl Abort, alloc: Global) -> Result<BTreeMap<SiloAddress, bool>, AllocError> {
    let mut both = BTreeMap::new(alloc);
    both.insert(silo(rt, A), true)?;
    both.insert(silo(rt, B), false)?;
    Ok(both)
}

// The least fresh letters to the first silo, to the second one, and to both.
fn least(rt: &impl Abort, alloc: Global, mail: &Mail) -> (Option<u64>, Option<u64>, Option<u64>) {
    let both = both(rt, alloc).expect(rt, "memory");
    (
        mail.least_fresh_to(&silo(rt, A)),
        mail.least_fresh_to(&silo(rt, B)),
        mail.least_fresh(&both),
    )
}

#[test]
fn letters_that_are_delivered_and_lost_are_passed_over(rt: HostRuntime) {
    let mut mail = mail(&rt, rt.alloc());
    pass_over(&rt, rt.alloc(), &mut mail);
}

// The first two are passed over, and what is posted in place of the others has their numbers.
fn pass_over(rt: &impl Abort, alloc: Global, mail: &mut Mail) {
    deliver(rt, mail, 1);
    lose(rt, mail, 2);
    assert!(rt; least(rt, alloc, mail) == (Some(3), Some(4), Some(3)));
    take_back(rt, mail, 2);
    post(rt, alloc, mail, B);
    assert!(rt; least(rt, alloc, mail) == (None, Some(3), Some(3)));
}
