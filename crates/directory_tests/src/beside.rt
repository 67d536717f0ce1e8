//! A letter comes as its receiver planned beside the world, and in an equal world by `apply`: both answer the same, by the same
//! refusals in the same order, and leave the same.
ghost use Rattle.std.specs.Prelude.{IfOk};
ghost use Rattle.directory_core.specs.Delivery.{IsPlanWith};

use crate::leaving::{second, two_silos_by};
use crate::limits::{accept, happens_often};
use crate::worlds::silo;
use directory_core::{EventRefusal, World};
use directory_node::Plan;
use directory_rules::{Effect, Event, Happening, Outcome, Settings};
use hash_ring::Hashing;
use silo_address::SiloAddress;
use std::alloc::Global;
use std::process::Abort;

// What comes between the opening and the delivery.
enum Before {
    Nothing,
    Lost,
    Killed,
    LostAndKilled,
    // As many events as ever may be.
    All,
}

// What a delivery answers.
enum Answer {
    Has(Effect),
    Refused(u16),
}

struct Trial {
    // How many letters may ever be sent; the opening sends 3.
    letters: u64,
    before: Before,
    number: u64,
    answer: Answer,
}

const MANY: u64 = 1_000;

// The second silo's ask for its half, which is answered by a letter.
const ASK: u64 = 3;

// The first silo's report to itself at version 1: nothing comes of it any more.
const REPORT: u64 = 2;

const SOMETHING_COMES: Trial = Trial {
    letters: MANY,
    before: Before::Nothing,
    number: ASK,
    answer: Answer::Has(Effect::Page),
};

const NOTHING_COMES: Trial = Trial {
    letters: 3,
    before: Before::Nothing,
    number: REPORT,
    answer: Answer::Has(Effect::Ignored),
};

const MAIL_FULL: Trial = Trial {
    letters: 3,
    before: Before::Nothing,
    number: ASK,
    answer: Answer::Refused(909),
};

const JOURNAL_AND_MAIL_FULL: Trial = Trial {
    letters: 3,
    before: Before::All,
    number: ASK,
    answer: Answer::Refused(908),
};

const LOST: Trial = Trial {
    letters: 3,
    before: Before::Lost,
    number: ASK,
    answer: Answer::Refused(905),
};

const KILLED: Trial = Trial {
    letters: 3,
    before: Before::Killed,
    number: ASK,
    answer: Answer::Refused(902),
};

const LOST_AND_KILLED: Trial = Trial {
    letters: 3,
    before: Before::LostAndKilled,
    number: ASK,
    answer: Answer::Refused(905),
};

// The world of two silos in which so many letters may be sent, when that has come.
fn opened(rt: &impl Abort, alloc: Global, trial: &Trial) -> Box<World> {
    let settings = Settings::of_directory(Hashing::Stated, 30, 16).expect(rt, "30 points");
    let settings = settings
        .with_letters(trial.letters)
        .expect(rt, "so many letters");
    let mut world = two_silos_by(rt, alloc, settings);
    goes_before(rt, &mut world, &trial.before);
    world
}

fn goes_before(rt: &impl Abort, world: &mut World, before: &Before) {
    match before {
        Before::Nothing => {}
        Before::Lost => lose(rt, world),
        Before::Killed => kill(rt, world),
        Before::LostAndKilled => {
            lose(rt, world);
            kill(rt, world);
        }
        Before::All => fill(rt, world),
    }
}

// The second silo's ask is lost.
fn lose(rt: &impl Abort, world: &mut World) {
    accept(rt, world, Event::Lose { number: ASK });
}

// The report comes until no event may come any more.
fn fill(rt: &impl Abort, world: &mut World) {
    let left = world.settings().events().saturating_sub(world.accepted());
    happens_often(rt, world, &Event::Deliver { number: REPORT }, left);
}

// The first silo dies, which the ask is for.
fn kill(rt: &impl Abort, world: &mut World) {
    let silo = silo(rt);
    accept(rt, world, Event::Kill { silo });
}

// The receiver's plan with the letter, made beside the world. There is none of a letter that isn't there, and none of a silo without a
// node.
fn planned(rt: &impl Abort, alloc: Global, world: &World, number: u64) -> Result<Plan, EventRefusal>
    ensures { IfOk result (λ plan. IsPlanWith world.now number plan) }
{
    let Some(mailed) = world.letter(number) else {
        return Err(EventRefusal::NoSuchLetter);
    };
    let letter = mailed.letter();
    let to = letter.to();
    let Some(node) = world.node(&to) else {
        return Err(EventRefusal::DeadSilo);
    };
    Ok(node.plan_letter(alloc, letter).expect(rt, "memory"))
}

// The plan is made, and handed in.
fn beside(
    rt: &impl Abort,
    alloc: Global,
    world: &mut World,
    number: u64,
) -> Result<Outcome, EventRefusal> {
    let plan = planned(rt, alloc, world, number)?;
    match world.deliver_with(number, plan) {
        Ok(outcome) => Ok(outcome),
        Err(undelivered) => Err(undelivered.refusal),
    }
}

fn is_answer(answer: &Answer, told: &Result<Outcome, EventRefusal>) -> bool {
    match (answer, told) {
        (Answer::Has(effect), Ok(outcome)) => has_effect(&outcome.happening, effect),
        (Answer::Refused(number), Err(refusal)) => refusal.number() == Some(*number),
        _ => false,
    }
}

fn has_effect(happening: &Happening, wanted: &Effect) -> bool {
    match happening {
        Happening::Delivered { effect, .. } => effect == wanted,
        _ => false,
    }
}

// Whether the two worlds have the same of what a delivery changes.
fn same(one: &World, other: &World, silos: &[SiloAddress]) -> bool {
    one.accepted() == other.accepted()
        && one.sent() == other.sent()
        && silos.iter().all(|silo| same_node(one, other, silo))
        && (1..=one.sent()).all(|number| same_letter(one, other, number))
}

fn same_node(one: &World, other: &World, silo: &SiloAddress) -> bool {
    match (one.node(silo), other.node(silo)) {
        (Some(one), Some(other)) => one.same(other),
        (None, None) => true,
        _ => false,
    }
}

fn same_letter(one: &World, other: &World, number: u64) -> bool {
    let same = match (one.letter(number), other.letter(number)) {
        (Some(one), Some(other)) => one.letter().same(other.letter()),
        (None, None) => true,
        _ => false,
    };
    same && one.is_fresh(number) == other.is_fresh(number)
}

fn holds(rt: &impl Abort, alloc: Global, trial: &Trial) -> bool {
    let mut one = opened(rt, alloc, trial);
    let mut other = opened(rt, alloc, trial);
    let number = trial.number;
    let told = one.apply(&Event::Deliver { number });
    let told_beside = beside(rt, alloc, &mut other, number);
    told == told_beside
        && is_answer(&trial.answer, &told)
        && same(&one, &other, &[silo(rt), second(rt)])
}

#[test]
fn a_plan_handed_in_is_the_delivery(rt: HostRuntime) {
    assert!(&rt;
        holds(&rt, rt.alloc(), &SOMETHING_COMES) && holds(&rt, rt.alloc(), &NOTHING_COMES)
    );
}

#[test]
fn a_plan_handed_in_finds_the_mail_full(rt: HostRuntime) {
    assert!(&rt; holds(&rt, rt.alloc(), &MAIL_FULL));
}

// 908 goes before 909.
#[test]
fn a_plan_handed_in_finds_the_journal_full(rt: HostRuntime) {
    assert!(&rt; holds(&rt, rt.alloc(), &JOURNAL_AND_MAIL_FULL));
}

// 905 goes before 902.
#[test]
fn no_plan_is_made_where_the_delivery_is_refused(rt: HostRuntime) {
    assert!(&rt;
        holds(&rt, rt.alloc(), &LOST)
            && holds(&rt, rt.alloc(), &KILLED)
            && holds(&rt, rt.alloc(), &LOST_AND_KILLED)
    );
}
