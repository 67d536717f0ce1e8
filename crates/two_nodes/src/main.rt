//! Two silos that exchange letters by hand, as two servers do that have one each: the second silo joins, takes over its part of the
//! ring from the first one, page by page, answers for it, and hands it back when it leaves.
#![tactic(auto)]

mod pair;
mod server;
mod threads;

use anyhow::{Context, Result};
use directory_silo::LetterKind;
use pair::Pair;
use std::io;

/// How many grains are active on the first silo when the second one joins: more than the 64 whose entries a page has.
const GRAINS: u32 = 100;

fn main(rt: HostRuntime) -> Result<()> {
    let mut pair = Pair::new(rt.alloc())?;
    take_over(&rt, &mut pair)?;
    look_up(&rt, &mut pair)?;
    migrate(&rt, &mut pair)?;
    hand_back(&rt, &mut pair)?;
    threads::run(&rt, rt.alloc())
}

// Grains start on the first silo, and the second one takes over its part of them.
fn take_over(rt: &HostRuntime, pair: &mut Pair) -> Result<()> {
    let sent = pair.first.see(1)?;
    tell(rt, "the first silo sees version 1", pair.exchange(sent)?)?;
    tell(rt, "a grain starts there", pair.start(0)?)?;
    for number in 1..GRAINS {
        pair.start(number)?;
    }
    let sent = pair.first.see(2)?;
    tell(rt, "the first silo sees version 2", pair.exchange(sent)?)?;
    let sent = pair.second.see(2)?;
    tell(rt, "the second silo sees version 2", pair.exchange(sent)?)
}

// The first silo asks the second one where a grain is.
fn look_up(rt: &HostRuntime, pair: &mut Pair) -> Result<()> {
    tell(rt, "the first silo looks the grain up", pair.find(0)?)?;
    let activation = pair.hint(0)?.context("the grain was not found")?;
    println!(rt; "it is {activation}")?;
    Ok(())
}

// The grain goes from the first silo to the second one, and ends there.
fn migrate(rt: &HostRuntime, pair: &mut Pair) -> Result<()> {
    let (grain, to) = (pair.grain(0)?, pair.second.address());
    let sent = pair.first.offer(&grain, &to)?;
    tell(
        rt,
        "the first silo offers it to the second",
        pair.exchange(sent)?,
    )?;
    let sent = pair.first.nudge()?;
    tell(rt, "the first silo nudges", pair.exchange(sent)?)?;
    let sent = pair.second.close(&grain)?;
    tell(rt, "the second silo closes it", pair.exchange(sent)?)?;
    let sent = pair.first.forget(&grain)?;
    tell(
        rt,
        "the first silo forgets where it was",
        pair.exchange(sent)?,
    )?;
    tell(rt, "the first silo looks it up again", pair.find(0)?)
}

// The second silo leaves, and the first one takes over what it had.
fn hand_back(rt: &HostRuntime, pair: &mut Pair) -> Result<()> {
    pair.second_leaves()?;
    let sent = pair.second.see(3)?;
    tell(rt, "the second silo sees version 3", pair.exchange(sent)?)?;
    let sent = pair.first.see(3)?;
    tell(rt, "the first silo sees version 3", pair.exchange(sent)?)?;
    pair.second_dies()?;
    let sent = pair.first.see(4)?;
    tell(rt, "the first silo sees version 4", pair.exchange(sent)?)
}

// Prints what happened, and the letters that were delivered then.
fn tell(rt: &HostRuntime, what: &str, kinds: Vec<LetterKind>) -> Result<()> {
    Ok(print(rt, what, &kinds)?)
}

fn print(rt: &HostRuntime, what: &str, kinds: &[LetterKind]) -> io::Result<()> {
    print!(rt; "{what}:")?;
    for kind in kinds {
        print!(rt; " {kind:?}")?;
    }
    println!(rt; "")
}
