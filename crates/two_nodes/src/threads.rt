//! Two servers, each in a thread of its own. They take their steps in turn, so that the letters come in one order alone.

use crate::server::{Ends, Server};
use anyhow::Result;
use crossbeam_channel::unbounded;
use directory_silo::{GrainId, SiloAddress};
use std::alloc::Global;
use std::sync::Wait;
use std::thread::{self, Threads};

const FIRST: &[u8] = b"10.0.0.1:1000@1";

const SECOND: &[u8] = b"10.0.0.2:1000@1";

/// A grain whose hash, which it states, is the second silo's once that has joined.
const GRAIN: &[u8] = b"user/ann#3000000000";

/// Runs both servers to their ends.
pub(crate) fn run<R: Threads + Wait + Print + Copy + Drop + Send + 'static>(
    rt: &R,
    alloc: Global,
) -> Result<()> {
    let (to_second, from_first) = unbounded(alloc)?;
    let (to_first, from_second) = unbounded(alloc)?;
    let handle = *rt;
    let second_ends = Ends {
        to: to_first,
        from: from_first,
    };
    let other = thread::spawn(rt, move || second(&handle, alloc, second_ends))?;
    let first_ends = Ends {
        to: to_second,
        from: from_second,
    };
    let done = first(rt, alloc, first_ends);
    other.join(rt)?;
    done
}

// The first server: it joins, starts a grain, hands over what the second one gets, and takes it back at the end of that.
fn first<R: Wait + Print>(rt: &R, alloc: Global, ends: Ends) -> Result<()> {
    let grain = GrainId::parse(GRAIN)?;
    let mut server = Server::new(alloc, "the first", SiloAddress::parse(FIRST)?, ends)?;
    told_of_joins(&mut server)?;
    let answer = server.silo.see(1)?;
    server.lead(rt, "sees version 1", answer.letters)?;
    let answer = server.silo.wake(&grain)?;
    server.lead(rt, "starts a grain", answer.letters)?;
    let answer = server.silo.see(2)?;
    server.lead(rt, "sees version 2", answer.letters)?;
    server.follow(rt)?;
    let answer = server.silo.close(&grain)?;
    server.lead(rt, "closes the grain", answer.letters)?;
    let answer = server.silo.wake(&grain)?;
    server.lead(rt, "starts it again", answer.letters)?;
    told_of_leave(&mut server)?;
    server.follow(rt)?;
    let answer = server.silo.see(3)?;
    server.lead(rt, "sees version 3", answer.letters)?;
    server.follow(rt)?;
    told_of_death(&mut server)?;
    server.silo.see(4)?;
    println!(rt; "the first sees version 4, alone")?;
    Ok(())
}

// The second server: it joins, takes over its part of the ring, answers for it, leaves, and ends.
fn second<R: Wait + Print>(rt: &R, alloc: Global, ends: Ends) -> Result<()> {
    let mut server = Server::new(alloc, "the second", SiloAddress::parse(SECOND)?, ends)?;
    told_of_joins(&mut server)?;
    server.follow(rt)?;
    server.follow(rt)?;
    server.follow(rt)?;
    let answer = server.silo.see(2)?;
    server.lead(rt, "sees version 2", answer.letters)?;
    server.follow(rt)?;
    server.follow(rt)?;
    told_of_leave(&mut server)?;
    let answer = server.silo.see(3)?;
    server.lead(rt, "sees version 3, and leaves", answer.letters)?;
    server.follow(rt)?;
    told_of_death(&mut server)?;
    server.lead(rt, "is dead", Vec::new(alloc))
}

// Version 1 is made by the first silo's join, version 2 by that of the second one.
fn told_of_joins(server: &mut Server) -> Result<()> {
    server.silo.joined(1, SiloAddress::parse(FIRST)?, &[10])?;
    server
        .silo
        .joined(2, SiloAddress::parse(SECOND)?, &[2_000_000_000])?;
    Ok(())
}

// Version 3 is made by the second silo's leave.
fn told_of_leave(server: &mut Server) -> Result<()> {
    server.silo.leaving(3, &SiloAddress::parse(SECOND)?)?;
    Ok(())
}

// Version 4 is made by the second silo's death.
fn told_of_death(server: &mut Server) -> Result<()> {
    server.silo.dead(4, &SiloAddress::parse(SECOND)?)?;
    Ok(())
}
