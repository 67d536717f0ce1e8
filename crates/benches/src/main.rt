//! Measures what is proved, by calls without text: `benches ring` the ring, `benches parts` the parts of a node, and
//! `benches SCENARIO` a cluster; `benches` alone plays each scenario of a cluster on a small scale and measures nothing. What is
//! measured of boards and by threads is a program apart, `tools/thread_benches`.
//!
//! Each line is a name, how many calls or events were measured, the nanoseconds that they took in all, and a sum of what they
//! answered or left, by which this program and the plain ones beside it (`plain`) are seen to have done the same work.
//! `tools/bench` runs both and prints the ratios.
#![tactic(auto)]

mod cluster;
mod course;
mod fault;
mod naming;
mod parts;
mod ring;
mod stopwatch;
mod world;

use fault::Fault;
use std::env;

/// How the program is called.
const USAGE: &str = "usage: benches [ring|parts|SCENARIO]";

fn main(rt: HostRuntime) -> Result<(), Fault> {
    match env::args(&rt)?.nth(1) {
        None => world::play_all(&rt),
        Some(word) => measure(&rt, word.as_str()),
    }
}

// What each word measures.
fn measure(rt: &HostRuntime, word: &str) -> Result<(), Fault> {
    match word {
        "--help" => Ok(println!(rt; "{USAGE}")?),
        "ring" => ring::measure(rt),
        "parts" => parts::measure(rt),
        name => world::measure(rt, name),
    }
}
