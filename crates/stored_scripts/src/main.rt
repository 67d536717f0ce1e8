//! Carries out the program's words for stored files, which the words of this one's command line name: a script is played with stated
//! places, and with reports of one entry where its name ends with `reports-of-one`; a dump, whose file's name ends with `.json`, is judged.
//! Behind the name of each stands what is printed, and behind that the status where it isn't 0. Worked scripts and dumps stand there first,
//! with what `worked_rows` proves of them, and two examples; then storms, of which `docs/STORMS.md` says where they come from.
#![tactic(auto)]

use anyhow::{Result, bail};
use console_command::{Run, run_words};
use std::fs::File;
use std::{env, io};

fn main(rt: HostRuntime) -> Result<()> {
    for name in env::args(&rt)?.skip(1) {
        println!(rt; "{name}")?;
        let status = carry_out(&rt, name.as_str())?;
        if status != 0 {
            println!(rt; "status {status}")?;
        }
    }
    Ok(())
}

// Carries out what stands in that file, and prints what it prints; the status.
fn carry_out(rt: &HostRuntime, name: &str) -> Result<u8> {
    let source = &mut File::open(rt, name)?;
    let output = &mut io::writer(rt);
    let errors = &mut Vec::new(rt.alloc());
    match run_words(rt.alloc(), words_for(name), source, output, errors) {
        Run::Ended(exit) => Ok(exit.status()),
        Run::OnThreads(_) => bail!("{name} is to be played on threads"),
    }
}

// The words of the program's command line, its name first, for a file of that name.
fn words_for(name: &str) -> &'static [&'static str] {
    if name.ends_with(".json") {
        &["grain-directory", "check"]
    } else if name.ends_with("reports-of-one") {
        &[
            "grain-directory",
            "play",
            "--hashing",
            "stated",
            "--report-size",
            "1",
        ]
    } else {
        &["grain-directory", "play", "--hashing", "stated"]
    }
}
