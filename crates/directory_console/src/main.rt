//! The program: carries out its command line. What that means is in the crates `console_command` and `console_threads`, and in
//! `docs/RULES.md#the-program`.
#![tactic(auto)]

mod carrying;

use carrying::carry_out;
use console_command::run_without_words;
use std::process::ExitCode;
use std::{env, io};

fn main(rt: HostRuntime) -> ExitCode {
    let input = &mut rt.reader();
    let output = &mut io::writer(&rt);
    let errors = &mut rt.stderr();
    match words(&rt) {
        Ok(words) => carry_out(&rt, rt.alloc(), &words, input, output, errors),
        Err(error) => ExitCode::from(run_without_words(error.kind(), errors).status()),
    }
}

// The words of the command line, the program's name first.
fn words(rt: &HostRuntime) -> io::Result<Vec<String>> {
    Ok(env::args(rt)?.collect(rt.alloc())?)
}
