ghost use Rattle.std.specs.Prelude.{◌≡◌, IfOk, Ok, Some, map, option_and_then};
ghost use Rattle.clap.specs.Matches.{found_of};
ghost use Rattle.clap.specs.Walk.{rows_of};
ghost use Rattle.clap.specs.Simple.{subcommand_rows_of};
ghost use Rattle.console_command.specs.CommandLine.{IsInRange, Reads, hashing_named, hashing_of, line_in, number_of, options_in, process_of, silo_in, silo_text_in, token_in, token_told};
ghost use Rattle.console_command.specs.LineRefusal.{Refuses};

use crate::clap_command::grain_directory;
use crate::{CommandLineError, ProcessMistake};
use clap::ArgMatches;
use clap::error::ErrorKind;
use hash_ring::Hashing;
use process_answers::JoinToken;
use silo_address::SiloAddress;
use std::alloc::Global;
use std::convert::AsStr;

/// What an accepted command line asks for.
#[derive(Clone, Copy, PartialEq, Eq)]
pub enum Line {
    /// Play the script that comes on standard input.
    Play(Options),
    /// Play it with a thread per silo.
    Threads(Options),
    /// Judge the dump that comes on standard input.
    Check,
    /// Be the process of that silo, which is started with that token, if there is one, and whose lines come on standard input.
    Silo {
        silo: SiloAddress,
        token: Option<JoinToken>,
        options: Options,
    },
}

/// What the options of a command choose for its cluster, or its silo.
#[derive(Clone, Copy, PartialEq, Eq)]
pub struct Options {
    /// How points and grains are hashed.
    pub hashing: Hashing,
    /// How many points a silo has under `Hashing::Sha256`, from 1 to 128.
    pub points: usize,
    /// How many hints a silo's cache keeps, from 1 to 65536.
    pub cache: usize,
    /// How many activations a silo may hold, from 1 to 2^24.
    pub activations: usize,
    /// How many entries a silo tells in one report, from 1 to 64.
    pub report_size: usize,
}

/// Reads a command line: its words as the system gives them, the program's name first.
///
/// The error is what clap says of the words, be it a mistake, or the help or the version that they ask for; or why the address of a
/// silo is none, or that a token is none; or that memory ran out.
pub fn read_line<S: AsStr>(alloc: Global, words: &[S]) -> Result<Line, CommandLineError>
    ensures reads { Reads (map S.text words.entry.now) result }
    ensures in_range { IfOk result IsInRange }
{
    let command = grain_directory(alloc)?;
    match command.try_get_matches_from(words) {
        Ok(matches) => match line_in(&matches) {
            Some(Ok(line)) => Ok(line),
            Some(Err(mistake)) => Err(CommandLineError::NoProcess(mistake)),
            None => unreachable!(),
        },
        Err(error) => Err(refusal(error)),
    }
}

// That memory ran out is told apart from the words' faults.
fn refusal(error: clap::Error) -> CommandLineError
    ensures { Refuses error result }
{
    match error.kind() {
        ErrorKind::OutOfMemory => CommandLineError::OutOfMemory,
        _ => CommandLineError::Usage(error),
    }
}

// The line that the matches ask for, or why its process is none: a row for each subcommand.
fn line_in(matches: &ArgMatches<'_>) -> Option<Result<Line, ProcessMistake>>
    ensures { result ≡ option_and_then line_in (subcommand_rows_of matches.now) }
{
    let (name, settings) = matches.subcommand()?;
    match name {
        "play" => Some(Ok(Line::Play(options_in(settings)))),
        "threads" => Some(Ok(Line::Threads(options_in(settings)))),
        "check" => Some(Ok(Line::Check)),
        "silo" => Some(silo_in(settings)),
        _ => None,
    }
}

// The process of the silo that the matches name.
fn silo_in(settings: &ArgMatches<'_>) -> Result<Line, ProcessMistake>
    ensures { result ≡ silo_in (rows_of (found_of settings.now)) }
{
    match SiloAddress::parse(silo_text_in(settings).as_bytes()) {
        Ok(silo) => process_of(silo, settings),
        Err(error) => Err(ProcessMistake::Address(error)),
    }
}

// The process of that silo.
fn process_of(silo: SiloAddress, settings: &ArgMatches<'_>) -> Result<Line, ProcessMistake>
    ensures { result ≡ process_of (Ok silo) (token_in (rows_of (found_of settings.now))) (options_in (rows_of (found_of settings.now))) }
{
    match token_in(settings) {
        Ok(token) => Ok(Line::Silo {
            silo,
            token,
            options: options_in(settings),
        }),
        Err(mistake) => Err(mistake),
    }
}

// The token that the process is started with, if it is started with one.
fn token_in(settings: &ArgMatches<'_>) -> Result<Option<JoinToken>, ProcessMistake>
    ensures { result ≡ token_in (rows_of (found_of settings.now)) }
{
    match settings.get_str("join") {
        Some(text) => token_told(text),
        None => Ok(None),
    }
}

fn token_told(text: &str) -> Result<Option<JoinToken>, ProcessMistake>
    ensures { result ≡ token_told (Some text.now) }
{
    match JoinToken::parse(text.as_bytes()) {
        Some(token) => Ok(Some(token)),
        None => Err(ProcessMistake::Token),
    }
}

// What should name the silo. clap asks for it, so it is never left out.
fn silo_text_in<'a>(settings: &ArgMatches<'a>) -> &'a str
    ensures { result.now ≡ silo_text_in (rows_of (found_of settings.now)) }
{
    match settings.get_str("ADDR") {
        Some(text) => text,
        None => "",
    }
}

fn options_in(settings: &ArgMatches<'_>) -> Options
    ensures { result ≡ options_in (rows_of (found_of settings.now)) }
{
    Options {
        hashing: hashing_of(settings),
        points: number_of(settings, "points") as usize,
        cache: number_of(settings, "cache") as usize,
        activations: number_of(settings, "activations") as usize,
        report_size: number_of(settings, "report-size") as usize,
    }
}

fn hashing_of(settings: &ArgMatches<'_>) -> Hashing
    ensures { result ≡ hashing_of (rows_of (found_of settings.now)) }
{
    match settings.get_str("hashing") {
        Some(name) => hashing_named(name),
        None => Hashing::Sha256,
    }
}

fn hashing_named(name: &str) -> Hashing
    ensures { result ≡ hashing_named name.now }
{
    if name == "stated" {
        Hashing::Stated
    } else {
        Hashing::Sha256
    }
}

// The number that an option has.
fn number_of(settings: &ArgMatches<'_>, option: &str) -> u32
    ensures { result ≡ number_of option.now (rows_of (found_of settings.now)) }
{
    settings.get_one::<u32>(option).unwrap_or(0)
}
