use clap::error::ErrorKind;
use console_command::{CommandLineError, Line, Options, read_line};
use hash_ring::Hashing;
use process_answers::JoinToken;
use silo_address::SiloAddress;
use std::alloc::Global;

const fn options(hashing: Hashing, points: usize, cache: usize) -> Options {
    Options {
        hashing,
        points,
        cache,
        activations: 1_000_000,
        report_size: 64,
    }
}

// What a line reads as, or of which kind its refusal is; that of a process that is none is a value's.
fn answer(alloc: Global, words: &[&str]) -> Result<Line, ErrorKind> {
    match read_line(alloc, words) {
        Ok(line) => Ok(line),
        Err(CommandLineError::Usage(error)) => Err(error.kind()),
        Err(CommandLineError::NoProcess(_)) => Err(ErrorKind::InvalidValue),
        Err(CommandLineError::OutOfMemory) => Err(ErrorKind::OutOfMemory),
    }
}

// A line, its hashing, points and cache.
type Accepted = (&'static [&'static str], Hashing, usize, usize);

const ACCEPTED: [Accepted; 14] = [
    (&["grain-directory", "play"], Hashing::Sha256, 30, 1024),
    (&["", "play"], Hashing::Sha256, 30, 1024),
    (
        &["g", "play", "--hashing", "stated"],
        Hashing::Stated,
        30,
        1024,
    ),
    (
        &["g", "play", "--hashing=sha256"],
        Hashing::Sha256,
        30,
        1024,
    ),
    (&["g", "play", "--points", "1"], Hashing::Sha256, 1, 1024),
    (&["g", "play", "--points=128"], Hashing::Sha256, 128, 1024),
    (&["g", "play", "--points", "+007"], Hashing::Sha256, 7, 1024),
    (&["g", "play", "--cache", "1"], Hashing::Sha256, 30, 1),
    (&["g", "play", "--cache=65536"], Hashing::Sha256, 30, 65_536),
    (
        &["g", "play", "--cache", "+000300"],
        Hashing::Sha256,
        30,
        300,
    ),
    (
        &["g", "play", "--points", "5", "--hashing", "stated"],
        Hashing::Stated,
        5,
        1024,
    ),
    (
        &[
            "g",
            "play",
            "--cache",
            "6",
            "--hashing",
            "stated",
            "--points",
            "5",
        ],
        Hashing::Stated,
        5,
        6,
    ),
    (&["g", "play", "--"], Hashing::Sha256, 30, 1024),
    (
        &["g", "play", "--points", "5", "--"],
        Hashing::Sha256,
        5,
        1024,
    ),
];

#[test]
fn lines_that_are_accepted(rt: HostRuntime) {
    for (words, hashing, points, cache) in &ACCEPTED {
        let given = answer(rt.alloc(), *words);
        assert!(rt; given == Ok(Line::Play(options(*hashing, *points, *cache))));
    }
}

// A line with limits of a silo, and how many activations and entries of a report it chooses.
const LIMITED: [(&'static [&'static str], usize, usize); 5] = [
    (&["g", "play", "--activations", "1"], 1, 64),
    (&["g", "play", "--activations=16777216"], 16_777_216, 64),
    (&["g", "play", "--report-size", "1"], 1_000_000, 1),
    (&["g", "play", "--report-size=63"], 1_000_000, 63),
    (
        &["g", "play", "--report-size", "2", "--activations", "+03"],
        3,
        2,
    ),
];

#[test]
fn lines_with_limits(rt: HostRuntime) {
    for (words, activations, report_size) in &LIMITED {
        let chosen = Options {
            activations: *activations,
            report_size: *report_size,
            ..options(Hashing::Sha256, 30, 1024)
        };
        assert!(rt; answer(rt.alloc(), *words) == Ok(Line::Play(chosen)));
    }
}

#[test]
fn lines_of_other_commands(rt: HostRuntime) {
    let threads = ["g", "threads", "--hashing=stated", "--cache", "6"];
    let chosen = options(Hashing::Stated, 30, 6);
    assert!(rt; answer(rt.alloc(), &threads) == Ok(Line::Threads(chosen)));
    assert!(rt; answer(rt.alloc(), &["g", "check"]) == Ok(Line::Check));
}

// The address of a silo stands before its options or behind them.
#[test]
fn lines_of_a_silo(rt: HostRuntime) {
    let text = "10.0.0.1:1000@1";
    let silo = SiloAddress::parse(text.as_bytes()).expect(&rt, "a silo");
    let chosen = options(Hashing::Stated, 30, 6);
    let before = ["g", "silo", text, "--hashing=stated", "--cache", "6"];
    let behind = ["g", "silo", "--hashing=stated", "--cache", "6", text];
    let wanted = Ok(Line::Silo {
        silo,
        token: None,
        options: chosen,
    });
    assert!(rt; answer(rt.alloc(), &before) == wanted);
    assert!(rt; answer(rt.alloc(), &behind) == wanted);
}

// So does its token, of 1 to 64 bytes.
#[test]
fn lines_of_a_silo_with_a_token(rt: HostRuntime) {
    let text = "10.0.0.1:1000@1";
    let longest = "0123456789abcdef0123456789abcdef0123456789abcdef0123456789abcde~";
    let line = Line::Silo {
        silo: SiloAddress::parse(text.as_bytes()).expect(&rt, "a silo"),
        token: JoinToken::parse(longest.as_bytes()),
        options: options(Hashing::Sha256, 30, 1024),
    };
    assert!(rt; answer(rt.alloc(), &["g", "silo", "--join", longest, text]) == Ok(line));
    let longer = "0123456789abcdef0123456789abcdef0123456789abcdef0123456789abcdef0";
    let refused = Err(ErrorKind::InvalidValue);
    assert!(rt; answer(rt.alloc(), &["g", "silo", text, "--join", longer]) == refused);
}

const REFUSED: [(&'static [&'static str], ErrorKind); 50] = [
    (&["g", "silo"], ErrorKind::MissingRequiredArgument),
    (&["g", "silo", "10.0.0.1"], ErrorKind::InvalidValue),
    (&["g", "silo", ""], ErrorKind::InvalidValue),
    (
        &["g", "silo", "10.0.0.1:1000@1", "--join="],
        ErrorKind::InvalidValue,
    ),
    (
        &["g", "silo", "10.0.0.1:1000@1", "--join", "a b"],
        ErrorKind::InvalidValue,
    ),
    (&["g", "play", "--join", "a"], ErrorKind::UnknownArgument),
    (
        &["g", "silo", "10.0.0.1:1000@1", "10.0.0.2:1000@1"],
        ErrorKind::UnknownArgument,
    ),
    (&[], ErrorKind::MissingSubcommand),
    (&["g"], ErrorKind::MissingSubcommand),
    (&["g", "run"], ErrorKind::InvalidSubcommand),
    (&["g", "Play"], ErrorKind::InvalidSubcommand),
    (&["g", "--points", "5", "play"], ErrorKind::UnknownArgument),
    (&["g", "--"], ErrorKind::MissingSubcommand),
    (&["g", "play", "--version"], ErrorKind::UnknownArgument),
    (&["g", "play", "script"], ErrorKind::UnknownArgument),
    (&["g", "play", "help"], ErrorKind::UnknownArgument),
    (&["g", "play", "-p", "5"], ErrorKind::UnknownArgument),
    (&["g", "play", "--point", "5"], ErrorKind::UnknownArgument),
    (&["g", "play", "--points"], ErrorKind::InvalidValue),
    (&["g", "play", "--points", "0"], ErrorKind::ValueValidation),
    (
        &["g", "play", "--points", "129"],
        ErrorKind::ValueValidation,
    ),
    (&["g", "play", "--points", "x"], ErrorKind::ValueValidation),
    (&["g", "play", "--points="], ErrorKind::ValueValidation),
    (&["g", "play", "--cache"], ErrorKind::InvalidValue),
    (&["g", "play", "--cache", "0"], ErrorKind::ValueValidation),
    (
        &["g", "play", "--cache", "65537"],
        ErrorKind::ValueValidation,
    ),
    (
        &["g", "play", "--cache", "4294967297"],
        ErrorKind::ValueValidation,
    ),
    (&["g", "play", "--cache", "x"], ErrorKind::ValueValidation),
    (
        &["g", "play", "--cache", "5", "--cache=5"],
        ErrorKind::ArgumentConflict,
    ),
    (&["g", "--cache", "5", "play"], ErrorKind::UnknownArgument),
    (
        &["g", "play", "--points", "5", "--points", "5"],
        ErrorKind::ArgumentConflict,
    ),
    (&["g", "play", "--hashing", "md5"], ErrorKind::InvalidValue),
    (
        &["g", "play", "--hashing", "Stated"],
        ErrorKind::InvalidValue,
    ),
    (&["g", "help", "run"], ErrorKind::InvalidSubcommand),
    (&["g", "help", "-h"], ErrorKind::InvalidSubcommand),
    (&["g", "help"], ErrorKind::DisplayHelp),
    (&["g", "help", "help"], ErrorKind::DisplayHelp),
    (&["g", "help", "--"], ErrorKind::InvalidSubcommand),
    (&["g", "help", "play"], ErrorKind::DisplayHelp),
    (&["g", "threads", "script"], ErrorKind::UnknownArgument),
    (&["g", "--help"], ErrorKind::DisplayHelp),
    (&["g", "-h"], ErrorKind::DisplayHelp),
    (&["g", "-hx"], ErrorKind::DisplayHelp),
    (&["g", "-xh"], ErrorKind::UnknownArgument),
    (&["g", "play", "-hx"], ErrorKind::DisplayHelp),
    (&["g", "--", "play"], ErrorKind::UnknownArgument),
    (&["g", "play", "--", "--help"], ErrorKind::UnknownArgument),
    (&["g", "--version"], ErrorKind::DisplayVersion),
    (&["g", "-V"], ErrorKind::DisplayVersion),
    (
        &["g", "play", "--points", "5", "--help"],
        ErrorKind::DisplayHelp,
    ),
];

#[test]
fn lines_that_are_refused(rt: HostRuntime) {
    for (words, kind) in &REFUSED {
        assert!(rt; answer(rt.alloc(), *words) == Err(*kind));
    }
}

// The help of the program and that of two of its commands, its version, and a mistake, which is told with the way out.
const HELP: &str =
    "A directory of grains on a cluster of silos, played from a script, or one silo of it

Usage: grain-directory <COMMAND>

Commands:
  play     Play a cluster's script, read from standard input
  threads  Play a cluster's script with a thread per silo, read from standard input
  silo     Be one silo's process: lines of standard input are answered on standard output
  check    Judge the dump of a cluster, read from standard input
  help     Print this message or the help of the given subcommand(s)

Options:
  -h, --help     Print help
  -V, --version  Print version
";

const HELP_OF_PLAY: &str = "Play a cluster's script, read from standard input

Usage: grain-directory play [OPTIONS]

Options:
      --hashing <HASHING>          How points and grains are hashed: by their texts, or as the script states [default: sha256] [possible values: sha256, stated]
      --points <POINTS>            How many points a silo has under sha256, from 1 to 128 [default: 30]
      --cache <CACHE>              How many hints a silo's cache keeps, from 1 to 65536 [default: 1024]
      --activations <ACTIVATIONS>  How many activations a silo may hold, from 1 to 16777216 [default: 1000000]
      --report-size <ENTRIES>      How many entries a silo tells in one report, from 1 to 64 [default: 64]
  -h, --help                       Print help
";

const HELP_OF_SILO: &str =
    "Be one silo's process: lines of standard input are answered on standard output

Usage: grain-directory silo [OPTIONS] <ADDR>

Arguments:
  <ADDR>  The silo: a.b.c.d:port@generation

Options:
      --join <TOKEN>               Join by the line that carries this token, and by no other: 1 to 64 visible ASCII bytes
      --hashing <HASHING>          How points and grains are hashed: by their texts, or as the script states [default: sha256] [possible values: sha256, stated]
      --points <POINTS>            How many points a silo has under sha256, from 1 to 128 [default: 30]
      --cache <CACHE>              How many hints a silo's cache keeps, from 1 to 65536 [default: 1024]
      --activations <ACTIVATIONS>  How many activations a silo may hold, from 1 to 16777216 [default: 1000000]
      --report-size <ENTRIES>      How many entries a silo tells in one report, from 1 to 64 [default: 64]
  -h, --help                       Print help
";

const VERSION: &str = "grain-directory 0.1.0\n";

const MISTAKE: &str = "error: invalid value '0' for '--points <POINTS>': 0 is not in 1..=128

For more information, try '--help'.
";

// A line, the text that is shown for it, and whether that was asked for.
const SHOWN: [(&'static [&'static str], &str, bool); 5] = [
    (&["g", "help"], HELP, true),
    (&["g", "play", "--help"], HELP_OF_PLAY, true),
    (&["g", "silo", "--help"], HELP_OF_SILO, true),
    (&["g", "--version"], VERSION, true),
    (&["g", "play", "--points", "0"], MISTAKE, false),
];

// Whether the refusal shows just the text.
fn shows(alloc: Global, refusal: &CommandLineError, wanted: &str) -> bool {
    match refusal.to_string(alloc) {
        Ok(text) => text.as_str() == wanted,
        Err(_) => false,
    }
}

#[test]
fn texts_that_are_shown(rt: HostRuntime) {
    for (words, wanted, is_request) in &SHOWN {
        let refusal = read_line(rt.alloc(), *words).err().expect(&rt, "a text");
        assert!(rt; shows(rt.alloc(), &refusal, *wanted) && refusal.is_request() == *is_request);
    }
}
