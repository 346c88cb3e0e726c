// What the words of a command line ask for.
use crate::failure::Failure;
use ar_cli::CommandLineFault;
use bench_workloads::{Scripted, Workload};
use clap::error::ErrorKind;
use clap::{Arg, ArgAction, ArgMatches, Command, Error as ParseError, value_parser};
use std::alloc::Global;
use std::convert::AsStr;

/// What a name on the command line means.
#[derive(Clone, Copy, Debug, PartialEq, Eq)]
pub enum Named {
    /// A workload by events.
    ByEvents(Workload),
    /// One by lines.
    ByLines(Scripted),
}

/// What is to be measured.
#[derive(Clone, Copy, Debug, PartialEq, Eq)]
pub struct Options {
    /// One workload, or all.
    pub workload: Option<Named>,
    /// For how many seconds each workload runs.
    pub seconds: u32,
    pub seed: u64,
    /// Whether each workload is reported on standard error when it begins.
    pub shows_progress: bool,
    /// Whether nothing is timed, and a digest of what is read back is printed.
    pub is_check: bool,
}

/// The options among all words of the command line, the program's name first.
pub fn options_in<S: AsStr>(alloc: Global, words: &[S]) -> Result<Options, Failure> {
    let matches = matches_of(alloc, words).map_err(|error| fault_of(&error))?;
    let workload = match matches.get_str("workload") {
        Some(name) => Some(asked(name).ok_or(Failure::NoSuchWorkload)?),
        None => None,
    };
    options_of(&matches, workload).ok_or(Failure::CommandLine)
}

fn asked(name: &str) -> Option<Named> {
    match Scripted::of_name(name) {
        Some(scripted) => Some(Named::ByLines(scripted)),
        None => Some(Named::ByEvents(Workload::of_name(name)?)),
    }
}

fn fault_of(error: &ParseError) -> CommandLineFault {
    match error.kind() {
        ErrorKind::OutOfMemory => CommandLineFault::NoMemory,
        _ => CommandLineFault::Bad,
    }
}

fn matches_of<'a, S: AsStr>(alloc: Global, words: &'a [S]) -> Result<ArgMatches<'a>, ParseError> {
    let command = Command::new(alloc, "bench_array")
        .arg(workload(alloc))?
        .arg(seconds(alloc))?
        .arg(seed(alloc))?
        .arg(flag(alloc, "progress"))?
        .arg(flag(alloc, "check"))?;
    command.try_get_matches_from(words)
}

fn workload<'a>(alloc: Global) -> Arg<'a> {
    Arg::new(alloc, "workload").long("workload")
}

fn seconds<'a>(alloc: Global) -> Arg<'a> {
    Arg::new(alloc, "seconds")
        .long("seconds")
        .value_parser(value_parser!(u32).range(1..=600))
        .default_value("2")
}

fn seed<'a>(alloc: Global) -> Arg<'a> {
    Arg::new(alloc, "seed")
        .long("seed")
        .value_parser(value_parser!(u64))
        .default_value("1")
}

fn flag<'a>(alloc: Global, name: &'a str) -> Arg<'a> {
    Arg::new(alloc, name).long(name).action(ArgAction::SetTrue)
}

fn options_of(matches: &ArgMatches<'_>, workload: Option<Named>) -> Option<Options> {
    Some(Options {
        workload,
        seconds: matches.get_one("seconds")?,
        seed: matches.get_one("seed")?,
        shows_progress: matches.get_flag("progress"),
        is_check: matches.get_flag("check"),
    })
}
