// What the words of a command line ask for.
use crate::failure::Failure;
use crate::verify::Verification;
use ar_cli::CommandLineFault;
use bench_verify::Plan;
use clap::builder::ValueParser;
use clap::error::ErrorKind;
use clap::{Arg, ArgAction, ArgMatches, Command, Error as ParseError, value_parser};
use std::alloc::{AllocError, Global};
use std::convert::AsStr;

/// What is to be measured.
#[derive(Clone, Copy)]
pub struct Options {
    /// The port of 127.0.0.1 at which the array is served, or at which the bare echo is to be.
    pub port: u16,
    /// Whether this is the bare echo, which another run with the same hosts and bytes asks.
    pub is_echo: bool,
    /// The port of 127.0.0.1 at which the bare echo is.
    pub echo_port: u16,
    /// The most hosts that ask at once.
    pub hosts: u8,
    /// Sectors of a request.
    pub sectors: u16,
    /// For how many seconds the array is asked, and for how many more the bare echo.
    pub seconds: u32,
    /// What hosts verify, if nothing is to be measured.
    pub verification: Option<Verification>,
}

static SIZES: [&str; 3] = ["512", "4096", "65536"];

/// The options among all words of the command line, the program's name first.
pub fn options_in<S: AsStr>(alloc: Global, words: &[S]) -> Result<Options, Failure> {
    let matches = matches_of(alloc, words).map_err(|error| fault_of(&error))?;
    options_of(&matches).ok_or(Failure::CommandLine)
}

fn fault_of(error: &ParseError) -> CommandLineFault {
    match error.kind() {
        ErrorKind::OutOfMemory => CommandLineFault::NoMemory,
        _ => CommandLineFault::Bad,
    }
}

fn matches_of<'a, S: AsStr>(alloc: Global, words: &'a [S]) -> Result<ArgMatches<'a>, ParseError> {
    command(alloc)?.try_get_matches_from(words)
}

fn command<'a>(alloc: Global) -> Result<Command<'a>, AllocError> {
    let command = with_ports(alloc, Command::new(alloc, "bench_load"))?;
    let command = with_load(alloc, command)?;
    with_plan(alloc, with_flags(alloc, command)?)
}

// Adds what says where the array and the bare echo are.
fn with_ports<'a>(alloc: Global, command: Command<'a>) -> Result<Command<'a>, AllocError> {
    command
        .arg(port(alloc))?
        .arg(echo(alloc))?
        .arg(echo_port(alloc))
}

// Adds what says how much is asked of them.
fn with_load<'a>(alloc: Global, command: Command<'a>) -> Result<Command<'a>, AllocError> {
    command
        .arg(hosts(alloc))?
        .arg(bytes(alloc))?
        .arg(seconds(alloc))
}

// Adds what asks for a verification, and what it allows.
fn with_flags<'a>(alloc: Global, command: Command<'a>) -> Result<Command<'a>, AllocError> {
    command
        .arg(flag(alloc, "verify"))?
        .arg(flag(alloc, "may-break"))?
        .arg(flag(alloc, "until-closed"))
}

// Adds what says how much is verified.
fn with_plan<'a>(alloc: Global, command: Command<'a>) -> Result<Command<'a>, AllocError> {
    command
        .arg(units(alloc))?
        .arg(sectors(alloc))?
        .arg(requests(alloc))?
        .arg(seed(alloc))
}

fn port<'a>(alloc: Global) -> Arg<'a> {
    option(alloc, "port", value_parser!(u16).range(1..)).required(true)
}

fn echo<'a>(alloc: Global) -> Arg<'a> {
    flag(alloc, "echo")
}

fn echo_port<'a>(alloc: Global) -> Arg<'a> {
    option(alloc, "echo-port", value_parser!(u16).range(1..)).default_value("7118")
}

fn hosts<'a>(alloc: Global) -> Arg<'a> {
    option(alloc, "hosts", value_parser!(u8).range(1..=4)).default_value("4")
}

fn bytes<'a>(alloc: Global) -> Arg<'a> {
    option(alloc, "bytes", ValueParser::from(SIZES.as_slice())).default_value("512")
}

fn seconds<'a>(alloc: Global) -> Arg<'a> {
    option(alloc, "seconds", value_parser!(u32).range(1..=10)).default_value("2")
}

fn units<'a>(alloc: Global) -> Arg<'a> {
    option(alloc, "units", value_parser!(u8).range(1..=8)).default_value("1")
}

fn sectors<'a>(alloc: Global) -> Arg<'a> {
    option(alloc, "sectors", value_parser!(u32).range(1..=1_048_576)).default_value("1024")
}

fn requests<'a>(alloc: Global) -> Arg<'a> {
    option(alloc, "requests", value_parser!(u32).range(1..=900_000)).default_value("10000")
}

fn seed<'a>(alloc: Global) -> Arg<'a> {
    option(alloc, "seed", value_parser!(u32)).default_value("1")
}

// An option without a value.
fn flag<'a>(alloc: Global, name: &'a str) -> Arg<'a> {
    Arg::new(alloc, name).long(name).action(ArgAction::SetTrue)
}

// An option with a value.
fn option<'a>(alloc: Global, name: &'a str, parser: ValueParser<'a>) -> Arg<'a> {
    Arg::new(alloc, name).long(name).value_parser(parser)
}

fn options_of(matches: &ArgMatches<'_>) -> Option<Options> {
    Some(Options {
        port: matches.get_one("port")?,
        is_echo: matches.get_flag("echo"),
        echo_port: matches.get_one("echo-port")?,
        hosts: matches.get_one("hosts")?,
        sectors: sectors_of(matches.get_one("bytes")?)?,
        seconds: matches.get_one("seconds")?,
        verification: verification_of(matches)?,
    })
}

// What is to be verified, if anything is.
fn verification_of(matches: &ArgMatches<'_>) -> Option<Option<Verification>> {
    if matches.get_flag("verify") {
        let plan = plan_of(matches)?;
        let until_closed = matches.get_flag("until-closed");
        Some(Some(Verification { plan, until_closed }))
    } else {
        Some(None)
    }
}

fn plan_of(matches: &ArgMatches<'_>) -> Option<Plan> {
    let requests = matches.get_one("requests")?;
    let seed: u32 = matches.get_one("seed")?;
    Some(Plan {
        units: matches.get_one("units")?,
        sectors: matches.get_one("sectors")?,
        requests: if matches.get_flag("until-closed") {
            u32::MAX
        } else {
            requests
        },
        seed: u64::from(seed),
        may_break: matches.get_flag("may-break"),
    })
}

// The number of sectors of `bytes` bytes.
fn sectors_of(bytes: u32) -> Option<u16> {
    u16::try_from(bytes / 512).ok()
}
