// The command line of `ar_client`.
use crate::command::{Parsed, parse};
use crate::fault::{UsageFault, bad_value};
use crate::form::{Form, Otherwise, Value, with_forms};
use crate::operator::{OperatorDoor, door_named};
use ar_cli::VERSION;
use ar_disks::Host;
use clap::{ArgMatches, Command};
use std::alloc::{AllocError, Global};
use std::convert::AsStr;

/// Whom the client speaks for, the door, and the seconds for which it tries to connect, 0 to 3,600.
#[derive(Drop)]
pub enum Account {
    /// The help or the version is printed.
    Shown(String),
    Host { host: Host, port: u16, wait: u32 },
    Operator { door: OperatorDoor, wait: u32 },
}

static FORMS: [Form; 4] = [
    Form(
        "port",
        "PORT",
        Value::Number(1, 65_535),
        Otherwise::Nothing,
        "The server's port for hosts or, with --operator, for operators",
    ),
    Form(
        "host",
        "HOST",
        Value::Number(0, 3),
        Otherwise::Nothing,
        "Log in as this host, 0 to 3, and give it the commands of a script",
    ),
    Form(
        "operator",
        "PORT|PATH",
        Value::OptionalText,
        Otherwise::Nothing,
        "Give orders as an operator, at --port or at this port or Unix socket",
    ),
    Form(
        "wait",
        "SECONDS",
        Value::Number(0, 3_600),
        Otherwise::Value("0"),
        "Wait this long for a server that starts, 0 to 3600",
    ),
];

static EXAMPLE: &str = "It reads its lines from standard input, and prints the answers:\n\n  \
    printf 'write 0 0 1 1 AA\\nread 0 0 0 2\\n' | ar_client --port 7117 --host 0\n  \
    echo health | ar_client --operator 7118";

/// Reads the words of a command line, the program's name first.
pub fn account_in<S: AsStr>(alloc: Global, words: &[S]) -> Result<Account, UsageFault> {
    // (`help` shows what the program's name alone does)
    let words = if asks_help(words) {
        words.get(..1).unwrap_or(words)
    } else {
        words
    };
    match parse(alloc, command(alloc)?, words)? {
        Parsed::Shown(text) => Ok(Account::Shown(text)),
        Parsed::Matches(matches) => account_of(alloc, &matches),
    }
}

fn asks_help<S: AsStr>(words: &[S]) -> bool {
    match words {
        [_, word] => word.as_str() == "help",
        _ => false,
    }
}

fn command<'a>(alloc: Global) -> Result<Command<'a>, AllocError> {
    let command = Command::new(alloc, "ar_client")
        .about("A host or an operator of a served array")
        .after_help(EXAMPLE)
        .version(VERSION);
    with_forms(alloc, command, &FORMS)
}

// A host, or else an operator.
fn account_of(alloc: Global, matches: &ArgMatches<'_>) -> Result<Account, UsageFault> {
    let port = matches.get_one("port");
    let wait = matches.get_one("wait").unwrap_or(0);
    match (matches.get_one("host"), matches.get_str("operator")) {
        (Some(number), None) => host_of(alloc, number, port, wait),
        (None, Some(word)) => Ok(Account::Operator {
            door: door_of(alloc, word, port)?,
            wait,
        }),
        _ => Err(bad_value(alloc, "one of --host HOST and --operator is wanted")),
    }
}

fn host_of(alloc: Global, number: u8, port: Option<u16>, wait: u32) -> Result<Account, UsageFault> {
    match (Host::new(number), port) {
        (Some(host), Some(port)) => Ok(Account::Host { host, port, wait }),
        _ => Err(bad_value(alloc, "'--host <HOST>' requires '--port <PORT>'")),
    }
}

// The operators' door: a port or a path that --operator has, or else the port.
fn door_of(alloc: Global, word: &str, port: Option<u16>) -> Result<OperatorDoor, UsageFault> {
    match port {
        Some(port) if word.is_empty() => Ok(OperatorDoor::Port(port)),
        Some(_) => Err(bad_value(
            alloc,
            "'--operator <PORT|PATH>' cannot be used with '--port <PORT>'",
        )),
        None if word.is_empty() => Err(bad_value(
            alloc,
            "'--operator' requires a port or a path, or '--port <PORT>'",
        )),
        None => door_named(alloc, word),
    }
}
