//! A host or an operator of a served array. As a host, `ar_client` sends the commands of a script on standard input to
//! the server over TCP, and prints the answers as `autoraid run` does; as an operator it sends the lines as they are,
//! also to a Unix socket.
#![tactic(auto)]

mod client;
mod fault;
mod operator;
mod prompt;

use ar_cli::{end_with, fail, words_of};
use ar_command_line::{Account, OperatorDoor, UsageFault, account_in};
use ar_disks::Host;
use ar_frames::Linked;
use ar_language::{Recent, Remembered};
use client::Client;
use fault::Failure;
use operator::operate;
use prompt::Prompt;
use std::alloc::Global;
use std::io::{self, BufReader, IsTerminal, Read, Write};
use std::net::{Net, TcpListener, TcpStream};
use std::os::fd::OwnedFd;
use std::os::unix::net::UnixStream;
use std::process::ExitCode;
use std::thread;
use std::thread::Threads;
use std::time::{Clock, Duration};

/// Seconds for which a host's client waits for an answer; no door but the hosts' answers a login.
const ANSWER: u64 = 30;

/// Milliseconds between two tries to connect, and the tries of a second.
const PAUSE: u64 = 100;

const TRIES: u32 = 10;

// Where a server listens.
#[derive(Clone, Copy)]
enum Place<'a> {
    // A port of 127.0.0.1.
    Port(u16),
    // The path of a Unix socket.
    Path(&'a str),
}

fn main(rt: HostRuntime) -> ExitCode {
    let alloc = rt.alloc();
    let prompt = Prompt {
        is_shown: rt.stdin().is_terminal() && rt.stdout().is_terminal(),
    };
    let done = match account(&rt) {
        Ok(Account::Shown(text)) => print!(rt; "{text}").map_err(|_| Failure::Write),
        Ok(Account::Host { host, port, wait }) => match connect(&rt, Place::Port(port), wait) {
            Ok(stream) => run(alloc, host, stream, rt.stdin(), rt.stdout(), prompt),
            Err(failure) => Err(failure),
        },
        Ok(Account::Operator { door, wait }) => match connect(&rt, place_of(&door), wait) {
            Ok(stream) => operate(&rt, alloc, stream, rt.stdin(), rt.stdout(), prompt),
            Err(failure) => Err(failure),
        },
        Err(fault) => return fail(&rt, &fault),
    };
    end_with(&rt, done)
}

// Reads the command line.
fn account(rt: &HostRuntime) -> Result<Account, UsageFault> {
    let alloc = rt.alloc();
    let words = words_of(rt, alloc)?;
    account_in(alloc, words.as_slice())
}

// Logs a host in, and sends the commands of the input.
fn run<I: Read + Drop, O: Write + Drop>(
    alloc: Global,
    host: Host,
    stream: TcpStream,
    input: I,
    output: O,
    prompt: Prompt,
) -> Result<(), Failure> {
    let Ok((reader, writer)) = halves(alloc, stream) else {
        return Err(Failure::Connect);
    };
    let (reader, writer) = (Linked::new(reader), Linked::new(writer));
    let mut client = Client::log_in(alloc, host, reader, writer)?;
    let mut recent = Recent::new(alloc);
    let done = client.run(Remembered::new(input, &mut recent), output, prompt);
    explained(alloc, done, &mut recent)
}

// How a session ended: a fault of a line together with what is wrong with it.
fn explained(alloc: Global, done: Result<(), Failure>, recent: &mut Recent) -> Result<(), Failure> {
    let Err(Failure::Line(fault)) = done else {
        return done;
    };
    let Some(explanation) = recent.explain(fault) else {
        return Err(Failure::Line(fault));
    };
    match format!(in alloc; "{explanation}") {
        Ok(text) => Err(Failure::Explained(fault, text)),
        Err(_) => Err(Failure::Line(fault)),
    }
}

// Both directions of a host's connection, without Nagle's delay; replies are read through a buffer, and a read that
// waits too long is a fault.
fn halves(alloc: Global, stream: TcpStream) -> io::Result<(BufReader<TcpStream>, TcpStream)> {
    stream.set_nodelay(true)?;
    stream.set_read_timeout(Some(Duration::from_secs(ANSWER)))?;
    let writer = stream.try_clone()?;
    Ok((BufReader::new(alloc, stream)?, writer))
}

// Where operators connect.
fn place_of(door: &OperatorDoor) -> Place<'_> {
    match door {
        OperatorDoor::Port(port) => Place::Port(*port),
        OperatorDoor::Path(path) => Place::Path(path.as_str()),
    }
}

// A connection to a server, for which it waits if nothing listens so far.
fn connect<R: Clock + Net<Listener = TcpListener, Stream = TcpStream>>(
    rt: &R,
    place: Place<'_>,
    wait: u32,
) -> Result<TcpStream, Failure> {
    for _ in 0..wait.saturating_mul(TRIES) {
        if let Ok(stream) = open(rt, place) {
            return Ok(stream);
        }
        thread::sleep(rt, Duration::from_millis(PAUSE));
    }
    match open(rt, place) {
        Ok(stream) => Ok(stream),
        Err(_) if wait > 0 => Err(Failure::NoServer(wait)),
        Err(_) => Err(Failure::Connect),
    }
}

// At a Unix socket a connection has the same calls, by its descriptor.
fn open<R: Net<Listener = TcpListener, Stream = TcpStream>>(
    rt: &R,
    place: Place<'_>,
) -> io::Result<TcpStream> {
    match place {
        Place::Port(port) => TcpStream::connect(rt, ("127.0.0.1", port)),
        Place::Path(path) => {
            let stream = UnixStream::connect(rt, path)?;
            Ok(TcpStream::from(OwnedFd::from(stream)))
        }
    }
}
