// Failures of the client, with their messages and exit status.
use ar_cli::ExitStatus;
use ar_frames::AskFault;
use ar_language::{Fault, FaultKind};
use thiserror::Error;

/// Why the program exits with a status of 1. A refused command line has a fault of its own.
#[derive(Debug, Drop, Error)]
pub enum Failure {
    /// Nothing listens at the port or the path.
    #[error("connect fault")]
    Connect,
    /// Nothing listened there for as many seconds as the client was to wait.
    #[error("connect fault: no server within {0} s")]
    NoServer(u32),
    /// A session of this host is open.
    #[error("login refused")]
    Refused,
    /// During login the server closed the connection, or sent no valid answer.
    #[error("session fault")]
    Session,
    /// The same at a line of the input, by its number from 1.
    #[error("line {0}: session fault")]
    SessionAt(u32),
    /// An operator's line was answered by a fault.
    #[error("faulty line")]
    Faulty,
    /// Out of memory, or a thread couldn't be started.
    #[error("no memory")]
    NoMemory,
    /// Standard output can't be written.
    #[error("write fault")]
    Write,
    /// What went wrong at a line, as for a script.
    #[error(transparent)]
    Line(Fault),
    /// The same, and what is wrong with the line.
    #[error("{0}\n{1}")]
    Explained(Fault, String),
    /// A word of scripts that isn't a host's.
    #[error("{0}\na host sends commands alone: other words are an operator's")]
    NoCommand(Fault),
    /// A command of another host.
    #[error("{0}\nthe command is of another host than that of --host")]
    OtherHost(Fault),
}

impl ExitStatus for Failure {
    ghost status_of = { λ _. 1 };

    fn status(&self) -> u8 {
        1
    }
}

impl Failure {
    /// What went wrong at a line.
    pub fn at(line: u32, kind: FaultKind) -> Failure {
        let line = line.max(1);
        Failure::Line(Fault::Line { line, kind })
    }

    /// A line with a word of scripts that isn't a host's.
    pub fn no_command(line: u32) -> Failure {
        let (line, kind) = (line.max(1), FaultKind::UnknownWord);
        Failure::NoCommand(Fault::Line { line, kind })
    }

    /// A line with a command of another host.
    pub fn other_host(line: u32) -> Failure {
        let (line, kind) = (line.max(1), FaultKind::BadArgument);
        Failure::OtherHost(Fault::Line { line, kind })
    }

    /// What went wrong with the answer to a line.
    pub fn asked(line: u32, fault: AskFault) -> Failure {
        match fault {
            AskFault::NoMemory => Failure::at(line, FaultKind::NoMemory),
            _ => Failure::SessionAt(line),
        }
    }
}
