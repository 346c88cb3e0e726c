// Why the program ends with a status other than 0.
use ar_cli::{CommandLineFault, ExitStatus};
use thiserror::Error;

/// Why the program ends with a status other than 0.
#[derive(Clone, Copy, Debug, Error)]
pub enum Failure {
    /// The words are not the program's options and their values.
    #[error("bad command line: bench_load --port PORT [--echo] [--echo-port PORT] [--hosts 1..4] \
        [--bytes 512|4096|65536] [--seconds 1..10] or bench_load --verify --port PORT [--hosts 1..4] [--units 1..8] \
        [--sectors 1..1048576] [--requests 1..900000] [--seed N] [--may-break] [--until-closed]")]
    CommandLine,
    /// Nothing listens at the port.
    #[error("connect fault")]
    Connect,
    /// A session of a host is open.
    #[error("login of host {0} refused")]
    Refused(u8),
    /// The other end of a connection left, or a read or a write of it faulted.
    #[error("session fault")]
    Session,
    /// A reply other than GOOD: its status byte.
    #[error("a reply of status {0}, not good")]
    NotGood(u8),
    /// The bare echo can't be reached, or can't be set up.
    #[error("echo fault")]
    Echo,
    /// A reply was not right, or a session ended early, as the lines on standard output say.
    #[error("not verified")]
    NotVerified,
    /// The clock can't be read.
    #[error("no clock")]
    Clock,
    /// Memory was refused.
    #[error("no memory")]
    NoMemory,
    /// Standard output takes nothing.
    #[error("write fault")]
    Write,
}

impl From<CommandLineFault> for Failure {
    fn from(fault: CommandLineFault) -> Failure {
        match fault {
            CommandLineFault::Bad => Failure::CommandLine,
            CommandLineFault::NoMemory => Failure::NoMemory,
        }
    }
}

impl ExitStatus for Failure {
    ghost use Rattle.bench_load.specs.Failures.{status_of_failure};

    ghost status_of = { status_of_failure };

    fn status(&self) -> u8 {
        match self {
            Failure::CommandLine => 2,
            _ => 1,
        }
    }
}
