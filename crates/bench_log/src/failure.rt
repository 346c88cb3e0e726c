// Why the program ends with a status other than 0.
use ar_cli::CommandLineFault;
use ar_log::LogError;
use std::alloc::{AllocError, AllocFailed};
use std::io;
use thiserror::Error;

/// Why the program ends with a status other than 0.
#[derive(Clone, Copy, Debug, Error)]
pub enum Failure {
    /// The words are not those of the program.
    #[error("bad command line: bench_log write|read|measure FILE")]
    CommandLine,
    /// A file can't be opened, read or written.
    #[error("{0}")]
    File(io::Error),
    /// The log returned this error.
    #[error("log fault {0:?}")]
    Log(LogError),
    /// A record has other bytes than were written.
    #[error("record {0} is wrong")]
    Wrong(u64),
    /// The clock can't be read.
    #[error("no clock")]
    Clock,
    /// Memory was refused.
    #[error("no memory")]
    NoMemory,
}

impl From<CommandLineFault> for Failure {
    fn from(fault: CommandLineFault) -> Failure {
        match fault {
            CommandLineFault::Bad => Failure::CommandLine,
            CommandLineFault::NoMemory => Failure::NoMemory,
        }
    }
}

impl From<io::Error> for Failure {
    fn from(error: io::Error) -> Failure {
        Failure::File(error)
    }
}

impl From<LogError> for Failure {
    fn from(error: LogError) -> Failure {
        Failure::Log(error)
    }
}

impl From<AllocError> for Failure {
    fn from(_: AllocError) -> Failure {
        Failure::NoMemory
    }
}

impl<T: Drop> From<AllocFailed<T>> for Failure {
    fn from(_: AllocFailed<T>) -> Failure {
        Failure::NoMemory
    }
}
