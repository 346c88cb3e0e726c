// Why the program ends with a status other than 0.
use ar_cli::{CommandLineFault, ExitStatus};
use bench_workloads::WorkloadFault;
use thiserror::Error;

/// Why the program ends with a status other than 0.
#[derive(Clone, Copy, Debug, PartialEq, Eq, Error)]
pub enum Failure {
    /// The words are not options and their values.
    #[error("bad command line: bench_array [--workload NAME] [--seconds 1..600] [--seed N] [--progress] [--check]")]
    CommandLine,
    /// There is no workload of this name.
    #[error("no such workload; there are: fill overwrite overwrite-cached small-write read small-read parity-read \
        parity-write degraded-read degraded-write demote clean balance rebuild many-groups-64 many-groups-1024 \
        many-groups-3072 script-overwrite script-fill script-read")]
    NoSuchWorkload,
    /// Memory was refused.
    #[error("no memory")]
    NoMemory,
    #[error(transparent)]
    Workload(#[from] WorkloadFault),
    /// The clock can't be read.
    #[error("no clock")]
    Clock,
    /// The report can't be written.
    #[error("write fault")]
    Write,
}

impl From<CommandLineFault> for Failure {
    fn from(fault: CommandLineFault) -> Failure {
        match fault {
            CommandLineFault::Bad => Failure::CommandLine,
            CommandLineFault::NoMemory => Failure::NoMemory,
        }
    }
}

impl ExitStatus for Failure {
    ghost use Rattle.bench_array.specs.Failures.{status_of_failure};

    ghost status_of = { status_of_failure };

    fn status(&self) -> u8 {
        match self {
            Failure::CommandLine | Failure::NoSuchWorkload => 2,
            _ => 1,
        }
    }
}
