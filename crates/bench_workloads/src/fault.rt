// Why a workload isn't done.
use thiserror::Error;

/// Why a workload isn't done. Each case but the first names the workload.
#[derive(Clone, Copy, Debug, PartialEq, Eq, Error)]
pub enum WorkloadFault {
    /// Memory was refused.
    #[error("no memory")]
    NoMemory,
    /// A command was not answered as it has to be.
    #[error("{0}: a command was not GOOD")]
    Command(&'static str),
    /// An event in the background moved no block, or there was one block more to move than there has to be.
    #[error("{0}: an event in the background moved no block, or one too many")]
    Background(&'static str),
    /// A block doesn't stand where the workload needs it.
    #[error("{0}: a block stands at another level")]
    Level(&'static str),
    /// The disks are not as the workload needs them.
    #[error("{0}: a disk is out, or none is")]
    Health(&'static str),
    /// A script ended before its last line, or its answers are of another length.
    #[error("{0}: a line was not answered as it has to be")]
    Line(&'static str),
}
