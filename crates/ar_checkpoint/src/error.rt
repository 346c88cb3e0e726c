// Why a log is not replaced.
ghost use Rattle.std.specs.Prelude.{◌≡◌};
ghost use Rattle.ar_checkpoint.specs.declared.error.CheckpointError.TheVariants.{NoMemory};

use ar_log::LogError;
use std::alloc::AllocError;

/// Why a log is not replaced. All but `Switch` leave it active, with each of its batches.
#[derive(Clone, Copy, Debug, PartialEq, Eq)]
pub enum CheckpointError {
    /// Out of memory.
    NoMemory,
    /// The log can't be read or is damaged, or what a crash tore can't be cut off.
    Log(LogError),
    /// The record of this number, counted from 0, isn't one.
    Record(u64),
    /// The log's generation is the greatest.
    LastGeneration,
    /// The successor can't be written.
    Successor(LogError),
    /// The selector can't be written. A new start finds the log or its successor, both whole.
    Switch(LogError),
}

impl From<AllocError> for CheckpointError {
    ghost from_gives = { λ _ e. e ≡ NoMemory };

    fn from(_e: AllocError) -> CheckpointError {
        CheckpointError::NoMemory
    }
}
