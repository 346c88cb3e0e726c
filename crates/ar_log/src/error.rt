//! Why a call of a log failed, and what it leaves.
ghost use Rattle.std.specs.Prelude.{◌≡◌};
ghost use Rattle.ar_log.specs.declared.error.LogError.TheVariants.{Memory};
ghost use Rattle.ar_log.specs.Failure.{is_final, final_of};

use ar_media::MediaError;
use std::alloc::{AllocError, AllocFailed};

/// Why a call of a log failed.
#[derive(Clone, Copy, Debug, PartialEq, Eq)]
pub enum LogError {
    /// Out of memory. The log is as it was.
    Memory,
    /// The medium failed before anything counted, as where it has no room. The log is as it was.
    Refused(MediaError),
    /// The medium failed in a sync, or while a gate was opened. The log is closed permanently, and a new start finds it
    /// as it was or with the batch.
    Failed(MediaError),
    /// The log was closed by an earlier failure.
    Closed,
    /// The log would be longer than a file can be.
    TooLong,
    /// The medium holds no log.
    NotALog,
    /// The medium holds a log of another version.
    OtherVersion,
    /// What begins at this offset is no whole batch and no closed gate, which no crash leaves.
    Damaged {
        /// In bytes from the beginning.
        offset: usize,
    },
}

impl LogError {
    /// Whether the log is closed permanently.
    pub fn is_final(&self) -> bool
        ensures { result ≡ is_final self.now }
    {
        matches!(self, LogError::Failed(_))
    }

    /// The same failure, where it closes the log permanently.
    pub fn closing(self) -> LogError
        ensures { result ≡ final_of self }
    {
        match self {
            LogError::Refused(error) => LogError::Failed(error),
            other => other,
        }
    }
}

impl From<AllocError> for LogError {
    ghost from_gives = { λ _ e. e ≡ Memory };

    fn from(_: AllocError) -> Self {
        LogError::Memory
    }
}

impl<T: Drop> From<AllocFailed<T>> for LogError {
    ghost from_gives = { λ _ e. e ≡ Memory };

    fn from(_: AllocFailed<T>) -> Self {
        LogError::Memory
    }
}
