//! Why a call of a medium failed.
ghost use Rattle.std.specs.Prelude.{◌≡◌};
ghost use Rattle.ar_media.specs.declared.error.MediaError.TheVariants.{Memory};

use std::alloc::{AllocError, AllocFailed};
use std::io::ErrorKind;

/// Why a call of a [`Media`](crate::Media) failed.
#[derive(Clone, Copy, Debug, PartialEq, Eq)]
pub enum MediaError {
    /// Out of memory.
    Memory,
    /// The system reported this failure.
    Failed(ErrorKind),
    /// The medium has no room for what was written.
    Full,
    /// An earlier sync has failed, so the medium does nothing more.
    Closed,
}

impl From<AllocError> for MediaError {
    ghost from_gives = { λ _ e. e ≡ Memory };

    fn from(_: AllocError) -> Self {
        MediaError::Memory
    }
}

impl<T: Drop> From<AllocFailed<T>> for MediaError {
    ghost from_gives = { λ _ e. e ≡ Memory };

    fn from(_: AllocFailed<T>) -> Self {
        MediaError::Memory
    }
}
