// Why an image isn't written or read.
use ar_core::Refusal;
use ar_folder::FolderError;
use ar_stored::StoreCause;
use std::alloc::Global;
use thiserror::Error;

/// Why an image of a unit isn't written or read, and the folder of its store.
#[derive(Debug, Drop, Error)]
#[error("store {folder}: {cause}")]
pub struct ImageFault {
    folder: String,
    cause: ImageCause,
}

impl ImageFault {
    /// The fault of the store in a folder. Out of memory, the folder isn't named.
    pub(crate) fn new(alloc: Global, folder: &str, cause: ImageCause) -> ImageFault {
        ImageFault {
            folder: String::from_str(alloc, folder).unwrap_or_else(|_| String::new(alloc)),
            cause,
        }
    }
}

/// Why an image of a unit isn't written or read.
#[derive(Clone, Copy, Debug, PartialEq, Eq, Error)]
pub enum ImageCause {
    #[error(transparent)]
    Store(StoreCause),
    #[error("the unit isn't there")]
    NoUnit,
    #[error("the unit can't be created: {0}")]
    Refused(Refusal),
    #[error("standard output is a terminal, and an image is no text")]
    Terminal,
    #[error("standard output can't be written")]
    Write,
    #[error("standard input can't be read")]
    Input,
    #[error("the image has more than {0} sectors")]
    LongImage(u32),
    #[error("the image ends in a part of a sector")]
    PartSector,
    #[error("a command to its array has failed")]
    Failed,
    #[error("can't be written")]
    Commit,
    #[error("no memory")]
    NoMemory,
}

impl From<StoreCause> for ImageCause {
    fn from(cause: StoreCause) -> ImageCause {
        ImageCause::Store(cause)
    }
}

impl From<FolderError> for ImageCause {
    fn from(error: FolderError) -> ImageCause {
        ImageCause::Store(error.into())
    }
}
