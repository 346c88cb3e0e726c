// Why a store isn't created, checked or taken up.
use ar_checkpoint::{CheckpointError, RestartError};
use ar_compaction::HeadError;
use ar_folder::FolderError;
use ar_log::LogError;
use std::alloc::Global;
use std::io::ErrorKind;
use thiserror::Error;

/// Why a store isn't created, checked or taken up, and its folder.
#[derive(Debug, Drop, Error)]
#[error("store {folder}: {cause}")]
pub struct StoreFault {
    folder: String,
    cause: StoreCause,
}

impl StoreFault {
    /// The fault of the store in a folder. Out of memory, the folder isn't named.
    pub fn new(alloc: Global, folder: &str, cause: StoreCause) -> StoreFault {
        StoreFault {
            folder: String::from_str(alloc, folder).unwrap_or_else(|_| String::new(alloc)),
            cause,
        }
    }
}

/// Why a store isn't created, checked or taken up.
#[derive(Clone, Copy, Debug, PartialEq, Eq, Error)]
pub enum StoreCause {
    #[error("no store is there")]
    NoStore,
    #[error("a store is there")]
    Exists,
    #[error("some of its files are missing")]
    Incomplete,
    #[error("the store of another array")]
    OtherArray,
    #[error("its log can't be compacted: {0:?}")]
    Checkpoint(CheckpointError),
    #[error("another program has it open")]
    InUse,
    #[error("in use by process {0}")]
    InUseBy(u32),
    #[error("can't be opened or made: {0:?}")]
    Files(ErrorKind),
    #[error("can't be read: {0:?}")]
    Read(LogError),
    #[error("damaged at byte {0} of its log")]
    Damaged(usize),
    #[error("of another version")]
    OtherVersion,
    #[error("its files hold no log")]
    NoLog,
    #[error("its log has no head")]
    NoHead,
    #[error("record {0} can't be executed again")]
    Record(u64),
    #[error("it has another geometry than --geometry says")]
    OtherGeometry,
    #[error("it has {0} disks, and --disks says otherwise")]
    OtherDisks(u8),
    #[error("its disks have {0} extents, and --extents says otherwise")]
    OtherExtents(u16),
    #[error("no array can be made of its shape")]
    Start,
    #[error("the system has no random numbers")]
    Random,
    #[error("standard output can't be written")]
    Write,
    #[error("no memory")]
    NoMemory,
}

impl From<FolderError> for StoreCause {
    fn from(error: FolderError) -> StoreCause {
        match error {
            FolderError::NoStore => StoreCause::NoStore,
            FolderError::Exists => StoreCause::Exists,
            FolderError::Incomplete => StoreCause::Incomplete,
            FolderError::Checkpoint(error) => StoreCause::Checkpoint(error),
            FolderError::InUse(None) => StoreCause::InUse,
            FolderError::InUse(Some(process)) => StoreCause::InUseBy(process),
            FolderError::Files(kind) => StoreCause::Files(kind),
            FolderError::Contents(error) => StoreCause::from(error),
            FolderError::OtherArray => StoreCause::OtherArray,
        }
    }
}

impl From<RestartError> for StoreCause {
    fn from(error: RestartError) -> StoreCause {
        match error {
            RestartError::Journal(error) => cause_of(error),
            RestartError::Head(HeadError::OtherVersion) => StoreCause::OtherVersion,
            RestartError::Head(HeadError::Invalid) => StoreCause::NoHead,
            RestartError::Head(HeadError::NoMemory) | RestartError::NoMemory => {
                StoreCause::NoMemory
            }
            RestartError::Record(number) => StoreCause::Record(number),
        }
    }
}

// Why a log isn't read.
pub(crate) fn cause_of(error: LogError) -> StoreCause {
    match error {
        LogError::Memory => StoreCause::NoMemory,
        LogError::NotALog => StoreCause::NoLog,
        LogError::OtherVersion => StoreCause::OtherVersion,
        LogError::Damaged { offset } => StoreCause::Damaged(offset),
        error => StoreCause::Read(error),
    }
}
