// A store in two folders, of which either may be lost.
ghost use Rattle.std.specs.Prelude.{IfOk, IsTrue};
ghost use Rattle.ar_media.specs.Regular.{regular_is_clean, regular_may_leave, regular_seen};
ghost use Rattle.ar_copies.specs.Copied.{copied_is_clean, copied_may_leave, copied_seen};
ghost use Rattle.ar_journal.specs.Files.{AreDurable};
ghost use Rattle.ar_journal.specs.Reader.{IsReading, batches_read};
ghost use Rattle.ar_checkpoint.specs.Successor.{IsHeadAlone};

use crate::folder::{made_files, store_files};
use crate::{FolderError, open_in};
use ar_checkpoint::{RestartError, checkpoint, open_store};
use ar_compaction::{HeadError, MAX_NAME, StoreHead};
use ar_copies::{CopiedFile, Losses, Which};
use ar_journal::{CopiedStart, CopyState, JournalFiles, JournalReader, open_copies, single_copy};
use ar_log::LogError;
use ar_media::{MediaError, RegularFile};
use std::alloc::Global;
use std::io::ErrorKind;

/// The folders of a store.
#[derive(Clone, Copy, Debug)]
pub struct StoreFolders<'a> {
    pub first: &'a str,
    /// That of the second copy, if there are two.
    pub second: Option<&'a str>,
}

/// Why a store isn't opened, and in which of its folders.
#[derive(Clone, Copy, Debug, PartialEq, Eq)]
pub struct CopyFault {
    pub is_second: bool,
    pub error: FolderError,
}

/// A store that is read, and what the start made of its copies.
#[derive(Drop)]
pub struct OpenedStore<'a> {
    pub head: StoreHead,
    pub reader: JournalReader<CopiedFile<'a, RegularFile>>,
    pub first: CopyState,
    pub second: CopyState,
}

/// The files of a store in one copy or two, and what the start made of each copy.
type Opened<'a> = (
    JournalFiles<CopiedFile<'a, RegularFile>>,
    CopyState,
    CopyState,
);

/// Opens the store in one folder or two, and reads its head. Of two copies the further is taken, and the other is
/// brought up to it or, where it is lost, written again. One that can't be opened or written is noted in `losses`.
pub fn open_copies_in<'a>(
    rt: &HostRuntime,
    alloc: Global,
    folders: StoreFolders<'_>,
    losses: &'a Losses,
) -> Result<OpenedStore<'a>, CopyFault>
    ensures reading { IfOk result (λ opened. IsReading (copied_seen regular_seen)
        (copied_may_leave regular_seen regular_may_leave) (copied_is_clean regular_seen regular_is_clean)
        opened.reader) }
    ensures head { IfOk result (λ opened.
        IsTrue (copied_is_clean regular_seen regular_is_clean opened.reader.active)
        → IsHeadAlone (batches_read (copied_seen regular_seen) opened.reader)) }
{
    let (files, first, second) = match folders.second {
        None => match store_files(rt, alloc, folders.first) {
            Ok(files) => (
                single_copy(files, losses),
                CopyState::Taken,
                CopyState::Taken,
            ),
            Err(error) => return Err(fault(false, error)),
        },
        Some(second) => open_both(rt, alloc, folders.first, second, losses)?,
    };
    match open_store(alloc, files) {
        Ok((head, reader)) => Ok(OpenedStore {
            head,
            reader,
            first,
            second,
        }),
        Err(error) => Err(fault(false, FolderError::Contents(error))),
    }
}

/// Replaces the log of the store in one folder or two by a compaction of it. A crash at any moment leaves the one or
/// the other, and an error the log.
pub fn checkpoint_in(
    rt: &HostRuntime,
    alloc: Global,
    folders: StoreFolders<'_>,
) -> Result<(), CopyFault> {
    let losses = Losses::new();
    let OpenedStore { head, reader, .. } = open_copies_in(rt, alloc, folders, &losses)?;
    if head.name.len() > MAX_NAME {
        let error = RestartError::Head(HeadError::Invalid);
        return Err(fault(false, FolderError::Contents(error)));
    }
    match checkpoint(alloc, reader, &head) {
        Ok(_journal) => Ok(()),
        Err((error, _files)) => Err(fault(false, FolderError::Checkpoint(error))),
    }
}

// Whether there is a store in a folder, and of which array.
#[derive(Clone, Copy)]
enum Found {
    Store([u8; 16]),
    /// None that can be read.
    Lost(FolderError),
}

// Brings two copies to one state, and returns the files of both.
fn open_both<'a>(
    rt: &HostRuntime,
    alloc: Global,
    first: &str,
    second: &str,
    losses: &'a Losses,
) -> Result<Opened<'a>, CopyFault>
    ensures { IfOk result (λ opened. AreDurable (copied_seen regular_seen)
        (copied_may_leave regular_seen regular_may_leave) opened.0) }
{
    let one = found_in(rt, alloc, first).map_err(|error| fault(false, error))?;
    let other = found_in(rt, alloc, second).map_err(|error| fault(true, error))?;
    match (&one, &other) {
        (Found::Lost(error), Found::Lost(_)) => return Err(fault(false, *error)),
        (Found::Store(one), Found::Store(other)) if one != other => {
            return Err(fault(true, FolderError::OtherArray));
        }
        _ => {}
    }
    let one_is_lost = matches!(one, Found::Lost(_));
    let other_is_lost = matches!(other, Found::Lost(_));
    match (made_files(rt, alloc, first), made_files(rt, alloc, second)) {
        (Ok(one), Ok(other)) => joined(alloc, one, other, losses),
        (Err(FolderError::Files(kind)), Ok(other)) if one_is_lost => {
            let state = given_up(losses, Which::First, kind);
            Ok((single_copy(other, losses), state, CopyState::Taken))
        }
        (Ok(one), Err(FolderError::Files(kind))) if other_is_lost => {
            let state = given_up(losses, Which::Second, kind);
            Ok((single_copy(one, losses), CopyState::Taken, state))
        }
        (Err(error), _) => Err(fault(false, error)),
        (_, Err(error)) => Err(fault(true, error)),
    }
}

// Brings the files of two copies to one state.
fn joined<'a>(
    alloc: Global,
    one: JournalFiles<RegularFile>,
    other: JournalFiles<RegularFile>,
    losses: &'a Losses,
) -> Result<Opened<'a>, CopyFault>
    requires one { AreDurable regular_seen regular_may_leave one }
    requires other { AreDurable regular_seen regular_may_leave other }
    ensures { IfOk result (λ opened. AreDurable (copied_seen regular_seen)
        (copied_may_leave regular_seen regular_may_leave) opened.0) }
{
    match open_copies(alloc, one, other, losses) {
        Ok(
            CopiedStart {
                files,
                first,
                second,
            },
        ) => Ok((files, first, second)),
        Err(error) => Err(fault(false, FolderError::Contents(RestartError::Journal(error)))),
    }
}

// Notes that the files of a copy can't be opened.
fn given_up(losses: &Losses, copy: Which, kind: ErrorKind) -> CopyState {
    let error = MediaError::Failed(kind);
    losses.note(copy, error);
    CopyState::GivenUp(LogError::Failed(error))
}

// What a folder has. An error is one that no loss of a copy brings about.
fn found_in(rt: &HostRuntime, alloc: Global, folder: &str) -> Result<Found, FolderError> {
    match open_in(rt, alloc, folder) {
        Ok((head, _reader)) => Ok(Found::Store(head.identity)),
        Err(error) if is_lost(error) => Ok(Found::Lost(error)),
        Err(error) => Err(error),
    }
}

// Whether a copy that isn't opened for this reason is lost.
fn is_lost(error: FolderError) -> bool {
    match error {
        FolderError::NoStore | FolderError::Incomplete | FolderError::Files(_) => true,
        FolderError::Contents(RestartError::Journal(error)) => matches!(
            error,
            LogError::NotALog
                | LogError::Damaged { .. }
                | LogError::Refused(_)
                | LogError::Failed(_)
        ),
        FolderError::Contents(RestartError::Head(error)) => error == HeadError::Invalid,
        _ => false,
    }
}

fn fault(is_second: bool, error: FolderError) -> CopyFault {
    CopyFault { is_second, error }
}
