//! A journal whose files are kept in two copies of the same bytes.
ghost use Rattle.std.specs.Prelude.{◌≡◌, ◌⊎◌, if◌then◌else◌, false, IfOk, OnOk};
ghost use Rattle.ar_media.specs.Media.{Only};
ghost use Rattle.ar_copies.specs.Copied.{copied_is_clean, copied_may_leave, copied_seen};
ghost use Rattle.ar_journal.specs.Copying.{AreOf, ShowsFiles, files_batches, is_copy_taken};
ghost use Rattle.ar_journal.specs.Copying.{BothGoOn, IsAsFar, is_unread};
ghost use Rattle.ar_journal.specs.Files.{AreClean, AreDurable, ShowSame, Stay};

use crate::{CopyState, Journal, JournalFiles, MirroredJournal, open_mirrored};
use ar_copies::{CopiedFile, Losses, Which};
use ar_log::LogError;
use ar_media::{Media, MediaError, are_same, copy_bytes};
use std::alloc::Global;

/// The files of a journal in one copy or two of the same bytes, and what a start made of each copy.
#[derive(Drop)]
pub struct CopiedStart<'a, M: Media> {
    pub files: JournalFiles<CopiedFile<'a, M>>,
    pub first: CopyState,
    pub second: CopyState,
}

/// The files of a journal that has one copy.
pub fn single_copy<'a, M: Media + Drop>(
    files: JournalFiles<M>,
    losses: &'a Losses,
) -> JournalFiles<CopiedFile<'a, M>>
    requires { AreDurable M.seen M.may_leave files }

    ensures durable { AreDurable (copied_seen M.seen) (copied_may_leave M.seen M.may_leave) result }
    ensures shows { ShowsFiles M.seen M.is_clean (copied_seen M.seen) (copied_is_clean M.seen M.is_clean) files result }
{
    JournalFiles {
        selector: CopiedFile::single(files.selector, losses),
        first: CopiedFile::single(files.first, losses),
        second: CopiedFile::single(files.second, losses),
    }
}

/// Takes the further of two copies of a journal, as `open_mirrored` does, and makes the files of the other the same. A
/// copy that can't be written is given up, and noted in `losses`.
pub fn open_copies<'a, M: Media + Drop>(
    alloc: Global,
    first: JournalFiles<M>,
    second: JournalFiles<M>,
    losses: &'a Losses,
) -> Result<CopiedStart<'a, M>, LogError>
    requires first { AreDurable M.seen M.may_leave first }
    requires second { AreDurable M.seen M.may_leave second }

    ensures durable { IfOk result (λ start.
        AreDurable (copied_seen M.seen) (copied_may_leave M.seen M.may_leave) start.files) }

    // The files have the batches of one of the copies, while no read of them has returned other bytes than were
    // written.
    ensures batches { IfOk result (λ start. AreClean (copied_is_clean M.seen M.is_clean) start.files
        → (files_batches (copied_seen M.seen) start.files ≡ files_batches M.seen first)
        ⊎ (files_batches (copied_seen M.seen) start.files ≡ files_batches M.seen second)) }

    // Where both copies were read and go on, these are the batches of the one that is further.
    ensures further { IfOk result (λ start. is_unread start.first ≡ false → is_unread start.second ≡ false
        → AreClean (copied_is_clean M.seen M.is_clean) start.files
        → IsAsFar (files_batches (copied_seen M.seen) start.files) (files_batches M.seen first)
        (files_batches M.seen second)) }
{
    let start = open_mirrored(alloc, first, second)?;
    let (first, second) = (start.first, start.second);
    let MirroredJournal {
        first: one,
        second: other,
        ..
    } = start.journal;
    let one = files_of(one)?;
    let other = files_of(other)?;
    match (first, second) {
        (CopyState::GivenUp(_), _) => alone(other, losses, Which::First, (first, second)),
        (_, CopyState::GivenUp(_)) => alone(one, losses, Which::Second, (first, second)),
        _ => both(alloc, one, other, losses, (first, second)),
    }
}

// Both copies, once the files of the one that wasn't taken are the same as those of the other.
fn both<'a, M: Media + Drop>(
    alloc: Global,
    one: JournalFiles<M>,
    other: JournalFiles<M>,
    losses: &'a Losses,
    states: (CopyState, CopyState),
) -> Result<CopiedStart<'a, M>, LogError>
    ensures durable { IfOk result (λ start.
        AreDurable (copied_seen M.seen) (copied_may_leave M.seen M.may_leave) start.files) }

    // They show what the copy that was taken does.
    ensures shows { IfOk result (λ start. ShowsFiles M.seen M.is_clean (copied_seen M.seen)
        (copied_is_clean M.seen M.is_clean) (if is_copy_taken states.0 then one else other) start.files) }

    ensures kept { IfOk result (λ start. is_unread start.first ≡ false → is_unread start.second ≡ false
        → BothGoOn M.is_clean (copied_is_clean M.seen M.is_clean) one other states.0 states.1 start.first
        start.second start.files) }
{
    let (mut one, mut other) = (one, other);
    let is_first_taken = is_copy_taken(&states.0);
    let made = if is_first_taken {
        make_same(alloc, &mut one, &mut other)
    } else {
        make_same(alloc, &mut other, &mut one)
    };
    match made {
        Ok(()) => {
            sync_all(&mut one).map_err(LogError::Failed)?;
            sync_all(&mut other).map_err(LogError::Failed)?;
            Ok(CopiedStart {
                files: pair(one, other, losses),
                first: states.0,
                second: states.1,
            })
        }
        Err(MediaError::Memory) => Err(LogError::Memory),
        Err(error) if is_first_taken => {
            let given_up = CopyState::GivenUp(LogError::Failed(error));
            alone(one, losses, Which::Second, (states.0, given_up))
        }
        Err(error) => {
            let given_up = CopyState::GivenUp(LogError::Failed(error));
            alone(other, losses, Which::First, (given_up, states.1))
        }
    }
}

// One copy, of which the other is given up.
fn alone<'a, M: Media + Drop>(
    files: JournalFiles<M>,
    losses: &'a Losses,
    lost: Which,
    states: (CopyState, CopyState),
) -> Result<CopiedStart<'a, M>, LogError>
    ensures durable { IfOk result (λ start.
        AreDurable (copied_seen M.seen) (copied_may_leave M.seen M.may_leave) start.files) }
    ensures shows { IfOk result (λ start. ShowsFiles M.seen M.is_clean (copied_seen M.seen)
        (copied_is_clean M.seen M.is_clean) files start.files) }
    ensures states { IfOk result (λ start. (start.first ≡ states.0) × (start.second ≡ states.1)) }
{
    let mut files = files;
    sync_all(&mut files).map_err(LogError::Failed)?;
    let state = match lost {
        Which::First => states.0,
        Which::Second => states.1,
    };
    losses.note(lost, cause_of(state));
    Ok(CopiedStart {
        files: single_copy(files, losses),
        first: states.0,
        second: states.1,
    })
}

// The files of two copies.
fn pair<'a, M: Media + Drop>(
    one: JournalFiles<M>,
    other: JournalFiles<M>,
    losses: &'a Losses,
) -> JournalFiles<CopiedFile<'a, M>>
    requires one { AreDurable M.seen M.may_leave one }
    requires other { AreDurable M.seen M.may_leave other }

    ensures durable { AreDurable (copied_seen M.seen) (copied_may_leave M.seen M.may_leave) result }
    ensures shows { ShowsFiles M.seen M.is_clean (copied_seen M.seen) (copied_is_clean M.seen M.is_clean) one result }
    ensures clean { AreClean (copied_is_clean M.seen M.is_clean) result → AreClean M.is_clean other }
{
    JournalFiles {
        selector: CopiedFile::pair(one.selector, other.selector, losses),
        first: CopiedFile::pair(one.first, other.first, losses),
        second: CopiedFile::pair(one.second, other.second, losses),
    }
}

// Makes files the same as others, unless they are. The selector is empty meanwhile, so that a crash leaves no journal
// that is complete in part.
fn make_same<M: Media>(
    alloc: Global,
    from: &mut JournalFiles<M>,
    to: &mut JournalFiles<M>,
) -> Result<(), MediaError>
    ensures same { OnOk result (ShowSame M.seen M.is_clean from.new to.new) }
    ensures from { Stay M.seen M.is_clean from.old from.new }
    ensures to { AreClean M.is_clean to.new → AreClean M.is_clean to.old }
{
    let has_selector = are_same(alloc, &mut from.selector, &mut to.selector)?;
    let has_first = are_same(alloc, &mut from.first, &mut to.first)?;
    let has_second = are_same(alloc, &mut from.second, &mut to.second)?;
    if has_selector && has_first && has_second {
        return Ok(());
    }
    to.selector.cut(0)?;
    to.selector.sync()?;
    if !has_first {
        copy_bytes(alloc, &mut from.first, &mut to.first)?;
    }
    if !has_second {
        copy_bytes(alloc, &mut from.second, &mut to.second)?;
    }
    copy_bytes(alloc, &mut from.selector, &mut to.selector)
}

// Syncs the files, so that a crash leaves what is read.
fn sync_all<M: Media>(files: &mut JournalFiles<M>) -> Result<(), MediaError>
    ensures durable { OnOk result (AreDurable M.seen M.may_leave files.new) }
    ensures stay { Stay M.seen M.is_clean files.old files.new }
{
    files.selector.sync()?;
    files.first.sync()?;
    files.second.sync()
}

// The files of a journal, of which none is out at a start.
fn files_of<M: Media + Drop>(journal: Journal<M>) -> Result<JournalFiles<M>, LogError>
    ensures { IfOk result (λ files. AreOf journal files) }
{
    match journal.into_files() {
        Ok(files) => Ok(files),
        Err(_journal) => Err(LogError::Closed),
    }
}

// Whether a copy was taken.
fn is_copy_taken(state: &CopyState) -> bool
    ensures { result ≡ is_copy_taken state.now }
{
    matches!(state, CopyState::Taken)
}

// Why a copy is given up.
fn cause_of(state: CopyState) -> MediaError {
    match state {
        CopyState::GivenUp(LogError::Failed(error) | LogError::Refused(error)) => error,
        _ => MediaError::Closed,
    }
}
