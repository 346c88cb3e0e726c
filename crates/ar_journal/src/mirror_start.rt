//! A start of two copies of a journal: the one that is further is taken, and the other brought up to it, or rewritten
//! whole where it was lost, is damaged or differs. A copy that can't be written is given up.
ghost use Rattle.std.specs.Prelude.{◌≡◌, ◌⊎◌, ◌≤◌, [], ◌∷◌, length, take, IfOk, IfSome, IsTrue, true, false};
ghost use Rattle.ar_log.specs.Codec.{items_of};
ghost use Rattle.ar_journal.specs.Copying.{generation_in, is_ahead, is_ahead_by, HeadIs, Mirrors, Starts};
ghost use Rattle.ar_journal.specs.Copying.{StartsFrom, files_batches, is_copy_taken, Takes, TakenFrom};
ghost use Rattle.ar_journal.specs.Copying.{HasCleanFiles, IsFurther, is_unread, TakesFurther};
ghost use Rattle.ar_journal.specs.Files.{AreClean, AreDurable};
ghost use Rattle.ar_journal.specs.Journal.{IsReady, IsClean, IsAfter, ReadsLog, batches_now};

use crate::copying::{copy_rest, place_after};
use crate::{Journal, JournalFiles, MirroredJournal, create, first_place, open};
use ar_log::{Log, LogError, Place};
use ar_media::Media;
use std::alloc::Global;

/// What a start made of a copy.
#[derive(Clone, Copy, Debug, PartialEq, Eq)]
pub enum CopyState {
    /// It was taken, since the other is not further.
    Taken,
    /// It had the first batches of the other or all of them, and has all now.
    Extended,
    /// It had other batches, and was rewritten.
    Rewritten,
    /// It could not be read, for this reason, and was rewritten.
    Restored(LogError),
    /// It could not be brought up to the other, for this reason, and is given up.
    GivenUp(LogError),
}

/// A journal in two copies that has started.
#[derive(Drop)]
pub struct MirrorStart<M: Media> {
    pub journal: MirroredJournal<M>,
    pub first: CopyState,
    pub second: CopyState,
    /// Whether both copies were read, so that the further one is taken.
    pub are_compared: bool,
}

/// The generation that a head names in its bytes 1 to 8, big-endian. A shorter head is of generation 0.
fn generation_of(head: &[u8]) -> u64
    ensures { result ≡ generation_in head.now }
{
    if head.len() < 9 {
        return 0;
    }
    u64::from_be_bytes([
        head[1], head[2], head[3], head[4], head[5], head[6], head[7], head[8],
    ])
}

/// The record of a batch that has no other.
fn only_record(records: Vec<Vec<u8>>) -> Option<Vec<u8>>
    ensures { IfSome result (λ head. items_of records.items ≡ head.items ∷ []) }
{
    let mut records = records;
    if records.len() != 1 {
        return None;
    }
    records.pop()
}

/// The head of a journal, and the place after it.
fn read_head<M: Media>(
    alloc: Global,
    journal: &mut Journal<M>,
) -> Result<(Vec<u8>, Place), LogError>
    requires { IsReady M.seen M.may_leave M.is_clean journal.old }

    ensures head { IfOk result (λ r. IsTrue (M.is_clean journal.new.active.media)
        → HeadIs (batches_now M.seen journal.old) r.0.items r.1) }
    ensures reads { ReadsLog M.seen M.may_leave M.moment M.left_since M.is_clean journal.old journal.new }
    ensures ready { IsReady M.seen M.may_leave M.is_clean journal.new }
{
    match journal.read_at_place(alloc, first_place()) {
        Err(error) => Err(error),
        Ok(None) => Err(LogError::Damaged { offset: 8 }),
        Ok(Some(read)) => match only_record(read.records) {
            None => Err(LogError::Damaged { offset: 8 }),
            Some(head) => Ok((head, read.next)),
        },
    }
}

/// A closed journal of these files, for a copy that is given up.
fn closed_journal<M: Media>(files: JournalFiles<M>) -> Journal<M>
    ensures closed { result.active.is_closed ≡ true }
    ensures clean { HasCleanFiles M.is_clean result → AreClean M.is_clean files }
{
    Journal {
        selector: files.selector,
        active: Log {
            media: files.first,
            end: 0,
            number: 0,
            is_closed: true,
        },
        spare: Some(files.second),
        is_second: false,
    }
}

/// Appends to a copy the batches that the other has from this place on. The copy is given up if that fails.
fn fill<M: Media>(
    alloc: Global,
    from: &mut Journal<M>,
    to: Journal<M>,
    place: Place,
    state: CopyState,
) -> (Journal<M>, CopyState)
    requires from { IsReady M.seen M.may_leave M.is_clean from.old }
    requires to { IsReady M.seen M.may_leave M.is_clean to }
    requires place { IsTrue (M.is_clean from.old.active.media) → IsAfter (batches_now M.seen from.old) place }
    requires prefix { IsTrue (M.is_clean from.old.active.media) → IsTrue (M.is_clean to.active.media)
        → take place.number (batches_now M.seen from.old) ≡ batches_now M.seen to }
    requires state { is_copy_taken state ≡ false }

    ensures mirrors { Mirrors M.seen M.may_leave M.is_clean from.new result.0 }
    ensures state { is_copy_taken result.1 ≡ false }
    ensures unread { is_unread state ≡ true → is_unread result.1 ≡ true }
    ensures reads { ReadsLog M.seen M.may_leave M.moment M.left_since M.is_clean from.old from.new }
    ensures ready { IsReady M.seen M.may_leave M.is_clean from.new }
    ensures clean { HasCleanFiles M.is_clean result.0 → HasCleanFiles M.is_clean to }
{
    let mut to = to;
    match copy_rest(alloc, from, &mut to, place) {
        Ok(()) => (to, state),
        Err(error) => {
            to.close();
            (to, CopyState::GivenUp(error))
        }
    }
}

/// Makes the files a copy of a journal, over whatever they hold. The copy is given up if that fails.
fn rewrite<M: Media>(
    alloc: Global,
    from: &mut Journal<M>,
    files: JournalFiles<M>,
    state: CopyState,
) -> (Journal<M>, CopyState)
    requires from { IsReady M.seen M.may_leave M.is_clean from.old }
    requires state { is_copy_taken state ≡ false }

    ensures mirrors { Mirrors M.seen M.may_leave M.is_clean from.new result.0 }
    ensures state { is_copy_taken result.1 ≡ false }
    ensures unread { is_unread state ≡ true → is_unread result.1 ≡ true }
    ensures reads { ReadsLog M.seen M.may_leave M.moment M.left_since M.is_clean from.old from.new }
    ensures ready { IsReady M.seen M.may_leave M.is_clean from.new }
    ensures clean { HasCleanFiles M.is_clean result.0 → AreClean M.is_clean files }
{
    match read_head(alloc, from) {
        Err(error) => (closed_journal(files), CopyState::GivenUp(error)),
        Ok((head, place)) => match create(alloc, files, &head) {
            Err((error, files)) => (closed_journal(files), CopyState::GivenUp(error)),
            Ok(to) => fill(alloc, from, to, place, state),
        },
    }
}

/// Brings a copy up to the other. Where the other can't be read the copy is not written, but given up.
fn bring_up<M: Media>(
    alloc: Global,
    from: &mut Journal<M>,
    to: Journal<M>,
) -> (Journal<M>, CopyState)
    requires from { IsReady M.seen M.may_leave M.is_clean from.old }
    requires to { IsReady M.seen M.may_leave M.is_clean to }

    ensures mirrors { Mirrors M.seen M.may_leave M.is_clean from.new result.0 }
    ensures state { is_copy_taken result.1 ≡ false }
    ensures reads { ReadsLog M.seen M.may_leave M.moment M.left_since M.is_clean from.old from.new }
    ensures ready { IsReady M.seen M.may_leave M.is_clean from.new }
    ensures clean { HasCleanFiles M.is_clean result.0 → IsClean M.is_clean to }
{
    let mut to = to;
    match place_after(alloc, from, &mut to) {
        Err(error) => {
            to.close();
            (to, CopyState::GivenUp(error))
        }
        Ok(Some(place)) => fill(alloc, from, to, place, CopyState::Extended),
        Ok(None) => match to.into_files() {
            Err(back) => {
                let mut to = back;
                to.close();
                (to, CopyState::GivenUp(LogError::Closed))
            }
            Ok(files) => rewrite(alloc, from, files, CopyState::Rewritten),
        },
    }
}

/// Whether this generation is later or, where both are the same, this count no smaller.
fn is_ahead_by(one: u64, count: u64, other: u64, others: u64) -> bool
    ensures { result ≡ is_ahead_by one count other others }
{
    one > other || (one == other && count >= others)
}

/// Whether one journal is further than the other or as far: of a later generation or, in one generation, of no fewer
/// batches.
fn is_further<M: Media>(
    alloc: Global,
    one: &mut Journal<M>,
    other: &mut Journal<M>,
) -> Result<bool, LogError>
    requires one { IsReady M.seen M.may_leave M.is_clean one.old }
    requires other { IsReady M.seen M.may_leave M.is_clean other.old }
    requires one_open { one.old.active.is_closed ≡ false }
    requires other_open { other.old.active.is_closed ≡ false }

    ensures further { IfOk result (λ b. IsTrue (M.is_clean one.new.active.media)
        → IsTrue (M.is_clean other.new.active.media)
        → b ≡ is_ahead (batches_now M.seen one.old) (batches_now M.seen other.old)) }
    ensures one_reads { ReadsLog M.seen M.may_leave M.moment M.left_since M.is_clean one.old one.new }
    ensures other_reads { ReadsLog M.seen M.may_leave M.moment M.left_since M.is_clean other.old other.new }
    ensures one_ready { IsReady M.seen M.may_leave M.is_clean one.new }
    ensures other_ready { IsReady M.seen M.may_leave M.is_clean other.new }
{
    let first = match read_head(alloc, one) {
        Err(error) => return Err(error),
        Ok(read) => generation_of(&read.0),
    };
    let second = match read_head(alloc, other) {
        Err(error) => return Err(error),
        Ok(read) => generation_of(&read.0),
    };
    Ok(is_ahead_by(first, one.number(), second, other.number()))
}

/// Takes the further of two copies, and brings the other up to it.
fn start_both<M: Media + Drop>(
    alloc: Global,
    one: Journal<M>,
    other: Journal<M>,
) -> Result<MirrorStart<M>, LogError>
    requires one { IsReady M.seen M.may_leave M.is_clean one }
    requires other { IsReady M.seen M.may_leave M.is_clean other }
    requires one_open { one.active.is_closed ≡ false }
    requires other_open { other.active.is_closed ≡ false }

    ensures starts { IfOk result (λ start. Starts M.seen M.may_leave M.is_clean one start.journal
        ⊎ Starts M.seen M.may_leave M.is_clean other start.journal) }
    ensures taken { IfOk result (λ start. Takes (TakenFrom M.seen M.is_clean one) start
        ⊎ Takes (TakenFrom M.seen M.is_clean other) start) }
    ensures further { IfOk result (λ start. IsFurther M.seen M.is_clean one other start) }
{
    let mut one = one;
    let mut other = other;
    match is_further(alloc, &mut one, &mut other) {
        Err(error) => Err(error),
        Ok(true) => {
            let (second, state) = bring_up(alloc, &mut one, other);
            Ok(started(one, CopyState::Taken, second, state, true))
        }
        Ok(false) => {
            let (first, state) = bring_up(alloc, &mut other, one);
            Ok(started(first, state, other, CopyState::Taken, true))
        }
    }
}

/// Takes the first copy, and rewrites the second if this error is a sign of a loss.
fn restore_second<M: Media + Drop>(
    alloc: Global,
    one: Journal<M>,
    files: JournalFiles<M>,
    error: LogError,
) -> Result<MirrorStart<M>, LogError>
    requires one { IsReady M.seen M.may_leave M.is_clean one }
    requires open { one.active.is_closed ≡ false }

    ensures starts { IfOk result (λ start. Starts M.seen M.may_leave M.is_clean one start.journal) }
    ensures taken { IfOk result (λ start. Takes (TakenFrom M.seen M.is_clean one) start) }
    ensures unread { IfOk result (λ start. (start.are_compared ≡ false) × (is_unread start.second ≡ true)) }
{
    if !is_lost(&error) {
        return Err(error);
    }
    let mut one = one;
    let (second, state) = rewrite(alloc, &mut one, files, CopyState::Restored(error));
    Ok(started(one, CopyState::Taken, second, state, false))
}

/// Takes the second copy, and rewrites the first.
fn restore_first<M: Media>(
    alloc: Global,
    files: JournalFiles<M>,
    other: Journal<M>,
    error: LogError,
) -> MirrorStart<M>
    requires other { IsReady M.seen M.may_leave M.is_clean other }
    requires open { other.active.is_closed ≡ false }

    ensures starts { Starts M.seen M.may_leave M.is_clean other result.journal }
    ensures taken { Takes (TakenFrom M.seen M.is_clean other) result }
    ensures unread { (result.are_compared ≡ false) × (is_unread result.first ≡ true) }
{
    let mut other = other;
    let (first, state) = rewrite(alloc, &mut other, files, CopyState::Restored(error));
    started(first, state, other, CopyState::Taken, false)
}

/// A mirrored journal of two copies.
fn started<M: Media>(
    first: Journal<M>,
    first_state: CopyState,
    second: Journal<M>,
    second_state: CopyState,
    are_compared: bool,
) -> MirrorStart<M>
    ensures first { result.journal.first ≡ first }
    ensures second { result.journal.second ≡ second }
    ensures first_state { result.first ≡ first_state }
    ensures second_state { result.second ≡ second_state }
    ensures compared { result.are_compared ≡ are_compared }
{
    MirrorStart {
        journal: MirroredJournal {
            first,
            second,
            first_cause: cause_of(first_state),
            second_cause: cause_of(second_state),
        },
        first: first_state,
        second: second_state,
        are_compared,
    }
}

fn cause_of(state: CopyState) -> Option<LogError> {
    match state {
        CopyState::GivenUp(error) => Some(error),
        _ => None,
    }
}

/// Starts one copy.
fn start_copy<M: Media>(
    alloc: Global,
    files: JournalFiles<M>,
) -> Result<Journal<M>, (LogError, JournalFiles<M>)>
    requires { AreDurable M.seen M.may_leave files }

    ensures ready { IfOk result (λ journal. IsReady M.seen M.may_leave M.is_clean journal) }
    ensures open { IfOk result (λ journal. journal.active.is_closed ≡ false) }
    ensures batches { IfOk result (λ journal. IsClean M.is_clean journal
        → batches_now M.seen journal ≡ files_batches M.seen files) }
{
    match open(alloc, files) {
        Err((error, files)) => Err((error, files)),
        Ok(reader) => match reader.finish(alloc) {
            Err((error, reader)) => Err((error, reader.into_files())),
            Ok(journal) => Ok(journal),
        },
    }
}

/// Whether a copy that was refused with this error is lost or damaged, so that it is rewritten. A copy of another
/// version is not.
fn is_lost(error: &LogError) -> bool {
    matches!(
        error,
        LogError::NotALog | LogError::Damaged { .. } | LogError::Refused(_) | LogError::Failed(_)
    )
}

/// Starts a journal of two copies. The one that is further is taken, and the other brought up to it, rewritten, or
/// given up. An error is that of the first copy that can't be started, if the other can't be either, or if it is no
/// sign of a loss: out of memory, or another version.
pub fn open_mirrored<M: Media + Drop>(
    alloc: Global,
    first: JournalFiles<M>,
    second: JournalFiles<M>,
) -> Result<MirrorStart<M>, LogError>
    requires first { AreDurable M.seen M.may_leave first }
    requires second { AreDurable M.seen M.may_leave second }

    // It has the batches of one of the copies, in each that isn't given up.
    ensures starts { IfOk result (λ start. StartsFrom M.seen M.may_leave M.is_clean first second start.journal) }
    // The copy that was taken has them, whatever became of the other, and is the further one.
    ensures taken { IfOk result (λ start. TakesFurther M.seen M.is_clean first second start) }
{
    match start_copy(alloc, first) {
        Ok(one) => match start_copy(alloc, second) {
            Ok(other) => start_both(alloc, one, other),
            Err((error, files)) => restore_second(alloc, one, files, error),
        },
        Err((error, files)) => {
            if !is_lost(&error) {
                return Err(error);
            }
            match start_copy(alloc, second) {
                Ok(other) => Ok(restore_first(alloc, files, other, error)),
                Err(_) => Err(error),
            }
        }
    }
}
