// A log that is replaced by its successor.
ghost use Rattle.std.specs.Prelude.{◌≡◌, ◌≤◌, IfErr, IfOk, IfSome, IsTrue, IsSome, false, length};
ghost use Rattle.ar_journal.specs.Journal.{IsReady};
ghost use Rattle.ar_journal.specs.Switch.{LeavesEither, Switches};
ghost use Rattle.ar_log.specs.Log.{IsSynced};
ghost use Rattle.ar_journal.specs.Reader.{IsReading, batches_read};
ghost use Rattle.ar_compaction.specs.Head.{head_data, head_encoding};
ghost use Rattle.ar_checkpoint.specs.Failing.{IsBeforeSwitch};
ghost use Rattle.ar_checkpoint.specs.LogReplay.{replay_makes};
ghost use Rattle.ar_checkpoint.specs.Replacing.{FailsToReplace, FailsToSwitch, LeavesFailed, LeavesOldOrNew};
ghost use Rattle.ar_checkpoint.specs.Replacing.{ReplacesLog, SwitchesLog, new_of, old_of};
ghost use Rattle.ar_checkpoint.specs.Successor.{IsHeadAlone, next_head};

use crate::CheckpointError;
use crate::log_replay::LogReplay;
use crate::reading::replay_rest;
use crate::successor::write_successor;
use ar_compaction::{StoreHead, encode_head};
use ar_journal::{Journal, JournalFiles, JournalReader};
use ar_log::Log;
use ar_media::Media;
use std::alloc::Global;

/// Replaces a journal's log, of which the head was read, by a successor with far fewer records that make the same
/// units, and makes that the active log.
///
/// `head` is the store's head, which the successor has with the generation raised by one, and with the units that were
/// made, but for those that its records make again. All units are in memory meanwhile. An error returns the files: the
/// log is active with each of its batches, but for `Switch`, after which a new start finds the log or its successor.
pub fn checkpoint<M: Media + Drop>(
    alloc: Global,
    reader: JournalReader<M>,
    head: &StoreHead,
) -> Result<Journal<M>, (CheckpointError, JournalFiles<M>)>
    requires reading { IsReading M.seen M.may_leave M.is_clean reader }
    requires only_head { IsTrue (M.is_clean reader.active) → IsHeadAlone (batches_read M.seen reader) }
    requires name { length head.now.name.items ≤ 64 }

    ensures ready { IfOk result (λ journal. IsReady M.seen M.may_leave M.is_clean journal) }
    ensures open { IfOk result (λ journal. journal.active.is_closed ≡ false) }
    // The records after the new head are a compaction of the old ones.
    ensures replaced { IfOk result (λ journal. ReplacesLog M.seen M.is_clean (head_data head.now) reader journal) }
    // A crash at any moment of the call leaves a journal of the old log's batches or of the successor's.
    ensures any_moment { IfOk result (λ journal. IfSome journal.spare (λ old.
        LeavesOldOrNew M.seen M.may_leave M.moment M.left_since M.is_clean reader journal.selector old
        journal.active.media)) }
    ensures any_moment_err { IfErr result (λ e.
        LeavesFailed M.seen M.may_leave M.moment M.left_since M.is_clean (head_data head.now) reader e.0 e.1) }
{
    let mut reader = reader;
    let replay = match replay_rest(alloc, &mut reader, head.makes) {
        Err(error) => return Err((error, reader.into_files())),
        Ok(replay) => replay,
    };
    let bytes = match encode_next(alloc, head, &replay) {
        Err(error) => return Err((error, reader.into_files())),
        Ok(bytes) => bytes,
    };
    match reader.finish(alloc) {
        Err((error, reader)) => Err((CheckpointError::Log(error), reader.into_files())),
        Ok(journal) => replace_log(alloc, journal, &bytes, replay),
    }
}

// The encoding of the head of the next generation, whose log begins with the units of a replay.
pub(crate) fn encode_next(
    alloc: Global,
    head: &StoreHead,
    replay: &LogReplay,
) -> Result<Vec<u8>, CheckpointError>
    requires { length head.now.name.items ≤ 64 }
    ensures bytes { IfOk result (λ bytes. bytes.items
        ≡ head_encoding (next_head (head_data head.now) (replay_makes replay.now))) }
    ensures error { IfErr result IsBeforeSwitch }
{
    let Some(generation) = head.generation.checked_add(1) else {
        return Err(CheckpointError::LastGeneration);
    };
    let next = StoreHead {
        generation,
        identity: head.identity,
        geometry: head.geometry,
        disks: head.disks,
        extents: head.extents,
        makes: replay.makes_left(),
        name: head.name.clone()?,
    };
    Ok(encode_head(alloc, &next)?)
}

// Writes the successor on the spare of a journal, and makes it the active log.
fn replace_log<M: Media + Drop>(
    alloc: Global,
    journal: Journal<M>,
    head: &[u8],
    replay: LogReplay,
) -> Result<Journal<M>, (CheckpointError, JournalFiles<M>)>
    requires ready { IsReady M.seen M.may_leave M.is_clean journal }
    requires is_open { journal.active.is_closed ≡ false }
    requires spare { IsSome journal.spare }
    ensures switched { IfOk result (λ now. SwitchesLog M.seen M.may_leave M.moment M.left_since M.is_clean head.now
        replay journal now) }
    ensures failed { IfErr result (λ e. FailsToReplace M.seen M.may_leave M.moment M.left_since M.is_clean head.now
        replay journal e.0 e.1) }
{
    let mut journal = journal;
    let Some(spare) = journal.take_spare() else {
        unreachable!()
    };
    match write_successor(alloc, spare, head, replay) {
        Err((error, spare)) => {
            let files = files_of(
                journal.is_second,
                journal.selector,
                journal.active.media,
                spare,
            );
            Err((error, files))
        }
        Ok(successor) => switch_to(journal, successor),
    }
}

// Makes a successor that was written on the spare the active log.
fn switch_to<M: Media + Drop>(
    journal: Journal<M>,
    successor: Log<M>,
) -> Result<Journal<M>, (CheckpointError, JournalFiles<M>)>
    requires ready { IsReady M.seen M.may_leave M.is_clean journal }
    requires is_open { journal.active.is_closed ≡ false }
    requires synced { IsTrue (M.is_clean successor.media) → IsSynced M.seen M.may_leave successor }
    requires also_open { successor.is_closed ≡ false }
    ensures ready { IfOk result (λ now. IsReady M.seen M.may_leave M.is_clean now) }
    ensures switched { IfOk result (λ now. Switches journal successor now) }
    ensures any_moment { IfOk result (λ now.
        LeavesEither M.seen M.may_leave M.moment M.left_since M.is_clean journal successor now) }
    ensures failed { IfErr result (λ e. FailsToSwitch M.seen M.may_leave M.moment M.left_since M.is_clean journal
        successor e.0 e.1) }
{
    let mut journal = journal;
    let is_second = journal.is_second;
    match journal.switch(successor) {
        Err((error, successor)) => {
            let files = files_of(
                is_second,
                journal.selector,
                journal.active.media,
                successor.media,
            );
            Err((CheckpointError::Switch(error), files))
        }
        Ok(()) => Ok(journal),
    }
}

// The files of a journal, of which one log or the other is the active one.
fn files_of<M: Media + Drop>(is_second: bool, selector: M, active: M, spare: M) -> JournalFiles<M>
    ensures selector { result.selector ≡ selector }
    ensures old { old_of is_second result ≡ active }
    ensures new { new_of is_second result ≡ spare }
{
    let (first, second) = if is_second {
        (spare, active)
    } else {
        (active, spare)
    };
    JournalFiles {
        selector,
        first,
        second,
    }
}
