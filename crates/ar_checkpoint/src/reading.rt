// The rest of a log, replayed batch by batch.
ghost use Rattle.std.specs.Prelude.{◌≡◌, [], ◌++◌, List, IfErr, IfOk, OnOk, IsTrue};
ghost use Rattle.ar_log.specs.Codec.{items_of};
ghost use Rattle.ar_log.specs.Log.{HoldsBatches, batches_of};
ghost use Rattle.ar_journal.specs.Reader.{IsReading, ReadsActive, batches_read};
ghost use Rattle.ar_record.specs.Reading.{all_decoded, decoded, with_record};
ghost use Rattle.ar_record.specs.Record.{RecordData};
ghost use Rattle.ar_checkpoint.specs.Failing.{IsBeforeSwitch};
ghost use Rattle.ar_checkpoint.specs.LogReplay.{IsReplayOf};
ghost use Rattle.ar_checkpoint.specs.Successor.{IsHeadAlone, log_records};

use crate::CheckpointError;
use crate::log_replay::LogReplay;
use ar_compaction::Makes;
use ar_journal::JournalReader;
use ar_media::Media;
use ar_record::{DecodeError, decode};
use std::alloc::Global;

// Replays the records after the head of a log, of which the head was read, with how many units were made before.
// Nothing is written.
pub(crate) fn replay_rest<M: Media>(
    alloc: Global,
    reader: &mut JournalReader<M>,
    before: Makes,
) -> Result<LogReplay, CheckpointError>
    requires reading { IsReading M.seen M.may_leave M.is_clean reader.old }
    requires head { IsTrue (M.is_clean reader.old.active) → IsHeadAlone (batches_read M.seen reader.old) }
    ensures reading { IsReading M.seen M.may_leave M.is_clean reader.new }
    ensures reads { ReadsActive M.seen M.may_leave M.moment M.left_since M.is_clean reader.old reader.new }
    ensures whole { OnOk result (IsTrue (M.is_clean reader.new.active)
        → HoldsBatches (batches_of (M.seen reader.old.active)) (M.seen reader.old.active)) }
    ensures replayed { IfOk result (λ replay. IsTrue (M.is_clean reader.new.active)
        → IsReplayOf (log_records (batches_of (M.seen reader.old.active))) replay) }
    ensures before { IfOk result (λ replay. replay.before ≡ before) }
    ensures error { IfErr result IsBeforeSwitch }
{
    let mut replay = LogReplay::new(alloc, before);
    let mut count = 0;
    'reading: loop {
        match reader.next_batch(alloc) {
            Err(error) => return Err(CheckpointError::Log(error)),
            Ok(None) => return Ok(replay),
            Ok(Some(batch)) => count = replay_batch(alloc, &mut replay, &batch, count)?,
        }
    }
}

// Replays the records of a batch, of which the first has this number, and returns the number after them.
pub(crate) fn replay_batch(
    alloc: Global,
    replay: &mut LogReplay,
    batch: &[Vec<u8>],
    first: u64,
) -> Result<u64, CheckpointError>
    ensures replayed { OnOk result ((records : List RecordData) → IsReplayOf records replay.old
        → IsReplayOf (records ++ all_decoded (items_of batch.now)) replay.new) }
    ensures before { replay.new.before ≡ replay.old.before }
    ensures error { IfErr result IsBeforeSwitch }
{
    let mut number = first;
    for bytes in batch {
        replay_one(alloc, replay, bytes.as_slice(), number)?;
        number = number.saturating_add(1);
    }
    Ok(number)
}

// Replays the record of these bytes.
fn replay_one(
    alloc: Global,
    replay: &mut LogReplay,
    bytes: &[u8],
    number: u64,
) -> Result<(), CheckpointError>
    ensures replayed { OnOk result ((records : List RecordData) → IsReplayOf records replay.old
        → IsReplayOf (records ++ with_record (decoded bytes.now) []) replay.new) }
    ensures before { replay.new.before ≡ replay.old.before }
    ensures error { IfErr result IsBeforeSwitch }
{
    match decode(alloc, bytes) {
        Ok(entry) => Ok(replay.apply(alloc, &entry)?),
        Err(DecodeError::NoMemory) => Err(CheckpointError::NoMemory),
        Err(DecodeError::Invalid) => Err(CheckpointError::Record(number)),
    }
}
