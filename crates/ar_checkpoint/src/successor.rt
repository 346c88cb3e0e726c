// The successor of a log: the next head, the records of added disks, and those of each unit.
ghost use Rattle.std.specs.Prelude.{◌≡◌, IfErr, IfOk, OnOk, map};
ghost use Rattle.ar_record.specs.Record.{AddDisk, AreEncodable, all_data};
ghost use Rattle.ar_checkpoint.specs.Failing.{IsBeforeSwitch};
ghost use Rattle.ar_checkpoint.specs.Writing.{AppendsRecords, IsAppendable, WritesReplay, WritesSuccessor, WritesUnits};

use crate::CheckpointError;
use crate::log_replay::LogReplay;
use ar_compaction::{UnitRecords, UnitReplay};
use ar_log::{Log, create};
use ar_media::Media;
use ar_record::{Record, encode_each};
use std::alloc::{AllocError, Global};

// Makes a log with this head and the records of a replay, over whatever the medium holds. `Err` returns the medium.
pub(crate) fn write_successor<M: Media + Drop>(
    alloc: Global,
    medium: M,
    head: &[u8],
    replay: LogReplay,
) -> Result<Log<M>, (CheckpointError, M)>
    ensures written { IfOk result (λ log. WritesSuccessor M.seen M.may_leave M.is_clean head.now replay medium log) }
    ensures error { IfErr result (λ e. IsBeforeSwitch e.0) }
{
    let mut log = match create(alloc, medium, head) {
        Err((error, medium)) => return Err((CheckpointError::Successor(error), medium)),
        Ok(log) => log,
    };
    match write_records(alloc, &mut log, replay) {
        Err(error) => Err((error, log.media)),
        Ok(()) => Ok(log),
    }
}

fn write_records<M: Media>(
    alloc: Global,
    log: &mut Log<M>,
    replay: LogReplay,
) -> Result<(), CheckpointError>
    requires { IsAppendable M.seen M.may_leave M.is_clean log.old }
    ensures written { OnOk result (WritesReplay M.seen M.may_leave M.is_clean replay log.old log.new) }
    ensures error { IfErr result IsBeforeSwitch }
{
    write_disks(alloc, log, &replay.disks)?;
    write_units(alloc, log, replay.units)
}

// Appends the records of added disks, as one batch.
pub(crate) fn write_disks<M: Media>(
    alloc: Global,
    log: &mut Log<M>,
    disks: &[u32],
) -> Result<(), CheckpointError>
    requires { IsAppendable M.seen M.may_leave M.is_clean log.old }
    ensures written { OnOk result (AppendsRecords M.seen M.may_leave M.is_clean (map AddDisk disks.now) log.old
        log.new) }
    ensures error { IfErr result IsBeforeSwitch }
    ensures clean { M.is_clean log.new.media ≡ M.is_clean log.old.media }
{
    if disks.is_empty() {
        return Ok(());
    }
    append(alloc, log, &disk_records(alloc, disks)?)
}

fn disk_records(alloc: Global, disks: &[u32]) -> Result<Vec<Record>, AllocError>
    ensures records { IfOk result (λ records. all_data records.items ≡ map AddDisk disks.now) }
    ensures fit { IfOk result (λ records. AreEncodable (all_data records.items)) }
{
    let mut records = Vec::new(alloc);
    for extents in disks {
        records.push(Record::AddDisk(*extents))?;
    }
    Ok(records)
}

// Appends the records of each unit, and frees it.
fn write_units<M: Media>(
    alloc: Global,
    log: &mut Log<M>,
    units: Vec<UnitReplay>,
) -> Result<(), CheckpointError>
    requires { IsAppendable M.seen M.may_leave M.is_clean log.old }
    ensures written { OnOk result (WritesUnits M.seen M.may_leave M.is_clean units.items log.old log.new) }
    ensures error { IfErr result IsBeforeSwitch }
{
    for unit in units {
        write_unit(alloc, log, unit.into_records())?;
    }
    Ok(())
}

// Appends the records of a unit, some at a time, so that its data are in memory once.
fn write_unit<M: Media>(
    alloc: Global,
    log: &mut Log<M>,
    rest: UnitRecords,
) -> Result<(), CheckpointError>
    requires appendable { IsAppendable M.seen M.may_leave M.is_clean log.old }
    requires fit { AreEncodable rest }
    ensures written { OnOk result (AppendsRecords M.seen M.may_leave M.is_clean rest log.old log.new) }
    ensures error { IfErr result IsBeforeSwitch }
{
    let mut rest = rest;
    while let Some(records) = rest.next_records(alloc)? {
        append(alloc, log, &records)?;
    }
    Ok(())
}

// Appends records as one batch.
pub(crate) fn append<M: Media>(
    alloc: Global,
    log: &mut Log<M>,
    records: &[Record],
) -> Result<(), CheckpointError>
    requires appendable { IsAppendable M.seen M.may_leave M.is_clean log.old }
    requires fit { AreEncodable (all_data records.now) }
    ensures written { OnOk result (AppendsRecords M.seen M.may_leave M.is_clean (all_data records.now) log.old
        log.new) }
    ensures error { IfErr result IsBeforeSwitch }
    ensures clean { M.is_clean log.new.media ≡ M.is_clean log.old.media }
{
    let batch = encode_each(alloc, records)?;
    match log.append(alloc, &batch) {
        Err(error) => Err(CheckpointError::Successor(error)),
        Ok(()) => Ok(()),
    }
}
