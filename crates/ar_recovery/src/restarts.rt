// An array from a store that an earlier program left: its records are executed again, batch by batch.
ghost use Rattle.std.specs.Prelude.{◌≡◌, ◌∷◌, [], IfOk, IfSome, IsTrue, OnOk};
ghost use Rattle.ar_extents.specs.Set.{CanCount};
ghost use Rattle.ar_served.specs.Kept.{HistoryAgrees};
ghost use Rattle.ar_log.specs.Codec.{items_of};
ghost use Rattle.ar_log.specs.Log.{batches_of};
ghost use Rattle.ar_journal.specs.Reader.{IsReading, ReadsActive, batches_read};
ghost use Rattle.ar_record.specs.Reading.{all_decoded, decoded, with_record};
ghost use Rattle.ar_record.specs.Record.{data_of};
ghost use Rattle.ar_compaction.specs.Makes.{makes_after};
ghost use Rattle.ar_recovery.specs.Recovering.{IsRecovered, Redoes, RedoesAll};
ghost use Rattle.ar_checkpoint.specs.Successor.{IsHeadAlone, log_records};
ghost use Rattle.ar_recovery.specs.Stored.{AreRecords, IsReplayed};

use crate::Recovery;
use ar_checkpoint::{RestartError, Store};
use ar_compaction::Makes;
use ar_core::{Array, NewDisk};
use ar_disks::{Disk, Geometry};
use ar_journal::JournalReader;
use ar_live::LiveArray;
use ar_media::Media;
use ar_record::{DecodeError, Record, decode};
use std::alloc::Global;

/// Makes the disks that records add to an array.
pub trait DiskSource<D: Disk> {
    /// Makes a disk for the place of this number. None when out of memory.
    fn make(&mut self, alloc: Global, number: u8, geometry: Geometry, extents: u16) -> Option<D>
        ensures { IfSome result (λ disk. CanCount (D.state disk)) };
}

/// Executes the records of a store again, of which the head was read, on an array without units. Then it cuts off
/// what a crash tore, and returns the array, the store, which is ready for appends, and the number of records. Until
/// data loss each unit is what its own entries among the records make of an absent one. `makes`, at first that of the
/// head, counts the units that the records make.
pub fn restart<D: Disk + Drop, M: Media + Drop, S: DiskSource<D>>(
    alloc: Global,
    reader: JournalReader<M>,
    array: Array<D>,
    source: &mut S,
    makes: &mut Makes,
) -> Result<(LiveArray<D>, Store<M>, u64), RestartError>
    requires reading { IsReading M.seen M.may_leave M.is_clean reader }
    requires head { IsTrue (M.is_clean reader.active) → IsHeadAlone (batches_read M.seen reader) }
    requires no_unit { array.store.book.units ≡ [] }
    ensures records { IfOk result (λ r. AreRecords M.seen M.is_clean r.1 r.0.history) }
    ensures none_waits { IfOk result (λ r. r.1.waiting ≡ []) }
    ensures units { IfOk result (λ r. IsTrue (M.is_clean r.1.journal.active.media)
        → IsRecovered (log_records (batches_of (M.seen reader.active))) r.0) }
    ensures makes { IfOk result (λ r. IsTrue (M.is_clean r.1.journal.active.media)
        → makes.new.bytes ≡ makes_after makes.old.bytes (log_records (batches_of (M.seen reader.active)))) }
{
    let mut reader = reader;
    let (live, count) = replay(alloc, &mut reader, array, source, makes)?;
    match reader.finish(alloc) {
        Ok(journal) => Ok((live, Store::new(alloc, journal), count)),
        Err((error, _reader)) => Err(RestartError::Journal(error)),
    }
}

/// Executes the records of a store again, of which the head was read, on an array without units, and returns the array
/// and the number of records. `makes`, at first that of the head, counts the units that they make. Nothing is written.
pub fn replay<D: Disk + Drop, M: Media, S: DiskSource<D>>(
    alloc: Global,
    reader: &mut JournalReader<M>,
    array: Array<D>,
    source: &mut S,
    makes: &mut Makes,
) -> Result<(LiveArray<D>, u64), RestartError>
    requires reading { IsReading M.seen M.may_leave M.is_clean reader.old }
    requires head { IsTrue (M.is_clean reader.old.active) → IsHeadAlone (batches_read M.seen reader.old) }
    requires no_unit { array.store.book.units ≡ [] }
    ensures reading { IsReading M.seen M.may_leave M.is_clean reader.new }
    ensures reads { ReadsActive M.seen M.may_leave M.moment M.left_since M.is_clean reader.old reader.new }
    ensures replayed { IfOk result (λ r. IsTrue (M.is_clean reader.new.active)
        → IsReplayed (batches_of (M.seen reader.old.active)) r.0.history) }
    ensures makes { OnOk result (IsTrue (M.is_clean reader.new.active)
        → makes.new.bytes ≡ makes_after makes.old.bytes (log_records (batches_of (M.seen reader.old.active)))) }
    ensures kept { IfOk result (λ r. HistoryAgrees r.0.array r.0.history) }
{
    let mut recovery = Recovery::of(alloc, array);
    let count = redo_all(alloc, reader, &mut recovery, source, makes)?;
    Ok((recovery.finish(), count))
}

// Executes all records that are left, and returns how many there are.
fn redo_all<D: Disk + Drop, M: Media, S: DiskSource<D>>(
    alloc: Global,
    reader: &mut JournalReader<M>,
    recovery: &mut Recovery<D>,
    source: &mut S,
    makes: &mut Makes,
) -> Result<u64, RestartError>
    requires reading { IsReading M.seen M.may_leave M.is_clean reader.old }
    requires head { IsTrue (M.is_clean reader.old.active) → IsHeadAlone (batches_read M.seen reader.old) }
    requires none { recovery.old.history ≡ [] }
    ensures reading { IsReading M.seen M.may_leave M.is_clean reader.new }
    ensures reads { ReadsActive M.seen M.may_leave M.moment M.left_since M.is_clean reader.old reader.new }
    ensures replayed { OnOk result (IsTrue (M.is_clean reader.new.active)
        → IsReplayed (batches_of (M.seen reader.old.active)) recovery.new.history) }
    ensures makes { OnOk result (IsTrue (M.is_clean reader.new.active)
        → makes.new.bytes ≡ makes_after makes.old.bytes (log_records (batches_of (M.seen reader.old.active)))) }
{
    let mut count = 0;
    'reading: loop {
        match reader.next_batch(alloc) {
            Err(error) => return Err(RestartError::Journal(error)),
            Ok(None) => return Ok(count),
            Ok(Some(batch)) => count = redo_batch(alloc, recovery, &batch, source, makes, count)?,
        }
    }
}

// Executes the records of a batch, of which the first has this number, and returns the number after them.
fn redo_batch<D: Disk + Drop, S: DiskSource<D>>(
    alloc: Global,
    recovery: &mut Recovery<D>,
    batch: &[Vec<u8>],
    source: &mut S,
    makes: &mut Makes,
    first: u64,
) -> Result<u64, RestartError>
    ensures redone { OnOk result
        (RedoesAll recovery.old.history (all_decoded (items_of batch.now)) recovery.new.history) }
    ensures makes { OnOk result
        (makes.new.bytes ≡ makes_after makes.old.bytes (all_decoded (items_of batch.now))) }
{
    let mut number = first;
    for bytes in batch {
        redo_one(alloc, recovery, bytes.as_slice(), source, makes, number)?;
        number = number.saturating_add(1);
    }
    Ok(number)
}

// Executes the record of these bytes.
fn redo_one<D: Disk + Drop, S: DiskSource<D>>(
    alloc: Global,
    recovery: &mut Recovery<D>,
    bytes: &[u8],
    source: &mut S,
    makes: &mut Makes,
    number: u64,
) -> Result<(), RestartError>
    ensures redone { OnOk result
        (RedoesAll recovery.old.history (with_record (decoded bytes.now) []) recovery.new.history) }
    ensures makes { OnOk result
        (makes.new.bytes ≡ makes_after makes.old.bytes (with_record (decoded bytes.now) [])) }
{
    let entry = match decode(alloc, bytes) {
        Ok(entry) => entry,
        Err(DecodeError::NoMemory) => return Err(RestartError::NoMemory),
        Err(DecodeError::Invalid) => return Err(RestartError::Record(number)),
    };
    supply_for(alloc, recovery, &entry, source)?;
    makes.note(&entry);
    if recovery.redo(entry) {
        Ok(())
    } else {
        Err(RestartError::Record(number))
    }
}

// Supplies the disk that a record adds, if it is such a record.
fn supply_for<D: Disk + Drop, S: DiskSource<D>>(
    alloc: Global,
    recovery: &mut Recovery<D>,
    entry: &Record,
    source: &mut S,
) -> Result<(), RestartError>
    ensures { recovery.new ≡ recovery.old }
{
    let Record::AddDisk(_) = entry else {
        return Ok(());
    };
    let array = recovery.array();
    let (number, geometry, extents) = (array.disks(), array.geometry(), array.extents());
    let disk = source
        .make(alloc, number, geometry, extents)
        .ok_or(RestartError::NoMemory)?;
    recovery
        .supply(NewDisk::new(disk))
        .map_err(|_| RestartError::NoMemory)
}
