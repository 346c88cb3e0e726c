// Recovers an array from all of its records.
ghost use Rattle.std.specs.Prelude.{◌≡◌, ◌<◌, ◌≤◌, All, map, length, IfOk, IfErr, OnOk};
ghost use Rattle.ar_extents.specs.Set.{CanCount};
ghost use Rattle.ar_record.specs.Record.{all_data};
ghost use Rattle.ar_recovery.specs.declared.from_records.RecoveryFault.TheVariants as faults;
ghost use Rattle.ar_recovery.specs.Recovering.{IsRecovered, RedoesAll, NamesRecord};

use crate::Recovery;
use ar_core::NewDisk;
use ar_disks::Disk;
use ar_extents::StartFault;
use ar_live::LiveArray;
use ar_record::Record;
use std::alloc::Global;
use std::collections::VecDeque;

/// Why no array is recovered.
#[derive(Clone, Copy, Debug, PartialEq, Eq)]
pub enum RecoveryFault {
    /// The disks make no array.
    Disks(StartFault),
    /// The record of this number, counted from 0, can't be executed again.
    Record(usize),
}

/// Recovers an array from records: a new array of `disks` executes them in order. `cache` is the capacity of its cache
/// in blocks, and `added` are the disks that records add, in order. Each unit is what its own entries among the records
/// make of an absent one (`IsRecovered`).
pub fn recover<D: Disk + Drop>(
    alloc: Global,
    disks: Vec<D>,
    cache: u32,
    added: VecDeque<NewDisk<D>>,
    records: Vec<Record>,
) -> Result<LiveArray<D>, RecoveryFault>
    requires few { cache ≤ 65536 }
    requires counting { All CanCount (map D.state disks.items) }
    ensures recovered { IfOk result (IsRecovered (all_data records.items)) }
    ensures named { IfErr result (NamesRecord (length records.items)) }
{
    let mut recovery = match Recovery::start(alloc, disks, cache, added) {
        Ok(recovery) => recovery,
        Err(fault) => return Err(RecoveryFault::Disks(fault)),
    };
    match redo_all(&mut recovery, records) {
        Ok(()) => Ok(recovery.finish()),
        Err(fault) => Err(fault),
    }
}

// Executes records again, in order.
fn redo_all<D: Disk + Drop>(
    recovery: &mut Recovery<D>,
    records: Vec<Record>,
) -> Result<(), RecoveryFault>
    ensures done { OnOk result (RedoesAll recovery.old.history (all_data records.items) recovery.new.history) }
    ensures named { IfErr result (NamesRecord (length records.items)) }
{
    let mut number: usize = 0;
    for entry in records {
        if !recovery.redo(entry) {
            return Err(RecoveryFault::Record(number));
        }
        number = number.saturating_add(1);
    }
    Ok(())
}
