// A store is taken up: opened, and its records executed on a new array, which goes on with it.
ghost use Rattle.std.specs.Prelude.{IfOk, IsTrue};
ghost use Rattle.ar_media.specs.Regular.{regular_is_clean, regular_may_leave, regular_seen};
ghost use Rattle.ar_copies.specs.Copied.{copied_is_clean, copied_may_leave, copied_seen};
ghost use Rattle.ar_journal.specs.Reader.{IsReading, batches_read};
ghost use Rattle.ar_checkpoint.specs.Successor.{IsHeadAlone};
ghost use Rattle.ar_recovery.specs.Stored.{AreRecords};

use crate::checking::count_units;
use crate::executing::{Restarted, restart_store};
use crate::fault::{StoreCause, StoreFault, cause_of};
use crate::setup::{check_disks, check_shape, folder_in, folders_of};
use ar_command_line::{ShapeOptions, StoreOptions};
use ar_copies::{CopiedFile, Losses};
use ar_folder::{CopyFault, OpenedStore, StoreFolders, checkpoint_in, open_copies_in};
use ar_fuses::{Fuse, FusedDisk};
use ar_journal::CopyState;
use ar_live::LiveArray;
use ar_media::RegularFile;
use log::{Log, warn};
use std::alloc::Global;
use std::io;
use std::time::{Clock, Instant};

/// A file of a store.
pub type StoreFile<'a> = CopiedFile<'a, RegularFile>;

/// A store that was taken up.
pub type TakenUp<'a> = Restarted<'a, StoreFile<'a>>;

/// Opens a store, executes its records on a new array, with a cache of this size in blocks, and prints what that took.
/// The store goes on with the records of the array's history. Of two copies the log has what was made of each.
pub fn take_up<'a, R: Print + Clock + Log>(
    rt: &R,
    files: &HostRuntime,
    alloc: Global,
    options: &StoreOptions,
    cache: u32,
    fuses: &'a [Fuse; 12],
    losses: &'a Losses,
) -> Result<TakenUp<'a>, StoreFault>
    ensures { IfOk result (λ taken. AreRecords (copied_seen regular_seen)
        (copied_is_clean regular_seen regular_is_clean) taken.store taken.live.history) }
{
    let began = Instant::now(rt).ok();
    let folders = folders_of(options);
    let opened = match open_copies_in(files, alloc, folders, losses) {
        Ok(opened) => opened,
        Err(CopyFault { is_second, error }) => {
            return Err(StoreFault::new(alloc, folder_in(folders, is_second), error.into()));
        }
    };
    tell_copies(rt, folders, opened.first, opened.second);
    match restart_array(rt, alloc, options, cache, fuses, opened, began) {
        Ok(taken) => Ok(taken),
        Err(cause) => Err(StoreFault::new(alloc, folders.first, cause)),
    }
}

// Logs what the start made of each of two copies.
fn tell_copies<R: Log>(rt: &R, folders: StoreFolders<'_>, first: CopyState, second: CopyState) {
    if let Some(folder) = folders.second {
        tell_copy(rt, folders.first, first);
        tell_copy(rt, folder, second);
    }
}

// Logs what the start made of a copy.
fn tell_copy<R: Log>(rt: &R, folder: &str, state: CopyState) {
    match state {
        CopyState::Taken | CopyState::Extended => {}
        CopyState::Rewritten => {
            warn!(rt; "store {folder}: written again from the other copy, which it differed from");
        }
        CopyState::Restored(error) => {
            let cause = cause_of(error);
            warn!(rt; "store {folder}: written again from the other copy: {cause}");
        }
        CopyState::GivenUp(error) => {
            let cause = cause_of(error);
            warn!(rt; "store {folder}: the copy is given up: {cause}");
        }
    }
}

// Executes the records of a store on a new array, and says so.
fn restart_array<'a, R: Print + Clock>(
    rt: &R,
    alloc: Global,
    options: &StoreOptions,
    cache: u32,
    fuses: &'a [Fuse; 12],
    opened: OpenedStore<'a>,
    began: Option<Instant>,
) -> Result<TakenUp<'a>, StoreCause>
    requires reading { IsReading (copied_seen regular_seen) (copied_may_leave regular_seen regular_may_leave)
        (copied_is_clean regular_seen regular_is_clean) opened.reader }
    requires head { IsTrue (copied_is_clean regular_seen regular_is_clean opened.reader.active)
        → IsHeadAlone (batches_read (copied_seen regular_seen) opened.reader) }
    ensures { IfOk result (λ taken. AreRecords (copied_seen regular_seen)
        (copied_is_clean regular_seen regular_is_clean) taken.store taken.live.history) }
{
    let OpenedStore { head, reader, .. } = opened;
    check_shape(&head, options.shape)?;
    let taken = restart_store(alloc, cache, fuses, head, reader)?;
    tell_taken(rt, options.shape, &taken.live, taken.records, began)?;
    Ok(taken)
}

// Compares the number of disks with what the command line asks for, and prints what the start has done.
fn tell_taken<'a, R: Print + Clock>(
    rt: &R,
    shape: ShapeOptions,
    live: &LiveArray<FusedDisk<'a>>,
    records: u64,
    began: Option<Instant>,
) -> Result<(), StoreCause> {
    check_disks(live.array().disks(), shape)?;
    let units = count_units(live.array());
    tell_start(rt, units, records, began).map_err(|_| StoreCause::Write)
}

// Prints what a start has done.
fn tell_start<R: Print + Clock>(
    rt: &R,
    units: u32,
    records: u64,
    began: Option<Instant>,
) -> io::Result<()> {
    let tenths = match began {
        Some(began) => tenths_since(rt, began),
        None => 0,
    };
    let (seconds, tenths) = (tenths / 10, tenths % 10);
    println!(rt; "recovered {units} units, {records} records, {seconds}.{tenths} s")
}

// Tenths of a second since, or 0 where the clock can't be read.
fn tenths_since<R: Clock>(rt: &R, began: Instant) -> u64 {
    match began.elapsed(rt) {
        Ok(elapsed) => elapsed
            .as_secs()
            .saturating_mul(10)
            .saturating_add(u64::from(elapsed.subsec_millis() / 100)),
        Err(_) => 0,
    }
}

/// Replaces the log of a store by a compaction. Where that fails, the log stays as it is.
pub fn compact<R: Log>(rt: &R, files: &HostRuntime, alloc: Global, folders: StoreFolders<'_>) {
    if let Err(fault) = checkpoint_in(files, alloc, folders) {
        let folder = folder_in(folders, fault.is_second);
        let cause = StoreCause::from(fault.error);
        warn!(rt; "store {folder}: {cause}");
    }
}
