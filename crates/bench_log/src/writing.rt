// Appending numbered records to a new log.
ghost use Rattle.std.specs.Prelude.{◌≡◌, false, IsTrue, OnOk, IfOk};
ghost use Rattle.ar_log.specs.Log.{IsSynced};
ghost use Rattle.ar_media.specs.Regular.{regular_seen, regular_may_leave};

use crate::failure::Failure;
use crate::records::batch_of;
use ar_log::{Log, LogError, create};
use ar_media::{Media, RegularFile};
use std::alloc::Global;

const HEAD: &[u8] = b"bench_log";

/// A new log on the file at `path`, over what it holds.
pub fn new_log(rt: &HostRuntime, path: &str) -> Result<Log<RegularFile>, Failure>
    ensures { IfOk result (λ log. IsSynced regular_seen regular_may_leave log) }
{
    let file = RegularFile::open(rt, path)?;
    match create(rt.alloc(), file, HEAD) {
        Ok(log) => Ok(log),
        Err((error, file)) => {
            drop(file);
            Err(Failure::Log(error))
        }
    }
}

/// Appends the record with this number and `len` further bytes.
pub fn append<M: Media>(
    alloc: Global,
    log: &mut Log<M>,
    number: u64,
    len: usize,
) -> Result<(), Failure>
    requires { log.old.is_closed ≡ false → IsTrue (M.is_clean log.old.media) → IsSynced M.seen M.may_leave log.old }
    ensures { OnOk result (log.new.is_closed ≡ false → IsTrue (M.is_clean log.new.media)
        → IsSynced M.seen M.may_leave log.new) }
{
    let batch = batch_of(alloc, number, len)?;
    log.append(alloc, &batch)?;
    Ok(())
}

/// Appends records until one is refused, and prints the number of each that was acknowledged.
pub fn append_and_tell<M: Media>(
    rt: &HostRuntime,
    alloc: Global,
    log: &mut Log<M>,
) -> Result<(), Failure>
    requires { log.old.is_closed ≡ false → IsTrue (M.is_clean log.old.media) → IsSynced M.seen M.may_leave log.old }
{
    for number in 0..u64::MAX {
        append(alloc, log, number, (number % 700) as usize)?;
        println!(rt; "{number}")?;
    }
    Ok(())
}

/// Appends `count` records of `len` further bytes.
pub fn append_all<M: Media>(
    alloc: Global,
    log: &mut Log<M>,
    count: u64,
    len: usize,
) -> Result<(), Failure>
    requires { log.old.is_closed ≡ false → IsTrue (M.is_clean log.old.media) → IsSynced M.seen M.may_leave log.old }
{
    for number in 0..count {
        append(alloc, log, number, len)?;
    }
    Ok(())
}
