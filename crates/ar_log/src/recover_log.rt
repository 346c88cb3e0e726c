//! A whole log at once: all of its batches, and what a crash tore cut off.
ghost use Rattle.std.specs.Prelude.{◌≡◌, ◌+◌, length, OnOk, IfOk, IfErr, IsTrue};
ghost use Rattle.ar_media.specs.Media.{Only, LeavesOnly};
ghost use Rattle.ar_log.specs.Failure.{ReportsMedium};
ghost use Rattle.ar_log.specs.Log.{HoldsBatches, batches_len, batches_of};
ghost use Rattle.ar_log.specs.Reading.{OnlyReads, all_items, IsWholeLog};

use crate::{LogError, Place, cut_torn, next_batch, open};
use ar_media::Media;
use std::alloc::Global;

/// What a log holds.
#[derive(Drop)]
pub struct WholeLog {
    /// Its batches, the head's first.
    pub batches: Vec<Vec<Vec<u8>>>,
    /// The closed gate after them.
    pub end: Place,
}

/// Reads all batches of a log.
fn read_all<M: Media>(alloc: Global, media: &mut M) -> Result<WholeLog, LogError>
    ensures whole { IfOk result (λ log. IsTrue (M.is_clean media.new)
        → IsWholeLog (M.seen media.old) log.batches.items log.end) }
    ensures reads { OnlyReads M.seen M.may_leave M.moment M.left_since M.is_clean media.old media.new }
    ensures cause { ReportsMedium (M.faults media.old) (M.faults media.new) result }
{
    let mut batches = Vec::new(alloc);
    let mut place = match open(alloc, media) {
        Err(error) => return Err(error),
        Ok(place) => place,
    };
    'reading: loop {
        match next_batch(alloc, media, place) {
            Err(error) => return Err(error),
            Ok(None) => return Ok(WholeLog {
                batches,
                end: place,
            }),
            Ok(Some(read)) => {
                batches.push(read.records)?;
                place = read.next;
            }
        }
    }
}

/// Reads a log that a crash may have left, and cuts off what it tore. It may crash too, at any moment, and then leaves
/// the same batches. A medium that is damaged or holds no log is not written.
pub fn recover<M: Media>(alloc: Global, media: &mut M) -> Result<WholeLog, LogError>
    // After a restart, what is read is what is on the medium.
    requires { Only (M.seen media.old) (M.may_leave media.old) }

    ensures whole { IfOk result (λ log. IsTrue (M.is_clean media.new)
        → IsWholeLog (M.seen media.old) log.batches.items log.end) }
    ensures durable { OnOk result (Only (M.seen media.new) (M.may_leave media.new)) }

    // A crash at any moment leaves the same batches.
    ensures any_moment { IsTrue (M.is_clean media.new)
        → HoldsBatches (batches_of (M.seen media.old)) (M.seen media.old)
        → LeavesOnly M.moment M.left_since media.old media.new (HoldsBatches (batches_of (M.seen media.old))) }

    ensures cause { ReportsMedium (M.faults media.old) (M.faults media.new) result }
{
    let log = match read_all(alloc, media) {
        Err(error) => return Err(error),
        Ok(log) => log,
    };
    match cut_torn(media, log.end) {
        Err(error) => Err(error),
        Ok(()) => Ok(log),
    }
}
