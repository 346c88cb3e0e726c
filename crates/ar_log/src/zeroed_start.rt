//! A log over zeros that begins to be written: a new one, or one that a crash may have left, after whose last whole
//! batch all is made zeros again.
ghost use Rattle.std.specs.Prelude.{◌≡◌, ◌+◌, ◌≤◌, ◌<◌, List, [], ◌++◌, length, replicate, OnOk, IfOk, IfErr, IsTrue};
ghost use Rattle.std.specs.Prelude.{true, false};
ghost use Rattle.ar_media.specs.Media.{Only, LeavesOnly};
ghost use Rattle.ar_log.specs.Codec.{Batch};
ghost use Rattle.ar_log.specs.Failure.{is_damage, is_of_medium, ReportsMedium};
ghost use Rattle.ar_log.specs.Zeroed.{zeroed_magic, zeroed_batches, HoldsZeroed, EndsAt, IsReadTo, IsZeroedTo};
ghost use Rattle.ar_log.specs.Zeroed.{IsAhead, IsStillHeld, IsBegunAhead};

use crate::write::write_synced;
use crate::zeroed::zeros;
use crate::zeroed_read::{ZEROED_MAGIC, read_medium};
use crate::{LogError, ZeroedBatches, ZeroedLog};
use ar_media::Media;
use std::alloc::{AllocError, Global};

/// The bytes of a log with no batch and this many zeros.
fn empty_log(alloc: Global, len: usize) -> Result<Vec<u8>, AllocError>
    ensures { IfOk result (λ bytes. bytes.items ≡ zeroed_magic ++ replicate len 0) }
{
    let ahead = zeros(alloc, len)?;
    let mut bytes = Vec::new(alloc);
    bytes.extend_from_slice(&ZEROED_MAGIC)?;
    bytes.extend_from_slice(&ahead)?;
    Ok(bytes)
}

/// Writes a log with no batch and `len` zeros to an empty medium. Returns its length.
fn write_empty<M: Media>(alloc: Global, media: &mut M, len: usize) -> Result<usize, LogError>
    requires { Only [] (M.may_leave media.old) }
    ensures zeroed { IfOk result (λ ahead. IsZeroedTo [] 8 ahead (M.seen media.new)) }
    ensures room { IfOk result (λ ahead. ahead ≡ 8 + len) }
    ensures durable { OnOk result (Only (M.seen media.new) (M.may_leave media.new)) }
    ensures any_moment { LeavesOnly M.moment M.left_since media.old media.new IsBegunAhead }
    ensures cause { ReportsMedium (M.faults media.old) (M.faults media.new) result }
    ensures clean { M.is_clean media.new ≡ M.is_clean media.old }
{
    let bytes = empty_log(alloc, len)?;
    write_synced(media, 0, &bytes)?;
    Ok(bytes.len())
}

/// Makes an empty medium a log with no batch and `len` zeros ahead, to which at least `step` are added at a time.
pub fn create_zeroed<M: Media>(
    alloc: Global,
    media: M,
    len: usize,
    step: usize,
) -> Result<ZeroedLog<M>, (LogError, M)>
    requires { Only [] (M.may_leave media) }

    ensures ahead { IfOk result (λ log. IsAhead M.seen M.may_leave log) }
    ensures batches { IfOk result (λ log. zeroed_batches (M.seen log.media) ≡ []) }
    ensures room { IfOk result (λ log. log.ahead ≡ log.end + len) }
    ensures open { IfOk result (λ log. log.is_closed ≡ false) }

    // A crash at any moment leaves no log, or one with no batch, if each byte is left as it was or as it is to be.
    ensures any_moment { IfOk result (λ log. LeavesOnly M.moment M.left_since media log.media IsBegunAhead) }
    ensures any_moment_err { IfErr result (λ e. LeavesOnly M.moment M.left_since media e.1 IsBegunAhead) }

    ensures cause { IfErr result (λ e. IsTrue (is_of_medium e.0) → M.faults media < M.faults e.1) }
    ensures clean { IfOk result (λ log. M.is_clean log.media ≡ M.is_clean media) }
    ensures clean_err { IfErr result (λ e. M.is_clean e.1 ≡ M.is_clean media) }
{
    let mut media = media;
    match write_empty(alloc, &mut media, len) {
        Err(error) => Err((error, media)),
        Ok(ahead) => Ok(ZeroedLog {
            media,
            end: 8,
            ahead,
            step,
            is_closed: false,
        }),
    }
}

/// Makes all after the batches that were read zeros, and syncs. It may crash too, and leaves the same batches then.
fn zero_after<M: Media>(
    alloc: Global,
    media: &mut M,
    log: ZeroedBatches,
) -> Result<ZeroedBatches, LogError>
    requires within { log.end ≤ log.ahead }
    ensures same { IfOk result (λ after. after ≡ log) }
    ensures error { IfErr result (λ e. is_damage e ≡ false) }
    ensures zeroed { OnOk result (EndsAt (M.seen media.old) log.end → log.ahead ≡ length (M.seen media.old)
        → IsZeroedTo (zeroed_batches (M.seen media.old)) log.end log.ahead (M.seen media.new)) }
    ensures durable { OnOk result (Only (M.seen media.new) (M.may_leave media.new)) }
    ensures any_moment { EndsAt (M.seen media.old) log.end → log.ahead ≡ length (M.seen media.old)
        → Only (M.seen media.old) (M.may_leave media.old)
        → LeavesOnly M.moment M.left_since media.old media.new (IsStillHeld (M.seen media.old)) }
    ensures cause { ReportsMedium (M.faults media.old) (M.faults media.new) result }
    ensures clean { M.is_clean media.new ≡ M.is_clean media.old }
{
    let rest = zeros(alloc, log.ahead - log.end)?;
    write_synced(media, log.end, &rest)?;
    Ok(log)
}

/// Reads a log that a crash may have left, and makes all after its last whole batch zeros. It may crash too, at any
/// moment, and then leaves the same batches. A medium that is damaged or holds no log is not written.
pub fn recover_zeroed<M: Media>(alloc: Global, media: &mut M) -> Result<ZeroedBatches, LogError>
    // After a restart, what is read is what is on the medium.
    requires { Only (M.seen media.old) (M.may_leave media.old) }

    ensures whole { IfOk result (λ log. IsTrue (M.is_clean media.new)
        → IsReadTo (M.seen media.old) log.batches.items log.end) }
    ensures zeroed { IfOk result (λ log. IsTrue (M.is_clean media.new)
        → IsZeroedTo (zeroed_batches (M.seen media.old)) log.end log.ahead (M.seen media.new)) }
    ensures durable { OnOk result (Only (M.seen media.new) (M.may_leave media.new)) }
    ensures damaged { IfErr result (λ e. is_damage e ≡ true → IsTrue (M.is_clean media.new)
        → (batches : List Batch) → HoldsZeroed batches (M.seen media.old) → ⊥) }

    // A crash at any moment leaves the same batches, if each byte is left as it was or as it is to be.
    ensures any_moment { IsTrue (M.is_clean media.new)
        → HoldsZeroed (zeroed_batches (M.seen media.old)) (M.seen media.old)
        → LeavesOnly M.moment M.left_since media.old media.new (IsStillHeld (M.seen media.old)) }

    ensures cause { ReportsMedium (M.faults media.old) (M.faults media.new) result }
{
    match read_medium(alloc, media) {
        Err(error) => Err(error),
        Ok(log) => zero_after(alloc, media, log),
    }
}

/// The log whose batches end at `end`, on a medium that has zeros from there up to its length, `ahead`.
pub fn resume_zeroed<M: Media>(media: M, end: usize, ahead: usize, step: usize) -> ZeroedLog<M>
    ensures media { result.media ≡ media }
    ensures open { result.is_closed ≡ false }
    ensures ahead { (batches : List Batch) → IsZeroedTo batches end ahead (M.seen media)
        → Only (M.seen media) (M.may_leave media) → IsAhead M.seen M.may_leave result }
    ensures batches { (batches : List Batch) → IsZeroedTo batches end ahead (M.seen media)
        → zeroed_batches (M.seen media) ≡ batches }
{
    ZeroedLog {
        media,
        end,
        ahead,
        step,
        is_closed: false,
    }
}
