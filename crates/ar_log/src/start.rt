//! A log that begins to be written: a new one, or one that was read to its end.
ghost use Rattle.std.specs.Prelude.{◌≡◌, ◌≤◌, ◌<◌, ◌+◌, ℕ, List, [], ◌∷◌, length, OnOk, IfOk, IfErr, IsTrue, false};
ghost use Rattle.ar_media.specs.Media.{Only, LeavesOnly};
ghost use Rattle.ar_log.specs.Failure.{is_of_medium, ReportsMedium};
ghost use Rattle.ar_log.specs.Log.{HoldsBatches, batches_len, IsSynced, batches_of, IsBegun};

use crate::{Log, LogError, Place, write_head};
use ar_media::Media;
use std::alloc::Global;

/// Makes the medium a log with this head and no batch, over whatever it holds.
pub fn create<M: Media>(alloc: Global, media: M, head: &[u8]) -> Result<Log<M>, (LogError, M)>
    ensures settled { IfOk result (λ log. IsSynced M.seen M.may_leave log) }
    ensures batches { IfOk result (λ log. batches_of (M.seen log.media) ≡ (head.now ∷ []) ∷ []) }
    ensures open { IfOk result (λ log. log.is_closed ≡ false) }

    // A crash at any moment leaves no log, or the new one, but for batches that were after the first eight bytes.
    ensures any_moment { IfOk result (λ log. LeavesOnly M.moment M.left_since media log.media
        (IsBegun head.now (M.may_leave media))) }
    ensures any_moment_err { IfErr result (λ e. LeavesOnly M.moment M.left_since media e.1
        (IsBegun head.now (M.may_leave media))) }

    ensures cause { IfErr result (λ e. IsTrue (is_of_medium e.0) → M.faults media < M.faults e.1) }
    ensures clean { IfOk result (λ log. M.is_clean log.media ≡ M.is_clean media) }
    ensures clean_err { IfErr result (λ e. M.is_clean e.1 ≡ M.is_clean media) }
{
    let mut media = media;
    match write_head(alloc, &mut media, head) {
        Err(error) => Err((error, media)),
        Ok(end) => Ok(Log {
            media,
            end,
            number: 1,
            is_closed: false,
        }),
    }
}

/// Cuts off what is after the closed gate at `place`, and syncs. It may crash too, and leaves the same batches then.
pub fn cut_torn<M: Media>(media: &mut M, place: Place) -> Result<(), LogError>
    ensures durable { OnOk result (Only (M.seen media.new) (M.may_leave media.new)) }
    ensures any_moment { (batches : List (List (List ℕ))) → place.at ≡ 8 + batches_len batches
        → ((c : List ℕ) → M.may_leave media.old c → HoldsBatches batches c)
        → LeavesOnly M.moment M.left_since media.old media.new (HoldsBatches batches) }
    ensures cause { ReportsMedium (M.faults media.old) (M.faults media.new) result }
    ensures clean { M.is_clean media.new ≡ M.is_clean media.old }
{
    let Some(len) = place.at.checked_add(2) else {
        return Err(LogError::TooLong);
    };
    if let Err(error) = media.cut(len) {
        return Err(LogError::Refused(error));
    }
    if let Err(error) = media.sync() {
        return Err(LogError::Failed(error));
    }
    Ok(())
}

/// The log of which `place` is the closed gate after the last batch.
pub fn resume<M: Media>(media: M, place: Place) -> Log<M>
    ensures media { result.media ≡ media }
    ensures open { result.is_closed ≡ false }
    ensures settled { (batches : List (List (List ℕ))) → place.at ≡ 8 + batches_len batches
        → place.number ≡ length batches
        → ((c : List ℕ) → M.may_leave media c → HoldsBatches batches c) → IsSynced M.seen M.may_leave result }
{
    Log {
        media,
        end: place.at,
        number: place.number,
        is_closed: false,
    }
}
