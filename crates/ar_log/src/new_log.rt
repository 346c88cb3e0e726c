//! A new log. Zeros are on the medium over the magic of what it held before the head is written, and the new magic is
//! written last, so that what a crash leaves between is no log.
ghost use Rattle.std.specs.Prelude.{◌≡◌, ◌+◌, ◌<◌, ◌^◌, [], ◌∷◌, ◌++◌, length, vec_len, OnOk, IfOk};
ghost use Rattle.ar_media.specs.Media.{Only, LeavesOnly};
ghost use Rattle.ar_log.specs.Codec.{encoded, framed, sealed};
ghost use Rattle.ar_log.specs.Failure.{ReportsMedium};
ghost use Rattle.ar_log.specs.Log.{HoldsBatches, batches_len, IsBegun};

use crate::codec::{number_bytes, seal};
use crate::write::write_synced;
use crate::{Log, LogError};
use ar_media::Media;
use std::alloc::{AllocError, Global};

/// The first bytes of a log: its name and its version.
pub const MAGIC: [u8; 8] = [65, 82, 76, 79, 71, 0, 0, 1];

/// What is in their place until the rest of a log is on the medium.
const NO_MAGIC: [u8; 8] = [0; 8];

/// The bytes of a log with this head and no batch, after its magic.
fn first_bytes(alloc: Global, head: &[u8]) -> Result<Vec<u8>, AllocError>
    ensures bytes { IfOk result (λ bytes. bytes.items ≡ 255 ∷ 255 ∷ (sealed 0 (framed head.now) ++ 0 ∷ 0 ∷ [])) }
    ensures fits { IfOk result (λ _. length (framed head.now) < 2 ^ 64) }
{
    let mut payload = Vec::new(alloc);
    payload.extend_from_slice(&number_bytes(head.len() as u64))?;
    payload.extend_from_slice(head)?;
    let first = seal(alloc, 0, &payload)?;
    let mut bytes = Vec::new(alloc);
    bytes.extend_from_slice(&[255, 255])?;
    bytes.extend_from_slice(&first)?;
    Ok(bytes)
}

/// Makes the medium a log with this head and no batch, over whatever it holds. Returns the offset of its closed gate.
pub fn write_head<M: Media>(alloc: Global, media: &mut M, head: &[u8]) -> Result<usize, LogError>
    ensures stands { OnOk result (HoldsBatches ((head.now ∷ []) ∷ []) (M.seen media.new)) }
    ensures durable { OnOk result (Only (M.seen media.new) (M.may_leave media.new)) }
    ensures end { IfOk result (λ end. end ≡ 8 + batches_len ((head.now ∷ []) ∷ [])) }

    // A crash at any moment leaves no log, or the new one, but for batches that were after the first eight bytes.
    ensures any_moment { LeavesOnly M.moment M.left_since media.old media.new
        (IsBegun head.now (M.may_leave media.old)) }

    ensures cause { ReportsMedium (M.faults media.old) (M.faults media.new) result }
    ensures clean { M.is_clean media.new ≡ M.is_clean media.old }
{
    let bytes = first_bytes(alloc, head)?;
    write_synced(media, 0, &NO_MAGIC)?;
    write_synced(media, 8, &bytes)?;
    write_synced(media, 0, &MAGIC)?;
    Ok(bytes.len() + 6)
}
