//! A log that is written over zeros. Zeros are on the medium from its end on, up to the medium's length, before a batch
//! is written over them and synced once: what a crash leaves of it is the whole batch, or has more zeros than the batch
//! counts.
//!
//! ```text
//! | magic, 8 | batch | batch | .. | zeros
//! ```
ghost use Rattle.std.specs.Prelude.{◌≡◌, ◌+◌, ◌≤◌, ◌<◌, ◌^◌, [], ◌∷◌, take, length, replicate};
ghost use Rattle.std.specs.Prelude.{OnOk, IfOk, IfErr, IsTrue, true, false};
ghost use Rattle.ar_media.specs.Media.{Only, LeavesOnly};
ghost use Rattle.ar_log.specs.Codec.{items_of};
ghost use Rattle.ar_log.specs.Failure.{is_final, ReportsMedium};
ghost use Rattle.ar_log.specs.Zeroed.{zeroed_batches, IsAhead, AppendsAhead, KeepsAhead, IsWithOrWithout};
ghost use Rattle.ar_log.specs.declared.error.LogError.TheVariants.{Closed};

use crate::LogError;
use crate::write::write_synced;
use crate::zeroed_codec::counted_batch;
use ar_media::Media;
use std::alloc::{AllocError, Global};

/// A log on a medium that has zeros from its end on.
#[derive(Drop)]
pub struct ZeroedLog<M: Media> {
    pub media: M,
    /// The offset after the last batch.
    pub end: usize,
    /// The length of the medium.
    pub ahead: usize,
    /// How many zeros are written at a time where those ahead don't hold a batch.
    pub step: usize,
    /// Whether a failure has closed the log permanently.
    pub is_closed: bool,
}

impl<M: Media> ZeroedLog<M> {
    /// Appends a batch, with one sync where the zeros ahead hold it. Where they don't, more are written and synced
    /// first. At `Ok` it is acknowledged: from then on every crash leaves a medium that has it.
    ///
    /// `Memory` and `TooLong` leave the log as it was. `Failed` closes it permanently, with the batch or without.
    pub fn append(&mut self, alloc: Global, records: &[Vec<u8>]) -> Result<(), LogError>
        requires { self.old.is_closed ≡ false → IsTrue (M.is_clean self.old.media)
            → IsAhead M.seen M.may_leave self.old }

        ensures acknowledged { OnOk result (IsTrue (M.is_clean self.old.media)
            → AppendsAhead M.seen M.may_leave (items_of records.now) self.old self.new) }

        // A crash at any moment of the call leaves the batches from before it, with the new one or without, if each
        // byte that is being written is left as it was or as it is to be.
        ensures any_moment { self.old.is_closed ≡ false → IsTrue (M.is_clean self.old.media)
            → LeavesOnly M.moment M.left_since self.old.media self.new.media
            (IsWithOrWithout self.old.end (zeroed_batches (M.seen self.old.media)) (items_of records.now)) }

        ensures kept { IfErr result (λ e. is_final e ≡ false → self.old.is_closed ≡ false
            → IsTrue (M.is_clean self.old.media) → KeepsAhead M.seen M.may_leave self.old self.new) }
        ensures closed { self.old.is_closed ≡ true → (result ≡ Err Closed) × (self.new ≡ self.old) }
        ensures closes { IfErr result (λ e. self.old.is_closed ≡ false → self.new.is_closed ≡ is_final e) }
        ensures open { OnOk result (self.new.is_closed ≡ false) }

        // It doesn't give up by itself.
        ensures cause { ReportsMedium (M.faults self.old.media) (M.faults self.new.media) result }
        ensures clean { M.is_clean self.new.media ≡ M.is_clean self.old.media }
    {
        if self.is_closed {
            return Err(LogError::Closed);
        }
        let bytes = counted_batch(alloc, records)?;
        let Some(end) = self.end.checked_add(bytes.len()) else {
            return Err(LogError::TooLong);
        };
        if let Err(error) = self.make_room(alloc, end) {
            return Err(error);
        }
        if let Err(error) = write_synced(&mut self.media, self.end, &bytes) {
            self.is_closed = true;
            return Err(error.closing());
        }
        self.end = end;
        Ok(())
    }

    /// Writes zeros ahead, and syncs, where there are none up to `end`.
    fn make_room(&mut self, alloc: Global, end: usize) -> Result<(), LogError>
        ensures ahead { OnOk result (IsAhead M.seen M.may_leave self.old → IsAhead M.seen M.may_leave self.new) }
        ensures room { OnOk result (end ≤ self.new.ahead) }
        ensures batches { OnOk result (IsAhead M.seen M.may_leave self.old
            → zeroed_batches (M.seen self.new.media) ≡ zeroed_batches (M.seen self.old.media)) }
        ensures end { self.new.end ≡ self.old.end }
        ensures is_open { OnOk result (self.new.is_closed ≡ self.old.is_closed) }
        ensures any_moment { IsAhead M.seen M.may_leave self.old
            → LeavesOnly M.moment M.left_since self.old.media self.new.media
            (λ c. take self.old.end c ≡ take self.old.end (M.seen self.old.media)) }
        ensures kept { IfErr result (λ e. is_final e ≡ false → IsAhead M.seen M.may_leave self.old
            → KeepsAhead M.seen M.may_leave self.old self.new) }
        ensures closes { IfErr result (λ e. self.old.is_closed ≡ false → self.new.is_closed ≡ is_final e) }
        ensures cause { ReportsMedium (M.faults self.old.media) (M.faults self.new.media) result }
        ensures clean { M.is_clean self.new.media ≡ M.is_clean self.old.media }
    {
        if end <= self.ahead {
            return Ok(());
        }
        let len = (end - self.ahead).max(self.step);
        let Some(ahead) = self.ahead.checked_add(len) else {
            return Err(LogError::TooLong);
        };
        let zeros = zeros(alloc, len)?;
        if let Err(error) = write_synced(&mut self.media, self.ahead, &zeros) {
            self.is_closed = true;
            return Err(error.closing());
        }
        self.ahead = ahead;
        Ok(())
    }
}

/// This many zeros.
pub fn zeros(alloc: Global, len: usize) -> Result<Vec<u8>, AllocError>
    ensures { IfOk result (λ bytes. bytes.items ≡ replicate len 0) }
{
    let mut bytes = Vec::new(alloc);
    bytes.resize(len, 0)?;
    Ok(bytes)
}
