//! A log that is written. A closed gate is on the medium after the last batch before anything is written after it.
ghost use Rattle.std.specs.Prelude.{◌≡◌, ◌+◌, ◌<◌, ◌^◌, OnOk, IfSome, IfErr, IsTrue, true, false};
ghost use Rattle.ar_media.specs.Media.{LeavesOnly};
ghost use Rattle.ar_log.specs.Codec.{items_of};
ghost use Rattle.ar_log.specs.Failure.{is_final, ReportsMedium};
ghost use Rattle.ar_log.specs.Log.{IsSynced, Appends, KeepsBatches, IsBeforeOrAfter, batches_of};
ghost use Rattle.ar_log.specs.declared.error.LogError.TheVariants.{Closed};

use crate::LogError;
use crate::codec::sealed_batch;
use crate::write::write_synced;
use ar_media::Media;
use std::alloc::Global;

const OPEN: [u8; 2] = [255, 255];

/// A log on a medium.
#[derive(Drop)]
pub struct Log<M: Media> {
    pub media: M,
    /// The offset of the closed gate after the last batch.
    pub end: usize,
    /// How many batches there are, the head's among them.
    pub number: u64,
    /// Whether a failure has closed the log permanently.
    pub is_closed: bool,
}

/// The offset of the gate after a batch of `len` bytes, and its number.
fn next_place(end: usize, number: u64, len: usize) -> Option<(usize, u64)>
    ensures { IfSome result (λ next. (next.0 ≡ end + len) × (next.1 ≡ number + 1) × (end + len < 2 ^ 64)) }
{
    Some((end.checked_add(len)?, number.checked_add(1)?))
}

impl<M: Media> Log<M> {
    /// Appends a batch. At `Ok` it is acknowledged: from then on every crash leaves a medium that has it.
    ///
    /// `Memory`, `TooLong` and `Refused` leave the log as it was. `Failed` closes it permanently, with the batch or
    /// without.
    pub fn append(&mut self, alloc: Global, records: &[Vec<u8>]) -> Result<(), LogError>
        requires { self.old.is_closed ≡ false → IsTrue (M.is_clean self.old.media)
            → IsSynced M.seen M.may_leave self.old }

        ensures acknowledged { OnOk result (IsTrue (M.is_clean self.old.media)
            → Appends M.seen M.may_leave (items_of records.now) self.old self.new) }

        // A crash at any moment of the call leaves the batches from before it, with the new one or without.
        ensures any_moment { self.old.is_closed ≡ false → IsTrue (M.is_clean self.old.media)
            → LeavesOnly M.moment M.left_since self.old.media self.new.media
            (IsBeforeOrAfter (batches_of (M.seen self.old.media)) (items_of records.now)) }

        ensures kept { IfErr result (λ e. is_final e ≡ false → self.old.is_closed ≡ false
            → IsTrue (M.is_clean self.old.media) → KeepsBatches M.seen M.may_leave self.old self.new) }
        ensures closed { self.old.is_closed ≡ true → (result ≡ Err Closed) × (self.new ≡ self.old) }
        ensures closes { IfErr result (λ e. self.old.is_closed ≡ false → self.new.is_closed ≡ is_final e) }
        ensures open { OnOk result (self.new.is_closed ≡ false) }

        // It doesn't give up by itself.
        ensures cause { ReportsMedium (M.faults self.old.media) (M.faults self.new.media) result }
        ensures clean { M.is_clean self.new.media ≡ M.is_clean self.old.media }
    {
        if self.is_closed {
            return Err(LogError::Closed);
        }
        let bytes = sealed_batch(alloc, self.number, records)?;
        let Some((end, number)) = next_place(self.end, self.number, bytes.len()) else {
            return Err(LogError::TooLong);
        };
        if let Err(error) = write_synced(&mut self.media, self.end + 2, &bytes) {
            self.is_closed = error.is_final();
            return Err(error);
        }
        if let Err(error) = write_synced(&mut self.media, self.end, &OPEN) {
            self.is_closed = true;
            return Err(error.closing());
        }
        self.end = end;
        self.number = number;
        Ok(())
    }
}
