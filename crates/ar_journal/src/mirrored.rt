//! Two copies of a journal. A batch is acknowledged when each copy that isn't given up has it, so that one copy may be
//! lost at any time. A copy that fails is given up, and the other goes on alone.
//!
//! A copy that was given up never has a batch that the other hasn't: where one may be on a copy that failed, and the
//! other has not taken it, both are closed.
ghost use Rattle.std.specs.Prelude.{◌≡◌, ◌⊎◌, ◌≤◌, ◌++◌, ◌&&◌, ◌||◌, List, [], ◌∷◌, OnOk, IfErr, true, false};
ghost use Rattle.ar_log.specs.Codec.{Batch, items_of};
ghost use Rattle.ar_log.specs.Failure.{is_final, final_of, ReportsMedium};
ghost use Rattle.ar_log.specs.Log.{IsBeforeOrAfter};
ghost use Rattle.ar_journal.specs.Journal.{IsReady};
ghost use Rattle.ar_journal.specs.Mirror.{is_of_caller, IsMirrored, IsSound, HasBatches, EachLeaves, GoesOn};
ghost use Rattle.ar_journal.specs.Mirror.{closed_copy, StaysOrCloses, LeavesCopy, CopyHas, StaysGivenUp, mirror_faults};

use crate::Journal;
use ar_log::LogError;
use ar_media::Media;
use std::alloc::Global;

/// A journal in two copies. One that is closed is given up.
#[derive(Drop)]
pub struct MirroredJournal<M: Media> {
    pub first: Journal<M>,
    pub second: Journal<M>,
    /// Why the first copy was given up.
    pub first_cause: Option<LogError>,
    /// Why the second copy was given up.
    pub second_cause: Option<LogError>,
}

/// Whether an error is no medium's own.
fn is_of_caller(error: &LogError) -> bool
    ensures { result ≡ is_of_caller error.now }
{
    matches!(error, LogError::Memory | LogError::TooLong)
}

impl<M: Media> MirroredJournal<M> {
    /// Whether no copy takes batches any more.
    pub fn is_closed(&self) -> bool
        ensures { result ≡ (self.now.first.active.is_closed && self.now.second.active.is_closed) }
    {
        self.first.active.is_closed && self.second.active.is_closed
    }

    /// Whether a copy is given up.
    pub fn is_degraded(&self) -> bool
        ensures { result ≡ (self.now.first.active.is_closed || self.now.second.active.is_closed) }
    {
        self.first.active.is_closed || self.second.active.is_closed
    }

    /// Appends a batch. At `Ok` it is acknowledged: each copy that isn't given up has it, and after every crash too.
    ///
    /// `Memory`, `TooLong` and `Refused` leave the copies as they were. `Failed` closes both, each with the batch or
    /// without.
    pub fn append(&mut self, alloc: Global, records: &[Vec<u8>]) -> Result<(), LogError>
        requires { IsMirrored M.seen M.may_leave M.is_clean self.old }

        ensures acknowledged { OnOk result (GoesOn self.new × ((batches : List Batch) → IsSound M.is_clean self.old
            → HasBatches M.seen batches self.old
            → HasBatches M.seen (batches ++ items_of records.now ∷ []) self.new)) }

        // A crash at any moment of the call leaves of each copy the batches from before it, with the new one or
        // without.
        ensures any_moment { (batches : List Batch) → IsSound M.is_clean self.old → HasBatches M.seen batches self.old
            → EachLeaves M.moment M.left_since self.old self.new (IsBeforeOrAfter batches (items_of records.now)) }

        ensures kept { IfErr result (λ e. is_final e ≡ false → (batches : List Batch) → IsSound M.is_clean self.old
            → HasBatches M.seen batches self.old → HasBatches M.seen batches self.new) }
        ensures closes { IfErr result (λ e. is_final e ≡ true → GoesOn self.new → ⊥) }
        ensures ready { IsMirrored M.seen M.may_leave M.is_clean self.new }
        ensures given_up { StaysGivenUp self.old self.new }
        ensures cause { ReportsMedium (mirror_faults M.faults self.old) (mirror_faults M.faults self.new) result }
    {
        if self.second.active.is_closed {
            return self.first.append(alloc, records);
        }
        if self.first.active.is_closed {
            return self.second.append(alloc, records);
        }
        self.append_both(alloc, records)
    }

    /// Appends a batch to both copies, of which one may be given up.
    fn append_both(&mut self, alloc: Global, records: &[Vec<u8>]) -> Result<(), LogError>
        requires mirrored { IsMirrored M.seen M.may_leave M.is_clean self.old }
        requires first { self.old.first.active.is_closed ≡ false }
        requires second { self.old.second.active.is_closed ≡ false }

        ensures taken { OnOk result (GoesOn self.new
            × CopyHas M.seen M.is_clean (items_of records.now ∷ []) self.old.first self.new.first
            × CopyHas M.seen M.is_clean (items_of records.now ∷ []) self.old.second self.new.second) }
        ensures kept { IfErr result (λ e. is_final e ≡ false
            → CopyHas M.seen M.is_clean [] self.old.first self.new.first
            × CopyHas M.seen M.is_clean [] self.old.second self.new.second) }
        ensures first_moment { LeavesCopy M.seen M.moment M.left_since M.is_clean (items_of records.now)
            self.old.first self.new.first }
        ensures second_moment { LeavesCopy M.seen M.moment M.left_since M.is_clean (items_of records.now)
            self.old.second self.new.second }
        ensures closes { IfErr result (λ e. is_final e ≡ true → GoesOn self.new → ⊥) }
        ensures ready { IsMirrored M.seen M.may_leave M.is_clean self.new }
        ensures cause { ReportsMedium (mirror_faults M.faults self.old) (mirror_faults M.faults self.new) result }
    {
        match self.first.append(alloc, records) {
            Ok(()) => {
                self.second_cause = self.second.append_or_close(alloc, records);
                Ok(())
            }
            Err(error) => {
                if is_of_caller(&error) {
                    return Err(error);
                }
                self.append_second(alloc, records, error)
            }
        }
    }

    /// Appends to the second copy a batch that the first has failed to take with this error. The first is given up,
    /// unless the second fails too and both are as they were. Where the batch may be on a medium, both are closed
    /// then.
    fn append_second(
        &mut self,
        alloc: Global,
        records: &[Vec<u8>],
        error: LogError,
    ) -> Result<(), LogError>
        requires ready { IsReady M.seen M.may_leave M.is_clean self.old.second }
        requires open { self.old.second.active.is_closed ≡ false }

        ensures taken { OnOk result ((self.new.first.active.is_closed ≡ true)
            × (self.new.second.active.is_closed ≡ false)
            × CopyHas M.seen M.is_clean (items_of records.now ∷ []) self.old.second self.new.second) }
        ensures kept { IfErr result (λ e. is_final e ≡ false
            → CopyHas M.seen M.is_clean [] self.old.second self.new.second) }
        ensures any_moment { LeavesCopy M.seen M.moment M.left_since M.is_clean (items_of records.now)
            self.old.second self.new.second }
        ensures first { StaysOrCloses self.old.first self.new.first }
        ensures closes { IfErr result (λ e. is_final e ≡ true → GoesOn self.new → ⊥) }
        ensures ready { IsReady M.seen M.may_leave M.is_clean self.new.second }
        ensures error { IfErr result (λ e. (e ≡ error) ⊎ (e ≡ final_of error)) }
        ensures later { M.faults self.old.second.active.media ≤ M.faults self.new.second.active.media }
    {
        match self.second.append(alloc, records) {
            Ok(()) => {
                self.first.close();
                self.first_cause = Some(error);
                Ok(())
            }
            Err(other) => {
                if !error.is_final() && !other.is_final() {
                    return Err(error);
                }
                self.first.close();
                self.second.close();
                Err(error.closing())
            }
        }
    }
}

impl<M: Media> Journal<M> {
    /// Gives the journal up: it takes no more batches.
    pub(crate) fn close(&mut self)
        ensures { self.new ≡ closed_copy self.old }
    {
        self.active.is_closed = true;
    }

    /// Appends a batch or, where that fails, gives the journal up and returns the cause.
    fn append_or_close(&mut self, alloc: Global, records: &[Vec<u8>]) -> Option<LogError>
        requires { IsReady M.seen M.may_leave M.is_clean self.old }

        ensures taken { CopyHas M.seen M.is_clean (items_of records.now ∷ []) self.old self.new }
        ensures any_moment { LeavesCopy M.seen M.moment M.left_since M.is_clean (items_of records.now)
            self.old self.new }
        ensures ready { IsReady M.seen M.may_leave M.is_clean self.new }
        ensures later { M.faults self.old.active.media ≤ M.faults self.new.active.media }
    {
        match self.append(alloc, records) {
            Ok(()) => None,
            Err(error) => {
                self.close();
                Some(error)
            }
        }
    }
}
