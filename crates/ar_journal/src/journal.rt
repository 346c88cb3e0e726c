//! A journal that is written. Appends go to the active log, whatever becomes of the spare.
ghost use Rattle.std.specs.Prelude.{◌≡◌, OnOk, IfErr, IsTrue, false};
ghost use Rattle.ar_log.specs.Codec.{items_of};
ghost use Rattle.ar_log.specs.Failure.{is_final, ReportsMedium};
ghost use Rattle.ar_log.specs.Log.{Appends, KeepsBatches, IsBeforeOrAfter};
ghost use Rattle.ar_journal.specs.Journal.{IsReady, IsClean, batches_now, LeavesJournal, KeepsOthers, ClosesJournal};

use ar_log::{Log, LogError};
use ar_media::Media;
use std::alloc::Global;

/// A journal on its media.
#[derive(Drop)]
pub struct Journal<M: Media> {
    pub selector: M,
    /// The log that the selector names.
    pub active: Log<M>,
    /// The medium of the other log, unless a successor is written on it.
    pub spare: Option<M>,
    /// Whether the second log is the active one.
    pub is_second: bool,
}

impl<M: Media> Journal<M> {
    /// Appends a batch. At `Ok` it is acknowledged: from then on every crash leaves a journal that has it.
    ///
    /// `Memory`, `TooLong` and `Refused` leave the journal as it was. `Failed` closes it permanently, with the batch or
    /// without.
    pub fn append(&mut self, alloc: Global, records: &[Vec<u8>]) -> Result<(), LogError>
        requires { IsReady M.seen M.may_leave M.is_clean self.old }

        ensures acknowledged { OnOk result (IsTrue (M.is_clean self.old.active.media)
            → Appends M.seen M.may_leave (items_of records.now) self.old.active self.new.active) }

        // A crash at any moment of the call leaves the batches from before it, with the new one or without.
        ensures any_moment { self.old.active.is_closed ≡ false → IsClean M.is_clean self.old
            → LeavesJournal M.moment M.left_since self.old self.new
            (IsBeforeOrAfter (batches_now M.seen self.old) (items_of records.now)) }

        ensures kept { IfErr result (λ e. is_final e ≡ false → self.old.active.is_closed ≡ false
            → IsTrue (M.is_clean self.old.active.media)
            → KeepsBatches M.seen M.may_leave self.old.active self.new.active) }
        ensures ready { IsReady M.seen M.may_leave M.is_clean self.new }
        ensures others { KeepsOthers self.old self.new }
        ensures closes { ClosesJournal self.old self.new result }

        // It doesn't give up by itself.
        ensures cause { ReportsMedium (M.faults self.old.active.media) (M.faults self.new.active.media) result }
        ensures clean { M.is_clean self.new.active.media ≡ M.is_clean self.old.active.media }
    {
        self.active.append(alloc, records)
    }
}
