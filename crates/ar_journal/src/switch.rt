//! A successor of the active log. It is written on the spare, and one byte makes it the active one.
ghost use Rattle.std.specs.Prelude.{◌≡◌, ◌<◌, OnOk, IfErr, IsTrue, false};
ghost use Rattle.ar_log.specs.Failure.{is_of_medium};
ghost use Rattle.ar_log.specs.Log.{IsSynced};
ghost use Rattle.ar_journal.specs.Journal.{IsReady};
ghost use Rattle.ar_journal.specs.Switch.{Switches, HandsBack, LeavesEither, TakesSpare};

use crate::Journal;
use crate::selector::write_selector;
use ar_log::{Log, LogError};
use ar_media::Media;
use std::mem;

impl<M: Media + Drop> Journal<M> {
    /// Returns the spare, on which a successor is then written while the journal is in use: it counts for nothing.
    /// `None` while it is out, and of a closed journal, whose selector may name it.
    pub fn take_spare(&mut self) -> Option<M>
        ensures { TakesSpare self.old self.new result }
    {
        if self.active.is_closed {
            return None;
        }
        self.spare.take()
    }

    /// Takes back the medium of a successor that is given up.
    pub fn return_spare(&mut self, spare: M)
        ensures { self.new ≡ record self.old { spare = Some spare } }
    {
        self.spare = Some(spare);
    }

    /// Makes a log that was written on the spare the active one, by one byte and one sync. The old log's medium is the
    /// spare then. An error returns the successor. One that is final closes the journal permanently, and the successor
    /// must not be written any more: a new start finds either of the two.
    pub fn switch(&mut self, successor: Log<M>) -> Result<(), (LogError, Log<M>)>
        requires ready { IsReady M.seen M.may_leave M.is_clean self.old }
        requires successor { successor.is_closed ≡ false → IsTrue (M.is_clean successor.media)
            → IsSynced M.seen M.may_leave successor }

        ensures acknowledged { OnOk result (Switches self.old successor self.new) }

        // A crash at any moment of the call leaves the old log's batches or the successor's. The call writes the
        // selector alone, so that what a crash leaves of the logs is what it might have left before.
        ensures any_moment { self.old.active.is_closed ≡ false → successor.is_closed ≡ false
            → LeavesEither M.seen M.may_leave M.moment M.left_since M.is_clean self.old successor self.new }

        ensures ready { IsReady M.seen M.may_leave M.is_clean self.new }
        ensures kept { IfErr result (λ e. HandsBack self.old successor self.new e.0 e.1) }
        ensures cause { IfErr result (λ e. IsTrue (is_of_medium e.0)
            → M.faults self.old.selector < M.faults self.new.selector) }
        ensures clean { M.is_clean self.new.selector ≡ M.is_clean self.old.selector }
    {
        if self.active.is_closed || successor.is_closed {
            return Err((LogError::Closed, successor));
        }
        let is_second = !self.is_second;
        if let Err(error) = write_selector(&mut self.selector, is_second) {
            self.active.is_closed = true;
            return Err((error.closing(), successor));
        }
        let old = mem::replace(&mut self.active, successor);
        self.spare = Some(old.media);
        self.is_second = is_second;
        Ok(())
    }
}
