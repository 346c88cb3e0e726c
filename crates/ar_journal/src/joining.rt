//! A second copy of a journal that is in use. A copy joins the spare, on which a successor is written then, in both
//! copies. Once that is the active log, a copy of the selector names it, and joins the selector: from then on both
//! copies are journals by themselves. Until then the new one has an empty selector, and is none.
ghost use Rattle.std.specs.Prelude.{◌≡◌, [], IfSome, OnErr, OnOk, IsTrue};
ghost use Rattle.ar_media.specs.Media.{Only};
ghost use Rattle.ar_journal.specs.Journal.{IsReady};
ghost use Rattle.ar_journal.specs.Joins.{IsNamedCopy, KeepsJournal, SpareStaysClean};

use crate::Journal;
use crate::selector::write_selector;
use ar_copies::CopiedMedia;
use ar_log::LogError;
use ar_media::{Media, MediaError};

// Empties a file and a copy, which joins it.
fn join_empty<F: Media + Drop, M: CopiedMedia<F>>(file: &mut M, copy: F) -> Result<(), MediaError>
    ensures empty { OnOk result (M.seen file.new ≡ []) }
    ensures durable { OnOk result (Only [] (M.may_leave file.new)) }
    ensures clean { IsTrue (M.is_clean file.new) → IsTrue (M.is_clean file.old) }
{
    let mut copy = copy;
    copy.cut(0)?;
    copy.sync()?;
    file.cut(0)?;
    file.sync()?;
    file.join(copy)
}

impl<M: Media> Journal<M> {
    /// Syncs the selector and the active log, so that a copy that is lost is given up in each. A sync of the log that
    /// fails closes the journal.
    pub fn settle(&mut self) -> Result<(), LogError>
        ensures { KeepsJournal M.seen M.may_leave M.moment M.left_since M.is_clean self.old self.new }
    {
        if let Err(error) = self.selector.sync() {
            return Err(LogError::Failed(error));
        }
        if let Err(error) = self.active.media.sync() {
            self.active.is_closed = true;
            return Err(LogError::Failed(error));
        }
        Ok(())
    }
}

impl<M: Media + Drop> Journal<M> {
    /// Joins a copy to the spare. Both are emptied. `Closed` while the spare is out, and of a closed journal. The other
    /// files aren't touched.
    pub fn join_spare<F: Media + Drop>(&mut self, copy: F) -> Result<(), LogError>
    where
        M: CopiedMedia<F>,
        ensures others { self.new ≡ record self.old { spare = self.new.spare } }
        ensures clean { SpareStaysClean M.is_clean self.old.spare self.new.spare }
        ensures ready { IsReady M.seen M.may_leave M.is_clean self.old
            → IsReady M.seen M.may_leave M.is_clean self.new }
        ensures empty { OnOk result (IfSome self.new.spare (λ spare.
            (M.seen spare ≡ []) × Only [] (M.may_leave spare))) }
    {
        let Some(spare) = self.take_spare() else {
            return Err(LogError::Closed);
        };
        let mut spare = spare;
        let joined = join_empty(&mut spare, copy);
        self.return_spare(spare);
        match joined {
            Ok(()) => Ok(()),
            Err(error) => Err(LogError::Refused(error)),
        }
    }

    /// Names the active log in a copy of the selector, which then joins the selector. An error changes nothing.
    pub fn join_selector<F: Media + Drop>(&mut self, copy: F) -> Result<(), LogError>
    where
        M: CopiedMedia<F>,
        ensures keeps { KeepsJournal M.seen M.may_leave M.moment M.left_since M.is_clean self.old self.new }
        ensures others { self.new ≡ record self.old { selector = self.new.selector } }
        // What a crash leaves of the copy alone names the log.
        ensures copy { OnOk result (IsNamedCopy M.has_copy M.copy_leaves self.new.is_second self.new.selector) }
        ensures refused { OnErr result (self.new ≡ self.old) }
    {
        let mut copy = copy;
        write_selector(&mut copy, self.is_second)?;
        match self.selector.join(copy) {
            Ok(()) => Ok(()),
            Err(error) => Err(LogError::Refused(error)),
        }
    }
}
