//! What an open journal holds, read while it is open for appends.
ghost use Rattle.std.specs.Prelude.{◌≡◌, ◌+◌, ◌<◌, ◌^◌, length, IfOk, IfErr, IfSome, IfNone, IsTrue, true, false};
ghost use Rattle.ar_log.specs.Codec.{items_of};
ghost use Rattle.ar_log.specs.Failure.{is_damage, ReportsMedium};
ghost use Rattle.ar_log.specs.Log.{HoldsBatches};
ghost use Rattle.ar_journal.specs.Copying.{AreOf};
ghost use Rattle.ar_journal.specs.Journal.{IsReady, IsClean, batches_now, LeavesJournal, ReadsLog, IsAfter, ReadsNext};

use crate::{Journal, JournalFiles};
use ar_log::{LogError, Place, ReadBatch, next_batch};
use ar_media::Media;
use std::alloc::Global;

/// The place of the first batch of a log, its head.
pub fn first_place() -> Place
    ensures { (result.at ≡ 8) × (result.number ≡ 0) }
{
    Place {
        at: 8,
        left: 0,
        number: 0,
    }
}

/// The same place in a log of `len` bytes.
fn within(place: Place, len: usize) -> Option<Place>
    ensures same { IfSome result (λ now. (now.at ≡ place.at) × (now.number ≡ place.number)) }
    ensures rest { IfSome result (λ now. now.at + now.left ≡ len) }
    ensures inside { IfNone result (len < place.at) }
{
    let left = len.checked_sub(place.at)?;
    Some(Place {
        at: place.at,
        left,
        number: place.number,
    })
}

impl<M: Media> Journal<M> {
    /// The files of the journal. While its spare is out, the journal is returned.
    pub fn into_files(self) -> Result<JournalFiles<M>, Journal<M>>
        ensures files { IfOk result (λ files. AreOf self files) }
        ensures back { IfErr result (λ journal. journal ≡ self) }
    {
        let Journal {
            selector,
            active,
            spare,
            is_second,
        } = self;
        let Some(spare) = spare else {
            return Err(Journal {
                selector,
                active,
                spare: None,
                is_second,
            });
        };
        let (first, second) = if is_second {
            (spare, active.media)
        } else {
            (active.media, spare)
        };
        Ok(JournalFiles {
            selector,
            first,
            second,
        })
    }

    /// Whether a failure has closed the journal permanently.
    pub fn is_closed(&self) -> bool
        ensures { result ≡ self.now.active.is_closed }
    {
        self.active.is_closed
    }

    /// How many batches there are, the head's among them.
    pub fn number(&self) -> u64
        ensures { result ≡ self.now.active.number }
    {
        self.active.number
    }

    /// The length of the active log in bytes, with its closed gate.
    pub fn len(&self) -> usize
        ensures { self.now.active.end + 2 < 2 ^ 64 → result ≡ self.now.active.end + 2 }
    {
        self.active.end.saturating_add(2)
    }

    /// Reads the batch at a place, while appends go on. `None` after the last one. A place is that of `first_place`,
    /// or the one after a batch that was read of the same log.
    pub fn read_at_place(
        &mut self,
        alloc: Global,
        place: Place,
    ) -> Result<Option<ReadBatch>, LogError>
        requires ready { IsReady M.seen M.may_leave M.is_clean self.old }
        requires place { IsTrue (M.is_clean self.old.active.media) → IsAfter (batches_now M.seen self.old) place }

        ensures batch { IfOk result (λ r. IfSome r (λ read. IsTrue (M.is_clean self.new.active.media)
            → ReadsNext (batches_now M.seen self.old) (items_of read.records.items) place read.next)) }
        ensures last { IfOk result (λ r. IfNone r (IsTrue (M.is_clean self.new.active.media)
            → place.number ≡ length (batches_now M.seen self.old))) }
        ensures progress { IfOk result (λ r. IfSome r (λ read. place.at < read.next.at)) }
        ensures sound { IfErr result (λ e. is_damage e ≡ true → IsTrue (M.is_clean self.new.active.media) → ⊥) }

        ensures ready { IsReady M.seen M.may_leave M.is_clean self.new }
        ensures reads { ReadsLog M.seen M.may_leave M.moment M.left_since M.is_clean self.old self.new }
        ensures any_moment { self.old.active.is_closed ≡ false → IsClean M.is_clean self.new
            → LeavesJournal M.moment M.left_since self.old self.new (HoldsBatches (batches_now M.seen self.old)) }
        ensures cause { ReportsMedium (M.faults self.old.active.media) (M.faults self.new.active.media) result }
    {
        if self.active.is_closed {
            return Err(LogError::Closed);
        }
        let len = match self.active.media.len() {
            Err(error) => return Err(LogError::Refused(error)),
            Ok(len) => len,
        };
        match within(place, len) {
            None => Err(LogError::Damaged { offset: place.at }),
            Some(place) => next_batch(alloc, &mut self.active.media, place),
        }
    }
}
