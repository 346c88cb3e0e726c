//! A journal that is read at a start, one batch in memory at a time. What a crash tore is cut off before appends go on.
ghost use Rattle.std.specs.Prelude.{◌≡◌, ◌<◌, List, [], ◌∷◌, ◌++◌, if◌then◌else◌, true};
ghost use Rattle.std.specs.Prelude.{OnOk, IfOk, IfErr, IfSome, IfNone, IsTrue};
ghost use Rattle.ar_log.specs.Codec.{Batch, items_of};
ghost use Rattle.ar_log.specs.Failure.{is_damage, is_of_medium, ReportsMedium};
ghost use Rattle.ar_log.specs.Log.{HoldsBatches, batches_of};
ghost use Rattle.ar_journal.specs.Files.{AreDurable, AreRead, all_faults};
ghost use Rattle.ar_journal.specs.Journal.{IsReady, batches_now};
ghost use Rattle.ar_journal.specs.Reader.{IsReading, batches_read, ReadsFiles, ReadsActive, KeepsFiles};
ghost use Rattle.ar_journal.specs.Reader.{IsCut, LeavesRead, Resumes};

use crate::selector::read_selector;
use crate::{Journal, JournalFiles};
use ar_log::{LogError, Place, cut_torn, resume};
use ar_media::Media;
use std::alloc::Global;

/// A journal that is being read.
#[derive(Drop)]
pub struct JournalReader<M: Media> {
    pub selector: M,
    /// The medium of the log that the selector names.
    pub active: M,
    pub spare: M,
    pub is_second: bool,
    /// Behind the batches that were read.
    pub place: Place,
}

/// A reader of the log that the selector names.
fn reader_of<M: Media>(files: JournalFiles<M>, is_second: bool) -> JournalReader<M>
    ensures selector { result.selector ≡ files.selector }
    ensures active { result.active ≡ (if is_second then files.second else files.first) }
    ensures spare { result.spare ≡ (if is_second then files.first else files.second) }
    ensures which { result.is_second ≡ is_second }
{
    let place = Place {
        at: 8,
        left: 0,
        number: 0,
    };
    if is_second {
        JournalReader {
            selector: files.selector,
            active: files.second,
            spare: files.first,
            is_second,
            place,
        }
    } else {
        JournalReader {
            selector: files.selector,
            active: files.first,
            spare: files.second,
            is_second,
            place,
        }
    }
}

/// Begins to read a journal. Nothing is written.
///
/// `NotALog` where there is no journal: the selector is empty, or what it names is no log. An error returns the files.
pub fn open<M: Media>(
    alloc: Global,
    files: JournalFiles<M>,
) -> Result<JournalReader<M>, (LogError, JournalFiles<M>)>
    // After a restart, what is read is what is on the media.
    requires { AreDurable M.seen M.may_leave files }

    ensures reading { IfOk result (λ reader. IsReading M.seen M.may_leave M.is_clean reader) }
    ensures none { IfOk result (λ reader. IsTrue (M.is_clean reader.active) → batches_read M.seen reader ≡ []) }

    ensures files { IfOk result (λ reader.
        ReadsFiles M.seen M.may_leave M.moment M.left_since M.is_clean files reader) }
    ensures files_err { IfErr result (λ e.
        AreRead M.seen M.may_leave M.moment M.left_since M.is_clean files e.1) }
    ensures cause { IfErr result (λ e. IsTrue (is_of_medium e.0)
        → all_faults M.faults files < all_faults M.faults e.1) }
{
    let mut files = files;
    let is_second = match read_selector(&mut files.selector) {
        Err(error) => return Err((error, files)),
        Ok(is_second) => is_second,
    };
    let mut reader = reader_of(files, is_second);
    match ar_log::open(alloc, &mut reader.active) {
        Err(error) => Err((error, reader.into_files())),
        Ok(place) => {
            reader.place = place;
            Ok(reader)
        }
    }
}

impl<M: Media> JournalReader<M> {
    /// The files that are read.
    pub fn into_files(self) -> JournalFiles<M>
        ensures selector { result.selector ≡ self.selector }
        ensures first { result.first ≡ (if self.is_second then self.spare else self.active) }
        ensures second { result.second ≡ (if self.is_second then self.active else self.spare) }
    {
        if self.is_second {
            JournalFiles {
                selector: self.selector,
                first: self.spare,
                second: self.active,
            }
        } else {
            JournalFiles {
                selector: self.selector,
                first: self.active,
                second: self.spare,
            }
        }
    }

    /// Returns the next batch, the head's first. `None` after the last one. `Damaged` where neither a batch nor an end
    /// is, which no crash leaves.
    pub fn next_batch(&mut self, alloc: Global) -> Result<Option<Vec<Vec<u8>>>, LogError>
        requires { IsReading M.seen M.may_leave M.is_clean self.old }

        ensures batch { IfOk result (λ r. IfSome r (λ records. IsTrue (M.is_clean self.new.active)
            → batches_read M.seen self.new ≡ batches_read M.seen self.old ++ items_of records.items ∷ [])) }
        ensures last { IfOk result (λ r. IfNone r (IsTrue (M.is_clean self.new.active)
            → HoldsBatches (batches_read M.seen self.new) (M.seen self.old.active))) }
        ensures damaged { IfErr result (λ e. is_damage e ≡ true → IsTrue (M.is_clean self.new.active)
            → (batches : List Batch) → HoldsBatches batches (M.seen self.old.active) → ⊥) }
        ensures progress { IfOk result (λ r. IfSome r (λ _. self.old.place.at < self.new.place.at)) }
        ensures end { IfOk result (λ r. IfNone r (self.new.place ≡ self.old.place)) }

        ensures reading { IsReading M.seen M.may_leave M.is_clean self.new }
        ensures reads { ReadsActive M.seen M.may_leave M.moment M.left_since M.is_clean self.old self.new }
        ensures cause { ReportsMedium (M.faults self.old.active) (M.faults self.new.active) result }
    {
        match ar_log::next_batch(alloc, &mut self.active, self.place) {
            Err(error) => Err(error),
            Ok(None) => Ok(None),
            Ok(Some(read)) => {
                self.place = read.next;
                Ok(Some(read.records))
            }
        }
    }

    /// Reads what is left.
    fn read_rest(&mut self, alloc: Global) -> Result<(), LogError>
        requires { IsReading M.seen M.may_leave M.is_clean self.old }

        ensures whole { OnOk result (IsTrue (M.is_clean self.new.active)
            → HoldsBatches (batches_read M.seen self.new) (M.seen self.old.active)) }
        ensures reading { IsReading M.seen M.may_leave M.is_clean self.new }
        ensures reads { ReadsActive M.seen M.may_leave M.moment M.left_since M.is_clean self.old self.new }
        ensures cause { ReportsMedium (M.faults self.old.active) (M.faults self.new.active) result }
    {
        'reading: loop {
            match self.next_batch(alloc) {
                Err(error) => return Err(error),
                Ok(None) => return Ok(()),
                Ok(Some(records)) => drop(records),
            }
        }
    }

    /// Reads what is left, and cuts off what a crash tore after it.
    fn cut_rest(&mut self, alloc: Global) -> Result<(), LogError>
        requires { IsReading M.seen M.may_leave M.is_clean self.old }

        ensures cut { OnOk result (IsTrue (M.is_clean self.new.active)
            → IsCut M.seen M.may_leave self.old self.new) }
        ensures any_moment { IsTrue (M.is_clean self.new.active)
            → HoldsBatches (batches_of (M.seen self.old.active)) (M.seen self.old.active)
            → LeavesRead M.seen M.may_leave M.moment M.left_since M.is_clean self.old self.new.active }
        ensures others { KeepsFiles self.old self.new }
        ensures clean { IsTrue (M.is_clean self.new.active) → IsTrue (M.is_clean self.old.active) }
        ensures cause { ReportsMedium (M.faults self.old.active) (M.faults self.new.active) result }
    {
        match self.read_rest(alloc) {
            Err(error) => Err(error),
            Ok(()) => cut_torn(&mut self.active, self.place),
        }
    }

    /// Reads what is left, cuts off what a crash tore after it, and returns the journal, ready for appends. It may
    /// crash too, at any moment, and leaves the same batches then.
    pub fn finish(self, alloc: Global) -> Result<Journal<M>, (LogError, JournalReader<M>)>
        requires { IsReading M.seen M.may_leave M.is_clean self }

        ensures ready { IfOk result (λ journal. IsReady M.seen M.may_leave M.is_clean journal) }
        ensures batches { IfOk result (λ journal. IsTrue (M.is_clean journal.active.media)
            → batches_now M.seen journal ≡ batches_of (M.seen self.active)) }
        ensures clean { IfOk result (λ journal. IsTrue (M.is_clean journal.active.media)
            → IsTrue (M.is_clean self.active)) }
        ensures files { IfOk result (λ journal. Resumes self journal) }

        // A crash at any moment leaves the same batches. A medium that holds no whole log is not written.
        ensures any_moment { IfOk result (λ journal. IsTrue (M.is_clean journal.active.media)
            → LeavesRead M.seen M.may_leave M.moment M.left_since M.is_clean self journal.active.media) }
        ensures any_moment_err { IfErr result (λ e. IsTrue (M.is_clean e.1.active)
            → HoldsBatches (batches_of (M.seen self.active)) (M.seen self.active)
            → LeavesRead M.seen M.may_leave M.moment M.left_since M.is_clean self e.1.active) }
        ensures files_err { IfErr result (λ e. KeepsFiles self e.1) }
        ensures cause { IfErr result (λ e. IsTrue (is_of_medium e.0) → M.faults self.active < M.faults e.1.active) }
    {
        let mut reader = self;
        match reader.cut_rest(alloc) {
            Err(error) => Err((error, reader)),
            Ok(()) => Ok(Journal {
                selector: reader.selector,
                active: resume(reader.active, reader.place),
                spare: Some(reader.spare),
                is_second: reader.is_second,
            }),
        }
    }
}
