//! A new journal. Both logs are on their media before the selector names one of them.
ghost use Rattle.std.specs.Prelude.{◌≡◌, ◌+◌, ◌<◌, [], ◌∷◌, OnOk, IfOk, IfErr, IsSome, IfSome, IsTrue, false};
ghost use Rattle.ar_log.specs.Failure.{is_of_medium, ReportsMedium};
ghost use Rattle.ar_log.specs.Log.{batches_len};
ghost use Rattle.ar_journal.specs.Copying.{HasCleanFiles};
ghost use Rattle.ar_journal.specs.Files.{AreClean, HaveHead, BeginsJournal, all_faults};
ghost use Rattle.ar_journal.specs.Journal.{IsReady, batches_now};

use crate::selector::{clear_selector, write_selector};
use crate::{Journal, JournalFiles};
use ar_log::{Log, LogError, write_head};
use ar_media::Media;
use std::alloc::Global;

/// Makes the files a journal whose two logs have this head and no batch. Returns the offset of their closed gates.
fn write_files<M: Media>(
    alloc: Global,
    files: &mut JournalFiles<M>,
    head: &[u8],
) -> Result<usize, LogError>
    ensures made { OnOk result (HaveHead M.seen M.may_leave head.now files.new) }
    ensures end { IfOk result (λ end. end ≡ 8 + batches_len ((head.now ∷ []) ∷ [])) }
    ensures any_moment { BeginsJournal M.moment M.left_since M.may_leave head.now files.old files.new }
    ensures cause { ReportsMedium (all_faults M.faults files.old) (all_faults M.faults files.new) result }
    ensures clean { AreClean M.is_clean files.new → AreClean M.is_clean files.old }
{
    clear_selector(&mut files.selector)?;
    let end = write_head(alloc, &mut files.first, head)?;
    let _second = write_head(alloc, &mut files.second, head)?;
    write_selector(&mut files.selector, false)?;
    Ok(end)
}

/// Makes the files a journal of no batch but this head, over whatever they hold. Both logs get the head.
///
/// If the selector was empty, a crash at any moment leaves it empty, which is no journal, or leaves the new journal. An
/// error returns the files.
pub fn create<M: Media>(
    alloc: Global,
    files: JournalFiles<M>,
    head: &[u8],
) -> Result<Journal<M>, (LogError, JournalFiles<M>)>
    ensures ready { IfOk result (λ journal. IsReady M.seen M.may_leave M.is_clean journal) }
    ensures batches { IfOk result (λ journal. batches_now M.seen journal ≡ (head.now ∷ []) ∷ []) }
    ensures open { IfOk result (λ journal. journal.active.is_closed ≡ false) }

    ensures spare { IfOk result (λ journal. IsSome journal.spare) }

    ensures any_moment { IfOk result (λ journal. IfSome journal.spare (λ spare.
        BeginsJournal M.moment M.left_since M.may_leave head.now files
        (record { selector = journal.selector; first = journal.active.media; second = spare }))) }
    ensures any_moment_err { IfErr result (λ e. BeginsJournal M.moment M.left_since M.may_leave head.now files e.1) }
    ensures cause { IfErr result (λ e. IsTrue (is_of_medium e.0)
        → all_faults M.faults files < all_faults M.faults e.1) }
    ensures clean { IfOk result (λ journal. HasCleanFiles M.is_clean journal → AreClean M.is_clean files) }
    ensures clean_err { IfErr result (λ e. AreClean M.is_clean e.1 → AreClean M.is_clean files) }
{
    let mut files = files;
    match write_files(alloc, &mut files, head) {
        Err(error) => Err((error, files)),
        Ok(end) => Ok(Journal {
            selector: files.selector,
            active: Log {
                media: files.first,
                end,
                number: 1,
                is_closed: false,
            },
            spare: Some(files.second),
            is_second: false,
        }),
    }
}
