//! A write that is on the medium when it returns.
ghost use Rattle.std.specs.Prelude.{◌≡◌, ◌≤◌, length, OnOk, IfErr, IsTrue, true, false};
ghost use Rattle.ar_media.specs.Media.{Overwritten, Only};
ghost use Rattle.ar_log.specs.Failure.{is_final, ReportsMedium};
ghost use Rattle.ar_log.specs.Write.{TearsOnly, WriteFails};

use crate::LogError;
use ar_media::Media;

/// Writes `bytes` at `at` and syncs. Until then a crash may tear the write. `Refused` if the write failed, `Failed` if
/// the sync did.
pub fn write_synced<M: Media>(media: &mut M, at: usize, bytes: &[u8]) -> Result<(), LogError>
    ensures written { OnOk result (at ≤ length (M.seen media.old)
        → Overwritten (M.seen media.old) at bytes.now (M.seen media.new)) }
    ensures durable { OnOk result (Only (M.seen media.new) (M.may_leave media.new)) }
    ensures tears { TearsOnly M.moment M.left_since M.may_leave at (length bytes.now) media.old media.new }
    ensures error { IfErr result WriteFails }
    ensures cause { ReportsMedium (M.faults media.old) (M.faults media.new) result }
    ensures clean { M.is_clean media.new ≡ M.is_clean media.old }
{
    if let Err(error) = media.write_at(at, bytes) {
        return Err(LogError::Refused(error));
    }
    if let Err(error) = media.sync() {
        return Err(LogError::Failed(error));
    }
    Ok(())
}
