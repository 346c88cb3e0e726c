//! The selector. Its first byte names the active log, and an empty one names none.
ghost use Rattle.std.specs.Prelude.{◌≡◌, List, ℕ, [], OnOk, IfOk, IfErr, IsTrue};
ghost use Rattle.ar_media.specs.Media.{Only, LeavesOnly};
ghost use Rattle.ar_log.specs.Failure.{ReportsMedium};
ghost use Rattle.ar_log.specs.Reading.{OnlyReads};
ghost use Rattle.ar_log.specs.Write.{TearsOnly, WriteFails};
ghost use Rattle.ar_journal.specs.Journal.{is_odd, Names};

use ar_log::{LogError, write_synced};
use ar_media::Media;

/// Whether a byte names the second log.
fn is_odd(byte: u8) -> bool
    ensures { result ≡ is_odd byte }
{
    byte % 2 == 1
}

/// A byte that names a log.
fn byte_of(is_second: bool) -> u8
    ensures { is_odd result ≡ is_second }
{
    if is_second { 1 } else { 0 }
}

/// Whether the selector names the second log. `NotALog` if it is empty.
pub fn read_selector<M: Media>(selector: &mut M) -> Result<bool, LogError>
    ensures named { IfOk result (λ is_second. IsTrue (M.is_clean selector.new)
        → Names is_second (M.seen selector.old)) }
    ensures reads { OnlyReads M.seen M.may_leave M.moment M.left_since M.is_clean selector.old selector.new }
    ensures cause { ReportsMedium (M.faults selector.old) (M.faults selector.new) result }
{
    match selector.len() {
        Err(error) => return Err(LogError::Refused(error)),
        Ok(0) => return Err(LogError::NotALog),
        Ok(_) => {}
    }
    let mut bytes = [0];
    if let Err(error) = selector.read_at(0, &mut bytes) {
        return Err(LogError::Refused(error));
    }
    Ok(is_odd(bytes[0]))
}

/// Names a log by one byte and one sync. What a crash leaves meanwhile names one of the two.
pub fn write_selector<M: Media>(selector: &mut M, is_second: bool) -> Result<(), LogError>
    ensures named { OnOk result ((s : List ℕ) → M.may_leave selector.new s → Names is_second s) }
    ensures tears { TearsOnly M.moment M.left_since M.may_leave 0 1 selector.old selector.new }
    ensures error { IfErr result WriteFails }
    ensures cause { ReportsMedium (M.faults selector.old) (M.faults selector.new) result }
    ensures clean { M.is_clean selector.new ≡ M.is_clean selector.old }
{
    write_synced(selector, 0, &[byte_of(is_second)])
}

/// Empties the selector, so that it names no log. Of one that was empty a crash leaves nothing else meanwhile.
pub fn clear_selector<M: Media>(selector: &mut M) -> Result<(), LogError>
    ensures empty { Only [] (M.may_leave selector.old)
        → LeavesOnly M.moment M.left_since selector.old selector.new (λ s. s ≡ []) }
    ensures durable { OnOk result (Only [] (M.may_leave selector.new)) }
    ensures cause { ReportsMedium (M.faults selector.old) (M.faults selector.new) result }
    ensures clean { M.is_clean selector.new ≡ M.is_clean selector.old }
{
    if let Err(error) = selector.cut(0) {
        return Err(LogError::Refused(error));
    }
    if let Err(error) = selector.sync() {
        return Err(LogError::Failed(error));
    }
    Ok(())
}
