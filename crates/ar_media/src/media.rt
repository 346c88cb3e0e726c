//! The model of a file that a crash may tear. Outside a written range nothing changes. A clause on what a read returned
//! has as its premise that the medium is clean afterwards, since no code can tell bytes that have decayed.
ghost use Rattle.std.specs.Prelude.{◌≡◌, ◌≤◌, List, ℕ, Bool, ◌&&◌, is_ok, length, take, drop, IfOk, OnOk, IsTrue};
ghost use Rattle.ar_media.specs.Media.{Only, OutcomesFollow, Torn, Cut, Overwritten, Elapses, ReportsFaults, ClosesFor};

use crate::MediaError;

/// A file of bytes, for one writer.
pub trait Media {
    /// The bytes that a read returns.
    ghost seen: { Self → List ℕ };

    /// The contents that a crash at this moment may leave.
    ghost may_leave: { Self → List ℕ → Type 0 };

    /// The moment, as a number that does not fall.
    ghost moment: { Self → ℕ };

    /// The contents that a crash at some moment from that one on, during a call or between two, might have left.
    ghost left_since: { Self → ℕ → List ℕ → Type 0 };

    /// How many calls have failed.
    ghost faults: { Self → ℕ };

    /// No read has returned other bytes than were written. It may fall at a call that reads, and no code can tell, so
    /// nothing but a clause on values rests on it.
    ghost is_clean: { Self → Bool };

    /// No sync has failed. After one has, what was written may be lost with no further error.
    ghost is_usable: { Self → Bool };

    /// Returns the length in bytes.
    fn len(&mut self) -> Result<usize, MediaError>
        ensures len { IfOk result (λ n. IsTrue (is_clean self.new) → n ≡ length (seen self.old)) }
        ensures seen { seen self.new ≡ seen self.old }
        ensures crash { (c : List ℕ) → may_leave self.new c → may_leave self.old c }
        ensures time { Elapses (moment self.old) (moment self.new) (left_since self.old) (left_since self.new)
            (may_leave self.new) }
        ensures cause { ReportsFaults (faults self.old) (faults self.new) result }
        ensures clean { IsTrue (is_clean self.new) → IsTrue (is_clean self.old) }
        ensures closed { ClosesFor is_usable self.old self.new result }
        ensures usable { is_usable self.new ≡ is_usable self.old };

    /// Fills `buf` with the bytes from `at` on. A read of bytes past the end fails.
    fn read_at(&mut self, at: usize, buf: &mut [u8]) -> Result<(), MediaError>
        ensures read { OnOk result (IsTrue (is_clean self.new)
            → buf.new ≡ take (length buf.old) (drop at (seen self.old))) }
        ensures seen { seen self.new ≡ seen self.old }
        ensures crash { (c : List ℕ) → may_leave self.new c → may_leave self.old c }
        ensures time { Elapses (moment self.old) (moment self.new) (left_since self.old) (left_since self.new)
            (may_leave self.new) }
        ensures cause { ReportsFaults (faults self.old) (faults self.new) result }
        ensures clean { IsTrue (is_clean self.new) → IsTrue (is_clean self.old) }
        ensures closed { ClosesFor is_usable self.old self.new result }
        ensures usable { is_usable self.new ≡ is_usable self.old };

    /// Writes `bytes` at `at`, over what is there and past the end. Until a sync a crash may leave any bytes in the
    /// range, as may a write that fails, which leaves the medium usable.
    fn write_at(&mut self, at: usize, bytes: &[u8]) -> Result<(), MediaError>
        ensures written { OnOk result (at ≤ length (seen self.old)
            → Overwritten (seen self.old) at bytes.now (seen self.new)) }
        ensures torn { Torn at (length bytes.now) (seen self.old) (seen self.new) }
        ensures crash { OutcomesFollow (Torn at (length bytes.now)) (may_leave self.old) (may_leave self.new) }
        ensures time { Elapses (moment self.old) (moment self.new) (left_since self.old) (left_since self.new)
            (may_leave self.new) }
        ensures cause { ReportsFaults (faults self.old) (faults self.new) result }
        ensures clean { is_clean self.new ≡ is_clean self.old }
        ensures closed { ClosesFor is_usable self.old self.new result }
        ensures usable { is_usable self.new ≡ is_usable self.old };

    /// Cuts the medium to `len` bytes. Until a sync, and where it fails, the length is anything between.
    fn cut(&mut self, len: usize) -> Result<(), MediaError>
        ensures cut { OnOk result (len ≤ length (seen self.old) → seen self.new ≡ take len (seen self.old)) }
        ensures torn { Cut len (seen self.old) (seen self.new) }
        ensures crash { OutcomesFollow (Cut len) (may_leave self.old) (may_leave self.new) }
        ensures time { Elapses (moment self.old) (moment self.new) (left_since self.old) (left_since self.new)
            (may_leave self.new) }
        ensures cause { ReportsFaults (faults self.old) (faults self.new) result }
        ensures clean { is_clean self.new ≡ is_clean self.old }
        ensures closed { ClosesFor is_usable self.old self.new result }
        ensures usable { is_usable self.new ≡ is_usable self.old };

    /// Makes what was written last: at `Ok` a crash leaves what a read returns. One that fails closes the medium for
    /// good, since the system may drop what it could not write and report no further error.
    fn sync(&mut self) -> Result<(), MediaError>
        ensures durable { OnOk result (Only (seen self.old) (may_leave self.new)) }
        ensures seen { seen self.new ≡ seen self.old }
        ensures crash { (c : List ℕ) → may_leave self.new c → may_leave self.old c }
        ensures time { Elapses (moment self.old) (moment self.new) (left_since self.old) (left_since self.new)
            (may_leave self.new) }
        ensures cause { ReportsFaults (faults self.old) (faults self.new) result }
        ensures clean { is_clean self.new ≡ is_clean self.old }
        ensures closed { ClosesFor is_usable self.old self.new result }
        ensures usable { is_usable self.new ≡ (is_usable self.old && is_ok result) };

    /// Whether one of its copies is lost. A medium without copies has lost none.
    fn has_lost_copy(&self) -> bool {
        false
    }

    /// A process that ends leaves what it had written, so that is one of the outcomes.
    ghost seen_may_stay: { (file : Self) → may_leave file (seen file) };

    /// This moment is one of those since an earlier one.
    ghost counts_now: { (file : Self) (t : ℕ) (c : List ℕ) → t ≤ moment file → may_leave file c → left_since file t c };

    /// Since this moment there is no other.
    ghost only_now: { (file : Self) (c : List ℕ) → left_since file (moment file) c → may_leave file c };
}
