// A file that takes a further copy while it is in use.
ghost use Rattle.std.specs.Prelude.{◌≡◌, ◌⊎◌, List, ℕ, Bool, OnErr, OnOk, IsTrue, true};
ghost use Rattle.ar_media.specs.Media.{Elapses};

use ar_media::{Media, MediaError};

/// A file in copies, each an `F`, whose lost copy may be replaced while it is in use.
pub trait CopiedMedia<F: Media + Drop>: Media {
    /// Whether a second copy is in use.
    ghost has_copy: { Self → Bool };

    /// The contents that a crash at this moment may leave of the second copy in use.
    ghost copy_leaves: { Self → List ℕ → Type 0 };

    /// Makes this the second copy. It is to have the bytes of the file; no code can tell that it has. The file keeps
    /// its bytes, and a crash leaves what it might have left before or what it may leave of the new copy. `Closed`
    /// where two copies are in use, which changes nothing.
    ///
    /// The first file of a store that a copy joins begins to make one. Until `end_copy` that is the copy which is lost
    /// where a call of either fails.
    fn join(&mut self, copy: F) -> Result<(), MediaError>
        ensures same { Self.seen self.new ≡ Self.seen self.old }
        ensures crash { OnOk result ((x : List ℕ) → Self.may_leave self.new x
            → Self.may_leave self.old x ⊎ F.may_leave copy x) }
        ensures time { Elapses (Self.moment self.old) (Self.moment self.new) (Self.left_since self.old)
            (Self.left_since self.new) (Self.may_leave self.new) }
        ensures clean { IsTrue (Self.is_clean self.new) → IsTrue (Self.is_clean self.old) }
        ensures joined { OnOk result (has_copy self.new ≡ true) }
        ensures copy { OnOk result ((x : List ℕ) → copy_leaves self.new x → F.may_leave copy x) }
        ensures none { OnErr result (self.new ≡ self.old) };

    /// Whether two copies are in use, and neither is lost.
    fn has_two(&self) -> bool
        ensures { result ≡ true → has_copy self.now ≡ true };

    /// Ends a copy that was begun: `Ok` where the store has both now. Otherwise why not: the new one isn't whole
    /// (`Closed`), or was lost meanwhile.
    fn end_copy(&self, is_whole: bool) -> Result<(), MediaError>;
}
