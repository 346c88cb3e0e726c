// A file in two copies, as a file. Its model is what the copies are; they and the calls before are kept in lists that
// contracts alone see.
ghost use Rattle.std.specs.Prelude.{◌≡◌, ℕ, List, length, IsTrue};
ghost use Rattle.ar_media.specs.Media.{Only};
ghost use Rattle.ar_copies.specs.Recorded.{measured, read, wrote, resized, synced};

use crate::copies::{Copies, OtherCopy};
use crate::joining::CopiedMedia;
use crate::losses::Losses;
use crate::past::{CallList, Past};
use ar_media::{Call, Media, MediaError};

/// A file in two copies, or in one. What is written is written to each copy in use; a read asks the first in use.
///
/// A copy is in use until a call of it fails while the same call of the other succeeds, or until `losses` says that it
/// is lost with another file of the store. It is not called again then. The last copy in use is never given up: its
/// errors are returned.
#[derive(Drop)]
pub struct CopiedFile<'a, M> {
    copies: Copies<M>,
    losses: &'a Losses,
    past: Past<Copies<M>>,
    calls: CallList,
}

impl<'a, M: Media + Drop> CopiedFile<'a, M> {
    ghost use Rattle.ar_copies.specs.Copied.{copied_seen, copied_may_leave, copied_is_clean, copied_faults};
    ghost use Rattle.ar_copies.specs.Copied.{copied_is_usable, JoinsCopy, Noted};

    /// The file in this one copy, which is the first.
    pub fn single(media: M, losses: &'a Losses) -> CopiedFile<'a, M>
        ensures seen { copied_seen M.seen result ≡ M.seen media }
        ensures leaves { (x : List ℕ) → copied_may_leave M.seen M.may_leave result x → M.may_leave media x }
        ensures clean { IsTrue (M.is_clean media) → IsTrue (copied_is_clean M.seen M.is_clean result) }
        ensures only_clean { IsTrue (copied_is_clean M.seen M.is_clean result) → IsTrue (M.is_clean media) }
        ensures faults { copied_faults M.faults result ≡ M.faults media }
        ensures usable { copied_is_usable M.is_usable result ≡ M.is_usable media }
    {
        CopiedFile {
            copies: Copies {
                reference: media,
                other: OtherCopy::Absent,
                is_swapped: false,
            },
            losses,
            past: Past::new(),
            calls: CallList::new(),
        }
    }

    /// The file in these two copies, of which each call is one of both. The bytes are those of the first. No code can
    /// tell that they are those of the second too. Where they are not, the model has a crash leave those of the first
    /// alone, so what a crash leaves of the disks is known only where they are.
    pub fn pair(first: M, second: M, losses: &'a Losses) -> CopiedFile<'a, M>
        ensures seen { copied_seen M.seen result ≡ M.seen first }

        // Two copies that last are a file whose bytes last, and two clean ones are clean.
        ensures lasting { Only (M.seen first) (M.may_leave first) → Only (M.seen second) (M.may_leave second)
            → Only (copied_seen M.seen result) (copied_may_leave M.seen M.may_leave result) }
        ensures clean { IsTrue (M.is_clean first) → IsTrue (M.is_clean second)
            → IsTrue (copied_is_clean M.seen M.is_clean result) }
        ensures only_clean { IsTrue (copied_is_clean M.seen M.is_clean result)
            → IsTrue (M.is_clean first) × IsTrue (M.is_clean second) }
        ensures usable { IsTrue (M.is_usable first) → IsTrue (copied_is_usable M.is_usable result) }
    {
        CopiedFile {
            copies: Copies {
                reference: first,
                other: OtherCopy::InUse(second),
                is_swapped: false,
            },
            losses,
            past: Past::new(),
            calls: CallList::new(),
        }
    }

    // Makes this the second copy, in place of one that isn't in use. As a call it is one that has done nothing.
    fn put(&mut self, copy: M)
        ensures { JoinsCopy M.seen M.may_leave M.is_clean self.old copy self.new }
    {
        let past = self.past.with(&self.copies);
        self.copies.join(copy);
        self.note(past, Some(Call::Failed), &[]);
    }

    /// The copies.
    pub fn copies(&self) -> &Copies<M>
        ensures { result.now ≡ self.now.copies }
    {
        &self.copies
    }

    // Records a call, if it was one, with what the copies were up to it.
    fn note(&mut self, past: Past<Copies<M>>, call: Option<Call>, bytes: &[u8])
        ensures { Noted past.items call bytes.now self.old self.new }
    {
        if let Some(call) = call {
            self.past = past;
            self.calls.note(&call, bytes);
        }
    }

    /// Whether a copy is given up.
    pub fn is_degraded(&self) -> bool {
        matches!(
            self.copies.other,
            OtherCopy::GivenUp(_) | OtherCopy::Gone(_)
        )
    }
}

// The calls as they are recorded, by their results. One that found the file closed was none.

fn measured(outcome: Result<usize, MediaError>) -> Option<Call>
    ensures { result ≡ measured outcome }
{
    match outcome {
        Ok(len) => Some(Call::Measured(len)),
        Err(MediaError::Closed) => None,
        Err(_) => Some(Call::Failed),
    }
}

fn read(at: usize, outcome: Result<(), MediaError>) -> Option<Call>
    ensures { result ≡ read at outcome }
{
    match outcome {
        Ok(()) => Some(Call::Read(at)),
        Err(MediaError::Closed) => None,
        Err(_) => Some(Call::Failed),
    }
}

fn written(at: usize, bytes: &[u8], outcome: Result<(), MediaError>) -> Option<Call>
    ensures { result ≡ wrote at (length bytes.now) outcome }
{
    match outcome {
        Ok(()) => Some(Call::Wrote(at, bytes.len())),
        Err(MediaError::Closed) => None,
        Err(_) => Some(Call::Wrote(at, 0)),
    }
}

fn resized(len: usize, outcome: Result<(), MediaError>) -> Option<Call>
    ensures { result ≡ resized len outcome }
{
    match outcome {
        Ok(()) => Some(Call::Resized(len, true)),
        Err(MediaError::Closed) => None,
        Err(_) => Some(Call::Resized(len, false)),
    }
}

fn synced(outcome: Result<(), MediaError>) -> Option<Call>
    ensures { result ≡ synced outcome }
{
    match outcome {
        Ok(()) => Some(Call::Synced),
        Err(MediaError::Closed) => None,
        Err(_) => Some(Call::Failed),
    }
}

impl<'a, M: Media + Drop> Media for CopiedFile<'a, M> {
    ghost use Rattle.ar_copies.specs.Copied.{history};
    ghost use Rattle.ar_copies.specs.Copies.{copies_faults, copies_usable};
    ghost use Rattle.ar_copies.specs.Model.{contents, FileLeaves, LeavesSince, clean_since};
    ghost use Rattle.ar_copies.specs.Laws.{contents_stay, only_newest};
    ghost use Rattle.std.proofs.Common.{inl};

    ghost seen = { λ c. contents M.seen c.copies (history c) };

    ghost may_leave = { λ c. FileLeaves M.seen M.may_leave c.copies (history c) };

    ghost moment = { λ c. length (history c) };

    ghost left_since = { λ c. LeavesSince M.seen M.may_leave c.copies (history c) };

    ghost faults = { λ c. copies_faults M.faults c.copies };

    ghost is_clean = { λ c. clean_since M.seen M.is_clean c.copies (history c) };

    ghost is_usable = { λ c. copies_usable M.is_usable c.copies };

    ghost seen_may_stay = { λ c. contents_stay M.seen M.may_leave M.seen_may_stay c.copies (history c) };

    ghost counts_now = { λ c t x le now. inl now };

    ghost only_now = { λ c x left. only_newest M.seen M.may_leave c.copies (history c) x left };

    fn len(&mut self) -> Result<usize, MediaError> {
        let past = self.past.with(&self.copies);
        let outcome = self.copies.len(self.losses);
        self.note(past, measured(outcome), &[]);
        outcome
    }

    fn read_at(&mut self, at: usize, buf: &mut [u8]) -> Result<(), MediaError> {
        let past = self.past.with(&self.copies);
        let outcome = self.copies.read_at(self.losses, at, buf);
        self.note(past, read(at, outcome), buf);
        outcome
    }

    fn write_at(&mut self, at: usize, bytes: &[u8]) -> Result<(), MediaError> {
        let past = self.past.with(&self.copies);
        let outcome = self.copies.write_at(self.losses, at, bytes);
        self.note(past, written(at, bytes, outcome), bytes);
        outcome
    }

    fn cut(&mut self, len: usize) -> Result<(), MediaError> {
        let past = self.past.with(&self.copies);
        let outcome = self.copies.cut(self.losses, len);
        self.note(past, resized(len, outcome), &[]);
        outcome
    }

    fn sync(&mut self) -> Result<(), MediaError> {
        let past = self.past.with(&self.copies);
        let outcome = self.copies.sync(self.losses);
        self.note(past, synced(outcome), &[]);
        outcome
    }

    fn has_lost_copy(&self) -> bool {
        self.losses.is_degraded()
    }
}

impl<'a, M: Media + Drop> CopiedMedia<M> for CopiedFile<'a, M> {
    ghost use Rattle.ar_copies.specs.Copies.{CopyLeaves, is_other_in_use};

    ghost has_copy = { λ c. is_other_in_use c.copies.other };

    ghost copy_leaves = { λ c. CopyLeaves M.may_leave c.copies.other };

    fn join(&mut self, copy: M) -> Result<(), MediaError> {
        if self.copies.has_two() {
            return Err(MediaError::Closed);
        }
        self.losses.begin(self.copies.which().other());
        self.put(copy);
        Ok(())
    }

    fn has_two(&self) -> bool {
        self.copies.has_two() && self.losses.lost().is_none()
    }

    fn end_copy(&self, is_whole: bool) -> Result<(), MediaError> {
        self.losses.end(is_whole)
    }
}
