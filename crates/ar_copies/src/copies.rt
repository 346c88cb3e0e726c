// One or two copies of a file. What is written is written to each copy in use. One whose call fails while the other's
// succeeds is given up: it is not called any more. Of two that fail one goes on, and its error is returned, so that the
// result is always that of a copy which stays in use.
ghost use Rattle.std.specs.Prelude.{◌≡◌, ◌⊎◌, length, take, drop, true};
ghost use Rattle.ar_media.specs.Media.{Torn, Cut};

use crate::choice::{Keep, choose, error_of_both};
use crate::losses::{Losses, Which};
use ar_media::{Media, MediaError};
use std::mem;

/// The copy beside the one that reads ask first.
#[derive(Drop)]
pub enum OtherCopy<M> {
    /// There is none.
    Absent,
    /// It is written and synced too.
    InUse(M),
    /// It is given up, and there was no sync since: a crash now may be one within the call in which it failed.
    GivenUp(M),
    /// It is given up, and the file is synced without it.
    Gone(M),
}

/// The copies of a file.
#[derive(Drop)]
pub struct Copies<M> {
    /// The copy that reads ask first. It is always in use.
    pub reference: M,
    /// The copy beside it.
    pub other: OtherCopy<M>,
    /// Whether the reference is the second copy.
    pub is_swapped: bool,
}

impl<M: Media + Drop> Copies<M> {
    ghost use Rattle.ar_copies.specs.Copies.{SettlesCall, given_up, swapped, forgotten};
    ghost use Rattle.ar_copies.specs.Copies.{is_other_in_use, joined};
    ghost use Rattle.ar_copies.specs.Copies.{seen_first, agrees, OneLeaves, copies_faults, copies_clean, copies_usable};
    ghost use Rattle.ar_copies.specs.Steps.{ChangesFile, Syncs, ReadsFile, WritesAt, CutsTo};
    ghost use Rattle.ar_copies.specs.Each.{SecondReads, SyncsEach};

    // The copy that reads ask first.
    pub(crate) fn which(&self) -> Which {
        if self.is_swapped {
            Which::Second
        } else {
            Which::First
        }
    }

    // Writes to each copy in use.
    pub(crate) fn write_at(
        &mut self,
        losses: &Losses,
        at: usize,
        bytes: &[u8],
    ) -> Result<(), MediaError>
        ensures { ChangesFile (agrees M.seen self.old ≡ true) (seen_first M.seen) (OneLeaves M.may_leave)
            (copies_faults M.faults) (copies_clean M.is_clean) (copies_usable M.is_usable)
            (WritesAt at bytes.now) (Torn at (length bytes.now)) self.old self.new result }
    {
        let first = self.reference.write_at(at, bytes);
        let OtherCopy::InUse(other) = &mut self.other else {
            return first;
        };
        let second = other.write_at(at, bytes);
        self.settle(losses, first, second)
    }

    // Cuts each copy in use.
    pub(crate) fn cut(&mut self, losses: &Losses, len: usize) -> Result<(), MediaError>
        ensures { ChangesFile (agrees M.seen self.old ≡ true) (seen_first M.seen) (OneLeaves M.may_leave)
            (copies_faults M.faults) (copies_clean M.is_clean) (copies_usable M.is_usable)
            (CutsTo len) (Cut len) self.old self.new result }
    {
        let first = self.reference.cut(len);
        let OtherCopy::InUse(other) = &mut self.other else {
            return first;
        };
        let second = other.cut(len);
        self.settle(losses, first, second)
    }

    // Syncs each copy in use. Where that succeeds, one that was given up counts no more.
    pub(crate) fn sync(&mut self, losses: &Losses) -> Result<(), MediaError>
        ensures { Syncs (agrees M.seen self.old ≡ true) (seen_first M.seen) (OneLeaves M.may_leave)
            (copies_faults M.faults) (copies_clean M.is_clean) (copies_usable M.is_usable)
            self.old self.new result }
    {
        let result = self.sync_each(losses);
        if result.is_ok() {
            self.forget();
        }
        result
    }

    // The length, of the first copy that returns it.
    pub(crate) fn len(&mut self, losses: &Losses) -> Result<usize, MediaError>
        ensures { ReadsFile (agrees M.seen self.old ≡ true) (seen_first M.seen) (OneLeaves M.may_leave)
            (copies_faults M.faults) (copies_clean M.is_clean) (copies_usable M.is_usable)
            (λ bytes n. n ≡ length bytes) self.old self.new result }
    {
        match self.reference.len() {
            Ok(len) => Ok(len),
            Err(error) => self.len_of_other(losses, error),
        }
    }

    fn len_of_other(&mut self, losses: &Losses, error: MediaError) -> Result<usize, MediaError>
        ensures { SecondReads M.seen M.may_leave M.faults M.is_clean M.is_usable (λ bytes n. n ≡ length bytes) error
            self.old self.new result }
    {
        let OtherCopy::InUse(other) = &mut self.other else {
            return Err(error);
        };
        match other.len() {
            Ok(len) => {
                self.turn_from(losses, error);
                Ok(len)
            }
            Err(second) => Err(error_of_both(error, second)),
        }
    }

    // Fills `buf` from the first copy that returns the bytes.
    pub(crate) fn read_at(
        &mut self,
        losses: &Losses,
        at: usize,
        buf: &mut [u8],
    ) -> Result<(), MediaError>
        ensures { ReadsFile (agrees M.seen self.old ≡ true) (seen_first M.seen) (OneLeaves M.may_leave)
            (copies_faults M.faults) (copies_clean M.is_clean) (copies_usable M.is_usable)
            (λ bytes _. buf.new ≡ take (length buf.old) (drop at bytes)) self.old self.new result }
    {
        match self.reference.read_at(at, buf) {
            Ok(()) => Ok(()),
            Err(error) => self.read_other(losses, at, buf, error),
        }
    }

    fn read_other(
        &mut self,
        losses: &Losses,
        at: usize,
        buf: &mut [u8],
        error: MediaError,
    ) -> Result<(), MediaError>
        ensures { SecondReads M.seen M.may_leave M.faults M.is_clean M.is_usable
            (λ bytes _. buf.new ≡ take (length buf.old) (drop at bytes)) error self.old self.new result }
    {
        let OtherCopy::InUse(other) = &mut self.other else {
            return Err(error);
        };
        match other.read_at(at, buf) {
            Ok(()) => {
                self.turn_from(losses, error);
                Ok(())
            }
            Err(second) => Err(error_of_both(error, second)),
        }
    }

    // Syncs each copy in use.
    fn sync_each(&mut self, losses: &Losses) -> Result<(), MediaError>
        ensures { SyncsEach M.seen M.may_leave M.faults M.is_clean M.is_usable self.old self.new result }
    {
        let first = self.reference.sync();
        let OtherCopy::InUse(other) = &mut self.other else {
            return first;
        };
        let second = other.sync();
        self.settle(losses, first, second)
    }

    // Gives up what has failed in a call of both copies, and returns the call's result.
    fn settle(
        &mut self,
        losses: &Losses,
        first: Result<(), MediaError>,
        second: Result<(), MediaError>,
    ) -> Result<(), MediaError>
        ensures { SettlesCall first second self.old self.new result }
    {
        match choose(losses, self.which(), first, second) {
            Keep::Both => first,
            Keep::Reference => {
                self.give_up();
                first
            }
            Keep::Other => {
                self.swap();
                self.give_up();
                second
            }
        }
    }

    // The other copy goes on in place of the one that reads asked first, unless it is lost elsewhere.
    fn turn_from(&mut self, losses: &Losses, error: MediaError)
        ensures { (self.new ≡ self.old) ⊎ (self.new ≡ given_up (swapped self.old)) }
    {
        if losses.note(self.which(), error) {
            self.swap();
            self.give_up();
        }
    }

    // Exchanges the two copies in use.
    fn swap(&mut self)
        ensures { self.new ≡ swapped self.old }
    {
        if let OtherCopy::InUse(other) = &mut self.other {
            mem::swap(&mut self.reference, other);
            self.is_swapped = !self.is_swapped;
        }
    }

    // Takes the other copy out of use.
    fn give_up(&mut self)
        ensures { self.new ≡ given_up self.old }
    {
        self.other = match mem::replace(&mut self.other, OtherCopy::Absent) {
            OtherCopy::InUse(copy) => OtherCopy::GivenUp(copy),
            other => other,
        };
    }

    // Whether there is a copy in use beside the reference.
    pub(crate) fn has_two(&self) -> bool
        ensures { result ≡ is_other_in_use self.now.other }
    {
        matches!(self.other, OtherCopy::InUse(_))
    }

    // Puts a copy in use beside the reference, in place of one that isn't.
    pub(crate) fn join(&mut self, copy: M)
        ensures { self.new ≡ joined self.old copy }
    {
        self.other = OtherCopy::InUse(copy);
    }

    // A copy that is given up counts no more.
    fn forget(&mut self)
        ensures { self.new ≡ forgotten self.old }
    {
        self.other = match mem::replace(&mut self.other, OtherCopy::Absent) {
            OtherCopy::GivenUp(copy) => OtherCopy::Gone(copy),
            other => other,
        };
    }
}
