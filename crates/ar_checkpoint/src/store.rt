// A journal, and the records that wait for the next commit.
ghost use Rattle.std.specs.Prelude.{◌≡◌, ◌≤◌, ◌++◌, ◌∷◌, [], OnOk, IfErr, IfOk, IsTrue, false, true, length};
ghost use Rattle.ar_log.specs.Failure.{is_final};
ghost use Rattle.ar_journal.specs.Joins.{IsNamedCopy, KeepsJournal};
ghost use Rattle.ar_journal.specs.Journal.{IsReady};
ghost use Rattle.ar_checkpoint.specs.Gradual.{HasFirstBatch, IsReplaced, LeavesLogs};
ghost use Rattle.ar_checkpoint.specs.Store.{AppendsOrKeeps, KeepsMedia, KeepsRecords, KeepsStoredUnits, MayLeave};
ghost use Rattle.ar_checkpoint.specs.Store.{RecordStore, Waits, closed_store, is_given_up};

use crate::{CheckpointError, GradualCheckpoint, make_piece};
use ar_compaction::StoreHead;
use ar_copies::CopiedMedia;
use ar_journal::Journal;
use ar_log::LogError;
use ar_media::{Media, MediaError};
use std::alloc::Global;
use std::marker::Model;

/// The most bytes that wait for a commit. A store that can't be written for so long is given up, so that its records
/// don't fill the memory.
const MOST_WAITING: usize = 256 << 20;

/// The records of an array: those in a journal, and those that wait for the next commit.
#[derive(Drop)]
pub struct Store<M: Media> {
    journal: Journal<M>,
    waiting: Vec<Vec<u8>>,
    // How many bytes wait.
    bytes: usize,
    // How many commits have written records.
    commits: u64,
    // The checkpoint that is being made.
    checkpoint: Option<GradualCheckpoint<M>>,
}

impl<M: Media> Model for Store<M> {
    ghost use Rattle.ar_log.specs.Codec.{items_of};
    ghost use Rattle.ar_journal.specs.Journal.{IsReady};
    ghost use Rattle.ar_checkpoint.specs.Gradual.{GoesWithIf, HasFirstBatch, other_medium};
    ghost use Rattle.ar_checkpoint.specs.Store.{RecordStore};

    ghost Value = { RecordStore M };

    ghost view = { λ store. record {
      journal = store.journal;
      waiting = items_of store.waiting.items;
      other = other_medium store.journal store.checkpoint;
    } };

    ghost invariant = { λ store. IsReady M.seen M.may_leave M.is_clean store.journal
        × HasFirstBatch M.seen M.is_clean store.journal
        × GoesWithIf M.seen M.may_leave M.is_clean store.journal store.checkpoint };
}

impl<M: Media> Store<M> {
    /// The store of a journal that begins with a head. No record waits.
    pub fn new(alloc: Global, journal: Journal<M>) -> Store<M>
        requires ready { IsReady M.seen M.may_leave M.is_clean journal }
        requires head { HasFirstBatch M.seen M.is_clean journal }
        ensures { result ≡ record { journal = journal; waiting = []; other = journal.spare } }
    {
        Store {
            journal,
            waiting: Vec::new(alloc),
            bytes: 0,
            commits: 0,
            checkpoint: None,
        }
    }

    /// Whether the store is given up: after a sync that failed, or because a record couldn't be noted.
    pub fn is_given_up(&self) -> bool
        ensures { result ≡ is_given_up self.now }
    {
        self.journal.is_closed()
    }

    /// Whether records wait for a commit.
    pub fn is_waiting(&self) -> bool {
        !self.waiting.is_empty()
    }

    /// How many bytes wait for a commit.
    pub fn bytes(&self) -> usize {
        self.bytes
    }

    /// How many commits have written records.
    pub fn commits(&self) -> u64 {
        self.commits
    }

    /// The length of its log in bytes.
    pub fn log_len(&self) -> usize {
        self.journal.len()
    }

    /// Whether one of the copies of its files is lost.
    pub fn has_lost_copy(&self) -> bool {
        self.journal.active.media.has_lost_copy()
    }

    /// Whether a checkpoint is being made.
    pub fn has_checkpoint(&self) -> bool {
        self.checkpoint.is_some()
    }

    /// Gives the store up: nothing is written to it any more.
    pub fn give_up(&mut self)
        ensures { self.new ≡ closed_store self.old }
    {
        self.journal.active.is_closed = true;
    }

    /// Appends the encoding of a record to those that wait. Where there is none, or no memory for it, the store is
    /// given up, since it has no record of what was done.
    pub fn note(&mut self, encoded: Option<Vec<u8>>)
        ensures { Waits encoded self.old self.new }
    {
        match encoded {
            Some(bytes) if self.bytes <= MOST_WAITING => self.push(bytes),
            _ => self.give_up(),
        }
    }

    fn push(&mut self, encoded: Vec<u8>)
        ensures { Waits (Some encoded) self.old self.new }
    {
        let len = encoded.len();
        match self.waiting.push(encoded) {
            Ok(()) => self.bytes = self.bytes.saturating_add(len),
            Err(_) => self.give_up(),
        }
    }

    /// Appends the records that wait to the journal, as one batch. At `Ok` every crash from then on leaves them.
    ///
    /// `Memory`, `TooLong` and `Refused` leave all as it was, so that a later commit may succeed. After `Failed` the
    /// store is given up, and a new start finds the records that waited, or none of them.
    pub fn commit(&mut self, alloc: Global) -> Result<(), LogError>
        ensures done { OnOk result ((self.new.waiting ≡ []) × (is_given_up self.new ≡ false)) }
        ensures records { KeepsRecords M.seen M.is_clean self.old self.new }
        ensures kept { IfErr result (λ e. is_final e ≡ false → is_given_up self.old ≡ false
            → (is_given_up self.new ≡ false) × (self.new.waiting ≡ self.old.waiting)) }
        ensures clean { M.is_clean self.new.journal.active.media ≡ M.is_clean self.old.journal.active.media }
        ensures other { self.new.other ≡ self.old.other }
        ensures ready { IsReady M.seen M.may_leave M.is_clean self.new.journal }
        // A crash at any moment of the call leaves the records of the journal from before, with those that waited or
        // without.
        ensures any_moment { MayLeave M.seen M.moment M.left_since M.is_clean self.old self.new }
        ensures log { AppendsOrKeeps M.seen M.is_clean self.old self.new }
        ensures first { HasFirstBatch M.seen M.is_clean self.old.journal }
        ensures untouched { is_given_up self.old ≡ true → (is_given_up self.new ≡ true) × KeepsMedia self.old self.new }
    {
        if self.waiting.is_empty() && !self.journal.is_closed() {
            return Ok(());
        }
        self.journal.append(alloc, &self.waiting)?;
        self.waiting.clear();
        self.bytes = 0;
        self.commits = self.commits.saturating_add(1);
        Ok(())
    }
}

impl<M: Media + Drop> Store<M> {
    /// Makes the next piece of a checkpoint, or begins one: a successor of the log with far fewer records that make the
    /// same units. `head` is the store's head. Returns whether the successor has become the log.
    ///
    /// An error gives the checkpoint up. The log stays as it was or, where the selector can't be written, the store is
    /// given up.
    pub fn advance(&mut self, alloc: Global, head: &StoreHead) -> Result<bool, CheckpointError>
        requires { length head.now.name.items ≤ 64 }
        ensures units { KeepsStoredUnits M.seen M.is_clean self.old self.new }
        ensures any_moment { LeavesLogs M.seen M.may_leave M.moment M.left_since M.is_clean self.old.journal
            self.new.journal }
        ensures replaced { IfOk result (λ done. done ≡ true
            → IsReplaced M.seen M.may_leave M.moment M.left_since M.is_clean self.old.journal self.new.journal) }
    {
        let checkpoint = self.checkpoint.take();
        self.checkpoint = make_piece(alloc, &mut self.journal, checkpoint, head)?;
        Ok(self.checkpoint.is_none())
    }
}

impl<M: Media + Drop> Store<M> {
    /// Whether the store has two copies, and neither is lost.
    pub fn has_two<F: Media + Drop>(&self) -> bool
    where
        M: CopiedMedia<F>,
        ensures { result ≡ true → M.has_copy self.now.journal.active.media ≡ true }
    {
        self.journal.active.media.has_two()
    }

    /// Whether its second log is the one that is appended to.
    pub fn is_second(&self) -> bool {
        self.journal.is_second
    }

    /// Begins a second copy of the store, in place of one that is lost or beside the only one: `copy` is that of the
    /// log which isn't appended to, and on which the next checkpoint writes a successor, in both copies. Both are
    /// emptied. The log is synced before, and keeps its batches.
    ///
    /// `Closed` while a checkpoint is made. After `Failed` the store may be given up.
    pub fn begin_copy<F: Media + Drop>(&mut self, copy: F) -> Result<(), LogError>
    where
        M: CopiedMedia<F>,
        ensures units { KeepsStoredUnits M.seen M.is_clean self.old self.new }
        ensures journal { KeepsJournal M.seen M.may_leave M.moment M.left_since M.is_clean self.old.journal
            self.new.journal }
    {
        if self.checkpoint.is_some() {
            return Err(LogError::Closed);
        }
        self.journal.settle()?;
        self.journal.join_spare(copy)
    }

    /// Completes a copy, once a checkpoint has written it: `log` is the copy of the log that was replaced, and
    /// `selector` that of the selector, which names the new log. From then on either copy is a store by itself.
    ///
    /// `Closed` while a checkpoint is made, and where the copy of the log is lost: the selector's isn't written then.
    pub fn complete_copy<F: Media + Drop>(&mut self, selector: F, log: F) -> Result<(), LogError>
    where
        M: CopiedMedia<F>,
        ensures units { KeepsStoredUnits M.seen M.is_clean self.old self.new }
        ensures journal { KeepsJournal M.seen M.may_leave M.moment M.left_since M.is_clean self.old.journal
            self.new.journal }
        ensures log { OnOk result (M.has_copy self.new.journal.active.media ≡ true) }
        ensures named { OnOk result (IsNamedCopy M.has_copy M.copy_leaves self.new.journal.is_second
            self.new.journal.selector) }
    {
        if self.checkpoint.is_some() || !self.has_two::<F>() {
            return Err(LogError::Closed);
        }
        self.journal.join_spare(log)?;
        self.journal.join_selector(selector)
    }

    /// Ends a copy that was begun: `Ok` where the store has two now. Otherwise why not: it isn't complete (`Closed`),
    /// or was lost meanwhile.
    pub fn end_copy<F: Media + Drop>(&self, is_complete: bool) -> Result<(), MediaError>
    where
        M: CopiedMedia<F>,
    {
        self.journal.active.media.end_copy(is_complete)
    }
}
