// An array whose history is on a journal, as far as it changes units. Its records are those of the history, or the
// store is given up.
ghost use Rattle.std.specs.Prelude.{◌≡◌, ◌≤◌, ◌∷◌, [], count_by, false, map, true};
ghost use Rattle.ar_core.specs.declared.event.EventOf.TheVariants as events;
ghost use Rattle.ar_core.specs.Step.{addr_in};
ghost use Rattle.ar_extents.specs.Set.{CanCount};
ghost use Rattle.ar_served.specs.History.{is_command};
ghost use Rattle.ar_served.specs.Kept.{HistoryAgrees};
ghost use Rattle.ar_served.specs.Seat.{SeatState};
ghost use Rattle.ar_served.specs.Served.{AnswersCommand, DestagesPart, DiscardsSectors, Maintains, Operates};
ghost use Rattle.ar_served.specs.Served.{acknowledges, after_refusal, asks_commit};
ghost use Rattle.ar_durable.specs.Crashes.{AreCommitted, KeepsCommitted};
ghost use Rattle.ar_recovery.specs.Stored.{AreRecords};
ghost use Rattle.ar_durable.specs.Durable.{Lasts};

use crate::records::{
    encoded, encoded_command, is_acknowledged, is_added, is_forced, is_grown, is_made, is_noted,
    is_removed, note_if,
};
use crate::sharing::Sharing;
use ar_checkpoint::{CheckpointError, Store};
use ar_compaction::{MAX_NAME, StoreHead};
use ar_core::{Array, NewDisk, Outcome, PartFlush};
use ar_disks::{Addr, Disk, Host};
use ar_live::{CountedArray, LiveArray};
use ar_log::LogError;
use ar_media::Media;
use ar_record::Record;
use ar_recovery::is_recorded;
use ar_scsi::Reply;
use ar_served::{Counts, OperationOf, Seat, StoreState, StoreStatus, Task};
use bytes::Bytes;
use log::{Log, error, info, warn};
use std::alloc::Global;
use std::marker::Model;
use std::sync::ledger::{Blank, Ledger};
use std::time::{Clock, Duration, Instant};

/// When records are committed, and when the log is replaced.
#[derive(Clone, Copy)]
pub struct CommitPolicy {
    /// Each WRITE waits for its commit, and not only one with FORCE UNIT ACCESS.
    pub always: bool,
    /// Other records wait at most for about this long.
    pub every: Duration,
    /// A log that is shorter than this, in bytes, isn't replaced while it is served.
    pub least_log: usize,
}

/// How a commit has failed.
#[derive(Clone, Copy, PartialEq, Eq)]
enum Failure {
    /// Later ones may succeed.
    ForNow,
    /// The store is given up.
    Final,
}

/// The most pieces of a checkpoint in a row.
const MOST_PIECES: u32 = 64;

/// Bytes that wait at most before a WRITE commits them. With 16 MiB hosts wait up to three times as long for such a
/// commit, and no more are written a second.
const MOST_BYTES: usize = 2 << 20;

/// Milliseconds for which pieces of a checkpoint are made in a row, and after how many such turns it is one more: so a
/// checkpoint ends, however much hosts commit meanwhile.
const PIECES: u64 = 8;

const TURNS: u64 = 32;

/// An array, and the store of its records.
#[derive(Drop)]
pub struct DurableArray<'a, D: Disk, L: Ledger, M: Media, R> {
    rt: &'a R,
    alloc: Global,
    counted: CountedArray<D, L>,
    store: Store<M>,
    // The head of the log, if that is to be replaced once it is long.
    head: Option<StoreHead>,
    policy: CommitPolicy,
    // When a commit was made last.
    committed: Option<Instant>,
    // Whether hosts share commits.
    sharing: Sharing,
    // How the last commit failed, if it did, which was logged then.
    failure: Option<Failure>,
    // The length of the log at which a checkpoint begins.
    longest: usize,
    // The turns in which pieces of the checkpoint were made, and how many checkpoints have replaced the log.
    turns: u64,
    checkpoints: u64,
}

impl<'a, D: Disk, L: Ledger, M: Media, R> Model for DurableArray<'a, D, L, M, R> {
    ghost use Rattle.std.specs.Prelude.{◌≡◌, IsTrue, false};
    ghost use Rattle.ar_recovery.specs.Stored.{AreRecords};
    ghost use Rattle.ar_durable.specs.Durable.{DurableState};

    ghost Value = { DurableState M };

    ghost view = { λ durable. record {
      kept = durable.counted;
      store = durable.store;
      always = durable.policy.always;
    } };

    // The records are those of the history.
    ghost invariant = { λ durable. AreRecords M.seen M.is_clean durable.store durable.counted.history };
}

impl<'a, D: Disk, L: Ledger, M: Media, R> DurableArray<'a, D, L, M, R> {
    /// Goes on with an array of these records, and returns it with the seats of hosts 0 to 3, in order. With the head
    /// of its log, that is replaced once it is long.
    pub fn resume(
        rt: &'a R,
        alloc: Global,
        blank: Blank,
        live: LiveArray<D>,
        head: Option<StoreHead>,
        store: Store<M>,
        policy: CommitPolicy,
    ) -> (DurableArray<'a, D, L, M, R>, [Seat<L>; 4])
        requires name { blank.name ≡ L.name }
        requires parts { blank.parts ≡ L.parts }
        requires four { blank.parts ≡ 4 }
        requires records { AreRecords M.seen M.is_clean store live.history }
        ensures array { result.0.kept.array ≡ live.array }
        ensures history { result.0.kept.history ≡ live.history }
        ensures store { result.0.store ≡ store }
        ensures hosts { map (λ (s : SeatState). s.host.number) result.1 ≡ 0 ∷ 1 ∷ 2 ∷ 3 ∷ [] }
    {
        let (counted, seats) = CountedArray::resume(alloc, blank, live);
        let longest = policy.least_log;
        let durable = DurableArray {
            rt,
            alloc,
            counted,
            store,
            head,
            policy,
            committed: None,
            sharing: Sharing::new(),
            failure: None,
            longest,
            turns: 0,
            checkpoints: 0,
        };
        (durable, seats)
    }

    /// Returns the array, for its views.
    pub fn array(&self) -> &Array<D>
        ensures array { result.now ≡ self.now.kept.array }
        ensures kept { HistoryAgrees self.now.kept.array self.now.kept.history }
    {
        self.counted.array()
    }

    /// Returns what was counted since the start.
    pub fn counts(&self) -> Counts
        ensures { result ≡ self.now.kept.counts }
    {
        self.counted.counts()
    }

    /// Returns the number of events (`LiveArray::events`).
    pub fn events(&self) -> u64
        ensures { result ≡ self.now.kept.events }
    {
        self.counted.events()
    }

    /// Lends the array memory for the data of a READ (`Array::lend_memory`).
    pub fn lend_memory(&mut self, memory: Vec<u8>)
        ensures { self.new ≡ self.old }
    {
        self.counted.lend_memory(memory);
    }

    /// Counts a reply BUSY to a command of `host` that isn't executed (`CountedArray::count_refusal`).
    pub fn count_refusal(&mut self, host: Host, cdb: &[u8; 16])
        ensures { self.new ≡ record self.old { kept = after_refusal self.old.kept host.number cdb.now } }
    {
        self.counted.count_refusal(host, cdb);
    }

    /// Compares a seat with the ledger (`CountedArray::audit_seat`).
    pub fn audit_seat(&mut self, seat: &mut Seat<L>)
        ensures same { self.new ≡ self.old }
        ensures seat { seat.new ≡ seat.old }
        ensures counted { seat.old.commands ≤ count_by is_command self.old.kept.history }
    {
        self.counted.audit_seat(seat);
    }

    /// Whether a commit has failed and none has succeeded since.
    pub fn has_failed(&self) -> bool {
        self.failure.is_some() || self.store.is_given_up()
    }

    /// Whether the answer to this command waits for a commit: GOOD to a WRITE that has to last by then.
    pub fn awaits_commit(&self, cdb: &[u8; 16], reply: &Reply) -> bool {
        is_acknowledged(cdb, reply) && (is_forced(cdb) || self.policy.always)
    }

    /// Returns for how many microseconds a commit is put off, so that others share it: a small part of what it takes,
    /// and 0 while one host writes alone.
    pub fn commit_pause(&self) -> u64 {
        self.sharing.pause()
    }

    /// Returns how the store is.
    pub fn status(&self) -> StoreStatus {
        let state = if self.store.is_given_up() {
            StoreState::GivenUp
        } else if self.failure.is_some() {
            StoreState::Failing
        } else if self.store.has_lost_copy() {
            StoreState::Degraded
        } else {
            StoreState::Sound
        };
        StoreStatus {
            state,
            log_bytes: self.store.log_len() as u64,
            waiting_bytes: self.store.bytes() as u64,
            commits: self.store.commits(),
            checkpoints: self.checkpoints,
        }
    }
}

impl<'a, D: Disk + Drop, L: Ledger, M: Media, R> DurableArray<'a, D, L, M, R> {
    /// Executes a command of the seat's host as `CountedArray::host` does, and notes what changes its unit.
    pub fn host(&mut self, seat: &mut Seat<L>, lun: u8, cdb: [u8; 16], payload: Bytes) -> Reply
        ensures answers { AnswersCommand false self.old.kept seat.old lun cdb payload result self.new.kept seat.new }
        ensures keeps { KeepsCommitted M.seen M.may_leave M.moment M.left_since M.is_clean self.old self.new }
    {
        let addr = Addr {
            host: seat.host(),
            lun,
        };
        let encoding = encoded_command(self.alloc, addr, &cdb, &payload);
        let reply = self.counted.host(seat, lun, cdb, payload);
        let noted = is_noted(self.counted.array(), &cdb, &reply);
        note_if(&mut self.store, noted, encoding);
        self.sharing.note(noted, addr.host);
        reply
    }

    /// Creates a unit of a length in sectors.
    pub fn make(&mut self, addr: Addr, sectors: u32) -> Outcome<D>
        ensures operates { Operates (events.Make addr sectors) self.old.kept result self.new.kept }
        ensures keeps { KeepsCommitted M.seen M.may_leave M.moment M.left_since M.is_clean self.old self.new }
    {
        let encoding = encoded(self.alloc, &Record::Make(addr, sectors));
        let outcome = self.counted.operate(OperationOf::Make(addr, sectors));
        note_if(&mut self.store, is_made(&outcome), encoding);
        outcome
    }

    /// Extends a unit to a length in sectors.
    pub fn grow(&mut self, addr: Addr, sectors: u32) -> Outcome<D>
        ensures operates { Operates (events.Grow addr sectors) self.old.kept result self.new.kept }
        ensures keeps { KeepsCommitted M.seen M.may_leave M.moment M.left_since M.is_clean self.old self.new }
    {
        let encoding = encoded(self.alloc, &Record::Grow(addr, sectors));
        let outcome = self.counted.operate(OperationOf::Grow(addr, sectors));
        note_if(&mut self.store, is_grown(&outcome), encoding);
        outcome
    }

    /// Deletes a unit.
    pub fn remove(&mut self, addr: Addr) -> Outcome<D>
        ensures operates { Operates (events.Remove addr) self.old.kept result self.new.kept }
        ensures keeps { KeepsCommitted M.seen M.may_leave M.moment M.left_since M.is_clean self.old self.new }
    {
        let encoding = encoded(self.alloc, &Record::Remove(addr));
        let outcome = self.counted.operate(OperationOf::Remove(addr));
        note_if(&mut self.store, is_removed(&outcome), encoding);
        outcome
    }

    /// Adds a disk, whose fault count must be below its maximum.
    pub fn add_disk(&mut self, disk: D) -> Outcome<D>
        requires { CanCount (D.state disk) }
        ensures operates { Operates (events.AddDisk (D.state disk)) self.old.kept result self.new.kept }
        ensures keeps { KeepsCommitted M.seen M.may_leave M.moment M.left_since M.is_clean self.old self.new }
    {
        let extents = u32::from(self.counted.array().extents());
        let encoding = encoded(self.alloc, &Record::AddDisk(extents));
        let outcome = self
            .counted
            .operate(OperationOf::AddDisk(NewDisk::new(disk)));
        note_if(&mut self.store, is_added(&outcome), encoding);
        outcome
    }

    /// Takes a disk out, by its number. No unit depends on it, so that nothing is noted.
    pub fn take_out(&mut self, number: u8) -> Outcome<D>
        ensures operates { Operates (events.DiskOut number) self.old.kept result self.new.kept }
        ensures keeps { KeepsCommitted M.seen M.may_leave M.moment M.left_since M.is_clean self.old self.new }
    {
        self.counted.operate(OperationOf::DiskOut(number))
    }

    /// Replaces the failed disk of this number by one whose fault count must be below its maximum.
    pub fn replace(&mut self, number: u8, disk: D) -> Outcome<D>
        requires { CanCount (D.state disk) }
        ensures operates { Operates (events.Replace number (D.state disk)) self.old.kept result self.new.kept }
        ensures keeps { KeepsCommitted M.seen M.may_leave M.moment M.left_since M.is_clean self.old self.new }
    {
        self.counted
            .operate(OperationOf::Replace(number, NewDisk::new(disk)))
    }

    /// Executes one piece of background work.
    pub fn background(&mut self, task: Task) -> Outcome<D>
        ensures maintains { Maintains task self.old.kept result self.new.kept }
        ensures keeps { KeepsCommitted M.seen M.may_leave M.moment M.left_since M.is_clean self.old self.new }
    {
        self.counted.background(task)
    }

    /// Destages those of 64 blocks of a unit that are cached, from block `first` on. Only a commit makes them last.
    pub fn flush_part(&mut self, addr: Addr, first: u32) -> PartFlush
        ensures destages { DestagesPart self.old.kept addr first result self.new.kept }
        ensures keeps { KeepsCommitted M.seen M.may_leave M.moment M.left_since M.is_clean self.old self.new }
    {
        self.counted.flush_part(addr, first)
    }

    /// Discards `count` sectors of a host's LUN from `lba` on as `CountedArray::discard` does, and notes it.
    pub fn discard(&mut self, host: Host, lun: u8, lba: u64, count: u32) -> Reply
        ensures discards { DiscardsSectors self.old.kept (addr_in host lun) lba count result self.new.kept }
        ensures keeps { KeepsCommitted M.seen M.may_leave M.moment M.left_since M.is_clean self.old self.new }
    {
        let encoding = encoded(self.alloc, &Record::Unmap(Addr { host, lun }, lba, count));
        let reply = self.counted.discard(host, lun, lba, count);
        let noted = is_recorded(self.counted.array(), &reply);
        note_if(&mut self.store, noted, encoding);
        reply
    }
}

impl<'a, D: Disk, L: Ledger, M: Media, R: Clock + Log> DurableArray<'a, D, L, M, R> {
    /// Commits what was noted. False where that failed: the cause is logged once, and a later commit may succeed unless
    /// the store is given up.
    pub fn commit(&mut self) -> bool
        ensures same { self.new.kept ≡ self.old.kept }
        ensures committed { result ≡ true → Lasts M.may_leave M.is_clean self.new.store self.new.kept.history }
        ensures all { result ≡ true
            → AreCommitted M.seen M.may_leave M.is_clean self.new.store self.new.kept.history self.new.kept.history }
        ensures keeps { KeepsCommitted M.seen M.may_leave M.moment M.left_since M.is_clean self.old self.new }
    {
        let _kept = self.counted.array();
        let (is_waiting, began) = (self.store.is_waiting(), Instant::now(self.rt).ok());
        let done = self.store.commit(self.alloc);
        self.committed = Instant::now(self.rt).ok();
        self.sharing.note_commit(self.rt, is_waiting, began);
        match done {
            Ok(()) => {
                self.failure = None;
                true
            }
            Err(error) => {
                let is_final = self.store.is_given_up();
                self.failure = Some(log_change(self.rt, self.failure, is_final, error));
                false
            }
        }
    }

    /// Commits what was noted, if the answer to this command has to wait for that or much is waiting. False where that
    /// has failed, and the answer is GOOD to a WRITE, which must not be given.
    pub fn settle(&mut self, cdb: &[u8; 16], reply: &Reply) -> bool
        ensures same { self.new.kept ≡ self.old.kept }
        ensures settled { result ≡ true → asks_commit cdb.now reply.now ≡ true
            → Lasts M.may_leave M.is_clean self.new.store self.new.kept.history }
        ensures always { self.old.always ≡ true → result ≡ true → acknowledges cdb.now reply.now ≡ true
            → Lasts M.may_leave M.is_clean self.new.store self.new.kept.history }
        ensures failed { result ≡ false → acknowledges cdb.now reply.now ≡ true }
        ensures all { result ≡ true → asks_commit cdb.now reply.now ≡ true
            → AreCommitted M.seen M.may_leave M.is_clean self.new.store self.new.kept.history self.new.kept.history }
        ensures keeps { KeepsCommitted M.seen M.may_leave M.moment M.left_since M.is_clean self.old self.new }
    {
        if !is_acknowledged(cdb, reply) {
            return true;
        }
        if is_forced(cdb) || self.policy.always || self.store.bytes() >= MOST_BYTES {
            return self.commit();
        }
        !self.has_failed()
    }

    /// Commits what was noted, if the last commit was long ago.
    pub fn commit_if_due(&mut self)
        ensures same { self.new.kept ≡ self.old.kept }
        ensures keeps { KeepsCommitted M.seen M.may_leave M.moment M.left_since M.is_clean self.old self.new }
    {
        if self.has_work() && is_due(self.rt, self.committed, self.policy.every) {
            self.commit();
        }
    }

    // Whether records wait, or that the store is given up wasn't logged yet.
    fn has_work(&self) -> bool {
        if self.store.is_given_up() {
            self.failure != Some(Failure::Final)
        } else {
            self.store.is_waiting()
        }
    }
}

impl<'a, D: Disk + Drop, L: Ledger, M: Media + Drop, R: Clock + Log> DurableArray<'a, D, L, M, R> {
    /// Makes pieces of a checkpoint for some 8 ms, once the log is long enough for one. What the log makes of each unit
    /// stays, whatever becomes of the checkpoint.
    pub fn checkpoint_some(&mut self)
        ensures { self.new.kept ≡ self.old.kept }
    {
        if !self.store.has_checkpoint() {
            if self.store.log_len() < self.longest {
                return;
            }
            self.turns = 0;
        }
        self.turns = self.turns.saturating_add(1);
        let most = Duration::from_millis(PIECES.saturating_add(self.turns / TURNS));
        let began = Instant::now(self.rt).ok();
        for _ in 0..MOST_PIECES {
            if !self.checkpoint_piece() || is_due(self.rt, began, most) {
                return;
            }
        }
    }

    // Makes a piece of a checkpoint, and returns whether there is more to do.
    fn checkpoint_piece(&mut self) -> bool
        ensures { self.new.kept ≡ self.old.kept }
    {
        let Some(head) = self.head.take() else {
            return false;
        };
        let mut head = head;
        let goes_on = self.advance(&mut head);
        self.head = Some(head);
        goes_on
    }

    // Makes a piece of a checkpoint of a log with this head.
    fn advance(&mut self, head: &mut StoreHead) -> bool
        ensures { self.new.kept ≡ self.old.kept }
    {
        if self.store.is_given_up() || head.name.len() > MAX_NAME {
            return false;
        }
        let before = self.store.log_len();
        let done = self.store.advance(self.alloc, head);
        let after = self.store.log_len();
        log_piece(self.rt, before, after, &done);
        match done {
            Ok(false) => true,
            Ok(true) => {
                head.generation = head.generation.saturating_add(1);
                self.checkpoints = self.checkpoints.saturating_add(1);
                self.longest = longest_after(after, self.policy.least_log);
                false
            }
            Err(_) => {
                self.longest = before.saturating_mul(2);
                false
            }
        }
    }
}

// Logs what came of a checkpoint of a log of `before` bytes, which has `after` now.
fn log_piece<R: Log>(rt: &R, before: usize, after: usize, done: &Result<bool, CheckpointError>) {
    match done {
        Ok(false) => {}
        Ok(true) => info!(rt; "checkpoint: a log of {before} bytes replaced by one of {after}"),
        Err(error) => warn!(rt; "the log isn't replaced: {error:?}"),
    }
}

// Logs why a commit failed, unless the one before has failed as this one.
fn log_change<R: Log>(rt: &R, before: Option<Failure>, is_final: bool, cause: LogError) -> Failure {
    if is_final {
        if before != Some(Failure::Final) {
            error!(rt; "the store is given up: {cause:?}; no WRITE is acknowledged until a new start");
        }
        return Failure::Final;
    }
    if before.is_none() {
        error!(rt; "the store can't be written: {cause:?}; no WRITE is acknowledged until it can");
    }
    Failure::ForNow
}

// The length at which a log of `len` bytes is replaced.
fn longest_after(len: usize, least: usize) -> usize {
    len.saturating_mul(2).max(least)
}

// Whether this much time has passed. It has where the clock can't be read.
fn is_due<R: Clock>(rt: &R, since: Option<Instant>, every: Duration) -> bool {
    let Some(since) = since else {
        return true;
    };
    match since.elapsed(rt) {
        Ok(elapsed) => elapsed >= every,
        Err(_) => true,
    }
}
