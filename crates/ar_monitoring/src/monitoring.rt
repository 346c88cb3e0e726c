// A thread that looks at the array ten times a second: so each event is listed with its time, and the log has it, also
// while nobody watches. A look costs hosts the lock for a few microseconds.
ghost use Rattle.std.specs.Prelude.{◌≡◌, ◌≤◌, length};
ghost use Rattle.ar_monitoring.specs.Monitoring.{last_warned};

use crate::spares::replace_failed;
use ar_controlled::ControlledArray;
use ar_fuses::{Fuse, lost_disks};
use ar_memory::{memory_left, share_reached};
use ar_operated::OperatedArray;
use ar_sessions::run_background;
use ar_shown::Beside;
use ar_status::{
    ArrayStatus, EventKind, EventLog, RecentEvent, RecentEvents, StoreHealth, StoreNumbers,
};
use log::{Log, error, info, warn};
use std::sync::Wait;
use std::sync::atomic::Ordering;
use std::sync::ledger::Ledger;
use std::thread;
use std::time::{Clock, Duration};

/// Milliseconds between two looks.
const PAUSE: u64 = 100;

/// The memory of the history at which it is logged first, in bytes.
const FIRST_BYTES: u64 = 1 << 20;

// What the log has of the memory of the history.
#[derive(Clone, Copy)]
struct History {
    // The bytes at which it is logged next.
    next: u64,
    // The bytes that it may take, as far as that is known. They are read when it is logged first: all threads have
    // their stacks then, which count where addresses are limited.
    memory: Option<u64>,
    // The percentage of these of which there was the last warning.
    warned: u8,
}

/// What looks after an array until its service ends.
pub trait Monitor {
    /// Looks at it again and again, and once more when the service ends.
    fn monitor(&self);

    /// Runs its background maintenance until all sessions of hosts have ended.
    fn maintain(&self);

    /// Ends the service, whose hosts have no session left.
    fn end(&self);
}

impl<'a, R: Wait + Clock + Log, A: ControlledArray<L, M> + Drop, L: Ledger, M: Copy> Monitor
    for OperatedArray<'a, R, A, L, M> {
    fn monitor(&self) {
        let mut logged = RecentEvents::new();
        let mut history = History::new();
        let mut missed = None;
        let mut has_lost_copy = false;
        for _ in self.rt.forever() {
            // (what has happened before the end is logged, too)
            let is_last = self.stop.load(Ordering::SeqCst);
            let status = see(self);
            self.activity.lock(self.rt).look(&status);
            log_events(
                self.rt,
                self.fuses,
                logged.as_slice(),
                status.events.as_slice(),
            );
            logged = status.events;
            missed = replace_failed(self, status.health, missed);
            has_lost_copy = log_loss(self.rt, has_lost_copy, status.store);
            history = history.logged(self.rt, self.system, status.history_bytes);
            if is_last {
                break;
            }
            thread::sleep(self.rt, Duration::from_millis(PAUSE));
        }
    }

    fn maintain(&self) {
        run_background(self.rt, self.array, self.ended);
    }

    fn end(&self) {
        self.ended.store(true, Ordering::SeqCst);
        self.stop.store(true, Ordering::SeqCst);
    }
}

// Looks at the array, so that what has happened is listed, and returns its status.
fn see<R: Wait + Clock, A: ControlledArray<L, M> + Drop, L: Ledger, M>(
    operated: &OperatedArray<'_, R, A, L, M>,
) -> ArrayStatus {
    let outside = operated.outside();
    let mut log = operated.log.lock(operated.rt);
    // (read behind the lock, so that events are listed in the order of their times)
    let seconds = operated.seconds();
    let array = operated.array.lock(operated.rt);
    let beside = operated.beside(outside, seconds);
    see_and_tell::<A, L, M>(&array, &beside, &mut log)
}

// Looks at an array, and returns its status.
fn see_and_tell<A: ControlledArray<L, M>, L: Ledger, M>(
    array: &A,
    beside: &Beside,
    log: &mut EventLog,
) -> ArrayStatus {
    array.see(beside.seconds, log);
    array.status(array.store(), log.events(), beside)
}

// Logs the events of a list that an older one doesn't have. Both have the newest first.
fn log_events<R: Log>(rt: &R, fuses: &[Fuse; 12], old: &[RecentEvent], new: &[RecentEvent]) {
    for event in new[..count_new(old, new)].iter().rev() {
        log_event(rt, fuses, event.kind);
    }
}

// How many events came after those of the old list.
fn count_new(old: &[RecentEvent], new: &[RecentEvent]) -> usize
    ensures { result ≤ length new.now }
{
    for count in 0..new.len() {
        if old.starts_with(&new[count..]) {
            return count;
        }
    }
    new.len()
}

// Logs an event: a failure as a warning or an error, which are written also without `--log`.
fn log_event<R: Log>(rt: &R, fuses: &[Fuse; 12], kind: EventKind) {
    match kind {
        EventKind::DiskFailed { disk } => log_disk(rt, fuses, disk),
        EventKind::DiskReplaced { disk } => info!(rt; "disk {disk} replaced"),
        EventKind::DiskRebuilt { disk } => info!(rt; "disk {disk} rebuilt"),
        EventKind::DiskAdded { disk } => info!(rt; "disk {disk} added"),
        EventKind::ArrayFailed => log_array(rt, fuses),
        EventKind::UnitMade { host, lun } => info!(rt; "unit {host} {lun} made"),
        EventKind::UnitGrown { host, lun } => info!(rt; "unit {host} {lun} grown"),
        EventKind::UnitDropped { host, lun } => info!(rt; "unit {host} {lun} dropped"),
    }
}

// Logs that a disk has failed, and why.
fn log_disk<R: Log>(rt: &R, fuses: &[Fuse; 12], disk: u8) {
    let is_out = match fuses.get(usize::from(disk)) {
        Some(fuse) => fuse.is_out(),
        None => false,
    };
    let why = if is_out {
        "an operator took it out"
    } else {
        "an access faulted"
    };
    warn!(rt; "disk {disk} failed: {why}");
}

// Warns when a store loses one of its two copies, and returns whether it has.
fn log_loss<R: Log>(rt: &R, had_lost: bool, store: Option<StoreNumbers>) -> bool {
    let has_lost = match store {
        Some(store) => store.state == StoreHealth::Degraded,
        None => false,
    };
    if has_lost && !had_lost {
        warn!(rt; "store degraded: one of its two copies is lost, and the other goes on");
    }
    has_lost || had_lost
}

// Logs that the array has failed, and which disks were missing.
fn log_array<R: Log>(rt: &R, fuses: &[Fuse; 12]) {
    match lost_disks(fuses) {
        Some(disks) => {
            let [one, other] = disks;
            error!(rt; "array failed: disks {one} and {other} missing at once");
        }
        None => error!(rt; "array failed: two disks missing at once"),
    }
}

impl History {
    fn new() -> History {
        History {
            next: FIRST_BYTES,
            memory: None,
            warned: 0,
        }
    }

    // Logs how many bytes it takes, where that is to be said.
    fn logged<R: Log>(self, rt: &R, system: Option<&HostRuntime>, bytes: u64) -> History {
        let next = log_bytes(rt, self.next, bytes);
        let memory = if self.next == FIRST_BYTES && next > FIRST_BYTES {
            memory_for(system, bytes)
        } else {
            self.memory
        };
        History {
            next,
            memory,
            warned: log_share(rt, self.warned, bytes, memory),
        }
    }
}

// The bytes that a history may take which takes some already.
fn memory_for(system: Option<&HostRuntime>, taken: u64) -> Option<u64> {
    Some(memory_left(system?)?.saturating_add(taken))
}

// Logs the memory of the history where it has reached `limit`, and returns that at which it is logged next.
fn log_bytes<R: Log>(rt: &R, limit: u64, bytes: u64) -> u64 {
    if bytes < limit {
        return limit;
    }
    info!(rt; "the history takes {bytes} bytes");
    bytes.saturating_mul(2)
}

// Warns where the history takes a greater part of the memory than the one that was warned of last, in percent, and
// returns that of which there was the last warning.
fn log_share<R: Log>(rt: &R, warned: u8, bytes: u64, memory: Option<u64>) -> u8
    ensures { result ≡ last_warned warned bytes memory }
{
    let Some(memory) = memory else {
        return warned;
    };
    let share = share_reached(bytes, memory);
    if share <= warned {
        return warned;
    }
    let (taken, whole) = (bytes >> 20, memory >> 20);
    warn!(rt; "the history takes {share} % of the memory: {taken} of {whole} MiB");
    share
}
