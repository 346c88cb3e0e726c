//! Runs of logs over zeros, and what may be left of them.
ghost use Rattle.std.specs.Prelude.{◌≡◌, [], false, IsTrue};
ghost use Rattle.ar_media.specs.Media.{Only};
ghost use Rattle.ar_media.specs.Memory.{memory_may_leave, memory_seen};
ghost use Rattle.ar_log.specs.Zeroed.{IsAhead};

use crate::draw::{Draw, batches_of};
use ar_log::{LogError, ZeroedLog, create_zeroed, read_zeroed, recover_zeroed, resume_zeroed};
use ar_media::{Media, MemoryFile};
use std::alloc::{AllocError, Global};
use std::process::Abort;

/// How many zeros a log begins with, how many it adds at a time, at least, and the batches that it gets: at first, and
/// once it is recovered.
#[derive(Drop)]
pub struct Plan {
    pub len: usize,
    pub step: usize,
    pub batches: Vec<Vec<Vec<u8>>>,
    pub later: Vec<Vec<Vec<u8>>>,
}

/// A run that has stopped.
#[derive(Drop)]
pub struct Life {
    pub file: MemoryFile,
    /// Whether the log was created.
    pub is_log: bool,
    /// The batches that it had and was to get, and how many of them were acknowledged.
    pub batches: Vec<Vec<Vec<u8>>>,
    pub done: usize,
}

impl Life {
    /// Whether all batches were acknowledged.
    pub fn is_whole(&self) -> bool {
        self.is_log && self.done == self.batches.len()
    }
}

/// The length of the magic.
pub const MAGIC: usize = 8;

/// The length of the three numbers before the body of a batch.
pub const NUMBERS: usize = 24;

/// The length of a batch: numbers, a digest, and records after their lengths.
pub fn len_of(batch: &[Vec<u8>]) -> usize {
    let mut len = NUMBERS + 8;
    for one in batch {
        len = len.saturating_add(8).saturating_add(one.len());
    }
    len
}

/// The plan that a seed gives: with zeros for all of its batches, or for none, or for some.
pub fn plan_of(rt: &impl Abort, alloc: Global, seed: u64) -> Plan {
    let mut draw = Draw::new(seed.wrapping_add(77));
    Plan {
        len: usize::from(draw.up_to(160)),
        step: usize::from(draw.up_to(70)),
        batches: batches_of(alloc, seed).expect(rt, "memory"),
        later: batches_of(alloc, seed.wrapping_add(1 << 32)).expect(rt, "memory"),
    }
}

/// The file, which has this much room, and each call of which fails but the first ones. A sync says that what it holds
/// is what a crash leaves.
pub fn limited(rt: &impl Abort, file: MemoryFile, calls: u64, room: usize) -> MemoryFile
    ensures seen { memory_seen result ≡ memory_seen file }
    ensures synced { Only (memory_seen result) (memory_may_leave result) }
{
    let mut file = file;
    file.set_room(room);
    file.fail_after(calls.saturating_add(1));
    file.sync().expect(rt, "the first call passes");
    file
}

/// A file with these bytes.
pub fn file_of(rt: &impl Abort, alloc: Global, bytes: &[u8]) -> MemoryFile
    ensures seen { memory_seen result ≡ bytes.now }
    ensures synced { Only (memory_seen result) (memory_may_leave result) }
{
    MemoryFile::new(alloc, bytes.to_vec(alloc).expect(rt, "memory")).expect(rt, "memory")
}

fn copied(rt: &impl Abort, batches: &Vec<Vec<Vec<u8>>>) -> Vec<Vec<Vec<u8>>> {
    batches.clone().expect(rt, "memory")
}

/// Creates a log and appends its first batches, on a file that fails after this many calls and has this much room.
pub fn run_zeroed(rt: &impl Abort, alloc: Global, plan: &Plan, calls: u64, room: usize) -> Life {
    let file = limited(rt, file_of(rt, alloc, &[]), calls, room);
    let batches = copied(rt, &plan.batches);
    match create_zeroed(alloc, file, plan.len, plan.step) {
        Err((_, file)) => Life {
            file,
            is_log: false,
            batches,
            done: 0,
        },
        Ok(log) => append_to(rt, alloc, log, batches, 0),
    }
}

/// Recovers what a crash has left of a run and appends the later batches, on a file that fails after this many calls.
pub fn run_again(
    rt: &impl Abort,
    alloc: Global,
    plan: &Plan,
    life: &Life,
    file: MemoryFile,
    calls: u64,
) -> Life {
    let mut file = limited(rt, file, calls, usize::MAX);
    match recover_zeroed(alloc, &mut file) {
        Err(_) => Life {
            file,
            is_log: life.is_log,
            batches: copied(rt, &life.batches),
            done: life.done,
        },
        Ok(found) => {
            check_batches(rt, life, &found.batches);
            let log = resume_zeroed(file, found.end, found.ahead, plan.step);
            let count = found.batches.len();
            let mut batches = found.batches;
            batches
                .append(&mut copied(rt, &plan.later))
                .expect(rt, "memory");
            append_to(rt, alloc, log, batches, count)
        }
    }
}

// Appends the batches to a log that has the first `count` of them, up to the first that fails.
fn append_to(
    rt: &impl Abort,
    alloc: Global,
    log: ZeroedLog<MemoryFile>,
    batches: Vec<Vec<Vec<u8>>>,
    count: usize,
) -> Life
    requires { log.is_closed ≡ false → IsAhead memory_seen memory_may_leave log }
{
    let mut log = log;
    let count = count.min(batches.len());
    let done = append_each(rt, alloc, &mut log, &batches[count..]);
    Life {
        file: log.media,
        is_log: true,
        batches,
        done: count.saturating_add(done),
    }
}

fn append_each<M: Media>(
    rt: &impl Abort,
    alloc: Global,
    log: &mut ZeroedLog<M>,
    batches: &[Vec<Vec<u8>>],
) -> usize
    requires { log.old.is_closed ≡ false → IsTrue (M.is_clean log.old.media) → IsAhead M.seen M.may_leave log.old }
{
    let mut done = 0;
    for batch in batches {
        if !append(rt, alloc, log, batch) {
            return done;
        }
        done = done.saturating_add(1);
    }
    done
}

// Appends a batch. A failure of the file closes the log.
fn append<M: Media>(
    rt: &impl Abort,
    alloc: Global,
    log: &mut ZeroedLog<M>,
    batch: &[Vec<u8>],
) -> bool
    requires { log.old.is_closed ≡ false → IsTrue (M.is_clean log.old.media) → IsAhead M.seen M.may_leave log.old }
    ensures { log.new.is_closed ≡ false → IsTrue (M.is_clean log.new.media) → IsAhead M.seen M.may_leave log.new }
{
    let Err(error) = log.append(alloc, batch) else {
        return true;
    };
    let is_closed = matches!(log.append(alloc, batch), Err(LogError::Closed));
    assert!(rt; is_closed, "open after {error:?}");
    false
}

/// The batches of a log with these bytes.
pub fn batches_in(alloc: Global, bytes: &[u8]) -> Result<Vec<Vec<Vec<u8>>>, LogError> {
    Ok(read_zeroed(alloc, bytes)?.batches)
}

/// Ends the test unless a crash may leave these bytes of a run: the batches that were acknowledged, with the next one
/// or without, or nothing of a log that was not created.
pub fn check_bytes(rt: &impl Abort, alloc: Global, life: &Life, bytes: &[u8]) {
    match batches_in(alloc, bytes) {
        Ok(found) => check_batches(rt, life, &found),
        Err(LogError::NotALog | LogError::OtherVersion) => {
            assert!(rt; !life.is_log, "no log in {bytes:?}");
        }
        Err(error) => panic!(rt; "{error:?} in {bytes:?}"),
    }
}

fn check_batches(rt: &impl Abort, life: &Life, found: &[Vec<Vec<u8>>]) {
    let count = found.len();
    let is_next = life.is_log && count == life.done.saturating_add(1);
    let allowed = (count == life.done || is_next) && life.batches.starts_with(found);
    assert!(rt;
        allowed,
        "after {} of {:?}: {found:?}",
        life.done, life.batches
    );
}
