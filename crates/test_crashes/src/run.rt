//! A run over a file in memory, and what it may leave.
ghost use Rattle.std.specs.Prelude.{◌≡◌, false, IsTrue};
ghost use Rattle.ar_log.specs.Log.{IsSynced};

use ar_log::{Log, LogError, Place, create, next_batch, open};
use ar_media::{Fate, Media, MemoryFile};
use std::alloc::{AllocError, Global};
use std::process::Abort;

/// What the head of each log is.
pub const HEAD: &[u8] = b"head";

/// A run that has stopped.
#[derive(Drop)]
pub struct Stopped {
    pub file: MemoryFile,
    /// Whether the log was created.
    pub is_log: bool,
    /// How many batches were acknowledged.
    pub done: usize,
}

/// Creates a log and appends the batches, on a file that fails after this many calls and has this much room.
pub fn run(
    alloc: Global,
    batches: &[Vec<Vec<u8>>],
    calls: u64,
    room: usize,
) -> Result<Stopped, AllocError> {
    let mut file = MemoryFile::new(alloc, Vec::new(alloc))?;
    file.fail_after(calls);
    file.set_room(room);
    match create(alloc, file, HEAD) {
        Err((_, file)) => Ok(Stopped {
            file,
            is_log: false,
            done: 0,
        }),
        Ok(mut log) => {
            let done = append_all(alloc, &mut log, batches);
            Ok(Stopped {
                file: log.media,
                is_log: true,
                done,
            })
        }
    }
}

// Appends the batches up to the first that fails, and returns how many were acknowledged.
fn append_all<M: Media>(alloc: Global, log: &mut Log<M>, batches: &[Vec<Vec<u8>>]) -> usize
    requires { log.old.is_closed ≡ false → IsTrue (M.is_clean log.old.media) → IsSynced M.seen M.may_leave log.old }
{
    let mut done = 0;
    for batch in batches {
        if !append(alloc, log, batch) {
            return done;
        }
        done = done.saturating_add(1);
    }
    done
}

fn append<M: Media>(alloc: Global, log: &mut Log<M>, batch: &[Vec<u8>]) -> bool
    requires { log.old.is_closed ≡ false → IsTrue (M.is_clean log.old.media) → IsSynced M.seen M.may_leave log.old }
    ensures { IsTrue result → log.new.is_closed ≡ false → IsTrue (M.is_clean log.new.media)
        → IsSynced M.seen M.may_leave log.new }
{
    log.append(alloc, batch).is_ok()
}

/// The batches of a log, its head's first.
pub fn read_all(alloc: Global, file: &mut MemoryFile) -> Result<Vec<Vec<Vec<u8>>>, LogError> {
    let mut batches = Vec::new(alloc);
    let _ = read_on(alloc, file, &mut batches)?;
    Ok(batches)
}

/// The closed gate after the last batch of a log.
pub fn end_of(alloc: Global, file: &mut MemoryFile) -> Result<Place, LogError> {
    let mut batches = Vec::new(alloc);
    read_on(alloc, file, &mut batches)
}

fn read_on(
    alloc: Global,
    file: &mut MemoryFile,
    batches: &mut Vec<Vec<Vec<u8>>>,
) -> Result<Place, LogError> {
    let mut place = open(alloc, file)?;
    for _ in 0..u64::MAX {
        match next_batch(alloc, file, place)? {
            None => return Ok(place),
            Some(read) => {
                place = read.next;
                batches.push(read.records)?;
            }
        }
    }
    Ok(place)
}

/// Ends the test unless a crash may leave this of a run: the log with the batches that were acknowledged, with the next
/// one or without, or nothing of a log that was not created.
pub fn check(
    rt: &impl Abort,
    stopped: &Stopped,
    batches: &[Vec<Vec<u8>>],
    found: Result<Vec<Vec<Vec<u8>>>, LogError>,
) {
    let allowed = match &found {
        Ok(found) => may_hold(stopped, batches, found),
        Err(LogError::NotALog | LogError::OtherVersion) => !stopped.is_log,
        Err(_) => false,
    };
    assert!(rt; allowed, "after {} of {batches:?}: {found:?}", stopped.done);
}

fn may_hold(stopped: &Stopped, batches: &[Vec<Vec<u8>>], found: &[Vec<Vec<u8>>]) -> bool {
    match found {
        [] => false,
        [head, rest @ ..] => {
            has_head(head)
                && (rest.len() == stopped.done
                    || (stopped.is_log && rest.len() == stopped.done.saturating_add(1)))
                && rest.len() <= batches.len()
                && batches.starts_with(rest)
        }
    }
}

fn has_head(batch: &[Vec<u8>]) -> bool {
    match batch {
        [only] => only.as_slice() == HEAD,
        _ => false,
    }
}

/// The file as a crash left it.
pub fn left(rt: &impl Abort, file: &MemoryFile, fates: &[Fate]) -> MemoryFile {
    file.after_crash(fates).expect(rt, "memory")
}
