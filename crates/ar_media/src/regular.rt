// A regular file of the operating system. Each call of the trait makes one call of the file, or repeats it until all
// bytes are done, and then records it with its answer. What the contracts say of values follows from the record alone.
ghost use Rattle.std.specs.Prelude.{◌≡◌, ◌<◌, ◌≤◌, length, IsTrue, IfOk, OnOk, OnErr};
ghost use Rattle.ar_media.specs.Media.{is_fault, Only};
ghost use Rattle.ar_media.specs.Calls.{seen_of, LeftNow, LeftSince, failed_calls, is_clean_of};
ghost use Rattle.ar_media.specs.CallLaws.{seen_stays, only_newest};
ghost use Rattle.std.proofs.Common.{inl};

use crate::open::{open_locked, sync_folder};
use crate::record::{Call, CallRecord};
use crate::{Media, MediaError};
use std::fs::{self, File};
use std::io::{self, ErrorKind};
use std::os::unix::fs::FileExt;

/// A regular file that nothing else may open for writing, under an exclusive lock until it is dropped.
#[derive(Drop)]
pub struct RegularFile {
    file: File,
    history: CallRecord,
    is_open: bool,
}

impl RegularFile {
    ghost use Rattle.ar_media.specs.Regular.{regular_seen, regular_may_leave, regular_is_clean, regular_is_usable};

    /// Opens the regular file at `path`, or creates an empty one that its owner alone may read and write. Its name and
    /// what it holds are synced.
    ///
    /// A file that is locked is `WouldBlock`. A link, a folder, a device or a file with two names is `InvalidInput`,
    /// and is not followed, changed or waited for.
    pub fn open(rt: &HostRuntime, path: &str) -> io::Result<RegularFile>
        ensures synced { IfOk result (λ file. Only (regular_seen file) (regular_may_leave file)) }
        ensures clean { IfOk result (λ file. IsTrue (regular_is_clean file)) }
        ensures usable { IfOk result (λ file. IsTrue (regular_is_usable file)) }
    {
        let file = open_locked(rt, path)?;
        Ok(RegularFile {
            file,
            history: CallRecord::new(),
            is_open: true,
        })
    }
}

/// Gives the file at `from` the name `to`, in place of the file that has it, and syncs the folder of `to`. Both names
/// are in that folder.
pub fn replace_file(rt: &HostRuntime, from: &str, to: &str) -> io::Result<()> {
    fs::rename(rt, from, to)?;
    sync_folder(rt, to)
}

// A full disk is told apart from other failures.
fn error_of(error: &io::Error) -> MediaError
    ensures { IsTrue (is_fault result) }
{
    match error.kind() {
        ErrorKind::StorageFull | ErrorKind::QuotaExceeded => MediaError::Full,
        kind => MediaError::Failed(kind),
    }
}

// Writes the bytes, and returns how many of them were written before it succeeded or failed.
fn write_front(file: &File, at: usize, bytes: &[u8]) -> (usize, io::Result<()>)
    ensures front { result.0 ≤ length bytes.now }
    ensures whole { OnOk result.1 (result.0 ≡ length bytes.now) }
    ensures part { OnErr result.1 (result.0 < length bytes.now) }
{
    let mut done = 0;
    for _ in 0..u64::MAX {
        if done == bytes.len() {
            break;
        }
        match file.write_at(&bytes[done..], at.saturating_add(done) as u64) {
            Ok(0) => return (done, Err(ErrorKind::WriteZero.into())),
            Ok(n) => done += n,
            Err(error) if error.kind() == ErrorKind::Interrupted => {}
            Err(error) => return (done, Err(error)),
        }
    }
    if done == bytes.len() {
        (done, Ok(()))
    } else {
        (done, Err(ErrorKind::TimedOut.into()))
    }
}

impl Media for RegularFile {
    ghost seen = { λ f. seen_of f.history.first f.history.calls };

    ghost may_leave = { λ f. LeftNow f.history.first f.history.calls };

    ghost moment = { λ f. length f.history.calls };

    ghost left_since = { λ f. LeftSince f.history.first f.history.calls };

    ghost faults = { λ f. failed_calls f.history.calls };

    ghost is_clean = { λ f. is_clean_of f.history.first f.history.calls };

    ghost is_usable = { λ f. f.is_open };

    ghost seen_may_stay = { λ f. seen_stays f.history.first f.history.calls };

    ghost counts_now = { λ f t c le now. inl now };

    ghost only_now = { λ f c left. only_newest f.history.first f.history.calls c left };

    fn len(&mut self) -> Result<usize, MediaError> {
        if !self.is_open {
            return Err(MediaError::Closed);
        }
        match self.file.metadata() {
            Ok(found) => {
                let len = found.len() as usize;
                self.history.note(&Call::Measured(len), &[]);
                Ok(len)
            }
            Err(error) => {
                self.history.note(&Call::Failed, &[]);
                Err(error_of(&error))
            }
        }
    }

    fn read_at(&mut self, at: usize, buf: &mut [u8]) -> Result<(), MediaError> {
        if !self.is_open {
            return Err(MediaError::Closed);
        }
        match self.file.read_exact_at(buf, at as u64) {
            Ok(()) => {
                self.history.note(&Call::Read(at), buf);
                Ok(())
            }
            Err(error) => {
                self.history.note(&Call::Failed, &[]);
                Err(error_of(&error))
            }
        }
    }

    fn write_at(&mut self, at: usize, bytes: &[u8]) -> Result<(), MediaError> {
        if !self.is_open {
            return Err(MediaError::Closed);
        }
        let (done, outcome) = write_front(&self.file, at, bytes);
        self.history.note(&Call::Wrote(at, done), bytes);
        match outcome {
            Ok(()) => Ok(()),
            Err(error) => Err(error_of(&error)),
        }
    }

    fn cut(&mut self, len: usize) -> Result<(), MediaError> {
        if !self.is_open {
            return Err(MediaError::Closed);
        }
        match self.file.set_len(len as u64) {
            Ok(()) => {
                self.history.note(&Call::Resized(len, true), &[]);
                Ok(())
            }
            Err(error) => {
                self.history.note(&Call::Resized(len, false), &[]);
                Err(error_of(&error))
            }
        }
    }

    fn sync(&mut self) -> Result<(), MediaError> {
        if !self.is_open {
            return Err(MediaError::Closed);
        }
        match self.file.sync_data() {
            Ok(()) => {
                self.history.note(&Call::Synced, &[]);
                Ok(())
            }
            Err(error) => {
                self.is_open = false;
                self.history.note(&Call::Failed, &[]);
                Err(error_of(&error))
            }
        }
    }
}
