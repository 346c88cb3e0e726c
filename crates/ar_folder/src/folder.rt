// A store in a folder: three files, each locked while it is open. It is there once its selector names a log: until then
// a creation may be repeated over what one that was killed has left.
ghost use Rattle.std.specs.Prelude.{◌≡◌, ◌≤◌, IfOk, IsTrue, length};
ghost use Rattle.ar_media.specs.Media.{Only};
ghost use Rattle.ar_media.specs.Regular.{regular_is_clean, regular_may_leave, regular_seen};
ghost use Rattle.ar_journal.specs.Files.{AreDurable};
ghost use Rattle.ar_journal.specs.Reader.{IsReading, batches_read};
ghost use Rattle.ar_checkpoint.specs.Successor.{IsHeadAlone};

use ar_checkpoint::{CheckpointError, RestartError, open_store};
use ar_compaction::{StoreHead, encode_head};
use ar_journal::{JournalFiles, JournalReader, create};
use ar_media::RegularFile;
use std::alloc::{AllocError, Global};
use std::fs::{self, File};
use std::io::{self, ErrorKind};
use std::os::unix::fs::MetadataExt;
use std::path::Path;

/// The file whose first byte names the log that is written.
const SELECTOR: &str = "selector";

/// The first log.
const FIRST: &str = "first.log";

/// The second log.
const SECOND: &str = "second.log";

/// The kernel's table of locks (proc(5)).
const LOCKS: &str = "/proc/locks";

/// Why a store isn't created or opened.
#[derive(Clone, Copy, Debug, PartialEq, Eq)]
pub enum FolderError {
    /// There is no store in the folder.
    NoStore,
    /// There is a store in the folder.
    Exists,
    /// Some of a store's files are missing.
    Incomplete,
    /// A log isn't replaced by a compaction, and stays.
    Checkpoint(CheckpointError),
    /// Another program has it open: the process of this number, where the system says that.
    InUse(Option<u32>),
    /// The folder or a file can't be made, opened or read.
    Files(ErrorKind),
    /// Its files hold no store that this program reads.
    Contents(RestartError),
    /// They hold the store of another array than those of the other copy.
    OtherArray,
}

// The paths of the files.
#[derive(Drop)]
struct Paths {
    selector: String,
    first: String,
    second: String,
}

impl From<AllocError> for FolderError {
    fn from(_: AllocError) -> FolderError {
        FolderError::Contents(RestartError::NoMemory)
    }
}

impl From<io::Error> for FolderError {
    fn from(error: io::Error) -> FolderError {
        FolderError::Files(error.kind())
    }
}

impl Paths {
    fn new(alloc: Global, folder: &str) -> Result<Paths, AllocError> {
        Ok(Paths {
            selector: path_of(alloc, folder, SELECTOR)?,
            first: path_of(alloc, folder, FIRST)?,
            second: path_of(alloc, folder, SECOND)?,
        })
    }

    // Whether the selector names a log. One that is empty or isn't there names none.
    fn have_store(&self, rt: &HostRuntime) -> io::Result<bool> {
        let selector = len_of(rt, self.selector.as_str())?;
        Ok(!matches!(selector, None | Some(0)))
    }

    // Whether both logs are there.
    fn have_logs(&self, rt: &HostRuntime) -> io::Result<bool> {
        let first = len_of(rt, self.first.as_str())?;
        let second = len_of(rt, self.second.as_str())?;
        Ok(first.is_some() && second.is_some())
    }

    // Opens the files, each locked, or creates them.
    fn open(&self, rt: &HostRuntime) -> Result<JournalFiles<RegularFile>, FolderError>
        ensures { IfOk result (AreDurable regular_seen regular_may_leave) }
    {
        Ok(JournalFiles {
            selector: open_file(rt, self.selector.as_str())?,
            first: open_file(rt, self.first.as_str())?,
            second: open_file(rt, self.second.as_str())?,
        })
    }
}

/// Creates a store with this head and no record in a folder, which is made unless it is there. An error, as a crash at
/// any moment, leaves this store or none, and then the call can be repeated.
pub fn create_in(
    rt: &HostRuntime,
    alloc: Global,
    folder: &str,
    head: &StoreHead,
) -> Result<(), FolderError>
    requires { length head.now.name.items ≤ 64 }
{
    make_folder(rt, folder)?;
    let paths = Paths::new(alloc, folder)?;
    if paths.have_store(rt)? {
        return Err(FolderError::Exists);
    }
    let bytes = encode_head(alloc, head)?;
    let files = paths.open(rt)?;
    // Another program may have created one before the files were locked.
    if paths.have_store(rt)? {
        return Err(FolderError::Exists);
    }
    match create(alloc, files, &bytes) {
        Ok(_journal) => Ok(()),
        Err((error, _files)) => Err(FolderError::Contents(RestartError::Journal(error))),
    }
}

/// Opens the store in a folder and reads its head. No file is created or written.
pub fn open_in(
    rt: &HostRuntime,
    alloc: Global,
    folder: &str,
) -> Result<(StoreHead, JournalReader<RegularFile>), FolderError>
    ensures reading { IfOk result (λ r. IsReading regular_seen regular_may_leave regular_is_clean r.1) }
    ensures head { IfOk result (λ r. IsTrue (regular_is_clean r.1.active)
        → IsHeadAlone (batches_read regular_seen r.1)) }
{
    let files = store_files(rt, alloc, folder)?;
    match open_store(alloc, files) {
        Ok(opened) => Ok(opened),
        Err(error) => Err(FolderError::Contents(error)),
    }
}

/// The files of the store in a folder. None is created or written.
pub(crate) fn store_files(
    rt: &HostRuntime,
    alloc: Global,
    folder: &str,
) -> Result<JournalFiles<RegularFile>, FolderError>
    ensures { IfOk result (AreDurable regular_seen regular_may_leave) }
{
    let paths = Paths::new(alloc, folder)?;
    if !paths.have_store(rt)? {
        return Err(FolderError::NoStore);
    }
    if !paths.have_logs(rt)? {
        return Err(FolderError::Incomplete);
    }
    paths.open(rt)
}

/// The files of a store in a folder. What isn't there is made.
pub(crate) fn made_files(
    rt: &HostRuntime,
    alloc: Global,
    folder: &str,
) -> Result<JournalFiles<RegularFile>, FolderError>
    ensures { IfOk result (AreDurable regular_seen regular_may_leave) }
{
    make_folder(rt, folder)?;
    Paths::new(alloc, folder)?.open(rt)
}

/// Whether there is a store in a folder.
pub fn has_store(rt: &HostRuntime, alloc: Global, folder: &str) -> Result<bool, FolderError> {
    let found = Paths::new(alloc, folder)?.have_store(rt)?;
    Ok(found)
}

// Makes a folder, whose name lasts, unless it is there.
fn make_folder(rt: &HostRuntime, folder: &str) -> io::Result<()> {
    match fs::create_dir(rt, folder) {
        Ok(()) => {}
        Err(error) if error.kind() == ErrorKind::AlreadyExists => {}
        Err(error) => return Err(error),
    }
    let parent = match Path::new(folder).parent() {
        Some(parent) if !parent.as_str().is_empty() => parent.as_str(),
        _ => ".",
    };
    File::open(rt, parent)?.sync_all()
}

// Opens a file, locked, or creates it.
fn open_file(rt: &HostRuntime, path: &str) -> Result<RegularFile, FolderError>
    ensures { IfOk result (λ file. Only (regular_seen file) (regular_may_leave file)) }
{
    match RegularFile::open(rt, path) {
        Ok(file) => Ok(file),
        Err(error) if error.kind() == ErrorKind::WouldBlock => {
            Err(FolderError::InUse(holder_of(rt, path)))
        }
        Err(error) => Err(FolderError::Files(error.kind())),
    }
}

// The number of the process that has a file locked. The kernel knows it, so that no file has to say it, which a kill
// would leave behind. `None` where it has no table, as in some containers, or has other numbers for the device there
// than for a file, as of btrfs.
fn holder_of(rt: &HostRuntime, path: &str) -> Option<u32> {
    let found = fs::symlink_metadata(rt, path).ok()?;
    let (device, node) = (found.dev(), found.ino());
    // The parts of a device's number (makedev(3)); the kernel's majors have 12 bits, its minors 20.
    let (major, minor) = (device >> 8 & 0xFFF, device & 0xFF | device >> 12 & 0xF_FF00);
    let file = format!(in rt.alloc(); "{major:02x}:{minor:02x}:{node}").ok()?;
    let locks = fs::read_to_string(rt, LOCKS).ok()?;
    for line in locks.lines() {
        if let Some(process) = holder_in(line, file.as_str()) {
            return Some(process);
        }
    }
    None
}

// The number of a process in a line `1: FLOCK  ADVISORY  WRITE 1234 fe:00:5678 0 EOF`, if it is about this file.
fn holder_in(line: &str, file: &str) -> Option<u32> {
    let mut words = line.split_whitespace().skip(1);
    if words.next()? != "FLOCK" {
        return None;
    }
    let process = words.nth(2)?;
    if words.next()? != file {
        return None;
    }
    process.parse().ok()
}

// The length of the file of this name, if there is one.
fn len_of(rt: &HostRuntime, path: &str) -> io::Result<Option<u64>> {
    match fs::symlink_metadata(rt, path) {
        Ok(found) => Ok(Some(found.len())),
        Err(error) if error.kind() == ErrorKind::NotFound => Ok(None),
        Err(error) => Err(error),
    }
}

// The path of a file in a folder.
fn path_of(alloc: Global, folder: &str, name: &str) -> Result<String, AllocError> {
    let mut path = String::from_str(alloc, folder)?;
    path.push_str("/")?;
    path.push_str(name)?;
    Ok(path)
}
