// Opening a regular file so that nothing else writes to it: an exclusive lock, no link, no second name.
use std::fs::{self, File, OpenOptions};
use std::io::{self, ErrorKind};
use std::os::fd::AsRawFd;
use std::os::unix::fs::{MetadataExt, OpenOptionsExt};
use std::path::Path;

/// Readable and writable by its owner alone.
const MODE: u32 = 0o600;

/// The regular file at `path`, locked against every other open of it, with its contents and its name on the disk.
pub(crate) fn open_locked(rt: &HostRuntime, path: &str) -> io::Result<File> {
    let file = open_or_create(rt, path)?;
    file.try_lock()?;
    check_name(rt, &file, path)?;
    file.sync_all()?;
    drop_cached(&file)?;
    sync_folder(rt, path)?;
    Ok(file)
}

// A name that is there is opened only if it is a regular file's, so that opening it has no effect on anything else.
fn open_or_create(rt: &HostRuntime, path: &str) -> io::Result<File> {
    let mut options = OpenOptions::new();
    options.read(true).write(true).mode(MODE);
    let file = match options.create_new(true).open(rt, path) {
        Err(error) if error.kind() == ErrorKind::AlreadyExists => {
            if !fs::symlink_metadata(rt, path)?.is_file() {
                return Err(not_regular());
            }
            options.create_new(false).open(rt, path)?
        }
        created => created?,
    };
    // What is written to a standard stream that was closed must not reach the file.
    if file.as_raw_fd() <= 2 {
        return file.try_clone();
    }
    Ok(file)
}

// Under the lock: the name still leads to the file, directly, and no other name does.
fn check_name(rt: &HostRuntime, file: &File, path: &str) -> io::Result<()> {
    let (found, named) = (file.metadata()?, fs::symlink_metadata(rt, path)?);
    let is_named = found.dev() == named.dev() && found.ino() == named.ino();
    if is_named && found.is_file() && found.nlink() == 1 {
        Ok(())
    } else {
        Err(not_regular())
    }
}

fn not_regular() -> io::Error {
    io::Error::new(ErrorKind::InvalidInput, "not a regular file with one name")
}

// What the kernel still holds of the file may not be what is on the disk, if a sync of an earlier process failed.
fn drop_cached(file: &File) -> io::Result<()> {
    match libc::posix_fadvise(file.as_raw_fd(), 0, 0, libc::POSIX_FADV_DONTNEED) {
        0 => Ok(()),
        code => Err(io::Error::from_raw_os_error(code)),
    }
}

/// Syncs the folder of `path`, so that a name that was created or replaced there lasts.
pub(crate) fn sync_folder(rt: &HostRuntime, path: &str) -> io::Result<()> {
    let path = Path::new(path);
    let folder = match path.parent() {
        Some(parent) if !parent.as_str().is_empty() => parent.as_str(),
        _ => ".",
    };
    File::open(rt, folder)?.sync_all()
}
