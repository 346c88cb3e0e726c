//! Regular files: what lasts, and which files are refused.
use crate::steps::{Step, play};
use ar_media::{RegularFile, replace_file};
use std::fs::{self, Metadata};
use std::io::{self, ErrorKind};
use std::os::unix::fs::{MetadataExt, symlink};
use std::process::Abort;

/// Opening a file has failed with an error of this kind.
fn is_refused(rt: &impl Abort, opened: io::Result<RegularFile>, kind: ErrorKind) {
    let found = match opened {
        Ok(file) => {
            drop(file);
            None
        }
        Err(error) => Some(error.kind()),
    };
    assert!(rt; found == Some(kind), "{found:?} for {kind:?}");
}

fn begin(rt: &HostRuntime, folder: &str) -> io::Result<()> {
    let _ = fs::remove_dir_all(rt, folder);
    fs::create_dir(rt, folder)
}

fn has_mode(rt: &impl Abort, found: io::Result<Metadata>, mode: u32) {
    let found = found.map(|found| found.mode() & 0o777);
    assert!(rt; matches!(found, Ok(found) if found == mode), "{mode:o}");
}

#[test]
fn a_file_is_written_and_opened_again(rt: HostRuntime) -> io::Result<()> {
    begin(&rt, "test_media_written")?;
    let mut file = RegularFile::open(&rt, "test_media_written/log")?;
    play(
        &rt,
        &mut file,
        &[
            Step::Len(0),
            Step::Write(0, b"abcdef"),
            Step::Sync,
            Step::Write(8, b"g"),
            Step::Len(9),
            Step::Read(4, b"ef\0\0g"),
            Step::ReadPastEnd(5, 5),
            Step::Cut(3),
            Step::Sync,
        ],
    );
    is_refused(
        &rt,
        RegularFile::open(&rt, "test_media_written/log"),
        ErrorKind::WouldBlock,
    );
    has_mode(&rt, fs::metadata(&rt, "test_media_written/log"), 0o600);
    drop(file);
    let mut file = RegularFile::open(&rt, "test_media_written/log")?;
    play(&rt, &mut file, &[Step::Len(3), Step::Read(0, b"abc")]);
    drop(file);
    fs::remove_dir_all(&rt, "test_media_written")
}

#[test]
fn a_file_takes_the_place_of_another(rt: HostRuntime) -> io::Result<()> {
    begin(&rt, "test_media_replaced")?;
    let mut old = RegularFile::open(&rt, "test_media_replaced/log")?;
    let mut new = RegularFile::open(&rt, "test_media_replaced/new")?;
    play(&rt, &mut old, &[Step::Write(0, b"old"), Step::Sync]);
    play(&rt, &mut new, &[Step::Write(0, b"new"), Step::Sync]);
    replace_file(&rt, "test_media_replaced/new", "test_media_replaced/log")?;
    drop(old);
    is_refused(
        &rt,
        RegularFile::open(&rt, "test_media_replaced/log"),
        ErrorKind::WouldBlock,
    );
    drop(new);
    let mut file = RegularFile::open(&rt, "test_media_replaced/log")?;
    play(&rt, &mut file, &[Step::Read(0, b"new")]);
    drop(file);
    fs::remove_dir_all(&rt, "test_media_replaced")
}

#[test]
fn only_a_regular_file_with_one_name_is_opened(rt: HostRuntime) -> io::Result<()> {
    begin(&rt, "test_media_refused")?;
    fs::write(&rt, "test_media_refused/file", b"kept".as_slice())?;
    symlink(&rt, "file", "test_media_refused/link")?;
    symlink(&rt, "none", "test_media_refused/loose")?;
    is_refused(
        &rt,
        RegularFile::open(&rt, "test_media_refused/link"),
        ErrorKind::InvalidInput,
    );
    is_refused(
        &rt,
        RegularFile::open(&rt, "test_media_refused/loose"),
        ErrorKind::InvalidInput,
    );
    is_refused(
        &rt,
        RegularFile::open(&rt, "test_media_refused"),
        ErrorKind::InvalidInput,
    );
    is_refused(
        &rt,
        RegularFile::open(&rt, "/dev/null"),
        ErrorKind::InvalidInput,
    );
    is_refused(
        &rt,
        RegularFile::open(&rt, "test_media_refused/none/file"),
        ErrorKind::NotFound,
    );
    fs::hard_link(&rt, "test_media_refused/file", "test_media_refused/second")?;
    is_refused(
        &rt,
        RegularFile::open(&rt, "test_media_refused/file"),
        ErrorKind::InvalidInput,
    );
    fs::remove_file(&rt, "test_media_refused/second")?;
    let mut file = RegularFile::open(&rt, "test_media_refused/file")?;
    play(&rt, &mut file, &[Step::Read(0, b"kept")]);
    drop(file);
    fs::remove_dir_all(&rt, "test_media_refused")
}
