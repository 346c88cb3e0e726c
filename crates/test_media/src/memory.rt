//! Files in memory: how they fail, fill up and crash.
use crate::steps::{Step, play};
use ar_media::Fate::{Done, Lost, Torn};
use ar_media::{Fate, MediaError, MemoryFile};
use std::alloc::{AllocError, Global};
use std::io::ErrorKind;
use std::process::Abort;

/// What a crash leaves after `PENDING`, by the fates of its write, its cut and its second write.
const CRASHES: [(&[Fate], &[u8]); 12] = [
    (&[], b"aXYZ"),
    (&[Done, Done, Done], b"aXYZ"),
    (&[Lost, Lost, Lost], b"abcdef"),
    (&[Done, Lost, Lost], b"aXcdef"),
    (&[Torn(0), Done, Lost], b"abc"),
    (&[Lost, Done, Done], b"abYZ"),
    (&[Lost, Lost, Done], b"abYZef"),
    (&[Torn(1)], b"aXY"),
    (&[Torn(0)], b"aXc"),
    (&[Torn(9)], b"aXYZ"),
    (&[Torn(5), Lost], b"aXcde"),
    (&[Torn(1), Lost], b"aXc"),
];

const PENDING: [Step; 5] = [
    Step::Write(0, b"abcdef"),
    Step::Sync,
    Step::Write(1, b"X"),
    Step::Cut(3),
    Step::Write(2, b"YZ"),
];

/// A file with these bytes.
fn file_of(rt: &HostRuntime, bytes: &[u8]) -> Result<MemoryFile, AllocError> {
    let alloc = rt.alloc();
    MemoryFile::new(alloc, bytes.to_vec(alloc)?)
}

fn holds(rt: &impl Abort, file: &MemoryFile, bytes: &[u8]) {
    assert!(rt; file.bytes() == bytes, "{:?}", file.bytes());
}

fn leaves(rt: &impl Abort, file: &MemoryFile, fates: &[Fate], bytes: &[u8]) {
    let left = file.after_crash(fates).expect(rt, "memory");
    assert!(rt; left.bytes() == bytes, "{fates:?}: {:?}", left.bytes());
}

#[test]
fn calls_succeed(rt: HostRuntime) -> Result<(), AllocError> {
    let mut file = file_of(&rt, b"abc")?;
    play(
        &rt,
        &mut file,
        &[
            Step::Len(3),
            Step::Read(1, b"bc"),
            Step::ReadPastEnd(2, 2),
            Step::Write(2, b"xyz"),
            Step::Read(0, b"abxyz"),
            Step::Cut(1),
            Step::Sync,
            Step::Len(1),
        ],
    );
    holds(&rt, &file, b"a");
    drop(file);
    Ok(())
}

#[test]
fn what_fits_is_written(rt: HostRuntime) -> Result<(), AllocError> {
    let mut file = file_of(&rt, b"abc")?;
    file.set_room(4);
    play(
        &rt,
        &mut file,
        &[
            Step::WriteFull(2, b"xyz"),
            Step::Read(0, b"abxy"),
            Step::Sync,
        ],
    );
    drop(file);
    Ok(())
}

#[test]
fn a_failed_sync_closes(rt: HostRuntime) -> Result<(), AllocError> {
    let mut file = file_of(&rt, b"abc")?;
    play(&rt, &mut file, &[Step::Write(0, b"x")]);
    file.fail_after(0);
    play(
        &rt,
        &mut file,
        &[Step::AllFail(MediaError::Failed(ErrorKind::Other))],
    );
    file.fail_after(u64::MAX);
    play(&rt, &mut file, &[Step::AllFail(MediaError::Closed)]);
    holds(&rt, &file, b"xbc");
    leaves(&rt, &file, &[Lost], b"abc");
    drop(file);
    Ok(())
}

#[test]
fn crashes_leave_what_they_are_reported_to(rt: HostRuntime) -> Result<(), AllocError> {
    let mut file = file_of(&rt, b"")?;
    play(&rt, &mut file, &PENDING);
    for (fates, bytes) in CRASHES {
        leaves(&rt, &file, fates, bytes);
    }
    drop(file);
    Ok(())
}
