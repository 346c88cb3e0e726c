//! Files in two copies: which copy is written and read, what is reported, and when one is given up.
use crate::steps::{Step, play};
use ar_copies::{CopiedFile, CopiedMedia, Losses, OtherCopy, Which};
use ar_media::{MediaError, MemoryFile};
use std::alloc::AllocError;
use std::io::ErrorKind;
use std::process::Abort;

const FAILED: MediaError = MediaError::Failed(ErrorKind::Other);

/// Ten calls, of each kind.
const CALLS: [Step; 10] = [
    Step::Write(0, b"abcd"),
    Step::Sync,
    Step::Len(4),
    Step::Read(1, b"bc"),
    Step::Write(2, b"XYZ"),
    Step::Cut(4),
    Step::Sync,
    Step::Read(0, b"abXY"),
    Step::Write(0, b"Q"),
    Step::Len(4),
];

/// A file with these bytes whose first `calls` calls succeed and all later ones fail.
fn file_of(rt: &HostRuntime, bytes: &[u8], calls: u64) -> Result<MemoryFile, AllocError> {
    let alloc = rt.alloc();
    let mut file = MemoryFile::new(alloc, bytes.to_vec(alloc)?)?;
    file.fail_after(calls);
    Ok(file)
}

/// What the copies hold: that which reads ask first, and the other.
fn hold(rt: &impl Abort, file: &CopiedFile<'_, MemoryFile>, first: &[u8], other: &[u8]) {
    let copies = file.copies();
    assert!(rt;
        copies.reference.bytes() == first,
        "{:?}",
        copies.reference.bytes()
    );
    match &copies.other {
        OtherCopy::Absent => assert!(rt; other.is_empty(), "no other copy"),
        OtherCopy::InUse(copy) | OtherCopy::GivenUp(copy) | OtherCopy::Gone(copy) => {
            assert!(rt; copy.bytes() == other, "{:?}", copy.bytes());
        }
    }
}

/// One copy is given up, and the other holds these bytes.
fn goes_on(rt: &impl Abort, file: &CopiedFile<'_, MemoryFile>, bytes: &[u8], calls: u64) {
    assert!(rt; file.is_degraded(), "after {calls} calls");
    assert!(rt;
        file.copies().reference.bytes() == bytes,
        "after {calls} calls"
    );
}

fn is_lost(rt: &impl Abort, losses: &Losses, copy: Which, cause: MediaError) {
    assert!(rt;
        losses.cause(copy) == Some(cause),
        "{:?}",
        losses.cause(copy)
    );
    assert!(rt; losses.cause(copy.other()) == None, "both are lost");
}

#[test]
fn both_copies_are_written(rt: HostRuntime) -> Result<(), AllocError> {
    let losses = Losses::new();
    let first = file_of(&rt, b"", u64::MAX)?;
    let second = file_of(&rt, b"", u64::MAX)?;
    let mut file = CopiedFile::pair(first, second, &losses);
    play(&rt, &mut file, &CALLS);
    hold(&rt, &file, b"QbXY", b"QbXY");
    assert!(rt; !file.is_degraded() && losses.lost() == None);
    drop(file);
    Ok(())
}

#[test]
fn the_first_fails_at_each_call(rt: HostRuntime) -> Result<(), AllocError> {
    for calls in 0..10 {
        let losses = Losses::new();
        let first = file_of(&rt, b"", calls)?;
        let second = file_of(&rt, b"", u64::MAX)?;
        let mut file = CopiedFile::pair(first, second, &losses);
        play(&rt, &mut file, &CALLS);
        goes_on(&rt, &file, b"QbXY", calls);
        is_lost(&rt, &losses, Which::First, FAILED);
        drop(file);
    }
    Ok(())
}

// Reads and lengths, four of the ten calls, are asked of the first copy alone.
#[test]
fn the_second_fails_at_each_call(rt: HostRuntime) -> Result<(), AllocError> {
    for calls in 0..6 {
        let losses = Losses::new();
        let first = file_of(&rt, b"", u64::MAX)?;
        let second = file_of(&rt, b"", calls)?;
        let mut file = CopiedFile::pair(first, second, &losses);
        play(&rt, &mut file, &CALLS);
        goes_on(&rt, &file, b"QbXY", calls);
        is_lost(&rt, &losses, Which::Second, FAILED);
        drop(file);
    }
    Ok(())
}

#[test]
fn a_copy_given_up_is_not_written(rt: HostRuntime) -> Result<(), AllocError> {
    let losses = Losses::new();
    let mut first = file_of(&rt, b"abc", u64::MAX)?;
    first.set_room(3);
    let second = file_of(&rt, b"abc", u64::MAX)?;
    let mut file = CopiedFile::pair(first, second, &losses);
    play(
        &rt,
        &mut file,
        &[Step::Write(2, b"XY"), Step::Write(0, b"Q")],
    );
    hold(&rt, &file, b"QbXY", b"abX");
    is_lost(&rt, &losses, Which::First, MediaError::Full);
    drop(file);
    Ok(())
}

#[test]
fn both_fail(rt: HostRuntime) -> Result<(), AllocError> {
    let losses = Losses::new();
    let mut first = file_of(&rt, b"abc", u64::MAX)?;
    first.set_room(3);
    let second = file_of(&rt, b"abc", 0)?;
    let mut file = CopiedFile::pair(first, second, &losses);
    play(
        &rt,
        &mut file,
        &[Step::WriteFull(2, b"XY"), Step::Write(0, b"Q")],
    );
    hold(&rt, &file, b"QbX", b"abc");
    is_lost(&rt, &losses, Which::Second, FAILED);
    drop(file);
    Ok(())
}

#[test]
fn a_read_past_the_end_gives_up_no_copy(rt: HostRuntime) -> Result<(), AllocError> {
    let losses = Losses::new();
    let first = file_of(&rt, b"abc", u64::MAX)?;
    let second = file_of(&rt, b"abc", u64::MAX)?;
    let mut file = CopiedFile::pair(first, second, &losses);
    play(
        &rt,
        &mut file,
        &[Step::ReadPastEnd(2, 2), Step::Read(0, b"abc")],
    );
    assert!(rt; !file.is_degraded() && losses.lost() == None);
    drop(file);
    Ok(())
}

#[test]
fn a_loss_holds_for_all_files(rt: HostRuntime) -> Result<(), AllocError> {
    let losses = Losses::new();
    let first = file_of(&rt, b"abc", u64::MAX)?;
    let second = file_of(&rt, b"abc", u64::MAX)?;
    let mut file = CopiedFile::pair(first, second, &losses);
    assert!(rt; losses.note(Which::First, MediaError::Full));
    assert!(rt; !losses.note(Which::Second, FAILED));
    play(
        &rt,
        &mut file,
        &[Step::Write(0, b"X"), Step::Write(1, b"Y")],
    );
    hold(&rt, &file, b"XYc", b"Xbc");
    is_lost(&rt, &losses, Which::First, MediaError::Full);
    drop(file);
    Ok(())
}

#[test]
fn a_failed_sync_of_the_last_copy_closes(rt: HostRuntime) -> Result<(), AllocError> {
    let losses = Losses::new();
    let media = file_of(&rt, b"abc", 1)?;
    let mut file = CopiedFile::single(media, &losses);
    play(
        &rt,
        &mut file,
        &[
            Step::Write(0, b"x"),
            Step::AllFail(FAILED),
            Step::AllFail(MediaError::Closed),
        ],
    );
    hold(&rt, &file, b"xbc", b"");
    assert!(rt; losses.lost() == None);
    drop(file);
    Ok(())
}

/// Begins to make a copy of an empty file.
fn begin(rt: &impl Abort, file: &mut CopiedFile<'_, MemoryFile>, copy: MemoryFile) {
    assert!(rt; file.join(copy) == Ok(()), "a copy joins");
    assert!(rt; file.has_two(), "two copies");
}

#[test]
fn a_lost_copy_is_made_again(rt: HostRuntime) -> Result<(), AllocError> {
    let losses = Losses::new();
    let first = file_of(&rt, b"abc", 0)?;
    let second = file_of(&rt, b"abc", u64::MAX)?;
    let mut file = CopiedFile::pair(first, second, &losses);
    play(&rt, &mut file, &[Step::Cut(0), Step::Sync]);
    is_lost(&rt, &losses, Which::First, FAILED);
    begin(&rt, &mut file, file_of(&rt, b"", u64::MAX)?);
    play(&rt, &mut file, &CALLS);
    assert!(rt; losses.is_degraded(), "until the copy is whole");
    assert!(rt; file.end_copy(true) == Ok(()) && !losses.is_degraded());
    assert!(rt; losses.has_new_copy());
    hold(&rt, &file, b"QbXY", b"QbXY");
    drop(file);
    Ok(())
}

#[test]
fn a_third_copy_does_not_join(rt: HostRuntime) -> Result<(), AllocError> {
    let losses = Losses::new();
    let first = file_of(&rt, b"abc", u64::MAX)?;
    let second = file_of(&rt, b"abc", u64::MAX)?;
    let mut file = CopiedFile::pair(first, second, &losses);
    let third = file_of(&rt, b"xyz", u64::MAX)?;
    assert!(rt; file.join(third) == Err(MediaError::Closed));
    hold(&rt, &file, b"abc", b"abc");
    drop(file);
    Ok(())
}

// The copy that isn't whole is given up, whichever fails.
#[test]
fn the_only_copy_fails_while_another_is_made(rt: HostRuntime) -> Result<(), AllocError> {
    let losses = Losses::new();
    let mut only = file_of(&rt, b"", u64::MAX)?;
    only.set_room(3);
    let mut file = CopiedFile::single(only, &losses);
    begin(&rt, &mut file, file_of(&rt, b"", u64::MAX)?);
    play(
        &rt,
        &mut file,
        &[
            Step::Write(0, b"abc"),
            Step::WriteFull(2, b"XY"),
            Step::Write(0, b"Q"),
        ],
    );
    hold(&rt, &file, b"QbX", b"abXY");
    assert!(rt; file.end_copy(true) == Err(MediaError::Full) && !losses.is_degraded());
    assert!(rt; !losses.has_new_copy());
    drop(file);
    Ok(())
}
