//! Files in memory that are compared and copied, in one piece and in several.
use ar_media::{Fate, MediaError, MemoryFile, are_same, copy_bytes};
use std::alloc::{AllocError, Global};
use std::io::ErrorKind;
use std::process::Abort;

/// The most bytes that one call reads or writes.
const PIECE: usize = 65_536;

/// Two whole pieces and one of a byte.
const THREE_PIECES: usize = 2 * PIECE + 1;

/// Two contents, and whether they are the same.
const PAIRS: [(&[u8], &[u8], bool); 9] = [
    (b"", b"", true),
    (b"", b"a", false),
    (b"a", b"", false),
    (b"abc", b"abc", true),
    (b"xbc", b"abc", false),
    (b"axc", b"abc", false),
    (b"abx", b"abc", false),
    (b"ab", b"abc", false),
    (b"abc", b"ab", false),
];

/// No two pieces of these bytes are the same.
fn bytes_of(rt: &impl Abort, alloc: Global, len: usize) -> Vec<u8> {
    let mut bytes = Vec::new(alloc);
    for at in 0..len {
        bytes.push((at % 251) as u8).expect(rt, "memory");
    }
    bytes
}

fn file_of(rt: &impl Abort, alloc: Global, bytes: &[u8]) -> MemoryFile {
    let bytes = bytes.to_vec(alloc).expect(rt, "memory");
    MemoryFile::new(alloc, bytes).expect(rt, "memory")
}

fn compares(rt: &impl Abort, alloc: Global, one: &[u8], other: &[u8], wanted: bool) {
    let mut one = file_of(rt, alloc, one);
    let mut other = file_of(rt, alloc, other);
    let found = are_same(alloc, &mut one, &mut other);
    assert!(rt;
        matches!(found, Ok(same) if same == wanted),
        "{wanted}: {found:?}"
    );
}

/// Compares the bytes with themselves but for one, at this place.
fn tells_apart(rt: &impl Abort, alloc: Global, bytes: &[u8], place: usize) {
    let mut changed = bytes.to_vec(alloc).expect(rt, "memory");
    if place < changed.len() {
        changed[place] ^= 1;
    }
    compares(rt, alloc, bytes, &changed, false);
}

fn holds(rt: &impl Abort, file: &MemoryFile, bytes: &[u8]) {
    assert!(rt;
        file.bytes() == bytes,
        "{} bytes for {}",
        file.bytes().len(),
        bytes.len()
    );
}

/// Copies the bytes over a file that holds these others. The copy is whole and lasts, and the source is as it was.
fn copies(rt: &impl Abort, alloc: Global, bytes: &[u8], others: &[u8]) {
    let mut from = file_of(rt, alloc, bytes);
    let mut to = file_of(rt, alloc, others);
    let copied = copy_bytes(alloc, &mut from, &mut to);
    assert!(rt; matches!(copied, Ok(())), "{copied:?}");
    holds(rt, &from, bytes);
    holds(rt, &to, bytes);
    let left = to.after_crash(&[Fate::Lost; 6]).expect(rt, "memory");
    holds(rt, &left, bytes);
}

/// What a comparison of equal files returns where this many calls of each succeed.
fn compared_after(
    rt: &impl Abort,
    alloc: Global,
    bytes: &[u8],
    calls: u64,
    other_calls: u64,
) -> Result<bool, MediaError> {
    let mut one = file_of(rt, alloc, bytes);
    let mut other = file_of(rt, alloc, bytes);
    one.fail_after(calls);
    other.fail_after(other_calls);
    are_same(alloc, &mut one, &mut other)
}

/// What a copy returns where this many calls of each file succeed. The source is as it was.
fn copied_after(
    rt: &impl Abort,
    alloc: Global,
    bytes: &[u8],
    calls: u64,
    to_calls: u64,
) -> Result<(), MediaError> {
    let mut from = file_of(rt, alloc, bytes);
    let mut to = file_of(rt, alloc, b"old");
    from.fail_after(calls);
    to.fail_after(to_calls);
    let copied = copy_bytes(alloc, &mut from, &mut to);
    holds(rt, &from, bytes);
    copied
}

fn comparing_fails(rt: &impl Abort, found: Result<bool, MediaError>) {
    let wanted = MediaError::Failed(ErrorKind::Other);
    assert!(rt; matches!(found, Err(error) if error == wanted), "{found:?}");
}

fn copying_fails(rt: &impl Abort, found: Result<(), MediaError>, wanted: MediaError) {
    assert!(rt; matches!(found, Err(error) if error == wanted), "{found:?}");
}

fn all_succeed(
    rt: &impl Abort,
    compared: Result<bool, MediaError>,
    copied: Result<(), MediaError>,
) {
    assert!(rt; matches!(compared, Ok(true)), "{compared:?}");
    assert!(rt; matches!(copied, Ok(())), "{copied:?}");
}

#[test]
fn files_of_one_piece_are_compared(rt: HostRuntime) -> Result<(), AllocError> {
    for (one, other, wanted) in PAIRS {
        compares(&rt, rt.alloc(), one, other, wanted);
    }
    Ok(())
}

#[test]
fn files_of_three_pieces_are_compared(rt: HostRuntime) -> Result<(), AllocError> {
    let alloc = rt.alloc();
    let bytes = bytes_of(&rt, alloc, THREE_PIECES);
    compares(&rt, alloc, &bytes, &bytes, true);
    for place in [0, PIECE - 1, PIECE, 2 * PIECE - 1, 2 * PIECE] {
        tells_apart(&rt, alloc, &bytes, place);
    }
    Ok(())
}

#[test]
fn copies_of_one_piece_are_whole_and_last(rt: HostRuntime) -> Result<(), AllocError> {
    let alloc = rt.alloc();
    for len in [0, 1, 2, PIECE] {
        let bytes = bytes_of(&rt, alloc, len);
        copies(&rt, alloc, &bytes, b"old");
    }
    Ok(())
}

#[test]
fn a_copy_of_three_pieces_is_whole_and_lasts(rt: HostRuntime) -> Result<(), AllocError> {
    let alloc = rt.alloc();
    let bytes = bytes_of(&rt, alloc, THREE_PIECES);
    let longer = bytes_of(&rt, alloc, THREE_PIECES + 1);
    copies(&rt, alloc, &bytes, &longer);
    Ok(())
}

#[test]
fn a_failure_of_each_call_is_returned(rt: HostRuntime) -> Result<(), AllocError> {
    let alloc = rt.alloc();
    let failed = MediaError::Failed(ErrorKind::Other);
    let bytes = bytes_of(&rt, alloc, PIECE + 1);
    // What is read is the length and two pieces; what is written is a cut, two pieces and a sync.
    for calls in 0..3 {
        comparing_fails(&rt, compared_after(&rt, alloc, &bytes, calls, u64::MAX));
        comparing_fails(&rt, compared_after(&rt, alloc, &bytes, u64::MAX, calls));
        copying_fails(
            &rt,
            copied_after(&rt, alloc, &bytes, calls, u64::MAX),
            failed,
        );
    }
    for calls in 0..4 {
        copying_fails(
            &rt,
            copied_after(&rt, alloc, &bytes, u64::MAX, calls),
            failed,
        );
    }
    all_succeed(
        &rt,
        compared_after(&rt, alloc, &bytes, 3, 3),
        copied_after(&rt, alloc, &bytes, 3, 4),
    );
    Ok(())
}

#[test]
fn a_copy_needs_room(rt: HostRuntime) -> Result<(), AllocError> {
    let alloc = rt.alloc();
    let bytes = bytes_of(&rt, alloc, THREE_PIECES);
    let mut from = file_of(&rt, alloc, &bytes);
    let mut to = file_of(&rt, alloc, b"old");
    to.set_room(THREE_PIECES - 1);
    copying_fails(&rt, copy_bytes(alloc, &mut from, &mut to), MediaError::Full);
    Ok(())
}
