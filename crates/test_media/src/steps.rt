//! Calls of a medium with the outcomes that are wanted, as a table.
use ar_media::{Media, MediaError};
use std::io::ErrorKind;
use std::process::Abort;

/// A call, with what it has to return.
#[derive(Clone, Copy, Debug)]
pub enum Step {
    /// Returns this length.
    Len(usize),
    /// Reads these bytes, eight at most.
    Read(usize, &'static [u8]),
    /// Fails to read this many bytes at this offset, past the end.
    ReadPastEnd(usize, usize),
    /// Writes these bytes at this offset.
    Write(usize, &'static [u8]),
    /// Writes as much as there is room for, and fails.
    WriteFull(usize, &'static [u8]),
    /// Cuts to this length.
    Cut(usize),
    /// Syncs.
    Sync,
    /// Each call fails with this error.
    AllFail(MediaError),
}

/// Makes the calls in order. The first that returns something else ends the test.
pub fn play<M: Media>(rt: &impl Abort, media: &mut M, steps: &[Step]) {
    for step in steps {
        assert!(rt; is_as_wanted(media, *step), "{step:?}");
    }
}

fn is_as_wanted<M: Media>(media: &mut M, step: Step) -> bool {
    match step {
        Step::Len(len) => matches!(media.len(), Ok(found) if found == len),
        Step::Read(at, bytes) => reads(media, at, bytes),
        Step::ReadPastEnd(at, count) => {
            let end = MediaError::Failed(ErrorKind::UnexpectedEof);
            let mut buf = [0; 8];
            let count = count.min(8);
            matches!(media.read_at(at, &mut buf[..count]), Err(error) if error == end)
        }
        Step::Write(at, bytes) => media.write_at(at, bytes).is_ok(),
        Step::WriteFull(at, bytes) => { matches!(media.write_at(at, bytes), Err(MediaError::Full)) }
        Step::Cut(len) => media.cut(len).is_ok(),
        Step::Sync => media.sync().is_ok(),
        Step::AllFail(error) => all_fail(media, error),
    }
}

fn reads<M: Media>(media: &mut M, at: usize, bytes: &[u8]) -> bool {
    let mut buf = [0; 8];
    let count = bytes.len().min(8);
    media.read_at(at, &mut buf[..count]).is_ok() && &buf[..count] == bytes
}

fn all_fail<M: Media>(media: &mut M, wanted: MediaError) -> bool {
    fails(media.write_at(0, b"x"), wanted)
        && fails(media.cut(0), wanted)
        && fails(media.read_at(0, &mut [0]), wanted)
        && matches!(media.len(), Err(error) if error == wanted)
        && fails(media.sync(), wanted)
}

fn fails(outcome: Result<(), MediaError>, wanted: MediaError) -> bool {
    matches!(outcome, Err(error) if error == wanted)
}
