// Streams of std: interruptions, other errors, and a write that takes no byte.
use crate::fakes::Fake;
use ar_frames::{EndReason, Linked, PartsWrite, Progress, Sink, Source, serve_session};
use std::alloc::Global;
use std::io::{self, ErrorKind, Read, Write};
use std::process::Abort;
use std::sync::Arc;

// Has an error of this kind this many times before each read and write, and then gives or takes what it may.
#[derive(Drop)]
struct Noisy<'a> {
    bytes: &'a [u8],
    most: usize,
    kind: ErrorKind,
    errors: u32,
    left: u32,
}

impl Noisy<'_> {
    // The error of this call, if it has one.
    fn error(&mut self) -> io::Result<()> {
        if self.left == 0 {
            self.left = self.errors;
            Ok(())
        } else {
            self.left -= 1;
            Err(io::Error::from(self.kind))
        }
    }
}

impl Read for Noisy<'_> {
    fn read(&mut self, into: &mut [u8]) -> io::Result<usize> {
        self.error()?;
        let few = self.bytes.len().min(self.most);
        let mut first = &self.bytes[..few];
        let count = first.read(into)?;
        self.bytes = &self.bytes[count.min(few)..];
        Ok(count)
    }
}

impl Write for Noisy<'_> {
    fn write(&mut self, from: &[u8]) -> io::Result<usize> {
        self.error()?;
        Ok(from.len().min(self.most))
    }

    fn flush(&mut self) -> io::Result<()> {
        Ok(())
    }
}

impl PartsWrite for Noisy<'_> {
    fn write_parts(&mut self, front: &[u8], middle: &[u8], rest: &[u8]) -> io::Result<usize> {
        self.error()?;
        let all = (front.len() + middle.len()).saturating_add(rest.len());
        Ok(all.min(self.most))
    }
}

fn make_noisy(bytes: &[u8], interruptions: u32, most: usize) -> Linked<Noisy<'_>> {
    make_failing(bytes, ErrorKind::Interrupted, interruptions, most)
}

fn make_failing(bytes: &[u8], kind: ErrorKind, errors: u32, most: usize) -> Linked<Noisy<'_>> {
    Linked::new(Noisy {
        bytes,
        most,
        kind,
        errors,
        left: errors,
    })
}

fn ends(rt: &impl Abort, alloc: Global, reads: u32, writes: u32, most: usize, reason: EndReason) {
    let mut reader = make_noisy(b"ARAIDHO1\x00", reads, 1);
    let mut writer = make_noisy(b"", writes, most);
    let mut port = Fake::new();
    let end = serve_session(alloc, &mut reader, &mut writer, &mut port);
    let faults = (Source::faults(&reader), Sink::faults(&writer));
    is_ended(rt, end.reason, reason, faults, (reads, writes));
}

// A session ended so, with a fault of the stream that ended it alone.
fn is_ended(
    rt: &impl Abort,
    end: EndReason,
    reason: EndReason,
    faults: (u64, u64),
    interruptions: (u32, u32),
) {
    assert!(rt;
        end == reason,
        "{end:?} after {interruptions:?} interruptions"
    );
    assert!(rt;
        faults
            == (
                u64::from(reason == EndReason::Read),
                u64::from(reason == EndReason::Write)
            ),
        "{faults:?} faults, ended by {end:?}"
    );
}

#[test]
fn interruptions_and_writes_of_no_byte(rt: HostRuntime) {
    let alloc = rt.alloc();
    for (reads, writes, most, reason) in [
        (0, 0, 9, EndReason::End),
        (1000, 1000, 1, EndReason::End),
        (1001, 0, 9, EndReason::Read),
        (0, 1001, 9, EndReason::Write),
        (0, 0, 0, EndReason::Write),
    ] {
        ends(&rt, alloc, reads, writes, most, reason);
    }
}

// A stream is asked to move the whole piece at once, after interruptions too, and what it answers is reported.
#[test]
fn whole_pieces(rt: HostRuntime) {
    moves(&rt, 0, 500);
    moves(&rt, 3, 40);
}

fn moves(rt: &impl Abort, interruptions: u32, most: usize) {
    let piece = [b'x'; 100];
    let mut linked = make_noisy(&piece, interruptions, most);
    let mut into = [0; 100];
    let given = linked.read(&mut into);
    let taken = linked.write(&piece);
    let wanted = Some(most.min(100));
    assert!(rt;
        (given, taken) == (wanted, wanted),
        "{given:?} and {taken:?} of {most}"
    );
}

// An error other than an interruption is a fault at once, though the next call would do. Faults of reads are none of
// writes.
#[test]
fn other_errors(rt: HostRuntime) {
    for kind in [
        ErrorKind::WouldBlock,
        ErrorKind::TimedOut,
        ErrorKind::ConnectionReset,
        ErrorKind::Other,
    ] {
        fails(&rt, kind);
    }
}

fn fails(rt: &impl Abort, kind: ErrorKind) {
    let mut reader = make_failing(&[b'x'; 10], kind, 1, 10);
    let mut writer = make_failing(b"", kind, 1, 10);
    moves_ten(rt, &mut reader, &mut writer, kind, None);
    has_faults(rt, &reader, kind, (1, 0));
    has_faults(rt, &writer, kind, (0, 1));
    moves_ten(rt, &mut reader, &mut writer, kind, Some(10));
}

// Ten bytes are read and written, or none.
fn moves_ten(
    rt: &impl Abort,
    reader: &mut Linked<Noisy<'_>>,
    writer: &mut Linked<Noisy<'_>>,
    kind: ErrorKind,
    wanted: Option<usize>,
) {
    let given = reader.read(&mut [0; 10]);
    let taken = writer.write(&[b'x'; 10]);
    assert!(rt;
        (given, taken) == (wanted, wanted),
        "{given:?} and {taken:?} with {kind:?}"
    );
}

// This many reads and writes have faulted.
fn has_faults(rt: &impl Abort, linked: &Linked<Noisy<'_>>, kind: ErrorKind, wanted: (u64, u64)) {
    let faults = (Source::faults(linked), Sink::faults(linked));
    assert!(rt; faults == wanted, "{faults:?} faults of {kind:?}");
}

// A read faults once its session is ended, though bytes are left. Its stream knows who the peer is.
#[test]
fn an_ended_session(rt: HostRuntime) {
    let alloc = rt.alloc();
    let progress = Arc::new(alloc, Progress::new(None, Some(41_200))).expect(&rt, "memory");
    let noisy = Noisy {
        bytes: b"four",
        most: 2,
        kind: ErrorKind::Other,
        errors: 0,
        left: 0,
    };
    let mut reader = Linked::with_progress(noisy, progress);
    reads(&rt, &mut reader, Some(2));
    let progress = reader.progress().expect(&rt, "a session");
    let (peer, was_ended) = (progress.peer(), progress.is_ended());
    progress.end();
    assert!(rt; peer == Some(41_200) && !was_ended, "{peer:?}, {was_ended}");
    reads(&rt, &mut reader, None);
    let faults = Source::faults(&reader);
    assert!(rt; faults == 1, "{faults} faults");
}

fn reads(rt: &impl Abort, reader: &mut impl Source, wanted: Option<usize>) {
    let given = reader.read(&mut [0; 8]);
    assert!(rt; given == wanted, "{given:?} in place of {wanted:?}");
}
