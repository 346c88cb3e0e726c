// Scripts whose input, output or array fails, lines and answers that are long, and texts that no script meets.
use ar_answers::{Setup, write_health, write_outcome};
use ar_core::{Balance, Health, OutcomeOf, Rebuild, Refusal, UnitRefusal};
use ar_disks::Geometry;
use ar_language::{Fault, FaultKind, Notation};
use ar_script::run_script;
use ar_scsi::Reply;
use bytes::Bytes;
use std::fmt::Debug;
use std::io;
use std::io::{Read, Write};
use std::process::Abort;

const SMALL: Setup = Setup {
    geometry: Geometry::SMALL,
    disks: 4,
    extents: 4,
    cache: 0,
};

// The fault at a line.
fn at(line: u32, kind: FaultKind) -> Result<(), Fault> {
    Err(Fault::Line { line, kind })
}

// Asserts what a script is answered with, and how it ends.
fn answers<R: Abort + AllocGlobal, S: Read + Drop>(
    rt: &R,
    name: &impl Debug,
    setup: Setup,
    script: S,
    wanted: &[u8],
    end: Result<(), Fault>,
) {
    let mut out = Vec::new(rt.alloc());
    let done = run_script(rt.alloc(), script, &mut out, setup).end;
    is_answered(rt, name, done, end, out.as_slice() == wanted);
    drop(out);
}

fn is_answered(
    rt: &impl Abort,
    name: &impl Debug,
    done: Result<(), Fault>,
    end: Result<(), Fault>,
    is_shown: bool,
) {
    assert!(rt;
        is_shown && done == end,
        "{name:?}: {done:?}, answers as wanted: {is_shown}"
    );
}

// This many bytes of one value, with other bytes after them.
fn padded<R: Abort + AllocGlobal>(rt: &R, byte: u8, len: usize, end: &[u8]) -> Vec<u8> {
    let mut bytes = vec![in rt.alloc(); byte; len].expect(rt, "memory");
    bytes.extend_from_slice(end).expect(rt, "memory");
    bytes
}

// Asserts how a script ends that answers nothing: this many bytes of one value, with other bytes after them.
fn ends_silently<R: Abort + AllocGlobal>(
    rt: &R,
    name: &impl Debug,
    (byte, len, end): (u8, usize, &[u8]),
    wanted: Result<(), Fault>,
) {
    let script = padded(rt, byte, len, end);
    answers(rt, name, SMALL, script.as_slice(), b"", wanted);
    drop(script);
}

#[test]
fn long_lines_and_bad_characters(rt: HostRuntime) {
    for (byte, len, end, wanted) in [
        (b'#', 4_096, &b"\ntur 0"[..], at(2, FaultKind::BadArgument)),
        (b'#', 4_096, b"", Ok(())),
        (b'#', 4_097, b"", at(1, FaultKind::LineTooLong)),
        (b'#', 4_097, b"\n", at(1, FaultKind::LineTooLong)),
        // The first 4,096 bytes come before the length, and the bytes after them don't count.
        (b'#', 4_095, b"\x7F##", at(1, FaultKind::BadCharacter)),
        (b'#', 4_096, b"\x7F", at(1, FaultKind::LineTooLong)),
        (b'~', 3, b"\n", at(1, FaultKind::UnknownWord)),
        (b'#', 3, b"\x1F", at(1, FaultKind::BadCharacter)),
        (b'#', 3, b"\t\n", at(1, FaultKind::BadCharacter)),
        (b'#', 3, b"\r\n", at(1, FaultKind::BadCharacter)),
        (b'#', 3, b"\xC3\xA9\n", at(1, FaultKind::BadCharacter)),
        (b'\n', 9, b"\0", at(10, FaultKind::BadCharacter)),
    ] {
        ends_silently(&rt, &(byte, len, end), (byte, len, end), wanted);
    }
}

#[test]
fn a_script_has_a_million_lines(rt: HostRuntime) {
    ends_silently(&rt, &"a million", (b'\n', 1_000_000, b""), Ok(()));
}

#[test]
fn the_last_of_a_million_lines_may_lack_its_end(rt: HostRuntime) {
    ends_silently(&rt, &"no end", (b'\n', 999_999, b"#"), Ok(()));
}

#[test]
fn a_line_after_a_million_is_too_many(rt: HostRuntime) {
    let wanted = at(1_000_001, FaultKind::TooManyLines);
    ends_silently(&rt, &"a bad line more", (b'\n', 1_000_000, b"\0"), wanted);
}

#[test]
fn an_empty_line_after_a_million_is_too_many(rt: HostRuntime) {
    let wanted = at(1_000_001, FaultKind::TooManyLines);
    ends_silently(&rt, &"an empty line more", (b'\n', 1_000_001, b""), wanted);
}

// Gives its bytes a few at a time, fails once, and then ends the line.
#[derive(Clone, Copy)]
struct FailingReader<'a> {
    bytes: &'a [u8],
    kind: io::ErrorKind,
    has_failed: bool,
}

impl FailingReader<'_> {
    fn new(bytes: &[u8], kind: io::ErrorKind) -> FailingReader<'_> {
        FailingReader {
            bytes,
            kind,
            has_failed: false,
        }
    }
}

impl Read for FailingReader<'_> {
    fn read(&mut self, buf: &mut [u8]) -> io::Result<usize> {
        if self.bytes.is_empty() && !self.has_failed {
            self.has_failed = true;
            self.bytes = b"\n";
            return Err(io::Error::from(self.kind));
        }
        let few = self.bytes.len().min(5);
        let mut first = &self.bytes[..few];
        let count = first.read(buf)?;
        self.bytes = &self.bytes[count.min(few)..];
        Ok(count)
    }
}

// The lines that were read whole are answered.
#[test]
fn reads_that_fail(rt: HostRuntime) {
    for kind in [io::ErrorKind::Other, io::ErrorKind::Interrupted] {
        for (bytes, shown, line) in [
            (&b""[..], &b""[..], 1),
            (b"tur 0", b"", 1),
            (b"tur 0 0\n", b"check 05/25/00\n", 2),
            (b"tur 0 0\ntur 0 0", b"check 05/25/00\n", 2),
        ] {
            let reader = FailingReader::new(bytes, kind);
            answers(
                &rt,
                &(bytes, kind),
                SMALL,
                reader,
                shown,
                at(line, FaultKind::ReadFault),
            );
        }
    }
}

// Takes bytes and counts its calls, of which one fails.
#[derive(Clone, Copy)]
struct FailingWriter {
    /// The bytes that it takes before each write fails.
    room: usize,
    /// The write that fails, and the flush, by their numbers from 0.
    bad_write: u32,
    bad_flush: u32,
    writes: u32,
    flushes: u32,
}

/// None of its calls fails.
const SOUND: FailingWriter = FailingWriter {
    room: usize::MAX,
    bad_write: u32::MAX,
    bad_flush: u32::MAX,
    writes: 0,
    flushes: 0,
};

impl Write for FailingWriter {
    fn write(&mut self, buf: &[u8]) -> io::Result<usize> {
        let call = self.writes;
        self.writes = self.writes.saturating_add(1);
        if self.room == 0 || call == self.bad_write {
            return Err(io::Error::from(io::ErrorKind::BrokenPipe));
        }
        let count = buf.len().min(self.room);
        self.room -= count;
        Ok(count)
    }

    fn flush(&mut self) -> io::Result<()> {
        let call = self.flushes;
        self.flushes = self.flushes.saturating_add(1);
        if call == self.bad_flush {
            return Err(io::Error::from(io::ErrorKind::BrokenPipe));
        }
        Ok(())
    }
}

// Asserts how a script ends whose answers go to such a writer. Returns the number of its writes.
fn ends<R: Abort + AllocGlobal, S: Read + Drop>(
    rt: &R,
    setup: Setup,
    script: S,
    writer: FailingWriter,
    end: Result<(), Fault>,
) -> u32 {
    let FailingWriter {
        room,
        bad_write,
        bad_flush,
        ..
    } = writer;
    let mut writer = writer;
    let done = run_script(rt.alloc(), script, &mut writer, setup).end;
    assert!(rt;
        done == end,
        "room {room}, bad write {bad_write}, bad flush {bad_flush}: {done:?}, not {end:?}"
    );
    writer.writes
}

// Asserts the same of a writer with room for `room` bytes.
fn ends_within<R: Abort + AllocGlobal, S: Read + Drop>(
    rt: &R,
    setup: Setup,
    script: S,
    room: usize,
    end: Result<(), Fault>,
) {
    ends(rt, setup, script, FailingWriter { room, ..SOUND }, end);
}

#[test]
fn writes_that_fail(rt: HostRuntime) {
    for (script, room, end) in [
        (&b"tur 0 0\ntur 0 0\n"[..], 30, Ok(())),
        (b"tur 0 0\ntur 0 0\n", 29, at(2, FaultKind::WriteFault)),
        (b"tur 0 0\n# done\n", 0, at(2, FaultKind::WriteFault)),
        // The lost answer comes before the bad line.
        (b"tur 0 0\nbogus\n", 14, at(2, FaultKind::WriteFault)),
        (b"tur 0 0\nbogus\n", 15, at(2, FaultKind::UnknownWord)),
        (b"bogus\n", 0, at(1, FaultKind::UnknownWord)),
    ] {
        ends_within(&rt, SMALL, script, room, end);
    }
}

// The reader has given the first line alone when its answer is lost.
#[test]
fn answers_are_written_before_more_is_read(rt: HostRuntime) {
    let reader = FailingReader::new(b"tur 00 00\nbogus", io::ErrorKind::Other);
    ends_within(&rt, SMALL, reader, 0, at(1, FaultKind::WriteFault));
}

// A flush comes before the first read, before the one that finds the end, and last of all. One that fails is reported,
// though the next would succeed.
#[test]
fn flushes_that_fail(rt: HostRuntime) {
    for (fails, end) in [
        (0, at(1, FaultKind::WriteFault)),
        (1, at(2, FaultKind::WriteFault)),
        (2, at(2, FaultKind::WriteFault)),
        (3, Ok(())),
    ] {
        let writer = FailingWriter {
            bad_flush: fails,
            ..SOUND
        };
        ends(&rt, SMALL, b"tur 0 0\n# done\n".as_slice(), writer, end);
    }
}

// The answer to the second line is longer than the buffer, so that the first write comes within it, and the second at
// the end. One that fails is reported, though the next would succeed.
#[test]
fn single_writes_that_fail(rt: HostRuntime) {
    for (fails, end) in [
        (0, at(2, FaultKind::WriteFault)),
        (1, at(3, FaultKind::WriteFault)),
        (2, Ok(())),
    ] {
        let writer = FailingWriter {
            bad_write: fails,
            ..SOUND
        };
        let script = b"make 0 0 20000\nlevels 0 0\ntur 0 0\n".as_slice();
        are_written(&rt, fails, ends(&rt, LARGE, script, writer, end));
    }
}

// There are two writes, and none is tried after one that failed.
fn are_written(rt: &impl Abort, fails: u32, writes: u32) {
    assert!(rt; writes == fails.min(1) + 1, "write {fails} fails: {writes}");
}

/// Two groups of extents for each of 1,024.
const LARGE: Setup = Setup {
    disks: 8,
    extents: 1_024,
    ..SMALL
};

// More characters than are buffered.
#[test]
fn long_answers(rt: HostRuntime) {
    let script = b"make 0 0 20000\nlevels 0 0\n".as_slice();
    ends_within(&rt, LARGE, script, 100, at(2, FaultKind::WriteFault));
    are_long(&rt, script);
}

fn are_long<R: Abort + AllocGlobal>(rt: &R, script: &[u8]) {
    let mut wanted = padded(rt, b'o', 1, b"k\n");
    push_dashes(rt, &mut wanted);
    answers(rt, &"a long answer", LARGE, script, &wanted, Ok(()));
    drop(wanted);
}

// A dash for each of 10,000 blocks, and the end of the line.
fn push_dashes(rt: &impl Abort, wanted: &mut Vec<u8>) {
    for _ in 0..10_000 {
        wanted.push(b'-').ok().expect(rt, "memory");
    }
    wanted.push(b'\n').ok().expect(rt, "memory");
}

// Asserts the text of a fault.
fn shows<R: Abort + AllocGlobal>(rt: &R, fault: Fault, text: &str) {
    let said = format!(in rt.alloc(); "{fault}").expect(rt, "memory");
    is_same(rt, said.as_str(), text);
    drop(said);
}

fn is_same(rt: &impl Abort, said: &str, text: &str) {
    assert!(rt; said == text, "{said}");
}

#[test]
fn fault_texts(rt: HostRuntime) {
    for (kind, text) in [
        (FaultKind::UnknownWord, "line 7: unknown word"),
        (FaultKind::BadArgument, "line 7: bad argument"),
        (FaultKind::LineTooLong, "line 7: line too long"),
        (FaultKind::TooManyLines, "line 7: too many lines"),
        (FaultKind::BadCharacter, "line 7: bad character"),
        (FaultKind::NoMemory, "line 7: no memory"),
        (FaultKind::ReadFault, "line 7: read fault"),
        (FaultKind::WriteFault, "line 7: write fault"),
    ] {
        shows(&rt, Fault::Line { line: 7, kind }, text);
    }
    shows(&rt, Fault::Start, "start fault");
}

// Asserts how an answer is written.
fn writes<R: Abort + AllocGlobal>(rt: &R, outcome: OutcomeOf<()>, text: &[u8]) {
    let mut shown = Vec::new(rt.alloc());
    let is_written = write_outcome(&mut shown, &outcome, Notation::Runs).is_ok();
    is_written_so(rt, &outcome, is_written, &shown, text);
    drop(shown);
    drop(outcome);
}

fn is_written_so(
    rt: &impl Abort,
    outcome: &OutcomeOf<()>,
    is_written: bool,
    shown: &[u8],
    text: &[u8],
) {
    assert!(rt;
        is_written && shown == text,
        "{outcome:?} is written as {shown:?}"
    );
}

// Asserts how a run of this many bytes is written, before a short one and one of a single byte.
fn writes_runs<R: Abort + AllocGlobal>(rt: &R, len: usize) {
    let text = format!(in rt.alloc(); "good {len}x5A 1x01 2x02\n").expect(rt, "memory");
    writes(rt, good(rt, len, &[1, 2, 2]), text.as_bytes());
    drop(text);
}

// GOOD, with this many bytes of one value, and others after them.
fn good<R: Abort + AllocGlobal>(rt: &R, len: usize, end: &[u8]) -> OutcomeOf<()> {
    let bytes = Bytes::from_vec(padded(rt, 0x5A, len, end))
        .ok()
        .expect(rt, "memory");
    OutcomeOf::Cmd(Reply::good(bytes))
}

// Asserts how this many bytes are written that are all the same.
fn writes_run<R: Abort + AllocGlobal>(rt: &R, len: usize) {
    let text = format!(in rt.alloc(); "good {len}x5A\n").expect(rt, "memory");
    writes(rt, good(rt, len, &[]), text.as_bytes());
    drop(text);
}

#[test]
fn runs_of_each_length(rt: HostRuntime) {
    for len in 1..=200 {
        writes_run(&rt, len);
        writes_runs(&rt, len);
    }
    for len in [511, 512, 513, 1_023, 1_024, 1_025, 65_535, 65_536] {
        writes_run(&rt, len);
        writes_runs(&rt, len);
    }
}

// A script meets none of these while there is memory.
#[test]
fn texts_of_refused_memory(rt: HostRuntime) {
    let refused = Err(Refusal::Unit(UnitRefusal::NoMemory));
    writes(&rt, OutcomeOf::Cmd(Reply::busy()), b"busy\n");
    writes(&rt, OutcomeOf::Make(refused), b"refused M4 NoMemory\n");
    writes(&rt, OutcomeOf::Grow(refused), b"refused M4 NoMemory\n");
}

// Of steps that meet a fault of a disk or run out of memory: a disk in memory has no fault.
#[test]
fn texts_of_what_is_given_up(rt: HostRuntime) {
    writes(&rt, OutcomeOf::Balance(Balance::GivenUp), b"given up\n");
    writes(
        &rt,
        OutcomeOf::Balance(Balance::NoMemory),
        b"refused E5 NoMemory\n",
    );
    writes(&rt, OutcomeOf::Rebuild(Rebuild::GivenUp), b"given up\n");
}

// Of the widest array, which no script waits for.
#[test]
fn the_text_of_a_rebuilding(rt: HostRuntime) {
    let mut shown = Vec::new(rt.alloc());
    let is_written = write_health(&mut shown, Health::Rebuilding(11, 1_023)).is_ok();
    is_rebuilding(&rt, is_written, &shown);
    drop(shown);
}

fn is_rebuilding(rt: &impl Abort, is_written: bool, shown: &[u8]) {
    assert!(rt;
        is_written && shown == b"rebuilding 11 1023\n".as_slice(),
        "{shown:?}"
    );
}
