// Sessions, byte for byte.
use crate::fakes::{Counter, Fake, Pieces, Repeats, Taker};
use ar_frames::{AskFault, EndReason, MemSink, MemSource, SessionEnd, ask, hello, serve_session};
use ar_scsi::{Reply, Sense};
use std::alloc::Global;
use std::process::Abort;
use std::test::Fail;

pub const LOGIN: &[u8] = b"ARAIDHO1\x00";

// TEST UNIT READY of tag 1 to LUN 0, where no unit is.
pub const ABSENT: &[u8] = b"\
    \x00\x00\x00\x19\x00\x00\x00\x00\x00\x00\x00\x01\x00\
    \x00\x00\x00\x00\x00\x00\x00\x00\x00\x00\x00\x00\x00\x00\x00\x00";

// Its reply: CHECK CONDITION with 05/25/00.
pub const REFUSED: &[u8] = b"\
    \x00\x00\x00\x1C\x00\x00\x00\x00\x00\x00\x00\x01\x02\x12\
    \x70\x00\x05\x00\x00\x00\x00\x0A\x00\x00\x00\x00\x25\x00\x00\x00\x00\x00";

// A command of tag 2 to LUN 7 with four bytes, and its reply, which gives them back.
const ECHO: &[u8] = b"\
    \x00\x00\x00\x1D\x00\x00\x00\x00\x00\x00\x00\x02\x07\
    \x00\x00\x00\x00\x00\x00\x00\x00\x00\x00\x00\x00\x00\x00\x00\x00\
    \xA1\xA2\xA3\xA4";

const ECHOED: &[u8] = b"\x00\x00\x00\x0E\x00\x00\x00\x00\x00\x00\x00\x02\x00\x00\xA1\xA2\xA3\xA4";

// Plays a session over these bytes, and compares its end, what it wrote, and how much was left unread.
fn plays(
    rt: &impl Abort,
    alloc: Global,
    input: &[u8],
    frames: u64,
    reason: EndReason,
    written: &[u8],
    left: usize,
) {
    let mut reader = MemSource::new(input.to_vec(alloc).expect(rt, "memory"));
    let mut writer = MemSink::new(vec![in alloc; 0; 256].expect(rt, "memory"));
    let mut port = Fake::new();
    let end = serve_session(alloc, &mut reader, &mut writer, &mut port);
    ends(rt, input, end, frames, reason);
    wrote(rt, input, writer.written(), written);
    was_left(rt, input, reader.len(), left);
}

pub fn ends(rt: &impl Abort, input: &[u8], end: SessionEnd, frames: u64, reason: EndReason) {
    assert!(rt;
        end == SessionEnd { frames, reason },
        "{end:?} over {input:?}"
    );
}

pub fn wrote(rt: &impl Abort, input: &[u8], written: &[u8], wanted: &[u8]) {
    assert!(rt; written == wanted, "{written:?} over {input:?}");
}

fn was_left(rt: &impl Abort, input: &[u8], left: usize, wanted: usize) {
    assert!(rt; left == wanted, "{left} left of {input:?}");
}

// These pieces one after the other.
pub fn joined(rt: &impl Abort, alloc: Global, pieces: &[&[u8]]) -> Vec<u8> {
    let mut all = Vec::new(alloc);
    for piece in pieces {
        all.extend_from_slice(piece).expect(rt, "memory");
    }
    all
}

#[test]
fn a_short_length_ends_the_session(rt: HostRuntime) {
    let alloc = rt.alloc();
    let input = joined(&rt, alloc, &[LOGIN, ABSENT, b"\x00\x00\x00\x18", ABSENT]);
    let output = joined(&rt, alloc, &[b"\x00", REFUSED]);
    plays(&rt, alloc, &input, 1, EndReason::TooShort(24), &output, 29);
}

#[test]
fn a_long_length_ends_the_session(rt: HostRuntime) {
    let alloc = rt.alloc();
    let input = joined(&rt, alloc, &[LOGIN, b"\x01\xFF\xFE\x1A", ABSENT]);
    plays(
        &rt,
        alloc,
        &input,
        0,
        EndReason::TooLong(33_553_946),
        b"\x00",
        29,
    );
}

#[test]
fn logins(rt: HostRuntime) {
    let alloc = rt.alloc();
    for (input, reason, output, left) in [
        (
            &b"ARAIDHO1\x04\x00"[..],
            EndReason::BadLogin,
            &b"\x01"[..],
            1,
        ),
        (b"ARAIDHO1\xFF\x00", EndReason::BadLogin, b"\x01", 1),
        (b"ARAIDHO2\x00\x00", EndReason::BadLogin, b"\x01", 1),
        (b"ARAIDHO1\x02\x00", EndReason::HostInUse, b"\x01", 1),
        (b"ARAIDHO1\x03", EndReason::End, b"\x00", 0),
    ] {
        plays(&rt, alloc, input, 0, reason, output, left);
    }
}

// Where a session ends whose input ends after this many bytes of login, a frame without data and one with four bytes.
fn end_of(cut: usize) -> SessionEnd {
    let (frames, reason) = match cut {
        0..=8 => (0, EndReason::Cut),
        9 => (0, EndReason::End),
        10..=37 => (0, EndReason::Cut),
        38 => (1, EndReason::End),
        39..=70 => (1, EndReason::Cut),
        _ => (2, EndReason::End),
    };
    SessionEnd { frames, reason }
}

// How much such a session writes.
fn written_of(cut: usize) -> usize {
    match cut {
        0..=8 => 0,
        9..=37 => 1,
        38..=70 => 33,
        _ => 51,
    }
}

#[test]
fn input_cut_at_each_byte(rt: HostRuntime) {
    let alloc = rt.alloc();
    let input = joined(&rt, alloc, &[LOGIN, ABSENT, ECHO]);
    let output = joined(&rt, alloc, &[b"\x00", REFUSED, ECHOED]);
    was_left(&rt, &input, input.len(), 71);
    was_left(&rt, &output, output.len(), 51);
    for cut in 0..=71 {
        let SessionEnd { frames, reason } = end_of(cut);
        let first = &input[..cut.min(input.len())];
        let answers = &output[..written_of(cut).min(output.len())];
        plays(&rt, alloc, first, frames, reason, answers, 0);
    }
}

// Plays a session over streams that give and take few bytes at once, and of which one call faults.
fn plays_faulty(
    rt: &impl Abort,
    alloc: Global,
    input: &[u8],
    output: &[u8],
    most: usize,
    read: u64,
    write: u64,
) -> EndReason {
    let mut reader = Pieces {
        bytes: input,
        most,
        fails: read,
        calls: 0,
        faults: 0,
    };
    let mut writer = Taker {
        taken: Vec::new(alloc),
        most,
        fails: write,
        calls: 0,
        faults: 0,
    };
    let mut port = Fake::new();
    let end = serve_session(alloc, &mut reader, &mut writer, &mut port);
    let is_prefix = output.starts_with(&writer.taken);
    is_same(
        rt,
        end.reason,
        is_prefix,
        (reader.faults, writer.faults),
        (read, write),
    );
    end.reason
}

// What was written are the first bytes of the output, and the session ended by the stream that faulted, if one did.
fn is_same(
    rt: &impl Abort,
    reason: EndReason,
    is_prefix: bool,
    faults: (u64, u64),
    calls: (u64, u64),
) {
    assert!(rt; is_prefix, "{reason:?}, where calls {calls:?} fail");
    assert!(rt;
        (reason == EndReason::Read, reason == EndReason::Write) == (faults.0 == 1, faults.1 == 1),
        "{reason:?} after {faults:?} faults, where calls {calls:?} fail"
    );
}

fn is(rt: &impl Abort, call: u64, reason: EndReason, wanted: EndReason) {
    assert!(rt; reason == wanted, "{reason:?} at call {call}");
}

// 3 pieces of login, 1 and 7 of the first frame, 1, 7 and 1 of the second, and one call that finds the end.
#[test]
fn a_reader_that_fails_at_each_call(rt: HostRuntime) {
    let alloc = rt.alloc();
    let input = joined(&rt, alloc, &[LOGIN, ABSENT, ECHO]);
    let output = joined(&rt, alloc, &[b"\x00", REFUSED, ECHOED]);
    for call in 0..21 {
        is(
            &rt,
            call,
            plays_faulty(&rt, alloc, &input, &output, 4, call, 1000),
            EndReason::Read,
        );
    }
    for call in 21..25 {
        is(
            &rt,
            call,
            plays_faulty(&rt, alloc, &input, &output, 4, call, 1000),
            EndReason::End,
        );
    }
}

// 1 piece of greeting, 8 of the first reply, 5 of the second.
#[test]
fn a_writer_that_fails_at_each_call(rt: HostRuntime) {
    let alloc = rt.alloc();
    let input = joined(&rt, alloc, &[LOGIN, ABSENT, ECHO]);
    let output = joined(&rt, alloc, &[b"\x00", REFUSED, ECHOED]);
    for call in 0..14 {
        is(
            &rt,
            call,
            plays_faulty(&rt, alloc, &input, &output, 4, 1000, call),
            EndReason::Write,
        );
    }
    for call in 14..18 {
        is(
            &rt,
            call,
            plays_faulty(&rt, alloc, &input, &output, 4, 1000, call),
            EndReason::End,
        );
    }
}

// A million frames are answered, each in one write, and of the next one no byte is read.
#[test]
fn the_most_frames(rt: HostRuntime) {
    let mut reader = Repeats {
        front: LOGIN,
        frame: ABSENT,
        at: 0,
        end: 9 + 29 * 1_000_001,
    };
    let mut writer = Counter { bytes: 0, calls: 0 };
    let mut port = Fake::new();
    let end = serve_session(rt.alloc(), &mut reader, &mut writer, &mut port);
    ends(&rt, ABSENT, end, 1_000_000, EndReason::Bound);
    counts(&rt, reader.at, 9 + 29 * 1_000_000);
    counts(&rt, writer.bytes, 1 + 32 * 1_000_000);
    counts(&rt, writer.calls, 1 + 1_000_000);
    counts(&rt, port.commands, 1_000_000);
}

// A reply with data is written by one call, head and data at once.
#[test]
fn replies_with_data(rt: HostRuntime) {
    let mut reader = Repeats {
        front: LOGIN,
        frame: ECHO,
        at: 0,
        end: 9 + 33 * 100,
    };
    let mut writer = Counter { bytes: 0, calls: 0 };
    let mut port = Fake::new();
    let end = serve_session(rt.alloc(), &mut reader, &mut writer, &mut port);
    ends(&rt, ECHO, end, 100, EndReason::End);
    counts(&rt, writer.bytes, 1 + 18 * 100);
    counts(&rt, writer.calls, 1 + 100);
}

pub fn counts(rt: &impl Abort, count: u64, wanted: u64) {
    assert!(rt; count == wanted, "{count} for {wanted}");
}

// The client's login and command are those bytes, and the session's output is its input.
#[test]
fn a_client_and_a_session_understand_each_other(rt: HostRuntime) -> Result<(), Fail> {
    let alloc = rt.alloc();
    let output = joined(&rt, alloc, &[b"\x00", REFUSED]);
    let mut reader = MemSource::new(output);
    let mut writer = MemSink::new(vec![in alloc; 0; 64].expect(&rt, "memory"));
    let greeting = hello(&mut reader, &mut writer, 0);
    assert!(rt; greeting == Ok(true), "{greeting:?}");
    let reply = ask(alloc, &mut reader, &mut writer, 1, 0, &[0; 16], &[]);
    refuses(&rt, reply);
    let wanted = joined(&rt, alloc, &[LOGIN, ABSENT]);
    wrote(&rt, ABSENT, writer.written(), &wanted);
    Ok(())
}

fn refuses(rt: &impl Abort, reply: Result<Reply, AskFault>) {
    assert!(rt;
        reply == Ok(Reply::check(Sense::LOGICAL_UNIT_NOT_SUPPORTED)),
        "{reply:?}"
    );
}
