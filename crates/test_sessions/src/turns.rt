// Sessions one after another.
ghost use Rattle.std.specs.Prelude.{None};

use crate::frames::{
    LOGINS, READ, READ_16, TUR, WRITE, WRITE_16, put, put_check, put_good, put_request,
};
use crate::rig::{Play, Rig, copy_rest, plays, serves, sink};
use ar_frames::{EndReason, SessionEnd, Source};
use std::alloc::Global;
use std::process::Abort;
use std::sync::Wait;
use std::sync::ledger::Ledger;
use std::time::Clock;
use test_support::FOUR_GROUPS;

/// A part of a session.
#[derive(Clone, Copy)]
pub enum Part {
    /// A host logs in.
    LogIn(u8),
    /// A command that is GOOD: its tag and its block, what is sent with it and what comes back.
    Good(u8, &'static [u8], &'static [u8], &'static [u8]),
    /// One that is refused with a sense.
    Check(u8, &'static [u8], [u8; 3]),
    /// Bytes that are sent, and bytes that come back.
    Sent(&'static [u8]),
    Got(&'static [u8]),
    /// Unit 0 of host 0 grows to six sectors.
    Grown,
}

/// A session: its parts, of whose bytes at most this many are sent and this many come back, and how it ends.
#[derive(Clone, Copy)]
pub struct Turn {
    pub parts: &'static [Part],
    pub sent: usize,
    pub got: usize,
    pub end: SessionEnd,
}

// A session of which all is sent.
fn sends_all(parts: &'static [Part], frames: u64, reason: EndReason) -> Turn {
    Turn {
        parts,
        sent: usize::MAX,
        got: usize::MAX,
        end: SessionEnd { frames, reason },
    }
}

/// The bytes of a session.
#[derive(Drop)]
struct Session {
    input: Vec<u8>,
    /// Where in the input the unit grows, if it does.
    grows_at: Option<usize>,
    output: Vec<u8>,
}

impl Session {
    fn add(&mut self, rt: &impl Abort, part: Part) {
        match part {
            Part::LogIn(host) => {
                put(rt, &mut self.input, LOGINS[usize::from(host % 4)]);
                put(rt, &mut self.output, &[0x00]);
            }
            Part::Good(tag, cdb, sent, got) => {
                put_request(rt, &mut self.input, tag, 0, cdb, sent);
                put_good(rt, &mut self.output, tag, got);
            }
            Part::Check(tag, cdb, sense) => {
                put_request(rt, &mut self.input, tag, 0, cdb, &[]);
                put_check(rt, &mut self.output, tag, sense);
            }
            Part::Sent(bytes) => put(rt, &mut self.input, bytes),
            Part::Got(bytes) => put(rt, &mut self.output, bytes),
            Part::Grown => self.grows_at = Some(self.input.len()),
        }
    }

    fn fill(&mut self, rt: &impl Abort, turn: &Turn) {
        for part in turn.parts {
            self.add(rt, *part);
        }
        self.input.truncate(turn.sent);
        self.output.truncate(turn.got);
    }
}

/// Plays sessions one after another, where host 0 has a unit if that is asked.
pub fn play_turns<L: Ledger, R: Wait + Clock + Abort>(
    rt: &R,
    alloc: Global,
    rig: &Rig<L>,
    with_unit: bool,
    turns: &[Turn],
) {
    if with_unit {
        rig.make(rt, 0);
    }
    for turn in turns {
        play(rt, alloc, rig, turn);
    }
}

// Plays one session, and compares what it wrote and how it ended.
fn play<L: Ledger, R: Wait + Clock + Abort>(rt: &R, alloc: Global, rig: &Rig<L>, turn: &Turn) {
    let mut session = Session {
        input: Vec::new(alloc),
        grows_at: None,
        output: Vec::new(alloc),
    };
    session.fill(rt, turn);
    play_session(rt, alloc, rig, &session, turn.end);
    drop(session);
}

fn play_session<L: Ledger, R: Wait + Clock + Abort>(
    rt: &R,
    alloc: Global,
    rig: &Rig<L>,
    session: &Session,
    end: SessionEnd,
) {
    let mut reader = Growing {
        rt,
        rig,
        bytes: session.input.as_slice(),
        at: 0,
        grows_at: session.grows_at,
    };
    let mut writer = sink(rt, alloc, 8192);
    let met = serves(rt, alloc, rig, &mut reader, &mut writer);
    compare(rt, session, met, end, writer.written());
    drop(writer);
}

fn compare(
    rt: &impl Abort,
    session: &Session,
    end: SessionEnd,
    wanted: SessionEnd,
    written: &[u8],
) {
    let input = session.input.as_slice();
    assert!(rt; end == wanted, "{end:?} over {input:?}");
    assert!(rt;
        written == session.output.as_slice(),
        "{written:?} over {input:?}"
    );
}

// Gives bytes, and before the one at some place the unit grows.
#[derive(Drop)]
struct Growing<'a, R: Wait + Abort, L: Ledger> {
    rt: &'a R,
    rig: &'a Rig<L>,
    bytes: &'a [u8],
    at: usize,
    grows_at: Option<usize>,
}

impl<R: Wait + Abort, L: Ledger> Source for Growing<'_, R, L> {
    ghost state = { λ source. record { left = None; faults = 0 } };

    fn read(&mut self, into: &mut [u8]) -> Option<usize> {
        if self.grows_at == Some(self.at) {
            self.grows_at = None;
            self.rig.grow(self.rt);
        }
        let count = copy_rest(self.bytes, self.at, into);
        self.at = self.at.saturating_add(count);
        Some(count)
    }

    fn faults(&self) -> u64 {
        0
    }
}

const AA: &[u8] = &[0xAA; 1024];

const ZEROS: &[u8] = &[0x00; 1024];

/// No unit is there.
const NO_UNIT: [u8; 3] = [0x05, 0x25, 0x00];

#[test]
fn a_short_length_ends_the_session(rt: HostRuntime) {
    let turns = [sends_all(&SHORT, 1, EndReason::TooShort(24))];
    plays(&rt, FOUR_GROUPS, Play::Turns(false, &turns), &[1, 0, 0, 0]);
}

const SHORT: [Part; 3] = [
    Part::LogIn(0),
    Part::Check(1, TUR, NO_UNIT),
    Part::Sent(&[0, 0, 0, 0x18]),
];

#[test]
fn a_seat_is_back_after_each_end(rt: HostRuntime) {
    let turns = [
        sends_all(&CUT, 0, EndReason::Cut),
        sends_all(&LONG, 0, EndReason::TooLong(33_553_946)),
        sends_all(&ENDED, 1, EndReason::End),
    ];
    plays(&rt, FOUR_GROUPS, Play::Turns(false, &turns), &[0, 0, 1, 0]);
}

const CUT: [Part; 2] = [Part::LogIn(2), Part::Sent(&[0])];

const LONG: [Part; 2] = [Part::LogIn(2), Part::Sent(&[0x01, 0xFF, 0xFE, 0x1A])];

const ENDED: [Part; 2] = [Part::LogIn(2), Part::Check(1, TUR, NO_UNIT)];

#[test]
fn other_logins_take_no_seat(rt: HostRuntime) {
    let turns = [
        sends_all(&OTHER_LOGIN, 0, EndReason::BadLogin),
        sends_all(&CUT_LOGIN, 0, EndReason::Cut),
    ];
    plays(&rt, FOUR_GROUPS, Play::Turns(false, &turns), &[0, 0, 0, 0]);
}

const OTHER_LOGIN: [Part; 2] = [Part::Sent(b"ARAIDHO1\x04"), Part::Got(&[0x01])];

const CUT_LOGIN: [Part; 1] = [Part::Sent(b"ARAIDHO1")];

#[test]
fn blocks_of_sixteen_bytes(rt: HostRuntime) {
    let turns = [sends_all(&SIXTEEN, 4, EndReason::End)];
    plays(&rt, FOUR_GROUPS, Play::Turns(true, &turns), &[4, 0, 0, 0]);
}

const SIXTEEN: [Part; 5] = [
    Part::LogIn(0),
    Part::Good(1, WRITE_16, AA, &[]),
    Part::Good(2, READ_16, &[], AA),
    Part::Good(3, READ, &[], AA),
    Part::Check(4, &[0x9E], [0x05, 0x20, 0x00]),
];

#[test]
fn a_unit_grows_between_two_frames(rt: HostRuntime) {
    let turns = [sends_all(&GROWING, 5, EndReason::End)];
    plays(&rt, FOUR_GROUPS, Play::Turns(true, &turns), &[5, 0, 0, 0]);
}

const GROWING: [Part; 7] = [
    Part::LogIn(0),
    Part::Good(1, WRITE, AA, &[]),
    Part::Grown,
    Part::Good(2, &[0x12, 0, 0, 0, 1], &[], &[0x00]),
    Part::Check(3, READ, [0x06, 0x2A, 0x09]),
    Part::Good(4, READ, &[], AA),
    Part::Good(5, &[0x25], &[], &[0, 0, 0, 5, 0, 0, 2, 0]),
];

// How a session ends whose input, a login, a WRITE of 1,024 bytes and a READ, is cut after this many bytes.
fn end_of(cut: usize) -> SessionEnd {
    let (frames, reason) = match cut {
        0..=8 => (0, EndReason::Cut),
        9 => (0, EndReason::End),
        10..=1061 => (0, EndReason::Cut),
        1062 => (1, EndReason::End),
        1063..=1090 => (1, EndReason::Cut),
        _ => (2, EndReason::End),
    };
    SessionEnd { frames, reason }
}

// What it writes: a byte, 14 bytes, and 14 bytes with the sectors.
fn written_of(cut: usize) -> usize {
    match cut {
        0..=8 => 0,
        9..=1061 => 1,
        1062..=1090 => 15,
        _ => 1053,
    }
}

// After a session that was cut a whole one reads what stands: the WRITE was done if its frame had come.
#[test]
fn input_cut_at_each_byte(rt: HostRuntime) {
    for cut in 0..=1091 {
        let end = end_of(cut);
        let part = Turn {
            parts: &WHOLE,
            sent: cut,
            got: written_of(cut),
            end,
        };
        let turns = [part, sends_all(read_after(end.frames), 1, EndReason::End)];
        let commands = [end.frames.saturating_add(1), 0, 0, 0];
        plays(&rt, FOUR_GROUPS, Play::Turns(true, &turns), &commands);
    }
}

const WHOLE: [Part; 3] = [
    Part::LogIn(0),
    Part::Good(1, WRITE, AA, &[]),
    Part::Good(2, READ, &[], AA),
];

const READS_ZEROS: [Part; 2] = [Part::LogIn(0), Part::Good(1, READ, &[], ZEROS)];

const READS_AA: [Part; 2] = [Part::LogIn(0), Part::Good(1, READ, &[], AA)];

fn read_after(frames: u64) -> &'static [Part] {
    if frames == 0 { &READS_ZEROS } else { &READS_AA }
}
