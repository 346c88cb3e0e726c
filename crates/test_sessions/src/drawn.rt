// A drawn run over sessions, one a host and one after another: what stands between two frames is done when the next is
// read. Each reply is, byte by byte, that of plain lists, which share no code with the array.
ghost use Rattle.std.specs.Prelude.{None};

use crate::frames::{LOGINS, put_reply, put_request};
use crate::rig::{Play, Rig, copy_rest, plays, serves, sink};
use ar_core::Outcome;
use ar_disks::FuseDisk;
use ar_frames::{EndReason, SessionEnd, Source};
use std::process::Abort;
use std::sync::Wait;
use std::sync::ledger::Ledger;
use std::time::Clock;
use test_support::{Answer, Ask, Command, FOUR_GROUPS, Run, Shape, Tally, agrees, kind_of_work};

/// The frames of a host's session.
const FRAMES: u64 = 5_000;

/// More than ever stands between two frames.
const MOST_BETWEEN: u32 = 1_000;

/// More bytes than the replies of a session have.
const MOST_BYTES: usize = 1 << 24;

/// Sixteen groups. All but one have room for six blocks each.
const SIXTEEN_GROUPS: Shape = Shape {
    extents: 16,
    ..FOUR_GROUPS
};

const ROOM: u32 = 6 * 15;

/// How often each kind of answer comes at least.
const WANTED: u32 = 100;

#[test]
fn drawn_sessions_are_answered_as_by_plain_lists(rt: HostRuntime) {
    for cache in [0, 2] {
        let shape = Shape {
            cache,
            ..SIXTEEN_GROUPS
        };
        plays(&rt, shape, Play::Draw, &[FRAMES; 4]);
    }
}

/// The four hosts, one after another.
pub fn draw<L: Ledger, R: Wait + Clock + Abort + AllocGlobal>(rt: &R, rig: &Rig<L>, shape: Shape) {
    let mut run = Run::new(rt.alloc(), 8, ROOM);
    for host in 0..4 {
        session(rt, rig, host, &mut run);
    }
    each_kind_came(rt, shape, &run);
    drop(run);
}

fn session<L: Ledger, R: Wait + Clock + Abort + AllocGlobal>(
    rt: &R,
    rig: &Rig<L>,
    host: u8,
    run: &mut Run,
) {
    let mut reader = Asking {
        rt,
        rig,
        host,
        run,
        left: FRAMES,
        at: 0,
        frames: Frames {
            request: bytes(rt, LOGINS[usize::from(host % 4)]),
            replies: bytes(rt, &[0x00]),
        },
    };
    is_served(rt, rig, &mut reader);
    drop(reader);
}

fn is_served<L: Ledger, R: Wait + Clock + Abort + AllocGlobal>(
    rt: &R,
    rig: &Rig<L>,
    reader: &mut Asking<'_, R, L>,
) {
    let mut writer = sink(rt, rt.alloc(), MOST_BYTES);
    let end = serves(rt, rt.alloc(), rig, reader, &mut writer);
    ends(rt, reader.host, end);
    replies(rt, reader.host, writer.written(), &reader.frames.replies);
    drop(writer);
}

fn ends(rt: &impl Abort, host: u8, end: SessionEnd) {
    let wanted = SessionEnd {
        frames: FRAMES,
        reason: EndReason::End,
    };
    assert!(rt; end == wanted, "host {host}: {end:?}");
}

fn replies(rt: &impl Abort, host: u8, written: &[u8], wanted: &[u8]) {
    let at = first_difference(written, wanted);
    assert!(rt;
        written == wanted,
        "host {host}: the replies differ at byte {at}"
    );
}

// Where two lists differ first: at most the end of the shorter one.
fn first_difference(one: &[u8], other: &[u8]) -> usize {
    let mut at: usize = 0;
    for (byte, beside) in one.iter().zip(other) {
        if byte != beside {
            break;
        }
        at = at.saturating_add(1);
    }
    at
}

// A run that never met an answer would say nothing of it.
fn each_kind_came(rt: &impl Abort, shape: Shape, run: &Run) {
    let flaw = run.tally.flaw(WANTED, shape.cache > 0);
    assert!(rt; flaw.is_none(), "{flaw:?}: {shape:?}");
}

/// The frame that is sent next, and what the session has to write to all that were.
#[derive(Drop)]
struct Frames {
    request: Vec<u8>,
    replies: Vec<u8>,
}

fn bytes<R: Abort + AllocGlobal>(rt: &R, bytes: &[u8]) -> Vec<u8> {
    bytes.to_vec(rt.alloc()).expect(rt, "memory")
}

// A host that logs in and sends commands of a run, and has done what stands between them when its next frame is read.
#[derive(Drop)]
struct Asking<'a, R: Wait + Abort, L: Ledger> {
    rt: &'a R,
    rig: &'a Rig<L>,
    host: u8,
    run: &'a mut Run,
    // How many frames come after this one, and how much of it was read.
    left: u64,
    at: usize,
    frames: Frames,
}

impl<R: Wait + Abort, L: Ledger> Asking<'_, R, L> {
    // Makes the next frame, where this one was read.
    fn go_on(&mut self) {
        if self.at < self.frames.request.len() || self.left == 0 {
            return;
        }
        self.left -= 1;
        self.at = 0;
        self.frames.request.clear();
        let tag = (self.left % 256) as u8;
        ask_next(
            self.rt,
            self.rig,
            self.host,
            tag,
            self.run,
            &mut self.frames,
        );
    }
}

impl<R: Wait + Abort, L: Ledger> Source for Asking<'_, R, L> {
    ghost state = { λ source. record { left = None; faults = 0 } };

    fn read(&mut self, into: &mut [u8]) -> Option<usize> {
        self.go_on();
        let count = copy_rest(&self.frames.request, self.at, into);
        self.at = self.at.saturating_add(count);
        Some(count)
    }

    fn faults(&self) -> u64 {
        0
    }
}

// Does what comes before the host's next command, and puts this one into a frame.
fn ask_next<R: Wait + Abort, L: Ledger>(
    rt: &R,
    rig: &Rig<L>,
    host: u8,
    tag: u8,
    run: &mut Run,
    frames: &mut Frames,
) {
    for _ in 0..MOST_BETWEEN {
        if ask_once(rt, rig, host, tag, run, frames) {
            return;
        }
    }
}

fn ask_once<R: Wait + Abort, L: Ledger>(
    rt: &R,
    rig: &Rig<L>,
    host: u8,
    tag: u8,
    run: &mut Run,
    frames: &mut Frames,
) -> bool {
    let (ask, wanted) = run.next(Some(host)).expect(rt, "memory");
    let is_command = matches!(ask, Ask::Command(_));
    match &ask {
        Ask::Command(command) => put_frames(rt, tag, command, &wanted, frames),
        between => step(rt, rig, between, &wanted, &mut run.tally),
    }
    drop(ask);
    drop(wanted);
    is_command
}

fn put_frames(rt: &impl Abort, tag: u8, command: &Command, wanted: &Answer, frames: &mut Frames) {
    let lun = command.place.lun;
    put_request(
        rt,
        &mut frames.request,
        tag,
        lun,
        &command.cdb,
        &command.data,
    );
    if let Answer::Replied(reply) = wanted {
        put_reply(rt, &mut frames.replies, tag, reply);
    }
}

// A creation, a resize or a removal, or work in the background.
fn step<L: Ledger>(
    rt: &(impl Wait + Abort),
    rig: &Rig<L>,
    ask: &Ask,
    wanted: &Answer,
    tally: &mut Tally,
) {
    let outcome = rig.step(rt, ask);
    does_agree(rt, &outcome, wanted);
    if *wanted == Answer::Open {
        tally.add(kind_of_work(&outcome));
    }
    drop(outcome);
}

fn does_agree(rt: &impl Abort, outcome: &Outcome<FuseDisk>, wanted: &Answer) {
    assert!(rt; agrees(outcome, wanted), "{outcome:?} for {wanted:?}");
}
