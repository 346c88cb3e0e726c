// Sessions at once, behind a gate.
ghost use Rattle.std.specs.Prelude.{◌≡◌, true, None};

use crate::frames::{LOGINS, TUR, put, put_request};
use crate::rig::{Play, Rig, plays, sink};
use ar_disks::Host;
use ar_doors::{Door, MemDoor};
use ar_frames::{EndReason, Gate, MemSink, MemSource, NoGate, SessionEnd};
use ar_sessions::{ConnectionEnd, run_sessions};
use log::Log;
use std::alloc::Global;
use std::collections::VecDeque;
use std::process::Abort;
use std::sync::Wait;
use std::sync::atomic::{AtomicBool, Ordering};
use std::sync::ledger::Ledger;
use std::thread;
use std::thread::Threads;
use std::time::Clock;
use test_support::FOUR_GROUPS;

/// How often a flag is looked at before it counts as never set.
const LOOKS: u32 = 10_000_000;

/// Holds host 0's first command until host 1's first was answered, or until someone else says so.
#[derive(Drop)]
pub struct Held {
    pub begun: AtomicBool,
    pub answered: AtomicBool,
    late: AtomicBool,
}

impl Held {
    /// Nothing was asked or answered yet.
    pub fn new() -> Held {
        Held {
            begun: AtomicBool::new(false),
            answered: AtomicBool::new(false),
            late: AtomicBool::new(false),
        }
    }
}

impl Gate for Held {
    fn before(&self, host: Host, n: u64) {
        if host.number() != 0 || n != 1 {
            return;
        }
        self.begun.store(true, Ordering::SeqCst);
        for _ in 0..LOOKS {
            if self.answered.load(Ordering::SeqCst) {
                return;
            }
            thread::yield_now();
        }
        self.late.store(true, Ordering::SeqCst);
    }

    fn after(&self, host: Host, n: u64) {
        if host.number() == 1 && n == 1 {
            self.answered.store(true, Ordering::SeqCst);
        }
    }
}

// The session of a host that asks this many times whether its unit is ready.
fn input(rt: &impl Abort, alloc: Global, host: u8, count: u8) -> Vec<u8> {
    let mut bytes = Vec::new(alloc);
    put(rt, &mut bytes, LOGINS[usize::from(host % 4)]);
    for tag in 0..count {
        put_request(rt, &mut bytes, tag, 0, TUR, &[]);
    }
    bytes
}

/// A door to sessions, each of a host with this many commands.
pub fn door(rt: &impl Abort, alloc: Global, sessions: &[(u8, u8)]) -> MemDoor<MemSource, MemSink> {
    let mut pairs = VecDeque::new(alloc);
    for (host, count) in sessions {
        push(rt, alloc, &mut pairs, *host, *count);
    }
    MemDoor::new(pairs)
}

fn push(
    rt: &impl Abort,
    alloc: Global,
    pairs: &mut VecDeque<(MemSource, MemSink)>,
    host: u8,
    count: u8,
) {
    let reader = MemSource::new(input(rt, alloc, host, count));
    pairs
        .push_back((reader, sink(rt, alloc, 256)))
        .ok()
        .expect(rt, "memory");
}

// Serves a door where hosts 0 and 1 have units.
fn serve<
    L: Ledger + Send + Sync,
    O: Door + Drop,
    G: Gate + Sync,
    R: Threads + Wait + Clock + Log + Abort + Sync,
>(rt: &R, alloc: Global, rig: &Rig<L>, door: O, gate: &G, wanted: &[ConnectionEnd]) {
    rig.make(rt, 0);
    rig.make(rt, 1);
    let (door, ends) = run_sessions(rt, alloc, door, &rig.kept, &rig.desk, gate);
    let ends = ends.expect(rt, "memory");
    are_wanted(rt, ends.as_slice(), wanted);
    drop(ends);
    drop(door);
}

fn are_wanted(rt: &impl Abort, ends: &[ConnectionEnd], wanted: &[ConnectionEnd]) {
    assert!(rt; ends == wanted, "{ends:?}");
}

const fn served(frames: u64, reason: EndReason) -> ConnectionEnd {
    ConnectionEnd::Served(SessionEnd { frames, reason })
}

#[test]
fn two_sessions_at_once(rt: HostRuntime) {
    plays(&rt, FOUR_GROUPS, Play::MeetHeld, &[1, 1, 0, 0]);
}

/// Serves two sessions at once, of which the first waits for the second.
pub fn meet_held<L: Ledger + Send + Sync, R: Threads + Wait + Clock + Log + Abort + Sync>(
    rt: &R,
    alloc: Global,
    rig: &Rig<L>,
) {
    let gate = Held::new();
    let door = door(rt, alloc, &[(0, 1), (1, 1)]);
    let wanted = [served(1, EndReason::End), served(1, EndReason::End)];
    serve(rt, alloc, rig, door, &gate, &wanted);
    is_answered_meanwhile(rt, &gate);
}

/// What host 0 was held for came.
pub fn is_answered_meanwhile(rt: &impl Abort, gate: &Held) {
    assert!(rt;
        !gate.late.load(Ordering::SeqCst),
        "what host 0 is held for comes meanwhile"
    );
}

/// Serves sessions: the host and the number of commands of each.
pub fn meet<L: Ledger + Send + Sync, R: Threads + Wait + Clock + Log + Abort + Sync>(
    rt: &R,
    alloc: Global,
    rig: &Rig<L>,
    sessions: &[(u8, u8)],
    wanted: &[ConnectionEnd],
) {
    let door = door(rt, alloc, sessions);
    serve(rt, alloc, rig, door, &NoGate, wanted);
}

#[test]
fn ends_stand_in_order(rt: HostRuntime) {
    let wanted = [
        served(3, EndReason::End),
        served(1, EndReason::End),
        served(2, EndReason::End),
    ];
    let play = Play::Meet(&[(2, 3), (1, 1), (3, 2)], &wanted);
    plays(&rt, FOUR_GROUPS, play, &[0, 1, 3, 2]);
}

// A door that doesn't open.
#[derive(Drop)]
struct Jammed {
    left: usize,
}

impl Door for Jammed {
    type Reader = MemSource;

    type Writer = MemSink;

    ghost to_come = { λ door. door.left };

    ghost are_one = { λ _ _. true };

    ghost opens = { λ _ pair _. pair ≡ None };

    fn left(&self) -> usize {
        self.left
    }

    fn accept(&mut self) -> Option<(MemSource, MemSink)> {
        self.left -= 1;
        None
    }
}

#[test]
fn a_connection_that_does_not_open(rt: HostRuntime) {
    plays(&rt, FOUR_GROUPS, Play::MeetJammed, &[0, 0, 0, 0]);
}

/// Serves two connections that do not open.
pub fn meet_jammed<L: Ledger + Send + Sync, R: Threads + Wait + Clock + Log + Abort + Sync>(
    rt: &R,
    alloc: Global,
    rig: &Rig<L>,
) {
    let wanted = [served(0, EndReason::Read), served(0, EndReason::Read)];
    serve(rt, alloc, rig, Jammed { left: 2 }, &NoGate, &wanted);
}
