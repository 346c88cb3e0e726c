// Connections, of which one may find no thread, or the work in the background none. The gate refuses each allocation in
// turn, and so each thread, by `.ci/scarce`; with ample memory all of them start.
ghost use Rattle.std.specs.Prelude.{true, ⊤};

use crate::rig::{Play, Rig, plays};
use ar_doors::Door;
use ar_frames::{EndReason, MemSink, MemSource, NoGate, SessionEnd};
use ar_sessions::{ConnectionEnd, run_beside_background};
use log::Log;
use std::alloc::Global;
use std::process::Abort;
use std::sync::Wait;
use std::sync::ledger::Ledger;
use std::thread::Threads;
use std::time::Clock;
use test_support::FOUR_GROUPS;

/// How many connections come.
const CONNECTIONS: usize = 3;

// Opens connections that end before a login. It takes no memory, so that it opens them whatever is refused.
#[derive(Drop)]
struct Brief {
    alloc: Global,
    left: usize,
}

impl Door for Brief {
    type Reader = MemSource;

    type Writer = MemSink;

    ghost to_come = { λ door. door.left };

    ghost are_one = { λ _ _. true };

    ghost opens = { λ _ _ _. ⊤ };

    fn left(&self) -> usize {
        self.left
    }

    fn accept(&mut self) -> Option<(MemSource, MemSink)> {
        self.left -= 1;
        let reader = MemSource::new(Vec::new(self.alloc));
        Some((reader, MemSink::new(Vec::new(self.alloc))))
    }
}

#[test]
fn a_thread_that_does_not_start(rt: HostRuntime) {
    plays(&rt, FOUR_GROUPS, Play::MeetBriefly, &[0, 0, 0, 0]);
}

/// Serves connections that end before a login.
pub fn meet_briefly<L: Ledger + Send + Sync, R: Threads + Wait + Clock + Log + Abort + Sync>(
    rt: &R,
    alloc: Global,
    rig: &Rig<L>,
) {
    let door = Brief {
        alloc,
        left: CONNECTIONS,
    };
    let (door, met) = run_beside_background(rt, alloc, door, &rig.kept, &rig.desk, &NoGate);
    if let Ok(ends) = &met {
        all_ended(rt, ends.as_slice());
    }
    drop(met);
    drop(door);
}

// Of one refusal at most one thread is lacking.
fn all_ended(rt: &impl Abort, ends: &[ConnectionEnd]) {
    let mut threadless: u32 = 0;
    for end in ends {
        if *end == ConnectionEnd::NoThread {
            threadless = threadless.saturating_add(1);
        } else {
            was_cut(rt, *end);
        }
    }
    assert!(rt;
        threadless <= 1,
        "{threadless} connections without a thread: {ends:?}"
    );
}

fn was_cut(rt: &impl Abort, end: ConnectionEnd) {
    let wanted = ConnectionEnd::Served(SessionEnd {
        frames: 0,
        reason: EndReason::Cut,
    });
    assert!(rt; end == wanted, "{end:?}");
}
