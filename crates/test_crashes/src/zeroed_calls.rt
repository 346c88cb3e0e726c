//! What an append over zeros costs: a write and a sync, and as much again where zeros are added. So it is known how far
//! a run comes with any number of calls, or on a file that fills up.
use crate::run::left;
use crate::zeroed_run::{MAGIC, Plan, check_bytes, len_of, plan_of, run_again, run_zeroed};
use ar_media::Fate::{self, Lost, Torn};
use std::alloc::Global;
use std::process::Abort;

const SEEDS: u64 = 200;

/// No run makes as many calls, and no log of these is as long.
const CALLS: u64 = 16;

const ROOM: usize = 280;

const FATES: [&[Fate]; 4] = [&[], &[Lost], &[Torn(1)], &[Torn(20)]];

/// How far a run comes.
#[derive(Clone, Copy, Debug, PartialEq, Eq)]
struct Reach {
    is_log: bool,
    done: usize,
    /// The length of the file, if no call has failed.
    len: usize,
}

// How far a run comes with this many calls and this much room.
fn reach_of(plan: &Plan, calls: u64, room: usize) -> Reach {
    let mut end = MAGIC;
    let mut reach = Reach {
        is_log: false,
        done: 0,
        len: MAGIC.saturating_add(plan.len),
    };
    let mut left = calls;
    if left < 2 || reach.len > room {
        return reach;
    }
    left -= 2;
    reach.is_log = true;
    for batch in &plan.batches {
        end = end.saturating_add(len_of(batch));
        let lacks = end.saturating_sub(reach.len);
        let cost = if lacks > 0 { 4 } else { 2 };
        let len = if lacks > 0 {
            reach.len.saturating_add(lacks.max(plan.step))
        } else {
            reach.len
        };
        if left < cost || len > room {
            return reach;
        }
        left -= cost;
        reach.len = len;
        reach.done = reach.done.saturating_add(1);
    }
    reach
}

fn reaches(rt: &impl Abort, alloc: Global, plan: &Plan, calls: u64, room: usize) {
    let wanted = reach_of(plan, calls, room);
    let life = run_zeroed(rt, alloc, plan, calls, room);
    let is_so = (life.is_log, life.done) == (wanted.is_log, wanted.done);
    assert!(rt;
        is_so,
        "{} batches, not {wanted:?}, after {calls} calls in {room} bytes",
        life.done
    );
    let len = life.file.bytes().len();
    assert!(rt;
        !life.is_whole() || len == wanted.len,
        "{len} bytes, not {wanted:?}"
    );
    for fates in FATES {
        let file = left(rt, &life.file, fates);
        check_bytes(rt, alloc, &life, file.bytes());
        // There is room again.
        let next = run_again(rt, alloc, plan, &life, file, u64::MAX);
        assert!(rt; next.is_whole() || !life.is_log, "{} batches", next.done);
        check_bytes(rt, alloc, &next, next.file.bytes());
    }
}

#[test]
fn an_append_over_zeros_takes_one_sync(rt: HostRuntime) {
    for seed in 0..SEEDS {
        reach_by_calls(&rt, rt.alloc(), seed);
    }
}

fn reach_by_calls(rt: &impl Abort, alloc: Global, seed: u64) {
    let plan = plan_of(rt, alloc, seed);
    for calls in 0..CALLS {
        reaches(rt, alloc, &plan, calls, usize::MAX);
    }
}

#[test]
fn a_full_file_over_zeros_keeps_what_was_acknowledged(rt: HostRuntime) {
    for seed in 0..SEEDS / 20 {
        reach_by_room(&rt, rt.alloc(), seed);
    }
}

fn reach_by_room(rt: &impl Abort, alloc: Global, seed: u64) {
    let plan = plan_of(rt, alloc, seed);
    for room in 0..ROOM {
        reaches(rt, alloc, &plan, u64::MAX, room);
    }
}
