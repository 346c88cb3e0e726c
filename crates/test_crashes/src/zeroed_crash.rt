//! Drawn runs of logs over zeros that stop at every call and crash there, and again while they are recovered and go on.
//! Of the newest write any bytes may be left: the first ones, the last ones, all but one, one alone, or drawn ones.
use crate::draw::Draw;
use crate::run::left;
use crate::zeroed_run::{
    Life, Plan, batches_in, check_bytes, file_of, limited, plan_of, run_again, run_zeroed,
};
use ar_log::recover_zeroed;
use ar_media::Fate::{self, Lost, Torn};
use ar_media::MemoryFile;
use std::alloc::Global;
use std::process::Abort;

/// How many runs each test draws.
const RUNS: u64 = 300;

/// One run of this many crashes once more, at every call that comes after each crash.
const AGAIN: u64 = 20;

/// In how many drawn ways the second crash tears a write.
const TEARS: u64 = 6;

/// What becomes of the newest calls where nothing is left of what wasn't synced.
const LOST: [Fate; 3] = [Lost; 3];

/// Which bytes of a write a crash leaves.
#[derive(Clone, Copy, Debug)]
enum Tear {
    /// Those from an offset of the file on.
    From(usize),
    /// All but the one at this offset.
    AllBut(usize),
    /// The one at this offset alone.
    Alone(usize),
    /// Those that a seed gives.
    Drawn(u64),
}

#[test]
fn a_crash_over_zeros_leaves_what_was_acknowledged_0(rt: HostRuntime) {
    crash_runs(&rt, rt.alloc(), 0);
}

#[test]
fn a_crash_over_zeros_leaves_what_was_acknowledged_1(rt: HostRuntime) {
    crash_runs(&rt, rt.alloc(), 1);
}

#[test]
fn a_crash_over_zeros_leaves_what_was_acknowledged_2(rt: HostRuntime) {
    crash_runs(&rt, rt.alloc(), 2);
}

#[test]
fn a_crash_over_zeros_leaves_what_was_acknowledged_3(rt: HostRuntime) {
    crash_runs(&rt, rt.alloc(), 3);
}

// A part of the runs, since a test has a minute.
fn crash_runs(rt: &impl Abort, alloc: Global, part: u64) {
    let first = part.saturating_mul(RUNS);
    for seed in first..first.saturating_add(RUNS) {
        stop_everywhere(rt, alloc, seed);
    }
}

fn stop_everywhere(rt: &impl Abort, alloc: Global, seed: u64) {
    let plan = plan_of(rt, alloc, seed);
    for calls in 0..u64::MAX {
        let life = run_zeroed(rt, alloc, &plan, calls, usize::MAX);
        crash_anyhow(rt, alloc, &plan, &life, seed % AGAIN == 0);
        if life.is_whole() {
            return;
        }
    }
}

// Crashes in each way.
fn crash_anyhow(rt: &impl Abort, alloc: Global, plan: &Plan, life: &Life, again: bool) {
    let after = left(rt, &life.file, &[]);
    leaves(rt, alloc, plan, life, after.bytes(), again);
    if left(rt, &life.file, &LOST).bytes() == after.bytes() {
        return;
    }
    for at in 0..after.bytes().len() {
        let front = left(rt, &life.file, &[Torn(at)]);
        leaves(rt, alloc, plan, life, front.bytes(), again);
        for tear in [
            Tear::From(at),
            Tear::AllBut(at),
            Tear::Alone(at),
            Tear::Drawn(at as u64),
        ] {
            let bytes = torn(rt, alloc, &life.file, tear);
            leaves(rt, alloc, plan, life, &bytes, again);
        }
    }
}

// What a crash leaves of a file whose newest writes it tears: each byte is as it was or as it was to be. Past the old
// end it was zero.
fn torn(rt: &impl Abort, alloc: Global, file: &MemoryFile, tear: Tear) -> Vec<u8> {
    let before = left(rt, file, &LOST);
    let after = left(rt, file, &[]);
    let mut draw = Draw::new(if let Tear::Drawn(seed) = tear {
        seed
    } else {
        0
    });
    let mut bytes = Vec::new(alloc);
    for (place, written) in after.bytes().iter().enumerate() {
        let is_written = match tear {
            Tear::From(at) => place >= at,
            Tear::AllBut(at) => place != at,
            Tear::Alone(at) => place == at,
            Tear::Drawn(_) => draw.up_to(1) == 1,
        };
        let old = before.bytes().get(place).copied().unwrap_or(0);
        bytes
            .push(if is_written { *written } else { old })
            .expect(rt, "memory");
    }
    bytes
}

// A crash may leave these bytes, and what is recovered of them takes further batches.
fn leaves(rt: &impl Abort, alloc: Global, plan: &Plan, life: &Life, bytes: &[u8], again: bool) {
    check_bytes(rt, alloc, life, bytes);
    let next = run_again(rt, alloc, plan, life, file_of(rt, alloc, bytes), u64::MAX);
    check_bytes(rt, alloc, &next, next.file.bytes());
    assert!(rt; next.is_whole() || !next.is_log, "{} batches", next.done);
    if again && next.is_log {
        recover_again(rt, alloc, bytes);
        crash_again(rt, alloc, plan, life, bytes);
    }
}

// A second crash at each call of the recovery leaves the same batches.
fn recover_again(rt: &impl Abort, alloc: Global, bytes: &[u8]) {
    let found = batches_in(alloc, bytes);
    for calls in 0..u64::MAX {
        let mut file = limited(rt, file_of(rt, alloc, bytes), calls, usize::MAX);
        let is_recovered = recover_zeroed(alloc, &mut file).is_ok();
        for number in 0..TEARS {
            let left = torn(rt, alloc, &file, Tear::Drawn(number));
            assert!(rt;
                batches_in(alloc, &left) == found,
                "other batches in {left:?}"
            );
        }
        if is_recovered {
            return;
        }
    }
}

// A second crash at each call after the first.
fn crash_again(rt: &impl Abort, alloc: Global, plan: &Plan, life: &Life, bytes: &[u8]) {
    for calls in 0..u64::MAX {
        let next = run_again(rt, alloc, plan, life, file_of(rt, alloc, bytes), calls);
        for number in 0..TEARS {
            let left = torn(rt, alloc, &next.file, Tear::Drawn(number));
            check_bytes(rt, alloc, &next, &left);
        }
        if next.is_whole() {
            return;
        }
    }
}
