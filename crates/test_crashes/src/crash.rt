//! Drawn runs that stop at every call and crash there, and once more while they recover. The newest write is torn at
//! every byte, up to the one with which it is whole, so that no length is written here.
use crate::draw::batches_of;
use crate::run::{Stopped, check, end_of, left, read_all, run};
use ar_log::{Place, cut_torn};
use ar_media::Fate::{self, Done, Lost, Torn};
use ar_media::MemoryFile;
use std::alloc::Global;
use std::process::Abort;

/// How many runs each test draws.
const RUNS: u64 = 6_250;

/// How many calls it takes to create a log, which is the same in all runs: only the first one stops there.
const CREATION: u64 = 6;

/// What becomes of the newest calls, beside all that is done.
const FATES: [&[Fate]; 5] = [
    &[Lost],
    &[Lost, Lost],
    &[Lost, Done],
    &[Lost, Lost, Lost, Lost],
    &[Torn(9)],
];

/// What becomes of the call after the one that is torn.
const LATER: [Option<Fate>; 3] = [None, Some(Lost), Some(Done)];

#[test]
fn a_crash_leaves_what_was_acknowledged_0(rt: HostRuntime) {
    crash_runs(&rt, rt.alloc(), 0);
}

#[test]
fn a_crash_leaves_what_was_acknowledged_1(rt: HostRuntime) {
    crash_runs(&rt, rt.alloc(), 1);
}

#[test]
fn a_crash_leaves_what_was_acknowledged_2(rt: HostRuntime) {
    crash_runs(&rt, rt.alloc(), 2);
}

#[test]
fn a_crash_leaves_what_was_acknowledged_3(rt: HostRuntime) {
    crash_runs(&rt, rt.alloc(), 3);
}

#[test]
fn a_crash_leaves_what_was_acknowledged_4(rt: HostRuntime) {
    crash_runs(&rt, rt.alloc(), 4);
}

#[test]
fn a_crash_leaves_what_was_acknowledged_5(rt: HostRuntime) {
    crash_runs(&rt, rt.alloc(), 5);
}

#[test]
fn a_crash_leaves_what_was_acknowledged_6(rt: HostRuntime) {
    crash_runs(&rt, rt.alloc(), 6);
}

#[test]
fn a_crash_leaves_what_was_acknowledged_7(rt: HostRuntime) {
    crash_runs(&rt, rt.alloc(), 7);
}

#[test]
fn a_crash_leaves_what_was_acknowledged_8(rt: HostRuntime) {
    crash_runs(&rt, rt.alloc(), 8);
}

#[test]
fn a_crash_leaves_what_was_acknowledged_9(rt: HostRuntime) {
    crash_runs(&rt, rt.alloc(), 9);
}

#[test]
fn a_crash_leaves_what_was_acknowledged_10(rt: HostRuntime) {
    crash_runs(&rt, rt.alloc(), 10);
}

#[test]
fn a_crash_leaves_what_was_acknowledged_11(rt: HostRuntime) {
    crash_runs(&rt, rt.alloc(), 11);
}

#[test]
fn a_crash_leaves_what_was_acknowledged_12(rt: HostRuntime) {
    crash_runs(&rt, rt.alloc(), 12);
}

#[test]
fn a_crash_leaves_what_was_acknowledged_13(rt: HostRuntime) {
    crash_runs(&rt, rt.alloc(), 13);
}

#[test]
fn a_crash_leaves_what_was_acknowledged_14(rt: HostRuntime) {
    crash_runs(&rt, rt.alloc(), 14);
}

#[test]
fn a_crash_leaves_what_was_acknowledged_15(rt: HostRuntime) {
    crash_runs(&rt, rt.alloc(), 15);
}

// A part of the runs, since a test has a minute.
fn crash_runs(rt: &impl Abort, alloc: Global, part: u64) {
    let first = part.saturating_mul(RUNS);
    for seed in first..first.saturating_add(RUNS) {
        stop_everywhere(rt, alloc, seed);
    }
}

fn stop_everywhere(rt: &impl Abort, alloc: Global, seed: u64) {
    let batches = batches_of(alloc, seed).expect(rt, "memory");
    let first = if seed == 0 { 0 } else { CREATION };
    for calls in first..u64::MAX {
        let stopped = run(alloc, &batches, calls, usize::MAX).expect(rt, "memory");
        crash_anyhow(rt, alloc, &stopped, &batches);
        if stopped.done == batches.len() {
            return;
        }
    }
}

// Crashes in each way, and once more in the recovery. What is left as the file itself is checked once.
fn crash_anyhow(rt: &impl Abort, alloc: Global, stopped: &Stopped, batches: &[Vec<Vec<u8>>]) {
    let mut whole = left(rt, &stopped.file, &[]);
    check(rt, stopped, batches, read_all(alloc, &mut whole));
    recover_after(rt, alloc, stopped, batches, &whole);
    for fates in FATES {
        let mut file = left(rt, &stopped.file, fates);
        if file.bytes() != whole.bytes() {
            check(rt, stopped, batches, read_all(alloc, &mut file));
            recover_after(rt, alloc, stopped, batches, &file);
        }
    }
    for later in LATER {
        tear(rt, alloc, stopped, batches, later);
    }
}

// Tears a write at each byte. Once what is left is that of the whole write, it is so with every further byte.
fn tear(
    rt: &impl Abort,
    alloc: Global,
    stopped: &Stopped,
    batches: &[Vec<Vec<u8>>],
    later: Option<Fate>,
) {
    let whole = torn(rt, &stopped.file, usize::MAX, later);
    for count in 0..usize::MAX {
        let mut file = torn(rt, &stopped.file, count, later);
        if file.bytes() == whole.bytes() {
            return;
        }
        check(rt, stopped, batches, read_all(alloc, &mut file));
    }
}

// The file with the newest call torn or, where a fate is given for that one, the call before it.
fn torn(rt: &impl Abort, file: &MemoryFile, count: usize, later: Option<Fate>) -> MemoryFile {
    match later {
        None => left(rt, file, &[Torn(count)]),
        Some(fate) => left(rt, file, &[Torn(count), fate]),
    }
}

// A second crash at each call of the recovery that changes the file.
fn recover_after(
    rt: &impl Abort,
    alloc: Global,
    stopped: &Stopped,
    batches: &[Vec<Vec<u8>>],
    file: &MemoryFile,
) {
    let mut read = left(rt, file, &[]);
    if let Ok(end) = end_of(alloc, &mut read) {
        for calls in 0..u64::MAX {
            if crash_again(rt, alloc, stopped, batches, file, end, calls) {
                return;
            }
        }
    }
}

// Whether the recovery ended before its calls did.
fn crash_again(
    rt: &impl Abort,
    alloc: Global,
    stopped: &Stopped,
    batches: &[Vec<Vec<u8>>],
    file: &MemoryFile,
    end: Place,
    calls: u64,
) -> bool {
    let mut again = left(rt, file, &[]);
    again.fail_after(calls);
    let is_whole = cut_torn(&mut again, end).is_ok();
    if again.bytes() != file.bytes() {
        cut_between(rt, alloc, stopped, batches, file, &again);
    }
    is_whole
}

// A crash leaves the recovered file or, until that is synced, one of a length between: the shortest and the longest.
fn cut_between(
    rt: &impl Abort,
    alloc: Global,
    stopped: &Stopped,
    batches: &[Vec<Vec<u8>>],
    file: &MemoryFile,
    recovered: &MemoryFile,
) {
    let least = recovered.bytes().len();
    let most = file.bytes().len();
    for len in [least, least.saturating_add(1), most.saturating_sub(1)] {
        let mut again = left(rt, recovered, &[Torn(len)]);
        check(rt, stopped, batches, read_all(alloc, &mut again));
    }
}
