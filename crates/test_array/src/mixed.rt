// Runs with every kind of event, in which any one disk is lost at any of its calls, and is replaced and rebuilt.
use crate::calls::{is_in, is_met, make_call, play, step};
use crate::fuses::{
    MAKE, MOST_CALLS, READS_AGAIN, THREE_GROUPS, WRITES, WRITES_AGAIN, are_at_least, calls_in,
    is_ever_lost,
};
use ar_core::{Array, EventOf, Health, Rebuild};
use ar_disks::FuseDisk;
use std::process::Abort;
use test_support::{Call, FOUR_GROUPS, Return, Row, Shape, Work};

const ADD: [Row; 1] = [(Call::AddDisk, Return::Done)];

/// A new disk of three extents is rebuilt.
const REBUILT: [Row; 4] = [
    (
        Call::Work(Work::Rebuild),
        Return::Rebuild(Rebuild::Rebuilt(0, 2)),
    ),
    (
        Call::Work(Work::Rebuild),
        Return::Rebuild(Rebuild::Rebuilt(1, 1)),
    ),
    (
        Call::Work(Work::Rebuild),
        Return::Rebuild(Rebuild::Finished),
    ),
    (Call::Work(Work::Rebuild), Return::Rebuild(Rebuild::Idle)),
];

/// What the background does. Whether a step finds its disk is open.
const BACKGROUND: [Work; 6] = [
    Work::Balance,
    Work::Balance,
    Work::Balance,
    Work::Balance,
    Work::Demote,
    Work::Clean,
];

fn move_blocks<R: Abort + AllocGlobal>(rt: &R, shape: Shape, array: &mut Array<FuseDisk>) {
    for work in BACKGROUND {
        make_call(rt, shape, array, Call::Work(work));
    }
}

// A unit takes all the room and is written, a disk is added, the background has its turn, and all blocks are written
// again, and read. Says whether the weak disk was never lost before the reads; if it was it is replaced.
fn is_whole<R: Abort + AllocGlobal>(rt: &R, shape: Shape, array: &mut Array<FuseDisk>) -> bool {
    play(rt, shape, array, &[&MAKE, &WRITES, &ADD]);
    move_blocks(rt, shape, array);
    let ending = play(rt, shape, array, &[&WRITES_AGAIN]);
    if ending.health == Health::Whole {
        play(rt, shape, array, &[&READS_AGAIN]);
        return true;
    }
    is_in(rt, shape, ending.health, Health::Out(shape.weak));
    let replace = [(Call::Replace(shape.weak), Return::Done)];
    let ending = play(rt, shape, array, &[&replace, &REBUILT, &READS_AGAIN]);
    is_in(rt, shape, ending.health, Health::Whole);
    false
}

fn is_whole_with<R: Abort + AllocGlobal>(rt: &R, shape: Shape) -> bool {
    let mut array = shape.array(rt.alloc()).expect(rt, "an array");
    let is_whole = is_whole(rt, shape, &mut array);
    drop(array);
    is_whole
}

// Runs with ever longer fuses, until the disk is never lost. Both rows of two groups in use are written.
fn outlives<R: Abort + AllocGlobal>(rt: &R, weak: u8, cache: u16) {
    for calls in 0..MOST_CALLS {
        let shape = Shape {
            cache,
            weak,
            calls,
            ..THREE_GROUPS
        };
        if is_whole_with(rt, shape) {
            are_at_least(rt, shape, calls, 4);
            return;
        }
    }
    is_ever_lost(rt, THREE_GROUPS);
}

#[test]
fn a_mixed_run_outlives_disk_0(rt: HostRuntime) {
    outlives(&rt, 0, 0);
    outlives(&rt, 0, 2);
}

#[test]
fn a_mixed_run_outlives_disk_1(rt: HostRuntime) {
    outlives(&rt, 1, 0);
    outlives(&rt, 1, 2);
}

#[test]
fn a_mixed_run_outlives_disk_2(rt: HostRuntime) {
    outlives(&rt, 2, 0);
    outlives(&rt, 2, 2);
}

#[test]
fn a_mixed_run_outlives_disk_3(rt: HostRuntime) {
    outlives(&rt, 3, 0);
    outlives(&rt, 3, 2);
}

/// Six blocks are written.
const SIX: [Row; 7] = [
    (Call::Make(0, 0, 12), Return::Done),
    (Call::Write(0, 0, 0, 2, 0x01), Return::Good),
    (Call::Write(0, 0, 2, 2, 0x02), Return::Good),
    (Call::Write(0, 0, 4, 2, 0x03), Return::Good),
    (Call::Write(0, 0, 6, 2, 0x04), Return::Good),
    (Call::Write(0, 0, 8, 2, 0x05), Return::Good),
    (Call::Write(0, 0, 10, 2, 0x06), Return::Good),
];

/// Two of the six are demoted, so that the four others all fit in one group.
const CLEANED: [Row; 10] = [
    (Call::Work(Work::Demote), Return::Moved(0, 2, 0)),
    (Call::Work(Work::Demote), Return::Moved(1, 2, 1)),
    (Call::Work(Work::Clean), Return::Moved(2, 1, 2)),
    (Call::Work(Work::Clean), Return::Moved(3, 1, 3)),
    (Call::Work(Work::Clean), Return::Idle),
    (Call::Read(0, 0, 0), Return::Sectors(0x01, 0x01)),
    (Call::Read(0, 0, 2), Return::Sectors(0x02, 0x02)),
    (Call::Read(0, 0, 4), Return::Sectors(0x03, 0x03)),
    (Call::Read(0, 0, 6), Return::Sectors(0x04, 0x04)),
    (Call::Read(0, 0, 8), Return::Sectors(0x05, 0x05)),
];

/// One of the six is demoted, and promoted again by a write.
const PROMOTED: [Row; 8] = [
    (Call::Work(Work::Demote), Return::Moved(0, 2, 0)),
    (Call::Write(0, 0, 0, 2, 0xAA), Return::Good),
    (Call::Read(0, 0, 0), Return::Sectors(0xAA, 0xAA)),
    (Call::Read(0, 0, 2), Return::Sectors(0x02, 0x02)),
    (Call::Read(0, 0, 4), Return::Sectors(0x03, 0x03)),
    (Call::Read(0, 0, 6), Return::Sectors(0x04, 0x04)),
    (Call::Read(0, 0, 8), Return::Sectors(0x05, 0x05)),
    (Call::Read(0, 0, 10), Return::Sectors(0x06, 0x06)),
];

// No lost disk changes what is returned. The block that is demoted is written to two disks, and its group opened on all
// four.
fn move_past_a_lost_disk<R: Abort + AllocGlobal>(rt: &R, rows: &[Row]) {
    for weak in 0..4u8 {
        let shape = Shape {
            weak,
            ..FOUR_GROUPS
        };
        calls_in(rt, shape, &[&SIX, rows], 2);
    }
}

#[test]
fn cleaning_outlives_a_disk(rt: HostRuntime) {
    move_past_a_lost_disk(&rt, &CLEANED);
}

#[test]
fn promotion_outlives_a_disk(rt: HostRuntime) {
    move_past_a_lost_disk(&rt, &PROMOTED);
}

/// A block is written, and written again once a disk is out.
const WITHOUT_A_DISK: [Row; 4] = [
    (Call::Make(0, 0, 4), Return::Done),
    (Call::Write(0, 0, 0, 2, 0xAA), Return::Good),
    (Call::DiskOut(0), Return::Done),
    (Call::Write(0, 0, 0, 2, 0xBB), Return::Good),
];

/// The disk that takes its place is lost in the first step of the rebuild, and replaced in its turn.
const GIVEN_UP: [Row; 2] = [
    (Call::Work(Work::Rebuild), Return::Rebuild(Rebuild::GivenUp)),
    (Call::Replace(0), Return::Done),
];

/// The block is read.
const WRITTEN: [Row; 1] = [(Call::Read(0, 0, 0), Return::Sectors(0xBB, 0xBB))];

// Disk 0 is replaced by one that passes `calls` reads and writes.
fn replace_by<R: Abort + AllocGlobal>(
    rt: &R,
    calls: u64,
    array: &mut Array<FuseDisk>,
    parts: &[&[Row]],
) {
    play(rt, THREE_GROUPS, array, &[&WITHOUT_A_DISK]);
    let disk = THREE_GROUPS
        .new_disk(rt.alloc(), calls)
        .expect(rt, "memory");
    let met = step(rt, array, EventOf::Replace(0, disk));
    is_met(rt, THREE_GROUPS, 0, Call::Replace(0), met, Return::Done);
    let ending = play(rt, THREE_GROUPS, array, parts);
    is_in(rt, THREE_GROUPS, ending.health, Health::Whole);
}

fn is_rebuilt<R: Abort + AllocGlobal>(rt: &R, calls: u64, parts: &[&[Row]]) {
    let mut array = THREE_GROUPS.array(rt.alloc()).expect(rt, "an array");
    replace_by(rt, calls, &mut array, parts);
    drop(array);
}

// The group in use has two rows, each of which the rebuild writes: a disk that passes no call, or one, is given up.
#[test]
fn a_replaced_disk_is_given_up(rt: HostRuntime) {
    is_rebuilt(&rt, 0, &[&GIVEN_UP, &REBUILT, &WRITTEN]);
    is_rebuilt(&rt, 1, &[&GIVEN_UP, &REBUILT, &WRITTEN]);
}

// Two calls are enough: extents of free groups are not written.
#[test]
fn two_calls_rebuild_a_disk(rt: HostRuntime) {
    is_rebuilt(&rt, 2, &[&REBUILT]);
}
