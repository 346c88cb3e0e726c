// Discards while a disk is lost: in a table at any of its calls, and in drawn runs by fuses of several lengths.
use crate::calls::is_in;
use crate::churn::{ask_next, read_all};
use crate::fuses::{
    MAKE, MOST_CALLS, READS_AGAIN, THREE_GROUPS, WRITES, WRITES_AGAIN, broken_by, calls_in, ending,
    is_ever_lost,
};
use crate::generated::{ROOM, sixteen_extents};
use ar_core::{Array, Health};
use ar_disks::FuseDisk;
use ar_scsi::Sense;
use std::process::Abort;
use test_support::{Call, Return, Row, Run, Shape};

/// Of twelve blocks in groups with parity: half of block 0, block 1 and half of block 2; blocks 6 to 8; and half of
/// block 11.
const DISCARDS: [Row; 5] = [
    (Call::Unmap(0, 0, 1, 4), Return::Good),
    (Call::Unmap(0, 0, 12, 6), Return::Good),
    (Call::Unmap(0, 0, 23, 1), Return::Good),
    (
        Call::Unmap(0, 0, 24, 1),
        Return::Check(Sense::LOGICAL_BLOCK_ADDRESS_OUT_OF_RANGE),
    ),
    (
        Call::Unmap(1, 0, 0, 1),
        Return::Check(Sense::LOGICAL_UNIT_NOT_SUPPORTED),
    ),
];

/// What is left of them.
const LEFT: [Row; 12] = [
    (Call::Read(0, 0, 0), Return::Sectors(0x01, 0x00)),
    (Call::Read(0, 0, 2), Return::Sectors(0x00, 0x00)),
    (Call::Read(0, 0, 4), Return::Sectors(0x00, 0x03)),
    (Call::Read(0, 0, 6), Return::Sectors(0x04, 0x04)),
    (Call::Read(0, 0, 8), Return::Sectors(0x05, 0x05)),
    (Call::Read(0, 0, 10), Return::Sectors(0x06, 0x06)),
    (Call::Read(0, 0, 12), Return::Sectors(0x00, 0x00)),
    (Call::Read(0, 0, 14), Return::Sectors(0x00, 0x00)),
    (Call::Read(0, 0, 16), Return::Sectors(0x00, 0x00)),
    (Call::Read(0, 0, 18), Return::Sectors(0x0A, 0x0A)),
    (Call::Read(0, 0, 20), Return::Sectors(0x0B, 0x0B)),
    (Call::Read(0, 0, 22), Return::Sectors(0x0C, 0x00)),
];

const OUT: [Row; 1] = [(Call::DiskOut(0), Return::Done)];

// Any one disk is lost at any of its calls. All blocks are written again in the end.
#[test]
fn discards_outlive_any_disk(rt: HostRuntime) {
    for cache in [0, 2] {
        for weak in 0..4u8 {
            let shape = Shape {
                cache,
                weak,
                ..THREE_GROUPS
            };
            let parts: [&[Row]; 6] = [
                &MAKE,
                &WRITES,
                &DISCARDS,
                &LEFT,
                &WRITES_AGAIN,
                &READS_AGAIN,
            ];
            calls_in(&rt, shape, &parts, 4);
        }
    }
}

// Whether a fuse of some length lets the second disk go in a discard.
fn is_lost_in_a_discard<R: Abort + AllocGlobal>(rt: &R, shape: Shape) -> bool {
    let mut in_a_discard = false;
    for calls in 0..MOST_CALLS {
        let shape = Shape { calls, ..shape };
        let parts: [&[Row]; 5] = [&MAKE, &WRITES, &OUT, &DISCARDS, &LEFT];
        match broken_by(rt, shape, ending(rt, shape, &parts)) {
            Some(call) => in_a_discard |= matches!(call, Call::Unmap(..)),
            None => return in_a_discard,
        }
    }
    is_ever_lost(rt, shape);
    in_a_discard
}

// Halves of blocks are read and written, so that a second disk may be lost there.
#[test]
fn a_second_loss_is_reported_by_a_discard(rt: HostRuntime) {
    for cache in [0, 2] {
        let shape = Shape {
            cache,
            weak: 1,
            ..THREE_GROUPS
        };
        is_told(&rt, shape, is_lost_in_a_discard(&rt, shape));
    }
}

fn is_told(rt: &impl Abort, shape: Shape, in_a_discard: bool) {
    assert!(rt; in_a_discard, "{shape:?}");
}

/// The drawn events of a run.
const EVENTS: u32 = 20_000;

// Draws events, and reads all blocks once the weak disk is lost.
fn live<R: Abort + AllocGlobal>(rt: &R, shape: Shape, run: &mut Run, array: &mut Array<FuseDisk>) {
    for _ in 0..EVENTS {
        ask_next(rt, run, array);
    }
    is_in(rt, shape, array.health(), Health::Out(shape.weak));
    read_all(rt, run, array);
}

fn run_on<R: Abort + AllocGlobal>(rt: &R, shape: Shape, array: &mut Array<FuseDisk>) {
    let mut run = Run::new(rt.alloc(), shape.calls, ROOM);
    run.has_discards = true;
    live(rt, shape, &mut run, array);
    drop(run);
}

// Runs in which a disk is lost after this number of calls, with a cache and without.
fn outlive<R: Abort + AllocGlobal>(rt: &R, calls: u64) {
    for cache in [0, 2] {
        let shape = Shape {
            weak: 1,
            calls,
            ..sixteen_extents(cache)
        };
        let mut array = shape.array(rt.alloc()).expect(rt, "an array");
        run_on(rt, shape, &mut array);
        drop(array);
    }
}

#[test]
fn drawn_discards_outlive_a_disk_of_one_call(rt: HostRuntime) {
    outlive(&rt, 1);
}

#[test]
fn drawn_discards_outlive_a_disk_of_a_hundred_calls(rt: HostRuntime) {
    outlive(&rt, 100);
}

#[test]
fn drawn_discards_outlive_a_disk_of_a_thousand_calls(rt: HostRuntime) {
    outlive(&rt, 1_000);
}
