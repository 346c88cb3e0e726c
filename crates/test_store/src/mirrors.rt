// Rebuilt mirrored blocks, worked by hand. The unit's first block stands in the first row of extent 0 of disks 0 and 1.
use crate::calls::{Answer, Call, Step, play};
use crate::fixtures::{FOUR_GROUPS, WHOLE};
use Answer::{Broken, Byte, Done, Finished, GivenUp, Idle, Is, Missing, Now, Rebuilt};
use Call::{Get, Make, Put, Rebuild, Replace, Row, TakeOut};
use ar_extents::Health;
use std::alloc::Global;
use std::process::Abort;

/// A block is written while disk 0 is sound, and once it is out.
pub const WRITTEN_WITHOUT_A_DISK: [Step; 5] = [
    (Make(4), Is(true)),
    (Put(0, 0xAA), Done),
    (TakeOut(0), Done),
    (Get(0), Byte(0xAA)),
    (Put(0, 0xBB), Done),
];

/// Four steps rebuild a disk of four extents. Afterwards the block is read without the other disk that has it.
const REBUILT: [Step; 9] = [
    (Replace(0, 4, WHOLE), Done),
    (Rebuild, Rebuilt(0, 3)),
    (Rebuild, Rebuilt(1, 2)),
    (Rebuild, Rebuilt(2, 1)),
    (Rebuild, Finished),
    (Rebuild, Idle),
    (TakeOut(1), Done),
    (Rebuild, Idle),
    (Get(0), Byte(0xBB)),
];

// A write goes past an extent that isn't done, and to one that is. Once the other disk goes, nothing is left.
const WRITTEN_BETWEEN: [Step; 14] = [
    (Replace(0, 4, WHOLE), Done),
    (Call::Health, Now(Health::Rebuilding(0, 0))),
    (Row(0, 0, 0), Missing),
    (Put(0, 0xCC), Done),
    (Rebuild, Rebuilt(0, 3)),
    (Row(0, 0, 0), Byte(0xCC)),
    (Put(0, 0xDD), Done),
    (Row(0, 0, 0), Byte(0xDD)),
    (Call::Health, Now(Health::Rebuilding(0, 1))),
    (Row(0, 1, 0), Missing),
    (TakeOut(1), Done),
    (Call::Health, Now(Health::Broken)),
    (Get(0), Broken),
    (Row(0, 0, 0), Broken),
];

// The new disk passes fewer calls than the two rows of its first extent take.
const GIVEN_UP_AT_ONCE: [Step; 3] = [
    (Rebuild, GivenUp),
    (Call::Health, Now(Health::Out(0))),
    (Rebuild, Idle),
];

// It passes just this many. The block is read from the other disk once it is gone.
const JUST_ENOUGH: [Step; 9] = [
    (Replace(0, 4, 2), Done),
    (Rebuild, Rebuilt(0, 3)),
    (Rebuild, Rebuilt(1, 2)),
    (Rebuild, Rebuilt(2, 1)),
    (Rebuild, Finished),
    (Call::Health, Now(Health::Whole)),
    (Get(0), Byte(0xBB)),
    (Call::Health, Now(Health::Out(0))),
    (Row(1, 0, 0), Byte(0xBB)),
];

#[test]
fn four_extents_are_rebuilt(rt: HostRuntime) {
    play(
        &rt,
        rt.alloc(),
        FOUR_GROUPS,
        &[&WRITTEN_WITHOUT_A_DISK, &REBUILT],
    );
}

#[test]
fn writes_between_steps_reach_what_is_done(rt: HostRuntime) {
    play(
        &rt,
        rt.alloc(),
        FOUR_GROUPS,
        &[&WRITTEN_WITHOUT_A_DISK, &WRITTEN_BETWEEN],
    );
}

#[test]
fn a_disk_that_passes_two_calls_is_rebuilt(rt: HostRuntime) {
    play(
        &rt,
        rt.alloc(),
        FOUR_GROUPS,
        &[&WRITTEN_WITHOUT_A_DISK, &JUST_ENOUGH],
    );
}

// The new disk is lost in its first extent, and a sound one rebuilt in its place.
fn is_given_up(rt: &impl Abort, alloc: Global, calls: u64) {
    play(
        rt,
        alloc,
        FOUR_GROUPS,
        &[
            &WRITTEN_WITHOUT_A_DISK,
            &[(Replace(0, 4, calls), Done)],
            &GIVEN_UP_AT_ONCE,
            &[(Get(0), Byte(0xBB))],
            &REBUILT,
        ],
    );
}

#[test]
fn a_disk_that_passes_no_call_is_given_up(rt: HostRuntime) {
    is_given_up(&rt, rt.alloc(), 0);
}

#[test]
fn a_disk_that_passes_one_call_is_given_up(rt: HostRuntime) {
    is_given_up(&rt, rt.alloc(), 1);
}
