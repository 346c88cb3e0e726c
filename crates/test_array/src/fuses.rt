// Disks that are lost at any of their calls: one that no host ever notices, and two with which the data are lost.
use crate::calls::{Ending, is_in, play};
use ar_core::Health;
use ar_scsi::Sense;
use std::process::Abort;
use test_support::{Call, FOUR_GROUPS, Return, Row, Shape, Work};

/// More calls than any disk gets in a run.
pub const MOST_CALLS: u64 = 2_000;

/// Three groups.
pub const THREE_GROUPS: Shape = Shape {
    extents: 3,
    ..FOUR_GROUPS
};

/// A unit takes all the room of three groups.
pub const MAKE: [Row; 1] = [(Call::Make(0, 0, 24), Return::Done)];

/// Each of its blocks is written with a byte of its own.
pub const WRITES: [Row; 12] = [
    (Call::Write(0, 0, 0, 2, 0x01), Return::Good),
    (Call::Write(0, 0, 2, 2, 0x02), Return::Good),
    (Call::Write(0, 0, 4, 2, 0x03), Return::Good),
    (Call::Write(0, 0, 6, 2, 0x04), Return::Good),
    (Call::Write(0, 0, 8, 2, 0x05), Return::Good),
    (Call::Write(0, 0, 10, 2, 0x06), Return::Good),
    (Call::Write(0, 0, 12, 2, 0x07), Return::Good),
    (Call::Write(0, 0, 14, 2, 0x08), Return::Good),
    (Call::Write(0, 0, 16, 2, 0x09), Return::Good),
    (Call::Write(0, 0, 18, 2, 0x0A), Return::Good),
    (Call::Write(0, 0, 20, 2, 0x0B), Return::Good),
    (Call::Write(0, 0, 22, 2, 0x0C), Return::Good),
];

/// Each is read.
pub const READS: [Row; 12] = [
    (Call::Read(0, 0, 0), Return::Sectors(0x01, 0x01)),
    (Call::Read(0, 0, 2), Return::Sectors(0x02, 0x02)),
    (Call::Read(0, 0, 4), Return::Sectors(0x03, 0x03)),
    (Call::Read(0, 0, 6), Return::Sectors(0x04, 0x04)),
    (Call::Read(0, 0, 8), Return::Sectors(0x05, 0x05)),
    (Call::Read(0, 0, 10), Return::Sectors(0x06, 0x06)),
    (Call::Read(0, 0, 12), Return::Sectors(0x07, 0x07)),
    (Call::Read(0, 0, 14), Return::Sectors(0x08, 0x08)),
    (Call::Read(0, 0, 16), Return::Sectors(0x09, 0x09)),
    (Call::Read(0, 0, 18), Return::Sectors(0x0A, 0x0A)),
    (Call::Read(0, 0, 20), Return::Sectors(0x0B, 0x0B)),
    (Call::Read(0, 0, 22), Return::Sectors(0x0C, 0x0C)),
];

/// Each is written once more.
pub const WRITES_AGAIN: [Row; 12] = [
    (Call::Write(0, 0, 0, 2, 0x11), Return::Good),
    (Call::Write(0, 0, 2, 2, 0x12), Return::Good),
    (Call::Write(0, 0, 4, 2, 0x13), Return::Good),
    (Call::Write(0, 0, 6, 2, 0x14), Return::Good),
    (Call::Write(0, 0, 8, 2, 0x15), Return::Good),
    (Call::Write(0, 0, 10, 2, 0x16), Return::Good),
    (Call::Write(0, 0, 12, 2, 0x17), Return::Good),
    (Call::Write(0, 0, 14, 2, 0x18), Return::Good),
    (Call::Write(0, 0, 16, 2, 0x19), Return::Good),
    (Call::Write(0, 0, 18, 2, 0x1A), Return::Good),
    (Call::Write(0, 0, 20, 2, 0x1B), Return::Good),
    (Call::Write(0, 0, 22, 2, 0x1C), Return::Good),
];

/// Each is read then.
pub const READS_AGAIN: [Row; 12] = [
    (Call::Read(0, 0, 0), Return::Sectors(0x11, 0x11)),
    (Call::Read(0, 0, 2), Return::Sectors(0x12, 0x12)),
    (Call::Read(0, 0, 4), Return::Sectors(0x13, 0x13)),
    (Call::Read(0, 0, 6), Return::Sectors(0x14, 0x14)),
    (Call::Read(0, 0, 8), Return::Sectors(0x15, 0x15)),
    (Call::Read(0, 0, 10), Return::Sectors(0x16, 0x16)),
    (Call::Read(0, 0, 12), Return::Sectors(0x17, 0x17)),
    (Call::Read(0, 0, 14), Return::Sectors(0x18, 0x18)),
    (Call::Read(0, 0, 16), Return::Sectors(0x19, 0x19)),
    (Call::Read(0, 0, 18), Return::Sectors(0x1A, 0x1A)),
    (Call::Read(0, 0, 20), Return::Sectors(0x1B, 0x1B)),
    (Call::Read(0, 0, 22), Return::Sectors(0x1C, 0x1C)),
];

/// What needs no block: INQUIRY for five bytes, READ CAPACITY, a READ past the end; and TEST UNIT READY, which fails
/// after data loss.
const QUESTIONS: [Row; 4] = [
    (
        Call::Command(0, 0, [0x12, 0, 0, 0, 5, 0, 0, 0, 0, 0]),
        Return::Five([0, 0, 5, 2, 0x1F]),
    ),
    (
        Call::Command(0, 0, [0x25, 0, 0, 0, 0, 0, 0, 0, 0, 0]),
        Return::Eight([0, 0, 0, 23, 0, 0, 2, 0]),
    ),
    (
        Call::Command(0, 0, [0x28, 0, 0, 0, 0, 24, 0, 0, 1, 0]),
        Return::Check(Sense::LOGICAL_BLOCK_ADDRESS_OUT_OF_RANGE),
    ),
    (Call::Ready(0, 0), Return::Good),
];

const OUT: [Row; 1] = [(Call::DiskOut(0), Return::Done)];

/// A full array whose first disk is taken out once it is written. All blocks are written once more, and then read.
const REWRITTEN: [&[Row]; 7] = [
    &MAKE,
    &WRITES,
    &OUT,
    &QUESTIONS,
    &WRITES_AGAIN,
    &READS_AGAIN,
    &QUESTIONS,
];

// Two hosts have a unit each. One of them writes a block, which is on the disks before both units are read.
fn two_hosts(flushed: Return) -> [Row; 6] {
    [
        (Call::Make(0, 0, 4), Return::Done),
        (Call::Make(1, 0, 4), Return::Done),
        (Call::Write(1, 0, 0, 2, 0xAA), Return::Good),
        (Call::Work(Work::Flush), flushed),
        (Call::Read(0, 0, 0), Return::Sectors(0x00, 0x00)),
        (Call::Read(1, 0, 0), Return::Sectors(0xAA, 0xAA)),
    ]
}

/// Plays a table on a new array.
pub fn ending<R: Abort + AllocGlobal>(rt: &R, shape: Shape, parts: &[&[Row]]) -> Ending {
    let mut array = shape.array(rt.alloc()).expect(rt, "an array");
    let ending = play(rt, shape, &mut array, parts);
    drop(array);
    ending
}

/// How many calls the weak disk gets: with each shorter fuse it is lost, and nothing that the array returns shows it.
/// At least `least`.
pub fn calls_in<R: Abort + AllocGlobal>(rt: &R, shape: Shape, parts: &[&[Row]], least: u64) -> u64 {
    for calls in 0..MOST_CALLS {
        let shape = Shape { calls, ..shape };
        if is_whole(rt, shape, ending(rt, shape, parts)) {
            are_at_least(rt, shape, calls, least);
            return calls;
        }
    }
    is_ever_lost(rt, shape);
    MOST_CALLS
}

/// No fuse was long enough.
pub fn is_ever_lost(rt: &impl Abort, shape: Shape) {
    assert!(rt; false, "the disk is lost in each run: {shape:?}");
}

/// The disk was called so often.
pub fn are_at_least(rt: &impl Abort, shape: Shape, calls: u64, least: u64) {
    assert!(rt; calls >= least, "{calls} calls: {shape:?}");
}

// Whether no disk was lost. If one was it is the weak one, and the data are there.
fn is_whole(rt: &impl Abort, shape: Shape, ending: Ending) -> bool {
    assert!(rt; ending.lost_by.is_none(), "{shape:?}");
    if ending.health != Health::Whole {
        is_in(rt, shape, ending.health, Health::Out(shape.weak));
    }
    ending.health == Health::Whole
}

// Any one disk is lost at any of its calls. Two groups are in use, and both rows of each are written to every disk.
#[test]
fn a_full_array_outlives_any_disk(rt: HostRuntime) {
    for cache in [0, 2] {
        for weak in [2, 0, 1, 3] {
            let shape = Shape {
                cache,
                weak,
                ..THREE_GROUPS
            };
            calls_in(&rt, shape, &[&MAKE, &WRITES, &READS], 4);
        }
    }
}

// The block is written to the disk, and read from it.
#[test]
fn units_of_two_hosts_outlive_a_disk(rt: HostRuntime) {
    for (cache, flushed) in [(0, Return::Idle), (2, Return::Flushed(1, 0))] {
        let shape = Shape {
            cache,
            ..FOUR_GROUPS
        };
        are_two(&rt, shape, calls_in(&rt, shape, &[&two_hosts(flushed)], 2));
    }
}

fn are_two(rt: &impl Abort, shape: Shape, calls: u64) {
    assert!(rt; calls == 2, "{calls} calls: {shape:?}");
}

/// The calls by which the data were lost, in runs with fuses of each length.
#[derive(Clone, Copy, Debug)]
struct Breaks {
    by_taking_out: bool,
    by_write: bool,
    by_read: bool,
}

impl Breaks {
    fn add(&mut self, call: Call) {
        match call {
            Call::DiskOut(_) => self.by_taking_out = true,
            Call::Write(..) => self.by_write = true,
            Call::Read(..) => self.by_read = true,
            _ => {}
        }
    }
}

// The calls at which data loss came, where a second disk had a fuse: one for each fuse that is too short for the run.
fn breaks_in<R: Abort + AllocGlobal>(rt: &R, shape: Shape) -> Breaks {
    let mut breaks = Breaks {
        by_taking_out: false,
        by_write: false,
        by_read: false,
    };
    for calls in 0..MOST_CALLS {
        let shape = Shape { calls, ..shape };
        match broken_by(rt, shape, ending(rt, shape, &REWRITTEN)) {
            Some(call) => breaks.add(call),
            None => return breaks,
        }
    }
    is_ever_lost(rt, shape);
    breaks
}

/// The call by which the data were lost. Where they are not, only the disk that was taken out is out.
pub fn broken_by(rt: &impl Abort, shape: Shape, ending: Ending) -> Option<Call> {
    let wanted = match ending.lost_by {
        Some(_) => Health::Broken,
        None => Health::Out(0),
    };
    is_in(rt, shape, ending.health, wanted);
    ending.lost_by
}

// The second disk goes before the first one is taken out, in a write after that, and in a read.
#[test]
fn a_second_loss_is_reported(rt: HostRuntime) {
    for cache in [0, 2] {
        let shape = Shape {
            cache,
            weak: 1,
            ..THREE_GROUPS
        };
        are_all(&rt, shape, breaks_in(&rt, shape));
    }
}

fn are_all(rt: &impl Abort, shape: Shape, breaks: Breaks) {
    let are_all = breaks.by_taking_out && breaks.by_write && breaks.by_read;
    assert!(rt; are_all, "{breaks:?}: {shape:?}");
}
