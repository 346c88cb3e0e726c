// Cached blocks that go to the disks, all by one call, a unit's or one by one, mostly once a disk is lost.
use crate::calls::{make_call, play};
use crate::fuses::{MAKE, THREE_GROUPS, WRITES};
use ar_core::{Array, HomeOf, Refusal, Shown, UnitRefusal};
use ar_disks::{Block, Completion, FuseDisk};
use std::process::Abort;
use test_support::{Call, FOUR_GROUPS, Return, Shape, Work, is_filled, unit_of};

/// What is asked.
#[derive(Clone, Copy)]
enum Ask {
    Does(Call),
    FlushAll,
    /// What a row of an extent shows: disk, extent, row.
    Shows(u8, u16, u16),
    /// Where a block of the first unit stands.
    Home(u32),
}

/// What is returned.
#[derive(Clone, Copy, Debug, PartialEq, Eq)]
enum Answer {
    Returns(Return),
    /// This byte throughout.
    Byte(u8),
    Mixed,
    Missing,
    Outside,
    Lost,
    At(u32, u16),
    Unplaced,
}

type Step = (Ask, Answer);

fn done_or_broken(completion: Completion) -> Answer {
    Answer::Returns(match completion {
        Completion::Done => Return::Done,
        Completion::Broken => Return::Broken,
    })
}

fn bytes_of(bytes: &[u8]) -> Answer {
    match bytes.first() {
        Some(first) if is_filled(bytes) => Answer::Byte(*first),
        _ => Answer::Mixed,
    }
}

fn shown<R: Abort + AllocGlobal>(
    rt: &R,
    array: &mut Array<FuseDisk>,
    (disk, extent, row): (u8, u16, u16),
) -> Answer {
    let mut block = Block::new(rt.alloc(), array.geometry()).expect(rt, "memory");
    let answer = match array.block_at(disk, extent, row, &mut block) {
        Shown::Outside => Answer::Outside,
        Shown::Broken => Answer::Lost,
        Shown::Missing => Answer::Missing,
        Shown::Bytes => bytes_of(block.bytes()),
    };
    drop(block);
    answer
}

fn home_of(array: &Array<FuseDisk>, rb: u32) -> Answer {
    match array.home_of(unit_of(0, 0), rb) {
        HomeOf::At(slot) => Answer::At(slot.group, slot.slot),
        HomeOf::Unplaced => Answer::Unplaced,
        _ => Answer::Outside,
    }
}

fn go_on<R: Abort + AllocGlobal>(
    rt: &R,
    shape: Shape,
    array: &mut Array<FuseDisk>,
    parts: &[&[Step]],
) {
    for steps in parts {
        for (number, (ask, wanted)) in steps.iter().enumerate() {
            let met = match *ask {
                Ask::Does(call) => Answer::Returns(make_call(rt, shape, array, call)),
                Ask::FlushAll => done_or_broken(array.flush_all()),
                Ask::Shows(disk, extent, row) => shown(rt, array, (disk, extent, row)),
                Ask::Home(rb) => home_of(array, rb),
            };
            is_met(rt, number, met, *wanted);
        }
    }
}

fn is_met(rt: &impl Abort, number: usize, met: Answer, wanted: Answer) {
    assert!(rt; met == wanted, "row {number}: {met:?}, not {wanted:?}");
}

fn run<R: Abort + AllocGlobal>(rt: &R, shape: Shape, parts: &[&[Step]]) {
    let mut array = shape.array(rt.alloc()).expect(rt, "an array");
    go_on(rt, shape, &mut array, parts);
    drop(array);
}

const GOOD: Answer = Answer::Returns(Return::Good);

const DONE: Answer = Answer::Returns(Return::Done);

const BROKEN: Answer = Answer::Returns(Return::Broken);

/// Four blocks of a unit are written, one byte each, and a disk is taken out. They wait in the cache: none is placed,
/// and nothing is written.
const WAITING: [Step; 9] = [
    (Ask::Does(Call::Make(0, 0, 8)), DONE),
    (Ask::Does(Call::Write(0, 0, 0, 2, 0xA1)), GOOD),
    (Ask::Does(Call::Write(0, 0, 2, 2, 0xA2)), GOOD),
    (Ask::Does(Call::Write(0, 0, 4, 2, 0xA3)), GOOD),
    (Ask::Does(Call::Write(0, 0, 6, 2, 0xA4)), GOOD),
    (Ask::Does(Call::DiskOut(1)), DONE),
    (Ask::Home(0), Answer::Unplaced),
    (Ask::Shows(0, 0, 0), Answer::Byte(0xEE)),
    (Ask::Shows(1, 0, 0), Answer::Missing),
];

/// The block that was written longest ago is placed, and no other.
const FIRST: [Step; 3] = [
    (
        Ask::Does(Call::Work(Work::Flush)),
        Answer::Returns(Return::Flushed(0, 0)),
    ),
    (Ask::Home(0), Answer::At(0, 0)),
    (Ask::Home(1), Answer::Unplaced),
];

/// Each of the four stands on both disks of a pair, but on the one that is out. The next group is as it was.
const OTHERS: [Step; 14] = [
    (Ask::FlushAll, DONE),
    (Ask::Shows(0, 0, 0), Answer::Byte(0xA1)),
    (Ask::Shows(1, 0, 0), Answer::Missing),
    (Ask::Shows(0, 0, 1), Answer::Byte(0xA2)),
    (Ask::Shows(1, 0, 1), Answer::Missing),
    (Ask::Shows(2, 0, 0), Answer::Byte(0xA3)),
    (Ask::Shows(3, 0, 0), Answer::Byte(0xA3)),
    (Ask::Shows(2, 0, 1), Answer::Byte(0xA4)),
    (Ask::Shows(3, 0, 1), Answer::Byte(0xA4)),
    (Ask::Shows(0, 1, 0), Answer::Byte(0xEE)),
    (Ask::Shows(0, 0, 2), Answer::Outside),
    (Ask::Shows(0, 4, 0), Answer::Outside),
    (Ask::Shows(4, 0, 0), Answer::Outside),
    (
        Ask::Does(Call::Work(Work::Flush)),
        Answer::Returns(Return::Idle),
    ),
];

#[test]
fn mirrored_blocks_are_flushed_past_a_lost_disk(rt: HostRuntime) {
    let shape = Shape {
        cache: 4,
        ..FOUR_GROUPS
    };
    run(&rt, shape, &[&WAITING, &FIRST, &OTHERS]);
}

/// Block 8, the parity of its row, and blocks 3 and 9 beside it. Block 8 is written once more and its disk is taken
/// out: while it is cached, the parity is the old one. Flushed, it is in the parity alone, from which it is read.
const INTO_PARITY: [Step; 15] = [
    (Ask::FlushAll, DONE),
    (Ask::Shows(2, 2, 1), Answer::Byte(0x09)),
    (Ask::Shows(1, 2, 1), Answer::Byte(0x07)),
    (Ask::Shows(0, 2, 1), Answer::Byte(0x04)),
    (Ask::Shows(3, 2, 1), Answer::Byte(0x0A)),
    (Ask::Does(Call::Write(0, 0, 16, 2, 0xBB)), GOOD),
    (Ask::Does(Call::DiskOut(2)), DONE),
    (Ask::Shows(2, 2, 1), Answer::Missing),
    (Ask::Shows(1, 2, 1), Answer::Byte(0x07)),
    (Ask::FlushAll, DONE),
    (Ask::Shows(2, 2, 1), Answer::Missing),
    (Ask::Shows(1, 2, 1), Answer::Byte(0xB5)),
    (Ask::Shows(0, 2, 1), Answer::Byte(0x04)),
    (Ask::Shows(3, 2, 1), Answer::Byte(0x0A)),
    (
        Ask::Does(Call::Read(0, 0, 16)),
        Answer::Returns(Return::Sectors(0xBB, 0xBB)),
    ),
];

fn flush_into_parity<R: Abort + AllocGlobal>(rt: &R, shape: Shape, array: &mut Array<FuseDisk>) {
    play(rt, shape, array, &[&MAKE, &WRITES]);
    go_on(rt, shape, array, &[&INTO_PARITY]);
}

// A unit takes all the room of three groups.
#[test]
fn a_block_of_a_lost_disk_is_flushed_into_parity(rt: HostRuntime) {
    let shape = Shape {
        cache: 2,
        ..THREE_GROUPS
    };
    let mut array = shape.array(rt.alloc()).expect(&rt, "an array");
    flush_into_parity(&rt, shape, &mut array);
    drop(array);
}

/// Two disks are out: no block is flushed, neither alone nor with the others, and no row is shown.
const TWO_OUT: [Step; 6] = [
    (Ask::Does(Call::DiskOut(2)), DONE),
    (Ask::Does(Call::Work(Work::Flush)), BROKEN),
    (Ask::FlushAll, BROKEN),
    (Ask::Home(0), Answer::Unplaced),
    (Ask::Shows(0, 0, 0), Answer::Lost),
    (Ask::Shows(4, 0, 0), Answer::Outside),
];

#[test]
fn nothing_is_flushed_past_two_lost_disks(rt: HostRuntime) {
    let shape = Shape {
        cache: 4,
        ..FOUR_GROUPS
    };
    run(&rt, shape, &[&WAITING, &TWO_OUT]);
}

const ABSENT: Answer = Answer::Returns(Return::Refused(Refusal::Unit(UnitRefusal::Absent)));

/// Two blocks of a unit and one of another wait in the cache, the higher one written first.
const TWO_UNITS: [Step; 6] = [
    (Ask::Does(Call::Make(0, 0, 8)), DONE),
    (Ask::Does(Call::Make(1, 0, 8)), DONE),
    (Ask::Does(Call::Write(0, 0, 6, 2, 0xA4)), GOOD),
    (Ask::Does(Call::Write(1, 0, 0, 2, 0xB1)), GOOD),
    (Ask::Does(Call::Write(0, 0, 2, 2, 0xA2)), GOOD),
    (Ask::Does(Call::FlushPart(2, 0, 0)), ABSENT),
];

/// The first unit's blocks are placed in ascending order, on the pair of disks of the first mirrored slots. The other's
/// stays in the cache, and is the next to be destaged.
const ONE_UNIT: [Step; 13] = [
    (Ask::Does(Call::FlushPart(0, 0, 0)), DONE),
    (Ask::Home(0), Answer::Unplaced),
    (Ask::Home(1), Answer::At(0, 0)),
    (Ask::Home(3), Answer::At(0, 1)),
    (Ask::Shows(0, 0, 0), Answer::Byte(0xA2)),
    (Ask::Shows(1, 0, 0), Answer::Byte(0xA2)),
    (Ask::Shows(0, 0, 1), Answer::Byte(0xA4)),
    (Ask::Shows(1, 0, 1), Answer::Byte(0xA4)),
    (Ask::Shows(2, 0, 0), Answer::Byte(0xEE)),
    (Ask::Does(Call::FlushPart(0, 0, 0)), DONE),
    (Ask::Shows(2, 0, 0), Answer::Byte(0xEE)),
    (
        Ask::Does(Call::Work(Work::Flush)),
        Answer::Returns(Return::Flushed(1, 0)),
    ),
    (
        Ask::Does(Call::Work(Work::Flush)),
        Answer::Returns(Return::Idle),
    ),
];

/// With two disks out no unit is flushed, whether there is one or not.
const LOST_UNIT: [Step; 5] = [
    (Ask::Does(Call::DiskOut(1)), DONE),
    (Ask::Does(Call::FlushPart(1, 0, 0)), DONE),
    (Ask::Does(Call::DiskOut(2)), DONE),
    (Ask::Does(Call::FlushPart(0, 0, 0)), BROKEN),
    (Ask::Does(Call::FlushPart(2, 0, 0)), BROKEN),
];

#[test]
fn one_unit_is_flushed_and_no_other(rt: HostRuntime) {
    let shape = Shape {
        cache: 4,
        ..FOUR_GROUPS
    };
    run(&rt, shape, &[&TWO_UNITS, &ONE_UNIT, &LOST_UNIT]);
}

/// The last block of a unit's first part and the first of its second wait in the cache.
const TWO_PARTS: [Step; 8] = [
    (Ask::Does(Call::Make(0, 0, 132)), DONE),
    (Ask::Does(Call::Write(0, 0, 126, 4, 0xA1)), GOOD),
    (
        Ask::Does(Call::FlushPart(0, 0, 0)),
        Answer::Returns(Return::More(64)),
    ),
    (Ask::Home(63), Answer::At(0, 0)),
    (Ask::Home(64), Answer::Unplaced),
    (Ask::Does(Call::FlushPart(0, 0, 64)), DONE),
    (Ask::Home(64), Answer::At(0, 1)),
    (Ask::Does(Call::FlushPart(0, 0, 128)), DONE),
];

#[test]
fn a_unit_is_flushed_in_parts(rt: HostRuntime) {
    let shape = Shape {
        extents: 13,
        cache: 4,
        ..FOUR_GROUPS
    };
    run(&rt, shape, &[&TWO_PARTS]);
}
