// A disk lost at each of its calls while blocks and extents are moved, and how many calls it gets.
use crate::calls::{Answer, Call, Step, counted_up, play};
use crate::fixtures::{FOUR_GROUPS, Shape, THREE_GROUPS, WHOLE};
use crate::moves::{DEMOTED_AND_CLEANED, DEMOTED_AND_PROMOTED};
use crate::placing::{FILLED, PROMOTED, SQUEEZED};
use Answer::{Added, At, Broken, Byte, Count, Done, GivenUp, Idle, Is, Nowhere, Tried, Used};
use Call::{Add, Balance, Get, GetEach, Group, Grow, Home, Loose, Make, Place, Put, PutEach, Try};
use ar_book::Class;
use ar_disks::Geometry;
use ar_extents::Health;
use std::alloc::Global;
use std::process::Abort;

// What is read afterwards.
const AS_WRITTEN: [Step; 1] = [(GetEach(1), Done)];

const FIRST_WRITTEN_AGAIN: [Step; 6] = [
    (Get(0), Byte(0xAA)),
    (Get(1), Byte(2)),
    (Get(2), Byte(3)),
    (Get(3), Byte(4)),
    (Get(4), Byte(5)),
    (Get(5), Byte(6)),
];

// A full mirrored group and three free ones, which are balanced with a disk that is added.
const MIRRORED: [Step; 8] = [
    (Make(8), Is(true)),
    (PutEach(1), Done),
    (Add, Added),
    (Try, Tried),
    (Try, Tried),
    (Try, Tried),
    (Try, Tried),
    (Try, Tried),
];

// Two full groups with parity and a free one.
const PARITY: [Step; 6] = [
    (Make(24), Is(true)),
    (PutEach(1), Done),
    (Add, Added),
    (Try, Tried),
    (Try, Tried),
    (Try, Tried),
];

// A block of the group that is to be shifted, while one of the two disks is lost.
const GIVEN_UP: [Step; 8] = [
    (Make(4), Is(true)),
    (Put(0, 1), Done),
    (Add, Added),
    (Balance, GivenUp),
    (Loose(0), Count(0)),
    (Loose(4), Count(4)),
    (Balance, Idle),
    (Get(0), Byte(1)),
];

// The disks where one of them passes `calls` calls.
fn fused(shape: Shape, lost: u8, calls: u64) -> Shape {
    let mut fuses = shape.fuses;
    fuses[usize::from(lost % 5)] = calls;
    Shape { fuses, ..shape }
}

fn is_health(rt: &impl Abort, met: Health, wanted: Health, calls: u64) {
    assert!(rt;
        met == wanted,
        "{met:?} in place of {wanted:?} after {calls} calls"
    );
}

// Each disk fails at each of its calls in turn; how many it gets is exact. Every call returns what it does on healthy
// disks.
fn are_lost_at_each_call(
    rt: &impl Abort,
    alloc: Global,
    shape: Shape,
    disks: &[(u8, u64)],
    parts: &[&[Step]],
) {
    for (lost, calls) in disks {
        for passed in 0..*calls {
            let health = play(rt, alloc, fused(shape, *lost, passed), parts);
            is_health(rt, health, Health::Out(*lost), passed);
        }
        let health = play(rt, alloc, fused(shape, *lost, *calls), parts);
        is_health(rt, health, Health::Whole, *calls);
    }
}

// Of a mirrored group's slots the first two stand on disks 0 and 1, the others on 2 and 3, and a block is read from the
// first of its two. Of a parity group's first row the parity is on disk 0 and the blocks on 1, 2, 3; of its second row
// it is on disk 1, and the blocks on 0, 2, 3. A write at the parity level reads and writes block and parity. The calls
// of the disks are then:
//
//     eight blocks are written mirrored            4   4   4   4
//     they are read to be copied                   4   0   4   0
//     four stripes are written whole               4   4   4   4
//     four blocks are written to the last two      0   8   4   4
//     twelve blocks are read                       2   2   4   4
#[test]
fn a_disk_is_lost_at_any_call_of_two_squeezes(rt: HostRuntime) {
    are_lost_at_each_call(
        &rt,
        rt.alloc(),
        THREE_GROUPS,
        &[(0, 14), (1, 18), (2, 20), (3, 16)],
        &[&FILLED, &SQUEEZED, &AS_WRITTEN],
    );
}

// A squeeze alone: a mirrored group is full and the other one free, so that one more block needs it. Small disks get
// these calls:
//
//     four blocks are written mirrored             2   2   2   2
//     they are read to be copied                   2   0   2   0
//     two stripes are written whole                2   2   2   2
const TWO_GROUPS: Shape = Shape {
    extents: 2,
    ..THREE_GROUPS
};

const TWO_LARGE_GROUPS: Shape = Shape {
    geometry: Geometry::PAPER,
    ..TWO_GROUPS
};

// Which calls of each small disk are in the squeeze.
const IN_SQUEEZE: [(u8, u64, u64); 4] = [(0, 2, 6), (1, 2, 4), (2, 2, 6), (3, 2, 4)];

// The slots of a mirrored group.
fn slots(shape: Shape) -> u16 {
    2 * shape.geometry.rows()
}

// The sectors of `blocks` blocks.
fn sectors(shape: Shape, blocks: u32) -> u32 {
    blocks.saturating_mul(shape.geometry.sectors())
}

fn full(shape: Shape) -> [Step; 3] {
    let blocks = u32::from(slots(shape));
    [
        (Make(sectors(shape, blocks)), Is(true)),
        (PutEach(1), Done),
        (Grow(sectors(shape, blocks + 1)), Is(true)),
    ]
}

// The block goes to the first hole after those that were moved. A block that is placed in the second reads as zeros.
fn squeezed(shape: Shape) -> [Step; 8] {
    let blocks = u32::from(slots(shape));
    [
        (Put(blocks, counted_up(1, blocks)), Done),
        (Group(0), Used(Class::Free, 0)),
        (Home(0), At(1, 0)),
        (Home(blocks), At(1, slots(shape))),
        (GetEach(1), Done),
        (Grow(sectors(shape, blocks + 2)), Is(true)),
        (Place(blocks + 1), Done),
        (Get(blocks + 1), Byte(0)),
    ]
}

// Each home is as before the put.
fn unmoved(shape: Shape) -> [Step; 6] {
    let blocks = u32::from(slots(shape));
    [
        (Put(blocks, 0xAA), Broken),
        (Group(0), Used(Class::Mirrored, slots(shape))),
        (Group(1), Used(Class::Free, 0)),
        (Home(0), At(0, 0)),
        (
            Home(blocks.saturating_sub(1)),
            At(0, slots(shape).saturating_sub(1)),
        ),
        (Home(blocks), Nowhere),
    ]
}

fn loses_one(rt: &impl Abort, alloc: Global, shape: Shape, lost: u8, passed: u64) {
    let shape = fused(shape, lost, passed);
    let health = play(rt, alloc, shape, &[&full(shape), &squeezed(shape)]);
    is_health(rt, health, Health::Out(lost), passed);
}

fn loses_two(rt: &impl Abort, alloc: Global, shape: Shape, first: (u8, u64), second: (u8, u64)) {
    let shape = fused(fused(shape, first.0, first.1), second.0, second.1);
    let health = play(rt, alloc, shape, &[&full(shape), &unmoved(shape)]);
    is_health(rt, health, Health::Broken, first.1);
}

// Of large groups the eleventh stripe is the last with blocks, and the first call of a disk in the squeeze its 17th.
#[test]
fn a_disk_is_lost_at_any_call_of_a_squeeze(rt: HostRuntime) {
    for (lost, first, end) in IN_SQUEEZE {
        for passed in first..end {
            loses_one(&rt, rt.alloc(), TWO_GROUPS, lost, passed);
        }
    }
    loses_one(&rt, rt.alloc(), TWO_LARGE_GROUPS, 0, 16);
    loses_one(&rt, rt.alloc(), TWO_LARGE_GROUPS, 3, 26);
}

// With one disk lost no other one gets fewer calls, so both are lost in the squeeze. Of large groups the second is lost
// in the last stripe.
#[test]
fn a_second_loss_in_a_squeeze_leaves_each_home(rt: HostRuntime) {
    for (lost, first, end) in IN_SQUEEZE {
        for passed in first..end {
            loses_two_small(&rt, rt.alloc(), (lost, passed));
        }
    }
    loses_two(&rt, rt.alloc(), TWO_LARGE_GROUPS, (0, 16), (3, 31));
}

// One disk is lost, and each higher one at each of its calls in the squeeze.
fn loses_two_small(rt: &impl Abort, alloc: Global, lost: (u8, u64)) {
    for (second, first, end) in IN_SQUEEZE {
        if second > lost.0 {
            for passed in first..end {
                loses_two(rt, alloc, TWO_GROUPS, lost, (second, passed));
            }
        }
    }
}

//     the block is written mirrored                1   1   0   0
//     a group is filled with zeros                 2   2   2   2
//     the block is read, and written with parity   3   2   0   0
//     it is read                                   0   1   0   0
//     it is written mirrored, and read             2   1   0   0
#[test]
fn a_disk_is_lost_at_any_call_of_a_promotion(rt: HostRuntime) {
    are_lost_at_each_call(
        &rt,
        rt.alloc(),
        FOUR_GROUPS,
        &[(0, 8), (1, 7), (2, 2), (3, 2)],
        &[&PROMOTED],
    );
}

//     six blocks are written mirrored              4   4   2   2
//     a group is filled with zeros                 2   2   2   2
//     a block is read, and written with parity     3   2   0   0
//     another, whose place is on disk 2            3   0   2   0
//     two blocks are moved on disks 2 and 3        0   0   4   2
//     six blocks are read                          2   1   3   0
#[test]
fn a_disk_is_lost_at_any_call_of_cleaning(rt: HostRuntime) {
    are_lost_at_each_call(
        &rt,
        rt.alloc(),
        FOUR_GROUPS,
        &[(0, 14), (1, 9), (2, 13), (3, 6)],
        &[&DEMOTED_AND_CLEANED, &AS_WRITTEN],
    );
}

//     six blocks are written mirrored              4   4   2   2
//     a group is filled with zeros                 2   2   2   2
//     a block is read, and written with parity     3   2   0   0
//     it is written mirrored                       1   1   0   0
//     six blocks are read                          4   0   2   0
#[test]
fn a_disk_is_lost_at_any_call_of_a_demotion(rt: HostRuntime) {
    are_lost_at_each_call(
        &rt,
        rt.alloc(),
        FOUR_GROUPS,
        &[(0, 14), (1, 9), (2, 6), (3, 4)],
        &[&DEMOTED_AND_PROMOTED, &FIRST_WRITTEN_AGAIN],
    );
}

// Every block is read afterwards as it was written.
//
//     four blocks are written mirrored             2   2   2   2
//     both rows of an extent are copied            2               2
//     three steps on free groups
//     four blocks are read                                 2       2
#[test]
fn a_disk_is_lost_at_any_call_of_a_shift(rt: HostRuntime) {
    are_lost_at_each_call(
        &rt,
        rt.alloc(),
        FOUR_GROUPS,
        &[(0, 4), (1, 2), (2, 4), (3, 2), (4, 4)],
        &[&MIRRORED, &AS_WRITTEN],
    );
}

// The same with parity, until the disk outlives the run.
fn is_lost_until_it_outlives(rt: &impl Abort, alloc: Global, lost: u8) {
    let parts: [&[Step]; 2] = [&PARITY, &AS_WRITTEN];
    let mut calls = 0;
    for passed in 0..200 {
        let health = play(rt, alloc, fused(THREE_GROUPS, lost, passed), &parts);
        if health == Health::Whole {
            break;
        }
        is_health(rt, health, Health::Out(lost), passed);
        calls = passed + 1;
    }
    let health = play(rt, alloc, fused(THREE_GROUPS, lost, calls), &parts);
    is_health(rt, health, Health::Whole, calls);
}

#[test]
fn a_disk_is_lost_at_any_call_of_a_shift_with_parity(rt: HostRuntime) {
    for lost in 0..5 {
        is_lost_until_it_outlives(&rt, rt.alloc(), lost);
    }
}

// The old extent's disk passes the first write and the read of a row, and the new one's the write of a row.
#[test]
fn a_shift_is_given_up_where_a_disk_faults(rt: HostRuntime) {
    for (lost, calls) in [(0, 2), (4, 1)] {
        let health = play(
            &rt,
            rt.alloc(),
            fused(FOUR_GROUPS, lost, calls),
            &[&GIVEN_UP],
        );
        is_health(&rt, health, Health::Out(lost), calls);
    }
}
