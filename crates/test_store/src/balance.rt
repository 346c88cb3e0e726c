// Added disks and balancing, worked by hand: which groups are formed, and which extents move. A SMALL extent has two
// rows.
use crate::calls::{Answer, Call, Step, play};
use crate::fixtures::{FOUR_GROUPS, Shape, THREE_GROUPS};
use Answer::{
    Added, Broken, Byte, Count, Done, Formed, HandedBack, Idle, Is, Now, Shifted, Unfit, Used,
};
use Call::{Add, AddOf, Balance, Get, Group, Loose, Make, Put, PutEach, Room, Row, TakeOut};
use ar_book::Class;
use ar_extents::{DiskRefusal, Health};

/// Three of the four groups get an extent of the disk that is added, and a fifth is formed of the extents that are then
/// unassigned.
const EVENED_OUT: [Step; 14] = [
    (Room, Count(18)),
    (Balance, Idle),
    (Add, Added),
    (Loose(4), Count(4)),
    (Room, Count(18)),
    (Balance, Shifted(0, 0, 4)),
    (Balance, Shifted(1, 1, 4)),
    (Balance, Shifted(2, 2, 4)),
    (Loose(3), Count(0)),
    (Loose(4), Count(1)),
    (Balance, Formed(4)),
    (Balance, Idle),
    (Room, Count(24)),
    (Group(4), Used(Class::Free, 0)),
];

// The block's first copy moves to the new disk, and the second stays where it is. The old extent, now unassigned, keeps
// its rows, and rows of empty slots are copied too.
const MIRRORED_GROUP_SHIFTED: [Step; 12] = [
    (Make(4), Is(true)),
    (Put(0, 0xAA), Done),
    (Add, Added),
    (Balance, Shifted(0, 0, 4)),
    (Row(4, 0, 0), Byte(0xAA)),
    (Row(4, 0, 1), Byte(0xEE)),
    (Put(0, 0xBB), Done),
    (Row(4, 0, 0), Byte(0xBB)),
    (Row(1, 0, 0), Byte(0xBB)),
    (Row(0, 0, 0), Byte(0xAA)),
    (Loose(0), Count(1)),
    (Get(0), Byte(0xBB)),
];

const TWELVE_DISKS: [Step; 10] = [
    (Add, Added),
    (Add, Added),
    (Add, Added),
    (Add, Added),
    (Add, Added),
    (Add, Added),
    (Add, Added),
    (Add, Added),
    (Add, HandedBack(DiskRefusal::TooManyDisks, 4)),
    (Loose(12), Unfit),
];

// Of eight loose disks the first four form groups, until none is loose; then no group is left to move.
const EIGHT_DISKS: [Step; 10] = [
    (Add, Added),
    (Add, Added),
    (Add, Added),
    (Add, Added),
    (Balance, Formed(4)),
    (Balance, Formed(5)),
    (Balance, Formed(6)),
    (Balance, Formed(7)),
    (Balance, Idle),
    (Room, Count(42)),
];

const REFUSED: [Step; 9] = [
    (AddOf(3), HandedBack(DiskRefusal::WrongSize, 3)),
    (AddOf(5), HandedBack(DiskRefusal::WrongSize, 5)),
    (Loose(4), Unfit),
    (TakeOut(0), Done),
    (Add, Added),
    (Balance, Idle),
    (TakeOut(1), Done),
    (AddOf(3), HandedBack(DiskRefusal::Broken, 3)),
    (Balance, Broken),
];

// Two groups with parity and a free one: each of the first two gives an extent, and then no two disks differ by two.
const PARITY_GROUP_SHIFTED: [Step; 11] = [
    (Make(24), Is(true)),
    (PutEach(1), Done),
    (Add, Added),
    (Group(0), Used(Class::Parity, 6)),
    (Row(0, 0, 0), Byte(4)),
    (Balance, Shifted(0, 0, 4)),
    (Balance, Shifted(1, 1, 4)),
    (Balance, Idle),
    (Row(4, 0, 0), Byte(4)),
    (Row(4, 1, 0), Byte(0xEE)),
    (Get(4), Byte(5)),
];

// Five disks of four extents have five groups at once.
const FIVE_DISKS: [Step; 3] = [
    (Room, Count(24)),
    (Balance, Idle),
    (Call::Health, Now(Health::Whole)),
];

#[test]
fn an_added_disk_is_evened_out(rt: HostRuntime) {
    play(&rt, rt.alloc(), FOUR_GROUPS, &[&EVENED_OUT]);
}

#[test]
fn a_mirrored_group_is_shifted(rt: HostRuntime) {
    play(&rt, rt.alloc(), FOUR_GROUPS, &[&MIRRORED_GROUP_SHIFTED]);
}

#[test]
fn a_thirteenth_disk_is_refused(rt: HostRuntime) {
    play(&rt, rt.alloc(), FOUR_GROUPS, &[&TWELVE_DISKS]);
}

#[test]
fn four_added_disks_form_groups(rt: HostRuntime) {
    play(&rt, rt.alloc(), FOUR_GROUPS, &[&EIGHT_DISKS]);
}

#[test]
fn disks_are_refused_in_order(rt: HostRuntime) {
    play(&rt, rt.alloc(), FOUR_GROUPS, &[&REFUSED]);
}

#[test]
fn a_group_with_parity_is_shifted(rt: HostRuntime) {
    play(&rt, rt.alloc(), THREE_GROUPS, &[&PARITY_GROUP_SHIFTED]);
}

#[test]
fn five_disks_begin_even(rt: HostRuntime) {
    let five_disks = Shape {
        disks: 5,
        ..FOUR_GROUPS
    };
    play(&rt, rt.alloc(), five_disks, &[&FIVE_DISKS]);
}
