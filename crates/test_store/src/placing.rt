// Where blocks go, with homes and contents worked by hand.
use crate::calls::{Answer, Call, Step, play};
use crate::fixtures::{FOUR_GROUPS, Shape, THREE_GROUPS, WHOLE};
use Answer::{
    At, Broken, Byte, Count, Done, Idle, Is, Missing, Now, Nowhere, Opened, Refused, Stands, Used,
};
use Call::{
    Get, GetEach, Group, Grow, Home, Make, MakeAll, Mark, Move, Open, Place, Put, PutEach, Remove,
    Room, Row, TakeOut,
};
use ar_book::{Class, Level};
use ar_disks::Geometry;
use ar_extents::{DiskRefusal, Health};

/// A block at the parity level is written: it goes to the mirrored level, and the group that it leaves is free.
pub const PROMOTED: [Step; 15] = [
    (Make(4), Is(true)),
    (Put(0, 0xAA), Done),
    (Home(0), At(0, 0)),
    (Open(Class::Parity), Opened(1)),
    (Move(0, Class::Parity), At(1, 0)),
    (Group(0), Used(Class::Free, 0)),
    (Call::Level(0), Stands(Level::Parity)),
    (Get(0), Byte(0xAA)),
    (Put(0, 0xBB), Done),
    (Home(0), At(0, 0)),
    (Call::Level(0), Stands(Level::Mirrored)),
    (Group(0), Used(Class::Mirrored, 1)),
    (Group(1), Used(Class::Free, 0)),
    (Call::Level(1), Stands(Level::Unplaced)),
    (Get(0), Byte(0xBB)),
];

/// A unit of twelve blocks takes all the room of three groups. Its blocks are written in order, so that two squeezes
/// leave them all at the parity level and one group free.
pub const FILLED: [Step; 2] = [(Make(24), Is(true)), (PutEach(1), Done)];

/// Six blocks in each of two groups with parity.
pub const SQUEEZED: [Step; 15] = [
    (Group(0), Used(Class::Parity, 6)),
    (Group(1), Used(Class::Free, 0)),
    (Group(2), Used(Class::Parity, 6)),
    (Home(0), At(2, 0)),
    (Home(1), At(2, 1)),
    (Home(2), At(2, 2)),
    (Home(3), At(2, 3)),
    (Home(8), At(2, 4)),
    (Home(9), At(2, 5)),
    (Home(4), At(0, 0)),
    (Home(5), At(0, 1)),
    (Home(6), At(0, 2)),
    (Home(7), At(0, 3)),
    (Home(10), At(0, 4)),
    (Home(11), At(0, 5)),
];

// A block of data, and the four parities: of each row the sum of its three bytes.
const SUMS: [Step; 5] = [
    (Row(2, 2, 1), Byte(0x09)),
    (Row(0, 2, 0), Byte(0x00)),
    (Row(1, 2, 1), Byte(0x07)),
    (Row(0, 0, 0), Byte(0x04)),
    (Row(1, 0, 1), Byte(0x0F)),
];

#[test]
fn a_full_store_is_squeezed(rt: HostRuntime) {
    play(&rt, rt.alloc(), THREE_GROUPS, &[&FILLED, &SQUEEZED, &SUMS]);
}

const WRITTEN_AGAIN: [Step; 1] = [(PutEach(0x40), Done)];

const READ_AND_REMOVED: [Step; 6] = [
    (GetEach(0x40), Done),
    (Remove, Is(true)),
    (Group(0), Used(Class::Free, 0)),
    (Group(1), Used(Class::Free, 0)),
    (Group(2), Used(Class::Free, 0)),
    (Room, Count(12)),
];

#[test]
fn a_full_store_is_written_in_place_and_given_back(rt: HostRuntime) {
    play(
        &rt,
        rt.alloc(),
        THREE_GROUPS,
        &[
            &FILLED,
            &SQUEEZED,
            &WRITTEN_AGAIN,
            &SQUEEZED,
            &READ_AND_REMOVED,
        ],
    );
}

#[test]
fn a_block_at_the_parity_level_is_promoted(rt: HostRuntime) {
    play(&rt, rt.alloc(), FOUR_GROUPS, &[&PROMOTED]);
}

// All the blocks that there is room for are written twice, and each is read.
const FILLED_TWICE: [Step; 6] = [
    (MakeAll, Is(true)),
    (Room, Count(0)),
    (PutEach(0), Done),
    (PutEach(0x55), Done),
    (GetEach(0x55), Done),
    (Call::Health, Now(Health::Whole)),
];

#[test]
fn every_block_that_there_is_room_for_is_written(rt: HostRuntime) {
    for (disks, geometry, extents) in [
        (4, Geometry::SMALL, 4),
        (4, Geometry::PAPER, 2),
        (5, Geometry::SMALL, 4),
        (5, Geometry::PAPER, 2),
    ] {
        let shape = Shape {
            geometry,
            disks,
            extents,
            ..THREE_GROUPS
        };
        play(&rt, rt.alloc(), shape, &[&FILLED_TWICE]);
    }
}

const NO_CALL: [Step; 3] = [
    (Make(4), Is(true)),
    (Get(0), Byte(0)),
    (Call::Health, Now(Health::Whole)),
];

// No disk passes any call.
#[test]
fn a_block_without_a_home_is_read_as_zeros_from_no_disk(rt: HostRuntime) {
    let shape = Shape {
        fuses: [0; 5],
        ..THREE_GROUPS
    };
    play(&rt, rt.alloc(), shape, &[&NO_CALL]);
}

const PLACED: [Step; 6] = [
    (Make(4), Is(true)),
    (Place(1), Done),
    (Home(1), At(0, 0)),
    (Call::Level(0), Stands(Level::Unplaced)),
    (Get(1), Byte(0)),
    (Row(1, 0, 0), Byte(0)),
];

#[test]
fn a_placed_block_reads_as_before(rt: HostRuntime) {
    play(&rt, rt.alloc(), THREE_GROUPS, &[&PLACED]);
}

const OPENED: [Step; 6] = [
    (Open(Class::Parity), Opened(0)),
    (Row(3, 0, 1), Byte(0)),
    (Open(Class::Mirrored), Opened(1)),
    (Open(Class::Mirrored), Idle),
    (Open(Class::Parity), Idle),
    (Group(2), Used(Class::Free, 0)),
];

#[test]
fn groups_are_opened_while_two_are_free(rt: HostRuntime) {
    play(&rt, rt.alloc(), THREE_GROUPS, &[&OPENED]);
}

// One disk is taken out, and then another: the first leaves every block, the second breaks the store. Nothing is read
// from then on, not even block 1, which has no home.
const TAKEN_OUT: [Step; 19] = [
    (Make(4), Is(true)),
    (Put(0, 0xAA), Done),
    (TakeOut(4), Refused(DiskRefusal::NoSuchDisk)),
    (Row(0, 0, 0), Byte(0xAA)),
    (Row(0, 0, 1), Byte(0xEE)),
    (TakeOut(0), Done),
    (Call::Health, Now(Health::Out(0))),
    (TakeOut(0), Done),
    (Call::Health, Now(Health::Out(0))),
    (Row(0, 0, 0), Missing),
    (Row(1, 0, 0), Byte(0xAA)),
    (Get(0), Byte(0xAA)),
    (TakeOut(2), Done),
    (Call::Health, Now(Health::Broken)),
    (Row(1, 0, 0), Broken),
    (Get(0), Broken),
    (Get(1), Broken),
    (TakeOut(3), Done),
    (Call::Health, Now(Health::Broken)),
];

#[test]
fn disks_are_taken_out(rt: HostRuntime) {
    play(&rt, rt.alloc(), THREE_GROUPS, &[&TAKEN_OUT]);
}

// A unit of two blocks grows within the room, to three and to all that there are.
const GROWN: [Step; 16] = [
    (Make(3), Is(true)),
    (Room, Count(16)),
    (PutEach(0xAA), Done),
    (Grow(3), Is(false)),
    (Mark, Is(false)),
    (Grow(37), Is(false)),
    (Grow(6), Is(true)),
    (Room, Count(15)),
    (Mark, Is(true)),
    (Mark, Is(false)),
    (Get(0), Byte(0xAA)),
    (Get(1), Byte(0xAB)),
    (Call::Level(2), Stands(Level::Unplaced)),
    (Grow(36), Is(true)),
    (Room, Count(0)),
    (PutEach(0xBB), Done),
];

#[test]
fn a_unit_grows(rt: HostRuntime) {
    play(&rt, rt.alloc(), FOUR_GROUPS, &[&GROWN]);
}

// Of 2,048 groups, each of six blocks with parity, all but one can be used: 12,282 blocks.
const MANY_SECTORS: [Step; 8] = [
    (Room, Count(12_282)),
    (Make(4), Is(true)),
    (Grow(24_000), Is(true)),
    (Room, Count(282)),
    (Put(11_999, 0xAA), Done),
    (Get(11_999), Byte(0xAA)),
    (Get(11_998), Byte(0)),
    (Home(12_000), Nowhere),
];

#[test]
fn a_unit_is_made_and_grown_by_many_sectors(rt: HostRuntime) {
    let shape = Shape {
        disks: 8,
        extents: 1_024,
        ..THREE_GROUPS
    };
    play(&rt, rt.alloc(), shape, &[&MANY_SECTORS]);
}

const LOST_IN_A_WRITE: [Step; 7] = [
    (Make(4), Is(true)),
    (Put(0, 0xAA), Broken),
    (Call::Health, Now(Health::Broken)),
    (Put(0, 0xAA), Broken),
    (Get(1), Broken),
    (Place(1), Broken),
    (Home(1), Nowhere),
];

// Both members of the first pair fault in the first write. No block is placed then, and one without a home isn't read
// as zeros.
#[test]
fn a_second_loss_in_a_write_breaks_the_store(rt: HostRuntime) {
    let shape = Shape {
        fuses: [0, 0, 100, 100, WHOLE],
        ..THREE_GROUPS
    };
    play(&rt, rt.alloc(), shape, &[&LOST_IN_A_WRITE]);
}

const LOST_IN_AN_OPENING: [Step; 2] = [
    (Open(Class::Parity), Broken),
    (Call::Health, Now(Health::Broken)),
];

// Two disks fault while zeros are written to a group that is opened for parity.
#[test]
fn a_second_loss_in_an_opening_breaks_the_store(rt: HostRuntime) {
    let shape = Shape {
        fuses: [100, 1, 1, 100, WHOLE],
        ..THREE_GROUPS
    };
    play(&rt, rt.alloc(), shape, &[&LOST_IN_AN_OPENING]);
}
