// Sectors of blocks that are overwritten in place, and which blocks are.
use crate::calls::{Answer, Call, Step, play};
use crate::fixtures::{THREE_GROUPS, WHOLE};
use crate::placing::{FILLED, SQUEEZED};
use Answer::{At, Byte, Done, Is, Mixed, Opened, Unfit};
use Call::{Get, Home, InPlace, Make, Move, Open, Put, PutSector, Replace, Row, TakeOut};
use ar_book::Class;

// Twelve blocks at the parity level leave no mirrored slot. Block 8 is in row 1 of disk 2, and its parity in that of
// disk 1.
const WRITTEN: [Step; 12] = [
    (InPlace(8), Is(true)),
    (InPlace(12), Is(false)),
    (PutSector(8, 1, 0x19), Done),
    (Get(8), Mixed),
    (PutSector(8, 0, 0x19), Done),
    (Home(8), At(2, 4)),
    (Get(8), Byte(0x19)),
    (Row(2, 2, 1), Byte(0x19)),
    (Row(1, 2, 1), Byte(0x17)),
    (Get(3), Byte(0x04)),
    (Get(9), Byte(0x0A)),
    (PutSector(12, 0, 0x01), Unfit),
];

// A sector is overwritten while its disk is missing.
const WITHOUT_ITS_DISK: [Step; 8] = [
    (TakeOut(2), Done),
    (InPlace(8), Is(true)),
    (PutSector(8, 0, 0x29), Done),
    (PutSector(8, 1, 0x29), Done),
    (Get(8), Byte(0x29)),
    (Row(1, 2, 1), Byte(0x27)),
    (Replace(2, 3, WHOLE), Done),
    (Get(8), Byte(0x29)),
];

#[test]
fn sectors_are_overwritten_with_parity(rt: HostRuntime) {
    play(
        &rt,
        rt.alloc(),
        THREE_GROUPS,
        &[&FILLED, &SQUEEZED, &WRITTEN, &WITHOUT_ITS_DISK],
    );
}

// A block at the parity level moves when it is written, while a mirrored slot is empty or two groups are free.
const MOVING: [Step; 13] = [
    (Make(8), Is(true)),
    (InPlace(0), Is(false)),
    (Put(0, 0xAA), Done),
    (InPlace(0), Is(true)),
    (PutSector(0, 1, 0xBB), Done),
    (Get(0), Mixed),
    (Open(Class::Parity), Opened(1)),
    (Put(1, 0xCC), Done),
    (Move(1, Class::Parity), At(1, 0)),
    (InPlace(1), Is(false)),
    (Move(0, Class::Parity), At(1, 1)),
    (InPlace(1), Is(false)),
    (PutSector(1, 0, 0xDD), Unfit),
];

#[test]
fn blocks_that_move_are_not_in_place(rt: HostRuntime) {
    play(&rt, rt.alloc(), THREE_GROUPS, &[&MOVING]);
}
