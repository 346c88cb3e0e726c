// Rebuilt groups with parity: twelve blocks fill two of three groups after two squeezes.
use crate::calls::{Answer, Call, Step, play};
use crate::fixtures::{THREE_GROUPS, WHOLE};
use Answer::{Byte, Done, Finished, Is, Missing, Rebuilt, Used};
use Call::{GetEach, Group, Make, PutEach, Rebuild, Replace, Row, TakeOut};
use ar_book::Class;

// Block i is i + 1 throughout.
const WRITTEN: [Step; 2] = [(Make(24), Is(true)), (PutEach(1), Done)];

// Two full groups with parity, and the sums and the block that stand in some of their rows.
const FULL: [Step; 8] = [
    (Group(0), Used(Class::Parity, 6)),
    (Group(1), Used(Class::Free, 0)),
    (Group(2), Used(Class::Parity, 6)),
    (Row(0, 2, 0), Byte(0)),
    (Row(1, 2, 1), Byte(7)),
    (Row(2, 2, 1), Byte(9)),
    (Row(0, 0, 0), Byte(4)),
    (Row(1, 0, 1), Byte(0x0F)),
];

// A disk is taken out, replaced, and rebuilt in three steps.
fn rebuilt(disk: u8) -> [Step; 6] {
    [
        (TakeOut(disk), Done),
        (GetEach(1), Done),
        (Replace(disk, 3, WHOLE), Done),
        (Rebuild, Rebuilt(0, 2)),
        (Rebuild, Rebuilt(1, 1)),
        (Rebuild, Finished),
    ]
}

const READ: [Step; 1] = [(GetEach(1), Done)];

// All blocks and sums stand as they did, so each time on the disks rebuilt before.
#[test]
fn each_disk_is_rebuilt_in_turn(rt: HostRuntime) {
    play(
        &rt,
        rt.alloc(),
        THREE_GROUPS,
        &[
            &WRITTEN,
            &FULL,
            &rebuilt(0),
            &FULL,
            &READ,
            &rebuilt(1),
            &FULL,
            &READ,
            &rebuilt(2),
            &FULL,
            &READ,
            &rebuilt(3),
            &FULL,
            &READ,
        ],
    );
}

// All blocks are written again before each step, and read after it.
const WRITTEN_BETWEEN: [Step; 17] = [
    (TakeOut(2), Done),
    (Replace(2, 3, WHOLE), Done),
    (Row(2, 0, 0), Missing),
    (Row(2, 2, 1), Missing),
    (PutEach(0x11), Done),
    (Rebuild, Rebuilt(0, 2)),
    (GetEach(0x11), Done),
    (Row(2, 2, 1), Missing),
    (PutEach(0x21), Done),
    (Rebuild, Rebuilt(1, 1)),
    (GetEach(0x21), Done),
    (PutEach(0x31), Done),
    (Rebuild, Finished),
    (GetEach(0x31), Done),
    (Row(2, 2, 1), Byte(0x39)),
    (TakeOut(1), Done),
    (GetEach(0x31), Done),
];

#[test]
fn blocks_are_written_between_steps(rt: HostRuntime) {
    play(
        &rt,
        rt.alloc(),
        THREE_GROUPS,
        &[&WRITTEN, &FULL, &WRITTEN_BETWEEN],
    );
}
