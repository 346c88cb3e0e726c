// Runs that go on after the refusal of any one allocation. The gate refuses each in turn, by `tests/`; with ample
// memory they are the runs themselves.
use crate::calls::{is_met, step};
use crate::first_run::FIRST_RUN;
use crate::fuses::{MAKE, READS, THREE_GROUPS, WRITES};
use ar_core::{Array, Balance, DiskRefusal, EventOf, Rebuild, Refusal, UnitRefusal};
use ar_disks::FuseDisk;
use std::process::Abort;
use test_support::{Call, FOUR_GROUPS, Return, Row, Shape, Work, event};

// Whether memory for a call was refused. A removal and a replacement need none.
fn is_refused(call: Call, met: Return) -> bool {
    match (call, met) {
        (Call::Make(..), Return::Refused(Refusal::Unit(UnitRefusal::NoMemory)))
        | (Call::AddDisk, Return::Refused(Refusal::Disk(DiskRefusal::NoMemory)))
        | (_, Return::Busy | Return::Balance(Balance::NoMemory)) => true,
        _ => false,
    }
}

// Makes a call. Where the test itself finds no memory for it, it is made once more.
fn make_call<R: Abort + AllocGlobal>(
    rt: &R,
    shape: Shape,
    array: &mut Array<FuseDisk>,
    call: Call,
) -> Return {
    let event = match event(rt.alloc(), shape, call) {
        Ok(event) => event,
        Err(_) => event(rt.alloc(), shape, call).expect(rt, "memory"),
    };
    step(rt, array, event)
}

// Makes calls, each once more where memory for it was refused, and asserts what they return.
fn go_on<R: Abort + AllocGlobal>(
    rt: &R,
    shape: Shape,
    array: &mut Array<FuseDisk>,
    parts: &[&[Row]],
) {
    for rows in parts {
        for (number, (call, wanted)) in rows.iter().enumerate() {
            let mut met = make_call(rt, shape, array, *call);
            if is_refused(*call, met) {
                met = make_call(rt, shape, array, *call);
            }
            is_met(rt, shape, number, *call, met, *wanted);
        }
    }
}

// Plays tables on a new array, and says how much room it has then.
fn room_after<R: Abort + AllocGlobal>(rt: &R, shape: Shape, parts: &[&[Row]]) -> u32 {
    let mut array = shape.array(rt.alloc()).expect(rt, "an array");
    go_on(rt, shape, &mut array, parts);
    let room = array.free_room();
    drop(array);
    room
}

#[test]
fn the_first_run(rt: HostRuntime) {
    room_after(&rt, FOUR_GROUPS, &[&FIRST_RUN]);
}

/// A unit takes all the room, and has 24 sectors then.
const ALL_THE_ROOM: [Row; 2] = [
    (
        Call::Make(1, 0, 1),
        Return::Refused(Refusal::Unit(UnitRefusal::NoRoom(0))),
    ),
    (
        Call::Command(0, 0, [0x25, 0, 0, 0, 0, 0, 0, 0, 0, 0]),
        Return::Eight([0, 0, 0, 0x17, 0, 0, 2, 0]),
    ),
];

#[test]
fn a_unit_takes_all_the_room(rt: HostRuntime) {
    room_after(&rt, THREE_GROUPS, &[&MAKE, &ALL_THE_ROOM]);
}

// Twelve blocks, which two squeezes leave with parity.
#[test]
fn a_full_array(rt: HostRuntime) {
    room_after(&rt, THREE_GROUPS, &[&MAKE, &WRITES, &READS]);
}

/// A block is written.
const WRITTEN: [Row; 2] = [
    (Call::Make(0, 0, 4), Return::Done),
    (Call::Write(0, 0, 0, 2, 0xAA), Return::Good),
];

const READ: [Row; 1] = [(Call::Read(0, 0, 0), Return::Sectors(0xAA, 0xAA))];

/// A disk of it is replaced, and then the other is taken out.
const REPLACED: [Row; 10] = [
    (Call::DiskOut(0), Return::Done),
    (Call::Read(0, 0, 0), Return::Sectors(0xAA, 0xAA)),
    (Call::Write(0, 0, 0, 2, 0xBB), Return::Good),
    (Call::Replace(0), Return::Done),
    (
        Call::Work(Work::Rebuild),
        Return::Rebuild(Rebuild::Rebuilt(0, 3)),
    ),
    (
        Call::Work(Work::Rebuild),
        Return::Rebuild(Rebuild::Rebuilt(1, 2)),
    ),
    (
        Call::Work(Work::Rebuild),
        Return::Rebuild(Rebuild::Rebuilt(2, 1)),
    ),
    (
        Call::Work(Work::Rebuild),
        Return::Rebuild(Rebuild::Finished),
    ),
    (Call::Work(Work::Rebuild), Return::Rebuild(Rebuild::Idle)),
    (Call::DiskOut(1), Return::Done),
];

const REBUILT: [Row; 1] = [(Call::Read(0, 0, 0), Return::Sectors(0xBB, 0xBB))];

#[test]
fn a_disk_is_replaced_and_rebuilt(rt: HostRuntime) {
    room_after(&rt, FOUR_GROUPS, &[&WRITTEN, &REPLACED, &REBUILT]);
}

/// What is forced goes past the cache.
const FORCED: [Row; 2] = [
    (Call::Force(0, 0, 2, 2, 0xBB), Return::Good),
    (Call::Work(Work::Flush), Return::Idle),
];

// What is flushed isn't asserted: without memory for the cache a write goes to the disks at once.
fn wait_in_the_cache<R: Abort + AllocGlobal>(rt: &R, shape: Shape, array: &mut Array<FuseDisk>) {
    go_on(rt, shape, array, &[&WRITTEN, &READ]);
    step(rt, array, EventOf::Flush);
    go_on(rt, shape, array, &[&FORCED, &READ]);
}

#[test]
fn a_block_waits_in_the_cache(rt: HostRuntime) {
    let shape = Shape {
        cache: 4,
        ..FOUR_GROUPS
    };
    let mut array = shape.array(rt.alloc()).expect(&rt, "an array");
    wait_in_the_cache(&rt, shape, &mut array);
    drop(array);
}

/// Three groups' extents go to a new disk, and a fifth group is formed.
const BALANCED: [Row; 6] = [
    (Call::AddDisk, Return::Done),
    (
        Call::Work(Work::Balance),
        Return::Balance(Balance::Shifted {
            group: 0,
            from: 0,
            to: 4,
        }),
    ),
    (
        Call::Work(Work::Balance),
        Return::Balance(Balance::Shifted {
            group: 1,
            from: 1,
            to: 4,
        }),
    ),
    (
        Call::Work(Work::Balance),
        Return::Balance(Balance::Shifted {
            group: 2,
            from: 2,
            to: 4,
        }),
    ),
    (
        Call::Work(Work::Balance),
        Return::Balance(Balance::Formed(4)),
    ),
    (Call::Work(Work::Balance), Return::Balance(Balance::Idle)),
];

#[test]
fn an_added_disk_is_balanced(rt: HostRuntime) {
    has_room(&rt, room_after(&rt, FOUR_GROUPS, &[&BALANCED]));
}

fn has_room(rt: &impl Abort, room: u32) {
    assert!(rt; room == 24, "room for {room} blocks");
}
