// Worked examples by way of hosts' seats. What they return is worked by hand; scripts return the same
// (`tests/scenarios`).
use crate::calls::After;
use crate::rig::{Play, plays};
use ar_core::{Balance, Rebuild, Refusal, UnitRefusal};
use ar_scsi::Sense;
use std::process::Abort;
use test_support::{Call, FOUR_GROUPS, Return, Row, Shape, Work};

/// Three groups, written through.
const THREE_GROUPS: Shape = Shape {
    extents: 3,
    ..FOUR_GROUPS
};

/// Four groups, behind a cache of four blocks.
const CACHED: Shape = Shape {
    cache: 4,
    ..FOUR_GROUPS
};

fn run<R: Abort + AllocGlobal>(rt: &R, shape: Shape, rows: &[Row], after: After) {
    plays(rt, shape, Play::Rows(rows, after));
}

// A group's extent goes from one disk to another.
fn shifted(group: u32, from: u8, to: u8) -> Return {
    Return::Balance(Balance::Shifted { group, from, to })
}

#[test]
fn a_first_run(rt: HostRuntime) {
    for shape in [FOUR_GROUPS, CACHED] {
        run(
            &rt,
            shape,
            &[
                (Call::Make(0, 0, 4), Return::Done),
                (Call::Write(0, 0, 1, 1, 0xAA), Return::Good),
                (Call::Read(0, 0, 0), Return::Sectors(0, 0xAA)),
                (Call::Remove(0, 0), Return::Done),
                (Call::Make(0, 0, 4), Return::Done),
                (Call::Read(0, 0, 0), Return::Sectors(0, 0)),
                (
                    Call::Ready(1, 0),
                    Return::Check(Sense::LOGICAL_UNIT_NOT_SUPPORTED),
                ),
            ],
            After {
                entries: 7,
                commands: [3, 1, 0, 0],
                free_groups: 4,
            },
        );
    }
}

#[test]
fn all_the_room_for_one_unit(rt: HostRuntime) {
    run(
        &rt,
        THREE_GROUPS,
        &[
            (Call::Make(0, 0, 24), Return::Done),
            (
                Call::Make(1, 0, 1),
                Return::Refused(Refusal::Unit(UnitRefusal::NoRoom(0))),
            ),
            (
                Call::Command(0, 0, [0x25, 0, 0, 0, 0, 0, 0, 0, 0, 0]),
                Return::Eight([0, 0, 0, 0x17, 0, 0, 2, 0]),
            ),
        ],
        After {
            entries: 2,
            commands: [1, 0, 0, 0],
            free_groups: 3,
        },
    );
}

#[test]
fn a_disk_is_lost_and_rebuilt(rt: HostRuntime) {
    run(
        &rt,
        FOUR_GROUPS,
        &[
            (Call::Make(0, 0, 4), Return::Done),
            (Call::Write(0, 0, 0, 2, 0xAA), Return::Good),
            (Call::DiskOut(0), Return::Done),
            (Call::Read(0, 0, 0), Return::Sectors(0xAA, 0xAA)),
            (Call::Write(0, 0, 0, 2, 0xBB), Return::Good),
            (Call::Replace(0), Return::Done),
            (
                Call::Work(Work::Rebuild),
                Return::Rebuild(Rebuild::Rebuilt(0, 3)),
            ),
            (
                Call::Work(Work::Rebuild),
                Return::Rebuild(Rebuild::Rebuilt(1, 2)),
            ),
            (
                Call::Work(Work::Rebuild),
                Return::Rebuild(Rebuild::Rebuilt(2, 1)),
            ),
            (
                Call::Work(Work::Rebuild),
                Return::Rebuild(Rebuild::Finished),
            ),
            (Call::Work(Work::Rebuild), Return::Rebuild(Rebuild::Idle)),
            (Call::DiskOut(1), Return::Done),
            (Call::Read(0, 0, 0), Return::Sectors(0xBB, 0xBB)),
        ],
        After {
            entries: 5,
            commands: [4, 0, 0, 0],
            free_groups: 3,
        },
    );
}

#[test]
fn other_commands_and_bad_blocks(rt: HostRuntime) {
    run(
        &rt,
        FOUR_GROUPS,
        &[
            (Call::Make(0, 0, 4), Return::Done),
            (
                Call::Command(0, 0, [0x12, 0, 0, 0, 0, 0, 0, 0, 0, 0]),
                Return::Good,
            ),
            (
                Call::Command(0, 0, [0x12, 0, 0, 0, 5, 0, 0, 0, 0, 0]),
                Return::Five([0, 0, 5, 2, 0x1F]),
            ),
            (
                Call::Command(0, 1, [0x12, 0, 0, 0, 1, 0, 0, 0, 0, 0]),
                Return::One(0x7F),
            ),
            (
                Call::Command(0, 0, [0x12, 1, 0, 0, 0x24, 0, 0, 0, 0, 0]),
                Return::Check(Sense::INVALID_FIELD_IN_CDB),
            ),
            (
                Call::Command(0, 1, [0x12, 1, 0, 0, 1, 0, 0, 0, 0, 0]),
                Return::One(0x7F),
            ),
            (
                Call::Command(0, 0, [3, 0, 0, 0, 0, 0, 0, 0, 0, 0]),
                Return::Check(Sense::INVALID_COMMAND_OPERATION_CODE),
            ),
            (
                Call::Command(0, 0, [0, 0, 0, 0, 0, 4, 0, 0, 0, 0]),
                Return::Check(Sense::INVALID_FIELD_IN_CDB),
            ),
        ],
        After {
            entries: 8,
            commands: [7, 0, 0, 0],
            free_groups: 4,
        },
    );
}

#[test]
fn a_disk_is_added_and_balanced(rt: HostRuntime) {
    run(
        &rt,
        FOUR_GROUPS,
        &[
            (Call::AddDisk, Return::Done),
            (Call::Work(Work::Balance), shifted(0, 0, 4)),
            (Call::Work(Work::Balance), shifted(1, 1, 4)),
            (Call::Work(Work::Balance), shifted(2, 2, 4)),
            (
                Call::Work(Work::Balance),
                Return::Balance(Balance::Formed(4)),
            ),
            (Call::Work(Work::Balance), Return::Balance(Balance::Idle)),
        ],
        After {
            entries: 0,
            commands: [0, 0, 0, 0],
            free_groups: 5,
        },
    );
}

#[test]
fn a_unit_grows_between_two_commands(rt: HostRuntime) {
    run(
        &rt,
        FOUR_GROUPS,
        &[
            (Call::Make(0, 0, 3), Return::Done),
            (Call::Write(0, 0, 2, 1, 0xAA), Return::Good),
            (
                Call::Grow(0, 0, 3),
                Return::Refused(Refusal::Unit(UnitRefusal::Size)),
            ),
            (
                Call::Grow(0, 1, 8),
                Return::Refused(Refusal::Unit(UnitRefusal::Absent)),
            ),
            (Call::Grow(0, 0, 6), Return::Done),
            (
                Call::Command(0, 0, [0x12, 0, 0, 0, 1, 0, 0, 0, 0, 0]),
                Return::One(0),
            ),
            (
                Call::Read(0, 0, 2),
                Return::Check(Sense::CAPACITY_DATA_HAS_CHANGED),
            ),
            (Call::Read(0, 0, 2), Return::Sectors(0xAA, 0)),
            (Call::Read(0, 0, 4), Return::Sectors(0, 0)),
        ],
        After {
            entries: 7,
            commands: [5, 0, 0, 0],
            free_groups: 3,
        },
    );
}

#[test]
fn a_broken_array_records_nothing_more(rt: HostRuntime) {
    run(
        &rt,
        FOUR_GROUPS,
        &[
            (Call::Make(0, 0, 4), Return::Done),
            (Call::Write(0, 0, 0, 2, 0xAA), Return::Good),
            (Call::Grow(0, 0, 6), Return::Done),
            (Call::DiskOut(0), Return::Done),
            (Call::DiskOut(1), Return::Done),
            (
                Call::Read(0, 0, 0),
                Return::Check(Sense::CAPACITY_DATA_HAS_CHANGED),
            ),
            (
                Call::Read(0, 0, 0),
                Return::Check(Sense::INTERNAL_TARGET_FAILURE),
            ),
            (
                Call::Ready(0, 0),
                Return::Check(Sense::INTERNAL_TARGET_FAILURE),
            ),
            (
                Call::Command(0, 0, [0x25, 0, 0, 0, 0, 0, 0, 0, 0, 0]),
                Return::Eight([0, 0, 0, 5, 0, 0, 2, 0]),
            ),
            (
                Call::Ready(1, 0),
                Return::Check(Sense::LOGICAL_UNIT_NOT_SUPPORTED),
            ),
            (Call::Make(0, 1, 1), Return::Refused(Refusal::Broken)),
            (Call::Remove(0, 0), Return::Refused(Refusal::Broken)),
        ],
        After {
            entries: 3,
            commands: [1, 0, 0, 0],
            free_groups: 3,
        },
    );
}

#[test]
fn four_hosts_and_work_in_between(rt: HostRuntime) {
    // The three blocks stand in one group, unless they wait in the cache.
    for (shape, free_groups) in [(FOUR_GROUPS, 3), (CACHED, 4)] {
        run(
            &rt,
            shape,
            &[
                (Call::Make(0, 0, 4), Return::Done),
                (Call::Make(3, 0, 4), Return::Done),
                (Call::Write(0, 0, 0, 2, 0xA0), Return::Good),
                (Call::Write(3, 0, 0, 2, 0xA3), Return::Good),
                (
                    Call::Ready(1, 0),
                    Return::Check(Sense::LOGICAL_UNIT_NOT_SUPPORTED),
                ),
                (Call::Make(2, 7, 2), Return::Done),
                (Call::Write(2, 7, 0, 1, 0xA2), Return::Good),
                (Call::AddDisk, Return::Done),
                (Call::Work(Work::Balance), shifted(0, 0, 4)),
                (Call::Read(3, 0, 0), Return::Sectors(0xA3, 0xA3)),
                (Call::Read(0, 0, 0), Return::Sectors(0xA0, 0xA0)),
                (Call::Read(2, 7, 0), Return::Sectors(0xA2, 0)),
                (Call::Read(0, 0, 2), Return::Sectors(0, 0)),
            ],
            After {
                entries: 11,
                commands: [3, 1, 2, 2],
                free_groups,
            },
        );
    }
}
