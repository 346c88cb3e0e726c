// Groups with parity on disks of one extent, with values worked by hand and with disks lost at every access.
ghost use Rattle.std.specs.Prelude.{◌<◌};

use crate::calls::{Answer, Call, Step};
use crate::fixtures::WHOLE;
use crate::rig::{Case, Group, Lies, Rig, run};
use ar_disks::{Geometry, Place};
use ar_extents::Health;
use std::alloc::Global;
use std::process::Abort;
use std::test::Fail;

/// Four disks of one extent, of which one passes this many calls.
pub fn one_extent(geometry: Geometry, lost: usize, calls: u64) -> Case
    requires { lost < 4 }
{
    let mut fuses = [WHOLE; 4];
    fuses[lost] = calls;
    Case {
        group: Group::Parity,
        geometry,
        extents: 1,
        fuses,
    }
}

/// The one extent of a disk.
pub fn at(disk: u8) -> Place {
    Place { disk, extent: 0 }
}

#[test]
fn a_row_is_worked_by_hand(rt: HostRuntime) -> Result<(), Fail> {
    let steps = [
        (Call::Open, Answer::Done),
        (Call::Write(0, 0x01), Answer::Done),
        (Call::Write(1, 0x02), Answer::Done),
        (Call::Write(2, 0x04), Answer::Done),
        (Call::Get(at(0), 0), Answer::Byte(0x07)),
        (Call::Fail(2), Answer::Now(Health::Out(2))),
        (Call::Read(1), Answer::Byte(0x02)),
        (Call::Write(1, 0x08), Answer::Done),
        (Call::Get(at(0), 0), Answer::Byte(0x0D)),
        (Call::Read(1), Answer::Byte(0x08)),
        (Call::Fail(0), Answer::Now(Health::Broken)),
        (Call::Read(1), Answer::Broken),
        (Call::Write(1, 0x01), Answer::Broken),
        (Call::Open, Answer::Broken),
    ];
    run(
        &rt,
        rt.alloc(),
        one_extent(Geometry::SMALL, 0, WHOLE),
        &steps,
    )
}

#[test]
fn a_group_is_opened_without_its_first_disk(rt: HostRuntime) -> Result<(), Fail> {
    let steps = [
        (Call::Fail(0), Answer::Now(Health::Out(0))),
        (Call::Open, Answer::Done),
        (Call::Write(0, 0x01), Answer::Done),
        (Call::Get(at(1), 0), Answer::Byte(0x01)),
        (Call::Get(at(1), 1), Answer::Byte(0x00)),
        (Call::Get(at(2), 0), Answer::Byte(0x00)),
        (Call::Get(at(2), 1), Answer::Byte(0x00)),
        (Call::Get(at(3), 0), Answer::Byte(0x00)),
        (Call::Get(at(3), 1), Answer::Byte(0x00)),
    ];
    run(&rt, rt.alloc(), one_extent(Geometry::SMALL, 0, 0), &steps)
}

#[test]
fn slots_of_small_groups(rt: HostRuntime) -> Result<(), Fail> {
    let table = [
        (0, [at(1), at(0)], 0),
        (1, [at(2), at(0)], 0),
        (2, [at(3), at(0)], 0),
        (3, [at(0), at(1)], 1),
        (4, [at(2), at(1)], 1),
        (5, [at(3), at(1)], 1),
    ];
    slots_lie(&rt, rt.alloc(), Geometry::SMALL, &table)
}

#[test]
fn slots_of_paper_groups(rt: HostRuntime) -> Result<(), Fail> {
    let table = [
        (0, [at(1), at(0)], 0),
        (3, [at(0), at(1)], 1),
        (6, [at(0), at(2)], 2),
        (7, [at(1), at(2)], 2),
        (8, [at(3), at(2)], 2),
        (9, [at(0), at(3)], 3),
        (10, [at(1), at(3)], 3),
        (11, [at(2), at(3)], 3),
        (45, [at(0), at(3)], 15),
        (47, [at(2), at(3)], 15),
    ];
    slots_lie(&rt, rt.alloc(), Geometry::PAPER, &table)
}

// Writes each slot of a table in a new group, and looks for its bytes and those of the parity in every row.
fn slots_lie(
    rt: &impl Abort,
    alloc: Global,
    geometry: Geometry,
    table: &[Lies],
) -> Result<(), Fail> {
    let mut rig = Rig::new(alloc, one_extent(geometry, 0, WHOLE))?;
    lie_in_zeros(rt, &mut rig, table)
}

fn lie_in_zeros(rt: &impl Abort, rig: &mut Rig, table: &[Lies]) -> Result<(), Fail> {
    rig.meets(rt, Call::Open, Answer::Done)?;
    rig.slots_lie(rt, table, 0x00)
}

// Reads every slot.
fn slots_hold(rt: &impl Abort, rig: &mut Rig, bytes: [u8; 6]) -> Result<(), Fail> {
    for (slot, byte) in bytes.iter().enumerate() {
        rig.meets(rt, Call::Read(slot as u16), Answer::Byte(*byte))?;
    }
    Ok(())
}

// Opens a group and puts blocks, some over others. After each put, every slot is read.
fn puts_in_turn(rt: &impl Abort, rig: &mut Rig, health: Health) -> Result<(), Fail> {
    rig.meets(rt, Call::Open, Answer::Done)?;
    slots_hold(rt, rig, [0; 6])?;
    for (slot, byte, bytes) in [
        (0, 0x11, [0x11, 0x00, 0x00, 0x00, 0x00, 0x00]),
        (4, 0x22, [0x11, 0x00, 0x00, 0x00, 0x22, 0x00]),
        (2, 0x44, [0x11, 0x00, 0x44, 0x00, 0x22, 0x00]),
        (0, 0x88, [0x88, 0x00, 0x44, 0x00, 0x22, 0x00]),
        (3, 0x33, [0x88, 0x00, 0x44, 0x33, 0x22, 0x00]),
        (5, 0x55, [0x88, 0x00, 0x44, 0x33, 0x22, 0x55]),
        (1, 0x66, [0x88, 0x66, 0x44, 0x33, 0x22, 0x55]),
        (4, 0x99, [0x88, 0x66, 0x44, 0x33, 0x99, 0x55]),
    ] {
        rig.meets(rt, Call::Write(slot, byte), Answer::Done)?;
        slots_hold(rt, rig, bytes)?;
    }
    rig.meets(rt, Call::Health, Answer::Now(health))
}

// Does so with one disk lost after this many calls.
fn stays(rt: &impl Abort, alloc: Global, case: Case, health: Health) -> Result<(), Fail> {
    let mut rig = Rig::new(alloc, case)?;
    puts_in_turn(rt, &mut rig, health)
}

#[test]
fn a_disk_is_lost_at_every_access(rt: HostRuntime) -> Result<(), Fail> {
    // The opening writes each disk twice; the slots are read nine times; a put reads and writes block and parity once.
    for (lost, accesses) in [
        (0, 2 + 9 + 2 * (1 + 4)),
        (1, 2 + 9 + 2 * (2 + 4)),
        (2, 2 + 9 * 2 + 2 * 3),
        (3, 2 + 9 * 2 + 2 * 2),
    ] {
        for passes in 0..accesses {
            let case = one_extent(Geometry::SMALL, lost, passes);
            stays(&rt, rt.alloc(), case, Health::Out(lost as u8))?;
        }
        let case = one_extent(Geometry::SMALL, lost, accesses);
        stays(&rt, rt.alloc(), case, Health::Whole)?;
    }
    Ok(())
}

// What the slots hold while a disk is rebuilt.
const HELD: [u8; 6] = [0x01, 0x02, 0x04, 0x08, 0x10, 0x20];

// Makes calls on a group of six blocks, once its failed disk 0 is replaced by one that faults after `new` calls, and
// then reads every slot.
fn rebuilds(rt: &impl Abort, alloc: Global, new: u64, steps: &[Step]) -> Result<(), Fail> {
    let mut rig = Rig::new(alloc, one_extent(Geometry::SMALL, 0, WHOLE))?;
    replaces(rt, &mut rig, new, steps)
}

fn replaces(rt: &impl Abort, rig: &mut Rig, new: u64, steps: &[Step]) -> Result<(), Fail> {
    let before = [
        (Call::Open, Answer::Done),
        (Call::Fail(0), Answer::Now(Health::Out(0))),
        (Call::Write(0, 0x01), Answer::Done),
        (Call::Write(1, 0x02), Answer::Done),
        (Call::Write(2, 0x04), Answer::Done),
        (Call::Write(3, 0x08), Answer::Done),
        (Call::Write(4, 0x10), Answer::Done),
        (Call::Write(5, 0x20), Answer::Done),
        (
            Call::Replace(0, 1, new),
            Answer::Now(Health::Rebuilding(0, 0)),
        ),
    ];
    rig.plays(rt, &before)?;
    rig.plays(rt, steps)?;
    slots_hold(rt, rig, HELD)
}

#[test]
fn a_rebuilt_disk_serves_for_another(rt: HostRuntime) -> Result<(), Fail> {
    let steps = [
        (Call::Rebuild(0, 0), Answer::Done),
        (Call::Rebuild(0, 1), Answer::Done),
        (Call::Read(0), Answer::Byte(0x01)),
        (Call::Read(1), Answer::Byte(0x02)),
        (Call::Read(2), Answer::Byte(0x04)),
        (Call::Read(3), Answer::Byte(0x08)),
        (Call::Read(4), Answer::Byte(0x10)),
        (Call::Read(5), Answer::Byte(0x20)),
        (Call::MarkDone, Answer::Now(Health::Whole)),
        (Call::Get(at(0), 0), Answer::Byte(0x07)),
        (Call::Get(at(0), 1), Answer::Byte(0x08)),
        (Call::Fail(3), Answer::Now(Health::Out(3))),
    ];
    rebuilds(&rt, rt.alloc(), WHOLE, &steps)
}

#[test]
fn a_rebuild_is_given_up_with_its_disk(rt: HostRuntime) -> Result<(), Fail> {
    let steps = [
        (Call::Rebuild(0, 0), Answer::Done),
        (Call::Rebuild(0, 1), Answer::GivenUp),
        (Call::Health, Answer::Now(Health::Out(0))),
    ];
    rebuilds(&rt, rt.alloc(), 1, &steps)
}

#[test]
fn a_rebuild_breaks_with_a_second_disk(rt: HostRuntime) -> Result<(), Fail> {
    let steps = [
        (Call::Open, Answer::Done),
        (Call::Fail(0), Answer::Now(Health::Out(0))),
        (
            Call::Replace(0, 1, WHOLE),
            Answer::Now(Health::Rebuilding(0, 0)),
        ),
        (Call::Rebuild(0, 0), Answer::Done),
        (Call::Rebuild(0, 1), Answer::Broken),
        (Call::Health, Answer::Now(Health::Broken)),
    ];
    // Disk 1 passes the two writes of the opening, and the read of row 0.
    run(&rt, rt.alloc(), one_extent(Geometry::SMALL, 1, 3), &steps)
}
