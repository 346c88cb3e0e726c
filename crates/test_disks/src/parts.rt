// Sectors of slots of groups with parity on disks of one extent, with values worked by hand and with disks lost at
// every access.
ghost use Rattle.std.specs.Prelude.{◌<◌};

use crate::calls::{Answer, Call};
use crate::fixtures::WHOLE;
use crate::parity::{at, one_extent};
use crate::rig::{Case, Rig, run};
use crate::sectors::Part;
use ar_disks::Geometry;
use ar_extents::Health;
use std::alloc::Global;
use std::process::Abort;
use std::test::Fail;

// The three slots of row 0, with its parity on disk 0.
fn fills(rt: &impl Abort, rig: &mut Rig) -> Result<(), Fail> {
    let steps = [
        (Call::Open, Answer::Done),
        (Call::Write(0, 0x01), Answer::Done),
        (Call::Write(1, 0x02), Answer::Done),
        (Call::Write(2, 0x04), Answer::Done),
    ];
    rig.plays(rt, &steps)
}

#[test]
fn sectors_are_worked_by_hand(rt: HostRuntime) -> Result<(), Fail> {
    let steps = [
        (Call::Open, Answer::Done),
        (Call::Write(0, 0x01), Answer::Done),
        (Call::Write(1, 0x02), Answer::Done),
        (Call::Write(2, 0x04), Answer::Done),
        (Call::WritePart(Part::of(0, 0), 0x10), Answer::Done),
        (Call::WritePart(Part::of(1, 1), 0x20), Answer::Done),
        (Call::WritePart(Part::of(2, 1), 0x40), Answer::Done),
        (Call::GetSector(at(0), 0, 0), Answer::Byte(0x16)),
        (Call::GetSector(at(0), 0, 1), Answer::Byte(0x61)),
        (Call::GetSector(at(1), 0, 0), Answer::Byte(0x10)),
        (Call::GetSector(at(1), 0, 1), Answer::Byte(0x01)),
        (Call::GetSector(at(2), 0, 0), Answer::Byte(0x02)),
        (Call::GetSector(at(2), 0, 1), Answer::Byte(0x20)),
        (Call::GetSector(at(3), 0, 0), Answer::Byte(0x04)),
        (Call::GetSector(at(3), 0, 1), Answer::Byte(0x40)),
        (Call::Read(0), Answer::Mixed),
        (Call::Get(at(0), 1), Answer::Byte(0x00)),
    ];
    run(
        &rt,
        rt.alloc(),
        one_extent(Geometry::SMALL, 0, WHOLE),
        &steps,
    )
}

// Overwrites both sectors of slot 0 while a disk is lost. The parity's sectors and the slot's are these then.
fn writes_without(
    rt: &impl Abort,
    rig: &mut Rig,
    disk: u8,
    parity: [Answer; 2],
    own: [Answer; 2],
) -> Result<(), Fail> {
    fills(rt, rig)?;
    let steps = [
        (Call::Fail(disk), Answer::Now(Health::Out(disk))),
        (Call::WritePart(Part::of(0, 0), 0x10), Answer::Done),
        (Call::ReadPart(Part::of(0, 0)), Answer::Byte(0x10)),
        (Call::ReadPart(Part::of(0, 1)), Answer::Byte(0x01)),
        (Call::WritePart(Part::of(0, 1), 0x30), Answer::Done),
        (Call::ReadPart(Part::of(0, 0)), Answer::Byte(0x10)),
        (Call::ReadPart(Part::of(0, 1)), Answer::Byte(0x30)),
        (Call::Read(1), Answer::Byte(0x02)),
        (Call::Read(2), Answer::Byte(0x04)),
        (Call::GetSector(at(0), 0, 0), parity[0]),
        (Call::GetSector(at(0), 0, 1), parity[1]),
        (Call::GetSector(at(1), 0, 0), own[0]),
        (Call::GetSector(at(1), 0, 1), own[1]),
    ];
    rig.plays(rt, &steps)
}

// Does so in a new group.
fn is_written_without(
    rt: &impl Abort,
    alloc: Global,
    disk: u8,
    parity: [Answer; 2],
    own: [Answer; 2],
) -> Result<(), Fail> {
    let mut rig = Rig::new(alloc, one_extent(Geometry::SMALL, 0, WHOLE))?;
    writes_without(rt, &mut rig, disk, parity, own)
}

#[test]
fn sectors_are_written_without_a_disk(rt: HostRuntime) -> Result<(), Fail> {
    let lost = [Answer::Missing; 2];
    let parity = [Answer::Byte(0x16), Answer::Byte(0x36)];
    let own = [Answer::Byte(0x10), Answer::Byte(0x30)];
    for (disk, parity, own) in [
        (0, lost, own),
        (1, parity, lost),
        (2, parity, own),
        (3, parity, own),
    ] {
        is_written_without(&rt, rt.alloc(), disk, parity, own)?;
    }
    Ok(())
}

#[test]
fn the_last_sectors_of_a_paper_group(rt: HostRuntime) -> Result<(), Fail> {
    let last = Part {
        slot: 47,
        first: 126,
        count: 2,
    };
    let front = Part {
        slot: 45,
        first: 0,
        count: 127,
    };
    let steps = [
        (Call::Open, Answer::Done),
        (Call::WritePart(last, 0x0F), Answer::Done),
        (Call::WritePart(front, 0xF0), Answer::Done),
        (Call::GetSector(at(3), 15, 125), Answer::Byte(0xF0)),
        (Call::GetSector(at(3), 15, 126), Answer::Byte(0xFF)),
        (Call::GetSector(at(3), 15, 127), Answer::Byte(0x0F)),
        (Call::Fail(0), Answer::Now(Health::Out(0))),
        (Call::ReadPart(front), Answer::Byte(0xF0)),
        (Call::ReadPart(Part::of(45, 127)), Answer::Byte(0x00)),
        (Call::ReadPart(last), Answer::Byte(0x0F)),
        (Call::ReadPart(Part::of(47, 125)), Answer::Byte(0x00)),
    ];
    run(
        &rt,
        rt.alloc(),
        one_extent(Geometry::PAPER, 0, WHOLE),
        &steps,
    )
}

// Reads both sectors of every slot.
fn sectors_hold(rt: &impl Abort, rig: &mut Rig, bytes: [[u8; 2]; 6]) -> Result<(), Fail> {
    for (slot, [first, last]) in bytes.iter().enumerate() {
        let slot = slot as u16;
        rig.meets(rt, Call::ReadPart(Part::of(slot, 0)), Answer::Byte(*first))?;
        rig.meets(rt, Call::ReadPart(Part::of(slot, 1)), Answer::Byte(*last))?;
    }
    Ok(())
}

// Opens a group and overwrites sectors. After each of them, every sector is read.
fn writes_in_turn(rt: &impl Abort, rig: &mut Rig, health: Health) -> Result<(), Fail> {
    rig.meets(rt, Call::Open, Answer::Done)?;
    let mut bytes = [[0; 2]; 6];
    sectors_hold(rt, rig, bytes)?;
    for (slot, first, byte) in [(0, 0, 0x11), (4, 1, 0x22), (0, 1, 0x44), (2, 0, 0x88)] {
        rig.meets(
            rt,
            Call::WritePart(Part::of(slot, first), byte),
            Answer::Done,
        )?;
        bytes[slot as usize][first as usize] = byte;
        sectors_hold(rt, rig, bytes)?;
    }
    rig.meets(rt, Call::Health, Answer::Now(health))
}

// Does so with one disk lost after this many calls.
fn stays(rt: &impl Abort, alloc: Global, case: Case, health: Health) -> Result<(), Fail> {
    let mut rig = Rig::new(alloc, case)?;
    writes_in_turn(rt, &mut rig, health)
}

#[test]
fn a_disk_is_lost_at_every_access_of_sectors(rt: HostRuntime) -> Result<(), Fail> {
    // The opening writes each disk twice; the sectors are read five times; each write of one reads and writes its own
    // disk and that of the parity once.
    for (lost, accesses) in [
        (0, 2 + 5 * 2 + 2 * 3),
        (1, 2 + 5 * 2 + 2 * 3),
        (2, 2 + 5 * 4 + 2),
        (3, 2 + 5 * 4 + 2),
    ] {
        for passes in 0..accesses {
            let case = one_extent(Geometry::SMALL, lost, passes);
            stays(&rt, rt.alloc(), case, Health::Out(lost as u8))?;
        }
        let case = one_extent(Geometry::SMALL, lost, accesses);
        stays(&rt, rt.alloc(), case, Health::Whole)?;
    }
    Ok(())
}
