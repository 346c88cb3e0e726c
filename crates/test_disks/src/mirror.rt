// Where mirrored slots lie, and what is read and written while disks are lost, with values worked by hand.
use crate::calls::{Answer, Call, Step};
use crate::fixtures::WHOLE;
use crate::rig::{Case, Group, Lies, Rig, run};
use ar_disks::{Geometry, Place};
use ar_extents::Health;
use std::alloc::Global;
use std::process::Abort;
use std::test::Fail;

// Four disks of two small extents that pass this many calls each.
fn small(fuses: [u64; 4]) -> Case {
    Case {
        group: Group::Mirrored,
        geometry: Geometry::SMALL,
        extents: 2,
        fuses,
    }
}

#[test]
fn slots_of_small_groups(rt: HostRuntime) -> Result<(), Fail> {
    let upper = [Place { disk: 0, extent: 1 }, Place { disk: 1, extent: 0 }];
    let lower = [Place { disk: 2, extent: 1 }, Place { disk: 3, extent: 0 }];
    let table = [(0, upper, 0), (1, upper, 1), (2, lower, 0), (3, lower, 1)];
    slots_lie(&rt, rt.alloc(), small([WHOLE; 4]), &table)
}

#[test]
fn slots_of_paper_groups(rt: HostRuntime) -> Result<(), Fail> {
    let upper = [Place { disk: 0, extent: 0 }, Place { disk: 1, extent: 0 }];
    let lower = [Place { disk: 2, extent: 0 }, Place { disk: 3, extent: 0 }];
    let table = [
        (0, upper, 0),
        (1, upper, 1),
        (15, upper, 15),
        (16, lower, 0),
        (17, lower, 1),
        (31, lower, 15),
    ];
    let paper = Case {
        group: Group::Mirrored,
        geometry: Geometry::PAPER,
        extents: 1,
        fuses: [WHOLE; 4],
    };
    slots_lie(&rt, rt.alloc(), paper, &table)
}

// Writes each slot of a table on new disks, and looks for its bytes in every row of every extent.
fn slots_lie(rt: &impl Abort, alloc: Global, case: Case, table: &[Lies]) -> Result<(), Fail> {
    let mut rig = Rig::new(alloc, case)?;
    rig.slots_lie(rt, table, 0xEE)
}

#[test]
fn a_disk_is_lost_at_any_access(rt: HostRuntime) -> Result<(), Fail> {
    // In each round the first member of a pair is written twice and read twice, and the second is written twice.
    for (lost, accesses) in [(0, 12), (1, 6), (2, 12), (3, 6)] {
        for passes in 0..accesses {
            let mut fuses = [WHOLE; 4];
            fuses[lost] = passes;
            three_rounds(&rt, rt.alloc(), fuses, Health::Out(lost as u8))?;
        }
        let mut fuses = [WHOLE; 4];
        fuses[lost] = accesses;
        three_rounds(&rt, rt.alloc(), fuses, Health::Whole)?;
    }
    Ok(())
}

// Three rounds of writing all four slots and reading them again. Every call is done.
fn three_rounds(
    rt: &impl Abort,
    alloc: Global,
    fuses: [u64; 4],
    health: Health,
) -> Result<(), Fail> {
    let steps = [
        (Call::Write(0, 0x10), Answer::Done),
        (Call::Write(1, 0x20), Answer::Done),
        (Call::Write(2, 0x30), Answer::Done),
        (Call::Write(3, 0x40), Answer::Done),
        (Call::Read(0), Answer::Byte(0x10)),
        (Call::Read(1), Answer::Byte(0x20)),
        (Call::Read(2), Answer::Byte(0x30)),
        (Call::Read(3), Answer::Byte(0x40)),
        (Call::Write(0, 0x11), Answer::Done),
        (Call::Write(1, 0x21), Answer::Done),
        (Call::Write(2, 0x31), Answer::Done),
        (Call::Write(3, 0x41), Answer::Done),
        (Call::Read(0), Answer::Byte(0x11)),
        (Call::Read(1), Answer::Byte(0x21)),
        (Call::Read(2), Answer::Byte(0x31)),
        (Call::Read(3), Answer::Byte(0x41)),
        (Call::Write(0, 0x12), Answer::Done),
        (Call::Write(1, 0x22), Answer::Done),
        (Call::Write(2, 0x32), Answer::Done),
        (Call::Write(3, 0x42), Answer::Done),
        (Call::Read(0), Answer::Byte(0x12)),
        (Call::Read(1), Answer::Byte(0x22)),
        (Call::Read(2), Answer::Byte(0x32)),
        (Call::Read(3), Answer::Byte(0x42)),
        (Call::Health, Answer::Now(health)),
    ];
    run(rt, alloc, small(fuses), &steps)
}

#[test]
fn a_second_loss_breaks_the_set(rt: HostRuntime) -> Result<(), Fail> {
    for (slot, fuses) in [(0, [0, 0, WHOLE, WHOLE]), (2, [WHOLE, WHOLE, 0, 0])] {
        for (call, answer) in [
            (Call::Write(slot, 0xAA), Answer::Broken),
            (Call::Read(slot), Answer::Broken),
        ] {
            let steps = [(call, answer), (Call::Health, Answer::Now(Health::Broken))];
            run(&rt, rt.alloc(), small(fuses), &steps)?;
        }
    }
    Ok(())
}

#[test]
fn a_loss_in_the_other_pair_breaks_the_set(rt: HostRuntime) -> Result<(), Fail> {
    let steps = [
        (Call::Fail(0), Answer::Now(Health::Out(0))),
        (Call::Write(0, 0xAA), Answer::Done),
        (Call::Read(0), Answer::Byte(0xAA)),
        (Call::Read(2), Answer::Broken),
        (Call::Read(0), Answer::Broken),
        (Call::Write(0, 0xAA), Answer::Broken),
    ];
    run(&rt, rt.alloc(), small([WHOLE, WHOLE, 0, WHOLE]), &steps)
}

// Makes calls once slots 0 and 1 hold 10 and 11 and disk 1 is replaced. The new disk faults after `new` calls, disk 0
// after `first`.
fn rebuilds(
    rt: &impl Abort,
    alloc: Global,
    first: u64,
    new: u64,
    steps: &[Step],
) -> Result<(), Fail> {
    let mut rig = Rig::new(alloc, small([first, WHOLE, WHOLE, WHOLE]))?;
    replaces(rt, &mut rig, new, steps)
}

fn replaces(rt: &impl Abort, rig: &mut Rig, new: u64, steps: &[Step]) -> Result<(), Fail> {
    let before = [
        (Call::Write(0, 0x10), Answer::Done),
        (Call::Write(1, 0x11), Answer::Done),
        (Call::Fail(1), Answer::Now(Health::Out(1))),
        (
            Call::Replace(1, 2, new),
            Answer::Now(Health::Rebuilding(1, 0)),
        ),
    ];
    rig.plays(rt, &before)?;
    rig.plays(rt, steps)
}

#[test]
fn a_rebuilt_member_stands_in_for_its_partner(rt: HostRuntime) -> Result<(), Fail> {
    let steps = [
        (Call::Rebuild(1, 0), Answer::Done),
        (Call::Rebuild(1, 1), Answer::Done),
        (Call::MarkDone, Answer::Now(Health::Rebuilding(1, 1))),
        (Call::MarkDone, Answer::Now(Health::Whole)),
        (Call::Fail(0), Answer::Now(Health::Out(0))),
        (Call::Read(0), Answer::Byte(0x10)),
        (Call::Read(1), Answer::Byte(0x11)),
    ];
    rebuilds(&rt, rt.alloc(), WHOLE, WHOLE, &steps)
}

#[test]
fn a_rebuild_is_given_up_with_its_disk(rt: HostRuntime) -> Result<(), Fail> {
    let steps = [
        (Call::Rebuild(1, 0), Answer::Done),
        (Call::Rebuild(1, 1), Answer::GivenUp),
        (Call::Health, Answer::Now(Health::Out(1))),
    ];
    rebuilds(&rt, rt.alloc(), WHOLE, 1, &steps)
}

#[test]
fn a_rebuild_breaks_with_a_second_disk(rt: HostRuntime) -> Result<(), Fail> {
    let steps = [
        (Call::Rebuild(1, 0), Answer::Done),
        (Call::Rebuild(1, 1), Answer::Broken),
        (Call::Health, Answer::Now(Health::Broken)),
    ];
    // Disk 0 passes the two writes before it, and the read of row 0.
    rebuilds(&rt, rt.alloc(), 3, WHOLE, &steps)
}
