// Each refusal and each answer of a set once, with values worked by hand.
ghost use Rattle.std.specs.Prelude.{All, map};
ghost use Rattle.ar_extents.specs.Set.{CanCount};

use crate::calls::{Answer, Call};
use crate::fixtures::{Shape, WHOLE, fused_disk, fused_disks};
use crate::rig::{Case, Group, Rig, run};
use ar_disks::{FuseDisk, Geometry, Place};
use ar_extents::{DiskRefusal, DiskSet, Health, StartFault};
use std::alloc::Global;
use std::fmt::Display;
use std::process::Abort;
use std::test::Fail;

// Both extents of disk 1.
const FIRST: Place = Place { disk: 1, extent: 0 };

const LAST: Place = Place { disk: 1, extent: 1 };

// An extent of another disk.
const OTHER: Place = Place { disk: 2, extent: 1 };

// Four disks of two extents, of which disk 1 passes this many calls.
fn four(calls: u64) -> Case {
    Case {
        group: Group::Absent,
        geometry: Geometry::SMALL,
        extents: 2,
        fuses: [WHOLE, calls, WHOLE, WHOLE],
    }
}

// A disk of the shape that the set's disks have.
const LIKE: Shape = Shape {
    geometry: Geometry::SMALL,
    extents: 2,
    calls: WHOLE,
};

// Begins no set of disks of these shapes, and compares why, and how many disks are returned.
fn refuses(
    rt: &impl Abort,
    alloc: Global,
    shapes: &[Shape],
    fault: StartFault,
) -> Result<(), Fail> {
    let met = match DiskSet::start(alloc, fused_disks(alloc, shapes)?) {
        Ok(_set) => None,
        Err((fault, back)) => Some((fault, back.len())),
    };
    assert!(rt; met == Some((fault, shapes.len())), "{shapes:?}: {met:?}");
    Ok(())
}

#[test]
fn a_set_that_cannot_begin_hands_its_disks_back(rt: HostRuntime) -> Result<(), Fail> {
    let alloc = rt.alloc();
    let none = Shape { extents: 0, ..LIKE };
    let many = Shape {
        extents: 1025,
        ..LIKE
    };
    refuses(&rt, alloc, &[LIKE; 3], StartFault::BadCount)?;
    refuses(&rt, alloc, &[none; 13], StartFault::BadCount)?;
    refuses(&rt, alloc, &[none; 4], StartFault::WrongSize)?;
    refuses(&rt, alloc, &[many; 4], StartFault::WrongSize)
}

#[test]
fn unlike_disks_make_no_set(rt: HostRuntime) -> Result<(), Fail> {
    let more = Shape { extents: 3, ..LIKE };
    let large = Shape {
        geometry: Geometry::PAPER,
        ..LIKE
    };
    refuses(
        &rt,
        rt.alloc(),
        &[LIKE, LIKE, LIKE, more],
        StartFault::WrongSize,
    )?;
    refuses(
        &rt,
        rt.alloc(),
        &[LIKE, LIKE, LIKE, large],
        StartFault::WrongSize,
    )
}

#[test]
fn a_new_set_is_whole_and_loose(rt: HostRuntime) -> Result<(), Fail> {
    let steps = [
        (Call::Shape, Answer::Shape(Geometry::SMALL, 2, 4)),
        (Call::Health, Answer::Now(Health::Whole)),
        (Call::Missing(FIRST), Answer::Is(false)),
        (Call::Loose(0), Answer::Loose(2, Some(0))),
        (Call::Loose(1), Answer::Loose(2, Some(0))),
        (Call::Loose(2), Answer::Loose(2, Some(0))),
        (Call::Loose(3), Answer::Loose(2, Some(0))),
    ];
    run(&rt, rt.alloc(), four(WHOLE), &steps)
}

#[test]
fn a_disk_is_lost_at_any_call(rt: HostRuntime) -> Result<(), Fail> {
    for passes in 0..9 {
        lost_after(&rt, rt.alloc(), passes)?;
    }
    Ok(())
}

fn lost_after(rt: &impl Abort, alloc: Global, passes: u64) -> Result<(), Fail> {
    let mut rig = Rig::new(alloc, four(passes))?;
    nine_calls(rt, &mut rig, passes)
}

// Nine calls reach disk 1, a write and two reads in turn; the fuse passes the first of them.
fn nine_calls(rt: &impl Abort, rig: &mut Rig, passes: u64) -> Result<(), Fail> {
    let steps = [
        (Call::Put(FIRST, 1, 0xAA), Answer::Written),
        (Call::Get(LAST, 1), Answer::Byte(0xEE)),
        (Call::Get(FIRST, 1), Answer::Byte(0xAA)),
        (Call::Put(LAST, 1, 0xBB), Answer::Written),
        (Call::Get(FIRST, 1), Answer::Byte(0xAA)),
        (Call::Get(LAST, 1), Answer::Byte(0xBB)),
        (Call::Put(FIRST, 1, 0xCC), Answer::Written),
        (Call::Get(LAST, 1), Answer::Byte(0xBB)),
        (Call::Get(FIRST, 1), Answer::Byte(0xCC)),
    ];
    for (number, (call, answer)) in steps.iter().enumerate() {
        let (answer, health) = if (number as u64) < passes {
            (*answer, Health::Whole)
        } else {
            (Answer::Missing, Health::Out(1))
        };
        rig.meets(rt, *call, answer)?;
        rig.meets(rt, Call::Health, Answer::Now(health))?;
    }
    goes_on_and_breaks(rt, rig)
}

// The others go on, and a second loss breaks the set.
fn goes_on_and_breaks(rt: &impl Abort, rig: &mut Rig) -> Result<(), Fail> {
    let steps = [
        (Call::Fail(1), Answer::Now(Health::Out(1))),
        (Call::Put(OTHER, 1, 0xAA), Answer::Written),
        (Call::Get(OTHER, 1), Answer::Byte(0xAA)),
        (Call::Fail(2), Answer::Now(Health::Broken)),
        (Call::Get(OTHER, 1), Answer::Broken),
        (Call::Put(OTHER, 1, 0xBB), Answer::Broken),
    ];
    rig.plays(rt, &steps)
}

#[test]
fn a_fault_beside_a_disk_that_is_out_breaks_the_set(rt: HostRuntime) -> Result<(), Fail> {
    let steps = [
        (Call::Fail(3), Answer::Now(Health::Out(3))),
        (Call::Get(Place { disk: 3, extent: 0 }, 1), Answer::Missing),
        (Call::Health, Answer::Now(Health::Out(3))),
        (Call::Get(FIRST, 1), Answer::Broken),
        (Call::Health, Answer::Now(Health::Broken)),
    ];
    run(&rt, rt.alloc(), four(0), &steps)
}

#[test]
fn a_replaced_disk_is_rebuilt(rt: HostRuntime) -> Result<(), Fail> {
    let steps = [
        (Call::Fail(1), Answer::Now(Health::Out(1))),
        (
            Call::Replace(1, 2, 1),
            Answer::Now(Health::Rebuilding(1, 0)),
        ),
        (Call::Put(FIRST, 1, 0xBB), Answer::Missing),
        (Call::PutNew(1, 0xBB), Answer::Written),
        (Call::MarkDone, Answer::Now(Health::Rebuilding(1, 1))),
        (Call::Missing(LAST), Answer::Is(true)),
        (Call::Missing(FIRST), Answer::Is(false)),
        // The fuse has passed its one call.
        (Call::PutNew(1, 0xBB), Answer::GivenUp),
        (Call::Health, Answer::Now(Health::Out(1))),
        (
            Call::Replace(1, 2, 4),
            Answer::Now(Health::Rebuilding(1, 0)),
        ),
        (Call::PutNew(1, 0xBB), Answer::Written),
        (Call::MarkDone, Answer::Now(Health::Rebuilding(1, 1))),
        (Call::Get(FIRST, 1), Answer::Byte(0xBB)),
        (Call::PutNew(1, 0xBB), Answer::Written),
        (Call::MarkDone, Answer::Now(Health::Whole)),
        (Call::Get(LAST, 1), Answer::Byte(0xBB)),
        // And so has this one its four.
        (Call::Get(LAST, 1), Answer::Missing),
    ];
    run(&rt, rt.alloc(), four(WHOLE), &steps)
}

#[test]
fn a_fault_while_another_disk_is_rebuilt_breaks_the_set(rt: HostRuntime) -> Result<(), Fail> {
    let steps = [
        (Call::Fail(0), Answer::Now(Health::Out(0))),
        (
            Call::Replace(0, 2, WHOLE),
            Answer::Now(Health::Rebuilding(0, 0)),
        ),
        (Call::Get(FIRST, 1), Answer::Broken),
        (Call::Health, Answer::Now(Health::Broken)),
    ];
    run(&rt, rt.alloc(), four(0), &steps)
}

#[test]
fn the_rebuilt_part_of_a_disk_is_lost_with_it(rt: HostRuntime) -> Result<(), Fail> {
    let steps = [
        (Call::Fail(1), Answer::Now(Health::Out(1))),
        (
            Call::Replace(1, 2, 0),
            Answer::Now(Health::Rebuilding(1, 0)),
        ),
        (Call::MarkDone, Answer::Now(Health::Rebuilding(1, 1))),
        (Call::Get(FIRST, 1), Answer::Missing),
        (Call::Health, Answer::Now(Health::Out(1))),
    ];
    run(&rt, rt.alloc(), four(WHOLE), &steps)
}

#[test]
fn disks_are_refused_in_order(rt: HostRuntime) -> Result<(), Fail> {
    let steps = [
        (
            Call::Replace(4, 3, 0),
            Answer::HandedBack(DiskRefusal::NoSuchDisk, 3),
        ),
        (
            Call::Replace(0, 3, 0),
            Answer::HandedBack(DiskRefusal::NotOut, 3),
        ),
        (Call::Fail(4), Answer::Refused(DiskRefusal::NoSuchDisk)),
        (Call::Health, Answer::Now(Health::Whole)),
        (Call::Add(3), Answer::HandedBack(DiskRefusal::WrongSize, 3)),
        (Call::Shape, Answer::Shape(Geometry::SMALL, 2, 4)),
        (Call::Fail(0), Answer::Now(Health::Out(0))),
        (Call::Fail(0), Answer::Now(Health::Out(0))),
        (
            Call::Replace(1, 3, 0),
            Answer::HandedBack(DiskRefusal::NotOut, 3),
        ),
        (
            Call::Replace(0, 3, 0),
            Answer::HandedBack(DiskRefusal::WrongSize, 3),
        ),
        (
            Call::Replace(0, 2, 0),
            Answer::Now(Health::Rebuilding(0, 0)),
        ),
        (
            Call::Replace(0, 2, 0),
            Answer::HandedBack(DiskRefusal::NotOut, 2),
        ),
        (Call::Add(2), Answer::Disks(5)),
        (Call::Add(2), Answer::Disks(6)),
        (Call::Add(2), Answer::Disks(7)),
        (Call::Add(2), Answer::Disks(8)),
        (Call::Add(2), Answer::Disks(9)),
        (Call::Add(2), Answer::Disks(10)),
        (Call::Add(2), Answer::Disks(11)),
        (Call::Add(2), Answer::Disks(12)),
        (
            Call::Add(3),
            Answer::HandedBack(DiskRefusal::TooManyDisks, 3),
        ),
        (Call::Shape, Answer::Shape(Geometry::SMALL, 2, 12)),
        (Call::Fail(5), Answer::Now(Health::Broken)),
        (Call::Add(3), Answer::HandedBack(DiskRefusal::Broken, 3)),
        (
            Call::Replace(12, 3, 0),
            Answer::HandedBack(DiskRefusal::Broken, 3),
        ),
        (Call::Fail(12), Answer::Refused(DiskRefusal::NoSuchDisk)),
        (Call::Fail(3), Answer::Now(Health::Broken)),
    ];
    run(&rt, rt.alloc(), four(WHOLE), &steps)
}

#[test]
fn refusals_have_numbers(rt: HostRuntime) -> Result<(), Fail> {
    for (refusal, text) in [
        (DiskRefusal::TooManyDisks, "E1 TooManyDisks"),
        (DiskRefusal::WrongSize, "E2 WrongSize"),
        (DiskRefusal::NotOut, "E3 NotOut"),
        (DiskRefusal::NoSuchDisk, "E4 NoSuchDisk"),
        (DiskRefusal::NoMemory, "E5 NoMemory"),
        (DiskRefusal::Broken, "E6 Broken"),
    ] {
        shows(&rt, rt.alloc(), &refusal, text)?;
    }
    for (fault, text) in [
        (StartFault::BadCount, "BadCount"),
        (StartFault::WrongSize, "WrongSize"),
        (StartFault::NoMemory, "NoMemory"),
    ] {
        shows(&rt, rt.alloc(), &fault, text)?;
    }
    Ok(())
}

fn shows<T: Display>(rt: &impl Abort, alloc: Global, value: &T, text: &str) -> Result<(), Fail> {
    let shown = format!(in alloc; "{value}")?;
    assert!(rt; shown.as_str() == text, "{shown} in place of {text}");
    Ok(())
}

#[test]
fn loose_extents_are_taken_from_below(rt: HostRuntime) -> Result<(), Fail> {
    let mut rig = Rig::new(rt.alloc(), four(WHOLE))?;
    takes_all(&rt, &mut rig)
}

// Takes both extents of each of five disks, and gives the second back once.
fn takes_all(rt: &impl Abort, rig: &mut Rig) -> Result<(), Fail> {
    rig.meets(rt, Call::Add(2), Answer::Disks(5))?;
    for disk in 0..5 {
        let steps = [
            (Call::Loose(disk), Answer::Loose(2, Some(0))),
            (Call::Take(disk), Answer::Extent(Some(0))),
            (Call::Loose(disk), Answer::Loose(1, Some(1))),
            (Call::TakeAndGive(disk), Answer::Extent(Some(1))),
            (Call::Loose(disk), Answer::Loose(1, Some(1))),
            (Call::Take(disk), Answer::Extent(Some(1))),
            (Call::Loose(disk), Answer::Loose(0, None)),
            (Call::Take(disk), Answer::Extent(None)),
        ];
        rig.plays(rt, &steps)?;
    }
    Ok(())
}

// A set of these disks, begun once more where memory was refused.
fn begun(alloc: Global, disks: Vec<FuseDisk>) -> Result<DiskSet<FuseDisk>, Fail>
    requires { All CanCount (map (λ disk. disk.disk) disks.items) }
{
    let back = match DiskSet::start(alloc, disks) {
        Ok(set) => return Ok(set),
        Err((StartFault::NoMemory, back)) => back,
        Err((fault, _)) => return Err(Fail::new(fault)),
    };
    match DiskSet::start(alloc, back) {
        Ok(set) => Ok(set),
        Err((fault, _)) => Err(Fail::new(fault)),
    }
}

// One more disk, added once more where memory was refused.
fn grown(set: &mut DiskSet<FuseDisk>, disk: FuseDisk) -> Result<(), Fail>
    requires { CanCount disk.disk }
{
    let back = match set.add(disk) {
        Ok(()) => return Ok(()),
        Err((DiskRefusal::NoMemory, back)) => back,
        Err((refusal, _)) => return Err(Fail::new(refusal)),
    };
    match set.add(back) {
        Ok(()) => Ok(()),
        Err((refusal, _)) => Err(Fail::new(refusal)),
    }
}

// Run with each allocation refused in turn, this meets NoMemory in each place of `start` and `add`.
#[test]
fn refused_memory_leaves_all_as_it_was(rt: HostRuntime) -> Result<(), Fail> {
    let alloc = rt.alloc();
    let disks = fused_disks(alloc, &[LIKE; 4])?;
    let mut rig = Rig::of(alloc, four(WHOLE), begun(alloc, disks)?);
    grows(&rt, &mut rig)
}

fn grows(rt: &impl Abort, rig: &mut Rig) -> Result<(), Fail> {
    let disk = fused_disk(rig.alloc, LIKE)?;
    grown(&mut rig.set, disk)?;
    let steps = [
        (Call::Shape, Answer::Shape(Geometry::SMALL, 2, 5)),
        (Call::Loose(0), Answer::Loose(2, Some(0))),
        (Call::Loose(1), Answer::Loose(2, Some(0))),
        (Call::Loose(2), Answer::Loose(2, Some(0))),
        (Call::Loose(3), Answer::Loose(2, Some(0))),
        (Call::Loose(4), Answer::Loose(2, Some(0))),
    ];
    rig.plays(rt, &steps)
}
