// Calls of a set and of its groups, and their answers.
ghost use Rattle.std.specs.Prelude.{◌<◌};
ghost use Rattle.std.specs.Bool.{OnTrue};
ghost use Rattle.ar_disks.specs.Geometry.{rows_of};
ghost use Rattle.ar_extents.specs.Set.{HasExtent};

use crate::fixtures::{Shape, byte_of, filled, fused_disk};
use crate::rig::Group;
use crate::sectors::{Part, get_sector, read_sectors, write_sectors};
use crate::slots::{open_group, read_slot, rebuild, write_slot};
use ar_disks::{Disk, FuseDisk, Geometry, Place};
use ar_extents::{DiskRefusal, DiskSet, Got, Health, Put, PutNew};
use std::alloc::{AllocError, Global};
use std::process::Abort;

/// A call that a test makes. What is written is one byte throughout.
#[derive(Clone, Copy)]
pub enum Call {
    /// Reads a row of an extent.
    Get(Place, u16),
    /// Writes a row of an extent.
    Put(Place, u16, u8),
    /// Writes a row of the extent that is rebuilt.
    PutNew(u16, u8),
    /// Counts the extent that is rebuilt as done.
    MarkDone,
    /// Takes a disk out.
    Fail(u8),
    /// Replaces a disk by one of this many extents that passes this many calls.
    Replace(u8, u16, u64),
    /// Adds a disk of this many extents.
    Add(u16),
    /// Takes the lowest loose extent of a disk.
    Take(u8),
    /// Takes the lowest loose extent of a disk and gives it back.
    TakeAndGive(u8),
    /// Counts the loose extents of a disk, and looks for the lowest.
    Loose(u8),
    /// Looks at the geometry, and counts the extents of a disk and the disks.
    Shape,
    /// Looks at the health.
    Health,
    /// Asks whether an extent is missing.
    Missing(Place),
    /// Opens the group with zeros.
    Open,
    /// Writes a slot of the group.
    Write(u16, u8),
    /// Reads a slot of the group.
    Read(u16),
    /// Overwrites sectors of a slot of the group.
    WritePart(Part, u8),
    /// Reads sectors of a slot of the group.
    ReadPart(Part),
    /// Reads a sector of a row of an extent.
    GetSector(Place, u16, u16),
    /// Rebuilds a row of the group's member at a position.
    Rebuild(u8, u16),
}

/// What a call met.
#[derive(Clone, Copy, Debug, PartialEq, Eq)]
pub enum Answer {
    /// This byte stands there throughout.
    Byte(u8),
    /// The bytes differ.
    Mixed,
    Written,
    Done,
    Missing,
    GivenUp,
    Broken,
    /// The health is this one now.
    Now(Health),
    /// The set has this geometry, this many extents of each disk, and this many disks.
    Shape(Geometry, u16, u8),
    /// The set has this many disks now.
    Disks(u8),
    /// This many extents are loose, the lowest of which is this one.
    Loose(u16, Option<u16>),
    /// This extent was taken.
    Extent(Option<u16>),
    Is(bool),
    Refused(DiskRefusal),
    /// A disk of this many extents was returned.
    HandedBack(DiskRefusal, u16),
    /// The call asks for what the set doesn't have, and wasn't made.
    Unfit,
}

/// A call, and what it has to return.
pub type Step = (Call, Answer);

/// Compares what a call returned with what it has to return. The fuses of the disks and the number of the call say
/// which one it is.
pub fn compare(rt: &impl Abort, fuses: &[u64], number: u32, step: Step, met: Answer) {
    let (_, wanted) = step;
    assert!(rt;
        met == wanted,
        "{met:?} in place of {wanted:?}, call {number}, fuses {fuses:?}"
    );
}

/// Makes a call.
pub fn make_call(
    set: &mut DiskSet<FuseDisk>,
    alloc: Global,
    group: Group,
    call: Call,
) -> Result<Answer, AllocError> {
    Ok(match call {
        Call::Get(place, row) => get(set, alloc, place, row)?,
        Call::Put(place, row, byte) => put(set, alloc, place, row, byte)?,
        Call::PutNew(row, byte) => put_new(set, alloc, row, byte)?,
        Call::MarkDone => mark_done(set),
        Call::Fail(disk) => fail(set, disk),
        Call::Replace(disk, extents, calls) => replace(set, alloc, disk, extents, calls)?,
        Call::Add(extents) => add(set, alloc, extents)?,
        Call::Take(disk) => take(set, disk),
        Call::TakeAndGive(disk) => take_and_give(set, disk),
        Call::Loose(disk) => loose(set, disk),
        Call::Shape => Answer::Shape(set.geometry(), set.extents(), set.count()),
        Call::Health => Answer::Now(set.health()),
        Call::Missing(place) => Answer::Is(set.missing(place)),
        Call::Open => open_group(set, alloc, group)?,
        Call::Write(slot, byte) => write_slot(set, alloc, group, slot, byte)?,
        Call::Read(slot) => read_slot(set, alloc, group, slot)?,
        Call::WritePart(part, byte) => write_sectors(set, alloc, group, part, byte)?,
        Call::ReadPart(part) => read_sectors(set, alloc, group, part)?,
        Call::GetSector(place, row, sector) => get_sector(set, alloc, place, row, sector)?,
        Call::Rebuild(position, row) => rebuild(set, alloc, group, position, row)?,
    })
}

/// What a read of a block met.
pub fn read(bytes: &[u8]) -> Answer {
    match byte_of(bytes) {
        Some(byte) => Answer::Byte(byte),
        None => Answer::Mixed,
    }
}

/// Whether the set has such a row.
pub fn has_row(set: &DiskSet<FuseDisk>, place: Place, row: u16) -> bool
    ensures extent { OnTrue result (HasExtent set.now place) }
    ensures row { OnTrue result (row < rows_of set.now.geometry) }
{
    place.disk < set.count() && place.extent < set.extents() && row < set.geometry().rows()
}

fn get(
    set: &mut DiskSet<FuseDisk>,
    alloc: Global,
    place: Place,
    row: u16,
) -> Result<Answer, AllocError> {
    let mut into = filled(alloc, set.geometry(), 0xDD)?;
    if !has_row(set, place, row) {
        return Ok(Answer::Unfit);
    }
    Ok(match set.get(place, row, into.bytes_mut()) {
        Got::Read => read(into.bytes()),
        Got::Missing => Answer::Missing,
        Got::Broken => Answer::Broken,
    })
}

fn put(
    set: &mut DiskSet<FuseDisk>,
    alloc: Global,
    place: Place,
    row: u16,
    byte: u8,
) -> Result<Answer, AllocError> {
    let from = filled(alloc, set.geometry(), byte)?;
    if !has_row(set, place, row) {
        return Ok(Answer::Unfit);
    }
    Ok(match set.put(place, row, from.bytes()) {
        Put::Written => Answer::Written,
        Put::Missing => Answer::Missing,
        Put::Broken => Answer::Broken,
    })
}

fn put_new(
    set: &mut DiskSet<FuseDisk>,
    alloc: Global,
    row: u16,
    byte: u8,
) -> Result<Answer, AllocError> {
    let from = filled(alloc, set.geometry(), byte)?;
    if row >= set.geometry().rows() {
        return Ok(Answer::Unfit);
    }
    let Health::Rebuilding(_, _) = set.health() else {
        return Ok(Answer::Unfit);
    };
    Ok(match set.put_new(row, from.bytes()) {
        PutNew::Written => Answer::Written,
        PutNew::GivenUp => Answer::GivenUp,
    })
}

fn mark_done(set: &mut DiskSet<FuseDisk>) -> Answer {
    let Health::Rebuilding(_, _) = set.health() else {
        return Answer::Unfit;
    };
    set.mark_done();
    Answer::Now(set.health())
}

fn fail(set: &mut DiskSet<FuseDisk>, disk: u8) -> Answer {
    match set.fail(disk) {
        Ok(()) => Answer::Now(set.health()),
        Err(refusal) => Answer::Refused(refusal),
    }
}

fn replace(
    set: &mut DiskSet<FuseDisk>,
    alloc: Global,
    number: u8,
    extents: u16,
    calls: u64,
) -> Result<Answer, AllocError> {
    let geometry = set.geometry();
    let disk = fused_disk(
        alloc,
        Shape {
            geometry,
            extents,
            calls,
        },
    )?;
    Ok(match set.replace(number, disk) {
        Ok(()) => Answer::Now(set.health()),
        Err((refusal, back)) => Answer::HandedBack(refusal, back.extents()),
    })
}

fn add(set: &mut DiskSet<FuseDisk>, alloc: Global, extents: u16) -> Result<Answer, AllocError> {
    let geometry = set.geometry();
    let disk = fused_disk(
        alloc,
        Shape {
            geometry,
            extents,
            calls: 0,
        },
    )?;
    Ok(match set.add(disk) {
        Ok(()) => Answer::Disks(set.count()),
        Err((refusal, back)) => Answer::HandedBack(refusal, back.extents()),
    })
}

fn loose(set: &DiskSet<FuseDisk>, disk: u8) -> Answer {
    if disk >= set.count() {
        return Answer::Unfit;
    }
    Answer::Loose(set.loose(disk), set.lowest_loose(disk))
}

fn take(set: &mut DiskSet<FuseDisk>, disk: u8) -> Answer {
    if disk >= set.count() {
        return Answer::Unfit;
    }
    Answer::Extent(set.take(disk))
}

fn take_and_give(set: &mut DiskSet<FuseDisk>, disk: u8) -> Answer {
    if disk >= set.count() {
        return Answer::Unfit;
    }
    let taken = set.take(disk);
    if let Some(extent) = taken {
        set.give(Place { disk, extent });
    }
    Answer::Extent(taken)
}
