// Calls on some sectors of a slot of a group with parity, or on one sector of a row.
ghost use Rattle.std.specs.Prelude.{◌≡◌, ◌+◌, ◌*◌, ◌≤◌, length};
ghost use Rattle.std.specs.Bool.{OnTrue};
ghost use Rattle.ar_disks.specs.Geometry.{block_len_of};

use crate::calls::{Answer, has_row, read};
use crate::fixtures::filled;
use crate::rig::Group;
use crate::slots::{members_of, outcome};
use ar_disks::{FuseDisk, Geometry, Place, SECTOR_LEN, Scratch};
use ar_extents::{DiskSet, Got};
use std::alloc::{AllocError, Global};

/// This many sectors of a slot, from one on.
#[derive(Clone, Copy)]
pub struct Part {
    pub slot: u16,
    pub first: u16,
    pub count: u16,
}

impl Part {
    /// One sector.
    pub fn of(slot: u16, first: u16) -> Part
        ensures { (result.first ≡ first) × (result.count ≡ 1) }
    {
        Part {
            slot,
            first,
            count: 1,
        }
    }

    // Whether a block has these sectors.
    fn is_within(self, geometry: Geometry) -> bool
        ensures { OnTrue result (512 * self.first + 512 * self.count ≤ block_len_of geometry) }
    {
        let (first, count) = (usize::from(self.first), usize::from(self.count));
        first * SECTOR_LEN + count * SECTOR_LEN <= geometry.block_len()
    }
}

/// Overwrites sectors of a slot.
pub fn write_sectors(
    set: &mut DiskSet<FuseDisk>,
    alloc: Global,
    group: Group,
    part: Part,
    byte: u8,
) -> Result<Answer, AllocError> {
    let from = filled(alloc, set.geometry(), byte)?;
    if !part.is_within(set.geometry()) {
        return Ok(Answer::Unfit);
    }
    let bytes = from.sectors(0, usize::from(part.count));
    match group {
        Group::Parity => write_parity(set, alloc, part.slot, usize::from(part.first), bytes),
        Group::Mirrored | Group::Absent => Ok(Answer::Unfit),
    }
}

fn write_parity(
    set: &mut DiskSet<FuseDisk>,
    alloc: Global,
    slot: u16,
    first: usize,
    from: &[u8],
) -> Result<Answer, AllocError>
    requires { 512 * first + length from.now ≤ block_len_of set.old.geometry }
{
    let mut scratch = Scratch::new(alloc, set.geometry())?;
    let members = members_of(set);
    if slot >= 3 * set.geometry().rows() {
        return Ok(Answer::Unfit);
    }
    let met = ar_parity::put_part(set, &members, slot, first, from, &mut scratch);
    Ok(outcome(met))
}

/// Reads sectors of a slot.
pub fn read_sectors(
    set: &mut DiskSet<FuseDisk>,
    alloc: Global,
    group: Group,
    part: Part,
) -> Result<Answer, AllocError> {
    if !part.is_within(set.geometry()) {
        return Ok(Answer::Unfit);
    }
    let mut into = vec![in alloc; 0xDD; usize::from(part.count) * SECTOR_LEN]?;
    let met = match group {
        Group::Parity => read_parity(set, alloc, part.slot, usize::from(part.first), &mut into)?,
        Group::Mirrored | Group::Absent => Answer::Unfit,
    };
    Ok(match met {
        Answer::Done => read(&into),
        _ => met,
    })
}

fn read_parity(
    set: &mut DiskSet<FuseDisk>,
    alloc: Global,
    slot: u16,
    first: usize,
    into: &mut [u8],
) -> Result<Answer, AllocError>
    requires { 512 * first + length into.old ≤ block_len_of set.old.geometry }
{
    let mut scratch = Scratch::new(alloc, set.geometry())?;
    let members = members_of(set);
    if slot >= 3 * set.geometry().rows() {
        return Ok(Answer::Unfit);
    }
    let met = ar_parity::get_part(set, &members, slot, first, into, &mut scratch);
    Ok(outcome(met))
}

/// Reads a sector of a row of an extent.
pub fn get_sector(
    set: &mut DiskSet<FuseDisk>,
    alloc: Global,
    place: Place,
    row: u16,
    sector: u16,
) -> Result<Answer, AllocError> {
    let mut into = vec![in alloc; 0xDD; SECTOR_LEN]?;
    if !Part::of(0, sector).is_within(set.geometry()) || !has_row(set, place, row) {
        return Ok(Answer::Unfit);
    }
    Ok(
        match set.get_part(place, row, usize::from(sector), &mut into) {
            Got::Read => read(&into),
            Got::Missing => Answer::Missing,
            Got::Broken => Answer::Broken,
        },
    )
}
