// Calls of a group, mirrored or with parity.
ghost use Rattle.std.specs.Prelude.{◌≡◌, ◌<◌, length};
ghost use Rattle.std.specs.Bool.{OnTrue};
ghost use Rattle.ar_disks.specs.Geometry.{block_len_of};
ghost use Rattle.ar_disks.specs.Members.{member};
ghost use Rattle.ar_extents.specs.Access.{next_place};
ghost use Rattle.ar_extents.specs.Groups.{IsGroup};
ghost use Rattle.ar_extents.specs.Health.{IsRebuilding};

use crate::calls::{Answer, read};
use crate::fixtures::filled;
use crate::rig::Group;
use ar_disks::{Completion, FuseDisk, Members, Place, Scratch};
use ar_extents::{DiskSet, Health, RowOutcome};
use std::alloc::{AllocError, Global};

/// A group of the first four disks: the last extent of disks 0 and 2, and the first of disks 1 and 3.
pub fn members_of(set: &DiskSet<FuseDisk>) -> Members
    ensures { IsGroup set.now result }
{
    let _count = set.count();
    let last = set.extents() - 1;
    Members {
        first: Place {
            disk: 0,
            extent: last,
        },
        second: Place { disk: 1, extent: 0 },
        third: Place {
            disk: 2,
            extent: last,
        },
        fourth: Place { disk: 3, extent: 0 },
    }
}

/// Opens a group with parity.
pub fn open_group(
    set: &mut DiskSet<FuseDisk>,
    alloc: Global,
    group: Group,
) -> Result<Answer, AllocError> {
    let mut scratch = Scratch::new(alloc, set.geometry())?;
    let members = members_of(set);
    Ok(match group {
        Group::Parity => outcome(ar_parity::open_zero(set, &members, &mut scratch)),
        _ => Answer::Unfit,
    })
}

/// Writes a slot.
pub fn write_slot(
    set: &mut DiskSet<FuseDisk>,
    alloc: Global,
    group: Group,
    slot: u16,
    byte: u8,
) -> Result<Answer, AllocError> {
    let from = filled(alloc, set.geometry(), byte)?;
    match group {
        Group::Mirrored => Ok(write_mirrored(set, slot, from.bytes())),
        Group::Parity => write_parity(set, alloc, slot, from.bytes()),
        Group::Absent => Ok(Answer::Unfit),
    }
}

fn write_mirrored(set: &mut DiskSet<FuseDisk>, slot: u16, from: &[u8]) -> Answer
    requires { length from.now ≡ block_len_of set.old.geometry }
{
    let members = members_of(set);
    if slot >= 2 * set.geometry().rows() {
        return Answer::Unfit;
    }
    outcome(ar_mirror::put(set, &members, slot, from))
}

fn write_parity(
    set: &mut DiskSet<FuseDisk>,
    alloc: Global,
    slot: u16,
    from: &[u8],
) -> Result<Answer, AllocError>
    requires { length from.now ≡ block_len_of set.old.geometry }
{
    let mut scratch = Scratch::new(alloc, set.geometry())?;
    let members = members_of(set);
    if slot >= 3 * set.geometry().rows() {
        return Ok(Answer::Unfit);
    }
    let met = ar_parity::put(set, &members, slot, from, &mut scratch);
    Ok(outcome(met))
}

/// Reads a slot.
pub fn read_slot(
    set: &mut DiskSet<FuseDisk>,
    alloc: Global,
    group: Group,
    slot: u16,
) -> Result<Answer, AllocError> {
    let mut into = filled(alloc, set.geometry(), 0xDD)?;
    let met = match group {
        Group::Mirrored => read_mirrored(set, slot, into.bytes_mut()),
        Group::Parity => read_parity(set, alloc, slot, into.bytes_mut())?,
        Group::Absent => Answer::Unfit,
    };
    Ok(match met {
        Answer::Done => read(into.bytes()),
        _ => met,
    })
}

fn read_mirrored(set: &mut DiskSet<FuseDisk>, slot: u16, into: &mut [u8]) -> Answer
    requires { length into.old ≡ block_len_of set.old.geometry }
{
    let members = members_of(set);
    if slot >= 2 * set.geometry().rows() {
        return Answer::Unfit;
    }
    outcome(ar_mirror::get(set, &members, slot, into))
}

fn read_parity(
    set: &mut DiskSet<FuseDisk>,
    alloc: Global,
    slot: u16,
    into: &mut [u8],
) -> Result<Answer, AllocError>
    requires { length into.old ≡ block_len_of set.old.geometry }
{
    let mut scratch = Scratch::new(alloc, set.geometry())?;
    let members = members_of(set);
    if slot >= 3 * set.geometry().rows() {
        return Ok(Answer::Unfit);
    }
    let met = ar_parity::get(set, &members, slot, into, &mut scratch);
    Ok(outcome(met))
}

/// What a call reported.
pub fn outcome(met: Completion) -> Answer {
    match met {
        Completion::Done => Answer::Done,
        Completion::Broken => Answer::Broken,
    }
}

/// Rebuilds a row of the member at a position, which has to be the next one to be rebuilt.
pub fn rebuild(
    set: &mut DiskSet<FuseDisk>,
    alloc: Global,
    group: Group,
    position: u8,
    row: u16,
) -> Result<Answer, AllocError> {
    let mut scratch = Scratch::new(alloc, set.geometry())?;
    let members = members_of(set);
    if row >= set.geometry().rows() || !is_next(set, &members, position) {
        return Ok(Answer::Unfit);
    }
    let met = match group {
        Group::Mirrored => ar_mirror::rebuild_row(set, &members, position, row, &mut scratch),
        Group::Parity => ar_parity::rebuild_row(set, &members, position, row, &mut scratch),
        Group::Absent => return Ok(Answer::Unfit),
    };
    Ok(match met {
        RowOutcome::Done => Answer::Done,
        RowOutcome::GivenUp => Answer::GivenUp,
        RowOutcome::Broken => Answer::Broken,
    })
}

// Whether the member at a position is rebuilt next.
fn is_next(set: &DiskSet<FuseDisk>, members: &Members, position: u8) -> bool
    ensures rebuilding { OnTrue result (IsRebuilding set.now.health) }
    ensures below { OnTrue result (position < 4) }
    ensures next { OnTrue result (member members.now position ≡ next_place set.now) }
{
    if position >= 4 {
        return false;
    }
    let place = members.at(position);
    match set.health() {
        Health::Rebuilding(disk, extent) => place.disk == disk && place.extent == extent,
        _ => false,
    }
}
