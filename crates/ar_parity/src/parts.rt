// Reads and writes of a part of a slot's block. They access what those of the whole block access, and only that part of
// each row.
ghost use Rattle.std.specs.Prelude.{◌≡◌, ◌+◌, ◌*◌, ◌<◌, ◌≤◌, ℕ, List, length};
ghost use Rattle.ar_disks.specs.Block.{part_at, with_sectors};
ghost use Rattle.ar_disks.specs.Geometry.{rows_of, block_len_of};
ghost use Rattle.ar_disks.specs.Endings.{OnDone};
ghost use Rattle.ar_extents.specs.Groups.{IsGroup, outcome_of};
ghost use Rattle.ar_extents.specs.Plans.{CarriesOut};
ghost use Rattle.ar_parity.specs.Plans.{parity_read};
ghost use Rattle.ar_parity.specs.Row.{row_of, data_position};
ghost use Rattle.ar_parity.specs.Group.{Holds};
ghost use Rattle.ar_parity.specs.Call.{UpdatesPart, WritesOneSlot};

use crate::degraded::sum_of_three;
use crate::slots::{data_at, row_of_slot};
use crate::update::change;
use ar_disks::{Completion, Disk, Members, Scratch};
use ar_extents::{DiskSet, Got};

/// Reads a part of the block of slot `slot`, below three times the rows of an extent, from sector `first` on, into
/// `into`. Callers pass whole sectors. It accesses what `get` accesses.
///
/// After `Broken`, `into` has unspecified bytes.
pub fn get_part<D: Disk>(
    set: &mut DiskSet<D>,
    members: &Members,
    slot: u16,
    first: usize,
    into: &mut [u8],
    scratch: &mut Scratch,
) -> Completion
    requires group { IsGroup set.old members.now }
    requires slot { slot < 3 * rows_of set.old.geometry }
    requires within { 512 * first + length into.old ≤ block_len_of set.old.geometry }
    requires scratch { scratch.old.geometry ≡ set.old.geometry }

    ensures outcome { result ≡ outcome_of set.new.health }
    ensures gives { OnDone result ((b : List ℕ) → Holds set.old members.now slot b
        → into.new ≡ part_at b first (length into.new)) }
    // Exactly these accesses are made.
    ensures plan { CarriesOut (parity_read members.now slot) set.old set.new }

    ensures scratch { scratch.new.geometry ≡ scratch.old.geometry }
{
    let row = row_of_slot(slot);
    let position = data_at(slot);
    match set.get_part(members.at(position), row, first, into) {
        Got::Read => Completion::Done,
        Got::Missing => {
            let spare = scratch.first.bytes_mut();
            sum_of_three(set, members, position, row, first, into, spare)
        }
        Got::Broken => Completion::Broken,
    }
}

/// Overwrites a part of the block of slot `slot`, below three times the rows of an extent, with `from`, from sector
/// `first` on. Callers pass whole sectors. It accesses what `put` accesses, and every other slot keeps its block.
///
/// After `Broken`, the stripe's row in the slot's member and the parity's has unspecified bytes.
pub fn put_part<D: Disk>(
    set: &mut DiskSet<D>,
    members: &Members,
    slot: u16,
    first: usize,
    from: &[u8],
    scratch: &mut Scratch,
) -> Completion
    requires group { IsGroup set.old members.now }
    requires slot { slot < 3 * rows_of set.old.geometry }
    requires within { 512 * first + length from.now ≤ block_len_of set.old.geometry }
    requires scratch { scratch.old.geometry ≡ set.old.geometry }

    ensures row { UpdatesPart set.old set.new members.now (row_of slot) (data_position slot) first from.now }
    ensures holds { (b : List ℕ) → Holds set.old members.now slot b
        → Holds set.new members.now slot (with_sectors b first from.now) }
    // Exactly the accesses of `parity_write` are made.
    ensures writes { WritesOneSlot set.old set.new members.now slot result }

    ensures scratch { scratch.new.geometry ≡ scratch.old.geometry }
{
    change(
        set,
        members,
        data_at(slot),
        row_of_slot(slot),
        first,
        from,
        scratch,
    )
}
