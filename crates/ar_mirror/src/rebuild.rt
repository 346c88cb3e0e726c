// The rebuild of a row from its mirror. Nothing is written unless the mirror was read.
ghost use Rattle.std.specs.Prelude.{◌≡◌, ◌≢◌, ◌<◌, length};
ghost use Rattle.ar_disks.specs.Geometry.{rows_of, block_len_of};
ghost use Rattle.ar_disks.specs.Members.{member};
ghost use Rattle.ar_extents.specs.Health.{IsRebuilding};
ghost use Rattle.ar_extents.specs.Access.{next_place};
ghost use Rattle.ar_extents.specs.Set.{HasExtent};
ghost use Rattle.ar_extents.specs.Groups.{IsGroup};
ghost use Rattle.ar_mirror.specs.Slots.{partner_of};
ghost use Rattle.ar_extents.specs.Plans.{CarriesOut};
ghost use Rattle.ar_mirror.specs.Plans.{copy_row};
ghost use Rattle.ar_mirror.specs.Calls.{IsRebuiltNext, Rebuilds};

use crate::pair::partner;
use ar_disks::{Block, Disk, Members, Place, Scratch};
use ar_extents::{DiskSet, Got, PutNew, RowOutcome};

/// Copies row `row` to the member at position `position`, 0 to 3, from the other member of its pair. The member is the
/// extent that is rebuilt next: the lowest of the new disk that isn't done. `GivenUp` reports that the new disk faulted
/// and is `Out`; the row then has unspecified bytes. `Broken` reports that the other member couldn't be read; nothing
/// is written.
pub fn rebuild_row<D: Disk>(
    set: &mut DiskSet<D>,
    members: &Members,
    position: u8,
    row: u16,
    scratch: &mut Scratch,
) -> RowOutcome
    requires group { IsGroup set.old members.now }
    requires next { IsRebuiltNext set.old members.now position }
    requires row { row < rows_of set.old.geometry }
    requires scratch { scratch.old.geometry ≡ set.old.geometry }

    ensures answer { Rebuilds set.old set.new (member members.now (partner_of position)) row result }
    // Exactly these accesses are made.
    ensures plan { CarriesOut (copy_row (member members.now (partner_of position)) (next_place set.old) row)
        set.old set.new }

    ensures scratch { scratch.new.geometry ≡ scratch.old.geometry }
{
    let from = members.at(partner(position));
    copy_row(set, from, row, &mut scratch.first)
}

// Copies a row from an extent of another disk to the one that is rebuilt next, through `block`.
fn copy_row<D: Disk>(set: &mut DiskSet<D>, from: Place, row: u16, block: &mut Block) -> RowOutcome
    requires from { HasExtent set.old from }
    requires apart { (next_place set.old).disk ≢ from.disk }
    requires row { row < rows_of set.old.geometry }
    requires rebuilding { IsRebuilding set.old.health }
    requires whole { length block.old ≡ block_len_of set.old.geometry }

    ensures answer { Rebuilds set.old set.new from row result }
    ensures plan { CarriesOut (copy_row from (next_place set.old) row) set.old set.new }

    ensures len { length block.new ≡ length block.old }
{
    match set.get(from, row, block.bytes_mut()) {
        Got::Read => match set.put_new(row, block.bytes()) {
            PutNew::Written => RowOutcome::Done,
            PutNew::GivenUp => RowOutcome::GivenUp,
        },
        // One disk is down already, so a fault of another one fails the set.
        Got::Missing | Got::Broken => RowOutcome::Broken,
    }
}
