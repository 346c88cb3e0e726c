// The rebuild of a row from the three others of its stripe. Nothing is written unless all three were read.
ghost use Rattle.std.specs.Prelude.{◌≡◌, ℕ, ◌<◌};
ghost use Rattle.ar_disks.specs.Geometry.{rows_of};
ghost use Rattle.ar_extents.specs.Groups.{IsGroup};
ghost use Rattle.ar_extents.specs.Plans.{CarriesOut};
ghost use Rattle.ar_parity.specs.Plans.{parity_rebuild};
ghost use Rattle.ar_parity.specs.Row.{Blocks};
ghost use Rattle.ar_parity.specs.Group.{RowAgrees};
ghost use Rattle.ar_parity.specs.Call.{IsRebuiltNext, Rebuilds};

use crate::degraded::lost_block;
use ar_disks::{Completion, Disk, Members, Scratch};
use ar_extents::{DiskSet, PutNew, RowOutcome};

/// Writes the XOR of a stripe's three other blocks to row `row` of the member at position `position`, 0 to 3. The
/// member is the extent that is rebuilt next: the lowest of the new disk that isn't done.
///
/// `GivenUp` reports that the new disk faulted and is `Out`; the row then has unspecified bytes. `Broken` reports that
/// another member couldn't be read; nothing is written.
pub fn rebuild_row<D: Disk>(
    set: &mut DiskSet<D>,
    members: &Members,
    position: u8,
    row: u16,
    scratch: &mut Scratch,
) -> RowOutcome
    requires group { IsGroup set.old members.now }
    requires next { IsRebuiltNext set.old members.now position }
    requires row { row < rows_of set.old.geometry }
    requires scratch { scratch.old.geometry ≡ set.old.geometry }

    ensures answer { Rebuilds set.old set.new members.now position row result }
    // Exactly these accesses are made.
    ensures plan { CarriesOut (parity_rebuild members.now position row) set.old set.new }
    ensures agrees { (r : ℕ) (blocks : Blocks) → RowAgrees set.old members.now r blocks
        → RowAgrees set.new members.now r blocks }

    ensures scratch { scratch.new.geometry ≡ scratch.old.geometry }
{
    match lost_block(
        set,
        members,
        position,
        row,
        scratch.first.bytes_mut(),
        scratch.second.bytes_mut(),
    ) {
        Completion::Done => {}
        Completion::Broken => return RowOutcome::Broken,
    }
    match set.put_new(row, scratch.first.bytes()) {
        PutNew::Written => RowOutcome::Done,
        PutNew::GivenUp => RowOutcome::GivenUp,
    }
}
