// A stripe of zeros, of which the parity is zeros too.
ghost use Rattle.std.specs.Prelude.{◌≡◌, ◌<◌};
ghost use Rattle.ar_disks.specs.Block.{zeros};
ghost use Rattle.ar_disks.specs.Geometry.{rows_of, block_len_of};
ghost use Rattle.ar_extents.specs.Follows.{WorksOn};
ghost use Rattle.ar_extents.specs.Groups.{IsGroup, IsMember};
ghost use Rattle.ar_extents.specs.Plans.{CarriesOut, each_of};
ghost use Rattle.ar_parity.specs.Plans.{writes_from};
ghost use Rattle.ar_parity.specs.Row.{zero_blocks};
ghost use Rattle.ar_parity.specs.Group.{RowAgrees, KeepsButRow};
ghost use Rattle.ar_parity.specs.Call.{ReportsFailure};

use crate::steps::write;
use ar_disks::{Block, Completion, Disk, Members};
use ar_extents::DiskSet;

// Writes zeros to a row of each member that isn't missing.
pub(crate) fn zero_row<D: Disk>(
    set: &mut DiskSet<D>,
    members: &Members,
    row: u16,
    zero: &[u8],
) -> Completion
    requires group { IsGroup set.old members.now }
    requires row { row < rows_of set.old.geometry }
    requires zero { zero.now ≡ zeros (block_len_of set.old.geometry) }
    ensures answer { ReportsFailure set.new result }
    ensures agrees { RowAgrees set.new members.now row (zero_blocks (block_len_of set.old.geometry)) }
    ensures keeps { KeepsButRow members.now row set.old set.new }
    ensures works { WorksOn (IsMember members.now) set.old set.new }
    ensures plan { CarriesOut (each_of (writes_from members.now row 0 4)) set.old set.new }
{
    for position in 0..4 {
        match write(set, members, position, row, zero) {
            Completion::Done => {}
            Completion::Broken => return Completion::Broken,
        }
    }
    Completion::Done
}
