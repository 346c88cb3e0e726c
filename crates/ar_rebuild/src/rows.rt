// Writes every row of one member of a group from the group's other members, in ascending order. Only the rows of that
// member change.
ghost use Rattle.std.specs.Prelude.{◌≡◌, ◌≢◌, ◌<◌, IsTrue};
ghost use Rattle.ar_disks.specs.Geometry.{rows_of};
ghost use Rattle.ar_disks.specs.Members.{member, stands_on};
ghost use Rattle.ar_extents.specs.Health.{IsRebuilding};
ghost use Rattle.ar_extents.specs.Access.{next_place};
ghost use Rattle.ar_extents.specs.Groups.{IsGroup};
ghost use Rattle.ar_extents.specs.Plans.{all_of, Stop, CarriesOut};
ghost use Rattle.ar_rebuild.specs.Plans.{row_attempts, member_plan};
ghost use Rattle.ar_rebuild.specs.Rows.{WritesNext, WritesRow, WritesRows, StopsAtRow};

use ar_book::Class;
use ar_disks::{Disk, Members, Place, Scratch};
use ar_extents::{DiskSet, RowOutcome};

// The position in the group, 0 to 3, of a member.
pub(crate) fn position_of(members: &Members, place: Place) -> u8
    requires { IsTrue (stands_on members.now place) }
    ensures below { result < 4 }
    ensures is { member members.now result ≡ place }
{
    if members.first == place {
        0
    } else if members.second == place {
        1
    } else if members.third == place {
        2
    } else {
        3
    }
}

// Writes every row of the member of a used group that is rebuilt next.
pub(crate) fn write_rows<D: Disk>(
    set: &mut DiskSet<D>,
    class: Class,
    members: &Members,
    position: u8,
    scratch: &mut Scratch,
) -> RowOutcome
    requires used { class ≢ Class.Free }
    requires group { IsGroup set.old members.now }
    requires position { position < 4 }
    requires rebuilding { IsRebuilding set.old.health }
    requires next { member members.now position ≡ next_place set.old }
    requires scratch { scratch.old.geometry ≡ set.old.geometry }

    ensures answer { WritesRows class set.old set.new members.now result }
    ensures writes { WritesNext set.old set.new }
    // Exactly these accesses are made, the rows in ascending order.
    ensures plan { CarriesOut (member_plan class members.now position (rows_of set.old.geometry)) set.old set.new }
    ensures stopped { result ≢ RowOutcome.Done → StopsAtRow class set.old set.new members.now position }

    ensures scratch { scratch.new.geometry ≡ scratch.old.geometry }
{
    for row in 0..set.geometry().rows() {
        match write_row(set, class, members, position, row, scratch) {
            RowOutcome::Done => {}
            RowOutcome::GivenUp => return RowOutcome::GivenUp,
            RowOutcome::Broken => return RowOutcome::Broken,
        }
    }
    RowOutcome::Done
}

// Writes a row of it: a mirrored member's from the other member of its pair, one with parity as the sum of the others.
fn write_row<D: Disk>(
    set: &mut DiskSet<D>,
    class: Class,
    members: &Members,
    position: u8,
    row: u16,
    scratch: &mut Scratch,
) -> RowOutcome
    requires used { class ≢ Class.Free }
    requires group { IsGroup set.old members.now }
    requires position { position < 4 }
    requires row { row < rows_of set.old.geometry }
    requires rebuilding { IsRebuilding set.old.health }
    requires next { member members.now position ≡ next_place set.old }
    requires scratch { scratch.old.geometry ≡ set.old.geometry }

    ensures answer { WritesRow class set.old set.new members.now position row result }
    ensures plan { CarriesOut (all_of (row_attempts class members.now position row) Stop) set.old set.new }
    ensures scratch { scratch.new.geometry ≡ scratch.old.geometry }
{
    match class {
        Class::Free => unreachable!(),
        Class::Mirrored => ar_mirror::rebuild_row(set, members, position, row, scratch),
        Class::Parity => ar_parity::rebuild_row(set, members, position, row, scratch),
    }
}
