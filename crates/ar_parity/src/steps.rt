// Single accesses of a member, to a row or a part of it. A write skips a missing member; a read beside a lost one
// succeeds, or the set has failed.
ghost use Rattle.std.specs.Prelude.{◌≡◌, ◌+◌, ◌*◌, ℕ, ◌<◌, ◌≤◌, List, length};
ghost use Rattle.ar_disks.specs.Block.{xor, part_at, with_sectors};
ghost use Rattle.ar_disks.specs.Geometry.{rows_of, block_len_of};
ghost use Rattle.ar_disks.specs.Members.{member};
ghost use Rattle.ar_extents.specs.Follows.{Keeps, KeepsBut, Anywhere, IsPlace, WorksOn};
ghost use Rattle.ar_extents.specs.Groups.{IsGroup};
ghost use Rattle.ar_extents.specs.Plans.{Attempts, CarriesOut, read_at};
ghost use Rattle.ar_parity.specs.Plans.{write_member, succeeded};
ghost use Rattle.ar_parity.specs.Group.{IsBesideLost, Stands};
ghost use Rattle.ar_disks.specs.Endings.{OnDone};
ghost use Rattle.ar_parity.specs.Call.{ReportsFailure};

use ar_disks::{Completion, Disk, Members, add_into};
use ar_extents::{DiskSet, Got, Put};

// Writes a row of the member at `position`, unless it is missing.
pub(crate) fn write<D: Disk>(
    set: &mut DiskSet<D>,
    members: &Members,
    position: u8,
    row: u16,
    from: &[u8],
) -> Completion
    requires group { IsGroup set.old members.now }
    requires position { position < 4 }
    requires row { row < rows_of set.old.geometry }
    requires whole { length from.now ≡ block_len_of set.old.geometry }
    ensures answer { ReportsFailure set.new result }
    ensures here { Stands set.new members.now row position from.now }
    ensures keeps { KeepsBut (member members.now position) row set.old set.new }
    ensures works { WorksOn (IsPlace (member members.now position)) set.old set.new }
    ensures plan { CarriesOut (write_member members.now position row) set.old set.new }
{
    match set.put(members.at(position), row, from) {
        Put::Written | Put::Missing => Completion::Done,
        Put::Broken => Completion::Broken,
    }
}

// Overwrites a part of a row of the member at `position`, from sector `first` on, unless it is missing.
pub(crate) fn write_part<D: Disk>(
    set: &mut DiskSet<D>,
    members: &Members,
    position: u8,
    row: u16,
    first: usize,
    from: &[u8],
) -> Completion
    requires group { IsGroup set.old members.now }
    requires position { position < 4 }
    requires row { row < rows_of set.old.geometry }
    requires within { 512 * first + length from.now ≤ block_len_of set.old.geometry }
    ensures answer { ReportsFailure set.new result }
    ensures here { (b : List ℕ) → Stands set.old members.now row position b
        → Stands set.new members.now row position (with_sectors b first from.now) }
    ensures keeps { KeepsBut (member members.now position) row set.old set.new }
    ensures works { WorksOn (IsPlace (member members.now position)) set.old set.new }
    ensures plan { CarriesOut (write_member members.now position row) set.old set.new }
{
    match set.put_part(members.at(position), row, first, from) {
        Put::Written | Put::Missing => Completion::Done,
        Put::Broken => Completion::Broken,
    }
}

// Reads a part of a row of a member, from sector `first` on, while another member is lost.
pub(crate) fn read_beside<D: Disk>(
    set: &mut DiskSet<D>,
    members: &Members,
    position: u8,
    row: u16,
    first: usize,
    into: &mut [u8],
) -> Completion
    requires group { IsGroup set.old members.now }
    requires below { position < 4 }
    requires beside { IsBesideLost set.old members.now position }
    requires row { row < rows_of set.old.geometry }
    requires within { 512 * first + length into.old ≤ block_len_of set.old.geometry }

    ensures answer { ReportsFailure set.new result }
    ensures bytes { OnDone result ((b : List ℕ) → Stands set.old members.now row position b
        → into.new ≡ part_at b first (length into.new)) }
    ensures health { OnDone result (set.new.health ≡ set.old.health) }
    ensures made { Attempts (read_at (member members.now position) row) (succeeded result) set.old set.new }

    ensures keeps { Keeps Anywhere set.old set.new }
    ensures works { WorksOn (IsPlace (member members.now position)) set.old set.new }
{
    match set.get_part(members.at(position), row, first, into) {
        Got::Read => Completion::Done,
        Got::Missing | Got::Broken => Completion::Broken,
    }
}

// XORs a part of a row of a member into `into` while another member is lost.
pub(crate) fn add_beside<D: Disk>(
    set: &mut DiskSet<D>,
    members: &Members,
    position: u8,
    row: u16,
    first: usize,
    into: &mut [u8],
    spare: &mut [u8],
) -> Completion
    requires group { IsGroup set.old members.now }
    requires below { position < 4 }
    requires beside { IsBesideLost set.old members.now position }
    requires row { row < rows_of set.old.geometry }
    requires within { 512 * first + length into.old ≤ block_len_of set.old.geometry }
    requires spare_room { length into.old ≤ length spare.old }

    ensures answer { ReportsFailure set.new result }
    ensures bytes { OnDone result ((b : List ℕ) → Stands set.old members.now row position b
        → into.new ≡ xor into.old (part_at b first (length into.new))) }
    ensures health { OnDone result (set.new.health ≡ set.old.health) }
    ensures made { Attempts (read_at (member members.now position) row) (succeeded result) set.old set.new }

    ensures keeps { Keeps Anywhere set.old set.new }
    ensures works { WorksOn (IsPlace (member members.now position)) set.old set.new }
{
    let spare = &mut spare[..into.len()];
    match read_beside(set, members, position, row, first, spare) {
        Completion::Done => {
            add_into(spare, into);
            Completion::Done
        }
        Completion::Broken => Completion::Broken,
    }
}
