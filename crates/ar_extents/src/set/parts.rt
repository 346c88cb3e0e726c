// Accesses of a part of a row: the same accesses as those of the whole row, on the same disks, with the same outcomes.
ghost use Rattle.std.specs.Prelude.{◌≡◌, ◌<◌, ◌≤◌, ◌+◌, ◌*◌, ◌∷◌, ◌++◌, [], map, length, vec_len};
ghost use Rattle.ar_disks.specs.Block.{with_sectors};
ghost use Rattle.ar_disks.specs.Geometry.{rows_of, block_len_of};
ghost use Rattle.ar_disks.specs.Disk.{HasPlace, ReadsPart, Writes, block_at};
ghost use Rattle.ar_extents.specs.Set.{disk_in, content, HasExtent};
ghost use Rattle.ar_extents.specs.Plans.{Attempts, read_at, write_at, access_of};
ghost use Rattle.ar_extents.specs.Access.{OthersStay, GetsPart, PutsRow, is_read, is_written};

use super::DiskSet;
use crate::log::AccessLog;
use crate::{AccessKind, Got, Put, RowAccess};
use ar_disks::{Disk, Place};

impl<D: Disk> DiskSet<D> {
    /// Reads a part of row `row` of extent `place`, from sector `first` on, into `into`. Callers pass whole sectors.
    /// The outcome and the access are those of `get`.
    pub fn get_part(&mut self, place: Place, row: u16, first: usize, into: &mut [u8]) -> Got
        requires place { HasExtent self.old place }
        requires row { row < rows_of self.old.geometry }
        requires within { 512 * first + length into.old ≤ block_len_of self.old.geometry }
        ensures answer { GetsPart self.old self.new place row first into.new result }
        ensures made { Attempts (read_at place row) (is_read result) self.old self.new }
    {
        if self.health.is_lost(place) {
            return Got::lost(self.health);
        }
        if read_part(&mut self.disks, &mut self.log, place, row, first, into) {
            return Got::Read;
        }
        self.health = self.health.after_fault(place.disk);
        Got::lost(self.health)
    }

    /// Overwrites a part of row `row` of extent `place` with `from`, from sector `first` on. Callers pass whole
    /// sectors. The row's other bytes stay or, unless it returns `Written`, are unspecified. The outcome and the access
    /// are those of `put`.
    pub fn put_part(&mut self, place: Place, row: u16, first: usize, from: &[u8]) -> Put
        requires place { HasExtent self.old place }
        requires row { row < rows_of self.old.geometry }
        requires within { 512 * first + length from.now ≤ block_len_of self.old.geometry }
        ensures answer { PutsRow self.old self.new place row
            (with_sectors (content self.old place row) first from.now) result }
        ensures made { Attempts (write_at place row) (is_written result) self.old self.new }
    {
        if self.health.is_lost(place) {
            return Put::lost(self.health);
        }
        if write_part(&mut self.disks, &mut self.log, place, row, first, from) {
            return Put::Written;
        }
        self.health = self.health.after_fault(place.disk);
        Put::lost(self.health)
    }
}

// Reads a part of a row of one disk, and logs the access; the other disks stay.
fn read_part<D: Disk>(
    disks: &mut Vec<D>,
    log: &mut AccessLog,
    place: Place,
    row: u16,
    first: usize,
    into: &mut [u8],
) -> bool
    requires exists { place.disk < vec_len disks.old }
    requires place { HasPlace (disk_in (map D.state disks.old.items) place.disk) place.extent row }
    requires within { 512 * first + length into.old
        ≤ block_len_of (disk_in (map D.state disks.old.items) place.disk).geometry }
    ensures read { ReadsPart (disk_in (map D.state disks.old.items) place.disk)
        (disk_in (map D.state disks.new.items) place.disk) place.extent row first result into.new }
    ensures others { OthersStay (map D.state disks.old.items) (map D.state disks.new.items) place.disk }
    ensures logged { log.new.accesses ≡ log.old.accesses ++ access_of (read_at place row) result ∷ [] }
{
    let disk = &mut disks[place.disk as usize];
    let answered = disk.read_part(place.extent, row, first, into);
    log.push(&RowAccess {
        place,
        row,
        kind: AccessKind::Read,
        answered,
    });
    answered
}

// Overwrites a part of a row of one disk, and logs the access; the other disks stay.
fn write_part<D: Disk>(
    disks: &mut Vec<D>,
    log: &mut AccessLog,
    place: Place,
    row: u16,
    first: usize,
    from: &[u8],
) -> bool
    requires exists { place.disk < vec_len disks.old }
    requires place { HasPlace (disk_in (map D.state disks.old.items) place.disk) place.extent row }
    requires within { 512 * first + length from.now
        ≤ block_len_of (disk_in (map D.state disks.old.items) place.disk).geometry }
    ensures written { Writes (disk_in (map D.state disks.old.items) place.disk)
        (disk_in (map D.state disks.new.items) place.disk) place.extent row result
        (with_sectors (block_at (disk_in (map D.state disks.old.items) place.disk) place.extent row) first from.now) }
    ensures others { OthersStay (map D.state disks.old.items) (map D.state disks.new.items) place.disk }
    ensures logged { log.new.accesses ≡ log.old.accesses ++ access_of (write_at place row) result ∷ [] }
{
    let disk = &mut disks[place.disk as usize];
    let answered = disk.write_part(place.extent, row, first, from);
    log.push(&RowAccess {
        place,
        row,
        kind: AccessKind::Write,
        answered,
    });
    answered
}
