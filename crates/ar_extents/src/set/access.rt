// Row accesses. A lost extent isn't accessed, a read changes no row, and a write changes its own row alone.
ghost use Rattle.std.specs.Prelude.{◌≡◌, ◌<◌, ◌∷◌, ◌++◌, [], map, length, vec_len};
ghost use Rattle.ar_disks.specs.Geometry.{rows_of, block_len_of};
ghost use Rattle.ar_disks.specs.Disk.{HasPlace, Reads, Writes};
ghost use Rattle.ar_extents.specs.Set.{disk_in, HasExtent};
ghost use Rattle.ar_extents.specs.Health.{IsRebuilding};
ghost use Rattle.ar_extents.specs.Plans.{Attempts, read_at, write_at, rebuild_at, access_of};
ghost use Rattle.ar_extents.specs.Access.{OthersStay, Gets, PutsRow, PutsNew, is_read, is_written, is_new_written};
ghost use Rattle.ar_extents.specs.Access.{next_place};

use super::DiskSet;
use crate::log::AccessLog;
use crate::{AccessKind, Got, Health, Put, PutNew, RowAccess};
use ar_disks::{Disk, Place};

impl<D: Disk> DiskSet<D> {
    /// Reads row `row` of extent `place` into `into`, a block of the set's length. Unless it returns `Read`, `into` has
    /// unspecified bytes. A lost extent isn't accessed.
    pub fn get(&mut self, place: Place, row: u16, into: &mut [u8]) -> Got
        requires place { HasExtent self.old place }
        requires row { row < rows_of self.old.geometry }
        requires whole { length into.old ≡ block_len_of self.old.geometry }
        ensures answer { Gets self.old self.new place row into.new result }
        ensures made { Attempts (read_at place row) (is_read result) self.old self.new }
    {
        if self.health.is_lost(place) {
            return Got::lost(self.health);
        }
        if read_disk(&mut self.disks, &mut self.log, place, row, into) {
            return Got::Read;
        }
        self.health = self.health.after_fault(place.disk);
        Got::lost(self.health)
    }

    /// Writes `from`, a block of the set's length, to row `row` of extent `place`. Unless it returns `Written`, the row
    /// has unspecified bytes. A lost extent isn't accessed.
    pub fn put(&mut self, place: Place, row: u16, from: &[u8]) -> Put
        requires place { HasExtent self.old place }
        requires row { row < rows_of self.old.geometry }
        requires whole { length from.now ≡ block_len_of self.old.geometry }
        ensures answer { PutsRow self.old self.new place row from.now result }
        ensures made { Attempts (write_at place row) (is_written result) self.old self.new }
    {
        if self.health.is_lost(place) {
            return Put::lost(self.health);
        }
        if write_disk(
            &mut self.disks,
            &mut self.log,
            place,
            row,
            AccessKind::Write,
            from,
        ) {
            return Put::Written;
        }
        self.health = self.health.after_fault(place.disk);
        Put::lost(self.health)
    }

    /// Writes `from`, a block of the set's length, to row `row` of the extent that is rebuilt next. `GivenUp` reports
    /// that the new disk faulted and is `Out`; the row then has unspecified bytes.
    pub fn put_new(&mut self, row: u16, from: &[u8]) -> PutNew
        requires rebuilding { IsRebuilding self.old.health }
        requires row { row < rows_of self.old.geometry }
        requires whole { length from.now ≡ block_len_of self.old.geometry }
        ensures answer { PutsNew self.old self.new row from.now result }
        ensures made { Attempts (rebuild_at (next_place self.old) row) (is_new_written result) self.old self.new }
    {
        let Health::Rebuilding(disk, extent) = self.health else {
            unreachable!()
        };
        if write_disk(
            &mut self.disks,
            &mut self.log,
            Place { disk, extent },
            row,
            AccessKind::Rebuild,
            from,
        ) {
            return PutNew::Written;
        }
        self.health = self.health.after_fault(disk);
        PutNew::GivenUp
    }
}

// Reads a row of one disk, and logs the access; the other disks stay.
fn read_disk<D: Disk>(
    disks: &mut Vec<D>,
    log: &mut AccessLog,
    place: Place,
    row: u16,
    into: &mut [u8],
) -> bool
    requires exists { place.disk < vec_len disks.old }
    requires place { HasPlace (disk_in (map D.state disks.old.items) place.disk) place.extent row }
    requires whole { length into.old ≡ block_len_of (disk_in (map D.state disks.old.items) place.disk).geometry }
    ensures read { Reads (disk_in (map D.state disks.old.items) place.disk)
        (disk_in (map D.state disks.new.items) place.disk) place.extent row result into.new }
    ensures others { OthersStay (map D.state disks.old.items) (map D.state disks.new.items) place.disk }
    ensures logged { log.new.accesses ≡ log.old.accesses ++ access_of (read_at place row) result ∷ [] }
{
    let disk = &mut disks[place.disk as usize];
    let answered = disk.read(place.extent, row, into);
    log.push(&RowAccess {
        place,
        row,
        kind: AccessKind::Read,
        answered,
    });
    answered
}

// Writes a row of one disk, and logs the access as one of this kind; the other disks stay.
fn write_disk<D: Disk>(
    disks: &mut Vec<D>,
    log: &mut AccessLog,
    place: Place,
    row: u16,
    kind: AccessKind,
    from: &[u8],
) -> bool
    requires exists { place.disk < vec_len disks.old }
    requires place { HasPlace (disk_in (map D.state disks.old.items) place.disk) place.extent row }
    requires whole { length from.now ≡ block_len_of (disk_in (map D.state disks.old.items) place.disk).geometry }
    ensures written { Writes (disk_in (map D.state disks.old.items) place.disk)
        (disk_in (map D.state disks.new.items) place.disk) place.extent row result from.now }
    ensures others { OthersStay (map D.state disks.old.items) (map D.state disks.new.items) place.disk }
    ensures logged { log.new.accesses ≡ log.old.accesses
        ++ access_of (record { place = place; row = row; kind = kind }) result ∷ [] }
{
    let disk = &mut disks[place.disk as usize];
    let answered = disk.write(place.extent, row, from);
    log.push(&RowAccess {
        place,
        row,
        kind,
        answered,
    });
    answered
}
