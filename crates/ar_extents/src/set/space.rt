// The allocation of unassigned (`loose`) extents, lowest first. An extent is assigned from `take` to `give`.
ghost use Rattle.std.specs.Prelude.{◌≡◌, ◌<◌, length, true, false, IfSome};
ghost use Rattle.ar_extents.specs.Set.{HasExtent};
ghost use Rattle.ar_extents.specs.Loose.{is_loose, loose_count, lowest_loose, taken, given};

use super::DiskSet;
use ar_disks::{Disk, Place};

impl<D: Disk> DiskSet<D> {
    /// The number of unassigned extents of a disk.
    pub fn loose(&self, disk: u8) -> u16
        requires { disk < length self.now.disks }
        ensures { result ≡ loose_count self.now disk }
    {
        self.loose[disk as usize].count()
    }

    /// The extent that `take` would take: the lowest unassigned one of the disk, or None.
    pub fn lowest_loose(&self, disk: u8) -> Option<u16>
        requires { disk < length self.now.disks }
        ensures lowest { result ≡ lowest_loose self.now disk }
        ensures exists { IfSome result (λ extent. extent < self.now.extents) }
    {
        self.loose[disk as usize].lowest()
    }

    /// Takes the lowest unassigned extent of the disk; it is assigned from then on. None if there is none.
    pub fn take(&mut self, disk: u8) -> Option<u16>
        requires { disk < length self.old.disks }
        ensures lowest { result ≡ lowest_loose self.old disk }
        ensures exists { IfSome result (λ extent. extent < self.old.extents) }
        ensures taken { self.new ≡ taken self.old disk result }
        ensures used { IfSome result (λ extent. is_loose self.new (record { disk = disk; extent = extent }) ≡ false) }
    {
        self.loose[disk as usize].take()
    }

    /// Makes an assigned extent unassigned.
    pub fn give(&mut self, place: Place)
        requires exists { HasExtent self.old place }
        requires used { is_loose self.old place ≡ false }
        ensures given { self.new ≡ given self.old place }
        ensures loose { is_loose self.new place ≡ true }
    {
        self.loose[place.disk as usize].give(place.extent);
    }
}
