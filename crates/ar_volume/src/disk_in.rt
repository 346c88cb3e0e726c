// Addition and replacement of disks. No block changes its contents.
ghost use Rattle.std.specs.Prelude.{◌≡◌, false};
ghost use Rattle.ar_volume.specs.DiskIn.{AddsDisk, ReplacesDisk};
ghost use Rattle.ar_volume.specs.Image.{is_broken};
ghost use Rattle.ar_volume.specs.Seen.{SameSeen};

use crate::{Blocks, NewDisk, Refusal};
use ar_disks::Disk;

impl<D: Disk> Blocks<D> {
    /// Adds a disk with all its extents unassigned. An error gives it back and changes nothing.
    pub fn add(&mut self, disk: NewDisk<D>) -> Result<(), (Refusal, NewDisk<D>)>
        ensures adds { AddsDisk self.old disk result self.new }
        ensures seen { is_broken self.new ≡ false → SameSeen self.old self.new }
    {
        match self.behind.store.add(disk.into_disk()) {
            Ok(()) => Ok(()),
            Err((refusal, disk)) => Err((Refusal::Disk(refusal), NewDisk::new(disk))),
        }
    }
}

impl<D: Disk + Drop> Blocks<D> {
    /// Puts `disk` in the place of the failed disk `number`, which is dropped, and starts its rebuild. An error gives
    /// `disk` back and changes nothing.
    pub fn replace(&mut self, number: u8, disk: NewDisk<D>) -> Result<(), (Refusal, NewDisk<D>)>
        ensures replaces { ReplacesDisk self.old number disk result self.new }
        ensures seen { is_broken self.new ≡ false → SameSeen self.old self.new }
    {
        match self.behind.store.replace(number, disk.into_disk()) {
            Ok(()) => Ok(()),
            Err((refusal, disk)) => Err((Refusal::Disk(refusal), NewDisk::new(disk))),
        }
    }
}
