// Failure of a disk by command.
ghost use Rattle.std.specs.Prelude.{◌≡◌, false};
ghost use Rattle.ar_volume.specs.DiskOut.{TakesDiskOut};
ghost use Rattle.ar_volume.specs.Image.{is_broken};
ghost use Rattle.ar_volume.specs.Seen.{SameSeen};

use crate::{Blocks, Refusal};
use ar_disks::Disk;

impl<D: Disk> Blocks<D> {
    /// Marks `disk` as failed. Returns an error exactly if there is no such disk, and changes nothing then.
    pub fn fail(&mut self, disk: u8) -> Result<(), Refusal>
        ensures takes_out { TakesDiskOut self.old disk result self.new }
        ensures seen { is_broken self.new ≡ false → SameSeen self.old self.new }
    {
        self.behind.store.fail(disk).map_err(Refusal::Disk)
    }
}
