// The rebuild of a replaced disk.
ghost use Rattle.std.specs.Prelude.{◌≡◌, false};
ghost use Rattle.ar_volume.specs.Rebuild.{RebuildsOne};
ghost use Rattle.ar_volume.specs.Image.{is_broken};
ghost use Rattle.ar_volume.specs.Seen.{SameSeen};

use crate::Blocks;
use ar_disks::Disk;
use ar_rebuild::{Rebuild, rebuild_one};

impl<D: Disk> Blocks<D> {
    /// Rebuilds the lowest extent of the replaced disk that isn't done. No block changes its contents unless the array
    /// fails.
    pub fn rebuild_one(&mut self) -> Rebuild
        ensures rebuilds { RebuildsOne self.old result self.new }
        ensures seen { is_broken self.new ≡ false → SameSeen self.old self.new }
    {
        rebuild_one(&mut self.behind.store)
    }
}
