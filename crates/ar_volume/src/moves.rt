// Background moves of blocks: demotion to the parity level, and cleaning within a level. No block changes its contents
// unless the array fails.
ghost use Rattle.std.specs.Prelude.{◌≡◌, false};
ghost use Rattle.ar_volume.specs.Following.{ArrayFollows};
ghost use Rattle.ar_volume.specs.Image.{is_broken};
ghost use Rattle.ar_volume.specs.Moves.{DemotesOne, CleansOne};
ghost use Rattle.ar_volume.specs.Seen.{SameSeen};

use crate::Blocks;
use ar_disks::Disk;
use ar_moves::{Move, clean_one, demote_one};

impl<D: Disk> Blocks<D> {
    /// Demotes the mirrored block that was least recently written to the disks.
    pub fn demote_one(&mut self) -> Move
        ensures demotes { DemotesOne self.old result self.new }
        ensures seen { is_broken self.new ≡ false → SameSeen self.old self.new }
        ensures follows { ArrayFollows self.old self.new }
    {
        demote_one(&mut self.behind.store)
    }

    /// Moves one block out of the emptiest group that can be emptied, into the others of its class.
    pub fn clean_one(&mut self) -> Move
        ensures cleans { CleansOne self.old result self.new }
        ensures seen { is_broken self.new ≡ false → SameSeen self.old self.new }
        ensures follows { ArrayFollows self.old self.new }
    {
        clean_one(&mut self.behind.store)
    }
}
