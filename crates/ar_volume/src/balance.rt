// Balancing: new groups are formed from added disks, and extents move to them.
ghost use Rattle.std.specs.Prelude.{◌≡◌, false};
ghost use Rattle.ar_volume.specs.Balance.{BalancesOne};
ghost use Rattle.ar_volume.specs.Image.{is_broken};
ghost use Rattle.ar_volume.specs.Seen.{SameSeen};

use crate::Blocks;
use ar_balance::{Balance, balance_one};
use ar_disks::Disk;

impl<D: Disk> Blocks<D> {
    /// Performs one step of balancing. No block changes its contents unless the array fails.
    pub fn balance_one(&mut self) -> Balance
        ensures balances { BalancesOne self.old result self.new }
        ensures seen { is_broken self.new ≡ false → SameSeen self.old self.new }
    {
        balance_one(&mut self.behind.store)
    }
}
