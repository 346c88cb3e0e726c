// A group is formed in the tables alone: no disk is accessed.
ghost use Rattle.std.specs.Prelude.{◌≡◌, ◌≢◌, ◌+◌, ◌<◌, ◌≤◌};
ghost use Rattle.ar_extents.specs.declared.health.Health.TheVariants.{Whole, Broken};
ghost use Rattle.ar_book.specs.Tables.{room, free_groups};
ghost use Rattle.ar_store.specs.Kept.{IsSpace};
ghost use Rattle.ar_store.specs.Spaces.{store_in};
ghost use Rattle.ar_store.specs.Forming.{AreFullest};
ghost use Rattle.ar_balance.specs.Balance.{BalanceDone, gained};

use crate::Balance;
use ar_disks::{Disk, Members};
use ar_store::{Space, take_members};

// Forms the group that the rule chooses.
pub(crate) fn form<D: Disk>(space: &mut Space<D>, members: Members) -> Balance
    requires space { IsSpace (store_in space.old) }
    requires whole { space.old.disks.health ≡ Whole }
    requires free { 0 < free_groups space.old.book }
    requires fullest { AreFullest space.old.disks members }

    ensures done { BalanceDone (store_in space.old) (store_in space.new) result }
    ensures sound { space.new.disks.health ≢ Broken }
    ensures tried { result ≢ Balance.Broken }
    ensures room { room space.new.book ≡ room space.old.book + gained space.old.book.geometry result }

    ensures space { IsSpace (store_in space.new) }
    ensures free { free_groups space.old.book ≤ free_groups space.new.book }
    ensures scratch { space.new.scratch.geometry ≡ space.old.scratch.geometry }
{
    // Called for its contract: the set has a mark for each extent.
    let _health = space.disks.health();
    match space.book.form_group(members) {
        Ok(group) => {
            take_members(&mut space.disks, members);
            Balance::Formed(group)
        }
        Err(_) => Balance::NoMemory,
    }
}
