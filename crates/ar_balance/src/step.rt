// One step of balancing, done only while all disks are healthy.
ghost use Rattle.std.specs.Prelude.{◌≡◌, ◌≢◌, ◌↔◌, ◌+◌, ◌<◌, ◌≤◌, length};
ghost use Rattle.ar_disks.specs.Geometry.{block_len_of};
ghost use Rattle.ar_book.specs.Tables.{room, free_groups};
ghost use Rattle.ar_store.specs.Kept.{IsSpace};
ghost use Rattle.ar_store.specs.Spaces.{store_in};
ghost use Rattle.ar_balance.specs.Balance.{BalanceDone, gained};

use crate::choose::{loose_counts, next_members, next_shift};
use crate::form::form;
use crate::shift::shift_extent;
use ar_disks::{Block, Disk};
use ar_extents::Health;
use ar_store::{Space, Store};

/// What a step of balancing did.
#[derive(Clone, Copy, Debug, PartialEq, Eq)]
pub enum Balance {
    /// It formed a free group, with this number.
    Formed(u32),
    /// It moved an extent of a group from disk `from` to disk `to`.
    Shifted { group: u32, from: u8, to: u8 },
    /// No table changed: a disk faulted while an extent was copied, and has failed.
    GivenUp,
    /// Nothing: the allocation for a group fails.
    NoMemory,
    /// Nothing: the rule chooses nothing, or a disk has failed or is being rebuilt.
    Idle,
    /// Nothing: the array has failed.
    Broken,
}

/// Balances a store in one step, if all disks are healthy. While four disks have unassigned extents it forms a free
/// group: of the lowest of each of the four disks with the most, in order of disk. Else, if the disk with the fewest
/// and the one with the most differ by two or more, it moves the extent of the lowest group that is on the former and
/// not on the latter to the latter's lowest unassigned extent, at the same member position. Ties go to the lowest disk.
///
/// All rows of a group that isn't free are copied before its new extent is assigned. `GivenUp` says that a disk faulted
/// in that: health has changed but no table, and no row past the one that faulted is written. Only the two disks are
/// accessed, none for a free group. No block changes. Only a group that is formed needs memory.
pub fn balance_one<D: Disk>(store: &mut Store<D>) -> Balance
    ensures done { BalanceDone store.old store.new result }
    ensures broken { (result ≡ Balance.Broken) ↔ (store.new.disks.health ≡ Health.Broken) }
    ensures room { room store.new.book ≡ room store.old.book + gained store.old.book.geometry result }
{
    match store.health() {
        Health::Whole => balance_whole(&mut store.space, &mut store.block),
        Health::Out(_) | Health::Rebuilding(_, _) => Balance::Idle,
        Health::Broken => Balance::Broken,
    }
}

// The same for healthy disks.
fn balance_whole<D: Disk>(space: &mut Space<D>, block: &mut Block) -> Balance
    requires space { IsSpace (store_in space.old) }
    requires whole { space.old.disks.health ≡ Health.Whole }
    requires free { 0 < free_groups space.old.book }
    requires len { length block.old ≡ block_len_of space.old.disks.geometry }

    ensures done { BalanceDone (store_in space.old) (store_in space.new) result }
    ensures sound { space.new.disks.health ≢ Health.Broken }
    ensures tried { result ≢ Balance.Broken }
    ensures room { room space.new.book ≡ room space.old.book + gained space.old.book.geometry result }

    ensures space { IsSpace (store_in space.new) }
    ensures free { free_groups space.old.book ≤ free_groups space.new.book }
    ensures scratch { space.new.scratch.geometry ≡ space.old.scratch.geometry }
    ensures len { length block.new ≡ length block.old }
{
    let counts = loose_counts(&space.disks);
    if let Some(members) = next_members(&space.disks, &counts) {
        return form(space, members);
    }
    match next_shift(space, &counts) {
        Some(shift) => shift_extent(space, shift, block),
        None => Balance::Idle,
    }
}
