// One step of a rebuild, and its result.
ghost use Rattle.std.specs.Prelude.{◌≡◌};
ghost use Rattle.ar_store.specs.Slots.{AllStand, SlotsHold};
ghost use Rattle.ar_rebuild.specs.Plans.{CarriesOutRebuild};
ghost use Rattle.ar_rebuild.specs.Rebuild.{RebuildsExtent, StopsRebuild, Advances};

use crate::extent::rebuild_extent;
use ar_disks::{Disk, Place};
use ar_extents::Health;
use ar_store::Store;

/// What a step of a rebuild did.
#[derive(Clone, Copy, Debug, PartialEq, Eq)]
pub enum Rebuild {
    /// This extent (first number) of the replaced disk is done; the second is how many aren't, at least one.
    Rebuilt(u16, u16),
    /// The last extent is done, and the array is healthy.
    Finished,
    /// Nothing: no disk is being rebuilt.
    Idle,
    /// The replaced disk faulted, and counts as failed again.
    GivenUp,
    /// The array has failed.
    Broken,
}

/// Rebuilds the lowest extent of the replaced disk that isn't done. Each of its rows is written from the other members
/// of its group (the partner of a mirrored pair, the three others of a stripe), also for empty slots; an extent that is
/// unassigned or in a free group needs no write. Then it counts as done and is used again; until then no other call
/// accesses it. Each row's sources are read, and then it is written; nothing else is accessed. No memory is allocated.
///
/// Every slot and every block keeps its contents. After `Finished` the array survives the loss of any one disk again
/// (`Store::health`). `Idle` is returned exactly where nothing is being rebuilt and the array hasn't failed; `GivenUp`
/// and `Broken` count no extent as done. Only another disk than the replaced one fails the array, and an array that had
/// failed before is unchanged.
pub fn rebuild_one<D: Disk>(store: &mut Store<D>) -> Rebuild
    ensures answer { RebuildsExtent store.old.disks store.new.disks result }
    // Exactly these accesses are made, of the extent's rows in ascending order, up to the first that fails.
    ensures plan { CarriesOutRebuild store.old result store.new.disks }
    // If the step ends so, the rows below the one that failed have their contents.
    ensures stops { StopsRebuild store.old store.new.disks result }

    ensures book { store.new.book ≡ store.old.book }
    ensures stands { AllStand store.old store.new }
    ensures slots { SlotsHold store.old store.new }
    // Disks fail only by faults.
    ensures advances { Advances store.old.disks store.new.disks }
{
    match store.disks().health() {
        Health::Whole | Health::Out(_) => Rebuild::Idle,
        Health::Rebuilding(disk, extent) => {
            rebuild_extent(&mut store.space, Place { disk, extent })
        }
        Health::Broken => Rebuild::Broken,
    }
}
