// One block moves from its home to an empty slot, which is written before the tables change.
ghost use Rattle.std.specs.Prelude.{◌≡◌, ◌≢◌, ◌↔◌, IsSome};
ghost use Rattle.ar_book.specs.Tables.{home};
ghost use Rattle.ar_book.specs.Changes.{Moved};
ghost use Rattle.ar_store.specs.Slots.{BesideHold};
ghost use Rattle.ar_store.specs.Placing.{IsVacant};
ghost use Rattle.ar_extents.specs.Plans.{CarriesOut};
ghost use Rattle.ar_store.specs.Plans.{move_plan};
ghost use Rattle.ar_moves.specs.Moves.{IfMoved, IsMovedTo, LeavesBlocks};

use ar_book::Slot;
use ar_disks::{Completion, Disk, Key};
use ar_extents::Health;
use ar_store::Store;

/// What a background move did.
#[derive(Clone, Copy, Debug, PartialEq, Eq)]
pub enum Move {
    /// It moved the block `key` to the slot `to`.
    Moved { key: Key, to: Slot },
    /// Nothing: there is no block to move, or no slot for it.
    Idle,
    /// The array has failed: two disks are missing at once.
    Broken,
}

/// Moves a block that has a home to an empty slot. If the array fails, the tables are as they were.
pub(crate) fn move_to<D: Disk>(store: &mut Store<D>, key: Key, to: Slot) -> Move
    requires placed { IsSome (home store.old.book key) }
    requires hole { IsVacant store.old.book to }
    ensures moved { IfMoved result (IsMovedTo store.old.book key to store.new.book) }
    ensures idle { result ≢ Move.Idle }
    ensures broken { (result ≡ Move.Broken) ↔ (store.new.disks.health ≡ Health.Broken) }
    ensures unmoved { result ≡ Move.Broken → store.new.book ≡ store.old.book }
    ensures beside { BesideHold store.old store.new to }
    ensures plan { CarriesOut (move_plan store.old key to) store.old.disks store.new.disks }
    ensures leaves { LeavesBlocks store.old store.new }
{
    match store.move_rb(key, to) {
        Completion::Done => Move::Moved { key, to },
        Completion::Broken => Move::Broken,
    }
}
