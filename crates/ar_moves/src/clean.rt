// Cleaning compacts the groups of a class: block by block the emptiest group moves into the holes of the others, until
// it is free. Each step leaves less to be done (`cleaning_left`), so cleaning ends.
ghost use Rattle.std.specs.Prelude.{◌≡◌, ◌↔◌, ◌≤◌, IfSome, IfNone};
ghost use Rattle.ar_book.specs.Tables.{free_groups};
ghost use Rattle.ar_moves.specs.Moves.{IfMoved, LeavesBlocks, IsLeft};
ghost use Rattle.ar_moves.specs.Cleaning.{CleansBlock, NamesCleaning, NamesCleaningOf, HasNothingIn, NothingToClean};
ghost use Rattle.ar_moves.specs.Cleaning.{CarriesOutCleaning};

use crate::Move;
use crate::step::move_to;
use ar_book::{Book, Class, Slot};
use ar_disks::{Disk, Key};
use ar_extents::Health;
use ar_index::Steps;
use ar_store::Store;

/// Moves one block: of the mirrored groups that have blocks, all of which fit in the holes of the others, the one with
/// the fewest is chosen, the lowest on ties, and its block in the lowest occupied slot moves to the lowest hole of the
/// others. If there is no such group, the same is tried among the parity groups; else nothing changes (`Idle`).
///
/// The block keeps its stamp; no block changes, and the other slots of its new group hold what they held. A group that
/// its last block leaves is free, and none is opened. Exactly the old slot is read, and then the new one written.
/// Nothing is allocated.
///
/// `Broken`: the array has failed, and the tables are as they were. A store that had failed before is unchanged.
pub fn clean_one<D: Disk>(store: &mut Store<D>) -> Move
    ensures moved { IfMoved result (CleansBlock store.old store.new) }
    ensures idle { result ≡ Move.Idle → IsLeft store.old store.new (NothingToClean store.old.book) }
    ensures nothing { NothingToClean store.old.book → store.new ≡ store.old }
    ensures broken { (result ≡ Move.Broken) ↔ (store.new.disks.health ≡ Health.Broken) }
    ensures unmoved { result ≡ Move.Broken → store.new.book ≡ store.old.book }
    ensures free { free_groups store.old.book ≤ free_groups store.new.book }
    ensures plan { CarriesOutCleaning store.old store.new }
    ensures leaves { LeavesBlocks store.old store.new }
{
    if let Health::Broken = store.health() {
        return Move::Broken;
    }
    match cleaning(store.book()) {
        Some((key, to)) => move_to(store, key, to),
        None => Move::Idle,
    }
}

// The block that cleaning moves, and its new slot.
fn cleaning(book: &Book) -> Option<(Key, Slot)>
    ensures names { IfSome result (λ pair. NamesCleaning book.now pair.0 pair.1) }
    ensures none { IfNone result (NothingToClean book.now) }
{
    match cleaning_of(book, Class::Mirrored) {
        Some(pair) => Some(pair),
        None => cleaning_of(book, Class::Parity),
    }
}

// The same among the groups of one class.
fn cleaning_of(book: &Book, class: Class) -> Option<(Key, Slot)>
    ensures names { IfSome result (λ pair. NamesCleaningOf book.now class pair.0 pair.1) }
    ensures none { IfNone result (HasNothingIn book.now class) }
{
    let mut steps = Steps::new();
    let group = book.emptiest(class, &mut steps)?;
    let key = book.first_block(group, &mut steps);
    Some((key, book.hole_beside(class, group, &mut steps)))
}
