// Demotion: the least recently written mirrored block moves to the parity level. AutoRAID's choice of it is
// approximate; this one is exact.
ghost use Rattle.std.specs.Prelude.{◌≡◌};
ghost use Rattle.ar_book.specs.declared.class.Class.TheVariants.{Parity};
ghost use Rattle.ar_store.specs.Kept.{IsKept};
ghost use Rattle.ar_store.specs.Placing.{HasNoHole};
ghost use Rattle.ar_moves.specs.Moves.{IfMoved, IsLeft};
ghost use Rattle.ar_moves.specs.Demotion.{IsOldestMirrored, DemotesBlock, DemotesTo, NamesNoSlot, NamesNoDemotion};
ghost use Rattle.ar_moves.specs.Demotion.{DemotionDone};

use crate::Move;
use crate::step::move_to;
use ar_book::{Class, Slot};
use ar_disks::{Disk, Key};
use ar_extents::Health;
use ar_index::Steps;
use ar_store::{Opening, Store};

/// Demotes the mirrored block with the least write sequence number (`stamp`) to the lowest parity hole. If there is
/// none and two groups are free, the lowest is opened for parity and filled with zeros, and the block moves to its
/// first slot; else nothing changes (`Idle`).
///
/// The block keeps its stamp; no block changes, and the other slots of its new group hold what they held. Exactly these
/// accesses are made: the group that is opened is filled, the old slot read, and then the new one written. Nothing is
/// allocated.
///
/// `Broken`: the array has failed. A group that the rule opens is open then, and every block has its old home. A store
/// that had failed before is unchanged.
pub fn demote_one<D: Disk>(store: &mut Store<D>) -> Move
    ensures moved { IfMoved result (DemotesBlock store.old store.new) }
    ensures idle { result ≡ Move.Idle → IsLeft store.old store.new (NamesNoDemotion store.old.book) }
    ensures nothing { NamesNoDemotion store.old.book → store.new ≡ store.old }
    ensures done { DemotionDone store.old result store.new }
{
    if let Health::Broken = store.health() {
        return Move::Broken;
    }
    match store.book().oldest_mirrored() {
        Some(key) => demote(store, key),
        None => Move::Idle,
    }
}

// Demotes the oldest mirrored block.
fn demote<D: Disk>(store: &mut Store<D>, key: Key) -> Move
    requires kept { IsKept store.old }
    requires oldest { IsOldestMirrored store.old.book key }
    ensures moved { IfMoved result (DemotesTo store.old key store.new) }
    ensures idle { result ≡ Move.Idle → IsLeft store.old store.new (NamesNoSlot store.old.book) }
    ensures nothing { NamesNoSlot store.old.book → store.new ≡ store.old }
    ensures done { DemotionDone store.old result store.new }
{
    match store.book().hole(Class::Parity, &mut Steps::new()) {
        Some(to) => move_to(store, key, to),
        None => demote_to_new(store, key),
    }
}

// Demotes the oldest mirrored block to a group that is opened for it, as there is no parity hole.
fn demote_to_new<D: Disk>(store: &mut Store<D>, key: Key) -> Move
    requires kept { IsKept store.old }
    requires oldest { IsOldestMirrored store.old.book key }
    requires none { HasNoHole store.old.book Parity }

    ensures moved { IfMoved result (DemotesTo store.old key store.new) }
    ensures idle { result ≡ Move.Idle → IsLeft store.old store.new (NamesNoSlot store.old.book) }
    ensures nothing { NamesNoSlot store.old.book → store.new ≡ store.old }
    ensures done { DemotionDone store.old result store.new }
{
    match store.open_group(Class::Parity) {
        Opening::Opened(group) => move_to(store, key, Slot { group, slot: 0 }),
        Opening::Idle => Move::Idle,
        Opening::Broken => Move::Broken,
    }
}
