// Reads and writes of slots. A write stores the block in each member of the pair that isn't missing, so that a read may
// take either.
ghost use Rattle.std.specs.Prelude.{◌≡◌, ◌<◌, length};
ghost use Rattle.ar_disks.specs.Geometry.{block_len_of};
ghost use Rattle.ar_extents.specs.Groups.{IsGroup, outcome_of};
ghost use Rattle.ar_mirror.specs.Slots.{mirror_slots_of};
ghost use Rattle.ar_extents.specs.Plans.{CarriesOut};
ghost use Rattle.ar_mirror.specs.Plans.{mirror_read, mirror_write};
ghost use Rattle.ar_mirror.specs.Holds.{Holds};
ghost use Rattle.ar_mirror.specs.Calls.{ReadsSlot, OtherMirrorSlotsHold, OtherGroupsHold};

use crate::pair::pair_of;
use ar_disks::{Completion, Disk, Members};
use ar_extents::{DiskSet, Got, Put};

/// Reads slot `slot`, below twice the rows of an extent, into `into`, a block of the set's length. It reads the first
/// member of the slot's pair or, where that one is missing or faults, the other. After `Broken`, `into` has unspecified
/// bytes.
pub fn get<D: Disk>(
    set: &mut DiskSet<D>,
    members: &Members,
    slot: u16,
    into: &mut [u8],
) -> Completion
    requires group { IsGroup set.old members.now }
    requires slot { slot < mirror_slots_of set.old.geometry }
    requires whole { length into.old ≡ block_len_of set.old.geometry }

    ensures outcome { result ≡ outcome_of set.new.health }
    ensures gives { ReadsSlot set.old set.new members.now slot into.new result }

    // Exactly these accesses are made.
    ensures plan { CarriesOut (mirror_read set.old.geometry members.now slot) set.old set.new }
{
    let pair = pair_of(set.geometry(), members, slot);
    match set.get(pair.one, pair.row, into) {
        Got::Read => Completion::Done,
        Got::Missing => match set.get(pair.other, pair.row, into) {
            Got::Read => Completion::Done,
            // Members on different disks are never both missing.
            Got::Missing | Got::Broken => Completion::Broken,
        },
        Got::Broken => Completion::Broken,
    }
}

/// Writes `from`, a block of the set's length, to slot `slot`, below twice the rows of an extent. It writes each member
/// of the slot's pair that isn't missing, the first before the other. After `Broken`, the slot's rows have unspecified
/// bytes.
pub fn put<D: Disk>(set: &mut DiskSet<D>, members: &Members, slot: u16, from: &[u8]) -> Completion
    requires group { IsGroup set.old members.now }
    requires slot { slot < mirror_slots_of set.old.geometry }
    requires whole { length from.now ≡ block_len_of set.old.geometry }

    ensures outcome { result ≡ outcome_of set.new.health }
    // In a failed set no member is usable, so this clause constrains `Done` alone.
    ensures holds { Holds set.new members.now slot from.now }
    ensures slots { OtherMirrorSlotsHold members.now slot set.old set.new }
    ensures groups { OtherGroupsHold members.now set.old set.new }

    // Exactly these accesses are made.
    ensures plan { CarriesOut (mirror_write set.old.geometry members.now slot) set.old set.new }
{
    let pair = pair_of(set.geometry(), members, slot);
    match set.put(pair.one, pair.row, from) {
        Put::Broken => Completion::Broken,
        // Where this one is missing, the other isn't.
        Put::Written | Put::Missing => match set.put(pair.other, pair.row, from) {
            Put::Broken => Completion::Broken,
            Put::Written | Put::Missing => Completion::Done,
        },
    }
}
