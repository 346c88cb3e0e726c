// Reads and writes of a part of a slot's block: the accesses of the whole block, on the same members.
ghost use Rattle.std.specs.Prelude.{◌≡◌, ◌<◌, ◌≤◌, ◌+◌, ◌*◌, ℕ, List, length};
ghost use Rattle.ar_disks.specs.Block.{with_sectors};
ghost use Rattle.ar_disks.specs.Geometry.{block_len_of};
ghost use Rattle.ar_extents.specs.Groups.{IsGroup, outcome_of};
ghost use Rattle.ar_extents.specs.Plans.{CarriesOut};
ghost use Rattle.ar_mirror.specs.Slots.{mirror_slots_of};
ghost use Rattle.ar_mirror.specs.Plans.{mirror_read, mirror_write};
ghost use Rattle.ar_mirror.specs.Holds.{Holds};
ghost use Rattle.ar_mirror.specs.Calls.{ReadsSlotPart, OtherMirrorSlotsHold, OtherGroupsHold};

use crate::pair::pair_of;
use ar_disks::{Completion, Disk, Members};
use ar_extents::{DiskSet, Got, Put};

/// Reads a part of the block of slot `slot`, below twice the rows of an extent, from sector `first` on, into `into`.
/// Callers pass whole sectors. It reads the members that `get` reads. After `Broken`, `into` has unspecified bytes.
pub fn get_part<D: Disk>(
    set: &mut DiskSet<D>,
    members: &Members,
    slot: u16,
    first: usize,
    into: &mut [u8],
) -> Completion
    requires group { IsGroup set.old members.now }
    requires slot { slot < mirror_slots_of set.old.geometry }
    requires within { 512 * first + length into.old ≤ block_len_of set.old.geometry }

    ensures outcome { result ≡ outcome_of set.new.health }
    ensures gives { ReadsSlotPart set.old set.new members.now slot first into.new result }

    // Exactly these accesses are made.
    ensures plan { CarriesOut (mirror_read set.old.geometry members.now slot) set.old set.new }
{
    let pair = pair_of(set.geometry(), members, slot);
    match set.get_part(pair.one, pair.row, first, into) {
        Got::Read => Completion::Done,
        Got::Missing => match set.get_part(pair.other, pair.row, first, into) {
            Got::Read => Completion::Done,
            // Members on different disks are never both missing.
            Got::Missing | Got::Broken => Completion::Broken,
        },
        Got::Broken => Completion::Broken,
    }
}

/// Overwrites a part of the block of slot `slot`, below twice the rows of an extent, with `from`, from sector `first`
/// on. Callers pass whole sectors. It writes the members that `put` writes. After `Broken`, the slot's rows have
/// unspecified bytes.
pub fn put_part<D: Disk>(
    set: &mut DiskSet<D>,
    members: &Members,
    slot: u16,
    first: usize,
    from: &[u8],
) -> Completion
    requires group { IsGroup set.old members.now }
    requires slot { slot < mirror_slots_of set.old.geometry }
    requires within { 512 * first + length from.now ≤ block_len_of set.old.geometry }

    ensures outcome { result ≡ outcome_of set.new.health }
    // In a failed set no member is usable, so this clause constrains `Done` alone.
    ensures holds { (block : List ℕ) → Holds set.old members.now slot block
        → Holds set.new members.now slot (with_sectors block first from.now) }
    ensures slots { OtherMirrorSlotsHold members.now slot set.old set.new }
    ensures groups { OtherGroupsHold members.now set.old set.new }

    // Exactly these accesses are made.
    ensures plan { CarriesOut (mirror_write set.old.geometry members.now slot) set.old set.new }
{
    let pair = pair_of(set.geometry(), members, slot);
    match set.put_part(pair.one, pair.row, first, from) {
        Put::Broken => Completion::Broken,
        // Where this one is missing, the other isn't.
        Put::Written | Put::Missing => match set.put_part(pair.other, pair.row, first, from) {
            Put::Broken => Completion::Broken,
            Put::Written | Put::Missing => Completion::Done,
        },
    }
}
