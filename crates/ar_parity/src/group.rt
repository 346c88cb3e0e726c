// Reads and writes of slots. The XOR of a stripe's four blocks stays zero, with a missing member as well.
ghost use Rattle.std.specs.Prelude.{◌≡◌, ℕ, ◌*◌, ◌<◌, List, length};
ghost use Rattle.ar_disks.specs.Block.{zeros};
ghost use Rattle.ar_disks.specs.Geometry.{rows_of, block_len_of};
ghost use Rattle.ar_disks.specs.Members.{member};
ghost use Rattle.ar_extents.specs.Groups.{IsGroup, outcome_of};
ghost use Rattle.ar_extents.specs.Plans.{CarriesOut, each_of};
ghost use Rattle.ar_parity.specs.Plans.{stripes_from, parity_read};
ghost use Rattle.ar_parity.specs.Row.{row_of, data_position, zero_blocks};
ghost use Rattle.ar_parity.specs.Group.{RowAgrees, Holds, StopsOpening};
ghost use Rattle.ar_disks.specs.Endings.{OnDone};
ghost use Rattle.ar_parity.specs.Call.{UpdatesStripe, WritesOneSlot};

use crate::parts::{get_part, put_part};
use crate::zero::zero_row;
use ar_disks::{Completion, Disk, Members, Scratch};
use ar_extents::DiskSet;

/// Writes zeros to every row of the members that aren't missing, in order of the rows: every slot then holds zeros.
///
/// `Broken` reports that the set has failed; the stripe at which it failed then has unspecified bytes.
pub fn open_zero<D: Disk>(
    set: &mut DiskSet<D>,
    members: &Members,
    scratch: &mut Scratch,
) -> Completion
    requires group { IsGroup set.old members.now }
    requires scratch { scratch.old.geometry ≡ set.old.geometry }
    ensures outcome { result ≡ outcome_of set.new.health }
    ensures slots { (slot : ℕ) → slot < 3 * rows_of set.old.geometry
        → Holds set.new members.now slot (zeros (block_len_of set.old.geometry)) }
    ensures rows { (row : ℕ) → row < rows_of set.old.geometry
        → RowAgrees set.new members.now row (zero_blocks (block_len_of set.old.geometry)) }
    // The rows are written in order, up to the one at which the set failed.
    ensures stopped { result ≡ Completion.Broken → StopsOpening members.now set.old set.new }
    // Exactly these accesses are made.
    ensures plan { CarriesOut (each_of (stripes_from members.now 0 (rows_of set.old.geometry))) set.old set.new }

    ensures scratch { scratch.new.geometry ≡ scratch.old.geometry }
{
    let zero = &mut scratch.first;
    zero.zero();
    for row in 0..set.geometry().rows() {
        match zero_row(set, members, row, zero.bytes()) {
            Completion::Done => {}
            Completion::Broken => return Completion::Broken,
        }
    }
    Completion::Done
}

/// Reads slot `slot`, below three times the rows of an extent, into `into`, a block of the set's length: from its
/// member or, if that one is missing or faults, as the XOR of the stripe's three others.
///
/// After `Broken`, `into` has unspecified bytes.
pub fn get<D: Disk>(
    set: &mut DiskSet<D>,
    members: &Members,
    slot: u16,
    into: &mut [u8],
    scratch: &mut Scratch,
) -> Completion
    requires group { IsGroup set.old members.now }
    requires slot { slot < 3 * rows_of set.old.geometry }
    requires whole { length into.old ≡ block_len_of set.old.geometry }
    requires scratch { scratch.old.geometry ≡ set.old.geometry }

    ensures outcome { result ≡ outcome_of set.new.health }
    ensures gives { OnDone result ((b : List ℕ) → Holds set.old members.now slot b → into.new ≡ b) }
    // Exactly these accesses are made.
    ensures plan { CarriesOut (parity_read members.now slot) set.old set.new }

    ensures scratch { scratch.new.geometry ≡ scratch.old.geometry }
{
    get_part(set, members, slot, 0, into, scratch)
}

/// Writes `from`, a block of the set's length, to slot `slot`, below three times the rows of an extent, and updates the
/// stripe's parity, each unless its member is missing. It reads the old block and parity first (read-modify-write) or,
/// if the slot's member is missing or its read faults, the two other data blocks (reconstruct-write); if the parity is
/// missing, nothing. Every other slot keeps its block.
///
/// After `Broken`, the stripe's row in these two members has unspecified bytes.
pub fn put<D: Disk>(
    set: &mut DiskSet<D>,
    members: &Members,
    slot: u16,
    from: &[u8],
    scratch: &mut Scratch,
) -> Completion
    requires group { IsGroup set.old members.now }
    requires slot { slot < 3 * rows_of set.old.geometry }
    requires whole { length from.now ≡ block_len_of set.old.geometry }
    requires scratch { scratch.old.geometry ≡ set.old.geometry }

    ensures row { UpdatesStripe set.old set.new members.now (row_of slot) (data_position slot) from.now }
    ensures holds { (b : List ℕ) → Holds set.old members.now slot b → Holds set.new members.now slot from.now }
    // Exactly the accesses of `parity_write` are made.
    ensures writes { WritesOneSlot set.old set.new members.now slot result }

    ensures scratch { scratch.new.geometry ≡ scratch.old.geometry }
{
    put_part(set, members, slot, 0, from, scratch)
}
