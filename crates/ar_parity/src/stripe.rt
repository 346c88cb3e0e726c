// The write of a whole stripe. Its parity comes from the new blocks alone, so nothing is read.
ghost use Rattle.std.specs.Prelude.{◌≡◌, ◌≢◌, ℕ, ◌<◌, length};
ghost use Rattle.ar_disks.specs.Geometry.{rows_of, block_len_of};
ghost use Rattle.ar_disks.specs.Members.{member};
ghost use Rattle.ar_extents.specs.Set.{content};
ghost use Rattle.ar_extents.specs.Follows.{Follows};
ghost use Rattle.ar_extents.specs.Groups.{IsGroup, outcome_of};
ghost use Rattle.ar_extents.specs.Plans.{CarriesOut, each_of};
ghost use Rattle.ar_parity.specs.Plans.{stripe_writes, write_two};
ghost use Rattle.ar_parity.specs.Group.{ArePositions, HoldsStripe, Stands};
ghost use Rattle.ar_parity.specs.Call.{ReportsFailure};

use crate::slots::{data_at, parity_at};
use crate::steps::write;
use ar_disks::{Completion, Disk, Members, add_both_into};
use ar_extents::DiskSet;

/// Writes a whole stripe: the blocks of its three slots, in slot order, and then their XOR as its parity, each unless
/// its member is missing. Nothing is read, and what the stripe held before is of no matter. The parity is computed in
/// `first`, which is overwritten.
///
/// After `Broken`, the stripe's row has unspecified bytes.
pub fn put_stripe<D: Disk>(
    set: &mut DiskSet<D>,
    members: &Members,
    row: u16,
    first: &mut [u8],
    second: &[u8],
    third: &[u8],
) -> Completion
    requires group { IsGroup set.old members.now }
    requires row { row < rows_of set.old.geometry }
    requires first { length first.old ≡ block_len_of set.old.geometry }
    requires second { length second.now ≡ block_len_of set.old.geometry }
    requires third { length third.now ≡ block_len_of set.old.geometry }

    ensures outcome { result ≡ outcome_of set.new.health }
    ensures slots { HoldsStripe set.new members.now row first.old second.now third.now }
    // Exactly these accesses are made.
    ensures plan { CarriesOut (each_of (stripe_writes members.now row)) set.old set.new }
{
    let slot = 3 * row;
    match write_both(
        set,
        members,
        data_at(slot),
        data_at(slot + 1),
        row,
        first,
        second,
    ) {
        Completion::Done => {}
        Completion::Broken => return Completion::Broken,
    }
    add_both_into(second, third, first);
    write_both(
        set,
        members,
        data_at(slot + 2),
        parity_at(row),
        row,
        third,
        first,
    )
}

// Writes a block of a stripe, and then another, each unless its member is missing.
fn write_both<D: Disk>(
    set: &mut DiskSet<D>,
    members: &Members,
    position: u8,
    parity: u8,
    row: u16,
    from: &[u8],
    sum: &[u8],
) -> Completion
    requires group { IsGroup set.old members.now }
    requires two { ArePositions position parity }
    requires row { row < rows_of set.old.geometry }
    requires whole { length from.now ≡ block_len_of set.old.geometry }
    requires sum_whole { length sum.now ≡ block_len_of set.old.geometry }

    ensures answer { ReportsFailure set.new result }
    ensures block { Stands set.new members.now row position from.now }
    ensures parity { Stands set.new members.now row parity sum.now }
    ensures others { (i : ℕ) → i < 4 → i ≢ position → i ≢ parity
        → content set.new (member members.now i) row ≡ content set.old (member members.now i) row }
    ensures follows { Follows set.old set.new }
    ensures plan { CarriesOut (write_two members.now position parity row) set.old set.new }
{
    match write(set, members, position, row, from) {
        Completion::Done => write(set, members, parity, row, sum),
        Completion::Broken => Completion::Broken,
    }
}
