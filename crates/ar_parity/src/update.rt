// The write of a part of one block of a stripe: the new part of the block and of the parity are both known before the
// first write.
ghost use Rattle.std.specs.Prelude.{◌≡◌, ◌≢◌, ℕ, ◌+◌, ◌*◌, ◌<◌, ◌≤◌, List, length};
ghost use Rattle.ar_disks.specs.Block.{part_at, with_sectors};
ghost use Rattle.ar_disks.specs.Geometry.{rows_of, block_len_of};
ghost use Rattle.ar_disks.specs.Members.{member};
ghost use Rattle.ar_extents.specs.Set.{IsLost, content};
ghost use Rattle.ar_extents.specs.Follows.{Follows};
ghost use Rattle.ar_extents.specs.Groups.{IsGroup};
ghost use Rattle.ar_extents.specs.Plans.{CarriesOut};
ghost use Rattle.ar_parity.specs.Plans.{write_two, write_known, write_lost, write_by_reading, stripe_write};
ghost use Rattle.ar_parity.specs.Row.{Blocks, block, changed, parity_position};
ghost use Rattle.ar_parity.specs.Group.{ArePositions, Stands, RowAgrees};
ghost use Rattle.ar_parity.specs.Call.{ReportsFailure, UpdatesPart};

use crate::degraded::sum_of_two;
use crate::slots::parity_at;
use crate::steps::write_part;
use ar_disks::{Completion, Disk, Members, Scratch, add_both_into, add_into};
use ar_extents::{DiskSet, Got};

// Overwrites a part of a data block, and then the same part of the parity of its stripe, each unless its member is
// missing.
fn write_both<D: Disk>(
    set: &mut DiskSet<D>,
    members: &Members,
    position: u8,
    parity: u8,
    row: u16,
    first: usize,
    from: &[u8],
    sum: &[u8],
) -> Completion
    requires group { IsGroup set.old members.now }
    requires two { ArePositions position parity }
    requires row { row < rows_of set.old.geometry }
    requires within { 512 * first + length from.now ≤ block_len_of set.old.geometry }
    requires sum_len { length sum.now ≡ length from.now }

    ensures answer { ReportsFailure set.new result }
    ensures block { (b : List ℕ) → Stands set.old members.now row position b
        → Stands set.new members.now row position (with_sectors b first from.now) }
    ensures parity { (b : List ℕ) → Stands set.old members.now row parity b
        → Stands set.new members.now row parity (with_sectors b first sum.now) }
    ensures others { (i : ℕ) → i < 4 → i ≢ position → i ≢ parity
        → content set.new (member members.now i) row ≡ content set.old (member members.now i) row }
    ensures follows { Follows set.old set.new }
    ensures plan { CarriesOut (write_two members.now position parity row) set.old set.new }
{
    match write_part(set, members, position, row, first, from) {
        Completion::Done => write_part(set, members, parity, row, first, sum),
        Completion::Broken => Completion::Broken,
    }
}

// Read-modify-write, with the old part known: reads that of the parity into `sum` and XORs the change into it. If the
// parity is missing, the part of the block alone is written.
fn update<D: Disk>(
    set: &mut DiskSet<D>,
    members: &Members,
    position: u8,
    row: u16,
    first: usize,
    from: &[u8],
    before: &[u8],
    sum: &mut [u8],
) -> Completion
    requires group { IsGroup set.old members.now }
    requires below { position < 4 }
    requires apart { position ≢ parity_position row }
    requires row { row < rows_of set.old.geometry }
    requires within { 512 * first + length from.now ≤ block_len_of set.old.geometry }
    requires before_len { length before.now ≡ length from.now }
    requires sum_len { length sum.old ≡ length from.now }

    ensures answer { ReportsFailure set.new result }
    ensures agrees { (blocks : Blocks) → RowAgrees set.old members.now row blocks
        → before.now ≡ part_at (block blocks position) first (length from.now)
        → RowAgrees set.new members.now row
        (changed blocks position (parity_position row) (with_sectors (block blocks position) first from.now)) }
    ensures plan { CarriesOut (write_known members.now position (parity_position row) row) set.old set.new }
{
    let parity = parity_at(row);
    match set.get_part(members.at(parity), row, first, sum) {
        Got::Read => {
            add_both_into(before, from, sum);
            write_both(set, members, position, parity, row, first, from, sum)
        }
        Got::Missing => write_part(set, members, position, row, first, from),
        Got::Broken => Completion::Broken,
    }
}

// Reconstruct-write of a part whose member is lost: the parity's part becomes the XOR of it and those of the stripe's
// two other blocks.
fn put_lost<D: Disk>(
    set: &mut DiskSet<D>,
    members: &Members,
    position: u8,
    row: u16,
    first: usize,
    from: &[u8],
    sum: &mut [u8],
    spare: &mut [u8],
) -> Completion
    requires group { IsGroup set.old members.now }
    requires below { position < 4 }
    requires apart { position ≢ parity_position row }
    requires lost { IsLost set.old (member members.now position) }
    requires row { row < rows_of set.old.geometry }
    requires within { 512 * first + length from.now ≤ block_len_of set.old.geometry }
    requires sum_len { length sum.old ≡ length from.now }
    requires spare_len { length spare.old ≡ length from.now }

    ensures answer { ReportsFailure set.new result }
    ensures changes { UpdatesPart set.old set.new members.now row position first from.now }
    ensures plan { CarriesOut (write_lost members.now position (parity_position row) row) set.old set.new }
{
    let parity = parity_at(row);
    match sum_of_two(set, members, position, parity, row, first, sum, spare) {
        Completion::Done => {
            add_into(from, sum);
            write_part(set, members, parity, row, first, sum)
        }
        Completion::Broken => Completion::Broken,
    }
}

// Overwrites a part by what the stripe stores: reads the old part or, if its member is missing, those of the two other
// blocks.
fn change_by_reading<D: Disk>(
    set: &mut DiskSet<D>,
    members: &Members,
    position: u8,
    row: u16,
    first: usize,
    from: &[u8],
    old: &mut [u8],
    sum: &mut [u8],
) -> Completion
    requires group { IsGroup set.old members.now }
    requires below { position < 4 }
    requires apart { position ≢ parity_position row }
    requires row { row < rows_of set.old.geometry }
    requires within { 512 * first + length from.now ≤ block_len_of set.old.geometry }
    requires old_whole { length old.old ≡ block_len_of set.old.geometry }
    requires sum_whole { length sum.old ≡ block_len_of set.old.geometry }

    ensures answer { ReportsFailure set.new result }
    ensures changes { UpdatesPart set.old set.new members.now row position first from.now }
    ensures plan { CarriesOut (write_by_reading members.now position (parity_position row) row) set.old set.new }
{
    let old = &mut old[..from.len()];
    let sum = &mut sum[..from.len()];
    match set.get_part(members.at(position), row, first, old) {
        Got::Read => update(set, members, position, row, first, from, old, sum),
        Got::Missing => put_lost(set, members, position, row, first, from, sum, old),
        Got::Broken => Completion::Broken,
    }
}

// Overwrites a part of the block at a position of a stripe, by the method that the stripe's members allow.
pub(crate) fn change<D: Disk>(
    set: &mut DiskSet<D>,
    members: &Members,
    position: u8,
    row: u16,
    first: usize,
    from: &[u8],
    scratch: &mut Scratch,
) -> Completion
    requires group { IsGroup set.old members.now }
    requires below { position < 4 }
    requires apart { position ≢ parity_position row }
    requires row { row < rows_of set.old.geometry }
    requires within { 512 * first + length from.now ≤ block_len_of set.old.geometry }
    requires scratch { scratch.old.geometry ≡ set.old.geometry }

    ensures answer { ReportsFailure set.new result }
    ensures changes { UpdatesPart set.old set.new members.now row position first from.now }
    ensures plan { CarriesOut (stripe_write members.now position (parity_position row) row) set.old set.new }
    ensures scratch { scratch.new.geometry ≡ scratch.old.geometry }
{
    if set.missing(members.at(parity_at(row))) {
        return write_part(set, members, position, row, first, from);
    }
    let (old, sum) = (scratch.first.bytes_mut(), scratch.second.bytes_mut());
    change_by_reading(set, members, position, row, first, from, old, sum)
}
