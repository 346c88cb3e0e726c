// Degraded reads: a lost block is the XOR of the three others of its stripe, and a part of it that of their parts.
ghost use Rattle.std.specs.Prelude.{◌≡◌, ◌+◌, ◌*◌, ◌<◌, ◌≤◌, length};
ghost use Rattle.ar_disks.specs.Block.{xor, part_at};
ghost use Rattle.ar_disks.specs.Geometry.{rows_of, block_len_of};
ghost use Rattle.ar_disks.specs.Members.{member};
ghost use Rattle.ar_extents.specs.Set.{IsLost};
ghost use Rattle.ar_extents.specs.Follows.{Keeps, Anywhere, WorksOn};
ghost use Rattle.ar_extents.specs.Groups.{IsGroup, IsMember};
ghost use Rattle.ar_extents.specs.Plans.{AttemptsAll};
ghost use Rattle.ar_parity.specs.Plans.{two_reads, three_reads, succeeded};
ghost use Rattle.ar_parity.specs.Row.{Blocks, block};
ghost use Rattle.ar_parity.specs.Group.{ArePositions, RowAgrees};
ghost use Rattle.ar_disks.specs.Endings.{OnDone};
ghost use Rattle.ar_parity.specs.Call.{ReportsFailure};

use crate::slots::{another, highest_beside, lowest_beside};
use crate::steps::{add_beside, read_beside};
use ar_disks::{Completion, Disk, Members};
use ar_extents::DiskSet;

// Computes a part of the XOR of the two blocks of a stripe that are neither at `lost` nor at `beside`.
pub(crate) fn sum_of_two<D: Disk>(
    set: &mut DiskSet<D>,
    members: &Members,
    lost: u8,
    beside: u8,
    row: u16,
    first: usize,
    into: &mut [u8],
    spare: &mut [u8],
) -> Completion
    requires group { IsGroup set.old members.now }
    requires two { ArePositions beside lost }
    requires lost { IsLost set.old (member members.now lost) }
    requires row { row < rows_of set.old.geometry }
    requires within { 512 * first + length into.old ≤ block_len_of set.old.geometry }
    requires spare_room { length into.old ≤ length spare.old }

    ensures answer { ReportsFailure set.new result }
    ensures sum { OnDone result ((blocks : Blocks) → RowAgrees set.old members.now row blocks
        → into.new ≡ part_at (xor (block blocks beside) (block blocks lost)) first (length into.new)) }
    ensures health { OnDone result (set.new.health ≡ set.old.health) }
    ensures made { AttemptsAll (two_reads members.now lost beside row) (succeeded result) set.old set.new }

    ensures keeps { Keeps Anywhere set.old set.new }
    ensures works { WorksOn (IsMember members.now) set.old set.new }
{
    let low = lowest_beside(lost, beside);
    let high = highest_beside(lost, beside);
    match read_beside(set, members, low, row, first, into) {
        Completion::Done => add_beside(set, members, high, row, first, into, spare),
        Completion::Broken => Completion::Broken,
    }
}

// Computes a part of the lost block, from sector `first` on.
pub(crate) fn sum_of_three<D: Disk>(
    set: &mut DiskSet<D>,
    members: &Members,
    lost: u8,
    row: u16,
    first: usize,
    into: &mut [u8],
    spare: &mut [u8],
) -> Completion
    requires group { IsGroup set.old members.now }
    requires below { lost < 4 }
    requires lost { IsLost set.old (member members.now lost) }
    requires row { row < rows_of set.old.geometry }
    requires within { 512 * first + length into.old ≤ block_len_of set.old.geometry }
    requires spare_room { length into.old ≤ length spare.old }

    ensures answer { ReportsFailure set.new result }
    ensures block { OnDone result ((blocks : Blocks) → RowAgrees set.old members.now row blocks
        → into.new ≡ part_at (block blocks lost) first (length into.new)) }
    ensures health { OnDone result (set.new.health ≡ set.old.health) }
    ensures made { AttemptsAll (three_reads members.now lost row) (succeeded result) set.old set.new }

    ensures keeps { Keeps Anywhere set.old set.new }
    ensures works { WorksOn (IsMember members.now) set.old set.new }
{
    let third = another(lost);
    match sum_of_two(set, members, lost, third, row, first, into, spare) {
        Completion::Done => add_beside(set, members, third, row, first, into, spare),
        Completion::Broken => Completion::Broken,
    }
}

// Computes the lost block.
pub(crate) fn lost_block<D: Disk>(
    set: &mut DiskSet<D>,
    members: &Members,
    lost: u8,
    row: u16,
    into: &mut [u8],
    spare: &mut [u8],
) -> Completion
    requires group { IsGroup set.old members.now }
    requires below { lost < 4 }
    requires lost { IsLost set.old (member members.now lost) }
    requires row { row < rows_of set.old.geometry }
    requires whole { length into.old ≡ block_len_of set.old.geometry }
    requires spare_whole { length spare.old ≡ block_len_of set.old.geometry }

    ensures answer { ReportsFailure set.new result }
    ensures block { OnDone result ((blocks : Blocks) → RowAgrees set.old members.now row blocks
        → into.new ≡ block blocks lost) }
    ensures health { OnDone result (set.new.health ≡ set.old.health) }
    ensures made { AttemptsAll (three_reads members.now lost row) (succeeded result) set.old set.new }

    ensures keeps { Keeps Anywhere set.old set.new }
    ensures works { WorksOn (IsMember members.now) set.old set.new }
{
    sum_of_three(set, members, lost, row, 0, into, spare)
}
