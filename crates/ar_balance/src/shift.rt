// A group's extent moves to another disk. Its rows are copied before the tables change, so that a fault in the copy
// leaves the tables as they were.
ghost use Rattle.std.specs.Prelude.{◌≡◌, ◌≢◌, ℕ, ◌+◌, ◌<◌, ◌≤◌, length, IsTrue, false, Some};
ghost use Rattle.ar_disks.specs.Members.{member};
ghost use Rattle.ar_disks.specs.Geometry.{block_len_of};
ghost use Rattle.ar_extents.specs.declared.health.Health.TheVariants.{Broken};
ghost use Rattle.ar_extents.specs.Set.{HasExtent};
ghost use Rattle.ar_extents.specs.Loose.{is_loose, lowest_loose};
ghost use Rattle.ar_book.specs.declared.class.Class.TheVariants.{Free};
ghost use Rattle.ar_book.specs.Tables.{room, free_groups, class_of, group_in};
ghost use Rattle.ar_book.specs.Changes.{shifted};
ghost use Rattle.ar_book.specs.Choices.{IsUnused};
ghost use Rattle.ar_store.specs.Kept.{IsSpace};
ghost use Rattle.ar_store.specs.Spaces.{store_in};
ghost use Rattle.ar_balance.specs.Rule.{NamesShift};
ghost use Rattle.ar_balance.specs.Copies.{IsFilled, IsCutShort, IsStopped};
ghost use Rattle.ar_balance.specs.Balance.{BalanceDone, gained, switched};

use crate::Balance;
use crate::choose::Shift;
use crate::copy::copy_extent;
use ar_book::Class;
use ar_disks::{Block, Disk};
use ar_store::Space;

// Does the shift that the rule chooses.
pub(crate) fn shift_extent<D: Disk>(
    space: &mut Space<D>,
    shift: Shift,
    block: &mut Block,
) -> Balance
    requires space { IsSpace (store_in space.old) }
    requires names { NamesShift (store_in space.old) shift.group shift.position shift.from shift.to }
    requires len { length block.old ≡ block_len_of space.old.disks.geometry }

    ensures done { BalanceDone (store_in space.old) (store_in space.new) result }
    ensures sound { space.new.disks.health ≢ Broken }
    ensures tried { result ≢ Balance.Broken }
    ensures room { room space.new.book ≡ room space.old.book + gained space.old.book.geometry result }

    ensures space { IsSpace (store_in space.new) }
    ensures free { free_groups space.old.book ≤ free_groups space.new.book }
    ensures scratch { space.new.scratch.geometry ≡ space.old.scratch.geometry }
    ensures len { length block.new ≡ length block.old }
{
    // Called for its contract: the set has a mark for each extent.
    let _health = space.disks.health();
    if !fill(space, shift, block) {
        return Balance::GivenUp;
    }
    switch(space, shift);
    Balance::Shifted {
        group: shift.group,
        from: shift.from.disk,
        to: shift.to.disk,
    }
}

// Copies the extent, unless its group is free. False if one of the two disks faulted.
fn fill<D: Disk>(space: &mut Space<D>, shift: Shift, block: &mut Block) -> bool
    requires space { IsSpace (store_in space.old) }
    requires names { NamesShift (store_in space.old) shift.group shift.position shift.from shift.to }
    requires to { HasExtent space.old.disks shift.to }
    requires len { length block.old ≡ block_len_of space.old.disks.geometry }

    ensures filled { IsTrue result
        → IsFilled (class_of space.old.book shift.group) space.old.disks space.new.disks shift.from shift.to }
    ensures cut { result ≡ false → IsCutShort space.old.disks space.new.disks shift.from shift.to }
    ensures stopped { result ≡ false → IsStopped space.old.disks space.new.disks shift.from shift.to }
    ensures used { result ≡ false → class_of space.old.book shift.group ≢ Free }

    ensures book { space.new.book ≡ space.old.book }
    ensures scratch { space.new.scratch ≡ space.old.scratch }
    ensures len { length block.new ≡ length block.old }
{
    match space.book.class(shift.group) {
        Class::Free => true,
        Class::Mirrored | Class::Parity => {
            copy_extent(&mut space.disks, shift.from, shift.to, block.bytes_mut())
        }
    }
}

// Replaces the old extent by the new one in the group; the old one is unassigned then.
fn switch<D: Disk>(space: &mut Space<D>, shift: Shift)
    requires there { shift.group < length space.old.book.groups }
    requires range { shift.position < 4 }
    requires unused { IsUnused space.old.book shift.to }
    requires apart { (i : ℕ) → i < 4 → i ≢ shift.position
        → (member (group_in space.old.book.groups shift.group).members i).disk ≢ shift.to.disk }

    requires to { HasExtent space.old.disks shift.to }
    requires lowest { lowest_loose space.old.disks shift.to.disk ≡ Some shift.to.extent }
    requires from { HasExtent space.old.disks shift.from }
    requires used { is_loose space.old.disks shift.from ≡ false }

    ensures book { space.new.book ≡ shifted space.old.book shift.group shift.position shift.to }
    ensures disks { space.new.disks ≡ switched space.old.disks shift.from shift.to }
    ensures scratch { space.new.scratch ≡ space.old.scratch }
{
    space.book.set_member(shift.group, shift.position, shift.to);
    space.disks.take(shift.to.disk);
    space.disks.give(shift.from);
}
