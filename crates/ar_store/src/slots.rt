// Reads and writes one slot, or a part of its block, by the layout of its group.

use crate::space::Space;
use ar_book::{Class, Slot};
use ar_disks::{Completion, Disk};

impl<D: Disk> Space<D> {
    ghost use Rattle.std.specs.Prelude.{◌≡◌, ◌+◌, ◌*◌, ◌≤◌, ℕ, List, length};
    ghost use Rattle.ar_disks.specs.Block.{with_sectors};
    ghost use Rattle.ar_disks.specs.Geometry.{block_len_of};
    ghost use Rattle.ar_book.specs.Tables.{HasSlot};
    ghost use Rattle.ar_store.specs.Slots.{SlotHolds, HoldsBlock};
    ghost use Rattle.ar_store.specs.Spaces.{store_in, IsReady, ReadsAt, WritesAt};

    /// Reads a part of the block that a slot holds, from sector `first` on. No row of any disk changes.
    pub(crate) fn read_part_at(&mut self, slot: Slot, first: usize, into: &mut [u8]) -> Completion
        requires ready { IsReady self.old }
        requires slot { HasSlot self.old.book slot }
        requires within { 512 * first + length into.old ≤ block_len_of self.old.disks.geometry }
        ensures { ReadsAt self.old self.new slot first into.new result }
    {
        let members = self.book.members(slot.group);
        match self.book.class(slot.group) {
            Class::Free => unreachable!(),
            Class::Mirrored => {
                ar_mirror::get_part(&mut self.disks, &members, slot.slot, first, into)
            }
            Class::Parity => ar_parity::get_part(
                &mut self.disks,
                &members,
                slot.slot,
                first,
                into,
                &mut self.scratch,
            ),
        }
    }

    /// Writes a slot.
    pub(crate) fn write_at(&mut self, slot: Slot, from: &[u8]) -> Completion
        requires ready { IsReady self.old }
        requires slot { HasSlot self.old.book slot }
        requires whole { length from.now ≡ block_len_of self.old.disks.geometry }
        ensures here { SlotHolds (store_in self.new) slot from.now }
        ensures rest { WritesAt self.old self.new slot result }
    {
        let members = self.book.members(slot.group);
        match self.book.class(slot.group) {
            Class::Free => unreachable!(),
            Class::Mirrored => ar_mirror::put(&mut self.disks, &members, slot.slot, from),
            Class::Parity => ar_parity::put(
                &mut self.disks,
                &members,
                slot.slot,
                from,
                &mut self.scratch,
            ),
        }
    }

    /// Overwrites a part of the block that a slot holds, from sector `first` on.
    pub(crate) fn write_part_at(&mut self, slot: Slot, first: usize, from: &[u8]) -> Completion
        requires ready { IsReady self.old }
        requires slot { HasSlot self.old.book slot }
        requires held { HoldsBlock (store_in self.old) slot }
        requires within { 512 * first + length from.now ≤ block_len_of self.old.disks.geometry }

        ensures here { (block : List ℕ) → SlotHolds (store_in self.old) slot block
            → SlotHolds (store_in self.new) slot (with_sectors block first from.now) }
        ensures rest { WritesAt self.old self.new slot result }
    {
        let members = self.book.members(slot.group);
        match self.book.class(slot.group) {
            Class::Free => unreachable!(),
            Class::Mirrored => {
                ar_mirror::put_part(&mut self.disks, &members, slot.slot, first, from)
            }
            Class::Parity => ar_parity::put_part(
                &mut self.disks,
                &members,
                slot.slot,
                first,
                from,
                &mut self.scratch,
            ),
        }
    }
}
