// Reads and writes of a part of a block, which needn't be read or written whole. A part is written in place: so of
// mirrored blocks, and of those at the parity level that stay there, as there is no mirrored slot for them.

use crate::Store;
use crate::space::Space;
use crate::way::lacks_mirrored_slot;
use ar_book::{Level, Slot};
use ar_disks::{Completion, Disk, Key, zero};
use ar_extents::Health;
use ar_index::Steps;

impl<D: Disk> Store<D> {
    ghost use Rattle.std.specs.Prelude.{◌≡◌, ◌+◌, ◌*◌, ◌≤◌, length, true};
    ghost use Rattle.ar_disks.specs.Block.{part_at, with_sectors};
    ghost use Rattle.ar_disks.specs.Geometry.{block_len_of};
    ghost use Rattle.ar_extents.specs.Groups.{outcome_of};
    ghost use Rattle.ar_extents.specs.Plans.{CarriesOut};
    ghost use Rattle.ar_book.specs.Tables.{HasBlock};
    ghost use Rattle.ar_store.specs.Slots.{stands, KeepsContents, OthersStand};
    ghost use Rattle.ar_store.specs.Placing.{is_put_in_place};
    ghost use Rattle.ar_store.specs.Plans.{get_plan};
    ghost use Rattle.ar_store.specs.Spaces.{PutDone};

    /// Whether a put overwrites the block of `key` in place, so that `put_part` can overwrite a part of it. It walks
    /// over no groups and no slots.
    pub fn puts_in_place(&self, key: Key) -> bool
        ensures { result ≡ is_put_in_place self.now.book key }
    {
        match self.space.book.level(key) {
            Level::Unplaced => false,
            Level::Mirrored => true,
            Level::Parity => lacks_mirrored_slot(&self.space.book),
        }
    }

    /// Reads a part of the block of `key`, from sector `first` on, into `into`. Callers pass whole sectors. The result
    /// and the accesses are those of a `get` of the block.
    pub fn get_part(&mut self, key: Key, first: usize, into: &mut [u8]) -> Completion
        requires within { 512 * first + length into.old ≤ block_len_of self.old.disks.geometry }

        ensures outcome { result ≡ outcome_of self.new.disks.health }
        ensures given { result ≡ Completion.Done → into.new ≡ part_at (stands self.old key) first (length into.old) }

        // Exactly these accesses are made.
        ensures plan { CarriesOut (get_plan self.old key) self.old.disks self.new.disks }
        ensures keeps { KeepsContents self.old self.new }
    {
        match self.space.disks.health() {
            Health::Broken => Completion::Broken,
            _ => match self.space.book.home(key) {
                Some(slot) => self.space.read_part_at(slot, first, into),
                None => {
                    zero(into);
                    Completion::Done
                }
            },
        }
    }

    /// Overwrites a part of the block of `key`, which a put overwrites in place, with `from`, from sector `first` on.
    /// Callers pass whole sectors. The result, the accesses and the changes of the tables are those of a `put` of the
    /// block with that part overwritten.
    pub fn put_part(&mut self, key: Key, first: usize, from: &[u8]) -> Completion
        requires block { HasBlock self.old.book key }
        requires in_place { is_put_in_place self.old.book key ≡ true }
        requires within { 512 * first + length from.now ≤ block_len_of self.old.disks.geometry }

        ensures done { PutDone self.old key result self.new }
        ensures put { result ≡ Completion.Done
            → stands self.new key ≡ with_sectors (stands self.old key) first from.now }
        ensures others { OthersStand self.old self.new key }
    {
        if let Health::Broken = self.space.disks.health() {
            return Completion::Broken;
        }
        let Some(slot) = self.space.book.home(key) else {
            unreachable!()
        };
        self.space.rewrite_part(key, slot, first, from)
    }
}

impl<D: Disk> Space<D> {
    ghost use Rattle.std.specs.Prelude.{◌≡◌, ◌+◌, ◌*◌, ◌≤◌, length, Some};
    ghost use Rattle.ar_disks.specs.Block.{with_sectors};
    ghost use Rattle.ar_disks.specs.Geometry.{block_len_of};
    ghost use Rattle.ar_book.specs.Tables.{home, HasBlock};
    ghost use Rattle.ar_book.specs.Changes.{stamped};
    ghost use Rattle.ar_store.specs.Store.{class_in};
    ghost use Rattle.ar_store.specs.Slots.{stands};
    ghost use Rattle.ar_store.specs.Plans.{WritesSlotOf};
    ghost use Rattle.ar_store.specs.Spaces.{store_in, IsReady, PutsAt};

    /// Overwrites a part of a block in its home, and gives the block the next write sequence number.
    pub(crate) fn rewrite_part(
        &mut self,
        key: Key,
        slot: Slot,
        first: usize,
        from: &[u8],
    ) -> Completion
        requires ready { IsReady self.old }
        requires block { HasBlock self.old.book key }
        requires home { home self.old.book key ≡ Some slot }
        requires within { 512 * first + length from.now ≤ block_len_of self.old.disks.geometry }

        ensures puts { PutsAt self.old self.new key (stamped self.old.book key)
            (with_sectors (stands (store_in self.old) key) first from.now) result }
        ensures writes { WritesSlotOf (class_in (store_in self.old) slot.group) slot
            (store_in self.old) (store_in self.new) }
    {
        match self.write_part_at(slot, first, from) {
            Completion::Done => {
                self.book.stamp(key, &mut Steps::new());
                Completion::Done
            }
            Completion::Broken => Completion::Broken,
        }
    }
}
