// Writes of blocks to slots. The data are written before the tables change, so a fault in the write leaves no home
// without its block.

use crate::space::Space;
use crate::way::Way;
use ar_book::Slot;
use ar_disks::{Block, Completion, Disk, Key};
use ar_index::Steps;

impl<D: Disk> Space<D> {
    ghost use Rattle.std.specs.Prelude.{◌≡◌, ◌≤◌, length, Some};
    ghost use Rattle.ar_disks.specs.Geometry.{block_len_of};
    ghost use Rattle.ar_book.specs.Tables.{home, free_groups, HasBlock};
    ghost use Rattle.ar_book.specs.Changes.{assigned};
    ghost use Rattle.ar_store.specs.Slots.{BesideHold};
    ghost use Rattle.ar_store.specs.Placing.{IsVacant, IsReadyFor, put_in};
    ghost use Rattle.ar_store.specs.Store.{class_in};
    ghost use Rattle.ar_store.specs.Plans.{WritesSlotOf};
    ghost use Rattle.ar_store.specs.Spaces.{store_in, IsReady, Stays, PutsAt, PutsOn, MoveDone};

    /// Moves a block from its home `from` to the empty slot `to`, through the buffer `block`. The new slot is written
    /// before the tables drop the old one.
    pub(crate) fn move_block(
        &mut self,
        key: Key,
        from: Slot,
        to: Slot,
        block: &mut Block,
    ) -> Completion
        requires ready { IsReady self.old }
        requires home { home self.old.book key ≡ Some from }
        requires hole { IsVacant self.old.book to }
        requires whole { length block.old ≡ block_len_of self.old.disks.geometry }

        ensures done { MoveDone (store_in self.old) key to result (store_in self.new) }
        ensures free { free_groups self.old.book ≤ free_groups self.new.book }
        ensures stays { Stays self.old self.new }
        ensures len { length block.new ≡ length block.old }
    {
        let bytes = block.bytes_mut();
        match self.read_part_at(from, 0, bytes) {
            Completion::Done => self.fill(key, to, bytes),
            Completion::Broken => Completion::Broken,
        }
    }

    // Writes a block to an empty slot, which becomes its home.
    fn fill(&mut self, key: Key, to: Slot, from: &[u8]) -> Completion
        requires ready { IsReady self.old }
        requires block { HasBlock self.old.book key }
        requires hole { IsVacant self.old.book to }
        requires whole { length from.now ≡ block_len_of self.old.disks.geometry }

        ensures puts { PutsAt self.old self.new key (assigned self.old.book key to) from.now result }
        ensures beside { BesideHold (store_in self.old) (store_in self.new) to }
        ensures writes { WritesSlotOf (class_in (store_in self.old) to.group) to
            (store_in self.old) (store_in self.new) }
    {
        match self.write_at(to, from) {
            Completion::Done => {
                self.book.assign(key, to, &mut Steps::new());
                Completion::Done
            }
            Completion::Broken => Completion::Broken,
        }
    }

    /// Writes a block to the slot that `way` has found for it, and gives it the next write sequence number.
    pub(crate) fn write(&mut self, key: Key, way: Way, from: &[u8]) -> Completion
        requires ready { IsReady self.old }
        requires block { HasBlock self.old.book key }
        requires way { IsReadyFor (store_in self.old) key way }
        requires whole { length from.now ≡ block_len_of self.old.disks.geometry }

        ensures { PutsOn self.old self.new key way from.now result }
    {
        match way {
            Way::Home(slot) => self.rewrite_part(key, slot, 0, from),
            Way::Hole(slot) => self.put_in(key, slot, from),
            Way::Broken => Completion::Broken,
        }
    }

    // Writes a block to an empty slot, which becomes its home, and gives it the next write sequence number.
    fn put_in(&mut self, key: Key, vacant: Slot, from: &[u8]) -> Completion
        requires ready { IsReady self.old }
        requires block { HasBlock self.old.book key }
        requires hole { IsVacant self.old.book vacant }
        requires whole { length from.now ≡ block_len_of self.old.disks.geometry }

        ensures puts { PutsAt self.old self.new key (put_in self.old.book key vacant) from.now result }
        ensures beside { BesideHold (store_in self.old) (store_in self.new) vacant }
        ensures writes { WritesSlotOf (class_in (store_in self.old) vacant.group) vacant
            (store_in self.old) (store_in self.new) }
    {
        match self.write_at(vacant, from) {
            Completion::Done => {
                self.book.place(key, vacant, &mut Steps::new());
                Completion::Done
            }
            Completion::Broken => Completion::Broken,
        }
    }
}
