// A squeeze demotes a whole mirrored group to a parity group, which has half as many slots again:
//
// mirrored `from`, 2 n slots: [ 0 | 1 | .. | 2n-1 ]                                      then free
//                               |   |         |      copied stripe by stripe
// parity `to`, 3 n slots:     [ 0 | 1 | .. | 2n-1 | 2n | .. | 3n-1 ]    2n.. are holes, which hold the zero block
//
// All stripes are written before the tables change, so if the array fails in a squeeze, each home stays where it was.

use crate::space::Space;
use crate::stripes::copy_group;
use ar_book::{Class, Slot};
use ar_disks::{Block, Completion, Disk};
use ar_index::Steps;

impl<D: Disk> Space<D> {
    ghost use Rattle.std.specs.Prelude.{◌≡◌, ◌≢◌, ℕ, length, None, IfSome, IfNone};
    ghost use Rattle.ar_disks.specs.Endings.{OnDone};
    ghost use Rattle.ar_disks.specs.Geometry.{block_len_of};
    ghost use Rattle.ar_disks.specs.declared.address.Key.{Key};
    ghost use Rattle.ar_extents.specs.declared.health.Health.TheVariants.{Broken};
    ghost use Rattle.ar_extents.specs.Groups.{outcome_of};
    ghost use Rattle.ar_extents.specs.Plans.{CarriesOut};
    ghost use Rattle.ar_book.specs.Tables.{home, free_groups};
    ghost use Rattle.ar_book.specs.Choices.{IsFullMirrored, IsLowestFree};
    ghost use Rattle.ar_store.specs.Store.{members_of};
    ghost use Rattle.ar_store.specs.Slots.{AllStand, KeepsContents, HoldsSources, HoldsCopies};
    ghost use Rattle.ar_store.specs.Calls.{LeavesHole, BreaksSqueeze};
    ghost use Rattle.ar_store.specs.Plans.{squeeze_plan, CarriesOutSearch};
    ghost use Rattle.ar_store.specs.Placing.{NeedsSqueeze, BySqueeze};
    ghost use Rattle.ar_store.specs.Spaces.{store_in, IsReady, Stays};

    /// Copies all blocks of the lowest full mirrored group to the only free group, which becomes a parity group and
    /// their home, and returns the first hole after them. None if the array failed; the tables are unchanged then.
    pub(crate) fn squeeze(&mut self, block: &mut Block) -> Option<Slot>
        requires ready { IsReady self.old }
        requires needs { NeedsSqueeze self.old.book }
        requires sound { self.old.disks.health ≢ Broken }
        requires whole { length block.old ≡ block_len_of self.old.disks.geometry }

        ensures hole { IfSome result (LeavesHole (store_in self.old) (store_in self.new)) }
        ensures none { IfNone result (BreaksSqueeze (store_in self.old) (store_in self.new)) }

        ensures unplaced { (k : Key) → home self.old.book k ≡ None → home self.new.book k ≡ None }
        ensures stand { AllStand (store_in self.old) (store_in self.new) }
        ensures steps { CarriesOutSearch BySqueeze (store_in self.old) (store_in self.new) }
        ensures stays { Stays self.old self.new }
        ensures len { length block.new ≡ length block.old }
    {
        let from = self.book.full_mirrored(&mut Steps::new());
        let to = self.book.lowest_free();
        match self.copy_blocks(from, to, block) {
            Completion::Done => {
                let hole = self.move_homes(from);
                self.squeezes = self.squeezes.saturating_add(1);
                Some(hole)
            }
            Completion::Broken => None,
        }
    }

    // Copies the blocks of a full mirrored group to the extents of a free one. The tables are unchanged.
    fn copy_blocks(&mut self, from: u32, to: u32, block: &mut Block) -> Completion
        requires ready { IsReady self.old }
        requires full { IsFullMirrored self.old.book from }
        requires free { IsLowestFree self.old.book to }
        requires sound { self.old.disks.health ≢ Broken }
        requires whole { length block.old ≡ block_len_of self.old.disks.geometry }

        ensures outcome { result ≡ outcome_of self.new.disks.health }
        ensures copied { OnDone result (HoldsSources (members_of (store_in self.old) from)
            (members_of (store_in self.old) to) self.old.disks self.new.disks) }
        ensures copies { OnDone result (HoldsCopies (members_of (store_in self.old) from)
            (members_of (store_in self.old) to) self.new.disks) }
        ensures plan { CarriesOut (squeeze_plan self.old.disks.geometry (members_of (store_in self.old) from)
            (members_of (store_in self.old) to)) self.old.disks self.new.disks }
        ensures keeps { KeepsContents (store_in self.old) (store_in self.new) }
        ensures stays { Stays self.old self.new }
        ensures len { length block.new ≡ length block.old }
    {
        let source = self.book.members(from);
        let target = self.book.members(to);
        copy_group(&mut self.disks, &source, &target, &mut self.scratch, block)
    }

    // Opens the only free group, which stores copies of all blocks of a full mirrored group, for parity, and makes its
    // slots their homes. Returns the first hole after them. No disk is accessed.
    fn move_homes(&mut self, from: u32) -> Slot
        requires ready { IsReady self.old }
        requires full { IsFullMirrored self.old.book from }
        requires free { free_groups self.old.book ≡ 1 }
        requires sound { self.old.disks.health ≢ Broken }
        requires copies { (to : ℕ) → IsLowestFree self.old.book to → HoldsCopies (members_of (store_in self.old) from)
            (members_of (store_in self.old) to) self.old.disks }

        ensures hole { LeavesHole (store_in self.old) (store_in self.new) result }
        ensures disks { self.new.disks ≡ self.old.disks }
        ensures unplaced { (k : Key) → home self.old.book k ≡ None → home self.new.book k ≡ None }
        ensures stand { AllStand (store_in self.old) (store_in self.new) }
        ensures stays { Stays self.old self.new }
    {
        let to = self.book.open_last(Class::Parity);
        self.book.move_group(from, to, &mut Steps::new());
        Slot {
            group: to,
            slot: 2 * self.disks.geometry().rows(),
        }
    }
}
