// Cleaning's choice: the group with the fewest blocks is emptied, if they fit in the holes of its class's other groups.
//
// Both are counted as groups change, so no call walks over them. Kept in the search tree, the emptiest group would be
// found in no step, but each write to a new slot, and each move, would climb to the root for it, and took up to 1.8
// times as many instructions.
ghost use Rattle.std.specs.Prelude.{◌≡◌, ◌+◌, ◌*◌, ◌/◌, ◌<◌, ◌≤◌, ℕ, length, IfSome, IfNone};
ghost use Rattle.ar_disks.specs.Geometry.{rows_of};
ghost use Rattle.ar_book.specs.Book.{TablesAgree};
ghost use Rattle.ar_book.specs.Tables.{used, group_in, slots_of};
ghost use Rattle.ar_book.specs.Fills.{counted_as};
ghost use Rattle.ar_book.specs.Cleaning.{holes_of, CanBeEmptied, IsEmptiest, IsFirstBlock};
ghost use Rattle.ar_book.specs.Cleaning.{IsHoleBeside, IsOpenBeside, IsLowestHoleBeside};

use crate::group::slots_of;
use crate::{Book, Class, Slot};
use ar_disks::Key;
use ar_index::Steps;

// The fill of a group of a class that has one block.
fn one_block(class: Class) -> u8
    ensures { result ≡ (counted_as class 1 0).fill }
{
    match class {
        Class::Free => 1,
        Class::Mirrored => 65,
        Class::Parity => 129,
    }
}

impl Book {
    /// The group of a class that cleaning empties: of those that have blocks, all of which fit in the holes of the
    /// other groups of the class, the one with the fewest, the lowest on ties. None if there is none. Counts at most a
    /// step for each slot of a group, for each 64 groups, and for each of 64 groups; none if the class lacks holes.
    pub fn emptiest(&self, class: Class, steps: &mut Steps) -> Option<u32>
        ensures found { IfSome result (IsEmptiest self.now class) }
        ensures none { IfNone result ((group : ℕ) → CanBeEmptied self.now class group → ⊥) }
        ensures still { holes_of self.now class < slots_of self.now.geometry class
            → steps.new.count ≡ steps.old.count }
        ensures few { steps.new.count ≤ steps.old.count
            + (3 * rows_of self.now.geometry + length self.now.groups / 64 + 65) }
        ensures on { steps.old.count ≤ steps.new.count }
    {
        // A group's holes and blocks are its slots: so its blocks fit in the others' holes exactly if the class has at
        // least as many holes as a group has slots.
        let slots = slots_of(self.geometry, class);
        if self.groups.holes(class) < u32::from(slots) {
            return None;
        }
        let first = one_block(class);
        self.groups.lowest(first, first + slots as u8, steps)
    }

    /// The block in the lowest occupied slot of a group that has blocks. Counts a step for each slot up to it.
    pub fn first_block(&self, group: u32, steps: &mut Steps) -> Key
        requires there { group < length self.now.groups }
        requires some { 0 < used (group_in self.now.groups group) }
        ensures first { IsFirstBlock self.now group result }
        ensures few { steps.new.count ≤ steps.old.count + 3 * rows_of self.now.geometry }
        ensures on { steps.old.count ≤ steps.new.count }
    {
        for slot in 0..3 * self.geometry.rows() {
            steps.tick();
            if let Some(key) = self.key_at(Slot { group, slot }) {
                return key;
            }
        }
        unreachable!()
    }

    /// The lowest hole of a class outside `group`, which can be emptied into such holes. Counts one step.
    pub fn hole_beside(&self, class: Class, group: u32, steps: &mut Steps) -> Slot
        requires { CanBeEmptied self.now class group }
        ensures hole { IsLowestHoleBeside self.now class group result }
        ensures counted { steps.new.count ≡ steps.old.count + 1 }
    {
        let number = self.open_beside(class, group);
        match self.scan(number, steps) {
            Some(slot) => Slot {
                group: number,
                slot,
            },
            None => unreachable!(),
        }
    }

    // The lowest group of a class, but for `group`, that has a hole.
    fn open_beside(&self, class: Class, group: u32) -> u32
        requires { CanBeEmptied self.now class group }
        ensures found { IsOpenBeside self.now class group result }
        ensures sound { TablesAgree self.now }
    {
        match self.open_but(class, group) {
            Some(number) => number,
            None => unreachable!(),
        }
    }

    // The same, or None if no other group of the class has a hole.
    fn open_but(&self, class: Class, group: u32) -> Option<u32>
        requires { group < length self.now.groups }
        ensures found { IfSome result (IsOpenBeside self.now class group) }
        ensures none { IfNone result ((slot : Slot) → IsHoleBeside self.now class group slot → ⊥) }
        ensures sound { TablesAgree self.now }
    {
        let lowest = self.open(class)?;
        if lowest == group {
            self.open_after(class, group)
        } else {
            Some(lowest)
        }
    }
}
