// A change of a home updates both tables, that of the unit and that of the group, and the search tree.
ghost use Rattle.std.specs.Prelude.{◌≡◌, ◌≢◌, ◌+◌, ◌*◌, ◌≤◌, length, None};
ghost use Rattle.std.specs.Option.{ForSome};
ghost use Rattle.ar_disks.specs.Geometry.{rows_of};
ghost use Rattle.ar_book.specs.Tables.{key_at, home, level, HasBlock, HasSlot};
ghost use Rattle.ar_book.specs.declared.class.Level.TheVariants.{Mirrored};
ghost use Rattle.ar_book.specs.Index.{oldest_in, KeepsOldest};
ghost use Rattle.ar_book.specs.Changes.{assigned, released, stamped};

use crate::index::{home_to_refresh, refresh, refresh_home, refresh_oldest};
use crate::tables::{home_in, name_slot, restamp, set_home, vacate_slot};
use crate::{Book, Slot};
use ar_disks::Key;
use ar_index::Steps;

impl Book {
    /// Makes an empty slot the home of a unit's block, and empties the home that it had.
    pub fn assign(&mut self, key: Key, slot: Slot, steps: &mut Steps)
        requires block { HasBlock self.old key }
        requires slot { HasSlot self.old slot }
        requires empty { key_at self.old slot ≡ None }
        ensures assigned { self.new ≡ assigned self.old key slot }
        ensures few { length self.old.groups ≤ 4096 → steps.new.count ≤ steps.old.count
            + (6 * rows_of self.old.geometry + 24) }
        // Half of that if the block had no home.
        ensures first { home self.old key ≡ None → length self.old.groups ≤ 4096
            → steps.new.count ≤ steps.old.count + (3 * rows_of self.old.geometry + 12) }
        ensures on { steps.old.count ≤ steps.new.count }
    {
        let former = home_in(&self.units, key);
        name_slot(&mut self.groups, slot, key);
        refresh(
            &mut self.index,
            &self.groups,
            &self.units,
            self.geometry,
            slot.group,
            steps,
        );
        vacate_slot(&mut self.groups, former);
        refresh_home(
            &mut self.index,
            &self.groups,
            &self.units,
            self.geometry,
            former,
            steps,
        );
        set_home(&mut self.units, key, Some(slot));
    }

    /// Makes an empty slot the home of a unit's block, empties the home that it had, and gives it the next write
    /// sequence number.
    pub fn place(&mut self, key: Key, slot: Slot, steps: &mut Steps)
        requires block { HasBlock self.old key }
        requires slot { HasSlot self.old slot }
        requires empty { key_at self.old slot ≡ None }
        ensures placed { self.new ≡ stamped (assigned self.old key slot) key }
        // As many steps as `assign` alone if the block wasn't at the mirrored level.
        ensures few { level self.old key ≢ Mirrored → length self.old.groups ≤ 4096
            → steps.new.count ≤ steps.old.count + (6 * rows_of self.old.geometry + 24) }
        ensures first { home self.old key ≡ None → length self.old.groups ≤ 4096
            → steps.new.count ≤ steps.old.count + (3 * rows_of self.old.geometry + 12) }
        ensures on { steps.old.count ≤ steps.new.count }
    {
        // Stamped first, the block is the newest of its group, whose oldest block then mostly stays.
        self.stamp(key, steps);
        self.assign(key, slot, steps);
    }

    /// Empties the home of a unit's block. Counts no step if it has none.
    pub fn release(&mut self, key: Key, steps: &mut Steps)
        requires { HasBlock self.old key }
        ensures released { self.new ≡ released self.old key }
        ensures still { home self.old key ≡ None → steps.new.count ≡ steps.old.count }
        ensures few { length self.old.groups ≤ 4096 → steps.new.count ≤ steps.old.count
            + (3 * rows_of self.old.geometry + 12) }
        ensures on { steps.old.count ≤ steps.new.count }
    {
        let home = home_in(&self.units, key);
        vacate_slot(&mut self.groups, home);
        refresh_home(
            &mut self.index,
            &self.groups,
            &self.units,
            self.geometry,
            home,
            steps,
        );
        set_home(&mut self.units, key, None);
    }

    /// Gives a unit's block the next write sequence number. Counts no step if the block isn't at the mirrored level, or
    /// if another block is the oldest of its group and older than that number.
    pub fn stamp(&mut self, key: Key, steps: &mut Steps)
        requires { HasBlock self.old key }
        ensures stamped { self.new ≡ stamped self.old key }
        ensures still { ForSome (home self.old key)
            (λ slot. KeepsOldest (oldest_in self.old slot.group) key self.new.puts)
            → steps.new.count ≡ steps.old.count }
        ensures unlooked { level self.old key ≢ Mirrored → steps.new.count ≡ steps.old.count }
        ensures few { length self.old.groups ≤ 4096 → steps.new.count ≤ steps.old.count
            + (3 * rows_of self.old.geometry + 12) }
        ensures on { steps.old.count ≤ steps.new.count }
    {
        self.puts = self.puts.saturating_add(1);
        let home = restamp(&mut self.units, key, self.puts);
        let changed = home_to_refresh(&self.index, home, key, self.puts);
        refresh_oldest(&mut self.index, &self.groups, &self.units, changed, steps);
    }
}
