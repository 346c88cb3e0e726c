// All blocks of a full mirrored group move to an empty parity group, slot by slot. Only then is each of the two groups
// refreshed in the search tree, once. Neither is mirrored then, so that no slot is scanned: refreshed after each move,
// the mirrored group would be scanned for each of its blocks.
ghost use Rattle.std.specs.Prelude.{◌≡◌, ◌+◌, ◌*◌, ◌≤◌, length};
ghost use Rattle.ar_disks.specs.Geometry.{rows_of};
ghost use Rattle.ar_book.specs.declared.class.Class.TheVariants.{Mirrored};
ghost use Rattle.ar_book.specs.Tables.{tables_of, slots_of};
ghost use Rattle.ar_book.specs.Changes.{moved_first, CanMove};
ghost use Rattle.ar_book.specs.Book.{TablesAgree};

use crate::group::slots_of;
use crate::index::refresh;
use crate::tables::{key_in, name_slot, set_home, vacate_slot};
use crate::{Book, Class, Groups, Slot, Units};
use ar_disks::Geometry;
use ar_index::Steps;

// Moves the blocks of a full mirrored group to the slots of an empty parity group with the same numbers. Counts a step
// for each block.
fn move_slots(
    groups: &mut Groups,
    units: &mut Units,
    geometry: Geometry,
    from: u32,
    to: u32,
    steps: &mut Steps,
)
    requires agree { TablesAgree (tables_of geometry groups.old.items units.old.entries) }
    requires can { CanMove (tables_of geometry groups.old.items units.old.entries) from to }
    ensures moved { tables_of geometry groups.new.items units.new.entries
        ≡ moved_first (tables_of geometry groups.old.items units.old.entries) from to (slots_of geometry Mirrored) }
    ensures counted { steps.new.count ≡ steps.old.count + slots_of geometry Mirrored }
{
    for slot in 0..slots_of(geometry, Class::Mirrored) {
        steps.tick();
        let source = Slot { group: from, slot };
        let target = Slot { group: to, slot };
        let Some(key) = key_in(groups.list(), source) else {
            unreachable!()
        };
        name_slot(groups, target, key);
        vacate_slot(groups, Some(source));
        set_home(units, key, Some(target));
    }
}

impl Book {
    /// Moves all blocks of the full mirrored group `from` to the slots of the empty parity group `to` with the same
    /// numbers, which become their homes. `from` is free then. A step is a slot or a node.
    pub fn move_group(&mut self, from: u32, to: u32, steps: &mut Steps)
        requires can { CanMove self.old from to }
        ensures moved { self.new ≡ moved_first self.old from to (slots_of self.old.geometry Mirrored) }
        // A step for each block that moves, and a climb for each group.
        ensures few { length self.old.groups ≤ 4096 → steps.new.count ≤ steps.old.count
            + (2 * rows_of self.old.geometry + 24) }
        ensures on { steps.old.count ≤ steps.new.count }
    {
        let (groups, units) = (&mut self.groups, &mut self.units);
        move_slots(groups, units, self.geometry, from, to, steps);
        refresh(
            &mut self.index,
            &self.groups,
            &self.units,
            self.geometry,
            to,
            steps,
        );
        refresh(
            &mut self.index,
            &self.groups,
            &self.units,
            self.geometry,
            from,
            steps,
        );
    }
}
