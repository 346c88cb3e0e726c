// The groups, by number, with counts of the groups of each fill and of the holes of each class. By them cleaning finds
// the emptiest group, or that there is none to empty, without a walk over all groups. The counts are exact: each change
// of a group recounts that one.
ghost use Rattle.std.specs.Prelude.{◌≡◌, ◌≢◌, ℕ, ◌+◌, ◌-◌, ◌*◌, ◌/◌, ◌^◌, ◌<◌, ◌≤◌, length, [], ◌∷◌, ◌++◌, slice_set};
ghost use Rattle.std.specs.Prelude.{take, IfSome, IfNone, OnOk, OnErr};
ghost use Rattle.ar_book.specs.Tables.{group_in};
ghost use Rattle.ar_book.specs.Changes.{named, with_place_at, with_hole};
ghost use Rattle.ar_book.specs.Fills.{count_of, fill_in, fill_at, holes_by, IsLowestIn, IsRecounted};
ghost use Rattle.ar_book.specs.declared.class.Class.TheVariants.{Free};

use crate::fills::Fills;
use crate::group::GroupCount;
use crate::{Class, Group, Slot};
use ar_disks::{Key, Place};
use ar_index::Steps;
use std::alloc::{AllocError, Global};
use std::marker::Model;

/// The holes of all mirrored groups, and of all parity groups.
#[derive(Clone, Copy)]
pub(crate) struct Holes {
    pub(crate) mirrored: u32,
    pub(crate) parity: u32,
}

/// The groups, by number.
#[derive(Drop)]
pub struct Groups {
    list: Vec<Group>,
    fills: Fills,
    holes: Holes,
}

impl Model for Groups {
    ghost use Rattle.ar_book.specs.Fills.{GroupsState, IsCounted};

    ghost Value = { GroupsState };

    ghost view = { λ x. record { items = x.list.items } };

    ghost invariant = { λ x. IsCounted x.list.items x.fills.chunks x.holes.mirrored x.holes.parity };
}

// Counts a group as `count` in place of `former`.
fn recount(fills: &mut Fills, holes: &mut Holes, number: u32, former: GroupCount, count: GroupCount)
    requires there { number < 64 * length fills.old.chunks }
    requires fill { count.fill < 192 }
    requires mirrored { former.mirrored ≤ holes.old.mirrored }
    requires parity { former.parity ≤ holes.old.parity }
    requires few { (holes.old.mirrored + count.mirrored < 2 ^ 32) × (holes.old.parity + count.parity < 2 ^ 32) }
    ensures { IsRecounted fills.old.chunks holes.old number former count fills.new.chunks holes.new }
{
    fills.set(number, count.fill);
    holes.mirrored = holes.mirrored + count.mirrored - former.mirrored;
    holes.parity = holes.parity + count.parity - former.parity;
}

// Makes room for group `number`, unless there is. On `AllocError` nothing changes.
fn make_room(fills: &mut Fills, number: usize) -> Result<(), AllocError>
    requires most { number < 33554432 }
    requires next { number ≤ 64 * length fills.old.chunks }
    ensures room { OnOk result (number < 64 * length fills.new.chunks) }
    ensures same { (g : ℕ) → fill_at fills.new.chunks g ≡ fill_at fills.old.chunks g }
    ensures on { length fills.old.chunks ≤ length fills.new.chunks }
{
    if number / 64 == fills.chunks() {
        fills.add_chunk()?;
    }
    Ok(())
}

impl Groups {
    /// No groups.
    pub(crate) fn new(alloc: Global) -> Groups
        ensures { result.items ≡ [] }
    {
        Groups {
            list: Vec::new(alloc),
            fills: Fills::new(alloc),
            holes: Holes {
                mirrored: 0,
                parity: 0,
            },
        }
    }

    /// The number of groups.
    pub(crate) fn len(&self) -> usize
        ensures { result ≡ length self.now.items }
    {
        self.list.len()
    }

    /// The groups as a slice.
    pub(crate) fn list(&self) -> &[Group]
        ensures { result.now ≡ self.now.items }
    {
        &self.list
    }

    /// The group with a number.
    pub(crate) fn at(&self, number: u32) -> &Group
        requires { number < length self.now.items }
        ensures { result.now ≡ group_in self.now.items number }
    {
        &self.list[number as usize]
    }

    /// Adds a free group after the others. On `AllocError` nothing changes.
    pub(crate) fn push(&mut self, group: Group) -> Result<(), AllocError>
        requires few { length self.old.items < 33554432 }
        requires short { length group.slots ≤ 48 }
        requires free { (count_of group).fill ≡ 0 }
        ensures pushed { OnOk result (self.new.items ≡ self.old.items ++ group ∷ []) }
        ensures unchanged { OnErr result (self.new ≡ self.old) }
    {
        make_room(&mut self.fills, self.list.len())?;
        self.list.push(group)?;
        Ok(())
    }

    /// Removes the last group, which is free.
    pub(crate) fn pop_free(&mut self)
        requires some { 0 < length self.old.items }
        requires free { fill_in self.old.items (length self.old.items - 1) ≡ 0 }
        ensures { self.new.items ≡ take (length self.old.items - 1) self.old.items }
    {
        self.list.truncate(self.list.len() - 1);
    }

    /// Puts the block `key` into a slot.
    pub(crate) fn name(&mut self, slot: Slot, key: Key)
        requires group { slot.group < length self.old.items }
        requires slot { slot.slot < length (group_in self.old.items slot.group).slots }
        ensures { self.new.items ≡ named self.old.items slot key }
    {
        let group = &mut self.list[slot.group as usize];
        let former = group.count();
        group.name(slot.slot, key);
        let count = group.count();
        recount(&mut self.fills, &mut self.holes, slot.group, former, count);
    }

    /// Empties a slot. Its group is free if no slot of it is occupied then.
    pub(crate) fn vacate(&mut self, slot: Slot)
        requires group { slot.group < length self.old.items }
        requires slot { slot.slot < length (group_in self.old.items slot.group).slots }
        ensures { self.new.items
            ≡ slice_set self.old.items slot.group (with_hole (group_in self.old.items slot.group) slot.slot) }
    {
        let group = &mut self.list[slot.group as usize];
        let former = group.count();
        group.vacate(slot.slot);
        let count = group.count();
        recount(&mut self.fills, &mut self.holes, slot.group, former, count);
    }

    /// Sets the class of a group.
    pub(crate) fn open(&mut self, number: u32, class: Class)
        requires { number < length self.old.items }
        ensures { self.new.items
            ≡ slice_set self.old.items number (record (group_in self.old.items number) { class = class }) }
    {
        let group = &mut self.list[number as usize];
        let former = group.count();
        group.open(class);
        let count = group.count();
        recount(&mut self.fills, &mut self.holes, number, former, count);
    }

    /// Replaces the extent at member `position` (0 to 3) of a group.
    pub(crate) fn set_member(&mut self, number: u32, position: u8, place: Place)
        requires there { number < length self.old.items }
        requires range { position < 4 }
        ensures { self.new.items ≡ with_place_at self.old.items number position place }
    {
        let group = &mut self.list[number as usize];
        let former = group.count();
        group.set_member(position, place);
        let count = group.count();
        recount(&mut self.fills, &mut self.holes, number, former, count);
    }

    /// The number of holes in all groups of a class.
    pub(crate) fn holes(&self, class: Class) -> u32
        ensures { result ≡ holes_by class self.now.items }
    {
        match class {
            Class::Free => 0,
            Class::Mirrored => self.holes.mirrored,
            Class::Parity => self.holes.parity,
        }
    }

    /// The group with the lowest fill from `from` on and below `to`, the lowest on ties. Counts at most a step for each
    /// of these fills, for each 64 groups, and for each of 64 groups.
    pub(crate) fn lowest(&self, from: u8, to: u8, steps: &mut Steps) -> Option<u32>
        requires from { (0 < from) × (from ≤ to) }
        requires to { to ≤ 192 }
        ensures found { IfSome result (IsLowestIn (fill_in self.now.items) from to) }
        ensures none { IfNone result ((g : ℕ) → from ≤ fill_in self.now.items g
            → fill_in self.now.items g < to → ⊥) }
        ensures few { steps.new.count ≤ steps.old.count + ((to - from) + length self.now.items / 64 + 65) }
        ensures on { steps.old.count ≤ steps.new.count }
    {
        self.fills.lowest(from, to, steps)
    }
}
