// A group counts its occupied slots, and is free as soon as its last block leaves. A mask of its empty slots has the
// lowest of them at once.
ghost use Rattle.std.specs.Prelude.{◌≡◌, ℕ, ◌+◌, ◌<◌, ◌≤◌, ◌*◌, is_some, count_by, slice_set, length, slice_index_or};
ghost use Rattle.std.specs.Prelude.{Some, None, IfSome, IfNone, IfOk, IsSome};
ghost use Rattle.ar_disks.specs.Members.{with_member, stands_on};
ghost use Rattle.ar_book.specs.Tables.{used, slots_of, is_free};
ghost use Rattle.ar_book.specs.Changes.{with_key, with_hole, free_group};
ghost use Rattle.ar_book.specs.Fills.{count_of};

use crate::Class;
use ar_disks::{Geometry, Key, Members, Place};
use ar_index::{Steps, clear_bit, lowest_bit, set_bit};
use std::alloc::{AllocError, Global};
use std::marker::Model;

/// The number of slots of a group of `class`: 2 a row if mirrored, 3 a row with parity, none if free.
pub(crate) fn slots_of(geometry: Geometry, class: Class) -> u16
    ensures { result ≡ slots_of geometry class }
{
    match class {
        Class::Free => 0,
        Class::Mirrored => 2 * geometry.rows(),
        Class::Parity => 3 * geometry.rows(),
    }
}

/// A group's fill, which is its number of blocks and its class as one number, and its holes (empty slots) as a mirrored
/// or a parity group.
#[derive(Clone, Copy)]
pub(crate) struct GroupCount {
    pub(crate) fill: u8,
    pub(crate) mirrored: u32,
    pub(crate) parity: u32,
}

/// A group. Whatever its class, it has entries for the slots of a parity group, the most.
#[derive(Drop)]
pub struct Group {
    class: Class,
    members: Members,
    slots: Vec<Option<Key>>,
    used: usize,
    // Bit i is set if slot i is empty, or past the last.
    empty: u64,
}

impl Model for Group {
    ghost use Rattle.ar_book.specs.Tables.{GroupState, IsMarked};

    ghost Value = { GroupState };

    ghost view = { λ g. record { class = g.class; members = g.members; slots = g.slots.items } };

    ghost invariant = { λ g. IsMarked g.slots.items g.used g.empty };
}

// Sets the block of a slot. Of `used` occupied slots before, returns how many are occupied then.
fn put(slots: &mut Vec<Option<Key>>, used: usize, slot: u16, key: Option<Key>) -> usize
    requires there { slot < length slots.old.items }
    requires used { used ≡ count_by is_some slots.old.items }
    ensures put { slots.new.items ≡ slice_set slots.old.items slot key }
    ensures used { result ≡ count_by is_some slots.new.items }
{
    let was = slots[slot as usize].is_some();
    slots[slot as usize] = key;
    match (was, key.is_some()) {
        (true, false) => used - 1,
        (false, true) => used + 1,
        _ => used,
    }
}

impl Group {
    /// A free group of `members`, with `slots` empty slots.
    pub(crate) fn new(alloc: Global, members: Members, slots: u16) -> Result<Group, AllocError>
        requires { slots ≤ 48 }
        ensures { IfOk result (λ g. g ≡ free_group members slots) }
    {
        Ok(Group {
            class: Class::Free,
            members,
            slots: vec![in alloc; None; slots as usize]?,
            used: 0,
            empty: u64::MAX,
        })
    }

    /// The group's class.
    pub(crate) fn class(&self) -> Class
        ensures { result ≡ self.now.class }
    {
        self.class
    }

    /// The group's extents.
    pub(crate) fn members(&self) -> Members
        ensures { result ≡ self.now.members }
    {
        self.members
    }

    /// Whether the group is free.
    pub(crate) fn is_free(&self) -> bool
        ensures { result ≡ is_free self.now.class }
    {
        matches!(self.class, Class::Free)
    }

    /// Whether `place` is one of the group's extents.
    pub(crate) fn stands_on(&self, place: Place) -> bool
        ensures { result ≡ stands_on self.now.members place }
    {
        let members = &self.members;
        members.first == place
            || members.second == place
            || members.third == place
            || members.fourth == place
    }

    /// The block of a slot; None if it is empty or past the last slot.
    pub(crate) fn key(&self, slot: u16) -> Option<Key>
        ensures { result ≡ slice_index_or self.now.slots slot None }
    {
        self.slots.get(slot as usize).copied().flatten()
    }

    /// The number of occupied slots.
    pub(crate) fn used(&self) -> usize
        ensures { result ≡ used self.now }
    {
        self.used
    }

    /// The group's fill and holes.
    pub(crate) fn count(&self) -> GroupCount
        requires { length self.now.slots ≤ 48 }
        ensures { result ≡ count_of self.now }
    {
        let (blocks, slots) = (self.used as u8, self.slots.len() as u32);
        match self.class {
            Class::Free => GroupCount {
                fill: blocks,
                mirrored: 0,
                parity: 0,
            },
            Class::Mirrored => GroupCount {
                fill: 64 + blocks,
                mirrored: (2 * (slots / 3)).saturating_sub(u32::from(blocks)),
                parity: 0,
            },
            Class::Parity => GroupCount {
                fill: 128 + blocks,
                mirrored: 0,
                parity: slots.saturating_sub(u32::from(blocks)),
            },
        }
    }

    /// The block of each slot.
    pub(crate) fn slots(&self) -> &[Option<Key>]
        ensures { result.now ≡ self.now.slots }
    {
        &self.slots
    }

    /// The lowest empty slot below `end`. Counts one step.
    pub(crate) fn first_hole(&self, end: u16, steps: &mut Steps) -> Option<u16>
        ensures found { IfSome result (λ i. (i < end) × (slice_index_or self.now.slots i None ≡ None)) }
        ensures least { IfSome result (λ i. (j : ℕ) → j < i → IsSome (slice_index_or self.now.slots j None)) }
        ensures none { IfNone result ((j : ℕ) → j < end → IsSome (slice_index_or self.now.slots j None)) }
        ensures counted { steps.new.count ≡ steps.old.count + 1 }
    {
        steps.tick();
        let slot = lowest_bit(self.empty);
        if slot < end { Some(slot) } else { None }
    }

    /// Puts the block `key` into a slot.
    pub(crate) fn name(&mut self, slot: u16, key: Key)
        requires { slot < length self.old.slots }
        ensures { self.new ≡ with_key self.old slot key }
    {
        self.used = put(&mut self.slots, self.used, slot, Some(key));
        self.empty = clear_bit(self.empty, slot);
    }

    /// Empties a slot. The group is free if no slot is occupied then.
    pub(crate) fn vacate(&mut self, slot: u16)
        requires { slot < length self.old.slots }
        ensures { self.new ≡ with_hole self.old slot }
    {
        self.used = put(&mut self.slots, self.used, slot, None);
        self.empty = set_bit(self.empty, slot);
        if self.used == 0 {
            self.class = Class::Free;
        }
    }

    /// Sets the group's class.
    pub(crate) fn open(&mut self, class: Class)
        ensures { self.new ≡ record self.old { class = class } }
    {
        self.class = class;
    }

    /// Replaces the extent at member `position`, 0 to 3.
    pub(crate) fn set_member(&mut self, position: u8, place: Place)
        requires { position < 4 }
        ensures { self.new ≡ record self.old { members = with_member self.old.members position place } }
    {
        self.members.set(position, place);
    }
}
