// A hole is an empty slot of a group in use. The search tree names the lowest group that has one, and the mask of that
// group its lowest, so that no search walks over groups or slots.
ghost use Rattle.std.specs.Prelude.{◌≡◌, ◌+◌, ◌<◌, ◌≤◌, ℕ, length, drop, IfSome, IfNone};
ghost use Rattle.std.specs.Option.{option_map};
ghost use Rattle.ar_disks.specs.declared.address.Addr.{Addr};
ghost use Rattle.ar_index.specs.Choices.{search_all};
ghost use Rattle.ar_index.specs.Tree.{leaves};
ghost use Rattle.ar_book.specs.declared.class.Slot.{Slot};
ghost use Rattle.ar_book.specs.Tables.{class_of, group_in, free_groups, used};
ghost use Rattle.ar_book.specs.Choices.{IsHole, IsHoleOf, IsUpTo, HasUnplacedBlock, IsFullMirrored};
ghost use Rattle.ar_book.specs.Book.{TablesAgree};
ghost use Rattle.ar_book.specs.Cleaning.{IsOpenAfter};
ghost use Rattle.ar_book.specs.Index.{open_in, oldest_in};

use crate::group::slots_of;
use crate::index::choices_of;
use crate::{Book, Class, Slot, Summary};
use ar_index::{Steps, Tree};

// The lowest group of a class that has a hole.
fn lowest_open(index: &Tree, class: Class) -> Option<u32>
    ensures { (place : Addr → ℕ) → result ≡ open_in class (search_all place (leaves index.now)) }
{
    match class {
        Class::Free => None,
        Class::Mirrored => index.lowest_mirrored(),
        Class::Parity => index.lowest_parity(),
    }
}

// The lowest group of a class, among those after `group`, that has a hole.
fn lowest_open_after(index: &Tree, class: Class, group: usize) -> Option<u32>
    requires { group < length (leaves index.now) }
    ensures { (place : Addr → ℕ) → result ≡ open_in class (search_all place (drop (group + 1) (leaves index.now))) }
{
    match class {
        Class::Free => None,
        Class::Mirrored => index.mirrored_after(group),
        Class::Parity => index.parity_after(group),
    }
}

impl Book {
    /// What a group stores: the number of its occupied slots, the lowest empty one, and its oldest block if it is
    /// mirrored.
    pub fn summary(&self, group: u32) -> Summary
        requires { group < length self.now.groups }
        ensures used { result.used ≡ used (group_in self.now.groups group) }
        ensures found { IfSome result.lowest_hole (IsHoleOf self.now group) }
        ensures least { IfSome result.lowest_hole (λ slot. (i : ℕ) → IsHoleOf self.now group i → slot ≤ i) }
        ensures none { IfNone result.lowest_hole ((i : ℕ) → IsHoleOf self.now group i → ⊥) }
        ensures oldest { result.oldest ≡ option_map (λ age. age.key) (oldest_in self.now group) }
    {
        let choices = choices_of(
            self.groups.at(group),
            group,
            self.geometry,
            &self.units,
            &mut Steps::new(),
        );
        Summary {
            used: self.used(group),
            lowest_hole: self.lowest_hole(group),
            oldest: match choices.oldest {
                Some(age) => Some(age.key),
                None => None,
            },
        }
    }

    /// The lowest empty slot of a group, or None if each slot of its class is occupied.
    pub fn lowest_hole(&self, group: u32) -> Option<u16>
        requires { group < length self.now.groups }
        ensures found { IfSome result (IsHoleOf self.now group) }
        ensures least { IfSome result (λ slot. (i : ℕ) → IsHoleOf self.now group i → slot ≤ i) }
        ensures none { IfNone result ((i : ℕ) → IsHoleOf self.now group i → ⊥) }
    {
        self.scan(group, &mut Steps::new())
    }

    // The same, with one step counted.
    pub(crate) fn scan(&self, group: u32, steps: &mut Steps) -> Option<u16>
        requires { group < length self.now.groups }
        ensures found { IfSome result (IsHoleOf self.now group) }
        ensures least { IfSome result (λ slot. (i : ℕ) → IsHoleOf self.now group i → slot ≤ i) }
        ensures none { IfNone result ((i : ℕ) → IsHoleOf self.now group i → ⊥) }
        ensures counted { steps.new.count ≡ steps.old.count + 1 }
    {
        let group = self.groups.at(group);
        group.first_hole(slots_of(self.geometry, group.class()), steps)
    }

    /// The lowest hole of a class: the lowest empty slot of the lowest group of the class that has one. Counts one
    /// step, and none if there is no hole.
    pub fn hole(&self, class: Class, steps: &mut Steps) -> Option<Slot>
        ensures found { IfSome result (IsHole self.now class) }
        ensures least { IfSome result (λ slot. (other : Slot) → IsHole self.now class other → IsUpTo slot other) }
        ensures none { IfNone result ((other : Slot) → IsHole self.now class other → ⊥) }
        ensures counted { IfSome result (λ _. steps.new.count ≡ steps.old.count + 1) }
        ensures still { IfNone result (steps.new.count ≡ steps.old.count) }
        ensures few { steps.new.count ≤ steps.old.count + 1 }
        ensures on { steps.old.count ≤ steps.new.count }
    {
        let group = self.open(class)?;
        let slot = self.scan(group, steps)?;
        Some(Slot { group, slot })
    }

    // The lowest group of a class that has a hole.
    pub(crate) fn open(&self, class: Class) -> Option<u32>
        ensures there { IfSome result (λ group. group < length self.now.groups) }
        ensures class { IfSome result (λ group. class_of self.now group ≡ class) }
        ensures some { IfSome result (λ group. ((i : ℕ) → IsHoleOf self.now group i → ⊥) → ⊥) }
        ensures least { IfSome result (λ group. (other : Slot) → IsHole self.now class other → group ≤ other.group) }
        ensures none { IfNone result ((other : Slot) → IsHole self.now class other → ⊥) }
        ensures sound { TablesAgree self.now }
    {
        lowest_open(&self.index, class)
    }

    // The lowest group of a class, among those after `group`, that has a hole.
    pub(crate) fn open_after(&self, class: Class, group: u32) -> Option<u32>
        requires { group < length self.now.groups }
        ensures found { IfSome result (IsOpenAfter self.now class group) }
        ensures none { IfNone result ((other : Slot) → IsHole self.now class other → group < other.group → ⊥) }
    {
        lowest_open_after(&self.index, class, group as usize)
    }

    /// The lowest mirrored group, which is full. It exists if a block has no home, no group has a hole, and one group
    /// is free, as the preconditions say. Counts a step for each group up to it.
    pub fn full_mirrored(&self, steps: &mut Steps) -> u32
        requires waiting { HasUnplacedBlock self.now }
        requires mirrored { (slot : Slot) → IsHole self.now Class.Mirrored slot → ⊥ }
        requires parity { (slot : Slot) → IsHole self.now Class.Parity slot → ⊥ }
        requires free { free_groups self.now ≡ 1 }
        ensures full { IsFullMirrored self.now result }
        ensures counted { steps.new.count ≡ steps.old.count + result + 1 }
    {
        for number in 0..self.groups() {
            steps.tick();
            if matches!(self.class(number), Class::Mirrored) {
                return number;
            }
        }
        unreachable!()
    }
}
