// Groups are formed of extents that no group uses. All but one can be opened for a class: the last free group is kept
// for a squeeze, which moves a full mirrored group to parity.
ghost use Rattle.std.specs.Prelude.{◌≡◌, ◌≢◌, ℕ, ◌+◌, ◌*◌, ◌<◌, ◌≤◌, ◌↔◌, length, IsTrue, IfSome, IfOk, OnErr, IsSome};
ghost use Rattle.std.specs.Prelude.{IfNone};
ghost use Rattle.ar_disks.specs.Geometry.{rows_of};
ghost use Rattle.ar_disks.specs.Members.{member, AreApart, stands_on};
ghost use Rattle.ar_book.specs.Tables.{group_in, free_groups};
ghost use Rattle.ar_book.specs.Changes.{formed, shifted};
ghost use Rattle.ar_book.specs.Choices.{IsLowestFree, IsUnused, AreUnused, OpensLowest};

use crate::index::{free_leaf, refresh};
use crate::tables::{open_class, replace_member};
use crate::{Book, Class, Group};
use ar_disks::{Members, Place};
use ar_index::Steps;
use std::alloc::AllocError;

impl Book {
    /// Forms a free group of four extents on different disks that are in no group, and returns its number, the next
    /// one. On `AllocError` nothing changes.
    pub fn form_group(&mut self, members: Members) -> Result<u32, AllocError>
        requires apart { AreApart members }
        requires unused { AreUnused self.old members }
        ensures number { IfOk result (λ group. group ≡ length self.old.groups) }
        ensures formed { IfOk result (λ _. self.new ≡ formed self.old members) }
        ensures unchanged { OnErr result (self.new ≡ self.old) }
    {
        // Read for their types' ranges, which bound the number of groups.
        let (_disk, _extent) = (members.first.disk, members.first.extent);
        let number = self.groups();
        let group = Group::new(self.alloc, members, 3 * self.geometry.rows())?;
        self.groups.push(group)?;
        if self
            .index
            .push(free_leaf(number), self.units.map())
            .is_err()
        {
            self.groups.pop_free();
            return Err(AllocError);
        }
        Ok(number)
    }

    /// Opens the lowest free group for `class`, Mirrored or Parity, and returns its number; its slots are empty. None,
    /// and nothing changes, if fewer than two groups are free.
    pub fn open_group(&mut self, class: Class, steps: &mut Steps) -> Option<u32>
        requires { class ≢ Class.Free }
        ensures when { IsSome result ↔ (2 ≤ free_groups self.old) }
        ensures opens { IfSome result (OpensLowest self.old self.new class) }
        ensures unchanged { IfNone result (self.new ≡ self.old) }
        ensures still { IfNone result (steps.new.count ≡ steps.old.count) }
        ensures few { length self.old.groups ≤ 4096 → steps.new.count ≤ steps.old.count
            + (3 * rows_of self.old.geometry + 12) }
        ensures on { steps.old.count ≤ steps.new.count }
    {
        if self.free_groups() < 2 {
            return None;
        }
        let group = self.lowest_free();
        open_class(&mut self.groups, group, class);
        refresh(
            &mut self.index,
            &self.groups,
            &self.units,
            self.geometry,
            group,
            steps,
        );
        Some(group)
    }

    /// Opens the only free group for `class`, Mirrored or Parity, and returns its number; its slots are empty. For a
    /// squeeze, which empties another group at once.
    pub fn open_last(&mut self, class: Class) -> u32
        requires class { class ≢ Class.Free }
        requires last { free_groups self.old ≡ 1 }
        ensures { OpensLowest self.old self.new class result }
    {
        let last = self.lowest_free();
        open_class(&mut self.groups, last, class);
        refresh(
            &mut self.index,
            &self.groups,
            &self.units,
            self.geometry,
            last,
            &mut Steps::new(),
        );
        last
    }

    /// The lowest free group.
    pub fn lowest_free(&self) -> u32
        requires { 0 < free_groups self.now }
        ensures { IsLowestFree self.now result }
    {
        match self.index.lowest_free() {
            Some(number) => number,
            None => unreachable!(),
        }
    }

    /// The group that contains the extent `place`, or None. At most one does.
    pub fn group_at(&self, place: Place) -> Option<u32>
        ensures there { IfSome result (λ group. group < length self.now.groups) }
        ensures found { IfSome result (λ group. IsTrue (stands_on (group_in self.now.groups group).members place)) }
        ensures none { IfNone result (IsUnused self.now place) }
    {
        for number in 0..self.groups() {
            if self.groups.at(number).stands_on(place) {
                return Some(number);
            }
        }
        None
    }

    /// Replaces the extent at member `position` (0 to 3) of a group by `place`, which is in no group and on none of the
    /// other members' disks.
    pub fn set_member(&mut self, group: u32, position: u8, place: Place)
        requires there { group < length self.old.groups }
        requires range { position < 4 }
        requires unused { IsUnused self.old place }
        requires apart { (i : ℕ) → i < 4 → i ≢ position
            → (member (group_in self.old.groups group).members i).disk ≢ place.disk }
        ensures { self.new ≡ shifted self.old group position place }
    {
        // Read for their types' ranges, which bound the number of groups.
        let (_disk, _extent) = (place.disk, place.extent);
        replace_member(&mut self.groups, group, position, place);
    }
}
