// The groups of a disk's extents, found by one walk over all groups. With a walk for each extent the SVG of 12 disks of
// 1,024 extents took twenty times as long.
ghost use Rattle.std.specs.Prelude.{◌≡◌, ℕ, IfOk, slice_get};
ghost use Rattle.std.specs.Option.{option_map};
ghost use Rattle.ar_disks.specs.Addresses.{same_place};
ghost use Rattle.ar_disks.specs.Members.{stands_on};
ghost use Rattle.ar_picture.specs.Cells.{ListsGroups, listed};

use crate::Picture;
use ar_disks::{Members, Place};
use std::alloc::{AllocError, Global};

impl Picture {
    /// Returns for each extent of a disk the number of the lowest group that has it, or `None` if it is unassigned.
    /// Fails only when out of memory.
    pub(crate) fn groups_of_disk(
        &self,
        alloc: Global,
        disk: u8,
    ) -> Result<Vec<Option<usize>>, AllocError>
        ensures { IfOk result (λ numbers. ListsGroups self.now disk numbers.items) }
    {
        let mut numbers = vec![in alloc; None; usize::from(self.extents)]?;
        for (number, group) in self.groups.iter().enumerate() {
            list_group(&mut numbers, disk, number, &group.members);
        }
        Ok(numbers)
    }
}

// Lists a group at those of its extents that are on a disk and have no lower group.
fn list_group(numbers: &mut Vec<Option<usize>>, disk: u8, number: usize, members: &Members)
    ensures { (extent : ℕ) → slice_get numbers.new.items extent ≡ option_map
        (listed (stands_on members.now (record { disk = disk; extent = extent })) number)
        (slice_get numbers.old.items extent) }
{
    list_member(numbers, disk, number, members.first);
    list_member(numbers, disk, number, members.second);
    list_member(numbers, disk, number, members.third);
    list_member(numbers, disk, number, members.fourth);
}

// Lists a group at one of its extents.
fn list_member(numbers: &mut Vec<Option<usize>>, disk: u8, number: usize, place: Place)
    ensures { (extent : ℕ) → slice_get numbers.new.items extent ≡ option_map
        (listed (same_place place (record { disk = disk; extent = extent })) number)
        (slice_get numbers.old.items extent) }
{
    let extent = usize::from(place.extent);
    if place.disk == disk && extent < numbers.len() && numbers[extent].is_none() {
        numbers[extent] = Some(number);
    }
}
