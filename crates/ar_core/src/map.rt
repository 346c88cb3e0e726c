// Read-only views of the groups: on which extents each is stored, and how full it is.
ghost use Rattle.std.specs.Prelude.{◌≡◌, map, length, IfOk};
ghost use Rattle.ar_book.specs.Tables.{slots_of};
ghost use Rattle.ar_core.specs.Map.{view_of};

use crate::{Array, Class};
use ar_book::Book;
use ar_disks::{Disk, Geometry, Members};
use std::alloc::{AllocError, Global};

/// A group: its class, its four extents, and how many blocks it stores.
#[derive(Clone, Copy, Debug, PartialEq, Eq)]
pub struct GroupView {
    pub class: Class,
    pub members: Members,
    pub blocks: u16,
    /// The number of its slots, each for one block; a free group has none.
    pub slots: u16,
}

impl<D: Disk> Array<D> {
    /// How many disks there are, 4 to 12.
    pub fn disks(&self) -> u8
        ensures { result ≡ length self.now.store.disks.disks }
    {
        self.blocks.disks().count()
    }

    /// Lists the groups by number. An extent in none of them is unassigned (`loose`). Fails only when out of memory.
    pub fn group_views(&self, alloc: Global) -> Result<Vec<GroupView>, AllocError>
        ensures { IfOk result (λ groups. groups.items
            ≡ map (view_of self.now.store.book.geometry) self.now.store.book.groups) }
    {
        views_of(alloc, self.blocks.book())
    }
}

// The views of all groups of the tables.
fn views_of(alloc: Global, book: &Book) -> Result<Vec<GroupView>, AllocError>
    ensures { IfOk result (λ groups. groups.items ≡ map (view_of book.now.geometry) book.now.groups) }
{
    let count = book.groups();
    let geometry = book.geometry();
    let mut views = Vec::with_capacity(alloc, count as usize)?;
    for group in 0..count {
        let class = book.class(group);
        views.push_reserved(GroupView {
            class,
            members: book.members(group),
            blocks: book.used(group),
            slots: slots_of(geometry, class),
        });
    }
    Ok(views)
}

// The slots of a group: for each row two mirrored blocks, or three with parity.
fn slots_of(geometry: Geometry, class: Class) -> u16
    ensures { result ≡ slots_of geometry class }
{
    match class {
        Class::Free => 0,
        Class::Mirrored => 2 * geometry.rows(),
        Class::Parity => 3 * geometry.rows(),
    }
}
