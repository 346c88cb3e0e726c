// Finds the slot of a block that is put, the first of these: its home, if mirrored; a mirrored hole, in a group opened
// for it if need be; its home, if parity; a parity hole; the first hole of the group that a squeeze opens.
ghost use Rattle.std.specs.Prelude.{◌≡◌, ◌≢◌, ◌<◌, length, IfSome, IfNone};
ghost use Rattle.ar_disks.specs.Geometry.{block_len_of};
ghost use Rattle.ar_extents.specs.declared.health.Health.TheVariants.{Broken};
ghost use Rattle.ar_book.specs.Book.{TablesAgree};
ghost use Rattle.ar_book.specs.Tables.{free_groups, HasBlock};
ghost use Rattle.ar_store.specs.Placing.{MayOpen, IsMirroredHole, HasNoMirroredHole, IsWayIn, HasNoWay};
ghost use Rattle.ar_store.specs.Placing.{lacks_mirrored_slot};
ghost use Rattle.ar_store.specs.Spaces.{IsReady, FindsSlot};

use crate::space::Space;
use ar_book::{Book, Class, Level, Slot};
use ar_disks::{Block, Disk, Key};
use ar_index::Steps;

/// The slot that a block is written to.
#[derive(Clone, Copy)]
pub(crate) enum Way {
    /// Its home: it is overwritten in place.
    Home(Slot),
    /// A hole: a slot that no block is mapped to.
    Hole(Slot),
    /// None: the array failed before a slot was found.
    Broken,
}

impl<D: Disk> Space<D> {
    /// Finds a slot for a block of a unit; a squeeze, if needed, overwrites the buffer `block`.
    pub(crate) fn find_way(&mut self, key: Key, block: &mut Block) -> Way
        requires ready { IsReady self.old }
        requires unit { HasBlock self.old.book key }
        requires free { 0 < free_groups self.old.book }
        requires sound { self.old.disks.health ≢ Broken }
        requires whole { length block.old ≡ block_len_of self.old.disks.geometry }

        ensures found { FindsSlot self.old self.new key result }
        ensures len { length block.new ≡ length block.old }
    {
        match way_in(&mut self.book, key) {
            Some(way) => way,
            None => match self.squeeze(block) {
                Some(slot) => Way::Hole(slot),
                None => Way::Broken,
            },
        }
    }
}

// The slot for a block, if it needs no squeeze.
fn way_in(book: &mut Book, key: Key) -> Option<Way>
    requires { TablesAgree book.old }
    ensures way { IfSome result (IsWayIn book.old key book.new) }
    ensures none { IfNone result (HasNoWay book.old key book.new) }
    ensures opens { MayOpen book.old book.new }
{
    let Some(home) = book.home(key) else {
        if let Some(slot) = mirrored_hole(book) {
            return Some(Way::Hole(slot));
        }
        let slot = book.hole(Class::Parity, &mut Steps::new())?;
        return Some(Way::Hole(slot));
    };
    match book.level(key) {
        Level::Parity => match mirrored_hole(book) {
            Some(slot) => Some(Way::Hole(slot)),
            None => Some(Way::Home(home)),
        },
        Level::Mirrored | Level::Unplaced => Some(Way::Home(home)),
    }
}

// The lowest mirrored hole. If there is none and two groups are free, opens the lowest for it.
fn mirrored_hole(book: &mut Book) -> Option<Slot>
    ensures found { IfSome result (IsMirroredHole book.old book.new) }
    ensures none { IfNone result (HasNoMirroredHole book.old book.new) }
    ensures opens { MayOpen book.old book.new }
{
    if let Some(slot) = book.hole(Class::Mirrored, &mut Steps::new()) {
        return Some(slot);
    }
    let group = book.open_group(Class::Mirrored, &mut Steps::new())?;
    Some(Slot { group, slot: 0 })
}

// Whether there is no mirrored hole, and no group is opened for one.
pub(crate) fn lacks_mirrored_slot(book: &Book) -> bool
    ensures { result ≡ lacks_mirrored_slot book.now }
{
    if book.free_groups() >= 2 {
        return false;
    }
    match book.hole(Class::Mirrored, &mut Steps::new()) {
        Some(_) => false,
        None => true,
    }
}
