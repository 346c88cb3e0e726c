// Opens free groups. A parity group is filled with zeros as it is opened, so that the parity of each stripe is right
// from the start.

use crate::space::Space;
use ar_book::Class;
use ar_disks::{Completion, Disk};
use ar_index::Steps;

/// What `open_group` did.
#[derive(Clone, Copy, Debug, PartialEq, Eq)]
pub enum Opening {
    /// It opened the group with this number.
    Opened(u32),
    /// It opened none: the last free group stays free.
    Idle,
    /// The array has failed.
    Broken,
}

impl<D: Disk> Space<D> {
    ghost use Rattle.std.specs.Prelude.{◌≡◌, ◌≢◌, ◌↔◌, ℕ, ◌<◌, ◌≤◌};
    ghost use Rattle.ar_extents.specs.declared.health.Health.TheVariants.{Broken};
    ghost use Rattle.ar_book.specs.declared.class.Class.TheVariants.{Free, Parity};
    ghost use Rattle.ar_book.specs.Tables.{free_groups};
    ghost use Rattle.ar_book.specs.Choices.{IsLowestFree};
    ghost use Rattle.ar_store.specs.Slots.{AllStand};
    ghost use Rattle.ar_extents.specs.Plans.{CarriesOut};
    ghost use Rattle.ar_store.specs.Store.{members_of};
    ghost use Rattle.ar_store.specs.Plans.{open_plan};
    ghost use Rattle.ar_store.specs.Calls.{Opens, IfOpened, HoldsZeros};
    ghost use Rattle.ar_store.specs.Spaces.{store_in, IsReady, Stays};

    /// Opens the lowest free group as mirrored or parity while two are free. Each slot of an opened parity group then
    /// holds the zero block.
    pub(crate) fn open_group(&mut self, class: Class) -> Opening
        requires ready { IsReady self.old }
        requires class { class ≢ Free }
        requires sound { self.old.disks.health ≢ Broken }

        ensures opens { Opens (store_in self.old) (store_in self.new) class result }
        ensures answer { (result ≡ Opening.Broken) ↔ (self.new.disks.health ≡ Broken) }

        ensures parity { class ≡ Parity → IfOpened result (HoldsZeros (store_in self.new)) }
        ensures free { 0 < free_groups self.old.book → 0 < free_groups self.new.book }

        ensures stand { AllStand (store_in self.old) (store_in self.new) }
        ensures plan { (group : ℕ) → 2 ≤ free_groups self.old.book → IsLowestFree self.old.book group
            → CarriesOut (open_plan class self.old.disks.geometry (members_of (store_in self.old) group))
            self.old.disks self.new.disks }
        ensures stays { Stays self.old self.new }
    {
        let Some(group) = self.book.open_group(class, &mut Steps::new()) else {
            return Opening::Idle;
        };
        match class {
            Class::Mirrored | Class::Free => Opening::Opened(group),
            Class::Parity => {
                let members = self.book.members(group);
                match ar_parity::open_zero(&mut self.disks, &members, &mut self.scratch) {
                    Completion::Done => Opening::Opened(group),
                    Completion::Broken => Opening::Broken,
                }
            }
        }
    }
}
