// A served array, as operators use it and the pages show it.
ghost use Rattle.std.specs.Prelude.{◌≡◌, IfOk, OnOk, Some, if◌then◌else◌, length};
ghost use Rattle.ar_operator.specs.Executing.{Executes, IsArrayOrder};
ghost use Rattle.ar_picture.specs.Writing.{AddsSome};
ghost use Rattle.ar_answers.specs.Pictures.{IsPicture};
ghost use Rattle.ar_shown.specs.Shown.{IsStatusOf, SeesArray};

use ar_answers::picture_of;
use ar_conversation::OperatorOrder;
use ar_fuses::Fuse;
use ar_inventory::{Inventory, UnitNames};
use ar_operator::{DiskMaker, Prepared, SpareDisk, WantedDisk, execute, set_fuse, wanted_disk};
use ar_picture::Picture;
use ar_served::{OperableArray, ServedArray, StoreStatus};
use ar_shown::{Beside, see_array, status_with};
use ar_status::{ArrayStatus, EventLog, RecentEvents};
use std::alloc::{AllocError, Global};
use std::sync::ledger::Ledger;

/// A served array, as operators use it and the pages show it, whatever its disks are. `M` makes its new disks.
pub trait ControlledArray<L: Ledger, M>: ServedArray<L> {
    /// Returns the shape of its disks.
    fn disk_shape(&self) -> WantedDisk;

    /// Returns which new disk an order wants (`ar_operator::wanted_disk`).
    fn wanted_disk(&self, order: OperatorOrder) -> Option<WantedDisk>;

    /// Executes an order and appends its answer to `out` (`ar_operator::execute`). A new disk is the spare one, if that
    /// has its shape.
    fn execute(
        &mut self,
        alloc: Global,
        disks: &mut M,
        spare: &mut Option<SpareDisk>,
        order: OperatorOrder,
        out: &mut Vec<u8>,
    ) -> Result<(), AllocError>
        requires { IsArrayOrder order }
        ensures { Executes order (Self.state self.old) out.old.items result out.new.items (Self.state self.new) };

    /// Sets the fuse of a disk, and appends the answer (`ar_operator::set_fuse`).
    fn set_fuse(
        &self,
        fuses: &[Fuse; 12],
        disk: u8,
        accesses: Option<u64>,
        out: &mut Vec<u8>,
    ) -> Result<(), AllocError>
        ensures { OnOk result (AddsSome (Some out.old.items) (Some out.new.items)) };

    /// Compares the array with how it was seen last, and lists what has happened.
    fn see(&self, seconds: u64, log: &mut EventLog)
        ensures { SeesArray seconds (Self.state self.now).array log.old log.new };

    /// Returns the status of the array with these events, its store, if there is one, and what is shown beside it.
    fn status(
        &self,
        store: Option<StoreStatus>,
        events: RecentEvents,
        beside: &Beside,
    ) -> ArrayStatus
        ensures { IsStatusOf (Self.state self.now).array (Self.state self.now).counts
            (if Self.stores then length (Self.state self.now).history else 0) store events beside.now result };

    /// Returns the data of the array's picture. It fails only when out of memory.
    fn picture(&self, alloc: Global) -> Result<Picture, AllocError>
        ensures { IfOk result (IsPicture (Self.state self.now).array) };

    /// Returns what operators are shown of the array (`ar_inventory::Inventory`). It fails only when out of memory.
    fn inventory(
        &self,
        alloc: Global,
        fuses: &[Fuse; 12],
        names: Option<UnitNames>,
    ) -> Result<Inventory, AllocError>;
}

impl<A: OperableArray<L>, L: Ledger, M: DiskMaker<A::Disk>> ControlledArray<L, M> for A {
    fn disk_shape(&self) -> WantedDisk {
        WantedDisk::of(self.array())
    }

    fn wanted_disk(&self, order: OperatorOrder) -> Option<WantedDisk> {
        wanted_disk(self.array(), order)
    }

    fn execute(
        &mut self,
        alloc: Global,
        disks: &mut M,
        spare: &mut Option<SpareDisk>,
        order: OperatorOrder,
        out: &mut Vec<u8>,
    ) -> Result<(), AllocError> {
        execute(alloc, self, &mut Prepared::new(disks, spare), order, out)
    }

    fn set_fuse(
        &self,
        fuses: &[Fuse; 12],
        disk: u8,
        accesses: Option<u64>,
        out: &mut Vec<u8>,
    ) -> Result<(), AllocError> {
        set_fuse(self.array(), fuses, disk, accesses, out)
    }

    fn see(&self, seconds: u64, log: &mut EventLog) {
        see_array(self.array(), seconds, log);
    }

    fn status(
        &self,
        store: Option<StoreStatus>,
        events: RecentEvents,
        beside: &Beside,
    ) -> ArrayStatus {
        status_with(
            self.array(),
            &self.counts(),
            (self.stored_entries(), self.stored_room()),
            store,
            events,
            beside,
        )
    }

    fn picture(&self, alloc: Global) -> Result<Picture, AllocError> {
        picture_of(alloc, self.array())
    }

    fn inventory(
        &self,
        alloc: Global,
        fuses: &[Fuse; 12],
        names: Option<UnitNames>,
    ) -> Result<Inventory, AllocError> {
        Inventory::of(alloc, self.array(), fuses, names)
    }
}
