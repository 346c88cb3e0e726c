// A counted array, as all that serve it use it. What it has done ends with the program.
ghost use Rattle.std.specs.Prelude.{false};
ghost use Rattle.ar_extents.specs.Set.{CanCount};
ghost use Rattle.ar_served.specs.Served.{Operates};

use crate::CountedArray;
use ar_core::{Allocation, Array, EventOf, NewDisk, Outcome, PartFlush};
use ar_disks::{Addr, Disk, Host};
use ar_scsi::Reply;
use ar_served::{
    Counts, OperableArray, OperationOf, Seat, ServedArray, StoreStatus, Task, is_idle,
};
use bytes::Bytes;
use std::sync::ledger::Ledger;

impl<D: Disk + Drop, L: Ledger> ServedArray<L> for CountedArray<D, L> {
    ghost state = { λ served. served };

    ghost stores = { false };

    ghost persists = { false };

    ghost lasts = { λ served. Unit {0} };

    fn counts(&self) -> Counts {
        CountedArray::counts(self)
    }

    fn events(&self) -> u64 {
        CountedArray::events(self)
    }

    fn free_groups(&self) -> u32 {
        CountedArray::array(self).free_groups()
    }

    fn allocation(&self, addr: Addr, rb: u32, most: u32) -> Allocation {
        CountedArray::array(self).allocation(addr, rb, most)
    }

    fn stored_entries(&self) -> usize {
        0
    }

    fn stored_room(&self) -> usize {
        0
    }

    fn store(&self) -> Option<StoreStatus> {
        None
    }

    fn lend_memory(&mut self, memory: Vec<u8>) {
        CountedArray::lend_memory(self, memory);
    }

    fn ask(&mut self, seat: &mut Seat<L>, lun: u8, cdb: &[u8; 16], payload: Bytes) -> Reply {
        self.host(seat, lun, *cdb, payload)
    }

    fn count_refusal(&mut self, host: Host, cdb: &[u8; 16]) {
        CountedArray::count_refusal(self, host, cdb);
    }

    fn audit_seat(&mut self, seat: &mut Seat<L>) {
        CountedArray::audit_seat(self, seat);
    }

    fn awaits_commit(&self, _cdb: &[u8; 16], _reply: &Reply) -> bool {
        false
    }

    fn commit_pause(&self) -> u64 {
        0
    }

    fn settle(&mut self, _cdb: &[u8; 16], _reply: &Reply) -> bool {
        true
    }

    fn commit(&mut self) -> bool {
        true
    }

    fn work(&mut self, task: Task) -> bool {
        let outcome = CountedArray::background(self, task);
        !is_idle(&outcome)
    }

    fn flush_part(&mut self, addr: Addr, first: u32) -> PartFlush {
        CountedArray::flush_part(self, addr, first)
    }

    fn discard(&mut self, host: Host, lun: u8, lba: u64, count: u32) -> Reply {
        CountedArray::discard(self, host, lun, lba, count)
    }
}

impl<D: Disk + Drop, L: Ledger> OperableArray<L> for CountedArray<D, L> {
    type Disk = D;

    fn array(&self) -> &Array<D> {
        CountedArray::array(self)
    }

    fn make(&mut self, addr: Addr, sectors: u32) -> Outcome<D> {
        self.operate(OperationOf::Make(addr, sectors))
    }

    fn grow(&mut self, addr: Addr, sectors: u32) -> Outcome<D> {
        self.operate(OperationOf::Grow(addr, sectors))
    }

    fn remove(&mut self, addr: Addr) -> Outcome<D> {
        self.operate(OperationOf::Remove(addr))
    }

    fn add_disk(&mut self, disk: D) -> Outcome<D>
        requires { CanCount (D.state disk) }
        ensures { Operates (EventOf.AddDisk (D.state disk)) self.old result self.new }
    {
        self.operate(OperationOf::AddDisk(NewDisk::new(disk)))
    }

    fn take_out(&mut self, number: u8) -> Outcome<D> {
        self.operate(OperationOf::DiskOut(number))
    }

    fn replace(&mut self, number: u8, disk: D) -> Outcome<D>
        requires { CanCount (D.state disk) }
        ensures { Operates (EventOf.Replace number (D.state disk)) self.old result self.new }
    {
        self.operate(OperationOf::Replace(number, NewDisk::new(disk)))
    }

    fn background(&mut self, task: Task) -> Outcome<D> {
        CountedArray::background(self, task)
    }
}
