// A durable array as all that serve it use it.
ghost use Rattle.ar_core.specs.declared.event.EventOf.TheVariants as events;
ghost use Rattle.ar_extents.specs.Set.{CanCount};
ghost use Rattle.ar_served.specs.Served.{Operates};

use crate::DurableArray;
use ar_core::{Allocation, Array, Outcome, PartFlush};
use ar_disks::{Addr, Disk, Host};
use ar_media::Media;
use ar_scsi::Reply;
use ar_served::{Counts, OperableArray, Seat, ServedArray, StoreStatus, Task, is_idle};
use bytes::Bytes;
use log::Log;
use std::sync::ledger::Ledger;
use std::time::Clock;

impl<'a, D: Disk + Drop, L: Ledger, M: Media + Drop, R: Clock + Log> ServedArray<L>
    for DurableArray<'a, D, L, M, R> {
    ghost use Rattle.std.specs.Prelude.{false, true};
    ghost use Rattle.ar_durable.specs.Durable.{Lasts};

    ghost state = { λ durable. durable.kept };

    ghost stores = { false };

    ghost persists = { true };

    ghost lasts = { λ durable. Lasts M.may_leave M.is_clean durable.store durable.kept.history };

    fn counts(&self) -> Counts {
        DurableArray::counts(self)
    }

    fn events(&self) -> u64 {
        DurableArray::events(self)
    }

    fn free_groups(&self) -> u32 {
        DurableArray::array(self).free_groups()
    }

    fn allocation(&self, addr: Addr, rb: u32, most: u32) -> Allocation {
        DurableArray::array(self).allocation(addr, rb, most)
    }

    fn stored_entries(&self) -> usize {
        0
    }

    fn stored_room(&self) -> usize {
        0
    }

    fn store(&self) -> Option<StoreStatus> {
        Some(DurableArray::status(self))
    }

    fn lend_memory(&mut self, memory: Vec<u8>) {
        DurableArray::lend_memory(self, memory);
    }

    fn ask(&mut self, seat: &mut Seat<L>, lun: u8, cdb: &[u8; 16], payload: Bytes) -> Reply {
        self.host(seat, lun, *cdb, payload)
    }

    fn count_refusal(&mut self, host: Host, cdb: &[u8; 16]) {
        DurableArray::count_refusal(self, host, cdb);
    }

    fn audit_seat(&mut self, seat: &mut Seat<L>) {
        DurableArray::audit_seat(self, seat);
    }

    fn awaits_commit(&self, cdb: &[u8; 16], reply: &Reply) -> bool {
        DurableArray::awaits_commit(self, cdb, reply)
    }

    fn commit_pause(&self) -> u64 {
        DurableArray::commit_pause(self)
    }

    fn settle(&mut self, cdb: &[u8; 16], reply: &Reply) -> bool {
        DurableArray::settle(self, cdb, reply)
    }

    fn commit(&mut self) -> bool {
        DurableArray::commit(self)
    }

    fn work(&mut self, task: Task) -> bool {
        let outcome = DurableArray::background(self, task);
        self.commit_if_due();
        self.checkpoint_some();
        !is_idle(&outcome)
    }

    fn flush_part(&mut self, addr: Addr, first: u32) -> PartFlush {
        DurableArray::flush_part(self, addr, first)
    }

    fn discard(&mut self, host: Host, lun: u8, lba: u64, count: u32) -> Reply {
        DurableArray::discard(self, host, lun, lba, count)
    }
}

impl<'a, D: Disk + Drop, L: Ledger, M: Media + Drop, R: Clock + Log> OperableArray<L>
    for DurableArray<'a, D, L, M, R> {
    type Disk = D;

    fn array(&self) -> &Array<D> {
        DurableArray::array(self)
    }

    fn make(&mut self, addr: Addr, sectors: u32) -> Outcome<D> {
        DurableArray::make(self, addr, sectors)
    }

    fn grow(&mut self, addr: Addr, sectors: u32) -> Outcome<D> {
        DurableArray::grow(self, addr, sectors)
    }

    fn remove(&mut self, addr: Addr) -> Outcome<D> {
        DurableArray::remove(self, addr)
    }

    fn add_disk(&mut self, disk: D) -> Outcome<D>
        requires { CanCount (D.state disk) }
        ensures { Operates (events.AddDisk (D.state disk)) self.old.kept result self.new.kept }
    {
        DurableArray::add_disk(self, disk)
    }

    fn take_out(&mut self, number: u8) -> Outcome<D> {
        DurableArray::take_out(self, number)
    }

    fn replace(&mut self, number: u8, disk: D) -> Outcome<D>
        requires { CanCount (D.state disk) }
        ensures { Operates (events.Replace number (D.state disk)) self.old.kept result self.new.kept }
    {
        DurableArray::replace(self, number, disk)
    }

    fn background(&mut self, task: Task) -> Outcome<D> {
        DurableArray::background(self, task)
    }
}
