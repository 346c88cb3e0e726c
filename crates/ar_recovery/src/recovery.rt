// Executes records again, on an array that began without units: its history grows by each record's entry, and by
// nothing else that changes a unit (`Redoes`).
ghost use Rattle.std.specs.Prelude.{◌≡◌, ◌≤◌, ◌++◌, ◌∷◌, [], true, IfOk, All, map};
ghost use Rattle.ar_extents.specs.Set.{CanCount};
ghost use Rattle.ar_served.specs.declared.entry.Entry.TheVariants as entries;
ghost use Rattle.ar_served.specs.Kept.{HistoryAgrees};
ghost use Rattle.ar_served.specs.Serving.{is_recorded};
ghost use Rattle.ar_record.specs.Record.{data_of};
ghost use Rattle.ar_recovery.specs.Recovering.{Redoes, RedoesCommand};

use ar_core::{Array, Health, NewDisk, OutcomeOf};
use ar_disks::{Addr, Disk};
use ar_extents::StartFault;
use ar_live::LiveArray;
use ar_record::{Record, changes_unit};
use ar_scsi::{Reply, Status};
use ar_served::{OperationOf, Task, is_idle};
use bytes::Bytes;
use std::alloc::{AllocError, Global};
use std::collections::VecDeque;
use std::marker::Model;

/// More steps than balancing the largest array takes: twelve disks of 1,024 extents.
const MOST_STEPS: u32 = 1 << 20;

/// An array that is recovered, record by record.
#[derive(Drop)]
pub struct Recovery<D: Disk> {
    live: LiveArray<D>,
    // The disks that records add, in order.
    added: VecDeque<NewDisk<D>>,
}

impl<D: Disk> Model for Recovery<D> {
    ghost use Rattle.ar_served.specs.Kept.{KeptState, HistoryAgrees};

    ghost Value = { KeptState };

    ghost view = { λ recovery. recovery.live };
}

impl<D: Disk + Drop> Recovery<D> {
    /// Begins with a new array of `disks` without units; `cache` is the capacity of its cache in blocks. `added` are
    /// the disks that records add, in order.
    pub fn start(
        alloc: Global,
        disks: Vec<D>,
        cache: u32,
        added: VecDeque<NewDisk<D>>,
    ) -> Result<Recovery<D>, StartFault>
        requires few { cache ≤ 65536 }
        requires counting { All CanCount (map D.state disks.items) }
        ensures history { IfOk result (λ recovery. recovery.history ≡ []) }
    {
        match Array::start(alloc, disks, cache) {
            Ok(array) => Ok(Recovery {
                live: LiveArray::start(alloc, array),
                added,
            }),
            Err((fault, _)) => Err(fault),
        }
    }

    /// Begins with an array without units.
    pub fn of(alloc: Global, array: Array<D>) -> Recovery<D>
        requires no_unit { array.store.book.units ≡ [] }
        ensures history { result.history ≡ [] }
    {
        Recovery {
            live: LiveArray::start(alloc, array),
            added: VecDeque::new(alloc),
        }
    }

    /// Gives it a disk for a record that adds one: those that are given are added in this order.
    pub fn supply(&mut self, disk: NewDisk<D>) -> Result<(), AllocError>
        ensures { self.new ≡ self.old }
    {
        self.added.push_back(disk).map_err(|_| AllocError)
    }

    /// Executes a record again. False if it can't be done, as when it isn't a record of such an array, a disk has
    /// failed, or out of memory.
    pub fn redo(&mut self, record: Record) -> bool
        ensures done { result ≡ true → Redoes self.old.history (data_of «record») self.new.history }
    {
        match record {
            Record::Make(addr, sectors) => self.make(addr, sectors),
            Record::Grow(addr, sectors) => self.grow(addr, sectors),
            Record::Remove(addr) => self.remove(addr),
            Record::Command(addr, cdb, payload) => self.command(addr, cdb, payload),
            Record::Unmap(addr, lba, count) => self.unmap(addr, lba, count),
            Record::AddDisk(extents) => self.add_disk(extents),
        }
    }

    /// Returns the array as it is so far, for its views.
    pub fn array(&self) -> &Array<D>
        ensures { result.now ≡ self.now.array }
    {
        self.live.array()
    }

    /// Returns the array.
    pub fn finish(self) -> LiveArray<D>
        ensures array { result ≡ self }
        ensures kept { HistoryAgrees result.array result.history }
    {
        let _ = self.live.array();
        self.live
    }

    fn make(&mut self, addr: Addr, sectors: u32) -> bool
        ensures { result ≡ true → self.new.history ≡ self.old.history ++ entries.Make addr sectors ∷ [] }
    {
        let outcome = self.live.operate(OperationOf::Make(addr, sectors));
        matches!(outcome, OutcomeOf::Make(Ok(())))
    }

    fn grow(&mut self, addr: Addr, sectors: u32) -> bool
        ensures { result ≡ true → self.new.history ≡ self.old.history ++ entries.Grow addr sectors ∷ [] }
    {
        let outcome = self.live.operate(OperationOf::Grow(addr, sectors));
        matches!(outcome, OutcomeOf::Grow(Ok(())))
    }

    fn remove(&mut self, addr: Addr) -> bool
        ensures { result ≡ true → self.new.history ≡ self.old.history ++ entries.Remove addr ∷ [] }
    {
        let outcome = self.live.operate(OperationOf::Remove(addr));
        matches!(outcome, OutcomeOf::Remove(Ok(())))
    }

    // Executes a command. It is done if it has changed its unit, as when it was recorded.
    fn command(&mut self, addr: Addr, cdb: [u8; 16], payload: Bytes) -> bool
        ensures { result ≡ true → RedoesCommand self.old.history addr cdb payload self.new.history }
    {
        let reply = self.live.host(addr.host, addr.lun, cdb, payload);
        is_recorded(self.live.array(), &reply) && changes_unit(&cdb, &reply)
    }

    // Discards sectors. It is done unless the array has failed, since the history then doesn't grow.
    fn unmap(&mut self, addr: Addr, lba: u64, count: u32) -> bool
        ensures { result ≡ true → self.new.history ≡ self.old.history ++ entries.Unmap addr lba count ∷ [] }
    {
        let _ = self.live.discard(addr.host, addr.lun, lba, count);
        !matches!(self.live.array().health(), Health::Broken)
    }

    // Adds the next of the disks. It has to have as many extents as the record says, and as the array's disks.
    fn add_disk(&mut self, extents: u32) -> bool
        ensures { self.new.history ≡ self.old.history }
    {
        if u32::from(self.live.array().extents()) != extents {
            return false;
        }
        let Some(disk) = self.added.pop_front() else {
            return false;
        };
        let is_added = matches!(
            self.live.operate(OperationOf::AddDisk(disk)),
            OutcomeOf::AddDisk(Ok(()))
        );
        balance(&mut self.live);
        is_added
    }
}

// Forms groups of the extents of added disks, as background work has done by and by: the records that follow may need
// their room.
fn balance<D: Disk + Drop>(live: &mut LiveArray<D>)
    ensures { live.new.history ≡ live.old.history }
{
    for _ in 0..MOST_STEPS {
        if is_idle(&live.background(Task::Balance)) {
            break;
        }
    }
}

/// Whether a live array has recorded a command with this reply.
pub fn is_recorded<D: Disk>(array: &Array<D>, reply: &Reply) -> bool
    ensures { result ≡ is_recorded array.now reply.now }
{
    !matches!(array.health(), Health::Broken) && !matches!(reply.status, Status::Busy)
}
