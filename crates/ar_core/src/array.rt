// The array and its events. Until data loss every sector past a unit's end, and of absent units, is zero (`IsPadded`);
// so a create or resize writes nothing.
ghost use Rattle.std.specs.Prelude.{◌≡◌, ◌≤◌, [], All, map, IfOk, IfErr, IfSome, OnOk, OnErr, unwrap_or, length};
ghost use Rattle.ar_disks.specs.declared.address.Addr.{Addr};
ghost use Rattle.ar_disks.specs.Geometry.{block_len_of};
ghost use Rattle.ar_extents.specs.Changes.{start_fault, started};
ghost use Rattle.ar_volume.specs.Image.{geometry_of};

use crate::{Event, EventOf, Outcome, OutcomeOf, Refusal};
use ar_cache::Cache;
use ar_disks::{Addr, Block, Disk};
use ar_extents::{StartFault, fault_of};
use ar_store::Store;
use ar_volume::Blocks;
use bytes::BytesMut;
use std::alloc::Global;
use std::marker::Model;

/// A two-level disk array: units of four hosts, stored in mirrored and parity groups on 4 to 12 disks.
#[derive(Drop)]
pub struct Array<D: Disk> {
    pub(crate) blocks: Blocks<D>,
    // The buffer of block transfers.
    pub(crate) block: Block,
    // Memory for the data of a READ, lent from outside. No contract sees it.
    pub(crate) spare: Vec<u8>,
    // What the data of short READs are cut from, one after another. No contract sees it.
    pub(crate) room: BytesMut,
    // The memory of the last long READ, for the next one of as many bytes; none after a READ into lent memory or of
    // more than 1 MiB. No contract sees it.
    pub(crate) kept: BytesMut,
}

impl<D: Disk> Model for Array<D> {
    ghost use Rattle.std.specs.Prelude.{◌≡◌, length};
    ghost use Rattle.ar_disks.specs.Geometry.{block_len_of};
    ghost use Rattle.ar_volume.specs.Image.{ArrayState, geometry_of, IsPadded};

    ghost Value = { ArrayState };

    ghost view = { λ a. a.blocks };

    ghost invariant = { λ a. IsPadded a.blocks × (length a.block ≡ block_len_of (geometry_of a.blocks)) };
}

impl<D: Disk> Array<D> {
    ghost use Rattle.ar_extents.specs.declared.refusal.StartFault.TheVariants.{NoMemory};
    ghost use Rattle.ar_extents.specs.Set.{CanCount};
    ghost use Rattle.ar_volume.specs.Start.{IsStarted};

    /// Creates a healthy array of `disks`, without units, its groups of four extents all free. `cache` is the capacity
    /// of the write-back cache in blocks, 0 (write-through) to 65,536. On `BadCount`, `WrongSize` or `NoMemory` it
    /// returns the disks.
    pub fn start(alloc: Global, disks: Vec<D>, cache: u32) -> Result<Array<D>, (StartFault, Vec<D>)>
        requires few { cache ≤ 65536 }
        requires counting { All CanCount (map D.state disks.items) }
        ensures taken { OnOk result (start_fault (map D.state disks.items) ≡ None) }
        ensures started { IfOk result (IsStarted (map D.state disks.items) cache) }
        ensures refused { IfErr result (λ back. back.0 ≡ unwrap_or (start_fault (map D.state disks.items)) NoMemory) }
        ensures handed_back { IfErr result (λ back. back.1 ≡ disks) }
    {
        let Some((cache, block)) = make_buffers(alloc, &disks, cache) else {
            return Err((fault_of(&disks).unwrap_or(StartFault::NoMemory), disks));
        };
        let store = Store::start(alloc, disks)?;
        Ok(Array {
            blocks: Blocks::new(store, cache),
            block,
            spare: Vec::new(alloc),
            room: BytesMut::new(alloc),
            kept: BytesMut::new(alloc),
        })
    }
}

// The empty cache and the buffer of an array of these disks. None if there is no disk, or out of memory.
fn make_buffers<D: Disk>(alloc: Global, disks: &[D], capacity: u32) -> Option<(Cache, Block)>
    requires { capacity ≤ 65536 }
    ensures cache { IfSome result (λ made. made.0
        ≡ record { geometry = (started (map D.state disks.now)).geometry; capacity = capacity; entries = [] }) }
    ensures block { IfSome result (λ made. length made.1 ≡ block_len_of (started (map D.state disks.now)).geometry) }
{
    let geometry = disks.first()?.geometry();
    let cache = Cache::new(alloc, geometry, capacity).ok()?;
    let block = Block::new(alloc, geometry).ok()?;
    Some((cache, block))
}

impl<D: Disk> Array<D> {
    /// Lends memory for the data of a READ, so that a caller that shares the array allocates, and touches, it before it
    /// waits for the array. The next READ of exactly as many bytes overwrites them all and returns them as its payload;
    /// memory that was lent before and not used is freed.
    pub fn lend_memory(&mut self, memory: Vec<u8>)
        ensures { self.new ≡ self.old }
    {
        self.spare = memory;
    }
}

impl<D: Disk + Drop> Array<D> {
    ghost use Rattle.std.specs.Prelude.{false};
    ghost use Rattle.ar_core.specs.Step.{Steps, is_frequent};
    ghost use Rattle.ar_core.specs.Run.{AreOutcomes};

    /// Executes one event and returns its outcome. The contract relates every unit and disk before and after (`Steps`).
    // It is made part of its callers, which make an event and take its outcome apart: to pass both whole cost a command
    // to a small block a quarter of its time.
    #[inline(always)]
    pub fn step(&mut self, alloc: Global, event: Event<D>) -> Outcome<D>
        ensures { Steps self.old event result self.new }
    {
        match event {
            EventOf::Cmd {
                host,
                lun,
                cdb,
                payload,
            } => {
                OutcomeOf::Cmd(self.command(alloc, Addr { host, lun }, &cdb, payload.as_slice()))
            }
            EventOf::Flush => OutcomeOf::Flush(self.flush_one()),
            EventOf::Demote => OutcomeOf::Demote(self.demote_one()),
            EventOf::Clean => OutcomeOf::Clean(self.clean_one()),
            EventOf::Balance => OutcomeOf::Balance(self.balance_one()),
            EventOf::Rebuild => OutcomeOf::Rebuild(self.rebuild_one()),
            other => self.step_rarely(other),
        }
    }

    // Executes an event of an operator, or the discard or part of a flush of a unit that its host asks for.
    fn step_rarely(&mut self, event: Event<D>) -> Outcome<D>
        requires { is_frequent event ≡ false }
        ensures { Steps self.old event result self.new }
    {
        match event {
            EventOf::Make(addr, sectors) => OutcomeOf::Make(self.make(addr, sectors)),
            EventOf::Grow(addr, sectors) => OutcomeOf::Grow(self.grow(addr, sectors)),
            EventOf::Remove(addr) => OutcomeOf::Remove(self.remove(addr)),
            EventOf::Unmap(addr, lba, count) => OutcomeOf::Unmap(self.unmap(addr, lba, count)),
            EventOf::FlushPart(addr, first) => OutcomeOf::FlushPart(self.flush_part(addr, first)),
            EventOf::AddDisk(disk) => OutcomeOf::AddDisk(self.add_disk(disk)),
            EventOf::DiskOut(disk) => OutcomeOf::DiskOut(self.disk_out(disk)),
            EventOf::Replace(number, disk) => OutcomeOf::Replace(self.replace(number, disk)),
            EventOf::Cmd { .. }
            | EventOf::Flush
            | EventOf::Demote
            | EventOf::Clean
            | EventOf::Balance
            | EventOf::Rebuild => unreachable!(),
        }
    }

    /// Executes events in order and returns their outcomes. **The isolation theorem is its contract**: each unit
    /// replies as one plain list of sectors that only its own create, resize, delete and I/O commands change, whatever
    /// the other events do, until two disks are missing at once. From then on its presence, length and pending UNIT
    /// ATTENTION decide its replies (`AreOutcomes`; its part `IsIsolated` is the theorem). If memory for the outcomes
    /// can't be allocated, it returns the events and the array is unchanged.
    pub fn run(
        &mut self,
        alloc: Global,
        events: Vec<Event<D>>,
    ) -> Result<Vec<Outcome<D>>, Vec<Event<D>>>
        ensures isolated { IfOk result (λ outcomes. AreOutcomes self.old events.items outcomes.items self.new) }
        ensures refused { IfErr result (λ back. back ≡ events) }
        ensures unchanged { OnErr result (self.new ≡ self.old) }
    {
        let Ok(mut outcomes) = Vec::with_capacity(alloc, events.len()) else {
            return Err(events);
        };
        for event in events {
            let outcome = self.step(alloc, event);
            outcomes.push_reserved(outcome);
        }
        Ok(outcomes)
    }
}

// The events that are a unit's own, but for its commands.
impl<D: Disk> Array<D> {
    ghost use Rattle.ar_core.specs.Step.{Steps};

    fn make(&mut self, addr: Addr, sectors: u32) -> Result<(), Refusal>
        ensures { Steps self.old (EventOf.Make addr sectors) (OutcomeOf.Make result) self.new }
    {
        self.blocks.make(addr, sectors)
    }

    fn grow(&mut self, addr: Addr, sectors: u32) -> Result<(), Refusal>
        ensures { Steps self.old (EventOf.Grow addr sectors) (OutcomeOf.Grow result) self.new }
    {
        self.blocks.grow(addr, sectors)
    }

    fn remove(&mut self, addr: Addr) -> Result<(), Refusal>
        ensures { Steps self.old (EventOf.Remove addr) (OutcomeOf.Remove result) self.new }
    {
        self.blocks.remove(addr)
    }
}
