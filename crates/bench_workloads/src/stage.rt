// An array that is made ready for a workload, and the operations on it.
ghost use Rattle.std.specs.Prelude.{◌≡◌, ◌≤◌, ◌<◌, ◌*◌, All, map, IfOk};
ghost use Rattle.ar_disks.specs.Geometry.{rows_of};
ghost use Rattle.ar_extents.specs.Set.{CanCount};

use crate::cost::Round;
use crate::data::Data;
use crate::fault::WorkloadFault;
use crate::workload::{Access, Plan, Stands, Workload};
use ar_core::{
    Array, Balance, CAPACITY_LIMIT, Event, EventOf, Flush, Health, LevelOf, Move, NewDisk, Outcome,
    OutcomeOf, Rebuild,
};
use ar_disks::{Addr, Completion, Geometry, Host, MemDisk};
use ar_scsi::{Reply, Status};
use bytes::Bytes;
use rand::RngExt;
use rand_core::Rng;
use std::alloc::{AllocError, Global};
use std::marker::Model;
use std::mem;

const READ_10: u8 = 0x28;

const WRITE_10: u8 = 0x2A;

/// What stands in every byte of a new disk: not zero, so that all its memory is there.
const NEW_BYTE: u8 = 0xEE;

/// What is done with the data that reads give.
pub trait Sink {
    fn take(&mut self, bytes: &[u8]);
}

/// How large an array is.
#[derive(Clone, Copy, Debug, PartialEq, Eq)]
pub struct Size {
    pub geometry: Geometry,
    /// How many disks: 4, 8 or 12.
    pub disks: u8,
    /// Extents of each disk. Four of them make a group.
    pub extents: u16,
}

/// An array with the unit that a workload is on.
#[derive(Drop)]
pub struct Stage {
    array: Array<MemDisk>,
    workload: Workload,
    plan: Plan,
    size: Size,
    // The unit whose blocks are read and written.
    unit: Addr,
    // Another, which uses the rest of the room while the blocks of the first one go to the parity level, or slots
    // between them.
    ballast: Addr,
    // How often the blocks were gone over since the unit was made ready. Each time other data are written.
    passes: u32,
}

// Nothing is said of it: whether the unit stands as it has to is checked as it runs.
impl Model for Stage {
    ghost use Rattle.std.specs.Prelude.{⊤};

    ghost Value = { ⊤ };

    ghost view = { λ _. tt };
}

impl Size {
    /// Blocks that all disks have.
    pub fn places(self) -> usize
        ensures { result ≡ self.disks * self.extents * rows_of self.geometry }
    {
        usize::from(self.disks) * usize::from(self.extents) * usize::from(self.geometry.rows())
    }

    // Groups that blocks can fill: one stays free.
    fn groups(self) -> u32 {
        (u32::from(self.disks) * u32::from(self.extents) / 4).saturating_sub(1)
    }

    // Blocks that this many mirrored groups hold.
    fn mirrored(self, groups: u32) -> u32 {
        groups.saturating_mul(2 * u32::from(self.geometry.rows()))
    }

    // Blocks that units may have in all.
    fn room(self) -> u32 {
        self.groups()
            .saturating_mul(3 * u32::from(self.geometry.rows()))
    }

    /// Blocks of the unit that a workload is on.
    pub fn blocks(self, stands: Stands) -> u32 {
        match stands {
            Stands::Nowhere | Stands::Everywhere => self.room(),
            Stands::Mirrored => self.mirrored(self.groups()),
            // Of an even number of mirrored groups half of the slots are as many as half of the groups have.
            Stands::Half | Stands::Parity | Stands::Scattered => self.mirrored(self.groups() / 2),
        }
    }
}

impl Stage {
    /// An array without a unit, for a workload.
    pub fn new(alloc: Global, workload: Workload, size: Size) -> Result<Stage, WorkloadFault> {
        let plan = workload.plan();
        let cache = if plan.is_cached {
            size.blocks(plan.stands).min(CAPACITY_LIMIT)
        } else {
            0
        };
        let (Some(unit), Some(ballast)) = (unit(0), unit(1)) else {
            return Err(WorkloadFault::NoMemory);
        };
        let array = new_array(alloc, size, cache)?;
        Ok(Stage {
            array,
            workload,
            plan,
            size,
            unit,
            ballast,
            passes: 0,
        })
    }

    /// Lets the array go. Where one goes at the end of a function instead, the proof of that function takes half a
    /// minute.
    pub fn close(self) {
        let Stage { array, .. } = self;
        drop(array);
    }

    /// A round of the workload. With a cache it touches each block several times.
    pub fn round(&self) -> Round {
        Round {
            workload: self.workload,
            geometry: self.size.geometry,
            blocks: self.size.blocks(self.plan.stands),
            passes: if self.plan.is_cached { 8 } else { 1 },
        }
    }

    /// Whether each round needs the unit made ready again, since a round changes where its blocks stand.
    pub fn wears_out(&self) -> bool {
        match self.plan.stands {
            Stands::Nowhere | Stands::Half | Stands::Scattered => true,
            Stands::Parity => self.plan.access == Access::WriteBlocks,
            Stands::Everywhere => self.plan.access.is_of_extents(),
            Stands::Mirrored => false,
        }
    }

    /// Makes the unit ready: its blocks stand where the workload needs them.
    pub fn prepare(&mut self, alloc: Global, data: &Data) -> Result<(), WorkloadFault> {
        if self.plan.access == Access::BalanceExtents {
            self.renew(alloc)?;
        }
        self.fill_unit(alloc, data)?;
        self.change_disks(alloc)?;
        let health = self.health_before();
        self.check_levels(self.plan.level_before(), health)
    }

    // Begins with a new array, which has no added disk.
    fn renew(&mut self, alloc: Global) -> Result<(), WorkloadFault> {
        let array = new_array(alloc, self.size, 0)?;
        drop(mem::replace(&mut self.array, array));
        Ok(())
    }

    // Creates the unit again, and writes its blocks to the disks.
    fn fill_unit(&mut self, alloc: Global, data: &Data) -> Result<(), WorkloadFault> {
        // There may be none.
        self.attempt(alloc, EventOf::Remove(self.unit));
        let blocks = self.size.blocks(self.plan.stands);
        self.make(alloc, self.unit, blocks)?;
        self.passes = 0;
        self.write_unit(alloc, blocks, data)?;
        self.flush()
    }

    // Takes a disk out or in, where the workload is about that.
    fn change_disks(&mut self, alloc: Global) -> Result<(), WorkloadFault> {
        if self.plan.is_degraded {
            self.take_out(alloc);
        }
        match self.plan.access {
            Access::BalanceExtents => self.add_disk(alloc),
            Access::RebuildExtents => self.replace_disk(alloc),
            _ => Ok(()),
        }
    }

    // Takes disk 0 out. It may be out.
    fn take_out(&mut self, alloc: Global) {
        self.attempt(alloc, EventOf::DiskOut(0));
    }

    fn add_disk(&mut self, alloc: Global) -> Result<(), WorkloadFault> {
        let disk = fresh_disk(alloc, self.size)?;
        self.change(alloc, EventOf::AddDisk(disk))
    }

    fn replace_disk(&mut self, alloc: Global) -> Result<(), WorkloadFault> {
        self.take_out(alloc);
        let disk = fresh_disk(alloc, self.size)?;
        self.change(alloc, EventOf::Replace(0, disk))
    }

    // Does an event that may be refused.
    fn attempt(&mut self, alloc: Global, event: Event<MemDisk>) {
        drop(self.array.step(alloc, event));
    }

    // Does an event that changes units or disks, and has to be done.
    fn change(&mut self, alloc: Global, event: Event<MemDisk>) -> Result<(), WorkloadFault> {
        let outcome = self.array.step(alloc, event);
        let is_done = is_done(&outcome);
        drop(outcome);
        if is_done { Ok(()) } else { Err(self.refused()) }
    }

    // Which disk is down when a round begins, and when it has ended.
    fn health_before(&self) -> Health {
        if self.plan.access == Access::RebuildExtents {
            Health::Rebuilding(0, 0)
        } else {
            self.health_after()
        }
    }

    fn health_after(&self) -> Health {
        if self.plan.is_degraded {
            Health::Out(0)
        } else {
            Health::Whole
        }
    }

    /// Checks that the operations of a round left the unit as they have to: nothing is cached, written blocks are
    /// promoted, and events in the background have no block left to move.
    pub fn check(&mut self, alloc: Global) -> Result<(), WorkloadFault> {
        if self.moves_more(alloc) {
            return Err(self.unmoved());
        }
        match self.array.step(alloc, EventOf::Flush) {
            OutcomeOf::Flush(Flush::Idle) => {
                self.check_levels(self.plan.level_after(), self.health_after())
            }
            _ => Err(self.refused()),
        }
    }

    // Whether an event in the background, if the workload is about one, still moves something.
    fn moves_more(&mut self, alloc: Global) -> bool {
        if self.plan.access.is_of_extents() {
            return self.move_extent(alloc);
        }
        self.plan.access.is_in_background() && self.move_block(alloc) != Move::Idle
    }

    // Writes the blocks of the unit, so that they stand where they have to.
    fn write_unit(&mut self, alloc: Global, blocks: u32, data: &Data) -> Result<(), WorkloadFault> {
        match self.plan.stands {
            Stands::Nowhere => Ok(()),
            Stands::Mirrored | Stands::Half | Stands::Everywhere => {
                self.write_blocks(alloc, self.unit, blocks, data)
            }
            Stands::Scattered => self.scatter(alloc, blocks, data),
            Stands::Parity => self.push_down(alloc, blocks, data),
        }
    }

    // Writes them in turn with those of another unit, which then goes, so that each second slot is a hole.
    fn scatter(&mut self, alloc: Global, blocks: u32, data: &Data) -> Result<(), WorkloadFault> {
        self.make(alloc, self.ballast, blocks)?;
        for rb in 0..blocks {
            self.write_block(alloc, self.unit, rb, data)?;
            self.write_block(alloc, self.ballast, rb, data)?;
        }
        self.change(alloc, EventOf::Remove(self.ballast))
    }

    // Writes them, fills the rest of the room, so that all blocks go to the parity level, and empties it again.
    fn push_down(&mut self, alloc: Global, blocks: u32, data: &Data) -> Result<(), WorkloadFault> {
        self.write_blocks(alloc, self.unit, blocks, data)?;
        let rest = self.array.free_room();
        self.make(alloc, self.ballast, rest)?;
        self.write_blocks(alloc, self.ballast, rest, data)?;
        self.change(alloc, EventOf::Remove(self.ballast))
    }

    fn make(&mut self, alloc: Global, addr: Addr, blocks: u32) -> Result<(), WorkloadFault> {
        let sectors = blocks.saturating_mul(self.size.geometry.sectors());
        self.change(alloc, EventOf::Make(addr, sectors))
    }

    // Every block has to stand at this level, and no disk may be down but as the workload needs it.
    fn check_levels(&self, level: LevelOf, health: Health) -> Result<(), WorkloadFault> {
        if self.array.health() != health {
            return Err(WorkloadFault::Health(self.workload.name()));
        }
        for rb in 0..self.size.blocks(self.plan.stands) {
            if self.array.level(self.unit, rb) != level {
                return Err(WorkloadFault::Level(self.workload.name()));
            }
        }
        Ok(())
    }

    /// Does the operations of a round.
    pub fn operate<R: Rng, S: Sink>(
        &mut self,
        alloc: Global,
        round: Round,
        data: &Data,
        rng: &mut R,
        sink: &mut S,
    ) -> Result<(), WorkloadFault> {
        for _ in 0..round.passes {
            self.passes = self.passes.wrapping_add(1);
            self.pass(alloc, round, data, rng, sink)?;
        }
        self.flush()
    }

    // Goes over the blocks once.
    fn pass<R: Rng, S: Sink>(
        &mut self,
        alloc: Global,
        round: Round,
        data: &Data,
        rng: &mut R,
        sink: &mut S,
    ) -> Result<(), WorkloadFault> {
        match self.plan.access {
            Access::ReadBlocks => self.read_blocks(alloc, round.blocks, sink),
            Access::WriteBlocks => self.write_blocks(alloc, self.unit, round.blocks, data),
            Access::ReadSectors => self.read_sectors(alloc, round.blocks, rng, sink),
            Access::WriteSectors => self.write_sectors(alloc, round.blocks, rng, data),
            Access::DemoteBlocks | Access::CleanBlocks => {
                self.move_blocks(alloc, round.operations())
            }
            Access::BalanceExtents | Access::RebuildExtents => {
                self.move_extents(alloc, round.operations())
            }
        }
    }

    /// Reads all blocks of the unit, in order.
    pub fn read_blocks<S: Sink>(
        &mut self,
        alloc: Global,
        blocks: u32,
        sink: &mut S,
    ) -> Result<(), WorkloadFault> {
        let sectors = self.size.geometry.sectors();
        for rb in 0..blocks {
            let bytes = self.read(alloc, rb.saturating_mul(sectors), sectors as u8)?;
            sink.take(bytes.as_slice());
        }
        Ok(())
    }

    fn write_blocks(
        &mut self,
        alloc: Global,
        addr: Addr,
        blocks: u32,
        data: &Data,
    ) -> Result<(), WorkloadFault> {
        for rb in 0..blocks {
            self.write_block(alloc, addr, rb, data)?;
        }
        Ok(())
    }

    fn write_block(
        &mut self,
        alloc: Global,
        addr: Addr,
        rb: u32,
        data: &Data,
    ) -> Result<(), WorkloadFault> {
        let sectors = self.size.geometry.sectors();
        self.write(
            alloc,
            addr,
            rb.saturating_mul(sectors),
            sectors as u8,
            data.block(rb.wrapping_add(self.passes))?,
        )
    }

    // Maintenance events, each of which has to move a block.
    fn move_blocks(&mut self, alloc: Global, count: u32) -> Result<(), WorkloadFault> {
        for _ in 0..count {
            if !matches!(self.move_block(alloc), Move::Moved { .. }) {
                return Err(self.unmoved());
            }
        }
        Ok(())
    }

    // An event in the background: a demotion, or else cleaning.
    fn move_block(&mut self, alloc: Global) -> Move {
        let event = if self.plan.access == Access::DemoteBlocks {
            EventOf::Demote
        } else {
            EventOf::Clean
        };
        match self.array.step(alloc, event) {
            OutcomeOf::Demote(moved) | OutcomeOf::Clean(moved) => moved,
            _ => Move::Broken,
        }
    }

    // Maintenance events, each of which has to move an extent or to form a group.
    fn move_extents(&mut self, alloc: Global, count: u32) -> Result<(), WorkloadFault> {
        for _ in 0..count {
            if !self.move_extent(alloc) {
                return Err(self.unmoved());
            }
        }
        Ok(())
    }

    // One step of balancing, or else of a rebuild. Says whether it changed anything.
    fn move_extent(&mut self, alloc: Global) -> bool {
        let event = if self.plan.access == Access::BalanceExtents {
            EventOf::Balance
        } else {
            EventOf::Rebuild
        };
        match self.array.step(alloc, event) {
            OutcomeOf::Balance(answer) => is_balanced(answer),
            OutcomeOf::Rebuild(answer) => is_rebuilt(answer),
            _other => false,
        }
    }

    // Reads sectors anywhere, as many as there are blocks.
    fn read_sectors<R: Rng, S: Sink>(
        &mut self,
        alloc: Global,
        blocks: u32,
        rng: &mut R,
        sink: &mut S,
    ) -> Result<(), WorkloadFault> {
        for _ in 0..blocks {
            let lba = self.any_sector(blocks, rng);
            let bytes = self.read(alloc, lba, 1)?;
            sink.take(bytes.as_slice());
        }
        Ok(())
    }

    // Writes sectors anywhere, as many as there are blocks.
    fn write_sectors<R: Rng>(
        &mut self,
        alloc: Global,
        blocks: u32,
        rng: &mut R,
        data: &Data,
    ) -> Result<(), WorkloadFault> {
        for turn in 0..blocks {
            let lba = self.any_sector(blocks, rng);
            self.write(alloc, self.unit, lba, 1, data.sector(turn)?)?;
        }
        Ok(())
    }

    fn any_sector<R: Rng>(&self, blocks: u32, rng: &mut R) -> u32 {
        let sectors = blocks.saturating_mul(self.size.geometry.sectors());
        rng.random_range(0..sectors.max(1))
    }

    fn read(&mut self, alloc: Global, lba: u32, count: u8) -> Result<Bytes, WorkloadFault> {
        self.command(
            alloc,
            self.unit,
            transfer(READ_10, lba, count),
            Bytes::new(),
        )
    }

    fn write(
        &mut self,
        alloc: Global,
        addr: Addr,
        lba: u32,
        count: u8,
        payload: Bytes,
    ) -> Result<(), WorkloadFault> {
        self.command(alloc, addr, transfer(WRITE_10, lba, count), payload)?;
        Ok(())
    }

    // Does a command, which has to be GOOD, and gives its data.
    fn command(
        &mut self,
        alloc: Global,
        addr: Addr,
        cdb: [u8; 16],
        payload: Bytes,
    ) -> Result<Bytes, WorkloadFault> {
        let Addr { host, lun } = addr;
        let event = EventOf::Cmd {
            host,
            lun,
            cdb,
            payload,
        };
        match self.array.step(alloc, event) {
            OutcomeOf::Cmd(reply) => self.payload_of(reply),
            _other => Err(self.refused()),
        }
    }

    // The data of a reply, which has to be GOOD.
    fn payload_of(&self, reply: Reply) -> Result<Bytes, WorkloadFault> {
        match reply.status {
            Status::Good => Ok(reply.payload),
            _ => Err(self.refused()),
        }
    }

    // Gives what is cached to the disks.
    fn flush(&mut self) -> Result<(), WorkloadFault> {
        match self.array.flush_all() {
            Completion::Done => Ok(()),
            Completion::Broken => Err(self.refused()),
        }
    }

    fn refused(&self) -> WorkloadFault {
        WorkloadFault::Command(self.workload.name())
    }

    fn unmoved(&self) -> WorkloadFault {
        WorkloadFault::Background(self.workload.name())
    }
}

// A command block of ten bytes: the operation code, where the sectors begin, and how many there are.
fn transfer(code: u8, lba: u32, count: u8) -> [u8; 16] {
    let [a, b, c, d] = lba.to_be_bytes();
    [code, 0, a, b, c, d, 0, 0, count, 0, 0, 0, 0, 0, 0, 0]
}

// The first unit of a host.
fn unit(number: u8) -> Option<Addr> {
    let host = Host::new(number)?;
    Some(Addr { host, lun: 0 })
}

// Whether units or disks were changed as was asked.
fn is_done(outcome: &Outcome<MemDisk>) -> bool {
    matches!(
        outcome,
        OutcomeOf::Make(Ok(()))
            | OutcomeOf::Remove(Ok(()))
            | OutcomeOf::AddDisk(Ok(()))
            | OutcomeOf::Replace(Ok(()))
    )
}

// Whether a step of balancing changed anything.
fn is_balanced(answer: Balance) -> bool {
    matches!(answer, Balance::Formed(_) | Balance::Shifted { .. })
}

// Whether a step of a rebuild did.
fn is_rebuilt(answer: Rebuild) -> bool {
    matches!(answer, Rebuild::Rebuilt(..) | Rebuild::Finished)
}

// An array of new disks without a unit.
fn new_array(alloc: Global, size: Size, cache: u32) -> Result<Array<MemDisk>, WorkloadFault>
    requires { cache ≤ 65536 }
{
    let disks = new_disks(alloc, size).map_err(|_| WorkloadFault::NoMemory)?;
    Array::start(alloc, disks, cache).map_err(|_| WorkloadFault::NoMemory)
}

// A new disk for an array to take in.
fn fresh_disk(alloc: Global, size: Size) -> Result<NewDisk<MemDisk>, WorkloadFault> {
    let disk = new_disk(alloc, size).map_err(|_| WorkloadFault::NoMemory)?;
    Ok(NewDisk::new(disk))
}

fn new_disks(alloc: Global, size: Size) -> Result<Vec<MemDisk>, AllocError>
    ensures { IfOk result (λ disks. All CanCount disks.items) }
{
    let mut disks = Vec::new(alloc);
    for _ in 0..size.disks {
        disks.push(new_disk(alloc, size)?)?;
    }
    Ok(disks)
}

fn new_disk(alloc: Global, size: Size) -> Result<MemDisk, AllocError>
    ensures { IfOk result CanCount }
{
    MemDisk::filled(alloc, size.geometry, size.extents, NEW_BYTE)
}
