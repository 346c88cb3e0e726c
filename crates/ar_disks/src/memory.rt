// A disk in memory, which never faults. Its bytes are one allocation, extent by extent and row by row (R rows each):
//
//     extent 0                           extent 1
//     | row 0 | row 1 | .. | row R-1 |   | row 0 | row 1 | ..
ghost use Rattle.std.specs.Prelude.{◌≡◌, ◌*◌, ◌+◌, ◌<◌, ◌≤◌, IsTrue, IfOk, length, replicate};
ghost use Rattle.ar_disks.specs.Geometry.{extent_len_of, block_len_of};
ghost use Rattle.ar_disks.specs.Block.{with_sectors};
ghost use Rattle.ar_disks.specs.Disk.{HasPlace, Reads, ReadsPart, Writes, block_at, offset_of};

use crate::bytes::overwrite;
use crate::geometry::SECTOR_LEN;
use crate::{AccessCount, Disk, Geometry};
use std::alloc::{AllocError, Global};
use std::marker::Model;

/// A disk in memory that never faults. Contracts see it as a `DiskState`.
#[derive(Debug, Drop)]
pub struct MemDisk {
    geometry: Geometry,
    extents: u16,
    bytes: Vec<u8>,
    accesses: AccessCount,
}

impl Model for MemDisk {
    ghost use Rattle.std.specs.Prelude.{◌≡◌, ◌*◌, length};
    ghost use Rattle.ar_disks.specs.Geometry.{extent_len_of};
    ghost use Rattle.ar_disks.specs.Disk.{DiskState};
    ghost use Rattle.ar_disks.specs.Memory.{sound_disk, accessed};

    ghost Value = { DiskState };

    ghost view = { λ d. accessed (sound_disk d.geometry d.extents d.bytes.items) d.accesses.count };

    ghost invariant = { λ d. length d.bytes.items ≡ d.extents * extent_len_of d.geometry };
}

impl MemDisk {
    ghost use Rattle.ar_disks.specs.Memory.{sound_disk, accessed};

    /// A disk whose first contents are `bytes`, extent by extent.
    pub fn new(geometry: Geometry, extents: u16, bytes: Vec<u8>) -> MemDisk
        requires { length bytes.items ≡ extents * extent_len_of geometry }
        ensures { result ≡ sound_disk geometry extents bytes.items }
    {
        MemDisk {
            geometry,
            extents,
            bytes,
            accesses: AccessCount::new(),
        }
    }

    /// A disk with `byte` in every place. Fails if out of memory.
    pub fn filled(
        alloc: Global,
        geometry: Geometry,
        extents: u16,
        byte: u8,
    ) -> Result<MemDisk, AllocError>
        ensures { IfOk result (λ disk. disk
            ≡ sound_disk geometry extents (replicate (extents * extent_len_of geometry) byte)) }
    {
        let bytes = vec![in alloc; byte; disk_len(geometry, extents)]?;
        Ok(MemDisk::new(geometry, extents, bytes))
    }

    /// Counts an access that a disk over this one has refused, and makes none. No code over `Disk` can call this.
    pub fn count_access(&mut self)
        ensures { self.new ≡ accessed self.old (self.old.accesses + 1) }
    {
        self.accesses.tick();
    }
}

impl Disk for MemDisk {
    ghost state = { λ disk. disk };

    fn geometry(&self) -> Geometry {
        self.geometry
    }

    fn extents(&self) -> u16 {
        self.extents
    }

    fn read(&mut self, ext: u16, row: u16, into: &mut [u8]) -> bool
        requires place { HasPlace self.old ext row }
        requires whole { length into.old ≡ block_len_of self.old.geometry }
        ensures read { Reads self.old self.new ext row result into.new }
        // It never faults.
        ensures sound { IsTrue result }
    {
        self.accesses.tick();
        let from = offset(self.geometry, ext, row);
        into.copy_from_slice(&self.bytes[from..from + self.geometry.block_len()]);
        true
    }

    fn write(&mut self, ext: u16, row: u16, from: &[u8]) -> bool
        requires place { HasPlace self.old ext row }
        requires whole { length from.now ≡ block_len_of self.old.geometry }
        ensures written { Writes self.old self.new ext row result from.now }
        // It never faults.
        ensures sound { IsTrue result }
    {
        self.accesses.tick();
        let to = offset(self.geometry, ext, row);
        overwrite(&mut self.bytes, to, from);
        true
    }

    fn read_part(&mut self, ext: u16, row: u16, first: usize, into: &mut [u8]) -> bool
        requires place { HasPlace self.old ext row }
        requires within { 512 * first + length into.old ≤ block_len_of self.old.geometry }
        ensures read { ReadsPart self.old self.new ext row first result into.new }
        // It never faults.
        ensures sound { IsTrue result }
    {
        self.accesses.tick();
        let from = offset(self.geometry, ext, row) + first * SECTOR_LEN;
        into.copy_from_slice(&self.bytes[from..from + into.len()]);
        true
    }

    fn write_part(&mut self, ext: u16, row: u16, first: usize, from: &[u8]) -> bool
        requires place { HasPlace self.old ext row }
        requires within { 512 * first + length from.now ≤ block_len_of self.old.geometry }
        ensures written { Writes self.old self.new ext row result
            (with_sectors (block_at self.old ext row) first from.now) }
        // It never faults.
        ensures sound { IsTrue result }
    {
        self.accesses.tick();
        let to = offset(self.geometry, ext, row) + first * SECTOR_LEN;
        overwrite(&mut self.bytes, to, from);
        true
    }

    fn faults(&self) -> u64 {
        let _geometry = &self.geometry;
        0
    }
}

// The size of a disk, in bytes.
fn disk_len(geometry: Geometry, extents: u16) -> usize
    ensures { result ≡ extents * extent_len_of geometry }
{
    usize::from(extents) * (usize::from(geometry.rows()) * geometry.block_len())
}

// The offset of a row of an extent in a disk's bytes.
fn offset(geometry: Geometry, ext: u16, row: u16) -> usize
    ensures { result ≡ offset_of geometry ext row }
{
    (usize::from(ext) * usize::from(geometry.rows()) + usize::from(row)) * geometry.block_len()
}
