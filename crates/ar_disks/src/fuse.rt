// Fault injection for tests: a disk that passes a number of accesses, fails at the next one and stays failed.
ghost use Rattle.std.specs.Prelude.{◌≡◌, ◌+◌, ◌*◌, ◌-◌, ◌<◌, ◌≤◌, ◌↔◌, IsTrue, false, length};
ghost use Rattle.std.specs.Bool.{OnTrue, OnFalse};
ghost use Rattle.ar_disks.specs.Geometry.{block_len_of};
ghost use Rattle.ar_disks.specs.Block.{with_sectors};
ghost use Rattle.ar_disks.specs.Disk.{HasPlace, Reads, ReadsPart, Writes, block_at};

use crate::{Disk, Geometry, MemDisk};
use std::marker::Model;

/// A disk in memory that passes `left` reads and writes and fails at the next one.
#[derive(Debug, Drop)]
pub struct FuseDisk {
    disk: MemDisk,
    left: u64,
    gone: bool,
    faults: u64,
}

impl Model for FuseDisk {
    ghost use Rattle.std.specs.Prelude.{◌≡◌, IsTrue};
    ghost use Rattle.ar_disks.specs.Fuse.{FuseState};

    ghost Value = { FuseState };

    ghost view = { λ f. record { disk = record f.disk { gone = f.gone; faults = f.faults }; left = f.left } };

    ghost invariant = { λ f. IsTrue f.gone → f.left ≡ 0 };
}

impl FuseDisk {
    ghost use Rattle.ar_disks.specs.Fuse.{blown};

    /// The disk `disk` with a fuse of `calls` reads and writes. It has not failed yet and has counted no fault.
    pub fn new(disk: MemDisk, calls: u64) -> FuseDisk
        ensures disk { result.disk ≡ disk }
        ensures left { result.left ≡ calls }
    {
        FuseDisk {
            disk,
            left: calls,
            gone: false,
            faults: 0,
        }
    }

    /// The number of reads and writes that still pass.
    pub fn left(&self) -> u64
        ensures { result ≡ self.now.left }
    {
        self.left
    }

    // Uses up one access of the fuse, or fails the disk and counts an access and a fault where none is left.
    fn passes(&mut self) -> bool
        ensures passes { IsTrue result ↔ (0 < self.old.left) }
        ensures used { OnTrue result (self.new ≡ record self.old { left = self.old.left - 1 }) }
        ensures blown { OnFalse result (self.new ≡ blown self.old) }
        ensures there { IsTrue result → self.old.disk.gone ≡ false }
    {
        if self.left > 0 {
            self.left -= 1;
            return true;
        }
        self.disk.count_access();
        self.gone = true;
        self.faults = self.faults.saturating_add(1);
        false
    }
}

impl Disk for FuseDisk {
    ghost use Rattle.ar_disks.specs.Fuse.{blown};

    ghost state = { λ fuse. fuse.disk };

    fn geometry(&self) -> Geometry {
        self.disk.geometry()
    }

    fn extents(&self) -> u16 {
        self.disk.extents()
    }

    fn read(&mut self, ext: u16, row: u16, into: &mut [u8]) -> bool
        requires place { HasPlace self.old.disk ext row }
        requires whole { length into.old ≡ block_len_of self.old.disk.geometry }
        ensures read { Reads self.old.disk self.new.disk ext row result into.new }
        // It passes `left` accesses. The next one fails the disk and counts a fault; the bytes stay.
        ensures fuse { IsTrue result ↔ (0 < self.old.left) }
        ensures left { self.new.left ≡ self.old.left - 1 }
        ensures blown { OnFalse result (self.new ≡ blown self.old) }
    {
        self.passes() && self.disk.read(ext, row, into)
    }

    fn write(&mut self, ext: u16, row: u16, from: &[u8]) -> bool
        requires place { HasPlace self.old.disk ext row }
        requires whole { length from.now ≡ block_len_of self.old.disk.geometry }
        ensures written { Writes self.old.disk self.new.disk ext row result from.now }
        // It passes `left` accesses. The next one fails the disk and counts a fault; the bytes stay.
        ensures fuse { IsTrue result ↔ (0 < self.old.left) }
        ensures left { self.new.left ≡ self.old.left - 1 }
        ensures blown { OnFalse result (self.new ≡ blown self.old) }
    {
        self.passes() && self.disk.write(ext, row, from)
    }

    fn read_part(&mut self, ext: u16, row: u16, first: usize, into: &mut [u8]) -> bool
        requires place { HasPlace self.old.disk ext row }
        requires within { 512 * first + length into.old ≤ block_len_of self.old.disk.geometry }
        ensures read { ReadsPart self.old.disk self.new.disk ext row first result into.new }
        // It passes `left` accesses. The next one fails the disk and counts a fault; the bytes stay.
        ensures fuse { IsTrue result ↔ (0 < self.old.left) }
        ensures left { self.new.left ≡ self.old.left - 1 }
        ensures blown { OnFalse result (self.new ≡ blown self.old) }
    {
        self.passes() && self.disk.read_part(ext, row, first, into)
    }

    fn write_part(&mut self, ext: u16, row: u16, first: usize, from: &[u8]) -> bool
        requires place { HasPlace self.old.disk ext row }
        requires within { 512 * first + length from.now ≤ block_len_of self.old.disk.geometry }
        ensures written { Writes self.old.disk self.new.disk ext row result
            (with_sectors (block_at self.old.disk ext row) first from.now) }
        // It passes `left` accesses. The next one fails the disk and counts a fault; the bytes stay.
        ensures fuse { IsTrue result ↔ (0 < self.old.left) }
        ensures left { self.new.left ≡ self.old.left - 1 }
        ensures blown { OnFalse result (self.new ≡ blown self.old) }
    {
        self.passes() && self.disk.write_part(ext, row, first, from)
    }

    fn faults(&self) -> u64 {
        self.faults
    }
}
