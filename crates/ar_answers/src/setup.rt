// What a new array is made of: its configuration, and new disks.
ghost use Rattle.std.specs.Prelude.{◌≡◌, IfOk};
ghost use Rattle.ar_answers.specs.Setups.{new_disk};

use ar_disks::{Geometry, MemDisk};
use std::alloc::{AllocError, Global};

/// The value of every byte of a new disk.
const NEW_BYTE: u8 = 0xEE;

/// The configuration of a new array.
#[derive(Clone, Copy, Debug, PartialEq, Eq)]
pub struct Setup {
    /// The geometry of the disks.
    pub geometry: Geometry,
    /// The number of disks, 4 to 12.
    pub disks: u8,
    /// Extents of each disk, 1 to 1,024.
    pub extents: u16,
    /// The capacity of the cache in blocks, 0 to 65,536. With 0 each block is written through.
    pub cache: u32,
}

/// A new disk, which is filled with one byte. Fails only when out of memory.
pub fn new_disk(alloc: Global, geometry: Geometry, extents: u16) -> Result<MemDisk, AllocError>
    ensures { IfOk result (λ disk. disk ≡ new_disk geometry extents) }
{
    MemDisk::filled(alloc, geometry, extents, NEW_BYTE)
}
