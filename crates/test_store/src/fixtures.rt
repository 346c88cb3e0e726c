// Blocks and disks that tests are made of.
ghost use Rattle.std.specs.Prelude.{◌≡◌, All, map, IfOk, length};
ghost use Rattle.ar_disks.specs.Geometry.{block_len_of};
ghost use Rattle.ar_extents.specs.Set.{CanCount};

use ar_disks::{Block, FuseDisk, Geometry, MemDisk};
use std::alloc::{AllocError, Global};
use std::process::Abort;

/// More calls than any disk gets in a test.
pub const WHOLE: u64 = 1_000_000;

/// What the disks are that a store begins with, and those that are added.
#[derive(Clone, Copy, Debug)]
pub struct Shape {
    pub geometry: Geometry,
    pub disks: u8,
    /// Extents of each disk.
    pub extents: u16,
    /// How many reads and writes the first five disks pass, with those that are added. The others pass all.
    pub fuses: [u64; 5],
}

/// Four disks of three SMALL extents, which are three groups.
pub const THREE_GROUPS: Shape = Shape {
    geometry: Geometry::SMALL,
    disks: 4,
    extents: 3,
    fuses: [WHOLE; 5],
};

/// Four groups.
pub const FOUR_GROUPS: Shape = Shape {
    extents: 4,
    ..THREE_GROUPS
};

impl Shape {
    // How many calls a disk passes.
    fn fuse(self, disk: u8) -> u64 {
        self.fuses.get(usize::from(disk)).copied().unwrap_or(WHOLE)
    }
}

/// A block of one byte throughout.
pub fn filled(rt: &impl Abort, alloc: Global, geometry: Geometry, byte: u8) -> Block
    ensures { length result ≡ block_len_of geometry }
{
    let bytes = vec![in alloc; byte; geometry.block_len()].expect(rt, "memory");
    let mut block = Block::new(alloc, geometry).expect(rt, "memory");
    block.copy_from_slice(&bytes);
    block
}

/// The byte that all of these are, or None where they differ.
pub fn byte_of(bytes: &[u8]) -> Option<u8> {
    let first = *bytes.first()?;
    for byte in bytes {
        if *byte != first {
            return None;
        }
    }
    Some(first)
}

/// A disk filled with EE, which passes this many calls.
pub fn fused_disk(alloc: Global, shape: Shape, calls: u64) -> Result<FuseDisk, AllocError>
    ensures { IfOk result (λ disk. CanCount disk.disk) }
{
    let disk = MemDisk::filled(alloc, shape.geometry, shape.extents, 0xEE)?;
    Ok(FuseDisk::new(disk, calls))
}

/// The disks that a store begins with.
pub fn fused_disks(alloc: Global, shape: Shape) -> Result<Vec<FuseDisk>, AllocError>
    ensures { IfOk result (λ disks. All CanCount (map (λ disk. disk.disk) disks.items)) }
{
    let mut disks = Vec::new(alloc);
    for number in 0..shape.disks {
        disks.push(fused_disk(alloc, shape, shape.fuse(number))?)?;
    }
    Ok(disks)
}
