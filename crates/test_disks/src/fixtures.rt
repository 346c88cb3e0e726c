// Blocks and disks that tests are made of.
ghost use Rattle.std.specs.Prelude.{◌≡◌, All, map, IfOk, length};
ghost use Rattle.ar_disks.specs.Geometry.{block_len_of};
ghost use Rattle.ar_extents.specs.Set.{CanCount};

use ar_disks::{Block, FuseDisk, Geometry, MemDisk};
use std::alloc::{AllocError, Global};

/// More calls than any disk gets in a test.
pub const WHOLE: u64 = 1_000_000;

/// A block of one byte throughout.
pub fn filled(alloc: Global, geometry: Geometry, byte: u8) -> Result<Block, AllocError>
    ensures { IfOk result (λ block. length block ≡ block_len_of geometry) }
{
    let bytes = vec![in alloc; byte; geometry.block_len()]?;
    let mut block = Block::new(alloc, geometry)?;
    block.copy_from_slice(&bytes);
    Ok(block)
}

/// The byte that all of these are, or None where they differ.
pub fn byte_of(bytes: &[u8]) -> Option<u8> {
    let first = *bytes.first()?;
    for byte in bytes {
        if *byte != first {
            return None;
        }
    }
    Some(first)
}

/// What a disk is made of, and how many reads and writes it passes.
#[derive(Clone, Copy, Debug)]
pub struct Shape {
    pub geometry: Geometry,
    pub extents: u16,
    pub calls: u64,
}

impl Shape {
    /// The same with another fuse.
    pub fn with_fuse(self, calls: u64) -> Shape {
        Shape { calls, ..self }
    }
}

/// A disk filled with EE.
pub fn fused_disk(alloc: Global, shape: Shape) -> Result<FuseDisk, AllocError>
    ensures { IfOk result (λ disk. CanCount disk.disk) }
{
    let disk = MemDisk::filled(alloc, shape.geometry, shape.extents, 0xEE)?;
    Ok(FuseDisk::new(disk, shape.calls))
}

/// A disk of each shape.
pub fn fused_disks(alloc: Global, shapes: &[Shape]) -> Result<Vec<FuseDisk>, AllocError>
    ensures { IfOk result (λ disks. All CanCount (map (λ disk. disk.disk) disks.items)) }
{
    let mut disks = Vec::new(alloc);
    for shape in shapes {
        disks.push(fused_disk(alloc, *shape)?)?;
    }
    Ok(disks)
}
