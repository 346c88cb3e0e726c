// Arrays to be tested: small disks, every byte of them EE, of which one may fault.
ghost use Rattle.std.specs.Prelude.{◌≡◌, [], All, map, IfOk, IfSome};
ghost use Rattle.ar_extents.specs.Set.{CanCount};

use ar_core::{Array, NewDisk};
use ar_disks::{FuseDisk, Geometry, MemDisk};
use std::alloc::{AllocError, Global};

/// An array, and the disk of it that faults.
#[derive(Clone, Copy, Debug)]
pub struct Shape {
    pub disks: u8,
    /// Extents of each disk.
    pub extents: u16,
    /// Blocks that the cache holds.
    pub cache: u16,
    /// The disk that faults.
    pub weak: u8,
    /// The reads and writes that it passes before.
    pub calls: u64,
}

/// Four groups of four sound disks, written through.
pub const FOUR_GROUPS: Shape = Shape {
    disks: 4,
    extents: 4,
    cache: 0,
    weak: 0,
    calls: u64::MAX,
};

impl Shape {
    /// A new array without a unit. What memory refuses once is asked for once more.
    pub fn array(self, alloc: Global) -> Option<Array<FuseDisk>>
        ensures { IfSome result (λ array. array.store.book.units ≡ []) }
    {
        let disks = match fused_disks(alloc, self) {
            Ok(disks) => disks,
            Err(_) => fused_disks(alloc, self).ok()?,
        };
        match Array::start(alloc, disks, u32::from(self.cache)) {
            Ok(array) => Some(array),
            Err((_, disks)) => Array::start(alloc, disks, u32::from(self.cache)).ok(),
        }
    }

    /// A disk for such an array that passes `calls` reads and writes. What memory refuses once is asked for once more.
    pub fn new_disk(self, alloc: Global, calls: u64) -> Result<NewDisk<FuseDisk>, AllocError> {
        match fused_disk(alloc, self.extents, calls) {
            Ok(disk) => Ok(NewDisk::new(disk)),
            Err(_) => Ok(NewDisk::new(fused_disk(alloc, self.extents, calls)?)),
        }
    }
}

/// The disks of an array.
pub fn fused_disks(alloc: Global, shape: Shape) -> Result<Vec<FuseDisk>, AllocError>
    ensures { IfOk result (λ disks. All CanCount (map (λ disk. disk.disk) disks.items)) }
{
    let mut disks = Vec::new(alloc);
    for number in 0..shape.disks {
        let calls = if number == shape.weak {
            shape.calls
        } else {
            u64::MAX
        };
        disks.push(fused_disk(alloc, shape.extents, calls)?)?;
    }
    Ok(disks)
}

fn fused_disk(alloc: Global, extents: u16, calls: u64) -> Result<FuseDisk, AllocError>
    ensures { IfOk result (λ disk. CanCount disk.disk) }
{
    let disk = MemDisk::filled(alloc, Geometry::SMALL, extents, 0xEE)?;
    Ok(FuseDisk::new(disk, calls))
}
