// Which of a unit's blocks were written. The others have neither a home nor a cache entry, and read as zeros.
ghost use Rattle.std.specs.Prelude.{◌≡◌, ◌+◌, ◌≤◌, ◌<◌, ℕ, false};
ghost use Rattle.ar_disks.specs.Block.{zeros};
ghost use Rattle.ar_disks.specs.Geometry.{block_len_of};
ghost use Rattle.ar_volume.specs.Image.{geometry_of, seen_at};
ghost use Rattle.ar_volume.specs.Sectors.{key_of};
ghost use Rattle.ar_core.specs.Allocation.{alike, allocation_of, is_alike};

use crate::Array;
use ar_disks::{Addr, Disk, Key};
use ar_volume::Blocks;

/// Blocks of a unit in a row that were all written, or none of them, so that they read as zeros.
#[derive(Clone, Copy, Debug, PartialEq, Eq)]
pub struct Allocation {
    pub is_written: bool,
    /// How many blocks; none where there is no such block.
    pub blocks: u32,
}

impl<D: Disk> Array<D> {
    /// Returns whether block `rb` (from 0) of the unit at `addr` was written, and how many blocks from it on, `most` at
    /// most, are as it is.
    #[tactic(auto, using(crate::proofs::Allocating::unwritten_run))]
    pub fn allocation(&self, addr: Addr, rb: u32, most: u32) -> Allocation
        ensures allocation { result ≡ allocation_of self.now addr rb most }
        ensures zeros { result.is_written ≡ false → (i : ℕ) → i < result.blocks
            → seen_at self.now (key_of addr (rb + i)) ≡ zeros (block_len_of (geometry_of self.now)) }
    {
        let is_written = !self.blocks.is_unwritten(Key { addr, rb });
        let left = self.blocks.book().blocks(addr).saturating_sub(rb);
        Allocation {
            is_written,
            blocks: alike(&self.blocks, addr, is_written, rb, most.min(left)),
        }
    }
}

// How many of the `most` blocks from `rb` on come before the first that differs.
fn alike<D: Disk>(blocks: &Blocks<D>, addr: Addr, is_written: bool, rb: u32, most: u32) -> u32
    requires { rb + most ≤ 4294967295 }
    ensures { result ≡ alike blocks.now addr is_written rb most }
{
    let mut count = 0;
    for i in 0..most {
        if count == i && is_alike(blocks, is_written, Key { addr, rb: rb + i }) {
            count += 1;
        }
    }
    count
}

// Whether a block was written, or whether it wasn't.
fn is_alike<D: Disk>(blocks: &Blocks<D>, is_written: bool, key: Key) -> bool
    ensures { result ≡ is_alike blocks.now is_written key }
{
    if is_written {
        !blocks.is_unwritten(key)
    } else {
        blocks.is_unwritten(key)
    }
}
