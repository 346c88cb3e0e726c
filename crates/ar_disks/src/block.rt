// A relocation block: a byte buffer that no call resizes.
ghost use Rattle.std.specs.Prelude.{◌≡◌, ◌+◌, ◌*◌, ◌≤◌, ◌<◌, length, IfOk, List, ℕ};
ghost use Rattle.ar_disks.specs.Geometry.{block_len_of};
ghost use Rattle.ar_disks.specs.Block.{zeros, sectors_at, with_sectors};

use crate::bytes::{overwrite, zero};
use crate::geometry::{Geometry, SECTOR_LEN};
use std::alloc::{AllocError, Global};
use std::marker::Model;

/// The bytes of one relocation block, on the heap. Contracts see it as the list of its bytes.
///
/// Only `new` allocates, and no call changes the length.
#[derive(Debug, Drop)]
pub struct Block {
    bytes: Vec<u8>,
}

impl Model for Block {
    ghost Value = { List ℕ };

    ghost view = { λ block. block.bytes.items };
}

impl Block {
    ghost use Rattle.std.specs.Borrow.{sem};
    ghost use Rattle.ar_disks.specs.Lending.{LendsBytes};

    #[tactic(auto, unfolding(crate::specs::Block::zeros))]
    /// A block of `geometry.block_len()` zero bytes. Fails if out of memory.
    pub fn new(alloc: Global, geometry: Geometry) -> Result<Block, AllocError>
        ensures zero { IfOk result (λ block. block ≡ zeros (block_len_of geometry)) }
        ensures len { IfOk result (λ block. length block ≡ block_len_of geometry) }
    {
        let bytes = vec![in alloc; 0; geometry.block_len()]?;
        Ok(Block { bytes })
    }

    /// The bytes.
    pub fn bytes(&self) -> &[u8]
        ensures { result.now ≡ self.now }
    {
        &self.bytes
    }

    /// The bytes, to be overwritten in place: the block then has the last bytes after the result.
    pub fn bytes_mut(&mut self) -> &mut [u8]
        ensures* writes_back { sem 𝓛 (LendsBytes self.entry result) }
        ensures value { result.now ≡ self.old }
    {
        self.bytes.as_mut_slice()
    }

    /// Sets every byte to zero.
    pub fn zero(&mut self)
        ensures zero { self.new ≡ zeros (length self.old) }
        ensures len { length self.new ≡ length self.old }
    {
        zero(&mut self.bytes);
    }

    /// Copies `bytes`, which are as long as the block.
    pub fn copy_from_slice(&mut self, bytes: &[u8])
        requires { length bytes.now ≡ length self.old }
        ensures { self.new ≡ bytes.now }
    {
        self.bytes.copy_from_slice(bytes);
    }

    /// Sector `index`: 512 bytes.
    pub fn sector(&self, index: usize) -> &[u8]
        requires { 512 * (index + 1) ≤ length self.now }
        ensures bytes { result.now ≡ sectors_at self.now index 1 }
        ensures len { length result.now ≡ 512 }
    {
        self.sectors(index, 1)
    }

    #[tactic(auto, unfolding(crate::specs::Block::sectors_at))]
    /// `count` sectors, from sector `first` on.
    pub fn sectors(&self, first: usize, count: usize) -> &[u8]
        requires { 512 * (first + count) ≤ length self.now }
        ensures bytes { result.now ≡ sectors_at self.now first count }
        ensures len { length result.now ≡ 512 * count }
    {
        &self.bytes[first * SECTOR_LEN..(first + count) * SECTOR_LEN]
    }

    /// Overwrites sector `index` with 512 bytes. The other sectors stay.
    pub fn set_sector(&mut self, index: usize, bytes: &[u8])
        requires exists { 512 * (index + 1) ≤ length self.old }
        requires whole { length bytes.now ≡ 512 }
        ensures sectors { self.new ≡ with_sectors self.old index bytes.now }
        ensures len { length self.new ≡ length self.old }
    {
        self.set_sectors(index, bytes);
    }

    #[tactic(auto, unfolding(crate::specs::Block::with_sectors))]
    /// Overwrites the block with `bytes` from sector `first` on. The other bytes stay. Callers pass whole sectors.
    pub fn set_sectors(&mut self, first: usize, bytes: &[u8])
        requires { 512 * first + length bytes.now ≤ length self.old }
        ensures sectors { self.new ≡ with_sectors self.old first bytes.now }
        ensures len { length self.new ≡ length self.old }
    {
        overwrite(&mut self.bytes, first * SECTOR_LEN, bytes);
    }
}
