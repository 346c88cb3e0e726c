// The interface of a disk. A write changes its own place alone and a read changes none, whatever they return, and each
// is one access.
ghost use Rattle.std.specs.Prelude.{◌≡◌, ◌+◌, ◌*◌, ◌≤◌, length};
ghost use Rattle.ar_disks.specs.Geometry.{block_len_of};
ghost use Rattle.ar_disks.specs.Block.{with_sectors};
ghost use Rattle.ar_disks.specs.Disk.{DiskState, HasPlace, Reads, ReadsPart, Writes, block_at};

use crate::Geometry;

/// A disk of equal extents, each of `geometry().rows()` rows. A row is as long as a block.
///
/// A faulting access fails the disk (`gone`) permanently. Until then a read returns what was last written at the place,
/// or the disk's first contents.
pub trait Disk {
    /// The disk's contents, whether it has failed, its fault count, and the number of its reads and writes.
    ghost state: { Self → DiskState };

    /// The geometry, which no access changes.
    fn geometry(&self) -> Geometry
        ensures { result ≡ (state self.now).geometry };

    /// The number of extents, which no access changes.
    fn extents(&self) -> u16
        ensures { result ≡ (state self.now).extents };

    /// Reads the block at row `row` of extent `ext` into `into`. Returns false if the disk faults in this call or had
    /// failed before; `into` then has unspecified bytes.
    fn read(&mut self, ext: u16, row: u16, into: &mut [u8]) -> bool
        requires place { HasPlace (state self.old) ext row }
        requires whole { length into.old ≡ block_len_of (state self.old).geometry }
        ensures read { Reads (state self.old) (state self.new) ext row result into.new };

    /// Writes the block `from` to row `row` of extent `ext`, and to no other place. Returns false if the disk faults in
    /// this call or had failed before; the place then has unspecified bytes.
    fn write(&mut self, ext: u16, row: u16, from: &[u8]) -> bool
        requires place { HasPlace (state self.old) ext row }
        requires whole { length from.now ≡ block_len_of (state self.old).geometry }
        ensures written { Writes (state self.old) (state self.new) ext row result from.now };

    /// Reads a part of the block at row `row` of extent `ext`, from sector `first` on, into `into`. Callers pass whole
    /// sectors. It is one access, and returns false as `read` does.
    fn read_part(&mut self, ext: u16, row: u16, first: usize, into: &mut [u8]) -> bool
        requires place { HasPlace (state self.old) ext row }
        requires within { 512 * first + length into.old ≤ block_len_of (state self.old).geometry }
        ensures read { ReadsPart (state self.old) (state self.new) ext row first result into.new };

    /// Overwrites a part of the block at row `row` of extent `ext` with `from`, from sector `first` on. Callers pass
    /// whole sectors. The block's other bytes stay, unless it returns false: then the whole block is unspecified, as
    /// after `write`. It is one access.
    fn write_part(&mut self, ext: u16, row: u16, first: usize, from: &[u8]) -> bool
        requires place { HasPlace (state self.old) ext row }
        requires within { 512 * first + length from.now ≤ block_len_of (state self.old).geometry }
        ensures written { Writes (state self.old) (state self.new) ext row result
            (with_sectors (block_at (state self.old) ext row) first from.now) };

    /// The number of accesses that have returned false, saturating at `u64::MAX`.
    fn faults(&self) -> u64
        ensures { result ≡ (state self.now).faults };
}
