// Read-only views of the tables and of rows on the disks. A view changes no unit's contents; reading a row may meet a
// fault of its disk.
ghost use Rattle.std.specs.Prelude.{◌≡◌, ◌≢◌, ◌↔◌, ℕ, ◌+◌, ◌-◌, ◌*◌, ◌<◌, false, IsTrue, map, length, IfOk};
ghost use Rattle.ar_disks.specs.Geometry.{block_len_of, rows_of};
ghost use Rattle.ar_disks.specs.declared.address.Addr.{Addr};
ghost use Rattle.ar_book.specs.Tables.{room, reserved, free_groups};
ghost use Rattle.ar_store.specs.Kept.{IsKept};
ghost use Rattle.ar_cache.specs.Cache.{cached_of};
ghost use Rattle.ar_volume.specs.Image.{is_broken, geometry_of, image, image_at, IsPadded, CacheAgrees};
ghost use Rattle.ar_volume.specs.Sectors.{Address};
ghost use Rattle.ar_unit.specs.Unit.{IsWhole};
ghost use Rattle.ar_core.specs.Quiet.{LooksAt};
ghost use Rattle.ar_core.specs.Views.{level_at, home_of, sectors_at, use_of, HasRow, Shows};

use crate::{Array, Class, Counters, Health, Slot};
use ar_book::{Book, Level};
use ar_disks::{Addr, Block, Disk, Geometry, Key, Place};
use ar_extents::{DiskSet, Got};
use std::alloc::{AllocError, Global};

/// The level at which a unit's block is stored.
#[derive(Clone, Copy, Debug, PartialEq, Eq)]
pub enum LevelOf {
    /// There is no unit at this address.
    Absent,
    /// The block is past the unit's end.
    Outside,
    /// The block has no slot on the disks yet.
    Unplaced,
    /// In a mirrored group.
    Mirrored,
    /// In a parity group (RAID 5 layout).
    Parity,
}

/// The slot that stores a unit's block (its home).
#[derive(Clone, Copy, Debug, PartialEq, Eq)]
pub enum HomeOf {
    /// There is no unit at this address.
    Absent,
    /// The block is past the unit's end.
    Outside,
    /// The block has no slot on the disks yet.
    Unplaced,
    /// In this slot.
    At(Slot),
}

/// The class of a group and the number of blocks that it stores.
#[derive(Clone, Copy, Debug, PartialEq, Eq)]
pub struct GroupUse {
    pub class: Class,
    pub blocks: u16,
}

/// The result of reading a row of an extent.
#[derive(Clone, Copy, Debug, PartialEq, Eq)]
pub enum Shown {
    /// There is no such disk, extent or row.
    Outside,
    /// The array has failed, perhaps by this read.
    Broken,
    /// The extent is missing, perhaps since this read.
    Missing,
    /// The row was read.
    Bytes,
}

impl<D: Disk> Array<D> {
    /// The geometry of the blocks.
    pub fn geometry(&self) -> Geometry
        ensures { result ≡ geometry_of self.now }
    {
        self.blocks.geometry()
    }

    /// How many extents each disk has.
    pub fn extents(&self) -> u16
        ensures { result ≡ self.now.store.disks.extents }
    {
        self.blocks.disks().extents()
    }

    /// Returns the length of the unit at `addr` in sectors, or None if there is no unit.
    pub fn sectors(&self, addr: Addr) -> Option<u32>
        ensures { result ≡ sectors_at self.now.store.book addr }
    {
        self.blocks.book().sectors(addr)
    }

    /// Returns the level of block `rb` (from 0) of the unit at `addr`.
    pub fn level(&self, addr: Addr, rb: u32) -> LevelOf
        ensures { result ≡ level_at self.now.store.book addr rb }
    {
        level_in(self.blocks.book(), addr, rb)
    }

    /// Returns the slot that stores block `rb` (from 0) of the unit at `addr`.
    pub fn home_of(&self, addr: Addr, rb: u32) -> HomeOf
        ensures { result ≡ home_of self.now.store.book addr rb }
    {
        home_in(self.blocks.book(), addr, rb)
    }

    /// Lists the use of each group, by group number. Fails only when out of memory.
    pub fn groups(&self, alloc: Global) -> Result<Vec<GroupUse>, AllocError>
        ensures { IfOk result (λ groups. groups.items ≡ map use_of self.now.store.book.groups) }
    {
        uses_of(alloc, self.blocks.book())
    }

    /// Returns how many more blocks units may have in all: the capacity of all groups but one as parity groups, less
    /// the blocks of the units that exist.
    pub fn free_room(&self) -> u32
        ensures room { result ≡ room self.now.store.book }
        ensures kept { reserved self.now.store.book + result
            ≡ 3 * rows_of (geometry_of self.now) * (length self.now.store.book.groups - 1) }
    {
        self.blocks.book().room()
    }

    /// Returns what was counted since the start.
    pub fn counters(&self) -> Counters {
        self.blocks.counters()
    }

    /// Returns the number of cached blocks.
    pub fn cached_blocks(&self) -> usize
        ensures { result ≡ length self.now.cache.entries }
    {
        self.blocks.cached_blocks()
    }

    /// Returns the number of cached blocks of the unit at `addr`.
    pub fn cached_blocks_of(&self, addr: Addr) -> usize
        ensures { result ≡ cached_of self.now.cache addr }
    {
        self.blocks.cached_blocks_of(addr)
    }

    /// How many groups are free.
    pub fn free_groups(&self) -> u32
        ensures { result ≡ free_groups self.now.store.book }
    {
        self.blocks.book().free_groups()
    }

    /// Returns the health: healthy, one disk failed or being rebuilt, or the array failed.
    pub fn health(&self) -> Health
        ensures health { result ≡ self.now.store.disks.health }

        // Until data loss at least one group is free, so no write is refused for lack of space.
        ensures free { result ≢ Health.Broken → 0 < free_groups self.now.store.book }
        ensures padded { IsPadded self.now }

        // The tables are consistent with each other and with the disks, so that a healthy array survives the failure of
        // any one disk (`any_disk_may_go`), and every cached block belongs to a unit.
        ensures kept { IsKept self.now.store }
        ensures joined { CacheAgrees self.now }

        // Until data loss every sector of every unit has its 512 bytes.
        ensures whole { result ≢ Health.Broken → (a : Address) → IsWhole (image self.now a) }
    {
        self.blocks.health()
    }

    /// Reads row `row` of extent `extent` of disk `disk`, all from 0, into `into`, a block of the geometry's length.
    /// Unless it returns `Bytes`, the contents of `into` are unspecified. A missing extent isn't accessed. No row of
    /// any disk changes; a fault takes the disk out.
    pub fn block_at(&mut self, disk: u8, extent: u16, row: u16, into: &mut Block) -> Shown
        requires whole { length into.old ≡ block_len_of (geometry_of self.old) }
        ensures shows { Shows self.old.store.disks self.new.store.disks
            (record { disk = disk; extent = extent }) row into.new result }
        ensures looks { LooksAt self.old self.new }
        ensures images { is_broken self.new ≡ false → (addr : Addr) → image_at self.new addr ≡ image_at self.old addr }
        ensures len { length into.new ≡ length into.old }
    {
        let place = Place { disk, extent };
        if !has_row(self.blocks.disks(), place, row) {
            return Shown::Outside;
        }
        match self.blocks.read_place(place, row, into.bytes_mut()) {
            Got::Read => Shown::Bytes,
            Got::Missing => Shown::Missing,
            Got::Broken => Shown::Broken,
        }
    }
}

// The level of block `rb` of the unit at `addr`.
fn level_in(book: &Book, addr: Addr, rb: u32) -> LevelOf
    ensures { result ≡ level_at book.now addr rb }
{
    if book.sectors(addr).is_none() {
        return LevelOf::Absent;
    }
    if rb >= book.blocks(addr) {
        return LevelOf::Outside;
    }
    match book.level(Key { addr, rb }) {
        Level::Unplaced => LevelOf::Unplaced,
        Level::Mirrored => LevelOf::Mirrored,
        Level::Parity => LevelOf::Parity,
    }
}

// The slot of block `rb` of the unit at `addr`.
fn home_in(book: &Book, addr: Addr, rb: u32) -> HomeOf
    ensures { result ≡ home_of book.now addr rb }
{
    if book.sectors(addr).is_none() {
        return HomeOf::Absent;
    }
    if rb >= book.blocks(addr) {
        return HomeOf::Outside;
    }
    match book.home(Key { addr, rb }) {
        Some(slot) => HomeOf::At(slot),
        None => HomeOf::Unplaced,
    }
}

// Whether the extent exists and has this row.
fn has_row<D: Disk>(disks: &DiskSet<D>, place: Place, row: u16) -> bool
    ensures { IsTrue result ↔ HasRow disks.now place row }
{
    place.disk < disks.count() && place.extent < disks.extents() && row < disks.geometry().rows()
}

// The use of each group.
fn uses_of(alloc: Global, book: &Book) -> Result<Vec<GroupUse>, AllocError>
    ensures { IfOk result (λ groups. groups.items ≡ map use_of book.now.groups) }
{
    let count = book.groups();
    let mut uses = Vec::with_capacity(alloc, count as usize)?;
    for group in 0..count {
        uses.push_reserved(GroupUse {
            class: book.class(group),
            blocks: book.used(group),
        });
    }
    Ok(uses)
}
