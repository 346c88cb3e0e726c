// The blocks of all units: a write-back cache over the store. The invariant: every cached block belongs to a unit and
// has the store's geometry (`CacheAgrees`).
ghost use Rattle.std.specs.Prelude.{◌≡◌, ◌≢◌, ◌<◌, [], false, OnOk, MatchOption, length};
ghost use Rattle.ar_disks.specs.declared.address.Key.{Key};
ghost use Rattle.ar_disks.specs.Block.{zeros};
ghost use Rattle.ar_disks.specs.Geometry.{block_len_of, rows_of};
ghost use Rattle.ar_extents.specs.Set.{HasExtent};
ghost use Rattle.ar_extents.specs.Access.{Gets, is_read};
ghost use Rattle.ar_extents.specs.Plans.{Attempts, read_at};
ghost use Rattle.ar_book.specs.Tables.{has_unit};
ghost use Rattle.ar_cache.specs.Cache.{cached, cached_of};
ghost use Rattle.ar_volume.specs.Image.{is_broken, geometry_of, seen_at, knows_in, attention_at};
ghost use Rattle.ar_volume.specs.Following.{ArrayFollows};
ghost use Rattle.ar_volume.specs.Laws.{follows_refl, follows_then};
ghost use Rattle.ar_volume.specs.Storing.{BreaksBlock, PutsBlock, ReadsBlock, in_place_at};

use crate::behind::Behind;
use crate::{Flush, Refusal};
use ar_book::Book;
use ar_cache::{Backing, Cache};
use ar_disks::{Addr, Completion, Disk, Geometry, Key, Place};
use ar_extents::{DiskSet, Got, Health};
use ar_store::Store;
use std::alloc::Global;
use std::marker::Model;

/// The blocks of all units, by key. A read returns the cached block if there is one.
#[derive(Drop)]
pub struct Blocks<D: Disk> {
    pub(crate) cache: Cache,
    pub(crate) behind: Behind<D>,
    // How many blocks were read, from the cache or from behind it. It saturates, and no contract sees it.
    reads: u64,
    // How many blocks were discarded. The same holds of it.
    pub(crate) discards: u64,
}

/// What was counted since the start, in numbers that saturate. No contract sees them.
#[derive(Clone, Copy, Debug, PartialEq, Eq)]
pub struct Counters {
    /// Writes that moved their block from a parity group to a mirrored one.
    pub promotions: u64,
    /// Mirrored groups that were moved to a parity group to make room for a write.
    pub squeezes: u64,
    /// Blocks that a READ, or a WRITE of a part of them, found in the cache.
    pub cache_hits: u64,
    /// Cached blocks that were written back, by eviction or by a flush.
    pub destages: u64,
    /// Blocks of which all sectors were discarded at once, by UNMAP or WRITE SAME.
    pub discards: u64,
}

impl<D: Disk> Model for Blocks<D> {
    ghost use Rattle.ar_volume.specs.Image.{ArrayState, CacheAgrees};

    ghost Value = { ArrayState };

    ghost view = { λ b. record { store = b.behind.store; cache = b.cache } };

    ghost invariant = { λ b. CacheAgrees (record { store = b.behind.store; cache = b.cache }) };
}

impl<D: Disk> Backing for Blocks<D> {
    ghost block_at = { seen_at };

    ghost knows = { λ b. knows_in b.store };

    ghost geometry = { geometry_of };

    ghost in_place = { in_place_at };

    ghost is_broken = { is_broken };

    ghost follows = { ArrayFollows };

    ghost gets = { ReadsBlock };

    ghost puts = { PutsBlock };

    ghost breaks = { BreaksBlock };

    fn get(&mut self, key: Key, into: &mut [u8]) -> Completion {
        if self.is_broken() {
            return Completion::Broken;
        }
        self.reads = self.reads.saturating_add(1);
        self.cache.get(key, into, &mut self.behind)
    }

    fn get_part(&mut self, key: Key, first: usize, into: &mut [u8]) -> Completion {
        if self.is_broken() {
            return Completion::Broken;
        }
        self.reads = self.reads.saturating_add(1);
        self.cache.get_part(key, first, into, &mut self.behind)
    }

    fn put(&mut self, key: Key, from: &[u8]) -> Completion {
        if self.is_broken() {
            return Completion::Broken;
        }
        self.cache.put(key, from, &mut self.behind)
    }

    fn is_in_place(&self, key: Key) -> bool {
        self.cache.writes_through() && self.behind.is_in_place(key)
    }

    fn put_part(&mut self, key: Key, first: usize, from: &[u8]) -> Completion {
        if self.is_broken() {
            return Completion::Broken;
        }
        self.cache.put_part(key, first, from, &mut self.behind)
    }

    ghost follows_refl = { follows_refl };

    ghost follows_trans = { follows_then };
}

impl<D: Disk> Blocks<D> {
    ghost use Rattle.ar_store.specs.Kept.{IsKept};
    ghost use Rattle.ar_volume.specs.Image.{CacheAgrees};
    ghost use Rattle.ar_volume.specs.Seen.{IsUnit};

    /// Creates the blocks of the units of `store`, behind an empty cache of its geometry.
    pub fn new(store: Store<D>, cache: Cache) -> Blocks<D>
        requires geometry { cache.geometry ≡ store.disks.geometry }
        requires empty { cache.entries ≡ [] }
        ensures { result ≡ record { store = store; cache = cache } }
    {
        Blocks {
            cache,
            behind: Behind { store, reads: 0 },
            reads: 0,
            discards: 0,
        }
    }

    /// Returns the health of the array; its contract states the invariant.
    pub fn health(&self) -> Health
        ensures health { result ≡ self.now.store.disks.health }
        ensures joined { CacheAgrees self.now }
        ensures kept { IsKept self.now.store }
        ensures whole { result ≢ Health.Broken → (k : Key)
            → length (seen_at self.now k) ≡ block_len_of (geometry_of self.now) }
    {
        // The cache is called for its invariant alone: its blocks are of full length.
        let _cached = self.cache.len();
        self.behind.store.health()
    }

    /// Returns whether the array has failed: the data are lost.
    pub fn is_broken(&self) -> bool
        ensures broken { result ≡ is_broken self.now }
        ensures whole { result ≡ false → (k : Key) → length (seen_at self.now k) ≡ block_len_of (geometry_of self.now) }
    {
        matches!(self.health(), Health::Broken)
    }

    /// Returns the tables of groups and units.
    pub fn book(&self) -> &Book
        ensures book { result.now ≡ self.now.store.book }
        ensures kept { IsKept self.now.store }
    {
        &self.behind.store.space.book
    }

    /// Returns the disk set.
    pub fn disks(&self) -> &DiskSet<D>
        ensures { result.now ≡ self.now.store.disks }
    {
        &self.behind.store.space.disks
    }

    /// Returns what was counted since the start.
    pub fn counters(&self) -> Counters {
        Counters {
            promotions: self.behind.store.promotions(),
            squeezes: self.behind.store.squeezes(),
            cache_hits: self.reads.saturating_sub(self.behind.reads),
            destages: self.cache.destages(),
            discards: self.discards,
        }
    }

    /// Returns the number of cached blocks.
    pub fn cached_blocks(&self) -> usize
        ensures { result ≡ length self.now.cache.entries }
    {
        self.cache.len()
    }

    /// Returns the number of cached blocks of the unit at `addr`.
    pub fn cached_blocks_of(&self, addr: Addr) -> usize
        ensures { result ≡ cached_of self.now.cache addr }
    {
        self.cache.len_of(addr)
    }

    /// Returns the geometry of the blocks.
    pub fn geometry(&self) -> Geometry
        ensures { result ≡ geometry_of self.now }
    {
        self.disks().geometry()
    }

    /// Returns the length of the unit at `addr` in sectors; None if there is no unit.
    pub fn sectors(&self, addr: Addr) -> Option<u32>
        ensures { MatchOption result (has_unit self.now.store.book addr ≡ false) (IsUnit self.now addr) }
    {
        self.book().sectors(addr)
    }

    /// Returns whether the unit at `addr` has a pending UNIT ATTENTION.
    pub fn attention(&self, addr: Addr) -> bool
        ensures { result ≡ attention_at self.now.store.book addr }
    {
        self.book().attention(addr)
    }
}

// Events of units, and raw reads. A failed array refuses create, resize and delete.
impl<D: Disk> Blocks<D> {
    ghost use Rattle.ar_book.specs.Changes.{unmarked};
    ghost use Rattle.ar_book.specs.Book.{TablesAgree};
    ghost use Rattle.ar_volume.specs.Image.{with_book};
    ghost use Rattle.ar_volume.specs.Seen.{SameSeen, SamePlaces};
    ghost use Rattle.ar_volume.specs.Changes.{Makes, Grows, Removes};

    /// Creates a unit of `sectors` zero sectors. Errors: `Broken`, then those of `Store::make`; an error changes
    /// nothing.
    pub fn make(&mut self, addr: Addr, sectors: u32) -> Result<(), Refusal>
        ensures makes { Makes self.old addr sectors result self.new }
        ensures seen { SameSeen self.old self.new }
    {
        if self.is_broken() {
            return Err(Refusal::Broken);
        }
        self.behind.store.make(addr, sectors).map_err(Refusal::Unit)
    }

    /// Extends a unit to `sectors` sectors, the new ones zero, and sets its pending UNIT ATTENTION. Errors: `Broken`,
    /// then those of `Store::grow`; an error changes nothing.
    pub fn grow(&mut self, addr: Addr, sectors: u32) -> Result<(), Refusal>
        ensures grows { Grows self.old addr sectors result self.new }
        ensures seen { SameSeen self.old self.new }
    {
        if self.is_broken() {
            return Err(Refusal::Broken);
        }
        self.behind.store.grow(addr, sectors).map_err(Refusal::Unit)
    }

    /// Deletes a unit and discards its cached blocks. Errors: `Broken`, then `Absent`; an error changes nothing.
    pub fn remove(&mut self, addr: Addr) -> Result<(), Refusal>
        ensures removes { Removes self.old addr result self.new }
        ensures tables { TablesAgree self.old.store.book }
        ensures others { (k : Key) → k.addr ≢ addr → seen_at self.new k ≡ seen_at self.old k }
        ensures zeros { OnOk result ((k : Key) → k.addr ≡ addr
            → seen_at self.new k ≡ zeros (block_len_of (geometry_of self.old))) }
    {
        if let Health::Broken = self.health() {
            return Err(Refusal::Broken);
        }
        self.behind.store.drop_unit(addr).map_err(Refusal::Unit)?;
        self.cache.forget(addr);
        Ok(())
    }

    /// Clears a unit's pending UNIT ATTENTION.
    pub fn clear_attention(&mut self, addr: Addr)
        ensures cleared { self.new ≡ with_book self.old (unmarked self.old.store.book addr) }
        ensures seen { SameSeen self.old self.new }
    {
        self.behind.store.clear_attention(addr);
    }

    /// Reads row `row` of the extent `place` from its disk, past the cache. Unless it returns `Read`, the contents of
    /// `into` are unspecified.
    pub fn read_place(&mut self, place: Place, row: u16, into: &mut [u8]) -> Got
        requires place { HasExtent self.old.store.disks place }
        requires row { row < rows_of (geometry_of self.old) }
        requires whole { length into.old ≡ block_len_of (geometry_of self.old) }

        ensures answer { Gets self.old.store.disks self.new.store.disks place row into.new result }
        // Exactly this access is made: one read, or none where the extent is lost.
        ensures made { Attempts (read_at place row) (is_read result) self.old.store.disks self.new.store.disks }

        ensures places { SamePlaces self.old self.new }
        ensures seen { is_broken self.new ≡ false → SameSeen self.old self.new }
        ensures follows { ArrayFollows self.old self.new }
    {
        self.behind.store.read_place(place, row, into)
    }
}
