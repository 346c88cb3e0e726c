// The invariant: at most `capacity` entries, with different keys, each one block long. If the backing fails in a call,
// the entry that was being destaged is still there.
ghost use Rattle.std.specs.Prelude.{◌≡◌, ◌≢◌, ◌+◌, ◌*◌, ◌==◌, ◌≤◌, ◌<◌, ◌↔◌, ◌∷◌, ◌++◌, length, reverse, []};
ghost use Rattle.std.specs.Prelude.{IfOk, IfSome, IsTrue, IsSome, false, is_some};
ghost use Rattle.std.specs.Map.{keys_of};
ghost use Rattle.std.specs.Bool.{OnTrue, OnFalse};
ghost use Rattle.ar_disks.specs.Block.{part_at, with_sectors};
ghost use Rattle.ar_disks.specs.Geometry.{block_len_of};
ghost use Rattle.ar_disks.specs.declared.address.Key.{Key};
ghost use Rattle.ar_cache.specs.Backing.{IsHonest, stored, KeepsBacking};

use crate::answers::Flush;
use crate::backing::Backing;
use crate::entries::{copy_part, last_key, peek, replace};
use ar_disks::{Addr, Block, Completion, Geometry, Key};
use lru::LruCache;
use std::alloc::{AllocError, Global};
use std::marker::Model;
use std::num::NonZeroUsize;

/// The greatest capacity of a cache, in blocks.
pub const CAPACITY_LIMIT: u32 = 65_536;

/// A write-back cache: the blocks of some keys, dirty until they are destaged. Contracts see its geometry, its capacity
/// and its entries, the most recently used first.
#[derive(Debug, Drop)]
pub struct Cache {
    alloc: Global,
    geometry: Geometry,
    capacity: u32,
    entries: LruCache<Key, Block>,
    // A block without an entry, kept for the next one: so a full cache allocates one block at most.
    spare: Option<Block>,
    // How many entries have left because the backing has their blocks. It saturates, and no contract sees it.
    destages: u64,
}

impl Model for Cache {
    ghost use Rattle.std.specs.Prelude.{◌≡◌, max, IfSome, length};
    ghost use Rattle.ar_disks.specs.Geometry.{block_len_of};
    ghost use Rattle.ar_cache.specs.Cache.{CacheState, IsValidCache};

    ghost Value = { CacheState };

    ghost view = { λ c. record { geometry = c.geometry; capacity = c.capacity; entries = c.entries.entries } };

    ghost invariant = { λ c. IsValidCache
        (record { geometry = c.geometry; capacity = c.capacity; entries = c.entries.entries })
        × (c.entries.cap ≡ max c.capacity 1)
        × IfSome c.spare (λ block. length block ≡ block_len_of c.geometry) };
}

impl Cache {
    ghost use Rattle.ar_cache.specs.Cache.{CacheState, IsValidCache, KnowsAll, GetsBehind, PutsInCache, KeepsReads};
    ghost use Rattle.ar_cache.specs.Cache.{Flushes, DestagesKey, DestagesLast, RemovesEntry, Empties, StopsAt};
    ghost use Rattle.ar_cache.specs.Cache.{answer_of, cached, cached_of, seen, turned, with_entries, with_room};
    ghost use Rattle.ar_cache.specs.Cache.{without_addr, without_key, without_last};
    ghost use Rattle.ar_disks.specs.Addresses.{same_addr};

    /// Creates an empty cache for `capacity` blocks (at most 65,536; 0 writes through). Fails if out of memory.
    pub fn new(alloc: Global, geometry: Geometry, capacity: u32) -> Result<Cache, AllocError>
        requires { capacity ≤ 65536 }
        ensures { IfOk result (λ cache.
            cache ≡ record { geometry = geometry; capacity = capacity; entries = [] }) }
    {
        let places = NonZeroUsize::new(capacity as usize).unwrap_or(NonZeroUsize::MIN);
        Ok(Cache {
            alloc,
            geometry,
            capacity,
            entries: LruCache::new(alloc, places)?,
            spare: None,
            destages: 0,
        })
    }

    /// Returns the number of cached blocks.
    pub fn len(&self) -> usize
        ensures len { result ≡ length self.now.entries }
        ensures sound { IsValidCache self.now }
    {
        self.entries.len()
    }

    /// Returns how many blocks of the unit at `addr` are cached.
    pub fn len_of(&self, addr: Addr) -> usize
        ensures { result ≡ cached_of self.now addr }
    {
        self.entries
            .iter()
            .filter(|entry| entry.0.addr == addr)
            .count()
    }

    /// Returns how many entries were destaged: evicted or flushed, and not written through or discarded. The number
    /// saturates.
    pub fn destages(&self) -> u64 {
        self.destages
    }

    /// Returns whether no block is cached.
    pub fn is_empty(&self) -> bool
        ensures { IsTrue result ↔ (self.now.entries ≡ []) }
    {
        self.len() == 0
    }

    /// Returns whether the block of `key` is cached.
    pub fn holds(&self, key: Key) -> bool
        ensures { result ≡ is_some (cached self.now key) }
    {
        peek(&self.entries, key).is_some()
    }

    /// Returns whether no block is ever cached, as the capacity is 0.
    pub fn writes_through(&self) -> bool
        ensures { result ≡ self.now.capacity == 0 }
    {
        self.capacity == 0
    }

    /// Reads the block of `key`: the cached one, without access to the backing, else the backing's. After `Broken` the
    /// contents of `into` are unspecified.
    pub fn get<B: Backing>(&self, key: Key, into: &mut [u8], backing: &mut B) -> Completion
        requires geometry { B.geometry backing.old ≡ self.now.geometry }
        requires known { IsTrue (B.knows backing.old key) }
        requires whole { length into.old ≡ block_len_of self.now.geometry }

        ensures content { result ≡ Completion.Done → into.new ≡ seen self.now (B.block_at backing.old) key }
        ensures behind { GetsBehind B.block_at B.is_broken B.gets self.now key result backing.old backing.new }
        ensures keeps { KeepsBacking B.geometry B.knows B.is_broken B.follows backing.old backing.new }
    {
        match peek(&self.entries, key) {
            Some(block) => {
                into.copy_from_slice(block.bytes());
                Completion::Done
            }
            None => backing.get(key, into),
        }
    }

    /// Reads a part of the block that `get` reads, from sector `first` on. Callers read whole sectors. After `Broken`
    /// the contents of `into` are unspecified.
    pub fn get_part<B: Backing>(
        &self,
        key: Key,
        first: usize,
        into: &mut [u8],
        backing: &mut B,
    ) -> Completion
        requires geometry { B.geometry backing.old ≡ self.now.geometry }
        requires known { IsTrue (B.knows backing.old key) }
        requires within { 512 * first + length into.old ≤ block_len_of self.now.geometry }

        ensures content { result ≡ Completion.Done
            → into.new ≡ part_at (seen self.now (B.block_at backing.old) key) first (length into.old) }
        ensures behind { GetsBehind B.block_at B.is_broken B.gets self.now key result backing.old backing.new }
        ensures keeps { KeepsBacking B.geometry B.knows B.is_broken B.follows backing.old backing.new }
    {
        match peek(&self.entries, key) {
            Some(block) => {
                copy_part(block, first, into);
                Completion::Done
            }
            None => backing.get_part(key, first, into),
        }
    }

    /// Writes the block of `key` to the cache, as the most recently used.
    ///
    /// A cached key's block is overwritten. For a new key a full cache first destages its least recently used entry. If
    /// the allocation of the new entry fails, or the capacity is 0, the block is written through to the backing. At
    /// `Broken` the cache is unchanged.
    pub fn put<B: Backing>(&mut self, key: Key, block: &[u8], backing: &mut B) -> Completion
        requires geometry { B.geometry backing.old ≡ self.old.geometry }
        requires known { IsTrue (B.knows backing.old key) }
        requires all_known { KnowsAll (B.knows backing.old) self.old }
        requires whole { length block.now ≡ block_len_of self.old.geometry }

        ensures puts { PutsInCache B.block_at B.is_broken B.puts B.breaks self.old key block.now result self.new
            backing.old backing.new }
        ensures all_known { KnowsAll (B.knows backing.new) self.new }
        ensures keeps { KeepsBacking B.geometry B.knows B.is_broken B.follows backing.old backing.new }
    {
        if replace(&mut self.entries, key, block) {
            return Completion::Done;
        }
        self.put_new(key, block, backing)
    }

    /// Overwrites the block of `key` in the backing, where it is, from sector `first` on. The capacity is 0, so a `put`
    /// of the whole block would be written through, too.
    pub fn put_part<B: Backing>(
        &self,
        key: Key,
        first: usize,
        from: &[u8],
        backing: &mut B,
    ) -> Completion
        requires geometry { B.geometry backing.old ≡ self.now.geometry }
        requires known { IsTrue (B.knows backing.old key) }
        requires through { self.now.capacity ≡ 0 }
        requires in_place { IsTrue (B.in_place backing.old key) }
        requires within { 512 * first + length from.now ≤ block_len_of self.now.geometry }

        ensures puts { PutsInCache B.block_at B.is_broken B.puts B.breaks self.now key
            (with_sectors (seen self.now (B.block_at backing.old) key) first from.now) result self.now
            backing.old backing.new }
        ensures keeps { KeepsBacking B.geometry B.knows B.is_broken B.follows backing.old backing.new }
    {
        // The entries are read for the invariant alone: there are none.
        let _entries = &self.entries;
        backing.put_part(key, first, from)
    }

    /// Destages the least recently used entry: writes its block to the backing, then drops it. `Idle` if there is none.
    /// At `Broken` the entry stays.
    pub fn flush_one<B: Backing>(&mut self, backing: &mut B) -> Flush
        requires geometry { B.geometry backing.old ≡ self.old.geometry }
        requires all_known { KnowsAll (B.knows backing.old) self.old }

        ensures entries { Flushes result self.old self.new }
        ensures idle { (result ≡ Flush.Idle) ↔ (self.old.entries ≡ []) }
        ensures behind { DestagesLast B.block_at B.puts B.breaks self.old.entries result backing.old backing.new }
        ensures rest { KeepsReads B.block_at B.geometry B.knows B.is_broken B.follows self.old
            (0 < length self.old.entries) (answer_of result) self.new backing.old backing.new }
    {
        let answer = self.destage_last(backing);
        if let Flush::Flushed(_) = answer {
            self.drop_destaged();
        }
        answer
    }

    /// Destages the entry of `key`, if there is one. At `Broken` the entry stays.
    pub fn flush_key<B: Backing>(&mut self, key: Key, backing: &mut B) -> Completion
        requires geometry { B.geometry backing.old ≡ self.old.geometry }
        requires all_known { KnowsAll (B.knows backing.old) self.old }

        ensures removed { result ≡ Completion.Done → RemovesEntry self.old key self.new }
        ensures broken { result ≡ Completion.Broken → self.new ≡ self.old }
        ensures behind { DestagesKey B.block_at B.puts B.breaks self.old key result backing.old backing.new }
        ensures rest { KeepsReads B.block_at B.geometry B.knows B.is_broken B.follows self.old
            (IsSome (cached self.old key)) result self.new backing.old backing.new }
    {
        let Some(block) = peek(&self.entries, key) else {
            return Completion::Done;
        };
        match backing.put(key, block.bytes()) {
            Completion::Done => {
                self.take_out(key);
                Completion::Done
            }
            Completion::Broken => Completion::Broken,
        }
    }

    /// Destages every entry, the least recently used first. At `Broken` the entry whose destaging failed stays, and so
    /// do those after it.
    pub fn flush_all<B: Backing>(&mut self, backing: &mut B) -> Completion
        requires geometry { B.geometry backing.old ≡ self.old.geometry }
        requires all_known { KnowsAll (B.knows backing.old) self.old }

        ensures emptied { Empties B.puts self.old result self.new backing.old backing.new }
        ensures broken { result ≡ Completion.Broken
            → StopsAt B.block_at B.is_broken B.follows B.puts B.breaks self.old self.new backing.old backing.new }
        ensures rest { KeepsReads B.block_at B.geometry B.knows B.is_broken B.follows self.old
            (0 < length self.old.entries) result self.new backing.old backing.new }
    {
        while self.len() > 0 {
            if let Flush::Broken = self.flush_one(backing) {
                return Completion::Broken;
            }
        }
        Completion::Done
    }

    /// Discards the entries of `addr` without destaging them. The other entries keep their order.
    pub fn forget(&mut self, addr: Addr)
        ensures entries { self.new ≡ with_entries self.old (without_addr self.old.entries addr) }
        ensures gone { (key : Key) → IsTrue (same_addr addr key.addr) → cached self.new key ≡ None }
        ensures others { (key : Key) → same_addr addr key.addr ≡ false
            → cached self.new key ≡ cached self.old key }
    {
        for _ in 0..self.len() {
            self.turn(addr);
        }
    }

    /// Discards the entry of `key`, if there is one, without destaging it. The other entries keep their order.
    pub fn discard(&mut self, key: Key)
        ensures { RemovesEntry self.old key self.new }
    {
        self.remove(key);
    }

    // Discards the least recently used entry if it belongs to `addr`, and else makes it the most recently used.
    fn turn(&mut self, addr: Addr)
        requires { 0 < length self.old.entries }
        ensures { self.new ≡ with_entries self.old (turned self.old.entries addr) }
    {
        let Some(key) = last_key(&self.entries) else {
            return;
        };
        if addr == key.addr {
            self.drop_last();
        } else {
            self.entries.promote(&key);
        }
    }

    // Writes the block of a key that isn't cached.
    fn put_new<B: Backing>(&mut self, key: Key, block: &[u8], backing: &mut B) -> Completion
        requires geometry { B.geometry backing.old ≡ self.old.geometry }
        requires known { IsTrue (B.knows backing.old key) }
        requires all_known { KnowsAll (B.knows backing.old) self.old }
        requires whole { length block.now ≡ block_len_of self.old.geometry }
        requires absent { cached self.old key ≡ None }

        ensures puts { PutsInCache B.block_at B.is_broken B.puts B.breaks self.old key block.now result self.new
            backing.old backing.new }
        ensures all_known { KnowsAll (B.knows backing.new) self.new }
        ensures keeps { KeepsBacking B.geometry B.knows B.is_broken B.follows backing.old backing.new }
    {
        if self.capacity == 0 {
            return backing.put(key, block);
        }
        if self.len() < self.capacity as usize {
            self.put_beside(key, block, backing)
        } else {
            self.put_over(key, block, backing)
        }
    }

    // The same if the cache isn't full.
    fn put_beside<B: Backing>(&mut self, key: Key, block: &[u8], backing: &mut B) -> Completion
        requires geometry { B.geometry backing.old ≡ self.old.geometry }
        requires known { IsTrue (B.knows backing.old key) }
        requires all_known { KnowsAll (B.knows backing.old) self.old }
        requires whole { length block.now ≡ block_len_of self.old.geometry }
        requires absent { cached self.old key ≡ None }
        requires room { length self.old.entries < self.old.capacity }

        ensures puts { PutsInCache B.block_at B.is_broken B.puts B.breaks self.old key block.now result self.new
            backing.old backing.new }
        ensures all_known { KnowsAll (B.knows backing.new) self.new }
        ensures keeps { KeepsBacking B.geometry B.knows B.is_broken B.follows backing.old backing.new }
    {
        if self.insert(key, block) {
            return Completion::Done;
        }
        backing.put(key, block)
    }

    // The same if the cache is full. The old entry is dropped last, so that at `Broken` the cache is unchanged.
    fn put_over<B: Backing>(&mut self, key: Key, block: &[u8], backing: &mut B) -> Completion
        requires geometry { B.geometry backing.old ≡ self.old.geometry }
        requires known { IsTrue (B.knows backing.old key) }
        requires all_known { KnowsAll (B.knows backing.old) self.old }
        requires whole { length block.now ≡ block_len_of self.old.geometry }
        requires absent { cached self.old key ≡ None }
        requires full { self.old.capacity ≤ length self.old.entries }
        requires some { 0 < self.old.capacity }

        ensures puts { PutsInCache B.block_at B.is_broken B.puts B.breaks self.old key block.now result self.new
            backing.old backing.new }
        ensures all_known { KnowsAll (B.knows backing.new) self.new }
        ensures keeps { KeepsBacking B.geometry B.knows B.is_broken B.follows backing.old backing.new }
    {
        if let Flush::Broken = self.destage_last(backing) {
            return Completion::Broken;
        }
        if self.insert(key, block) {
            return Completion::Done;
        }
        match backing.put(key, block) {
            Completion::Done => {
                self.drop_destaged();
                Completion::Done
            }
            Completion::Broken => Completion::Broken,
        }
    }

    // Gives the backing the least recently used block, whose entry stays.
    fn destage_last<B: Backing>(&self, backing: &mut B) -> Flush
        requires geometry { B.geometry backing.old ≡ self.now.geometry }
        requires all_known { KnowsAll (B.knows backing.old) self.now }

        ensures sound { IsValidCache self.now }
        ensures behind { DestagesLast B.block_at B.puts B.breaks self.now.entries result backing.old backing.new }

        ensures answer { IsHonest (answer_of result) (B.is_broken backing.old) (B.is_broken backing.new) }
        ensures asked { 0 < length self.now.entries → answer_of result ≡ stored (B.is_broken backing.new) }
        ensures keeps { KeepsBacking B.geometry B.knows B.is_broken B.follows backing.old backing.new }
    {
        match self.entries.peek_lru() {
            Some((key, block)) => match backing.put(*key, block.bytes()) {
                Completion::Done => Flush::Flushed(*key),
                Completion::Broken => Flush::Broken,
            },
            None => Flush::Idle,
        }
    }

    // Adds an entry as the most recently used, in a full cache in place of the last, which was destaged. Returns false
    // if out of memory.
    fn insert(&mut self, key: Key, block: &[u8]) -> bool
        requires absent { cached self.old key ≡ None }
        requires whole { length block.now ≡ block_len_of self.old.geometry }
        requires some { 0 < self.old.capacity }
        ensures put { OnTrue result
            (self.new ≡ with_entries self.old ((key, block.now) ∷ with_room self.old)) }
        ensures refused { OnFalse result (self.new ≡ self.old) }
    {
        let Some(mut copy) = self.blank() else {
            return false;
        };
        copy.copy_from_slice(block);
        match self.entries.push(key, copy) {
            Ok(Some((_, evicted))) => {
                self.spare = Some(evicted);
                self.destages = self.destages.saturating_add(1);
                true
            }
            Ok(None) => true,
            Err(refused) => {
                self.spare = Some(refused.value.1);
                false
            }
        }
    }

    // A block for a new entry: the spare one, else a new allocation.
    fn blank(&mut self) -> Option<Block>
        ensures same { self.new ≡ self.old }
        ensures whole { IfSome result (λ block. length block ≡ block_len_of self.old.geometry) }
    {
        match self.spare.take() {
            Some(block) => Some(block),
            None => Block::new(self.alloc, self.geometry).ok(),
        }
    }

    // Removes the entry of a key, which was destaged.
    fn take_out(&mut self, key: Key)
        ensures { self.new ≡ with_entries self.old (without_key self.old.entries key) }
    {
        self.destages = self.destages.saturating_add(1);
        self.remove(key);
    }

    // Removes the entry of a key, if there is one.
    fn remove(&mut self, key: Key)
        ensures entries { self.new ≡ with_entries self.old (without_key self.old.entries key) }
        ensures sound { IsValidCache self.old }
    {
        if let Some(block) = self.entries.pop(&key) {
            self.spare = Some(block);
        }
    }

    // Removes the least recently used entry, which was destaged.
    fn drop_destaged(&mut self)
        ensures { self.new ≡ with_entries self.old (without_last self.old.entries) }
    {
        self.destages = self.destages.saturating_add(1);
        self.drop_last();
    }

    // Removes the least recently used entry.
    fn drop_last(&mut self)
        ensures { self.new ≡ with_entries self.old (without_last self.old.entries) }
    {
        if let Some((_, block)) = self.entries.pop_lru() {
            self.spare = Some(block);
        }
    }
}
