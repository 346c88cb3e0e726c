// A backing in memory: blocks of zeros under the keys that were added. It breaks at a call that the test chooses, and
// counts what it was asked. It claims to know every key, and breaks at one that was not added: so a test that names one
// shows it by its answer.
ghost use Rattle.std.specs.Prelude.{◌≡◌, ◌+◌, ◌*◌, ◌≤◌, [], IsTrue, Some, IsSome, length, unwrap_or};
ghost use Rattle.std.specs.Bool.{OnTrue};
ghost use Rattle.std.specs.Map.{lookup, set_value};
ghost use Rattle.ar_cache.specs.Cache.{same_key};
ghost use Rattle.ar_disks.specs.Block.{part_at, with_sectors};
ghost use Rattle.ar_disks.specs.Geometry.{block_len_of};
ghost use Rattle.ar_disks.specs.declared.geometry.Geometry.TheVariants.{Small};

use ar_cache::Backing;
use ar_disks::{Block, Completion, Geometry, Key, SECTOR_LEN};
use indexmap::IndexMap;
use std::alloc::{AllocError, Global};

#[derive(Drop)]
pub struct Shelf {
    blocks: IndexMap<Key, Block>,
    broken: bool,
    calls_left: u32,
    gets: u32,
    puts: u32,
}

impl Shelf {
    /// An empty shelf, which breaks at the call after this many.
    pub fn new(alloc: Global, calls: u32) -> Shelf {
        Shelf {
            blocks: IndexMap::new(alloc),
            broken: false,
            calls_left: calls,
            gets: 0,
            puts: 0,
        }
    }

    /// Puts a small block of zeros under a key.
    pub fn add(&mut self, alloc: Global, key: Key) -> Result<(), AllocError> {
        let block = Block::new(alloc, Geometry::SMALL)?;
        match self.blocks.insert(key, block) {
            Ok(_) => Ok(()),
            Err(_) => Err(AllocError),
        }
    }

    /// How many reads and writes came.
    pub fn asked(&self) -> (u32, u32) {
        (self.gets, self.puts)
    }

    // Counts a call down, and says whether the shelf is broken at it.
    fn breaks(&mut self) -> bool
        ensures answer { result ≡ self.new.broken }
        ensures same { self.new.blocks ≡ self.old.blocks }
        ensures stays { IsTrue self.old.broken → IsTrue self.new.broken }
    {
        if self.calls_left == 0 {
            self.broken = true;
        } else {
            self.calls_left -= 1;
        }
        self.broken
    }
}

impl Backing for Shelf {
    ghost use Rattle.std.specs.Prelude.{[], ⊤, true, unwrap_or};
    ghost use Rattle.ar_disks.specs.declared.geometry.Geometry.TheVariants.{Small};
    ghost use Rattle.std.specs.Map.{lookup};
    ghost use Rattle.ar_cache.specs.Cache.{same_key};

    ghost block_at = { λ s key. unwrap_or (lookup (same_key key) s.blocks.entries) [] };

    ghost knows = { λ _ _. true };

    ghost geometry = { λ _. Small };

    ghost in_place = { λ _ _. true };

    ghost is_broken = { λ s. s.broken };

    ghost follows = { λ _ _. ⊤ };

    ghost gets = { λ _ _ _. ⊤ };

    ghost puts = { λ _ _ _. ⊤ };

    ghost breaks = { λ _ _ _. ⊤ };

    fn get(&mut self, key: Key, into: &mut [u8]) -> Completion {
        self.gets = self.gets.wrapping_add(1);
        if !self.breaks() && copy(&self.blocks, key, into) {
            return Completion::Done;
        }
        self.broken = true;
        Completion::Broken
    }

    fn get_part(&mut self, key: Key, first: usize, into: &mut [u8]) -> Completion {
        self.gets = self.gets.wrapping_add(1);
        if !self.breaks() && copy_part(&self.blocks, key, first, into) {
            return Completion::Done;
        }
        self.broken = true;
        Completion::Broken
    }

    fn put(&mut self, key: Key, from: &[u8]) -> Completion {
        self.puts = self.puts.wrapping_add(1);
        if !self.breaks() && replace(&mut self.blocks, key, from) {
            return Completion::Done;
        }
        self.broken = true;
        Completion::Broken
    }

    fn is_in_place(&self, _key: Key) -> bool {
        true
    }

    fn put_part(&mut self, key: Key, first: usize, from: &[u8]) -> Completion {
        self.puts = self.puts.wrapping_add(1);
        if !self.breaks() && replace_part(&mut self.blocks, key, first, from) {
            return Completion::Done;
        }
        self.broken = true;
        Completion::Broken
    }

    ghost follows_refl = { λ _. tt };

    ghost follows_trans = { λ _ _ _ _ _. tt };
}

// Copies the block under a key, where there is one of this length.
fn copy(blocks: &IndexMap<Key, Block>, key: Key, into: &mut [u8]) -> bool
    ensures { OnTrue result (lookup (same_key key) blocks.now.entries ≡ Some into.new) }
{
    let Some(block) = blocks.get(&key) else {
        return false;
    };
    if block.bytes().len() != into.len() {
        return false;
    }
    into.copy_from_slice(block.bytes());
    true
}

// Writes over the block under a key, where there is one of this length.
fn replace(blocks: &mut IndexMap<Key, Block>, key: Key, from: &[u8]) -> bool
    ensures there { OnTrue result (IsSome (lookup (same_key key) blocks.old.entries)) }
    ensures written { OnTrue result (blocks.new.entries ≡ set_value (same_key key) blocks.old.entries from.now) }
{
    let Some(block) = blocks.get_mut(&key) else {
        return false;
    };
    if block.bytes().len() != from.len() {
        return false;
    }
    block.copy_from_slice(from);
    true
}

#[tactic(auto, unfolding(ar_disks::specs::Block::part_at))]
// Copies a part of the block under a key, where there is a small one.
fn copy_part(blocks: &IndexMap<Key, Block>, key: Key, first: usize, into: &mut [u8]) -> bool
    requires { 512 * first + length into.old ≤ block_len_of Small }
    ensures { OnTrue result (into.new
        ≡ part_at (unwrap_or (lookup (same_key key) blocks.now.entries) []) first (length into.old)) }
{
    let Some(block) = blocks.get(&key) else {
        return false;
    };
    let bytes = block.bytes();
    if bytes.len() != Geometry::SMALL.block_len() {
        return false;
    }
    let from = first * SECTOR_LEN;
    let len = into.len();
    into.copy_from_slice(&bytes[from..from + len]);
    true
}

// Writes over a part of the block under a key, where there is a small one.
fn replace_part(blocks: &mut IndexMap<Key, Block>, key: Key, first: usize, from: &[u8]) -> bool
    requires { 512 * first + length from.now ≤ block_len_of Small }
    ensures there { OnTrue result (IsSome (lookup (same_key key) blocks.old.entries)) }
    ensures whole { OnTrue result
        (length (unwrap_or (lookup (same_key key) blocks.old.entries) []) ≡ block_len_of Small) }
    ensures written { OnTrue result (blocks.new.entries
        ≡ set_value (same_key key) blocks.old.entries
        (with_sectors (unwrap_or (lookup (same_key key) blocks.old.entries) []) first from.now)) }
{
    let Some(block) = blocks.get_mut(&key) else {
        return false;
    };
    if block.bytes().len() != Geometry::SMALL.block_len() {
        return false;
    }
    block.set_sectors(first, from);
    true
}
